//! A command of a script by its parts, and the words of commands.

ghost use Rattle.std.specs.Prelude.{◌≡◌, drop, option_map, take};
ghost use Rattle.spec_sorts.specs.Theory.{look_up};
ghost use Rattle.spec_commands.specs.Commands.{verbs, verb_named, verb_of};
ghost use Rattle.smt_sexpr.specs.Items.{tree_meant};
ghost use Rattle.smt_command.specs.Commands.{verb_meant};

use smt_sexpr::{Kind, Trees, View, Word, is_reserved, look, same_bytes};

/// A command of a script. Its parts are as they are written.
///
/// Source: SMT-LIB 2.6, section 3.9. That sorts have no parameters is own.
#[derive(Clone, Copy)]
pub enum Command<'a> {
    /// The name of a logic, which may be a reserved word.
    SetLogic(Word<'a>),
    /// An option by its name, without its colon, and the value that it gets.
    SetOption(&'a [u8], Trees<'a>),
    /// Information on the script, which changes nothing.
    SetInfo,
    /// A sort without parameters, under the name as it is written. It may be a reserved word, as each name below.
    DeclareSort(Word<'a>),
    /// The name of a sort, and the sort that it means.
    DefineSort(Word<'a>, Trees<'a>),
    /// A constant under its name, and its sort.
    DeclareConst(Word<'a>, Trees<'a>),
    /// A function under its name, the sorts of its parameters, none or more, and the sort of its values.
    DeclareFun(Word<'a>, Trees<'a>, Trees<'a>),
    /// The definition of a function, by its parts.
    DefineFun(FunctionText<'a>),
    /// The term is asserted.
    Assert(Trees<'a>),
    /// So many levels are opened. A numeral above 2^64 - 1 counts as 2^64 - 1.
    Push(u64),
    /// So many levels are closed. A numeral above 2^64 - 1 counts as 2^64 - 1.
    Pop(u64),
    /// What is asserted is to be checked. The number is the offset of the word `check-sat`, in bytes.
    CheckSat(u64),
    /// The same, with the literals assumed that these trees are, none or more. The number is the offset of the word
    /// `check-sat-assuming`, in bytes.
    CheckSatAssuming(u64, Trees<'a>),
    /// What is declared, defined and asserted is taken back.
    ResetAssertions,
    /// All is taken back, the options and the logic too.
    Reset,
    /// A text is to be written: what is between its quotes, where two quotes stand for one.
    Echo(&'a [u8]),
    /// The script ends.
    Exit,
}

/// The definition of a function, by its parts as they are written. Source: SMT-LIB 2.6, section 4.2.3.
#[derive(Clone, Copy)]
pub struct FunctionText<'a> {
    /// The name of the function.
    pub name: Word<'a>,
    /// Its parameters, none or more: each a list of a name and a sort.
    pub parameters: Trees<'a>,
    /// The sort of its values.
    pub result: Trees<'a>,
    /// The term that it stands for.
    pub body: Trees<'a>,
}

/// The word of a command.
#[derive(Clone, Copy)]
pub(crate) enum Verb {
    /// `set-logic`.
    SetLogic,
    /// `set-option`.
    SetOption,
    /// `set-info`.
    SetInfo,
    /// `declare-sort`.
    DeclareSort,
    /// `define-sort`.
    DefineSort,
    /// `declare-const`.
    DeclareConst,
    /// `declare-fun`.
    DeclareFun,
    /// `define-fun`.
    DefineFun,
    /// `assert`.
    Assert,
    /// `push`.
    Push,
    /// `pop`.
    Pop,
    /// `check-sat`.
    CheckSat,
    /// `check-sat-assuming`.
    CheckSatAssuming,
    /// `reset-assertions`.
    ResetAssertions,
    /// `reset`.
    Reset,
    /// `echo`.
    Echo,
    /// `exit`.
    Exit,
}

/// Finds the word of a command, where a word is one.
fn verb_named(kind: Kind, name: &[u8]) -> Option<Verb>
    ensures { option_map verb_meant result ≡ verb_named kind name.now }
{
    if !is_reserved(kind) {
        return None;
    }
    if let Some(verb) = declaring_named(name) {
        return Some(verb);
    }
    other_named(name)
}

/// Finds the word of a command that sets, declares or defines.
fn declaring_named(name: &[u8]) -> Option<Verb>
    ensures { option_map verb_meant result ≡ look_up (take 8 verbs) name.now }
{
    if same_bytes(b"set-logic", name) {
        return Some(Verb::SetLogic);
    }
    if same_bytes(b"set-option", name) {
        return Some(Verb::SetOption);
    }
    if same_bytes(b"set-info", name) {
        return Some(Verb::SetInfo);
    }
    if same_bytes(b"declare-sort", name) {
        return Some(Verb::DeclareSort);
    }
    if same_bytes(b"define-sort", name) {
        return Some(Verb::DefineSort);
    }
    if same_bytes(b"declare-const", name) {
        return Some(Verb::DeclareConst);
    }
    if same_bytes(b"declare-fun", name) {
        return Some(Verb::DeclareFun);
    }
    if same_bytes(b"define-fun", name) {
        return Some(Verb::DefineFun);
    }
    None
}

/// Finds the word of any other command.
fn other_named(name: &[u8]) -> Option<Verb>
    ensures { option_map verb_meant result ≡ look_up (drop 8 verbs) name.now }
{
    if same_bytes(b"assert", name) {
        return Some(Verb::Assert);
    }
    if same_bytes(b"push", name) {
        return Some(Verb::Push);
    }
    if same_bytes(b"pop", name) {
        return Some(Verb::Pop);
    }
    if same_bytes(b"check-sat", name) {
        return Some(Verb::CheckSat);
    }
    if same_bytes(b"check-sat-assuming", name) {
        return Some(Verb::CheckSatAssuming);
    }
    if same_bytes(b"reset-assertions", name) {
        return Some(Verb::ResetAssertions);
    }
    if same_bytes(b"reset", name) {
        return Some(Verb::Reset);
    }
    if same_bytes(b"echo", name) {
        return Some(Verb::Echo);
    }
    if same_bytes(b"exit", name) {
        return Some(Verb::Exit);
    }
    None
}

/// Finds the word of a command that the first tree is.
pub(crate) fn verb_of(trees: Trees<'_>) -> Option<Verb>
    ensures { option_map verb_meant result ≡ verb_of (tree_meant trees.entry) }
{
    match look(trees) {
        View::Atom(_, kind, bytes) => verb_named(kind, bytes),
        View::List(_, _, _) => None,
    }
}
