//! The shape of each command, by the trees after its word.

ghost use Rattle.std.specs.Prelude.{◌≡◌, ◌*◌, ◌+◌, ◌-◌, option_map};
ghost use Rattle.spec_sorts.specs.Forms.{is_name, are_named};
ghost use Rattle.spec_sorts.specs.Numerals.{number_after};
ghost use Rattle.spec_commands.specs.Commands.{is_numeral, is_string, one_at_most, first_name, first_tree, set_logic, set_option, set_info, declare_sort, define_sort, declare_const, declare_fun, define_fun, assertion, number_of_levels, levels_in, push, pop, check_assuming, echo, alone, command_by};
ghost use Rattle.smt_sexpr.specs.Items.{trees_meant, tree_meant, two};
ghost use Rattle.smt_sexpr.specs.Views.{word_rest};
ghost use Rattle.smt_command.specs.Commands.{command_view, verb_meant, named_parts, is_named, levels_written};

use crate::commands::{Command, FunctionText, Verb};
use smt_sexpr::{
    Kind, Trees, Word, is_keyword, is_reserved, is_symbol, list_first, list_inside, passes,
    same_bytes, split, tree_alone, want_end, word_first,
};

/// Tells whether a kind may be where a new name has to: a symbol, or a reserved word, which is refused later.
pub fn is_name(kind: Kind) -> bool
    ensures { result ≡ is_name kind }
{
    is_symbol(kind) || is_reserved(kind)
}

/// Tells whether a kind is that of numerals.
fn is_numeral(kind: Kind) -> bool
    ensures { result ≡ is_numeral kind }
{
    match kind {
        Kind::Numeral => true,
        _ => false,
    }
}

/// Tells whether a kind is that of strings.
fn is_string(kind: Kind) -> bool
    ensures { result ≡ is_string kind }
{
    match kind {
        Kind::Text => true,
        _ => false,
    }
}

/// Asks that there is one tree at most.
fn want_one_at_most(trees: Trees<'_>) -> Option<()>
    ensures { result ≡ one_at_most (trees_meant trees.entry) }
{
    match split(trees) {
        None => Some(()),
        Some((_, rest)) => want_end(rest),
    }
}

/// Takes the first tree, and gives those after it too.
fn tree_first(trees: Trees<'_>) -> Option<(Trees<'_>, Trees<'_>)>
    ensures { option_map two result ≡ first_tree (trees_meant trees.entry) }
{
    split(trees)
}

/// Takes what may be a new name, and gives the trees after it too.
#[tactic(auto, unfolding(spec_commands::specs::Commands::first_name))]
fn name_first(trees: Trees<'_>) -> Option<(Word<'_>, Trees<'_>)>
    ensures { option_map word_rest result ≡ first_name (trees_meant trees.entry) }
{
    let (name, rest) = word_first(trees)?;
    passes(is_name(name.kind))?;
    Some((name, rest))
}

/// Asks that the trees are what may be a new name, and one tree more.
#[tactic(auto, unfolding(crate::specs::Commands::named_parts))]
fn want_named(trees: Trees<'_>) -> Option<()>
    ensures { result ≡ named_parts (trees_meant trees.entry) }
{
    let (_, rest) = name_first(trees)?;
    tree_alone(rest)?;
    Some(())
}

/// Tells whether the first tree is a list of what may be a new name and one tree more.
fn is_named(trees: Trees<'_>) -> bool
    ensures { result ≡ is_named (tree_meant trees.entry) }
{
    match list_inside(trees) {
        None => false,
        Some((_, inside)) => want_named(inside).is_some(),
    }
}

/// Tells whether each tree is a list of what may be a new name and one tree more.
fn are_named(trees: Trees<'_>) -> bool
    ensures { result ≡ are_named (trees_meant trees.entry) }
{
    let mut rest = trees;
    'named: loop {
        let Some((first, others)) = split(rest) else {
            return true;
        };
        if !is_named(first) {
            return false;
        }
        rest = others;
    }
}

/// Reads `set-logic`, after its word.
#[tactic(auto, unfolding(spec_commands::specs::Commands::set_logic))]
fn set_logic(trees: Trees<'_>) -> Option<Command<'_>>
    ensures { option_map command_view result ≡ set_logic (trees_meant trees.entry) }
{
    let (logic, rest) = name_first(trees)?;
    want_end(rest)?;
    Some(Command::SetLogic(logic))
}

/// Reads `set-option`, after its word.
#[tactic(auto, unfolding(spec_commands::specs::Commands::set_option))]
fn set_option(trees: Trees<'_>) -> Option<Command<'_>>
    ensures { option_map command_view result ≡ set_option (trees_meant trees.entry) }
{
    let (key, rest) = word_first(trees)?;
    passes(is_keyword(key.kind))?;
    let value = tree_alone(rest)?;
    Some(Command::SetOption(key.bytes, value))
}

/// Reads `set-info`, after its word.
#[tactic(auto, unfolding(spec_commands::specs::Commands::set_info))]
fn set_info(trees: Trees<'_>) -> Option<Command<'_>>
    ensures { option_map command_view result ≡ set_info (trees_meant trees.entry) }
{
    let (key, rest) = word_first(trees)?;
    passes(is_keyword(key.kind))?;
    want_one_at_most(rest)?;
    Some(Command::SetInfo)
}

/// Reads `declare-sort`, after its word.
#[tactic(auto, unfolding(spec_commands::specs::Commands::declare_sort))]
fn declare_sort(trees: Trees<'_>) -> Option<Command<'_>>
    ensures { option_map command_view result ≡ declare_sort (trees_meant trees.entry) }
{
    let (name, rest) = name_first(trees)?;
    let (arity, rest) = word_first(rest)?;
    passes(is_numeral(arity.kind))?;
    passes(same_bytes(arity.bytes, b"0"))?;
    want_end(rest)?;
    Some(Command::DeclareSort(name))
}

/// Reads `define-sort`, after its word.
#[tactic(auto, unfolding(spec_commands::specs::Commands::define_sort))]
fn define_sort(trees: Trees<'_>) -> Option<Command<'_>>
    ensures { option_map command_view result ≡ define_sort (trees_meant trees.entry) }
{
    let (name, rest) = name_first(trees)?;
    let (parameters, rest) = list_first(rest)?;
    want_end(parameters)?;
    let sort = tree_alone(rest)?;
    Some(Command::DefineSort(name, sort))
}

/// Reads `declare-const`, after its word.
#[tactic(auto, unfolding(spec_commands::specs::Commands::declare_const))]
fn declare_const(trees: Trees<'_>) -> Option<Command<'_>>
    ensures { option_map command_view result ≡ declare_const (trees_meant trees.entry) }
{
    let (name, rest) = name_first(trees)?;
    let sort = tree_alone(rest)?;
    Some(Command::DeclareConst(name, sort))
}

/// Reads `declare-fun`, after its word.
#[tactic(auto, unfolding(spec_commands::specs::Commands::declare_fun))]
fn declare_fun(trees: Trees<'_>) -> Option<Command<'_>>
    ensures { option_map command_view result ≡ declare_fun (trees_meant trees.entry) }
{
    let (name, rest) = name_first(trees)?;
    let (parameters, rest) = list_first(rest)?;
    let sort = tree_alone(rest)?;
    Some(Command::DeclareFun(name, parameters, sort))
}

/// Reads `define-fun`, after its word; `None` where the trees have another shape than it. Source: SMT-LIB 2.6, section 3.9.
#[tactic(auto, unfolding(spec_commands::specs::Commands::define_fun))]
pub fn define_fun(trees: Trees<'_>) -> Option<Command<'_>>
    ensures { option_map command_view result ≡ define_fun (trees_meant trees.entry) }
{
    let (name, rest) = name_first(trees)?;
    let (parameters, rest) = list_first(rest)?;
    passes(are_named(parameters))?;
    let (result, rest) = tree_first(rest)?;
    let body = tree_alone(rest)?;
    Some(Command::DefineFun(FunctionText {
        name,
        parameters,
        result,
        body,
    }))
}

/// Reads `assert`, after its word.
#[tactic(auto, unfolding(spec_commands::specs::Commands::assertion))]
fn assertion(trees: Trees<'_>) -> Option<Command<'_>>
    ensures { option_map command_view result ≡ assertion (trees_meant trees.entry) }
{
    let term = tree_alone(trees)?;
    Some(Command::Assert(term))
}

/// Gives the number that one digit more writes, or 2^64 - 1 where it is above that.
fn with_digit(number: u64, digit: u8) -> u64
    ensures { result ≡ number_of_levels (number * 10 + (digit - 48)) }
{
    let tens = number.saturating_mul(10);
    tens.saturating_add(u64::from(digit.saturating_sub(48)))
}

/// Gives the number that digits write, or 2^64 - 1 where it is above that.
fn number_of(digits: &[u8]) -> u64
    ensures { result ≡ number_of_levels (number_after 0 digits.now) }
{
    let mut number = 0;
    let mut rest = digits;
    'digits: while let Some((digit, after)) = rest.split_first() {
        number = with_digit(number, *digit);
        rest = after;
    }
    number
}

/// Takes a numeral alone as a number of levels.
#[tactic(auto, unfolding(crate::specs::Commands::levels_written))]
fn levels_written(trees: Trees<'_>) -> Option<u64>
    ensures { result ≡ levels_written (trees_meant trees.entry) }
{
    let (number, rest) = word_first(trees)?;
    passes(is_numeral(number.kind))?;
    want_end(rest)?;
    Some(number_of(number.bytes))
}

/// Takes a number of levels: a numeral, or nothing, which counts as 1.
fn levels_in(trees: Trees<'_>) -> Option<u64>
    ensures { result ≡ levels_in (trees_meant trees.entry) }
{
    match split(trees) {
        None => Some(1),
        Some(_) => levels_written(trees),
    }
}

/// Reads `push`, after its word.
#[tactic(auto, unfolding(spec_commands::specs::Commands::push))]
fn push(trees: Trees<'_>) -> Option<Command<'_>>
    ensures { option_map command_view result ≡ push (trees_meant trees.entry) }
{
    let levels = levels_in(trees)?;
    Some(Command::Push(levels))
}

/// Reads `pop`, after its word.
#[tactic(auto, unfolding(spec_commands::specs::Commands::pop))]
fn pop(trees: Trees<'_>) -> Option<Command<'_>>
    ensures { option_map command_view result ≡ pop (trees_meant trees.entry) }
{
    let levels = levels_in(trees)?;
    Some(Command::Pop(levels))
}

/// Reads `check-sat-assuming`, whose word is at an offset, after its word: the list of its literals, none or more.
#[tactic(auto, unfolding(spec_commands::specs::Commands::check_assuming))]
fn check_assuming(at: u64, trees: Trees<'_>) -> Option<Command<'_>>
    ensures { option_map command_view result ≡ check_assuming at (trees_meant trees.entry) }
{
    let (literals, rest) = list_first(trees)?;
    want_end(rest)?;
    Some(Command::CheckSatAssuming(at, literals))
}

/// Reads `echo`, after its word.
#[tactic(auto, unfolding(spec_commands::specs::Commands::echo))]
fn echo(trees: Trees<'_>) -> Option<Command<'_>>
    ensures { option_map command_view result ≡ echo (trees_meant trees.entry) }
{
    let (text, rest) = word_first(trees)?;
    passes(is_string(text.kind))?;
    want_end(rest)?;
    Some(Command::Echo(text.bytes))
}

/// Reads a command without parts, after its word.
fn alone<'a>(command: Command<'a>, trees: Trees<'a>) -> Option<Command<'a>>
    ensures { option_map command_view result ≡ alone (command_view command.entry) (trees_meant trees.entry) }
{
    want_end(trees)?;
    Some(command)
}

/// Reads the command of a word at an offset, by the trees after it.
pub(crate) fn by_verb(verb: Verb, at: u64, trees: Trees<'_>) -> Option<Command<'_>>
    ensures { option_map command_view result ≡ command_by (verb_meant verb) at (trees_meant trees.entry) }
{
    match verb {
        Verb::SetLogic => set_logic(trees),
        Verb::SetOption => set_option(trees),
        Verb::SetInfo => set_info(trees),
        Verb::DeclareSort => declare_sort(trees),
        Verb::DefineSort => define_sort(trees),
        Verb::DeclareConst => declare_const(trees),
        Verb::DeclareFun => declare_fun(trees),
        Verb::DefineFun => define_fun(trees),
        Verb::Assert => assertion(trees),
        Verb::Push => push(trees),
        Verb::Pop => pop(trees),
        Verb::CheckSat => alone(Command::CheckSat(at), trees),
        Verb::CheckSatAssuming => check_assuming(at, trees),
        Verb::ResetAssertions => alone(Command::ResetAssertions, trees),
        Verb::Reset => alone(Command::Reset, trees),
        Verb::Echo => echo(trees),
        Verb::Exit => alone(Command::Exit, trees),
    }
}
