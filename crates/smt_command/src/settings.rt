//! The names that `set-logic` and `set-option` know, and the values of options.

ghost use Rattle.std.specs.Prelude.{◌≡◌, option_map};
ghost use Rattle.spec_commands.specs.Stack.{key_named, truth_named, truth_in};
ghost use Rattle.smt_sexpr.specs.Items.{tree_meant};
ghost use Rattle.smt_command.specs.Settings.{IsLogicNamed, key_meant};

use smt_sexpr::{Trees, View, is_symbol, look, same_bytes};

/// A logic that a script may set. All have one language here. Source: SMT-LIB 2.6, section 4.2.1, and the names of
/// SMT-LIB's logics.
#[derive(Clone, Copy, Debug, PartialEq, Eq)]
pub enum Logic {
    /// `QF_UFLRA`.
    QfUflra,
    /// `QF_UF`.
    QfUf,
    /// `QF_LRA`.
    QfLra,
    /// `QF_RDL`.
    QfRdl,
    /// `ALL`.
    All,
}

impl Logic {
    /// Finds the logic of a name; `None` where no logic that is known has it.
    pub fn named(name: &[u8]) -> Option<Logic>
        ensures { IsLogicNamed name.now result }
    {
        if same_bytes(b"QF_UFLRA", name) {
            return Some(Logic::QfUflra);
        }
        if same_bytes(b"QF_UF", name) {
            return Some(Logic::QfUf);
        }
        if same_bytes(b"QF_LRA", name) {
            return Some(Logic::QfLra);
        }
        if same_bytes(b"QF_RDL", name) {
            return Some(Logic::QfRdl);
        }
        if same_bytes(b"ALL", name) {
            return Some(Logic::All);
        }
        None
    }
}

/// An option that is known. Each has a truth value. Source: SMT-LIB 2.6, section 4.1.7.
#[derive(Clone, Copy, Debug, PartialEq, Eq)]
pub enum OptionKey {
    /// `:print-success`.
    PrintSuccess,
    /// `:produce-models`.
    ProduceModels,
    /// `:produce-proofs`.
    ProduceProofs,
    /// `:produce-assertions`.
    ProduceAssertions,
    /// `:produce-unsat-cores`.
    ProduceUnsatCores,
    /// `:produce-unsat-assumptions`.
    ProduceUnsatAssumptions,
    /// `:global-declarations`.
    GlobalDeclarations,
}

impl OptionKey {
    /// Finds the option of a name, without its colon; `None` where no option that is known has it.
    pub fn named(name: &[u8]) -> Option<OptionKey>
        ensures { option_map key_meant result ≡ key_named name.now }
    {
        if same_bytes(name, b"print-success") {
            return Some(OptionKey::PrintSuccess);
        }
        if same_bytes(name, b"produce-models") {
            return Some(OptionKey::ProduceModels);
        }
        if same_bytes(name, b"produce-proofs") {
            return Some(OptionKey::ProduceProofs);
        }
        if same_bytes(name, b"produce-assertions") {
            return Some(OptionKey::ProduceAssertions);
        }
        if same_bytes(name, b"produce-unsat-cores") {
            return Some(OptionKey::ProduceUnsatCores);
        }
        if same_bytes(name, b"produce-unsat-assumptions") {
            return Some(OptionKey::ProduceUnsatAssumptions);
        }
        if same_bytes(name, b"global-declarations") {
            return Some(OptionKey::GlobalDeclarations);
        }
        None
    }
}

/// Finds the truth value that a name is.
fn truth_named(name: &[u8]) -> Option<bool>
    ensures { result ≡ truth_named name.now }
{
    if same_bytes(name, b"true") {
        return Some(true);
    }
    if same_bytes(name, b"false") {
        return Some(false);
    }
    None
}

/// Finds the truth value that the first tree is as the value of an option: `true` or `false`, with bars or without; `None`
/// where it is anything else. Source: SMT-LIB 2.6, section 4.1.7.
pub fn truth_in(trees: Trees<'_>) -> Option<bool>
    ensures { result ≡ truth_in (tree_meant trees.entry) }
{
    match look(trees) {
        View::Atom(_, kind, bytes) => {
            if is_symbol(kind) {
                return truth_named(bytes);
            }
            None
        }
        View::List(_, _, _) => None,
    }
}
