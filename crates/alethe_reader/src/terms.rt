//! The terms of a command, and what it defines, read into the table and the scope.

ghost use Rattle.std.specs.Prelude.{◌≡◌, ◌∷◌, Some};
ghost use Rattle.spec_reading.specs.Names.{proof};
ghost use Rattle.spec_commands.specs.Checks.{term_limit};
ghost use Rattle.spec_checking.specs.Commands.{Known};
ghost use Rattle.spec_checking.specs.Reading.{named_in, named_in_all, in_proof, roomy_literals, roomy_formula, roomy_definitions};
ghost use Rattle.smt_sexpr.specs.Items.{trees_meant, tree_meant};
ghost use Rattle.smt_command.specs.Commands.{parts_view};
ghost use Rattle.term_reader.specs.Names.{setting_meant};
ghost use Rattle.alethe_reader.specs.Holding.{HasKnown, IsKnown};
ghost use Rattle.alethe_reader.specs.Parts.{ReadsLiterals, ReadsFormula, ReadsDefinition};

use crate::errors::CommandError;
use crate::naming::{error_in_definition, error_in_text, error_in_texts};
use crate::proof_state::ProofState;
use assertion_stack::TERM_LIMIT;
use smt_command::FunctionText;
use smt_sexpr::Trees;
use sort_check::{Room, define, term, terms};
use std::alloc::Global;
use term_core::{Sort, TermId};
use term_reader::Setting;

/// Says how the texts of a proof are read, and what their new names may be.
fn in_proof<'a>() -> Setting<'a>
    ensures { setting_meant result ≡ proof }
{
    Setting {
        kept_names: true,
        may_name: true,
        own: None,
    }
}

/// Gives the room for the names and terms of a command at an offset.
fn room(at: u64) -> Room
    ensures { result ≡ record { limit = Some term_limit; at = at } }
{
    Room {
        limit: Some(TERM_LIMIT),
        at,
    }
}

/// Reads the literals of a command at an offset.
pub(crate) fn literals(
    alloc: Global,
    state: &mut ProofState,
    at: u64,
    texts: Trees<'_>,
) -> Result<Vec<TermId>, CommandError>
    requires { HasKnown state.old }
    ensures reads { (k : Known) → IsKnown state.old k → ReadsLiterals k state.new (in_proof
        (named_in_all (trees_meant texts.entry))
        (roomy_literals (Some term_limit) at k.scope (trees_meant texts.entry))) result }
    ensures names { state.new.names ≡ state.old.names }
{
    match terms(
        alloc,
        &mut state.table,
        &mut state.scope,
        in_proof(),
        Sort::Bool,
        texts,
        room(at),
    ) {
        Ok(ids) => Ok(ids),
        Err(error) => Err(error_in_texts(alloc, texts, error)),
    }
}

/// Reads the formula of a command at an offset, which is the first tree.
pub(crate) fn formula(
    alloc: Global,
    state: &mut ProofState,
    at: u64,
    text: Trees<'_>,
) -> Result<TermId, CommandError>
    requires { HasKnown state.old }
    ensures reads { (k : Known) → IsKnown state.old k → ReadsFormula k state.new (in_proof
        (named_in (tree_meant text.entry))
        (roomy_formula (Some term_limit) at k.scope (tree_meant text.entry))) result }
    ensures names { state.new.names ≡ state.old.names }
{
    match term(
        alloc,
        &mut state.table,
        &mut state.scope,
        in_proof(),
        Sort::Bool,
        text,
        room(at),
    ) {
        Ok(id) => Ok(id),
        Err(error) => Err(error_in_text(alloc, text, error)),
    }
}

/// Reads a definition at an offset, and puts what it makes into the scope.
pub(crate) fn definition(
    alloc: Global,
    state: &mut ProofState,
    at: u64,
    parts: FunctionText<'_>,
) -> Result<(), CommandError>
    requires { HasKnown state.old }
    ensures { (k : Known) → IsKnown state.old k → ReadsDefinition k state.new (in_proof
        ((parts_view parts.entry).name ∷ named_in (parts_view parts.entry).body)
        (roomy_definitions (Some term_limit) at k.scope (parts_view parts.entry))) result }
{
    let FunctionText {
        name,
        parameters,
        result,
        body,
    } = parts;
    let whole = sort_check::FunctionParts {
        name,
        parameters,
        result,
        body,
    };
    match define(
        alloc,
        &mut state.table,
        &mut state.scope,
        in_proof(),
        whole,
        room(at),
    ) {
        Ok(()) => Ok(()),
        Err(error) => Err(error_in_definition(alloc, name, body, error)),
    }
}
