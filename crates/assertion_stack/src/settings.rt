//! Logics, options, and the beginning of a check.

ghost use Rattle.std.specs.Prelude.{◌≡◌, ℕ, true, Ok, OnErr};
ghost use Rattle.spec_commands.specs.Commands.{SetLogic, SetOption, CheckSat};
ghost use Rattle.spec_commands.specs.Stack.{Stack as ScriptStack, may_set, performed};
ghost use Rattle.smt_command.specs.Settings.{key_meant};
ghost use Rattle.smt_sexpr.specs.Items.{tree_meant};
ghost use Rattle.smt_sexpr.specs.Views.{word_view};
ghost use Rattle.term_core.specs.Tables.{TableView};
ghost use Rattle.assertion_stack.specs.Stacks.{over_table, IsStack, Performs};

use crate::assuming::Assumed;
use crate::faults::refused;
use crate::stack::{Effect, Stack};
use smt_command::{Logic, OptionKey, truth_in};
use smt_sexpr::{Trees, Word, is_reserved};
use spec_text::Fault;
use std::alloc::Global;
use term_reader::ReadError;

/// Sets the logic of a name, by a command at an offset. All logics that are known have one language.
pub(crate) fn set_logic<'a>(
    stack: &mut Stack,
    at: u64,
    word: Word<'_>,
) -> Result<Effect<'a>, ReadError>
    ensures performs { (limit : ℕ) (t : TableView) (s : ScriptStack) → IsStack limit (over_table t stack.old) s
        → Performs limit (performed limit at s (SetLogic (word_view word.entry))) (over_table t stack.new) result }
    ensures same { OnErr result (stack.new ≡ stack.old) }
{
    if is_reserved(word.kind) {
        return Err(refused(word.at, Fault::Reserved));
    }
    let Some(_) = Logic::named(word.bytes) else {
        return Err(refused(word.at, Fault::UnknownLogic));
    };
    if stack.started {
        return Err(refused(at, Fault::WrongMode));
    }
    stack.started = true;
    Ok(Effect::Done)
}

/// Tells whether an option may be set now: whether declarations are global is settled at the start.
fn may_set(stack: &Stack, key: OptionKey) -> bool
    ensures { (s : ScriptStack) → stack.now.started ≡ s.started → result ≡ may_set (key_meant key) s }
{
    match key {
        OptionKey::GlobalDeclarations => !stack.started,
        _ => true,
    }
}

/// Sets an option, by a command at an offset. One that is not known changes nothing, and one that may not be set now is
/// refused.
pub(crate) fn set_option<'a>(
    stack: &mut Stack,
    at: u64,
    name: &[u8],
    value: Trees<'_>,
) -> Result<Effect<'a>, ReadError>
    ensures performs { (limit : ℕ) (t : TableView) (s : ScriptStack) → IsStack limit (over_table t stack.old) s
        → Performs limit (performed limit at s (SetOption name.now (tree_meant value.entry))) (over_table t stack.new)
        result }
    ensures same { OnErr result (stack.new ≡ stack.old) }
{
    let Some(key) = OptionKey::named(name) else {
        return Ok(Effect::Unsupported);
    };
    let Some(truth) = truth_in(value) else {
        return Err(refused(at, Fault::BadShape));
    };
    if !may_set(stack, key) {
        return Err(refused(at, Fault::WrongMode));
    }
    stack.options = stack.options.with(key, truth);
    Ok(Effect::Done)
}

/// Begins a check that assumes nothing, by a command whose word is at a place.
pub(crate) fn begin_check<'a>(stack: &mut Stack, alloc: Global, place: u64) -> Effect<'a>
    ensures performs { (limit at : ℕ) (t : TableView) (s : ScriptStack) → IsStack limit (over_table t stack.old) s
        → Performs limit (performed limit at s (CheckSat place)) (over_table t stack.new) (Ok result) }
    ensures begun { stack.new ≡ record stack.old { started = true } }
{
    stack.started = true;
    Effect::Check(place, Assumed::nothing(alloc))
}
