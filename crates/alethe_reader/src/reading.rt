//! The command of a proof that a tree is.

ghost use Rattle.std.specs.Prelude.{Some};
ghost use Rattle.spec_commands.specs.Checks.{term_limit};
ghost use Rattle.spec_proofs.specs.RuleNames.{rule_named};
ghost use Rattle.spec_checking.specs.Commands.{Known, assumes, steps, defines};
ghost use Rattle.spec_checking.specs.Reading.{rule_at, read_shape, command_of};
ghost use Rattle.smt_command.specs.Commands.{parts_view};
ghost use Rattle.smt_sexpr.specs.Items.{tree_meant};
ghost use Rattle.smt_sexpr.specs.Views.{word_view};
ghost use Rattle.alethe_reader.specs.Shapes.{step_parts, shape_view};
ghost use Rattle.alethe_reader.specs.Holding.{HasKnown, IsKnown};
ghost use Rattle.alethe_reader.specs.Reads.{ReadsProofCommand};
ghost use Rattle.alethe_reader.specs.Parts.{Gives, rule_meant};

use crate::coefficients::coefficients_of;
use crate::errors::{CommandError, fault};
use crate::premises::{fresh_name, premises_of};
use crate::proof_state::ProofState;
use crate::shapes::{Shape, StepParts, shape_of};
use crate::terms::{definition, formula, literals};
use linear_form::Coeff;
use smt_command::FunctionText;
use smt_sexpr::{Trees, View, Word, look, offset};
use spec_proofs::{ProofKind, Rule};
use std::alloc::Global;
use term_core::TermId;

/// Holds a step that is read.
#[derive(Drop)]
pub struct ProofStep<'a> {
    /// Its offset, in bytes.
    pub at: u64,
    /// Its name.
    pub name: &'a [u8],
    /// Its clause, by the numbers of its terms.
    pub clause: Vec<TermId>,
    /// Its rule.
    pub rule: Rule,
    /// The numbers of its premises' clauses, in their order.
    pub premises: Vec<u64>,
    /// The texts of its arguments, where they are given.
    pub arguments: Option<Trees<'a>>,
    /// The numbers that these write, in their order.
    pub coefficients: Vec<Coeff>,
}

/// Holds a command that is read. What it defines is in the scope by then. Source: Alethe specification, commands.
#[derive(Drop)]
pub enum ReadCommand<'a> {
    /// A term is assumed: the offset of its text, the assume's name, and the term.
    Assume(u64, &'a [u8], TermId),
    /// A clause follows by a step.
    Step(ProofStep<'a>),
    /// A definition at an offset, which states nothing.
    Define(u64),
}

/// Finds the rule of a word, where it is one.
fn known_rule(word: Word<'_>) -> Result<Rule, CommandError>
    ensures { Gives rule_meant result (rule_at (word_view word.entry).at (rule_named (word_view word.entry).bytes)) }
{
    match Rule::named(word.bytes) {
        Some(rule) => Ok(rule),
        None => Err(fault(word.at, ProofKind::UnknownRule)),
    }
}

/// Reads a step by its parts, at an offset.
fn step<'a>(
    alloc: Global,
    state: &mut ProofState,
    at: u64,
    parts: StepParts<'a>,
) -> Result<ReadCommand<'a>, CommandError>
    requires { HasKnown state.old }
    ensures { (k : Known) → IsKnown state.old k
        → ReadsProofCommand k (read_shape (Some term_limit) k at (steps (step_parts parts.entry))) result state.new }
{
    let name = fresh_name(state, parts.name)?;
    let clause = literals(alloc, state, at, parts.literals)?;
    let rule = known_rule(parts.rule)?;
    let premises = premises_of(alloc, state, parts.premises)?;
    let coefficients = coefficients_of(alloc, parts.arguments)?;
    Ok(ReadCommand::Step(ProofStep {
        at,
        name,
        clause,
        rule,
        premises,
        arguments: parts.arguments,
        coefficients,
    }))
}

/// Reads an assume by its name and its term, in a command at an offset.
fn assume<'a>(
    alloc: Global,
    state: &mut ProofState,
    at: u64,
    word: Word<'a>,
    term: Trees<'a>,
) -> Result<ReadCommand<'a>, CommandError>
    requires { HasKnown state.old }
    ensures { (k : Known) → IsKnown state.old k
        → ReadsProofCommand k (read_shape (Some term_limit) k at
        (assumes (word_view word.entry) (tree_meant term.entry)))
        result state.new }
{
    let name = fresh_name(state, word)?;
    let id = formula(alloc, state, at, term)?;
    Ok(ReadCommand::Assume(offset(term), name, id))
}

/// Reads a definition by its parts, at an offset.
fn define<'a>(
    alloc: Global,
    state: &mut ProofState,
    at: u64,
    parts: FunctionText<'a>,
) -> Result<ReadCommand<'a>, CommandError>
    requires { HasKnown state.old }
    ensures { (k : Known) → IsKnown state.old k
        → ReadsProofCommand k (read_shape (Some term_limit) k at (defines (parts_view parts.entry))) result state.new }
{
    definition(alloc, state, at, parts)?;
    Ok(ReadCommand::Define(at))
}

/// Reads a command by its shape, at an offset.
fn by_shape<'a>(
    alloc: Global,
    state: &mut ProofState,
    at: u64,
    shape: Shape<'a>,
) -> Result<ReadCommand<'a>, CommandError>
    requires { HasKnown state.old }
    ensures { (k : Known) → IsKnown state.old k
        → ReadsProofCommand k (read_shape (Some term_limit) k at (shape_view shape.entry)) result state.new }
{
    match shape {
        Shape::Assume(word, term) => assume(alloc, state, at, word, term),
        Shape::Step(parts) => step(alloc, state, at, parts),
        Shape::Define(parts) => define(alloc, state, at, parts),
    }
}

/// Reads the command of a proof that the first tree is, and puts what it defines into the scope.
///
/// - `Fault` is its first fault, with its offset: `BadShape` where it has not the shape of a command; then of its parts, in
///   this order. Its name: `TwiceName`. Its terms, or its definition: the faults of terms, where `TwiceName` stands for a
///   name given by `:named` or defined that is known, and `Term(Full)` at the command for more names or different subterms
///   than 2^24. A step's rule: `UnknownRule`. Its premises: `UnknownPremise`.
/// - `Memory` may come at any allocation, and says nothing of the command.
///
/// After each of these nothing is promised of what is known. Source: Alethe specification, commands.
pub fn proof_command<'a>(
    alloc: Global,
    state: &mut ProofState,
    trees: Trees<'a>,
) -> Result<ReadCommand<'a>, CommandError>
    requires { HasKnown state.old }
    ensures { (k : Known) → IsKnown state.old k
        → ReadsProofCommand k (command_of (Some term_limit) k (tree_meant trees.entry)) result state.new }
{
    match look(trees) {
        View::Atom(at, _, _) => Err(fault(u64::from(at), ProofKind::BadShape)),
        View::List(at, inside, _) => match shape_of(inside) {
            Some(shape) => by_shape(alloc, state, u64::from(at), shape),
            None => Err(fault(u64::from(at), ProofKind::BadShape)),
        },
    }
}
