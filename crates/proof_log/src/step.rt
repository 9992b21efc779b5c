//! Steps of a proof.

use crate::numbers::Numbers;
use crate::premises::StepIds;
use spec_proofs::Rule;
use term_core::Clause;

/// Says that a clause follows by a rule from premises, with arguments.
///
/// Source: Alethe specification, the command `step`.
#[derive(Drop)]
pub struct Step {
    /// The rule.
    pub rule: Rule,
    /// The premises, in the rule's order, by their numbers in the log.
    pub premises: StepIds,
    /// The rule's arguments; `la_generic` alone asks for any.
    pub arguments: Numbers,
    /// The clause, whose terms are of a table.
    pub clause: Clause,
}
