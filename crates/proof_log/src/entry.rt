//! What a log keeps for each of its clauses.

use crate::step::Step;
use term_core::TermId;

/// One clause of a log, and why it is there.
#[derive(Drop)]
pub(crate) enum LogEntry {
    /// An assumed term, which is the clause's one literal.
    Assumed(TermId),
    /// A step, with its clause.
    Stepped(Step),
}
