//! How what a check found is written.

ghost use Rattle.std.specs.Prelude.{◌≡◌};
ghost use Rattle.world_io.specs.Writing.{Sends};
ghost use Rattle.spec_sorts.specs.Signatures.{symbols_in};
ghost use Rattle.spec_commands.specs.Stack.{signature_of};
ghost use Rattle.spec_models.specs.Replies.{word_line};
ghost use Rattle.spec_sessions.specs.Evidence.{Found, Checked};
ghost use Rattle.spec_sessions.specs.Responses.{answer_text, evidence_text};
ghost use Rattle.sat_budget.specs.Budgets.{BudgetView};
ghost use Rattle.term_core.specs.Tables.{TableView};
ghost use Rattle.check_evidence.specs.Evidence.{IsEvidence, IsSomeEvidence};

use crate::evidence::Evidence;
use alethe_writer::send as send_proof;
use model_text::send as send_model;
use reply_text::{ResponseWord, overflow, spent, word};
use sat_budget::Reason;
use term_core::TermTable;
use world_io::{Failed, Sink};

/// Writes the word that answers a check: `sat`, `unsat` or `unknown`, on a line. It takes no memory.
///
/// `Failed` comes only where the sink's count of faults rose in this call; a prefix was then appended.
/// Source: SMT-LIB 2.6, section 4.2.5.
pub fn send_answer<K: Sink>(evidence: &Evidence, out: &mut K) -> Result<(), Failed>
    ensures { (t : TableView) (budget : BudgetView) (f : Found) → IsEvidence t budget evidence.now f
        → Sends (answer_text f) result (K.state out.old) (K.state out.new) }
{
    word(word_of(evidence), out)
}

/// The word that answers a check.
fn word_of(evidence: &Evidence) -> ResponseWord
    ensures { (t : TableView) (budget : BudgetView) (f : Found) → IsEvidence t budget evidence.now f
        → answer_text f ≡ word_line result }
{
    match evidence {
        Evidence::Model(_) => ResponseWord::Sat,
        Evidence::Proof(_, _) => ResponseWord::Unsat,
        Evidence::Reason(_) => ResponseWord::Unknown,
    }
}

/// Writes what shows that the answer of a check is right: a model, a proof or a reason. It takes no memory.
///
/// `Failed` comes only where the sink's count of faults rose in this call; a prefix was then appended.
/// Source: SMT-LIB 2.6, section 4.2.6, for models; Alethe specification, for proofs.
pub fn send_evidence<K: Sink>(
    table: &TermTable,
    evidence: &Evidence,
    out: &mut K,
) -> Result<(), Failed>
    requires { IsSomeEvidence table.now evidence.now }
    ensures { (budget : BudgetView) (c : Checked) → symbols_in (signature_of c.check.stack) ≡ table.now.symbols
        → IsEvidence table.now budget evidence.now c.found
        → Sends (evidence_text c) result (K.state out.old) (K.state out.new) }
{
    match evidence {
        Evidence::Model(interp) => send_model(interp, table, out),
        Evidence::Proof(log, plan) => send_proof(plan, log, table, out),
        Evidence::Reason(Reason::Overflow(strain)) => overflow(strain.wide, out),
        Evidence::Reason(Reason::Conflicts(count)) => spent(*count, out),
    }
}
