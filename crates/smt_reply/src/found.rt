//! What the last check found.

ghost use Rattle.std.specs.Prelude.{◌≡◌, Option, option_map};
ghost use Rattle.spec_sorts.specs.Signatures.{is_some};
ghost use Rattle.spec_sessions.specs.Evidence.{Checked};
ghost use Rattle.spec_sessions.specs.Replies.{model_found, proof_found, reason_found};
ghost use Rattle.term_core.specs.Tables.{TableView};
ghost use Rattle.sat_budget.specs.Budgets.{BudgetView};
ghost use Rattle.smt_reply.specs.Replies.{IsLastAnswer, HoldsAnswer, found_in, IsModelFound, FitsTable, fault_of};
ghost use Rattle.smt_reply.specs.Cores.{IsProofFound, FitsPlanned, planned};

use alethe_writer::Plan;
use check_evidence::Evidence;
use proof_log::ProofLog;
use spec_text::Fault;
use term_reader::{ReadError, fault_at};
use term_walks::Interp;

/// Makes a fault at an offset.
pub(crate) fn refused(at: u64, fault: Fault) -> ReadError
    ensures { result ≡ fault_of at fault }
{
    ReadError::Fault(fault_at(at, fault))
}

/// Finds the model of the last check, where it found one.
pub(crate) fn model_of<'a>(answer: &'a Option<Evidence>) -> Option<&'a Interp>
    ensures found { (t : TableView) (budget : BudgetView) (last : Option Checked)
        → IsLastAnswer t budget answer.now last
        → IsModelFound t (option_map (λ m. m.now) result) (found_in model_found last) }
    ensures fits { (t : TableView) → HoldsAnswer t answer.now
        → FitsTable t (option_map (λ m. m.now) result) }
{
    match answer {
        None => None,
        Some(evidence) => match evidence {
            Evidence::Model(interp) => Some(interp),
            Evidence::Proof(_, _) => None,
            Evidence::Reason(_) => None,
        },
    }
}

/// Finds the proof of the last check, where it found one: its log, and the plan by which it is printed.
pub(crate) fn proof_of<'a>(answer: &'a Option<Evidence>) -> Option<(&'a ProofLog, &'a Plan)>
    ensures found { (t : TableView) (budget : BudgetView) (last : Option Checked)
        → IsLastAnswer t budget answer.now last
        → IsProofFound t (option_map (λ x. planned x.0.now x.1.now) result) last }
    ensures fits { (t : TableView) → HoldsAnswer t answer.now
        → FitsPlanned t (option_map (λ x. planned x.0.now x.1.now) result) }
{
    match answer {
        None => None,
        Some(evidence) => match evidence {
            Evidence::Model(_) => None,
            Evidence::Proof(log, plan) => Some((log, plan)),
            Evidence::Reason(_) => None,
        },
    }
}

/// Tells whether the last check found a model.
pub(crate) fn found_model(answer: &Option<Evidence>) -> bool
    ensures { (t : TableView) (budget : BudgetView) (last : Option Checked)
        → IsLastAnswer t budget answer.now last → result ≡ is_some (found_in model_found last) }
{
    match answer {
        None => false,
        Some(evidence) => match evidence {
            Evidence::Model(_) => true,
            Evidence::Proof(_, _) => false,
            Evidence::Reason(_) => false,
        },
    }
}

/// Tells whether the last check found a proof.
pub(crate) fn found_proof(answer: &Option<Evidence>) -> bool
    ensures { (t : TableView) (budget : BudgetView) (last : Option Checked)
        → IsLastAnswer t budget answer.now last → result ≡ is_some (found_in proof_found last) }
{
    match answer {
        None => false,
        Some(evidence) => match evidence {
            Evidence::Model(_) => false,
            Evidence::Proof(_, _) => true,
            Evidence::Reason(_) => false,
        },
    }
}

/// Tells whether the last check found a reason to answer `unknown`.
pub(crate) fn found_reason(answer: &Option<Evidence>) -> bool
    ensures { (t : TableView) (budget : BudgetView) (last : Option Checked)
        → IsLastAnswer t budget answer.now last → result ≡ is_some (found_in reason_found last) }
{
    match answer {
        None => false,
        Some(evidence) => match evidence {
            Evidence::Model(_) => false,
            Evidence::Proof(_, _) => false,
            Evidence::Reason(_) => true,
        },
    }
}
