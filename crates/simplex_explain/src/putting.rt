//! The terms of a clause that says that not all of some literals hold.

ghost use Rattle.std.specs.Prelude.{◌≡◌, All, IfOk};
ghost use Rattle.term_core.specs.Tables.{clause_at, literal_at};
ghost use Rattle.spec_simplex.specs.Weights.{denial};
ghost use Rattle.proof_log.specs.Logs.{IsFormulaIn, AreFormulasIn};
ghost use Rattle.term_clauses.specs.Stating.{Widens};
ghost use Rattle.simplex_explain.specs.Reasons.{IsDenialPut, denials_meant};

use crate::weighted::Weighted;
use no_memory::NoMemory;
use std::alloc::Global;
use term_core::{Head, Lit, Node, TermId, TermTable};

/// Puts the term that negates a literal, or finds it.
fn negation(alloc: Global, table: &mut TermTable, literal: Lit) -> Result<TermId, NoMemory>
    requires { IsFormulaIn table.old literal.term }
    ensures wider { Widens table.old table.new }
    ensures means { IfOk result (IsDenialPut table.new (denial (literal_at table.old literal))) }
{
    if !literal.positive {
        return Ok(literal.term);
    }
    let node = Node::new(alloc, Head::Not, &[literal.term])?;
    table.put(node)
}

/// Puts the terms that negate literals, in their order.
pub(crate) fn negations(
    alloc: Global,
    table: &mut TermTable,
    reasons: &[Weighted],
) -> Result<Vec<TermId>, NoMemory>
    requires { All (λ r. IsFormulaIn table.old r.literal.term) reasons.now }
    ensures wider { Widens table.old table.new }
    ensures means { IfOk result (λ ids. AreFormulasIn table.new ids.items
        × (clause_at table.new ids.items ≡ denials_meant table.old reasons.now)) }
{
    let mut terms = Vec::new(alloc);
    for reason in reasons {
        let term = negation(alloc, table, reason.literal)?;
        terms.push(term)?;
    }
    Ok(terms)
}
