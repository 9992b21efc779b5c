//! Whether the rule `la_generic` takes a clause.

ghost use Rattle.std.specs.Prelude.{◌≡◌, map, IfOk};
ghost use Rattle.spec_arithmetic.specs.Contradictions.{la_generic};
ghost use Rattle.linear_form.specs.declared.coeff.Coeff.TheVariants.{Number};
ghost use Rattle.linear_form.specs.Sums.{JudgesSum};
ghost use Rattle.term_core.specs.Tables.{AreIn, clause_at};
ghost use Rattle.simplex_explain.specs.Reasons.{arguments_meant};

use crate::weighted::Weighted;
use linear_form::{ArithFault, Coeff, la_generic};
use std::alloc::{AllocError, Global};
use term_core::{TermId, TermTable};

/// Lists the weights as arguments of the rule, in their order.
fn arguments_of(alloc: Global, reasons: &[Weighted]) -> Result<Vec<Coeff>, AllocError>
    ensures { IfOk result (λ v. v.items ≡ map (λ r. Number r.weight) reasons.now) }
{
    let mut arguments = Vec::new(alloc);
    for reason in reasons {
        arguments.push(Coeff::Number(reason.weight))?;
    }
    Ok(arguments)
}

/// Judges a clause by the rule, with the weights of reasons as its arguments.
pub(crate) fn judge(
    alloc: Global,
    table: &TermTable,
    clause: &[TermId],
    reasons: &[Weighted],
) -> Result<(), ArithFault>
    requires { AreIn table.now clause.now }
    ensures { JudgesSum (la_generic (clause_at table.now clause.now) (arguments_meant reasons.now)) result }
{
    let arguments = arguments_of(alloc, reasons)?;
    la_generic(alloc, table, clause, &arguments)
}
