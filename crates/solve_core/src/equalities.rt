//! Equalities of pairs of terms.

ghost use Rattle.std.specs.Prelude.{◌≡◌, map, All, IfOk};
ghost use Rattle.term_core.specs.Tables.{clause_at};
ghost use Rattle.proof_log.specs.Logs.{AreFormulasIn};
ghost use Rattle.term_clauses.specs.Stating.{Widens};
ghost use Rattle.solve_core.specs.Unspoken.{IsComparable, equality_in};

use no_memory::NoMemory;
use std::alloc::Global;
use term_clauses::choices::equality;
use term_core::{TermId, TermTable};

/// Puts the equality of each of these pairs, or finds it, and gives their numbers.
///
/// `NoMemory` comes where memory runs out; those that came stay.
pub(crate) fn equalities_of(
    alloc: Global,
    table: &mut TermTable,
    pairs: &[(TermId, TermId)],
) -> Result<Vec<TermId>, NoMemory>
    requires pairs { All (IsComparable table.old) pairs.now }
    ensures wider { Widens table.old table.new }
    ensures formulas { IfOk result (λ ids. AreFormulasIn table.new ids.items) }
    ensures are { IfOk result
        (λ ids. clause_at table.new ids.items ≡ map (equality_in table.old) pairs.now) }
{
    let mut ids = Vec::new(alloc);
    'pairs: for pair in pairs.iter() {
        let id = equality(alloc, table, pair.0, pair.1)?;
        ids.push(id)?;
    }
    Ok(ids)
}
