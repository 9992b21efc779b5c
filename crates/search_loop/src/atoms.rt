//! Which terms are decided.

ghost use Rattle.std.specs.Prelude.{All, IfOk};
ghost use Rattle.proof_log.specs.Theories.{IsTermIn};
ghost use Rattle.search_loop.specs.Search.{AreAtomsAmong};

use no_memory::NoMemory;
use proof_log::is_atom;
use std::alloc::Global;
use term_core::{TermId, TermTable};

/// Lists the atoms among terms, in their order.
pub(crate) fn atoms_of(
    alloc: Global,
    table: &TermTable,
    terms: &[TermId],
) -> Result<Vec<TermId>, NoMemory>
    requires { All (IsTermIn table.now) terms.now }
    ensures { IfOk result (λ atoms. AreAtomsAmong table.now terms.now atoms.items) }
{
    let mut atoms = Vec::new(alloc);
    'terms: for id in terms.iter() {
        if !is_atom(table, *id) {
            continue;
        }
        atoms.push(*id)?;
    }
    Ok(atoms)
}
