//! Clauses as sets: each literal once.

ghost use Rattle.std.specs.Prelude.{IfOk};
ghost use Rattle.std.specs.List.{AllZip};
ghost use Rattle.clause_literals.specs.Literals.{IsSetOf, lists};

use indexmap::IndexSet;
use std::alloc::{AllocError, Global};
use term_core::Lit;

/// Gives the literals of a clause, each once, in the order of first mention.
fn distinct(alloc: Global, clause: &[Lit]) -> Result<Vec<Lit>, AllocError>
    ensures { IfOk result (λ v. IsSetOf clause.now v.items) }
{
    let mut taken = IndexSet::new(alloc);
    for l in clause {
        match taken.insert(*l) {
            Ok(_) => {}
            Err(_) => return Err(AllocError),
        }
    }
    let made = Vec::from_slice(alloc, taken.as_slice())?;
    Ok(made)
}

/// Gives each clause with each literal once.
pub(crate) fn distinct_each(
    alloc: Global,
    clauses: &[Vec<Lit>],
) -> Result<Vec<Vec<Lit>>, AllocError>
    ensures { IfOk result (λ v. AllZip IsSetOf (lists clauses.now) (lists v.items)) }
{
    let mut made = Vec::new(alloc);
    for clause in clauses {
        made.push(distinct(alloc, clause)?)?;
    }
    Ok(made)
}
