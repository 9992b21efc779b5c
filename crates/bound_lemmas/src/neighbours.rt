//! Pairs of literals that cannot both hold, as far as forms tell.

ghost use Rattle.std.specs.Prelude.{◌≡◌, ◌≢◌, IfOk, IfSome, All};
ghost use Rattle.term_core.specs.Tables.{AreIn};
ghost use Rattle.bound_lemmas.specs.Pairs.{IsPairOf, IsCutOf};

use crate::cuts::{Cut, cut_of, quotient};
use crate::pair::BoundPair;
use crate::sums::SumNumbers;
use no_memory::NoMemory;
use std::alloc::Global;
use term_core::{Lit, TermId, TermTable};

/// Lists where atoms cut sums, each that does.
fn cuts_of(alloc: Global, table: &TermTable, atoms: &[TermId]) -> Result<Vec<Cut>, NoMemory>
    requires { AreIn table.now atoms.now }
    ensures { IfOk result (λ cuts. All (IsCutOf atoms.now) cuts.items) }
{
    let mut sums = SumNumbers::new(alloc);
    let mut cuts = Vec::new(alloc);
    'atoms: for atom in atoms.iter() {
        if let Some(cut) = cut_of(alloc, table, &mut sums, *atom)? {
            cuts.push(cut)?;
        }
    }
    Ok(cuts)
}

/// Gives a literal that says that a sum is below a cut, and one that says that it is not below the next; nothing where these are cuts
/// of two sums, or of one atom, and where the weight leaves 128 bits.
fn pair_of(cut: Cut, next: Cut) -> Option<BoundPair>
    ensures { IfSome result (λ p. (p.first.term ≡ cut.below.term) × (p.second.term ≡ next.below.term)
        × (p.first.term ≢ p.second.term)) }
{
    if cut.sum != next.sum || cut.below.term == next.below.term {
        return None;
    }
    let Some(weight) = quotient(cut.size, next.size) else {
        return None;
    };
    let second = Lit {
        term: next.below.term,
        positive: !next.below.positive,
    };
    Some(BoundPair {
        first: cut.below,
        second,
        weight,
    })
}

/// Lists the pairs of neighbours among cuts in order.
fn pairs_of(alloc: Global, atoms: &[TermId], cuts: &[Cut]) -> Result<Vec<BoundPair>, NoMemory>
    requires { All (IsCutOf atoms.now) cuts.now }
    ensures { IfOk result (λ pairs. All (IsPairOf atoms.now) pairs.items) }
{
    let mut pairs = Vec::new(alloc);
    'places: for at in 1..cuts.len() {
        if let Some(pair) = pair_of(cuts[at - 1], cuts[at]) {
            pairs.push(pair)?;
        }
    }
    Ok(pairs)
}

/// Lists pairs of literals that cannot both hold, where atoms cut the same sum in places that follow one another: for each such pair of
/// atoms, that the sum is below the first cut and that it is not below the second.
///
/// That these cannot both hold is seen from their forms and not proved: the rule `la_generic` decides. At most one pair comes for each
/// atom, in the order of sums as they come first and then of places. An atom is passed over whose form leaves 128 bits, and a pair whose
/// weight does. `NoMemory` comes where there is no memory for the cuts or the pairs.
pub fn neighbours_of(
    alloc: Global,
    table: &TermTable,
    atoms: &[TermId],
) -> Result<Vec<BoundPair>, NoMemory>
    requires { AreIn table.now atoms.now }
    ensures { IfOk result (λ pairs. All (IsPairOf atoms.now) pairs.items) }
{
    let mut cuts = cuts_of(alloc, table, atoms)?;
    cuts.sort_unstable_by_key(|cut| (cut.sum, cut.place, cut.after));
    pairs_of(alloc, atoms, &cuts)
}
