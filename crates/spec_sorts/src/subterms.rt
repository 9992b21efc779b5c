//! Laws of subterms: what is counted, and which terms are one.

ghost use Rattle.std.specs.Prelude.{◌≡◌, ◌≤◌, List, length};
ghost use Rattle.std.specs.Bool.{Decides};
ghost use Rattle.spec_numbers.specs.Fractions.{Fraction};
ghost use Rattle.spec_sorts.specs.Terms.{Term, same_term, same_fraction};
ghost use Rattle.spec_sorts.specs.Subterms.{subterms_of};
ghost use Rattle.spec_sorts.specs.Subsets.{AreAmong, IsClosed, AreOnce};

/// States that the test of terms tells whether they are one, and that of fractions whether they are one pair.
pub fn same_terms_are_one()
    ensures terms { (t u : Term) → Decides (same_term t u) (t ≡ u) }
    ensures fractions { (p q : Fraction) → Decides (same_fraction p q) (p ≡ q) }
{}

/// States that the subterms of terms are these terms, with each of them its arguments, and no others, each once.
pub fn subterms_are_least()
    ensures once { (ts : List Term) → AreOnce (subterms_of ts) }
    ensures there { (ts : List Term) → AreAmong ts (subterms_of ts) }
    ensures closed { (ts : List Term) → IsClosed (subterms_of ts) }
    ensures least { (ts us : List Term) → AreAmong ts us → IsClosed us → AreAmong (subterms_of ts) us }
{}

/// States how lists tell the number of subterms. A list of some of them, each once, is no longer than it. A list that has
/// the terms, and with each of its terms that one's arguments, is no shorter.
pub fn subterms_are_counted()
    ensures no_fewer { (ts us : List Term) → AreOnce us → AreAmong us (subterms_of ts)
        → length us ≤ length (subterms_of ts) }
    ensures no_more { (ts us : List Term) → AreAmong ts us → IsClosed us → length (subterms_of ts) ≤ length us }
{}
