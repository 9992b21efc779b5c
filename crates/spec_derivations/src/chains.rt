//! What exact chains of resolutions imply. Each law is a function whose contract is the law; it computes nothing.

ghost use Rattle.std.specs.Prelude.{◌≡◌, ℕ, ◌<◌, Bool, List, [], ◌∷◌, ◌++◌, map, length, All, Contains};
ghost use Rattle.spec_sorts.specs.Terms.{Term};
ghost use Rattle.spec_sorts.specs.Literals.{Literal, complement, literals_of};
ghost use Rattle.spec_derivations.specs.Derivations.{Derivation, premises_of, inference_at, conclusion_at};
ghost use Rattle.spec_derivations.specs.Orders.{first_clauses};
ghost use Rattle.spec_derivations.specs.Learned.{IsNew};
ghost use Rattle.spec_derivations.specs.ExactChains.{IsExactResolvent, AreExactResolvents};
ghost use Rattle.spec_derivations.specs.ExactChains.{AreAlike, IsNoTautology};
ghost use Rattle.spec_derivations.specs.Spent.{AreLearned};
ghost use Rattle.spec_derivations.specs.Examples.{asserting, eight, not_both};
ghost use Rattle.spec_derivations.specs.Copies.{idle, idle_or_not, given, copy, IsIdle, IsUnmixed};

/// States that each literal of what a chain gives is one of a premise. So a clause with an atom that stands in none
/// comes by no chain.
pub fn resolvents_have_their_premises_literals()
    ensures { (premises : List (List Literal)) (clause : List Literal)
        → IsExactResolvent complement (Contains premises) clause → (l : Literal) → Contains clause l
        → (c : List Literal) × Contains premises c × Contains c l }
{}

/// States that chains bring nothing together that no premise has together. Where the atoms of each premise are alike
/// under a test, so are those of each clause that comes by a chain, and of each that comes by chains one after the
/// other.
pub fn resolvents_are_alike()
    ensures one { (premises : List (List Literal)) (test : Term → Bool) → All (AreAlike test) premises
        → (clause : List Literal) → IsExactResolvent complement (Contains premises) clause → AreAlike test clause }
    ensures all { (premises : List (List Literal)) (test : Term → Bool) → All (AreAlike test) premises
        → (learned : List (List Literal)) → AreExactResolvents complement (Contains premises) learned
        → All (AreAlike test) learned }
{}

/// States that tautologies are of no use in chains. What a chain gives and is none comes by a chain over premises that
/// are none.
pub fn chains_need_no_tautology()
    ensures { (premises : List (List Literal)) (clause : List Literal)
        → IsExactResolvent complement (Contains premises) clause → IsNoTautology clause
        → IsExactResolvent complement (λ c. Contains premises c × IsNoTautology c) clause }
{}

/// States that of the eight disjunctions a chain gives `(cl (not p) (not q))`, and that no chain gives a copy of it
/// with an idle literal, though such a copy is new. Given are their base clauses, and those of `(or z (not z))`. Of what
/// is learned by chains, one after the other, no clause has a literal of `z` and one of another atom but that
/// disjunction. Nor has one that a check of these terms learns where no inference without premises has both, though the
/// copy is new over all clauses with which its search begins. So none comes by a lemma that has premises.
pub fn copies_come_by_no_chain()
    ensures first { IsExactResolvent complement (Contains given) (literals_of not_both) }
    ensures copy_is_new { IsNew given copy }
    ensures no_copy { (learned : List (List Literal)) → AreExactResolvents complement (Contains given) learned
        → (c : List Literal) → Contains learned c
        → (l m : Literal) → Contains c l → l.atom ≡ idle → Contains c m → IsIdle m.atom }
    ensures new_at_first { IsNew (map literals_of (first_clauses (asserting (eight ++ idle_or_not ∷ [])))) copy }
    ensures none_learned { (d : Derivation) (learned : List (List Literal))
        → ((n : ℕ) → n < length d → premises_of (inference_at d n) ≡ [] → IsUnmixed (literals_of (conclusion_at d n)))
        → AreLearned (asserting (eight ++ idle_or_not ∷ [])) d [] learned → (c : List Literal) → Contains learned c
        → (l m : Literal) → Contains c l → l.atom ≡ idle → Contains c m → IsIdle m.atom }
{
    resolvents_are_alike();
}
