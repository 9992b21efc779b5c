//! Worked examples: the base clauses of the terms of `specs/Examples.antt`. Each is a function whose contract is
//! the example; it computes nothing. The constants p, q and r have the sort Bool, a and b the sort Real, and x and
//! y a declared one.

ghost use Rattle.std.specs.Prelude.{◌≡◌, [], ◌∷◌, Contains};
ghost use Rattle.spec_sorts.specs.Terms.{True, Or, Equal, AtMost, of, pair, negated};
ghost use Rattle.spec_rules.specs.Examples.{p, q, r, a, b, less_a_b};
ghost use Rattle.spec_derivations.specs.Problems.{Problem};
ghost use Rattle.spec_derivations.specs.Base.{base_clauses, search_terms, search_clauses};
ghost use Rattle.spec_derivations.specs.Orders.{order_clauses};
ghost use Rattle.spec_derivations.specs.Spent.{IsAtomOf};
ghost use Rattle.spec_derivations.specs.Examples.{speaking, asserting, p_or_not_q, p_then_q_else_r, not_not_not_p, same};
ghost use Rattle.spec_derivations.specs.Examples.{below_or_same, chosen, equals_chosen, of_disjunction};

/// States the base clauses of a disjunction, of a choice, and of three negations: the term alone, and what its
/// rules without premises state. A constant has none of its own, and a single negation has none. What is assumed
/// has no clause alone, and a term besides these has none at all.
pub fn base_clauses_are_stated()
    ensures disjunction { base_clauses (asserting (p_or_not_q ∷ []))
        ≡ (p_or_not_q ∷ [])
        ∷ (negated p_or_not_q ∷ p ∷ negated q ∷ [])
        ∷ (p_or_not_q ∷ negated p ∷ [])
        ∷ (p_or_not_q ∷ negated (negated q) ∷ []) ∷ [] }
    ensures choice { base_clauses (asserting (p_then_q_else_r ∷ []))
        ≡ (p_then_q_else_r ∷ [])
        ∷ (negated p_then_q_else_r ∷ p ∷ r ∷ [])
        ∷ (negated p_then_q_else_r ∷ negated p ∷ q ∷ [])
        ∷ (p_then_q_else_r ∷ p ∷ negated r ∷ [])
        ∷ (p_then_q_else_r ∷ negated p ∷ negated q ∷ []) ∷ [] }
    ensures negations { base_clauses (asserting (not_not_not_p ∷ []))
        ≡ (not_not_not_p ∷ []) ∷ (negated not_not_not_p ∷ negated p ∷ [])
        ∷ (negated (negated (negated p)) ∷ p ∷ []) ∷ [] }
    ensures assumed { base_clauses (record {
      asserted = [];
      assumed = p_or_not_q ∷ [];
      interface = p_then_q_else_r ∷ [];
    })
        ≡ (negated p_or_not_q ∷ p ∷ negated q ∷ [])
        ∷ (p_or_not_q ∷ negated p ∷ [])
        ∷ (p_or_not_q ∷ negated (negated q) ∷ []) ∷ [] }
{}

/// States the base clauses of terms with arguments of other sorts. A comparison, an equality and a choice of these
/// have none of their own. A formula inside has its clauses, below a function too.
pub fn base_clauses_of_other_sorts_are_stated()
    ensures comparison { base_clauses (asserting (below_or_same ∷ []))
        ≡ (below_or_same ∷ [])
        ∷ (negated below_or_same ∷ less_a_b ∷ same ∷ [])
        ∷ (below_or_same ∷ negated less_a_b ∷ [])
        ∷ (below_or_same ∷ negated same ∷ []) ∷ [] }
    ensures choice { base_clauses (asserting (equals_chosen ∷ []))
        ≡ (equals_chosen ∷ [])
        ∷ (negated p_or_not_q ∷ p ∷ negated q ∷ [])
        ∷ (p_or_not_q ∷ negated p ∷ [])
        ∷ (p_or_not_q ∷ negated (negated q) ∷ []) ∷ [] }
    ensures function { base_clauses (asserting (of_disjunction ∷ []))
        ≡ (of_disjunction ∷ [])
        ∷ (negated p_or_not_q ∷ p ∷ negated q ∷ [])
        ∷ (p_or_not_q ∷ negated p ∷ [])
        ∷ (p_or_not_q ∷ negated (negated q) ∷ []) ∷ [] }
{}

/// States the order clauses of an equality of numbers: one of three holds, and where the sides are equal each is at most
/// the other. An equality of another sort has none, and an order has none.
pub fn order_clauses_are_stated()
    ensures numbers { order_clauses (pair Equal a b)
        ≡ (of Or (pair Equal a b ∷ negated (pair AtMost a b) ∷ negated (pair AtMost b a) ∷ []) ∷ [])
        ∷ (negated (pair Equal a b) ∷ pair AtMost a b ∷ [])
        ∷ (negated (pair Equal a b) ∷ pair AtMost b a ∷ []) ∷ [] }
    ensures others { order_clauses same ≡ [] }
    ensures orders { order_clauses (pair AtMost a b) ≡ [] }
{}

/// States what a search speaks of where there is a term besides those that are asserted: of it, and of the equalities of its
/// choices. It is not asserted, so a constant brings no clause.
pub fn interface_terms_are_spoken_of()
    ensures itself { Contains (search_terms (speaking [] (equals_chosen ∷ []))) equals_chosen }
    ensures choice { Contains (search_terms (speaking [] (equals_chosen ∷ []))) (of Equal (chosen ∷ a ∷ [])) }
    ensures no_clause { search_clauses (speaking [] (p ∷ [])) ≡ search_clauses (asserting []) }
{}

/// States what the clauses that a check learns may speak of: a constant of a term besides its own, the equality of a
/// choice between numbers with its first branch, and the orders of both. They speak of no truth value, and of no number as
/// such.
pub fn atoms_are_found()
    ensures interface { IsAtomOf (speaking [] (p_or_not_q ∷ [])) p }
    ensures choice { IsAtomOf (asserting (equals_chosen ∷ [])) (of Equal (chosen ∷ a ∷ [])) }
    ensures order { IsAtomOf (asserting (equals_chosen ∷ [])) (of AtMost (a ∷ chosen ∷ [])) }
    ensures no_truth_value { (k : Problem) → IsAtomOf k (of True []) → ⊥ }
    ensures no_number { (k : Problem) → IsAtomOf k a → ⊥ }
{}
