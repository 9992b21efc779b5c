//! Worked examples: what held literals make equal, and what they do not. Each is a function whose contract says it; it computes
//! nothing. The constants a and b have a declared sort, and so have `(f t)` and `(h t)`. The function h takes a term of sort Bool.

ghost use Rattle.std.specs.Prelude.{◌≡◌, true, false, [], ◌∷◌};
ghost use Rattle.spec_equality.specs.Reasons.{equal};
ghost use Rattle.spec_equality.specs.Examples.{a, b};
ghost use Rattle.spec_equality.specs.Congruence.{truth_term, takes_part, IsCongruent, IsRefuted, IsFine};
ghost use Rattle.spec_sorts.specs.Terms.{And, Ite, negated, of};
ghost use Rattle.spec_equality.specs.CongruenceExamples.{f, h, same, apart};

/// States that terms with equal arguments are equal where both are listed. Terms that are equal say nothing of their arguments.
pub fn equal_arguments_give_equal_terms()
    ensures follows { IsCongruent (f a ∷ f b ∷ []) (same a b ∷ []) (f a) (f b) }
    ensures deeper { IsCongruent (f a ∷ f b ∷ f (f a) ∷ f (f b) ∷ []) (same a b ∷ []) (f (f b)) (f (f a)) }
    ensures not_listed { IsCongruent (f a ∷ []) (same a b ∷ []) (f a) (f b) → ⊥ }
    ensures not_back { IsCongruent (f a ∷ f b ∷ []) (same (f a) (f b) ∷ []) a b → ⊥ }
{}

/// States that literals are refuted where sides that are stated to be different are equal, and not where they stay apart.
pub fn joined_sides_are_refuted()
    ensures joined { IsRefuted (f a ∷ f b ∷ []) (apart (f a) (f b) ∷ same a b ∷ []) }
    ensures stay { IsFine (f a ∷ f b ∷ []) (apart a b ∷ same (f a) (f b) ∷ []) }
{}

/// States that the term of a held literal is equal to its truth value, also as an argument. So a literal and its complement are
/// refuted. An equality that is not held is equal to no truth value, even where its sides are equal.
pub fn held_terms_are_truth_values()
    ensures holds { IsCongruent (h (equal a b) ∷ h (truth_term true) ∷ []) (same a b ∷ [])
        (h (equal a b)) (h (truth_term true)) }
    ensures fails { IsCongruent (h (equal a b) ∷ h (truth_term false) ∷ []) (apart a b ∷ [])
        (h (equal a b)) (h (truth_term false)) }
    ensures both { IsRefuted [] (same a b ∷ apart a b ∷ []) }
    ensures not_held { IsCongruent (f a ∷ f b ∷ equal (f a) (f b) ∷ []) (same a b ∷ [])
        (equal (f a) (f b)) (truth_term true) → ⊥ }
{}

/// States which terms take part: applications, negations, and equalities and choices between terms of another sort than Bool.
pub fn connectives_take_no_part()
    ensures application { takes_part (f a) ≡ true }
    ensures negation { takes_part (negated (equal a b)) ≡ true }
    ensures equality { takes_part (equal a b) ≡ true }
    ensures conjunction { takes_part (of And (equal a b ∷ equal b a ∷ [])) ≡ false }
    ensures truths { takes_part (equal (equal a b) (equal b a)) ≡ false }
    ensures choice { takes_part (of Ite (equal a b ∷ a ∷ b ∷ [])) ≡ true }
    ensures choice_of_truths { takes_part (of Ite (equal a b ∷ equal a b ∷ equal b a ∷ [])) ≡ false }
{}
