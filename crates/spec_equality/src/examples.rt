//! Worked examples: steps, with all rules of equality that take them. Each is a function whose contract is the verdict; it computes
//! nothing. The constants a, b, c and d have a declared sort, and so have `(f t u)` and `(g t u)`; p and q have the sort Bool, and
//! so has `(r t u)`.

ghost use Rattle.std.specs.Prelude.{[], ◌∷◌, codes};
ghost use Rattle.spec_sorts.specs.Terms.{And, of, negated};
ghost use Rattle.spec_equality.specs.Reasons.{equal};
ghost use Rattle.spec_equality.specs.Examples.{AreTakers, IsTakenBy, IsTakenByNone, a, b, c, d, p, q, f, g, r, choice, formula};

/// States which rules take a term's equality with itself. `distinct` is read as the negation of an equality, so that what
/// `distinct_elim` states is such an equality. Source: Alethe specification, rules.
pub fn terms_are_equal_to_themselves()
    ensures constants { AreTakers (codes "eq_reflexive" ∷ codes "refl" ∷ codes "distinct_elim" ∷ []) []
        (equal a a ∷ []) }
    ensures distinct { AreTakers
        (codes "eq_reflexive" ∷ codes "refl" ∷ codes "distinct_elim"
        ∷ codes "eq_congruent" ∷ codes "eq_congruent_pred" ∷ codes "cong" ∷ []) []
        (equal (negated (equal a b)) (negated (equal a b)) ∷ []) }
    ensures other { IsTakenByNone [] (equal a b ∷ []) }
    ensures denied { IsTakenByNone [] (negated (equal a a) ∷ []) }
    ensures more { IsTakenByNone [] (equal a a ∷ equal a a ∷ []) }
    ensures none { IsTakenByNone [] [] }
    ensures premise { IsTakenByNone ((p ∷ []) ∷ []) (equal a a ∷ []) }
{}

/// States which steps `eq_transitive` takes: negated equalities lead in their order to the last literal's right side, each in
/// either direction. Source: Alethe specification, rule `eq_transitive`; that directions are free is own.
pub fn literals_lead_from_term_to_term()
    ensures chain { IsTakenBy (codes "eq_transitive") []
        (negated (equal a b) ∷ negated (equal b c) ∷ negated (equal c d) ∷ equal a d ∷ []) }
    ensures turned { IsTakenBy (codes "eq_transitive") []
        (negated (equal b a) ∷ negated (equal b c) ∷ negated (equal d c) ∷ equal a d ∷ []) }
    ensures one { IsTakenBy (codes "eq_transitive") [] (negated (equal a b) ∷ equal b a ∷ []) }
    ensures order { IsTakenByNone []
        (negated (equal b c) ∷ negated (equal a b) ∷ negated (equal c d) ∷ equal a d ∷ []) }
    ensures conclusion_turned { IsTakenByNone []
        (negated (equal a b) ∷ negated (equal b c) ∷ negated (equal c d) ∷ equal d a ∷ []) }
    ensures gap { IsTakenByNone [] (negated (equal a b) ∷ negated (equal c d) ∷ equal a d ∷ []) }
    ensures too_far { IsTakenByNone []
        (negated (equal a b) ∷ negated (equal b c) ∷ negated (equal c d) ∷ equal a c ∷ []) }
    ensures not_denied { IsTakenByNone [] (equal a b ∷ negated (equal b c) ∷ negated (equal c d) ∷ equal a d ∷ []) }
    ensures conclusion_first { IsTakenByNone []
        (equal a d ∷ negated (equal a b) ∷ negated (equal b c) ∷ negated (equal c d) ∷ []) }
    ensures more { IsTakenByNone []
        (p ∷ negated (equal a b) ∷ negated (equal b c) ∷ negated (equal c d) ∷ equal a d ∷ []) }
    ensures premise { IsTakenByNone ((p ∷ []) ∷ [])
        (negated (equal a b) ∷ negated (equal b c) ∷ negated (equal c d) ∷ equal a d ∷ []) }
{}

/// States which steps `trans` and `symm` take: premises of one equality each lead in their order to the right side, each in
/// either direction. Source: Alethe specification, rules `trans` and `symm`; that directions are free is own.
pub fn premises_lead_from_term_to_term()
    ensures chain { IsTakenBy (codes "trans") ((equal a b ∷ []) ∷ (equal b c ∷ []) ∷ (equal c d ∷ []) ∷ [])
        (equal a d ∷ []) }
    ensures turned { IsTakenBy (codes "trans") ((equal b a ∷ []) ∷ (equal b c ∷ []) ∷ (equal d c ∷ []) ∷ [])
        (equal a d ∷ []) }
    ensures one_turned { AreTakers (codes "symm" ∷ codes "trans" ∷ []) ((equal a b ∷ []) ∷ []) (equal b a ∷ []) }
    ensures one { AreTakers (codes "symm" ∷ codes "trans" ∷ []) ((equal a b ∷ []) ∷ []) (equal a b ∷ []) }
    ensures order { IsTakenByNone ((equal b c ∷ []) ∷ (equal a b ∷ []) ∷ (equal c d ∷ []) ∷ []) (equal a d ∷ []) }
    ensures conclusion_turned { IsTakenByNone ((equal a b ∷ []) ∷ (equal b c ∷ []) ∷ []) (equal c a ∷ []) }
    ensures gap { IsTakenByNone ((equal a b ∷ []) ∷ (equal c d ∷ []) ∷ []) (equal a d ∷ []) }
    ensures missing { IsTakenByNone [] (equal a b ∷ []) }
    ensures two_literals { IsTakenByNone ((equal a b ∷ p ∷ []) ∷ (equal b c ∷ []) ∷ []) (equal a c ∷ []) }
    ensures denied { IsTakenByNone ((negated (equal a b) ∷ []) ∷ []) (negated (equal b a) ∷ []) }
    ensures more { IsTakenByNone ((equal a b ∷ []) ∷ []) (equal b a ∷ p ∷ []) }
{}

/// States which steps `eq_congruent` and `eq_congruent_pred` take: each two arguments of one place are the same, or a negated
/// equality joins them. Source: Alethe specification, rules `eq_congruent` and `eq_congruent_pred`; that order and directions are
/// free, and further literals, is own.
pub fn literals_join_arguments()
    ensures each { IsTakenBy (codes "eq_congruent") []
        (negated (equal a b) ∷ negated (equal c d) ∷ equal (f a c) (f b d) ∷ []) }
    ensures order { IsTakenBy (codes "eq_congruent") []
        (negated (equal d c) ∷ negated (equal a b) ∷ equal (f a c) (f b d) ∷ []) }
    ensures same { IsTakenBy (codes "eq_congruent") [] (negated (equal a b) ∷ equal (f a c) (f b c) ∷ []) }
    ensures more { IsTakenBy (codes "eq_congruent") []
        (p ∷ negated (equal a b) ∷ negated (equal c a) ∷ equal (f a c) (f b c) ∷ []) }
    ensures formulas { AreTakers (codes "eq_congruent" ∷ codes "eq_congruent_pred" ∷ []) []
        (negated (equal a b) ∷ equal (r a c) (r b c) ∷ []) }
    ensures denied { IsTakenBy (codes "eq_congruent_pred") [] (negated (equal a b) ∷ negated (r a c) ∷ r b c ∷ []) }
    ensures missing { IsTakenByNone [] (negated (equal a b) ∷ equal (f a c) (f b d) ∷ []) }
    ensures crossed { IsTakenByNone [] (negated (equal a d) ∷ negated (equal c b) ∷ equal (f a c) (f b d) ∷ []) }
    ensures other_head { IsTakenByNone [] (negated (equal a b) ∷ negated (equal c d) ∷ equal (f a c) (g b d) ∷ []) }
    ensures not_denied { IsTakenByNone [] (equal a b ∷ negated (equal c d) ∷ equal (f a c) (f b d) ∷ []) }
    ensures conclusion_first { IsTakenByNone []
        (equal (f a c) (f b d) ∷ negated (equal a b) ∷ negated (equal c d) ∷ []) }
    ensures denied_last { IsTakenByNone [] (negated (equal a b) ∷ r b c ∷ negated (r a c) ∷ []) }
    ensures no_arguments { IsTakenByNone [] (negated p ∷ p ∷ []) }
    ensures premise { IsTakenByNone ((equal a b ∷ []) ∷ [])
        (negated (equal a b) ∷ negated (equal c d) ∷ equal (f a c) (f b d) ∷ []) }
{}

/// States which steps `cong` takes: each two arguments of one place are the same, or a premise joins them.
/// Source: Alethe specification, rule `cong`; that order and directions are free, and further premises, is own.
pub fn premises_join_arguments()
    ensures each { IsTakenBy (codes "cong") ((equal a b ∷ []) ∷ (equal c d ∷ []) ∷ []) (equal (f a c) (f b d) ∷ []) }
    ensures order { IsTakenBy (codes "cong") ((equal d c ∷ []) ∷ (equal a b ∷ []) ∷ []) (equal (f a c) (f b d) ∷ []) }
    ensures same { IsTakenBy (codes "cong") ((equal a b ∷ []) ∷ []) (equal (f a c) (f b c) ∷ []) }
    ensures more { IsTakenBy (codes "cong") ((p ∷ q ∷ []) ∷ (equal a b ∷ []) ∷ []) (equal (f a c) (f b c) ∷ []) }
    ensures connective { IsTakenBy (codes "cong") ((equal p q ∷ []) ∷ [])
        (equal (of And (p ∷ q ∷ p ∷ [])) (of And (q ∷ q ∷ p ∷ [])) ∷ []) }
    ensures missing { IsTakenByNone ((equal a b ∷ []) ∷ []) (equal (f a c) (f b d) ∷ []) }
    ensures two_literals { IsTakenByNone ((equal a b ∷ p ∷ []) ∷ []) (equal (f a c) (f b c) ∷ []) }
    ensures denied { IsTakenByNone ((negated (equal a b) ∷ []) ∷ []) (equal (f a c) (f b c) ∷ []) }
    ensures other_head { IsTakenByNone ((equal a b ∷ []) ∷ []) (equal (f a c) (g b c) ∷ []) }
    ensures other_count { IsTakenByNone ((equal p q ∷ []) ∷ [])
        (equal (of And (p ∷ q ∷ [])) (of And (p ∷ q ∷ q ∷ [])) ∷ []) }
    ensures turned { IsTakenByNone ((equal a b ∷ []) ∷ []) (negated (equal (f a c) (f b c)) ∷ []) }
{}

/// States which steps the two rules of `ite` take, where its branches have another sort than Bool.
pub fn choices_are_branches()
    ensures first { IsTakenBy (codes "x_ite_then") [] (negated p ∷ equal choice a ∷ []) }
    ensures second { IsTakenBy (codes "x_ite_else") [] (p ∷ equal choice b ∷ []) }
    ensures first_by_second { IsTakenByNone [] (p ∷ equal choice a ∷ []) }
    ensures second_by_first { IsTakenByNone [] (negated p ∷ equal choice b ∷ []) }
    ensures turned { IsTakenByNone [] (negated p ∷ equal a choice ∷ []) }
    ensures order { IsTakenByNone [] (equal choice a ∷ negated p ∷ []) }
    ensures formula { IsTakenByNone [] (negated p ∷ equal formula q ∷ []) }
    ensures other_condition { IsTakenByNone [] (negated q ∷ equal choice a ∷ []) }
    ensures alone { IsTakenByNone [] (equal choice a ∷ []) }
{}
