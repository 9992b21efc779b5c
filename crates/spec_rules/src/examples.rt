//! Worked examples of the rules that have a scheme: steps, with the one that takes them. Each is a function whose contract is
//! the verdict; it computes nothing. The constants p, q and r have the sort Bool, a and b
//! the sort Real, and x and y a declared one.

ghost use Rattle.std.specs.Prelude.{◌≡◌, [], ◌∷◌, None, codes};
ghost use Rattle.spec_sorts.specs.Terms.{True, False, And, Or, Plus, Equal, Ite, Implies, of, negated};
ghost use Rattle.spec_proofs.specs.RuleNames.{rule_named};
ghost use Rattle.spec_rules.specs.Examples.{IsOnlyBy, IsByNone, p, q, r, a, b, x, y, less_a_b, equal_p_q, exclusive, choice, implication, conjunction, disjunction};

/// States which rule takes each step from and to `(= p q)`. Source: Alethe specification, rules.
pub fn equalities_have_their_rules()
    ensures equiv_pos1 { IsOnlyBy (codes "equiv_pos1") [] (negated equal_p_q ∷ p ∷ negated q ∷ []) }
    ensures equiv_pos2 { IsOnlyBy (codes "equiv_pos2") [] (negated equal_p_q ∷ negated p ∷ q ∷ []) }
    ensures equiv_neg1 { IsOnlyBy (codes "equiv_neg1") [] (equal_p_q ∷ negated p ∷ negated q ∷ []) }
    ensures equiv_neg2 { IsOnlyBy (codes "equiv_neg2") [] (equal_p_q ∷ p ∷ q ∷ []) }
    ensures equiv1 { IsOnlyBy (codes "equiv1") ((equal_p_q ∷ []) ∷ []) (negated p ∷ q ∷ []) }
    ensures equiv2 { IsOnlyBy (codes "equiv2") ((equal_p_q ∷ []) ∷ []) (p ∷ negated q ∷ []) }
    ensures not_equiv1 { IsOnlyBy (codes "not_equiv1") ((negated equal_p_q ∷ []) ∷ []) (p ∷ q ∷ []) }
    ensures not_equiv2 { IsOnlyBy (codes "not_equiv2") ((negated equal_p_q ∷ []) ∷ []) (negated p ∷ negated q ∷ []) }
{}

/// States which rule takes each step from and to `(xor p q)`. Source: Alethe specification, rules.
pub fn exclusive_disjunctions_have_their_rules()
    ensures xor_pos1 { IsOnlyBy (codes "xor_pos1") [] (negated exclusive ∷ p ∷ q ∷ []) }
    ensures xor_pos2 { IsOnlyBy (codes "xor_pos2") [] (negated exclusive ∷ negated p ∷ negated q ∷ []) }
    ensures xor_neg1 { IsOnlyBy (codes "xor_neg1") [] (exclusive ∷ p ∷ negated q ∷ []) }
    ensures xor_neg2 { IsOnlyBy (codes "xor_neg2") [] (exclusive ∷ negated p ∷ q ∷ []) }
    ensures xor1 { IsOnlyBy (codes "xor1") ((exclusive ∷ []) ∷ []) (p ∷ q ∷ []) }
    ensures xor2 { IsOnlyBy (codes "xor2") ((exclusive ∷ []) ∷ []) (negated p ∷ negated q ∷ []) }
    ensures not_xor1 { IsOnlyBy (codes "not_xor1") ((negated exclusive ∷ []) ∷ []) (p ∷ negated q ∷ []) }
    ensures not_xor2 { IsOnlyBy (codes "not_xor2") ((negated exclusive ∷ []) ∷ []) (negated p ∷ q ∷ []) }
{}

/// States which rule takes each step from and to `(ite p q r)`. Source: Alethe specification, rules.
pub fn choices_have_their_rules()
    ensures ite_pos1 { IsOnlyBy (codes "ite_pos1") [] (negated choice ∷ p ∷ r ∷ []) }
    ensures ite_pos2 { IsOnlyBy (codes "ite_pos2") [] (negated choice ∷ negated p ∷ q ∷ []) }
    ensures ite_neg1 { IsOnlyBy (codes "ite_neg1") [] (choice ∷ p ∷ negated r ∷ []) }
    ensures ite_neg2 { IsOnlyBy (codes "ite_neg2") [] (choice ∷ negated p ∷ negated q ∷ []) }
    ensures ite1 { IsOnlyBy (codes "ite1") ((choice ∷ []) ∷ []) (p ∷ r ∷ []) }
    ensures ite2 { IsOnlyBy (codes "ite2") ((choice ∷ []) ∷ []) (negated p ∷ q ∷ []) }
    ensures not_ite1 { IsOnlyBy (codes "not_ite1") ((negated choice ∷ []) ∷ []) (p ∷ negated r ∷ []) }
    ensures not_ite2 { IsOnlyBy (codes "not_ite2") ((negated choice ∷ []) ∷ []) (negated p ∷ negated q ∷ []) }
{}

/// States which rule takes each step from and to the other heads: truth values, `(=> p q)`, `(and p q r)`, `(or p q r)` and
/// three negations. A premise that begins with two negations has one of them taken off.
/// Source: Alethe specification, rules; the two negations are own.
pub fn other_heads_have_their_rules()
    ensures true_rule { IsOnlyBy (codes "true") [] (of True [] ∷ []) }
    ensures false_rule { IsOnlyBy (codes "false") [] (negated (of False []) ∷ []) }
    ensures implies_pos { IsOnlyBy (codes "implies_pos") [] (negated implication ∷ negated p ∷ q ∷ []) }
    ensures implies_neg1 { IsOnlyBy (codes "implies_neg1") [] (implication ∷ p ∷ []) }
    ensures implies_neg2 { IsOnlyBy (codes "implies_neg2") [] (implication ∷ negated q ∷ []) }
    ensures implies { IsOnlyBy (codes "implies") ((implication ∷ []) ∷ []) (negated p ∷ q ∷ []) }
    ensures not_implies1 { IsOnlyBy (codes "not_implies1") ((negated implication ∷ []) ∷ []) (p ∷ []) }
    ensures not_implies2 { IsOnlyBy (codes "not_implies2") ((negated implication ∷ []) ∷ []) (negated q ∷ []) }
    ensures and_pos { IsOnlyBy (codes "and_pos") [] (negated conjunction ∷ q ∷ []) }
    ensures and_neg { IsOnlyBy (codes "and_neg") [] (conjunction ∷ negated p ∷ negated q ∷ negated r ∷ []) }
    ensures or_pos { IsOnlyBy (codes "or_pos") [] (negated disjunction ∷ p ∷ q ∷ r ∷ []) }
    ensures or_neg { IsOnlyBy (codes "or_neg") [] (disjunction ∷ negated q ∷ []) }
    ensures and { IsOnlyBy (codes "and") ((conjunction ∷ []) ∷ []) (r ∷ []) }
    ensures not_and { IsOnlyBy (codes "not_and") ((negated conjunction ∷ []) ∷ [])
        (negated p ∷ negated q ∷ negated r ∷ []) }
    ensures not_or { IsOnlyBy (codes "not_or") ((negated disjunction ∷ []) ∷ []) (negated r ∷ []) }
    ensures not_not { IsOnlyBy (codes "not_not") [] (negated (negated (negated p)) ∷ p ∷ []) }
    ensures two_nots { IsOnlyBy (codes "and") ((negated (negated conjunction) ∷ []) ∷ []) (p ∷ []) }
{}

/// States that a comparison of numbers, and an equality of them, are taken as any formula is.
/// Source: Alethe specification, rules.
pub fn formulas_over_numbers_have_their_rules()
    ensures and_pos { IsOnlyBy (codes "and_pos") [] (negated (of And (less_a_b ∷ p ∷ [])) ∷ less_a_b ∷ []) }
    ensures equiv_pos2 { IsOnlyBy (codes "equiv_pos2") []
        (negated (of Equal (less_a_b ∷ p ∷ [])) ∷ negated less_a_b ∷ p ∷ []) }
    ensures ite1 { IsOnlyBy (codes "ite1") ((of Ite (p ∷ less_a_b ∷ of Equal (a ∷ b ∷ []) ∷ []) ∷ []) ∷ [])
        (p ∷ of Equal (a ∷ b ∷ []) ∷ []) }
    ensures not_or { IsOnlyBy (codes "not_or") ((negated (of Or (of Equal (x ∷ y ∷ []) ∷ less_a_b ∷ [])) ∷ []) ∷ [])
        (negated less_a_b ∷ []) }
{}

/// States that a step which is near to a right one is by none of the rules: with a literal that is another term, has the other
/// sign or is not there; with literals in another order; with a term whose arguments are not of sort Bool, or too few; and of
/// two negations.
pub fn near_clauses_have_no_rule()
    ensures other_term { IsByNone [] (negated (of And (p ∷ q ∷ [])) ∷ r ∷ []) }
    ensures other_sign { IsByNone [] (conjunction ∷ negated p ∷ q ∷ negated r ∷ []) }
    ensures left_out { IsByNone [] (conjunction ∷ negated p ∷ negated q ∷ []) }
    ensures added { IsByNone [] (implication ∷ p ∷ q ∷ []) }
    ensures order { IsByNone [] (disjunction ∷ negated q ∷ negated p ∷ []) }
    ensures order_of_two { IsByNone [] (negated equal_p_q ∷ negated q ∷ p ∷ []) }
    ensures no_front { IsByNone [] (p ∷ negated q ∷ negated equal_p_q ∷ []) }
    ensures no_truth { IsByNone [] (of False [] ∷ []) }
    ensures sorts { IsByNone [] (negated (of Equal (x ∷ y ∷ [])) ∷ x ∷ negated y ∷ []) }
    ensures sorts_of_numbers { IsByNone [] (negated (of Equal (a ∷ b ∷ [])) ∷ a ∷ negated b ∷ []) }
    ensures sorts_of_arguments { IsByNone [] (negated (of And (a ∷ p ∷ [])) ∷ p ∷ []) }
    ensures mixed_sorts { IsByNone [] (negated (of Equal (p ∷ a ∷ [])) ∷ negated p ∷ a ∷ []) }
    ensures sum { IsByNone [] (of Plus (a ∷ b ∷ []) ∷ negated a ∷ negated b ∷ []) }
    ensures sorts_of_choice { IsByNone [] (negated (of Ite (p ∷ x ∷ y ∷ [])) ∷ negated p ∷ x ∷ []) }
    ensures count { IsByNone [] (of Implies (p ∷ []) ∷ p ∷ []) }
    ensures two_nots { IsByNone [] (negated (negated p) ∷ p ∷ []) }
{}

/// States that a premise is where one is wanted, and nowhere else: it is one, of one literal, with the sign that the rule
/// takes; and that a word which is none of the rules' names no rule.
pub fn near_premises_and_words_have_no_rule()
    ensures not_wanted { IsByNone ((p ∷ []) ∷ []) (negated equal_p_q ∷ p ∷ negated q ∷ []) }
    ensures missing { IsByNone [] (negated p ∷ q ∷ []) }
    ensures twice { IsByNone ((equal_p_q ∷ []) ∷ (equal_p_q ∷ []) ∷ []) (negated p ∷ q ∷ []) }
    ensures two_literals { IsByNone ((equal_p_q ∷ r ∷ []) ∷ []) (negated p ∷ q ∷ []) }
    ensures empty { IsByNone ([] ∷ []) (negated p ∷ q ∷ []) }
    ensures other_sign { IsByNone ((negated equal_p_q ∷ []) ∷ []) (negated p ∷ q ∷ []) }
    ensures kept { IsByNone ((implication ∷ []) ∷ []) (negated implication ∷ negated p ∷ q ∷ []) }
    ensures hole { rule_named (codes "hole") ≡ None }
    ensures capital { rule_named (codes "Equiv1") ≡ None }
{}
