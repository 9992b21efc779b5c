//! The names of the rules, and the rules by their names.

ghost use Rattle.std.specs.Prelude.{◌≡◌};
ghost use Rattle.spec_sorts.specs.Theory.{look_up};
ghost use Rattle.std.specs.Str.{bytes_eq};
ghost use Rattle.spec_proofs.specs.RuleNames.{rule_name, named_rows, rule_named};

use crate::Rule;

/// All rules.
const EVERY_RULE: [Rule; 60] = [
    Rule::Or,
    Rule::Contraction,
    Rule::Reordering,
    Rule::Weakening,
    Rule::Resolution,
    Rule::ThResolution,
    Rule::True,
    Rule::False,
    Rule::AndPos,
    Rule::AndNeg,
    Rule::OrPos,
    Rule::OrNeg,
    Rule::ImpliesPos,
    Rule::ImpliesNeg1,
    Rule::ImpliesNeg2,
    Rule::EquivPos1,
    Rule::EquivPos2,
    Rule::EquivNeg1,
    Rule::EquivNeg2,
    Rule::XorPos1,
    Rule::XorPos2,
    Rule::XorNeg1,
    Rule::XorNeg2,
    Rule::ItePos1,
    Rule::ItePos2,
    Rule::IteNeg1,
    Rule::IteNeg2,
    Rule::NotNot,
    Rule::And,
    Rule::NotAnd,
    Rule::NotOr,
    Rule::Implies,
    Rule::NotImplies1,
    Rule::NotImplies2,
    Rule::Equiv1,
    Rule::Equiv2,
    Rule::NotEquiv1,
    Rule::NotEquiv2,
    Rule::Xor1,
    Rule::Xor2,
    Rule::NotXor1,
    Rule::NotXor2,
    Rule::Ite1,
    Rule::Ite2,
    Rule::NotIte1,
    Rule::NotIte2,
    Rule::EqReflexive,
    Rule::EqTransitive,
    Rule::EqCongruent,
    Rule::EqCongruentPred,
    Rule::Refl,
    Rule::Symm,
    Rule::Trans,
    Rule::Cong,
    Rule::DistinctElim,
    Rule::IteThen,
    Rule::IteElse,
    Rule::LaGeneric,
    Rule::LaDisequality,
    Rule::LaTotality,
];

/// Tells whether two names are the same.
fn same_name(a: &[u8], b: &[u8]) -> bool
    ensures { result ≡ bytes_eq a.now b.now }
{
    a == b
}

/// Gives the rule of a name among some rules, or nothing where none of them has it.
fn rule_among(rules: &[Rule], name: &[u8]) -> Option<Rule>
    ensures { result ≡ look_up (named_rows rules.now) name.now }
{
    for rule in rules {
        if same_name(rule.name(), name) {
            return Some(*rule);
        }
    }
    None
}

impl Rule {
    /// Gives the name by which proofs name the rule.
    pub fn name(self) -> &'static [u8]
        ensures { result.now ≡ rule_name self }
    {
        match self {
            Rule::Or => b"or",
            Rule::Contraction => b"contraction",
            Rule::Reordering => b"reordering",
            Rule::Weakening => b"weakening",
            Rule::Resolution => b"resolution",
            Rule::ThResolution => b"th_resolution",
            Rule::True => b"true",
            Rule::False => b"false",
            Rule::AndPos => b"and_pos",
            Rule::AndNeg => b"and_neg",
            Rule::OrPos => b"or_pos",
            Rule::OrNeg => b"or_neg",
            Rule::ImpliesPos => b"implies_pos",
            Rule::ImpliesNeg1 => b"implies_neg1",
            Rule::ImpliesNeg2 => b"implies_neg2",
            Rule::EquivPos1 => b"equiv_pos1",
            Rule::EquivPos2 => b"equiv_pos2",
            Rule::EquivNeg1 => b"equiv_neg1",
            Rule::EquivNeg2 => b"equiv_neg2",
            Rule::XorPos1 => b"xor_pos1",
            Rule::XorPos2 => b"xor_pos2",
            Rule::XorNeg1 => b"xor_neg1",
            Rule::XorNeg2 => b"xor_neg2",
            Rule::ItePos1 => b"ite_pos1",
            Rule::ItePos2 => b"ite_pos2",
            Rule::IteNeg1 => b"ite_neg1",
            Rule::IteNeg2 => b"ite_neg2",
            Rule::NotNot => b"not_not",
            Rule::And => b"and",
            Rule::NotAnd => b"not_and",
            Rule::NotOr => b"not_or",
            Rule::Implies => b"implies",
            Rule::NotImplies1 => b"not_implies1",
            Rule::NotImplies2 => b"not_implies2",
            Rule::Equiv1 => b"equiv1",
            Rule::Equiv2 => b"equiv2",
            Rule::NotEquiv1 => b"not_equiv1",
            Rule::NotEquiv2 => b"not_equiv2",
            Rule::Xor1 => b"xor1",
            Rule::Xor2 => b"xor2",
            Rule::NotXor1 => b"not_xor1",
            Rule::NotXor2 => b"not_xor2",
            Rule::Ite1 => b"ite1",
            Rule::Ite2 => b"ite2",
            Rule::NotIte1 => b"not_ite1",
            Rule::NotIte2 => b"not_ite2",
            Rule::EqReflexive => b"eq_reflexive",
            Rule::EqTransitive => b"eq_transitive",
            Rule::EqCongruent => b"eq_congruent",
            Rule::EqCongruentPred => b"eq_congruent_pred",
            Rule::Refl => b"refl",
            Rule::Symm => b"symm",
            Rule::Trans => b"trans",
            Rule::Cong => b"cong",
            Rule::DistinctElim => b"distinct_elim",
            Rule::IteThen => b"x_ite_then",
            Rule::IteElse => b"x_ite_else",
            Rule::LaGeneric => b"la_generic",
            Rule::LaDisequality => b"la_disequality",
            Rule::LaTotality => b"la_totality",
        }
    }

    /// Gives the rule of a name, or nothing where no rule has it.
    pub fn named(name: &[u8]) -> Option<Rule>
        ensures { result ≡ rule_named name.now }
    {
        rule_among(&EVERY_RULE, name)
    }
}
