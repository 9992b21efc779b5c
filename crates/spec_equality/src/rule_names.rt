//! The names of the rules of equality.

ghost use Rattle.std.specs.Prelude.{◌≡◌};
ghost use Rattle.spec_equality.specs.EqualityRules.{equality_name};

use crate::EqualityRule;

impl EqualityRule {
    /// Gives the name by which proofs name the rule.
    pub fn name(self) -> &'static [u8]
        ensures { result.now ≡ equality_name self }
    {
        match self {
            EqualityRule::EqReflexive => b"eq_reflexive",
            EqualityRule::EqTransitive => b"eq_transitive",
            EqualityRule::EqCongruent => b"eq_congruent",
            EqualityRule::EqCongruentPred => b"eq_congruent_pred",
            EqualityRule::Refl => b"refl",
            EqualityRule::Symm => b"symm",
            EqualityRule::Trans => b"trans",
            EqualityRule::Cong => b"cong",
            EqualityRule::DistinctElim => b"distinct_elim",
            EqualityRule::IteThen => b"x_ite_then",
            EqualityRule::IteElse => b"x_ite_else",
        }
    }
}
