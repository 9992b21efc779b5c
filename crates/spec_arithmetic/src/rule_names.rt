//! The names of the rules of linear arithmetic.

ghost use Rattle.std.specs.Prelude.{◌≡◌};
ghost use Rattle.spec_arithmetic.specs.ArithmeticRules.{arithmetic_name};

use crate::ArithmeticRule;

impl ArithmeticRule {
    /// Gives the name by which proofs name the rule.
    pub fn name(self) -> &'static [u8]
        ensures { result.now ≡ arithmetic_name self }
    {
        match self {
            ArithmeticRule::LaGeneric => b"la_generic",
            ArithmeticRule::LaDisequality => b"la_disequality",
            ArithmeticRule::LaTotality => b"la_totality",
        }
    }
}
