//! Numbers that are the arguments of a step.

ghost use Rattle.std.specs.Prelude.{◌≡◌, length};
ghost use Rattle.rule_bool.specs.Arguments.{fractions_of};

use ratio128::Ratio;
use std::marker::Model;

/// Owns a list of numbers, as the arguments of a step are.
///
/// Contracts see it as the list of fractions. Source: Alethe specification, `:args`.
#[derive(Drop)]
pub struct Numbers {
    numbers: Vec<Ratio>,
}

impl Model for Numbers {
    ghost use Rattle.std.specs.Prelude.{List};
    ghost use Rattle.spec_numbers.specs.Fractions.{Fraction};
    ghost use Rattle.rule_bool.specs.Arguments.{fractions_of};

    ghost Value = { List Fraction };

    ghost view = { λ l. fractions_of l.numbers.items };
}

impl From<Vec<Ratio>> for Numbers {
    ghost from_gives = { λ v l. l ≡ fractions_of v.items };

    fn from(numbers: Vec<Ratio>) -> Numbers {
        Numbers { numbers }
    }
}

impl Numbers {
    /// Lends the numbers. It takes no memory.
    pub fn as_slice(&self) -> &[Ratio]
        ensures { fractions_of result.now ≡ self.now }
    {
        self.numbers.as_slice()
    }

    /// Counts the numbers. It takes no memory.
    pub fn len(&self) -> usize
        ensures { result ≡ length self.now }
    {
        self.numbers.len()
    }
}
