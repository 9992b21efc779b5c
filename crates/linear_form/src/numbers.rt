//! The numbers 0 and 1.

ghost use Rattle.std.specs.Prelude.{◌≡◌};
ghost use Rattle.spec_numbers.specs.Fractions.{zero_fraction, one_fraction};
ghost use Rattle.ratio128.specs.Meant.{fraction};

use ratio128::Ratio;

/// Says 0.
pub fn zero() -> Ratio
    ensures { fraction result ≡ zero_fraction }
{
    Ratio::of(0, 1)
}

/// Says 1.
pub fn one() -> Ratio
    ensures { fraction result ≡ one_fraction }
{
    Ratio::of(1, 1)
}
