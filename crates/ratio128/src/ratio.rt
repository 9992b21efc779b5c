//! The type of fractions.

ghost use Rattle.std.specs.Prelude.{◌≡◌, ◌≢◌, ◌↔◌, ◌^◌, ◌<◌, pos, unsigned_abs, IsTrue, MatchBool};
ghost use Rattle.spec_numbers.specs.Fractions.{zero_fraction, whole, opposite, divide};
ghost use Rattle.ratio128.specs.Parts.{AreParts};

use crate::parts::{gcd_of, signed};

/// A fraction in lowest terms. Its denominator is above 0, and both parts are at most 2^127 - 1 in size.
#[derive(Clone, Copy, PartialEq, Eq, Hash, Debug)]
pub struct Ratio {
    pub(crate) num: i128,
    pub(crate) den: u128,
    ghost parts: { AreParts num den },
}

impl Ratio {
    ghost use Rattle.ratio128.specs.Meant.{fraction, AreWhole};

    /// Gives the fraction `num / den` in lowest terms. Both parts are at most 2^127 - 1 in size.
    pub fn of(num: i128, den: i128) -> Ratio
        requires not_zero { den ≢ pos 0 }
        requires num_fits { unsigned_abs num < 2 ^ 127 }
        requires den_fits { unsigned_abs den < 2 ^ 127 }
        ensures { fraction result ≡ divide (whole num) (whole den) }
    {
        let (top, bottom) = (num.unsigned_abs(), den.unsigned_abs());
        let shared = gcd_of(top, bottom);
        Ratio {
            num: signed((num < 0) != (den < 0), top / shared),
            den: bottom / shared,
        }
    }

    /// Gives the numerator. It has the fraction's sign.
    pub fn num(self) -> i128
        ensures { result ≡ (fraction self).num }
    {
        self.num
    }

    /// Gives the denominator. It is above 0.
    pub fn den(self) -> i128
        ensures { result ≡ pos (fraction self).den }
    {
        self.den as i128
    }

    /// Says whether the fraction is 0.
    pub fn is_zero(self) -> bool
        ensures { IsTrue result ↔ fraction self ≡ zero_fraction }
    {
        self.num == 0
    }

    /// Gives the fraction with the other sign.
    pub fn neg(self) -> Ratio
        ensures { fraction result ≡ opposite (fraction self) }
    {
        Ratio {
            num: -self.num,
            den: self.den,
        }
    }

    /// Says whether both fractions are whole numbers.
    pub(crate) fn are_whole(a: Ratio, b: Ratio) -> bool
        ensures { MatchBool result (AreWhole a b) (¬ AreWhole a b) }
    {
        a.den == 1 && b.den == 1
    }
}
