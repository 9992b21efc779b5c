//! Sums and differences.

ghost use Rattle.std.specs.Prelude.{◌≡◌};
ghost use Rattle.spec_numbers.specs.Fractions.{plus};
ghost use Rattle.spec_numbers.specs.Bounds.{sum_fits, added, subtracted};
ghost use Rattle.ratio128.specs.Meant.{fraction, outcome, IsNarrow};

use crate::parts::{cut, gcd_of, narrow_multiple, narrow_product, narrow_sum, quotient_of};
use crate::{Op, Ratio, Wide};

impl Ratio {
    /// Gives the exact sum. The error is `Wide` exactly where a part of the sum leaves 2^127 - 1, or where a numerator
    /// over the least common multiple of the denominators does, or the sum of these two.
    pub fn add(self, other: Ratio) -> Result<Ratio, Wide>
        ensures { outcome result ≡ added (fraction self) (fraction other) }
    {
        sum_of(self, other).ok_or(Wide {
            op: Op::Add,
            left: self,
            right: other,
        })
    }

    /// Gives the exact difference. The error is `Wide` exactly where `add` of the negative of `other` has one.
    pub fn sub(self, other: Ratio) -> Result<Ratio, Wide>
        ensures { outcome result ≡ subtracted (fraction self) (fraction other) }
    {
        sum_of(self, other.neg()).ok_or(Wide {
            op: Op::Sub,
            left: self,
            right: other,
        })
    }
}

// The sum, where it and what it is made of are within the bound.
fn sum_of(a: Ratio, b: Ratio) -> Option<Ratio>
    ensures { IsNarrow result (sum_fits (fraction a) (fraction b)) (plus (fraction a) (fraction b)) }
{
    if Ratio::are_whole(a, b) {
        let num = narrow_sum(a.num, b.num)?;
        return Some(Ratio { num, den: 1 });
    }
    common_sum_of(a, b)
}

// The same by way of the least common multiple of the denominators.
// Source: Knuth, The Art of Computer Programming, volume 2, section 4.5.1.
fn common_sum_of(a: Ratio, b: Ratio) -> Option<Ratio>
    ensures { IsNarrow result (sum_fits (fraction a) (fraction b)) (plus (fraction a) (fraction b)) }
{
    let shared = gcd_of(a.den, b.den);
    let left = narrow_multiple(a.num, quotient_of(b.den, shared))?;
    let right = narrow_multiple(b.num, quotient_of(a.den, shared))?;
    let sum = narrow_sum(left, right)?;
    let common = gcd_of(sum.unsigned_abs(), shared);
    let den = narrow_product(quotient_of(a.den, shared), quotient_of(b.den, common))?;
    Some(Ratio {
        num: cut(sum, common),
        den,
    })
}
