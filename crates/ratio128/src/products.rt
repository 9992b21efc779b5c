//! Products.

ghost use Rattle.std.specs.Prelude.{◌≡◌};
ghost use Rattle.spec_numbers.specs.Fractions.{times};
ghost use Rattle.spec_numbers.specs.Bounds.{fits, multiplied};
ghost use Rattle.ratio128.specs.Meant.{fraction, outcome, IsNarrow};

use crate::parts::{cut, gcd_of, narrow_product, narrow_signed_product, quotient_of};
use crate::{Op, Ratio, Wide};

impl Ratio {
    /// Gives the exact product. The error is `Wide` exactly where a part of the product leaves 2^127 - 1.
    pub fn mul(self, other: Ratio) -> Result<Ratio, Wide>
        ensures { outcome result ≡ multiplied (fraction self) (fraction other) }
    {
        product_of(self, other).ok_or(Wide {
            op: Op::Mul,
            left: self,
            right: other,
        })
    }
}

/// Gives the product, where it is within the bound.
pub(crate) fn product_of(a: Ratio, b: Ratio) -> Option<Ratio>
    ensures { IsNarrow result (fits (times (fraction a) (fraction b))) (times (fraction a) (fraction b)) }
{
    if Ratio::are_whole(a, b) {
        let num = narrow_signed_product(a.num, b.num)?;
        return Some(Ratio { num, den: 1 });
    }
    cut_product_of(a, b)
}

// The same, with common divisors taken out before the parts are multiplied.
// Source: Knuth, The Art of Computer Programming, volume 2, section 4.5.1.
fn cut_product_of(a: Ratio, b: Ratio) -> Option<Ratio>
    ensures { IsNarrow result (fits (times (fraction a) (fraction b))) (times (fraction a) (fraction b)) }
{
    let first = gcd_of(a.num.unsigned_abs(), b.den);
    let second = gcd_of(b.num.unsigned_abs(), a.den);
    let num = narrow_signed_product(cut(a.num, first), cut(b.num, second))?;
    let den = narrow_product(quotient_of(a.den, second), quotient_of(b.den, first))?;
    Some(Ratio { num, den })
}
