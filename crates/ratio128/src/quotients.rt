//! Quotients.

ghost use Rattle.std.specs.Prelude.{◌≡◌, ◌≢◌};
ghost use Rattle.spec_numbers.specs.Fractions.{inverse, zero_fraction};
ghost use Rattle.spec_numbers.specs.Bounds.{divided};
ghost use Rattle.ratio128.specs.Meant.{fraction, outcome};

use crate::parts::signed;
use crate::products::product_of;
use crate::{Op, Ratio, Wide};

impl Ratio {
    /// Gives the exact quotient by a fraction that is not 0. The error is `Wide` exactly where a part of the quotient
    /// leaves 2^127 - 1.
    pub fn div(self, other: Ratio) -> Result<Ratio, Wide>
        requires { fraction other ≢ zero_fraction }
        ensures { outcome result ≡ divided (fraction self) (fraction other) }
    {
        product_of(self, inverse_of(other)).ok_or(Wide {
            op: Op::Div,
            left: self,
            right: other,
        })
    }
}

// One over a fraction that is not 0.
fn inverse_of(a: Ratio) -> Ratio
    requires { fraction a ≢ zero_fraction }
    ensures { fraction result ≡ inverse (fraction a) }
{
    Ratio {
        num: signed(a.num < 0, a.den),
        den: a.num.unsigned_abs(),
    }
}
