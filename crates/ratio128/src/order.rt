//! The order of fractions.

ghost use Rattle.std.specs.Prelude.{◌≡◌};
ghost use Rattle.std.specs.Ordering.{on, as_partial_cmp};
ghost use Rattle.spec_numbers.specs.Fractions.{compare};
ghost use Rattle.ratio128.specs.Meant.{fraction};
ghost use Rattle.ratio128.specs.OrderLaws.{ratio_total, ratio_agrees, ratio_ties, ratio_partial};

use crate::Ratio;
use crate::parts::order_of_products;
use std::cmp::Ordering;

impl Ord for Ratio {
    ghost cmp = { on fraction compare };

    ghost total = { ratio_total };

    ghost matches_partial_cmp = { ratio_agrees };

    ghost matches_eq = { ratio_ties };

    fn cmp(&self, other: &Ratio) -> Ordering {
        order_of(*self, *other)
    }
}

impl PartialOrd for Ratio {
    ghost partial_cmp = { as_partial_cmp (on fraction compare) };

    ghost laws = { ratio_partial };

    fn partial_cmp(&self, other: &Ratio) -> Option<Ordering> {
        Some(self.cmp(other))
    }
}

// The order by signs first, then by cross products. It never overflows.
fn order_of(a: Ratio, b: Ratio) -> Ordering
    ensures { result ≡ compare (fraction a) (fraction b) }
{
    if a.den == b.den {
        return a.num.cmp(&b.num);
    }
    let (left, right) = (a.num.unsigned_abs(), b.num.unsigned_abs());
    match (a.num < 0, b.num < 0) {
        (false, true) => Ordering::Greater,
        (true, false) => Ordering::Less,
        (false, false) => order_of_products(left, b.den, right, a.den),
        (true, true) => order_of_products(right, a.den, left, b.den),
    }
}
