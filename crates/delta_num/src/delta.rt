//! The type of numbers with an infinitesimal part, and its operations.

ghost use Rattle.std.specs.Prelude.{◌≡◌, ◌≢◌};
ghost use Rattle.spec_numbers.specs.Fractions.{zero_fraction};
ghost use Rattle.ratio128.specs.Meant.{fraction, outcome};
ghost use Rattle.spec_tableaux.specs.Deltas.{number, delta_added, delta_subtracted, delta_scaled, delta_divided, delta_evaluated, delta_compare};
ghost use Rattle.delta_num.specs.Meant.{delta, delta_outcome};

use ratio128::{Ratio, Wide};
use std::cmp::Ordering;

/// A number `base + tilt * epsilon`. Any two fractions are one.
///
/// A bound that is strict has a tilt: above 2 is `2 + epsilon`, below 2 is `2 - epsilon`.
/// Source: Dutertre and de Moura, A Fast Linear-Arithmetic Solver for DPLL(T), CAV 2006.
#[derive(Clone, Copy, PartialEq, Eq, Debug)]
pub struct Delta {
    /// The part without epsilon.
    pub base: Ratio,
    /// How many times epsilon is added.
    pub tilt: Ratio,
}

impl Delta {
    /// Gives the number of two parts.
    pub fn of(base: Ratio, tilt: Ratio) -> Delta
        ensures { delta result ≡ record { base = fraction base; tilt = fraction tilt } }
    {
        Delta { base, tilt }
    }

    /// Gives a fraction as a number without an infinitesimal part.
    pub fn number(base: Ratio) -> Delta
        ensures { delta result ≡ number (fraction base) }
    {
        Delta {
            base,
            tilt: Ratio::of(0, 1),
        }
    }

    /// Gives the exact sum. The error is the `Wide` of the sum of the bases, or else that of the sum of the tilts, exactly
    /// where `Ratio::add` has one.
    pub fn add(a: Delta, b: Delta) -> Result<Delta, Wide>
        ensures { delta_outcome result ≡ delta_added (delta a) (delta b) }
    {
        let base = a.base.add(b.base)?;
        let tilt = a.tilt.add(b.tilt)?;
        Ok(Delta { base, tilt })
    }

    /// Gives the exact difference. The error is the `Wide` of the difference of the bases, or else that of the difference of
    /// the tilts, exactly where `Ratio::sub` has one.
    pub fn sub(a: Delta, b: Delta) -> Result<Delta, Wide>
        ensures { delta_outcome result ≡ delta_subtracted (delta a) (delta b) }
    {
        let base = a.base.sub(b.base)?;
        let tilt = a.tilt.sub(b.tilt)?;
        Ok(Delta { base, tilt })
    }

    /// Multiplies both parts by a fraction, which is the left operand. The error is the `Wide` of the product with the base,
    /// or else that of the product with the tilt, exactly where `Ratio::mul` has one.
    pub fn scale(a: Delta, by: Ratio) -> Result<Delta, Wide>
        ensures { delta_outcome result ≡ delta_scaled (fraction by) (delta a) }
    {
        let base = by.mul(a.base)?;
        let tilt = by.mul(a.tilt)?;
        Ok(Delta { base, tilt })
    }

    /// Divides both parts by a fraction that is not 0. The error is the `Wide` of the quotient of the base, or else that of
    /// the quotient of the tilt, exactly where `Ratio::div` has one.
    pub fn divide(a: Delta, by: Ratio) -> Result<Delta, Wide>
        requires { fraction by ≢ zero_fraction }
        ensures { delta_outcome result ≡ delta_divided (delta a) (fraction by) }
    {
        let base = a.base.div(by)?;
        let tilt = a.tilt.div(by)?;
        Ok(Delta { base, tilt })
    }

    /// Compares two numbers by their bases, and those with one base by their tilts. It never overflows.
    #[tactic(auto, unfolding(spec_tableaux::specs::Deltas::delta_compare))]
    pub fn cmp(a: Delta, b: Delta) -> Ordering
        ensures { result ≡ delta_compare (delta a) (delta b) }
    {
        match a.base.cmp(&b.base) {
            Ordering::Equal => a.tilt.cmp(&b.tilt),
            other => other,
        }
    }

    /// Gives the value where epsilon is `eps`. The error is the `Wide` of the product of the tilt and `eps`, or else that of
    /// the sum of the base and this product, exactly where `Ratio::mul` or `Ratio::add` has one.
    pub fn at(a: Delta, eps: Ratio) -> Result<Ratio, Wide>
        ensures { outcome result ≡ delta_evaluated (delta a) (fraction eps) }
    {
        let product = a.tilt.mul(eps)?;
        a.base.add(product)
    }
}
