//! The bounds that literals state.

ghost use Rattle.std.specs.Prelude.{◌≡◌};
ghost use Rattle.tableau.specs.Numbers.{number_of};
ghost use Rattle.simplex_atoms.specs.Limits.{side_by, tilt_by, limit_of, limit_on, limits_meant, limits_by};

use crate::slack::{Comparison, Slack};
use delta_num::Delta;
use ratio128::Ratio;
use simplex_bounds::{Bound, Side};
use tableau::numbers::{is_negative, negative, one, zero};
use term_core::Lit;

/// Gives the side on which a variable is bounded where its multiple is at most a number, by whether the factor is
/// above 0.
fn side_by(up: bool) -> Side
    ensures { result ≡ side_by up }
{
    if up { Side::Upper } else { Side::Lower }
}

/// Says by how many infinitesimals a bound is off the number from which it keeps a variable, which it may not reach
/// where it is strict.
fn tilt_by(side: Side, strict: bool) -> Ratio
    ensures { number_of result ≡ tilt_by side strict }
{
    match (side, strict) {
        (Side::Lower, true) => one(),
        (Side::Upper, true) => negative(one()),
        (Side::Lower, false) => zero(),
        (Side::Upper, false) => zero(),
    }
}

/// Makes the bound of a place on a side, which the variable may not reach where it is strict.
fn bound_on(slack: Slack, literal: Lit, side: Side, strict: bool) -> Bound
    ensures { limit_of result ≡ limit_on slack literal side strict }
{
    Bound {
        variable: slack.variable,
        side,
        value: Delta {
            base: slack.bound,
            tilt: tilt_by(side, strict),
        },
        literal,
    }
}

/// Gives the bounds that a literal states of the variable on which its atom is placed: none, one, or the lower and
/// the upper one. A bound that the variable may not reach has a tilt. It takes no memory.
///
/// Source: Dutertre and de Moura, A Fast Linear-Arithmetic Solver for DPLL(T), CAV 2006.
pub fn bounds_by(slack: Slack, literal: Lit) -> (Option<Bound>, Option<Bound>)
    ensures { limits_meant result ≡ limits_by slack literal }
{
    let up = is_negative(negative(slack.factor));
    let (side, strict) = match (slack.kind, literal.positive) {
        (Comparison::Less, true) => (side_by(up), true),
        (Comparison::AtMost, true) => (side_by(up), false),
        (Comparison::Less, false) => (side_by(!up), false),
        (Comparison::AtMost, false) => (side_by(!up), true),
        (Comparison::Equal, true) => {
            let lower = bound_on(slack, literal, Side::Lower, false);
            let upper = bound_on(slack, literal, Side::Upper, false);
            return (Some(lower), Some(upper));
        }
        (Comparison::Equal, false) => return (None, None),
    };
    (Some(bound_on(slack, literal, side, strict)), None)
}
