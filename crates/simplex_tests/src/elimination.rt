//! An elimination of variables from inequalities, one after the other, until only constants are left.

use no_memory::NoMemory;
use std::alloc::{AllocError, AllocFailed, Global};

/// The coefficients of four variables.
pub(crate) type Form = [i128; 4];

/// States that a sum of multiples of four unknowns is at most a number, or below it.
#[derive(Clone, Copy)]
pub(crate) struct Inequality {
    /// The coefficients of the sum.
    pub(crate) form: Form,
    /// The number.
    pub(crate) most: i128,
    /// Whether the sum is below it.
    pub(crate) strict: bool,
}

/// Says why an elimination came to no end.
#[derive(Clone, Copy, Debug, PartialEq, Eq)]
pub(crate) enum EliminationStop {
    /// A number leaves 128 bits.
    Wide,
    /// Memory ran out.
    Memory,
}

impl From<NoMemory> for EliminationStop {
    fn from(_error: NoMemory) -> EliminationStop {
        EliminationStop::Memory
    }
}

impl From<AllocError> for EliminationStop {
    fn from(_error: AllocError) -> EliminationStop {
        EliminationStop::Memory
    }
}

impl<T: Drop> From<AllocFailed<T>> for EliminationStop {
    fn from(_error: AllocFailed<T>) -> EliminationStop {
        EliminationStop::Memory
    }
}

/// Gives a sum of two products, if it is within 128 bits.
fn mixed(a: i128, x: i128, b: i128, y: i128) -> Option<i128> {
    let left = a.checked_mul(x)?;
    let right = b.checked_mul(y)?;
    left.checked_add(right)
}

/// Gives the sum of a times one form and b times another, if its coefficients are within 128 bits.
pub(crate) fn mixed_forms(a: i128, one: Form, b: i128, other: Form) -> Option<Form> {
    let [p, q, r, s] = one;
    let [t, u, v, w] = other;
    Some([
        mixed(a, p, b, t)?,
        mixed(a, q, b, u)?,
        mixed(a, r, b, v)?,
        mixed(a, s, b, w)?,
    ])
}

/// Gives the first coefficient.
fn first_of(line: &Inequality) -> i128 {
    let [first, _, _, _] = line.form;
    first
}

/// Moves the coefficients one place on, over the first, which is 0.
fn moved(line: Inequality) -> Inequality {
    let [_, q, r, s] = line.form;
    Inequality {
        form: [q, r, s, 0],
        most: line.most,
        strict: line.strict,
    }
}

/// Adds an upper bound of the first unknown to a lower one, so that the unknown goes.
fn joined(upper: &Inequality, lower: &Inequality) -> Option<Inequality> {
    let a = first_of(lower).checked_neg()?;
    let b = first_of(upper);
    let line = Inequality {
        form: mixed_forms(a, upper.form, b, lower.form)?,
        most: mixed(a, upper.most, b, lower.most)?,
        strict: upper.strict || lower.strict,
    };
    Some(moved(line))
}

/// Puts a bound of the first unknown last with each one of the other side.
fn join_all(
    out: &mut Vec<Inequality>,
    upper: &Inequality,
    lines: &[Inequality],
) -> Result<(), EliminationStop> {
    for lower in lines {
        if first_of(lower) < 0 {
            out.push(joined(upper, lower).ok_or(EliminationStop::Wide)?)?;
        }
    }
    Ok(())
}

/// Gives what inequalities say of all unknowns but the first.
fn eliminated(alloc: Global, lines: &[Inequality]) -> Result<Vec<Inequality>, EliminationStop> {
    let mut out = Vec::new(alloc);
    for line in lines {
        let first = first_of(line);
        if first == 0 {
            out.push(moved(*line))?;
        } else if first > 0 {
            join_all(&mut out, line, lines)?;
        }
    }
    Ok(out)
}

/// Tells whether the constants that are left keep the inequalities.
fn are_kept(lines: &[Inequality]) -> bool {
    for line in lines {
        if line.most < 0 || (line.most == 0 && line.strict) {
            return false;
        }
    }
    true
}

/// Tells whether some values of the four unknowns keep all inequalities.
///
/// `Wide` comes where a number leaves 128 bits, and `Memory` where memory runs out.
pub(crate) fn has_point(alloc: Global, lines: &[Inequality]) -> Result<bool, EliminationStop> {
    let three = eliminated(alloc, lines)?;
    let two = eliminated(alloc, &three)?;
    let one = eliminated(alloc, &two)?;
    let none = eliminated(alloc, &one)?;
    Ok(are_kept(&none))
}
