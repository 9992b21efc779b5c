//! Orders of numbers as orders between points.

ghost use Rattle.term_core.specs.Tables.{IsIn};

use crate::cuts::quotient;
use delta_num::Delta;
use linear_form::Form;
use no_memory::NoMemory;
use order_cycles::Order;
use ratio128::Ratio;
use simplex_atoms::{AtomStop, Comparison, difference_of, sides_of};
use std::alloc::Global;
use term_core::{TermId, TermTable};

/// Holds what a literal of an atom says of two points.
#[derive(Clone, Copy, Debug, PartialEq, Eq)]
pub(crate) struct AtomOrder {
    /// The place of the atom among those that are looked at.
    pub(crate) place: usize,
    /// Whether the literal is the atom itself.
    pub(crate) positive: bool,
    /// The weight by which its form has the coefficients 1 and -1.
    pub(crate) weight: Ratio,
    /// What it says.
    pub(crate) order: Order,
}

/// Holds a form of one term minus another one, and what is added.
#[derive(Clone, Copy, Debug, PartialEq, Eq)]
struct Difference {
    /// The number of the first.
    plus: usize,
    /// The number of the second.
    minus: usize,
    /// What is added.
    constant: Ratio,
    /// By which number the form of the atom was divided, or by its opposite.
    size: Ratio,
}

/// Gives the form of one term minus another one, over a number above 0. A form with one term alone is that term minus or plus the last
/// point, which stands for 0.
///
/// Nothing is given where a form has more terms, or a number leaves 128 bits. `NoMemory` comes where there is no memory.
fn difference_by(alloc: Global, form: &Form, zero: usize) -> Result<Option<Difference>, NoMemory> {
    let variables = form.variables(alloc)?;
    let Some((first, k)) = variables.first() else {
        return Ok(None);
    };
    let (first, k) = (first.0 as usize, *k);
    let second = match variables.get(1) {
        None => zero,
        Some((second, other)) => {
            if variables.len() > 2 || *other != k.neg() {
                return Ok(None);
            }
            second.0 as usize
        }
    };
    let is_above = k.num() > 0;
    let size = if is_above { k } else { k.neg() };
    let (plus, minus) = if is_above {
        (first, second)
    } else {
        (second, first)
    };
    let Some(constant) = quotient(form.constant(), size) else {
        return Ok(None);
    };
    Ok(Some(Difference {
        plus,
        minus,
        constant,
        size,
    }))
}

/// Says what a literal says of two points, of which the atom compares this difference with 0.
fn order_of(difference: Difference, kind: Comparison, positive: bool) -> Order {
    let is_strict = (kind == Comparison::Less) == positive;
    let tilt = if is_strict {
        Ratio::of(-1, 1)
    } else {
        Ratio::of(0, 1)
    };
    if positive {
        return Order {
            lower: difference.plus,
            upper: difference.minus,
            most: Delta::of(difference.constant.neg(), tilt),
        };
    }
    Order {
        lower: difference.minus,
        upper: difference.plus,
        most: Delta::of(difference.constant, tilt),
    }
}

/// Says what the literal of an atom says of two points, which are numbered as terms; the point of 0 comes after all these.
///
/// Nothing is given where the atom is no order of numbers, where its form is neither the difference of two terms nor one term alone, and
/// where a number leaves 128 bits. `NoMemory` comes where there is no memory.
pub(crate) fn atom_order(
    alloc: Global,
    table: &TermTable,
    atom: TermId,
    place: usize,
    positive: bool,
) -> Result<Option<AtomOrder>, NoMemory>
    requires { IsIn table.now atom }
{
    let Some(sides) = sides_of(table, atom) else {
        return Ok(None);
    };
    if sides.kind == Comparison::Equal {
        return Ok(None);
    }
    let form = match difference_of(alloc, table, sides) {
        Ok(form) => form,
        Err(AtomStop::Wide(_)) => return Ok(None),
        Err(AtomStop::Memory) => return Err(NoMemory),
    };
    let Some(difference) = difference_by(alloc, &form, table.len() as usize)? else {
        return Ok(None);
    };
    let Some(weight) = quotient(Ratio::of(1, 1), difference.size) else {
        return Ok(None);
    };
    Ok(Some(AtomOrder {
        place,
        positive,
        weight,
        order: order_of(difference, sides.kind, positive),
    }))
}
