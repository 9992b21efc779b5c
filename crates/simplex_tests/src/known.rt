//! What a case has stated: its rows, its bounds, and its marks.

ghost use Rattle.std.specs.Prelude.{◌≡◌};

use crate::elimination::{Form, Inequality, has_point, mixed_forms};
use delta_num::Delta;
use simplex_bounds::deltas::{less, plus, scaled, zero};
use simplex_bounds::{Bound, Lit, Side};
use simplex_check::RealAssignment;
use std::alloc::Global;
use tableau::{Entry, Ratio};
use term_core::TermId;

/// A multiple of a variable.
#[derive(Clone, Copy)]
pub(crate) struct Part {
    pub(crate) variable: u64,
    pub(crate) times: i64,
}

/// A variable that is the sum of three parts.
#[derive(Clone, Copy)]
pub(crate) struct Sum {
    pub(crate) variable: u64,
    pub(crate) parts: [Part; 3],
}

/// A bound of a variable: which side, twice its value, and whether it is strict.
#[derive(Clone, Copy)]
pub(crate) struct Limit {
    pub(crate) variable: u64,
    pub(crate) lower: bool,
    pub(crate) twice: i64,
    pub(crate) strict: bool,
}

/// Holds what a case has stated.
#[derive(Drop)]
pub(crate) struct Known {
    /// Each variable as a form over the first ones.
    forms: Vec<Form>,
    /// The rows, oldest first.
    sums: Vec<Sum>,
    /// The bounds that are held, oldest first.
    limits: Vec<Limit>,
    /// How many bounds were held at each mark.
    marks: Vec<u64>,
}

/// Gives the form of a variable, the sum of nothing where there is none.
fn form_of(forms: &[Form], variable: u64) -> Form {
    match forms.get(variable as usize) {
        Some(form) => *form,
        None => [0, 0, 0, 0],
    }
}

/// Gives the form of a sum.
fn form_of_sum(forms: &[Form], sum: &Sum) -> Option<Form> {
    let [a, b, c] = sum.parts;
    let two = mixed_forms(
        i128::from(a.times),
        form_of(forms, a.variable),
        i128::from(b.times),
        form_of(forms, b.variable),
    )?;
    mixed_forms(1, two, i128::from(c.times), form_of(forms, c.variable))
}

/// Gives what a bound says of the doubles of the first variables.
fn inequality_of(forms: &[Form], limit: &Limit) -> Option<Inequality> {
    let sign = if limit.lower { -1 } else { 1 };
    let form = form_of(forms, limit.variable);
    Some(Inequality {
        form: mixed_forms(sign, form, 0, form)?,
        most: sign.checked_mul(i128::from(limit.twice))?,
        strict: limit.strict,
    })
}

/// Gives what bounds say of the doubles of the first variables.
fn inequalities_of(alloc: Global, forms: &[Form], limits: &[Limit]) -> Option<Vec<Inequality>> {
    let mut out = Vec::new(alloc);
    for limit in limits {
        out.push(inequality_of(forms, limit)?).ok()?;
    }
    Some(out)
}

/// Gives a whole number as a fraction.
pub(crate) fn whole(n: i64) -> Ratio {
    Ratio::of(i128::from(n), 1)
}

/// Gives the entry of a part.
pub(crate) fn entry_of(part: Part) -> Entry {
    Entry {
        variable: part.variable,
        coefficient: whole(part.times),
    }
}

/// Gives the value of a bound.
fn value_of(limit: &Limit) -> Delta {
    let tilt = match (limit.strict, limit.lower) {
        (false, _) => 0,
        (true, true) => 1,
        (true, false) => -1,
    };
    Delta::of(Ratio::of(i128::from(limit.twice), 2), whole(tilt))
}

/// Gives a bound as the bounds of variables take it.
pub(crate) fn bound_of(limit: &Limit) -> Bound
    ensures { result.variable ≡ limit.now.variable }
{
    let literal = Lit {
        term: TermId(limit.variable),
        positive: limit.lower,
    };
    Bound {
        variable: limit.variable,
        side: if limit.lower {
            Side::Lower
        } else {
            Side::Upper
        },
        value: value_of(limit),
        literal,
    }
}

/// Tells whether a value keeps a bound.
fn keeps(value: Delta, limit: &Limit) -> bool {
    if limit.lower {
        !less(value, value_of(limit))
    } else {
        !less(value_of(limit), value)
    }
}

/// Adds a part to a value.
fn value_with(assignment: &RealAssignment, so_far: Delta, part: Part) -> Option<Delta> {
    let product = scaled(whole(part.times), assignment.value(part.variable)).ok()?;
    plus(so_far, product).ok()
}

/// Tells whether the value of a sum is that of its parts.
fn adds_up(assignment: &RealAssignment, sum: &Sum) -> Option<bool> {
    let [a, b, c] = sum.parts;
    let one = value_with(assignment, zero(), a)?;
    let two = value_with(assignment, one, b)?;
    let three = value_with(assignment, two, c)?;
    Some(assignment.value(sum.variable) == three)
}

impl Known {
    /// Makes one of nothing.
    pub(crate) fn new(alloc: Global) -> Known {
        Known {
            forms: Vec::new(alloc),
            sums: Vec::new(alloc),
            limits: Vec::new(alloc),
            marks: Vec::new(alloc),
        }
    }

    /// Counts the variables.
    pub(crate) fn variables(&self) -> u64 {
        self.forms.len() as u64
    }

    /// Counts the rows.
    pub(crate) fn sums(&self) -> u64 {
        self.sums.len() as u64
    }

    /// Notes one of the first variables, with its form.
    pub(crate) fn add(&mut self, form: Form) -> Option<()> {
        self.forms.push(form).ok()
    }

    /// Notes a row.
    pub(crate) fn add_sum(&mut self, sum: Sum) -> Option<()> {
        let form = form_of_sum(&self.forms, &sum)?;
        self.forms.push(form).ok()?;
        self.sums.push(sum).ok()
    }

    /// Notes a bound.
    pub(crate) fn hold(&mut self, limit: Limit) -> Option<()> {
        self.limits.push(limit).ok()
    }

    /// Sets a mark.
    pub(crate) fn mark(&mut self) -> Option<()> {
        self.marks.push(self.limits.len() as u64).ok()
    }

    /// Goes back over the newest mark; gives how many bounds were held there.
    pub(crate) fn back(&mut self) -> Option<u64> {
        let len = self.marks.pop()?;
        self.limits.truncate(len as usize);
        Some(len)
    }

    /// Tells whether some values keep all bounds that are held.
    pub(crate) fn is_feasible(&self, alloc: Global) -> Option<bool> {
        let lines = inequalities_of(alloc, &self.forms, &self.limits)?;
        has_point(alloc, &lines).ok()
    }

    /// Tells whether the values keep all bounds that are held.
    pub(crate) fn is_kept(&self, assignment: &RealAssignment) -> bool {
        for limit in &self.limits {
            if !keeps(assignment.value(limit.variable), limit) {
                return false;
            }
        }
        true
    }

    /// Tells whether the value of each row is that of its parts; `None` where a number leaves 128 bits.
    pub(crate) fn is_solved(&self, assignment: &RealAssignment) -> Option<bool> {
        for sum in &self.sums {
            if !adds_up(assignment, sum)? {
                return Some(false);
            }
        }
        Some(true)
    }
}
