//! Bounds that a row seems to imply.

ghost use Rattle.std.specs.Prelude.{IfSome, Contains};

use crate::simplex::Simplex;
use delta_num::Delta;
use no_memory::NoMemory;
use sat_trail::SatTrail;
use simplex_atoms::{Comparison, Slack, bounds_by};
use simplex_bounds::deltas::{divided, less, minus, plus, scaled, zero};
use simplex_bounds::{Bound, Side};
use tableau::Entry;
use tableau::numbers::{is_negative, is_zero, negative, one};
use term_core::Lit;

/// How many entries a row may have that is looked at.
const LONGEST: usize = 30;

/// How many literals are looked for at once.
const MOST: usize = 16;

/// Says which literal a row seems to imply.
#[derive(Clone, Copy, Debug, PartialEq, Eq)]
pub(crate) struct Hint {
    /// The row.
    pub(crate) row: u64,
    /// Whether the greatest values of the other products are summed, else the least.
    pub(crate) up: bool,
    /// The variable whose bound follows.
    pub(crate) variable: u64,
    /// The number of the atom among the watched terms.
    pub(crate) atom: u64,
    /// The sign of its literal that is false.
    pub(crate) denied: bool,
}

/// Sums the products of a row that have a bound.
#[derive(Clone, Copy, Debug, PartialEq, Eq)]
struct RowSum {
    /// The sum.
    sum: Delta,
    /// The variable of the one product without a bound.
    free: Option<u64>,
}

/// Gives the bound of the side other than this one that an order states, or its complement does.
fn opposite(slack: Slack, order: Lit, side: Side) -> Option<Bound> {
    let (bound, _) = bounds_by(slack, order);
    let bound = bound?;
    if bound.side != side {
        return Some(bound);
    }
    let complement = Lit {
        positive: !order.positive,
        ..order
    };
    bounds_by(slack, complement).0
}

/// Tells whether a value is beyond another one, seen from a bound of this side.
fn is_beyond(side: Side, value: Delta, other: Delta) -> bool {
    match side {
        Side::Lower => less(value, other),
        Side::Upper => less(other, value),
    }
}

impl Simplex {
    /// Gives the strongest bound that stops a product of a row, where it is to rise, or to fall if `up` is false.
    pub(crate) fn stop(&self, up: bool, member: Entry) -> Option<Bound>
        ensures { IfSome result (λ bound. Contains self.now.bounds.held bound) }
    {
        if is_negative(member.coefficient) == up {
            self.bounds.lower(member.variable)
        } else {
            self.bounds.upper(member.variable)
        }
    }

    /// Lists the variables of a row with their coefficients, where their sum is 0: the basic one first. The list is empty where the row
    /// is long, or not there.
    ///
    /// `NoMemory` comes where there is no memory.
    pub(crate) fn members(&self, row: u64) -> Result<Vec<Entry>, NoMemory> {
        let tableau = self.assignment.tableau();
        let mut members = Vec::new(self.alloc);
        if row >= tableau.rows_len() || tableau.entries(row).len() > LONGEST {
            return Ok(members);
        }
        members.push(Entry {
            variable: tableau.basic(row),
            coefficient: negative(one()),
        })?;
        'entries: for entry in tableau.entries(row) {
            members.push(*entry)?;
        }
        Ok(members)
    }

    /// Gives the watched atom of a number, with its place, if it is an order of a variable and has no value.
    fn open_order(&self, trail: &SatTrail, variable: u64, n: u64) -> Option<(Slack, Lit)> {
        let order = Lit {
            term: self.literals.term(n)?,
            positive: true,
        };
        let slack = self.atoms.slack(order.term)?;
        if slack.kind == Comparison::Equal || slack.variable != variable {
            return None;
        }
        if order.term.0 >= trail.vars() || trail.value(order).is_some() {
            return None;
        }
        Some((slack, order))
    }

    /// Tells whether there is an order of a variable whose literals have no value.
    fn is_open(&self, trail: &SatTrail, variable: u64) -> bool {
        'atoms: for n in self.atom_lists.of(variable) {
            if self.open_order(trail, variable, *n).is_some() {
                return true;
            }
        }
        false
    }

    /// Sums the products of a row by the bounds that stop them; nothing where two have none, or a number leaves 128 bits.
    fn sum_of_stops(&self, members: &[Entry], up: bool) -> Option<RowSum> {
        let mut sum = zero();
        let mut free = None;
        'members: for member in members {
            let Some(bound) = self.stop(up, *member) else {
                if free.is_some() {
                    return None;
                }
                free = Some(member.variable);
                continue;
            };
            let product = scaled(member.coefficient, bound.value).ok()?;
            sum = plus(sum, product).ok()?;
        }
        Some(RowSum { sum, free })
    }

    /// Gives the value that bounds a variable of a row, by the sum of the others; nothing where a number leaves 128 bits.
    fn implied_value(&self, sum: RowSum, up: bool, member: Entry) -> Option<Delta> {
        let own = match self.stop(up, member) {
            None => zero(),
            Some(bound) => scaled(member.coefficient, bound.value).ok()?,
        };
        let rest = minus(own, sum.sum).ok()?;
        if is_zero(member.coefficient) {
            return None;
        }
        divided(rest, member.coefficient).ok()
    }

    /// Finds the atom without a value whose literal is false by a bound of a variable, and whose bound is the nearest: its number among
    /// the watched terms, and the bound that it would have.
    fn nearest(
        &self,
        trail: &SatTrail,
        variable: u64,
        side: Side,
        value: Delta,
    ) -> Option<(u64, Bound)> {
        let mut best: Option<(u64, Bound)> = None;
        'atoms: for n in self.atom_lists.of(variable) {
            let Some((slack, order)) = self.open_order(trail, variable, *n) else {
                continue;
            };
            let Some(bound) = opposite(slack, order, side) else {
                continue;
            };
            if !is_beyond(side, bound.value, value) {
                continue;
            }
            if let Some((_, other)) = best {
                if !is_beyond(side, other.value, bound.value) {
                    continue;
                }
            }
            best = Some((*n, bound));
        }
        best
    }

    /// Finds what a row seems to imply of one of its variables.
    fn hint_for(
        &self,
        trail: &SatTrail,
        row: u64,
        up: bool,
        sum: RowSum,
        member: Entry,
    ) -> Option<Hint> {
        if let Some(free) = sum.free {
            if free != member.variable {
                return None;
            }
        }
        if !self.is_open(trail, member.variable) {
            return None;
        }
        let value = self.implied_value(sum, up, member)?;
        let side = if is_negative(member.coefficient) == up {
            Side::Upper
        } else {
            Side::Lower
        };
        let (atom, bound) = self.nearest(trail, member.variable, side, value)?;
        Some(Hint {
            row,
            up,
            variable: member.variable,
            atom,
            denied: bound.literal.positive,
        })
    }

    /// Adds what a row seems to imply of its variables, in one direction, of atoms that are not there yet.
    fn add_hints_of(
        &self,
        trail: &SatTrail,
        row: u64,
        up: bool,
        members: &[Entry],
        hints: &mut Vec<Hint>,
    ) -> Result<(), NoMemory> {
        let Some(sum) = self.sum_of_stops(members, up) else {
            return Ok(());
        };
        'members: for member in members {
            let Some(hint) = self.hint_for(trail, row, up, sum, *member) else {
                continue;
            };
            if !hints.iter().any(|other| other.atom == hint.atom) {
                hints.push(hint)?;
            }
        }
        Ok(())
    }

    /// Lists what rows seem to imply: some literals, of each atom one.
    ///
    /// `NoMemory` comes where there is no memory.
    pub(crate) fn hints(&self, trail: &SatTrail, rows: &[u64]) -> Result<Vec<Hint>, NoMemory> {
        let mut hints = Vec::new(self.alloc);
        'rows: for row in rows {
            if hints.len() >= MOST {
                return Ok(hints);
            }
            let members = self.members(*row)?;
            if !members
                .iter()
                .any(|member| self.is_open(trail, member.variable))
            {
                continue;
            }
            self.add_hints_of(trail, *row, true, &members, &mut hints)?;
            self.add_hints_of(trail, *row, false, &members, &mut hints)?;
        }
        Ok(hints)
    }
}
