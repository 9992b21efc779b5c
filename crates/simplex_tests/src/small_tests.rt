//! Checks of small systems by hand. The variables are x0, x1 and x2, which is the sum of multiples of the others.

use crate::checked::{ended, new_budget, run};
use delta_num::Delta;
use no_memory::NoMemory;
use ratio128::Op;
use sat_budget::{Budget, Stop};
use simplex_bounds::{Bound, Bounds, Lit, Side};
use simplex_check::{CheckOutcome, RealAssignment};
use std::alloc::Global;
use std::test::Fail;
use tableau::{Entry, Ratio, RowStop};
use term_core::TermId;

/// Gives a whole number as a value.
fn whole(n: i64) -> Delta {
    Delta::number(Ratio::of(i128::from(n), 1))
}

/// Makes the assignment of x2 = left * x0 + right * x1.
fn assignment_by(alloc: Global, left: Ratio, right: Ratio) -> Result<RealAssignment, RowStop> {
    let mut assignment = RealAssignment::new(alloc);
    assignment.add_var()?;
    assignment.add_var()?;
    let entries = [
        Entry {
            variable: 0,
            coefficient: left,
        },
        Entry {
            variable: 1,
            coefficient: right,
        },
    ];
    assignment.add_row(&entries)?;
    Ok(assignment)
}

/// Makes bounds of three variables, each by its variable, its side and its value.
fn bounds_of(alloc: Global, list: &[(u64, Side, i64)]) -> Result<Bounds, NoMemory> {
    let mut bounds = Bounds::new(alloc);
    bounds.add_var()?;
    bounds.add_var()?;
    bounds.add_var()?;
    for (variable, side, value) in list {
        if *variable < bounds.variables() {
            bounds.reserve(1)?;
            bounds.hold(Bound {
                variable: *variable,
                side: *side,
                value: whole(*value),
                literal: Lit {
                    term: TermId(0),
                    positive: true,
                },
            });
        }
    }
    Ok(bounds)
}

/// Tells whether these are the exchanges of a budget.
fn exchanges_are(budget: &Budget, want: &[(u64, u64)]) -> bool {
    let n = budget.exchanged_len();
    for k in 0..n {
        if want.get(k as usize) != Some(&budget.exchange(k)) {
            return false;
        }
    }
    n == want.len() as u64
}

/// Tells whether these are the values of x0, x1 and x2.
fn values_are(assignment: &RealAssignment, want: (i64, i64, i64)) -> bool {
    assignment.value(0) == whole(want.0)
        && assignment.value(1) == whole(want.1)
        && assignment.value(2) == whole(want.2)
}

/// Tells whether a check of x2 = x0 + x1 comes to this outcome by these exchanges, with these values.
fn comes_to(
    alloc: Global,
    list: &[(u64, Side, i64)],
    want: CheckOutcome,
    exchanges: &[(u64, u64)],
    values: (i64, i64, i64),
) -> Option<bool> {
    let mut assignment = assignment_by(alloc, Ratio::of(1, 1), Ratio::of(1, 1)).ok()?;
    let bounds = bounds_of(alloc, list).ok()?;
    let mut budget = new_budget(alloc)?;
    let outcome = run(&mut assignment, &bounds, &mut budget)?;
    Some(
        outcome == Ok(want) && exchanges_are(&budget, exchanges) && values_are(&assignment, values),
    )
}

#[test]
fn checks_exchange_as_the_rule_says(rt: HostRuntime) -> Result<(), Fail> {
    let upper = [
        (0, Side::Upper, 1),
        (1, Side::Upper, 3),
        (2, Side::Lower, 2),
    ];
    let fine = comes_to(
        rt.alloc(),
        &upper,
        CheckOutcome::Fine,
        &[(2, 0), (0, 1)],
        (1, 1, 2),
    );
    assert_eq!(rt; fine, Some(true));
    let narrow = [
        (0, Side::Upper, 1),
        (1, Side::Upper, 3),
        (2, Side::Lower, 5),
    ];
    let conflict = comes_to(
        rt.alloc(),
        &narrow,
        CheckOutcome::Conflict(1),
        &[(2, 0), (0, 1)],
        (1, 4, 5),
    );
    assert_eq!(rt; conflict, Some(true));
    Ok(())
}

#[test]
fn nonbasic_variables_go_to_their_bounds(rt: HostRuntime) -> Result<(), Fail> {
    let lower = [(0, Side::Lower, 3), (1, Side::Upper, -1)];
    let nonbasic_updated = comes_to(rt.alloc(), &lower, CheckOutcome::Fine, &[], (3, -1, 2));
    assert_eq!(rt; nonbasic_updated, Some(true));
    let crossed = [
        (0, Side::Lower, 3),
        (1, Side::Lower, 2),
        (1, Side::Upper, 1),
    ];
    let nothing = comes_to(
        rt.alloc(),
        &crossed,
        CheckOutcome::Crossed(1),
        &[],
        (0, 0, 0),
    );
    assert_eq!(rt; nothing, Some(true));
    Ok(())
}

/// Gives the stop of a check of x2 = left * x0 + x1.
fn stop_of(alloc: Global, left: Ratio, list: &[(u64, Side, i64)]) -> Option<Stop> {
    let mut assignment = assignment_by(alloc, left, Ratio::of(1, 1)).ok()?;
    let bounds = bounds_of(alloc, list).ok()?;
    let (result, _) = ended(alloc, &mut assignment, &bounds)?;
    result.err()
}

/// Tells whether the stop is an overflow of a product at the values 0, with x2 basic.
fn is_product(stop: &Stop) -> bool {
    match stop {
        Stop::Strained(strain) => {
            strain.wide.op == Op::Mul
                && strain.basis.variables.as_slice() == [2].as_slice()
                && strain.basis.values.as_slice() == [whole(0), whole(0), whole(0)].as_slice()
        }
        _ => false,
    }
}

#[test]
fn checks_stop_where_numbers_leave_128_bits(rt: HostRuntime) -> Result<(), Fail> {
    let wide = stop_of(rt.alloc(), Ratio::of(i128::MAX, 1), &[(0, Side::Lower, 2)]);
    assert!(rt; wide.is_some_and(|stop| is_product(&stop)));
    Ok(())
}
