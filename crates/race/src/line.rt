//! The line of a family.

use crate::families::{Family, fill};
use crate::fault::Fault;
use crate::system::System;
use sat_budget::{Budget, Limits, Stop, Wide};
use simplex_check::CheckOutcome;
use spec_numbers::Op;
use std::alloc::Global;

/// Gives the sign of an operation.
fn sign_of(op: Op) -> char {
    match op {
        Op::Add => '+',
        Op::Sub => '-',
        Op::Mul => '*',
        Op::Div => '/',
    }
}

/// Says which operation left 128 bits.
fn overflow_text(alloc: Global, wide: Wide) -> Result<String, Fault> {
    let sign = sign_of(wide.op);
    let (a, b) = (wide.left.num(), wide.left.den());
    let (c, d) = (wide.right.num(), wide.right.den());
    Ok(format!(in alloc; "overflow {sign} {a}/{b} {c}/{d}")?)
}

/// Says how a check stopped.
fn stop_text(alloc: Global, stop: &Stop) -> Result<String, Fault> {
    match stop {
        Stop::Strained(strain) => overflow_text(alloc, strain.wide),
        Stop::Memory => Err(Fault::Memory),
    }
}

/// Says how a check ended.
fn answer_text(alloc: Global, ended: &Result<CheckOutcome, Stop>) -> Result<String, Fault> {
    let word = match ended {
        Ok(CheckOutcome::Fine) => "fine",
        Ok(CheckOutcome::Conflict(_)) => "conflict",
        Ok(CheckOutcome::Crossed(_)) => "crossed",
        Err(stop) => return stop_text(alloc, stop),
    };
    Ok(String::from_str(alloc, word)?)
}

/// Checks a system, and gives its entries, the exchanges and the answer.
fn check(system: &mut System, budget: &mut Budget) -> Result<String, Fault> {
    let ended = system.check(budget)?;
    let answer = answer_text(system.alloc, &ended)?;
    let entries = system.entries();
    let exchanges = budget.exchanged_len();
    Ok(format!(in system.alloc; "{entries} entries after {exchanges} exchanges, {answer}")?)
}

/// Checks a system with a new budget.
fn check_anew(system: &mut System) -> Result<String, Fault> {
    let limits = Limits {
        conflicts: 0,
        terms: 0,
    };
    let mut budget = Budget::new(system.alloc, &limits)?;
    check(system, &mut budget)
}

/// Says how many rows, variables and entries a system has.
fn size_text(system: &System) -> Result<String, Fault> {
    let (rows, variables, entries) = (system.rows(), system.variables(), system.entries());
    Ok(format!(in system.alloc; "{rows} rows, {variables} variables, {entries} entries")?)
}

/// Builds a system and gives its line.
fn line_with(system: &mut System, family: Family, n: u32, checked: bool) -> Result<String, Fault> {
    fill(system, family, n)?;
    let size = size_text(system)?;
    if !checked {
        return Ok(format!(in system.alloc; "{size}\n")?);
    }
    let end = check_anew(system)?;
    Ok(format!(in system.alloc; "{size}, {end}\n")?)
}

/// Builds the system of a family, checks it where it is to be checked, and gives the line.
pub(crate) fn line_of(
    alloc: Global,
    family: Family,
    n: u32,
    checked: bool,
) -> Result<String, Fault> {
    let mut system = System::new(alloc);
    line_with(&mut system, family, n, checked)
}
