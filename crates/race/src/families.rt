//! The systems of each family.

use crate::draft::Draft;
use crate::fault::Fault;
use crate::system::{System, times};

/// How many sources `transport` has.
const SOURCES: u32 = 10;

/// Names a family. Each has n rows.
#[derive(Clone, Copy)]
pub(crate) enum Family {
    /// Differences of a variable and the one before it, each at least 1. The first variable is at least 0 and the last at most n,
    /// so that each difference is 1.
    Chain,
    /// Differences in a circle of n variables, each at least 1, which they cannot all be.
    Cycle,
    /// Sources, of which there are ten, and sinks, with a variable for each two. A source gives at most a number, and a sink
    /// takes at least one; both sum up to the same.
    Transport,
    /// The same with as many sources as sinks.
    Square,
    /// Sums of n variables that have given values, each with an entry of all of them.
    Dense,
    /// The same sums, which are at least these values.
    Loose,
    /// Sums of n variables that have given values, each with three entries.
    Sparse,
}

/// Gives the family of a name.
pub(crate) fn family_of(name: &str) -> Option<Family> {
    match name {
        "chain" => Some(Family::Chain),
        "cycle" => Some(Family::Cycle),
        "transport" => Some(Family::Transport),
        "square" => Some(Family::Square),
        "dense" => Some(Family::Dense),
        "loose" => Some(Family::Loose),
        "sparse" => Some(Family::Sparse),
        _ => None,
    }
}

/// Adds the rows and bounds of a family to a system.
pub(crate) fn fill(system: &mut System, family: Family, n: u32) -> Result<(), Fault> {
    let mut draft = Draft::new(system.alloc);
    match family {
        Family::Chain => chain(system, n),
        Family::Cycle => cycle(system, n),
        Family::Transport => transport(system, &mut draft, SOURCES.min(n / 2), n),
        Family::Square => transport(system, &mut draft, n / 2, n),
        Family::Dense => dense(system, &mut draft, n, true),
        Family::Loose => dense(system, &mut draft, n, false),
        Family::Sparse => sparse(system, &mut draft, n),
    }
}

/// Adds the difference of two variables, which is at least 1.
fn difference(system: &mut System, greater: u64, less: u64) -> Result<(), Fault> {
    let row = system.add_row(&[times(1, greater), times(-1, less)])?;
    system.at_least(row, 1)
}

/// Adds n variables, and the difference of each of them but the last and the one after it.
fn path(system: &mut System, n: u64) -> Result<(), Fault> {
    for _ in 0..n {
        system.add_var()?;
    }
    for i in 1..n {
        difference(system, i, i - 1)?;
    }
    Ok(())
}

/// Adds what is checked in `chain`.
fn chain(system: &mut System, n: u32) -> Result<(), Fault> {
    let last = u64::from(n);
    path(system, last + 1)?;
    system.at_least(0, 0)?;
    system.at_most(last, i64::from(n))
}

/// Adds what is checked in `cycle`.
fn cycle(system: &mut System, n: u32) -> Result<(), Fault> {
    let variables = u64::from(n);
    path(system, variables)?;
    difference(system, 0, variables.saturating_sub(1))
}

/// Adds so many variables to the next row: the first one, and each time the one a step after it.
fn add_cells(draft: &mut Draft, first: u64, step: u64, count: u64) -> Result<(), Fault> {
    let mut cell = first;
    for _ in 0..count {
        draft.add(1, cell)?;
        cell = cell.saturating_add(step);
    }
    Ok(())
}

/// Adds what is checked in `transport` and `square`. The variable of a source and a sink is in the order of the sources, and
/// for each of them in that of the sinks.
fn transport(system: &mut System, draft: &mut Draft, sources: u32, n: u32) -> Result<(), Fault> {
    let sinks = u64::from(n.saturating_sub(sources));
    let sources = u64::from(sources);
    draft.add_vars(system, sources.saturating_mul(sinks))?;
    for source in 0..sources {
        add_cells(draft, source.saturating_mul(sinks), 1, sinks)?;
        draft.add_most(system)?;
    }
    for sink in 0..sinks {
        add_cells(draft, sink, sinks, sources)?;
        draft.add_sum(system, false)?;
    }
    Ok(())
}

/// Adds what is checked in `dense`, or in `loose` where the sums are not to be equal to their values.
fn dense(system: &mut System, draft: &mut Draft, n: u32, equal: bool) -> Result<(), Fault> {
    draft.add_vars(system, u64::from(n))?;
    for _ in 0..n {
        for variable in 0..n {
            draft.add_multiple(u64::from(variable))?;
        }
        draft.add_sum(system, equal)?;
    }
    Ok(())
}

/// Adds what is checked in `sparse`.
fn sparse(system: &mut System, draft: &mut Draft, n: u32) -> Result<(), Fault> {
    draft.add_vars(system, u64::from(n))?;
    for _ in 0..n {
        for _ in 0..3 {
            draft.add_some(n)?;
        }
        draft.add_sum(system, true)?;
    }
    Ok(())
}
