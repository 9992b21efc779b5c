//! The reasons for a sum.

ghost use Rattle.std.specs.Prelude.{IfOk, IfErr};
ghost use Rattle.tableau.specs.Entries.{entries_of};
ghost use Rattle.simplex_explain.specs.Stops.{AreStated, HaveFactors, AreAllStopped};
ghost use Rattle.spec_causes.specs.Reasons.{with_basic};
ghost use Rattle.simplex_explain.specs.BoundReasons.{footing, AreReasonsFor, OverflowsReasons, OnReasonOverflow};

use crate::Weighted;
use crate::reason_stop::ReasonStop;
use crate::weights::reason_for;
use simplex_atoms::Atoms;
use simplex_bounds::Bounds;
use std::alloc::Global;
use tableau::Entry;
use tableau::numbers::{negative, one};

/// Lists the literal of the bound that a basic variable violates, and then for each entry of its row that of the bound that
/// stops the variable, each with its weight.
///
/// `Wide` comes where a weight leaves the bound on fractions, and `Memory` where there is no memory.
pub(crate) fn reasons_for(
    alloc: Global,
    bounds: &Bounds,
    atoms: &Atoms,
    up: bool,
    basic: u64,
    entries: &[Entry],
) -> Result<Vec<Weighted>, ReasonStop>
    requires stopped { AreAllStopped bounds.now.held up (with_basic basic (entries_of entries.now)) }
    requires stated { AreStated atoms.now.slack_list bounds.now.held }
    requires factors { HaveFactors atoms.now.slack_list }
    ensures reasons { IfOk result (λ reasons. AreReasonsFor (footing atoms.now bounds.now) up
        (with_basic basic (entries_of entries.now)) reasons.items) }
    ensures wide { IfErr result (OnReasonOverflow (OverflowsReasons (footing atoms.now bounds.now) up
        (with_basic basic (entries_of entries.now)))) }
{
    let mut reasons = Vec::new(alloc);
    let own = Entry {
        variable: basic,
        coefficient: negative(one()),
    };
    let first = reason_for(bounds, atoms, up, own)?;
    reasons.push(first)?;
    let mut rest = entries;
    while let Some((e, more)) = rest.split_first() {
        let reason = reason_for(bounds, atoms, up, *e)?;
        reasons.push(reason)?;
        rest = more;
    }
    Ok(reasons)
}
