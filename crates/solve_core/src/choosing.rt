//! Orders of choices between numbers, which are tried before a search.

ghost use Rattle.std.specs.Prelude.{◌≡◌, ◌≤◌, true, length, IfOk};
ghost use Rattle.spec_causes.specs.Counts.{is_arithmetic};
ghost use Rattle.term_core.specs.Tables.{IsIn, AreIn, term_at};
ghost use Rattle.search_loop.specs.Paying.{counted_among};

use no_memory::NoMemory;
use simplex_atoms::{Comparison, sides_of};
use std::alloc::Global;
use term_core::{Head, Lit, TermId, TermTable};

/// Tells whether a term is a choice, and another one of its branches.
fn is_choice_of(table: &TermTable, choice: TermId, branch: TermId) -> bool
    requires { IsIn table.now choice }
{
    let node = table.node(choice);
    if node.head != Head::Ite {
        return false;
    }
    'arguments: for argument in node.arguments.as_slice().iter() {
        if *argument == branch {
            return true;
        }
    }
    false
}

/// Tells whether a term says that a choice between numbers is at most one of its branches, or one of these at most it.
fn is_order_of_choice(table: &TermTable, id: TermId) -> bool
    requires { IsIn table.now id }
    ensures { (result ≡ true) → is_arithmetic (term_at table.now id) ≡ true }
{
    let Some(sides) = sides_of(table, id) else {
        return false;
    };
    if sides.kind != Comparison::AtMost {
        return false;
    }
    is_choice_of(table, sides.left, sides.right) || is_choice_of(table, sides.right, sides.left)
}

/// Lists among terms the orders between choices of numbers and their branches, each denied.
///
/// `NoMemory` comes where the list finds no memory.
pub(crate) fn denied_orders(
    alloc: Global,
    table: &TermTable,
    terms: &[TermId],
) -> Result<Vec<Lit>, NoMemory>
    requires { AreIn table.now terms.now }
    ensures { IfOk result (λ lits. length lits.items ≤ counted_among table.now terms.now) }
{
    let mut lits = Vec::new(alloc);
    'terms: for id in terms.iter() {
        if !is_order_of_choice(table, *id) {
            continue;
        }
        lits.push(Lit {
            term: *id,
            positive: false,
        })?;
    }
    Ok(lits)
}
