//! What atoms say of numbers.

ghost use Rattle.std.specs.Prelude.{◌≡◌, IfOk};
ghost use Rattle.spec_arithmetic.specs.Contradictions.{are_numbers};
ghost use Rattle.spec_simplex.specs.Constraints.{constraint_of, form_of};
ghost use Rattle.term_core.specs.Tables.{IsIn, term_at, positive_literal};
ghost use Rattle.linear_form.specs.Meant.{AreVariablesOf};
ghost use Rattle.simplex_atoms.specs.Watching.{kind_by, sides_meant, constraint_meant, HasSidesIn, Forms};

use crate::slack::Comparison;
use crate::stop::AtomStop;
use linear_form::{Form, FormJoin, combine, form_of};
use std::alloc::Global;
use term_core::{Head, Sort, TermId, TermTable};

/// Says what an atom does: how the difference of its two sides compares with 0.
#[derive(Clone, Copy, Debug, PartialEq, Eq)]
pub struct AtomSides {
    /// How it compares with 0.
    pub kind: Comparison,
    /// The atom.
    pub atom: TermId,
    /// The side that the other is subtracted from.
    pub left: TermId,
    /// And the other.
    pub right: TermId,
}

/// Tells whether both terms have the sort Real.
fn are_numbers(table: &TermTable, left: TermId, right: TermId) -> bool
    requires left { IsIn table.now left }
    requires right { IsIn table.now right }
    ensures { result ≡ are_numbers (term_at table.now left) (term_at table.now right) }
{
    table.sort(left) == Sort::Real && table.sort(right) == Sort::Real
}

/// Says how an atom with this head compares numbers; nothing where it does not.
fn kind_of(head: Head) -> Option<Comparison>
    ensures { result ≡ kind_by head }
{
    match head {
        Head::Less => Some(Comparison::Less),
        Head::AtMost => Some(Comparison::AtMost),
        Head::Equal => Some(Comparison::Equal),
        _ => None,
    }
}

/// Says what an atom does; nothing where it is no order and no equality of numbers. It takes no memory.
pub fn sides_of(table: &TermTable, id: TermId) -> Option<AtomSides>
    requires { IsIn table.now id }
    ensures means { sides_meant table.now result ≡ constraint_of (positive_literal (term_at table.now id)) }
    ensures there { HasSidesIn table.now result }
{
    let node = table.node(id);
    let [left, right] = node.arguments.as_slice() else {
        return None;
    };
    let Some(kind) = kind_of(node.head) else {
        return None;
    };
    if !are_numbers(table, *left, *right) {
        return None;
    }
    Some(AtomSides {
        kind,
        atom: id,
        left: *left,
        right: *right,
    })
}

/// Makes the form of the difference of an atom's sides: the left one's, minus the right one's.
///
/// `Wide` comes where an operation on the way leaves 128 bits, with the first such; `Memory` where there is no memory.
pub fn difference_of(alloc: Global, table: &TermTable, sides: AtomSides) -> Result<Form, AtomStop>
    requires left { IsIn table.now sides.left }
    requires right { IsIn table.now sides.right }
    ensures exact { Forms table.now (form_of (constraint_meant table.now sides)) result }
    ensures there { IfOk result (AreVariablesOf table.now) }
{
    table.ids_are_unique();
    let mut left = form_of(alloc, table, sides.left)?;
    let right = form_of(alloc, table, sides.right)?;
    combine(&mut left, FormJoin::Subtracting, &right)?;
    Ok(left)
}
