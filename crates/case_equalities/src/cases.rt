//! The equalities that hold in a case of a disjunction.

ghost use Rattle.term_core.specs.Tables.{IsIn, AreIn};

use no_memory::NoMemory;
use std::alloc::Global;
use std::slice;
use term_core::{Head, Sort, TermId, TermTable};

/// Leads from one side of an equality to the other.
#[derive(Clone, Copy, Debug, PartialEq, Eq)]
pub(crate) struct Link {
    /// The one side.
    pub(crate) from: TermId,
    /// The other.
    pub(crate) to: TermId,
    /// The equality.
    pub(crate) equality: TermId,
}

/// Reads an equality of elements of a declared sort, from its left side to its right one; nothing where a term is none.
fn link_of(table: &TermTable, id: TermId) -> Option<Link>
    requires { IsIn table.now id }
{
    let node = table.node(id);
    let [left, right] = node.arguments.as_slice() else {
        return None;
    };
    if node.head != Head::Equal {
        return None;
    }
    match table.sort(*left) {
        Sort::Declared(_) => Some(Link {
            from: *left,
            to: *right,
            equality: id,
        }),
        _ => None,
    }
}

/// Lends what a case says: the arguments of a conjunction, of another term itself.
fn parts_of<'a>(table: &'a TermTable, case: &'a TermId) -> &'a [TermId]
    requires { IsIn table.now case.now }
    ensures { AreIn table.now result.now }
{
    let node = table.node(*case);
    match node.head {
        Head::And => node.arguments.as_slice(),
        _ => slice::from_ref(case),
    }
}

/// Tells whether a case says that two elements are equal.
fn is_linking(table: &TermTable, case: TermId) -> bool
    requires { IsIn table.now case }
{
    'parts: for part in parts_of(table, &case).iter() {
        if link_of(table, *part).is_some() {
            return true;
        }
    }
    false
}

/// Tells whether each case says that two elements are equal. It looks at no case after the first that does not, and takes no memory.
pub(crate) fn are_linking(table: &TermTable, cases: &[TermId]) -> bool
    requires { AreIn table.now cases.now }
{
    'cases: for case in cases.iter() {
        if !is_linking(table, *case) {
            return false;
        }
    }
    true
}

/// Lists the equalities that a case says, each from both of its sides, by rising numbers of the sides that they lead from.
///
/// `NoMemory` comes where memory ran out.
pub(crate) fn links_in(
    alloc: Global,
    table: &TermTable,
    case: TermId,
) -> Result<Vec<Link>, NoMemory>
    requires { IsIn table.now case }
{
    let mut links = Vec::new(alloc);
    'parts: for part in parts_of(table, &case).iter() {
        let Some(link) = link_of(table, *part) else {
            continue;
        };
        links.push(link)?;
        links.push(Link {
            from: link.to,
            to: link.from,
            equality: link.equality,
        })?;
    }
    links.sort_by_key(|link| link.from.0)?;
    Ok(links)
}
