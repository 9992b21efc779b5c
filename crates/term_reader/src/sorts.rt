//! The sorts of texts.

ghost use Rattle.spec_reading.specs.Sorts.{sort_in, atom_sort, sort_named};
ghost use Rattle.spec_sorts.specs.Signatures.{Signature};
ghost use Rattle.smt_sexpr.specs.Items.{tree_meant};
ghost use Rattle.term_core.specs.Tables.{TableView};
ghost use Rattle.term_reader.specs.Scopes.{ScopeMeans};
ghost use Rattle.term_reader.specs.Sorts.{IsSortOf};

use crate::faults::{TermFault, fault_at};
use crate::scope::Scope;
use smt_sexpr::{Kind, Trees, View, look, same_bytes};
use spec_text::Fault;
use term_core::Sort;

fn sort_named(scope: &Scope, at: u64, name: &[u8]) -> Result<Sort, TermFault>
    ensures { (t : TableView) (s : Signature) → ScopeMeans t scope.now s
        → IsSortOf t (sort_named s at name.now) result }
{
    if same_bytes(name, b"Bool") {
        return Ok(Sort::Bool);
    }
    if same_bytes(name, b"Real") {
        return Ok(Sort::Real);
    }
    match scope.sort(name) {
        Some(sort) => Ok(sort),
        None => Err(fault_at(at, Fault::UnknownSort)),
    }
}

fn atom_sort(scope: &Scope, at: u64, kind: Kind, name: &[u8]) -> Result<Sort, TermFault>
    ensures { (t : TableView) (s : Signature) → ScopeMeans t scope.now s
        → IsSortOf t (atom_sort s at kind name.now) result }
{
    match kind {
        Kind::Simple => sort_named(scope, at, name),
        Kind::Quoted => sort_named(scope, at, name),
        Kind::Reserved => Err(fault_at(at, Fault::Reserved)),
        _ => Err(fault_at(at, Fault::BadShape)),
    }
}

/// Reads a tree as a sort under a scope: Bool, Real, or one that a name stands for.
///
/// `UnknownSort` comes at a name that stands for none, and at a list, since sorts with parameters are not known;
/// `Reserved` at a reserved word, and `BadShape` at any other atom. It takes no memory.
/// Source: SMT-LIB 2.6, sections 3.5 and 4.2.3.
pub fn sort_in(scope: &Scope, tree: Trees<'_>) -> Result<Sort, TermFault>
    ensures { (t : TableView) (s : Signature) → ScopeMeans t scope.now s
        → IsSortOf t (sort_in s (tree_meant tree.entry)) result }
{
    match look(tree) {
        View::Atom(at, kind, name) => atom_sort(scope, u64::from(at), kind, name),
        View::List(at, _, _) => Err(fault_at(u64::from(at), Fault::UnknownSort)),
    }
}
