//! Reads terms of a sort, where there is room.

ghost use Rattle.std.specs.Prelude.{◌≡◌, ◌+◌, length};
ghost use Rattle.spec_sorts.specs.Signatures.{Signature};
ghost use Rattle.spec_reading.specs.Reading.{reading_of_sort};
ghost use Rattle.smt_sexpr.specs.Items.{trees_meant, tree_meant};
ghost use Rattle.term_core.specs.Symbols.{HasSortIn, sort_meant};
ghost use Rattle.term_core.specs.Tables.{AreIn, clause_at};
ghost use Rattle.term_reader.specs.Names.{setting_meant};
ghost use Rattle.term_reader.specs.Scopes.{HasSignature, ScopeMeans};
ghost use Rattle.sort_check.specs.Bindings.{bound_at};
ghost use Rattle.sort_check.specs.Rows.{EndsOne, EndsRoom};
ghost use Rattle.sort_check.specs.Reads.{room_meant, roomy_reading, roomy_readings, all_of_sort, within, store, StoreGrows, EndsTerm, EndsTerms};

use crate::bindings::Bindings;
use crate::reads::Room;
use crate::walk::read;
use smt_sexpr::{Trees, offset, split};
use spec_text::Fault;
use std::alloc::Global;
use term_core::{Sort, TermId, TermTable};
use term_reader::{ReadError, Scope, Setting, all_have, fault_at};
use term_walks::fit_in;

/// Tells whether there is room for names and for the different subterms of terms: `Full` at the room's offset where not.
pub fn find_room(
    alloc: Global,
    table: &TermTable,
    scope: &Scope,
    room: Room,
    ids: &[TermId],
) -> Result<(), ReadError>
    requires { AreIn table.now ids.now }
    ensures { (s : Signature) → length scope.now.sort_names + length scope.now.names ≡ length s
        → EndsRoom (within (room_meant room) s (clause_at table.now ids.now)) result }
{
    let Some(limit) = room.limit else {
        return Ok(());
    };
    if !scope.has_room(limit) {
        return Err(ReadError::Fault(fault_at(room.at, Fault::Full)));
    }
    match fit_in(alloc, table, ids, limit) {
        Err(_) => Err(ReadError::Memory),
        Ok(true) => Ok(()),
        Ok(false) => Err(ReadError::Fault(fault_at(room.at, Fault::Full))),
    }
}

/// Reads a tree under bound names as a term of a sort: gives its number, and those of the terms that got names.
pub fn read_of_sort(
    alloc: Global,
    table: &mut TermTable,
    scope: &mut Scope,
    setting: Setting<'_>,
    bound: Bindings,
    sort: Sort,
    tree: Trees<'_>,
) -> Result<(TermId, Vec<TermId>), ReadError>
    requires known { HasSignature table.old scope.old }
    requires bound { AreIn table.old bound.terms }
    requires sort { HasSortIn table.old.sorts sort }
    ensures ends { (s : Signature) → ScopeMeans table.old scope.old s → EndsOne s (store table.new scope.new)
        (reading_of_sort (setting_meant setting.entry) s (bound_at table.old bound) (sort_meant table.old.sorts sort)
        (tree_meant tree.entry)) result }
    ensures grows { StoreGrows (store table.old scope.old) (store table.new scope.new) }
{
    let Some((text, _)) = split(tree) else {
        return Err(ReadError::Memory);
    };
    match read(alloc, table, scope, setting, bound, text) {
        Err(stop) => Err(stop),
        Ok((ids, named)) => {
            if !all_have(table, sort, &ids) {
                return Err(ReadError::Fault(fault_at(offset(tree), Fault::WrongSort)));
            }
            Ok((ids[0], named))
        }
    }
}

/// Reads a tree as a term of a sort, where there is room.
pub fn read_term(
    alloc: Global,
    table: &mut TermTable,
    scope: &mut Scope,
    setting: Setting<'_>,
    sort: Sort,
    tree: Trees<'_>,
    room: Room,
) -> Result<TermId, ReadError>
    requires known { HasSignature table.old scope.old }
    requires sort { HasSortIn table.old.sorts sort }
    ensures ends { (s : Signature) → ScopeMeans table.old scope.old s → EndsTerm s (store table.new scope.new)
        (roomy_reading (room_meant room) (setting_meant setting.entry) s (sort_meant table.old.sorts sort)
        (tree_meant tree.entry))
        result }
    ensures grows { StoreGrows (store table.old scope.old) (store table.new scope.new) }
{
    match read_of_sort(
        alloc,
        table,
        scope,
        setting,
        Bindings::new(alloc),
        sort,
        tree,
    ) {
        Err(stop) => Err(stop),
        Ok((id, _)) => match find_room(alloc, table, scope, room, &[id]) {
            Err(stop) => Err(stop),
            Ok(()) => Ok(id),
        },
    }
}

// The trees as terms of a sort, one after the other.
fn read_all(
    alloc: Global,
    table: &mut TermTable,
    scope: &mut Scope,
    setting: Setting<'_>,
    sort: Sort,
    trees: Trees<'_>,
) -> Result<Vec<TermId>, ReadError>
    requires known { HasSignature table.old scope.old }
    requires sort { HasSortIn table.old.sorts sort }
    ensures ends { (s : Signature) → ScopeMeans table.old scope.old s → EndsTerms s (store table.new scope.new)
        (all_of_sort (setting_meant setting.entry) s (sort_meant table.old.sorts sort) (trees_meant trees.entry)) result }
    ensures grows { StoreGrows (store table.old scope.old) (store table.new scope.new) }
{
    let mut ids = Vec::new(alloc);
    let mut rest = trees;
    'trees: while let Some((first, after)) = split(rest) {
        match read_of_sort(
            alloc,
            table,
            scope,
            setting,
            Bindings::new(alloc),
            sort,
            first,
        ) {
            Err(stop) => return Err(stop),
            Ok((id, _)) => {
                if let Err(_) = ids.push(id) {
                    return Err(ReadError::Memory);
                }
            }
        }
        rest = after;
    }
    Ok(ids)
}

/// Reads trees as terms of a sort, one after the other, where there is room.
pub fn read_terms(
    alloc: Global,
    table: &mut TermTable,
    scope: &mut Scope,
    setting: Setting<'_>,
    sort: Sort,
    trees: Trees<'_>,
    room: Room,
) -> Result<Vec<TermId>, ReadError>
    requires known { HasSignature table.old scope.old }
    requires sort { HasSortIn table.old.sorts sort }
    ensures ends { (s : Signature) → ScopeMeans table.old scope.old s → EndsTerms s (store table.new scope.new)
        (roomy_readings (room_meant room) (setting_meant setting.entry) s (sort_meant table.old.sorts sort)
        (trees_meant trees.entry)) result }
    ensures grows { StoreGrows (store table.old scope.old) (store table.new scope.new) }
{
    match read_all(alloc, table, scope, setting, sort, trees) {
        Err(stop) => Err(stop),
        Ok(ids) => match find_room(alloc, table, scope, room, &ids) {
            Err(stop) => Err(stop),
            Ok(()) => Ok(ids),
        },
    }
}
