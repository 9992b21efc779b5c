//! Refuses a `distinct` that cannot fit before its pairs are made.

ghost use Rattle.std.specs.Prelude.{◌≡◌, ◌<◌, ◌*◌, ◌-◌, [], Some, true, map, IfOk, IfSome, OnOk};
ghost use Rattle.spec_text.specs.Answers.{refused};
ghost use Rattle.spec_text.specs.declared.Fault.TheVariants.{Full as no_room};
ghost use Rattle.spec_sorts.specs.Terms.{sort_of};
ghost use Rattle.spec_sorts.specs.Theory.{alike, sorts_fit};
ghost use Rattle.spec_sorts.specs.Signatures.{Signature};
ghost use Rattle.spec_reading.specs.Reading.{readings};
ghost use Rattle.smt_sexpr.specs.Items.{trees_meant, tree_meant};
ghost use Rattle.term_core.specs.Symbols.{HasSortIn, sort_meant};
ghost use Rattle.term_core.specs.Tables.{AreIn, clause_at};
ghost use Rattle.term_core.specs.declared.sorts.Sort.TheVariants.{Bool as truth_values};
ghost use Rattle.term_reader.specs.Names.{setting_meant};
ghost use Rattle.term_reader.specs.Scopes.{HasSignature, ScopeMeans};
ghost use Rattle.term_walks.specs.Counting.{AddsOnce};
ghost use Rattle.sort_check.specs.Reads.{room_meant, roomy_reading, store, StoreGrows, IsSame, EndsTerm};
ghost use Rattle.sort_check.specs.TooMany.{different, AreTooMany, IsDistinctOf, HasTooMany};

use crate::bindings::Bindings;
use crate::reads::Room;
use crate::sorted::read_term;
use crate::walk::read;
use indexmap::IndexSet;
use no_memory::NoMemory;
use smt_sexpr::{Trees, View, look, split};
use spec_text::Fault;
use std::alloc::Global;
use term_core::{Sort, TermId, TermTable, TheoryHead};
use term_reader::{ListForm, ReadError, Scope, Setting, all_have, fault_at, list_form};

/// Tells whether so many have more ordered pairs of two than the limit allows.
fn pass(count: u64, limit: u64) -> bool
    ensures { result ≡ true → limit < count * count - count }
{
    match count.checked_mul(count) {
        None => false,
        Some(square) => limit < square.saturating_sub(count),
    }
}

/// Tells whether there are so many texts that they may be too many different terms.
fn may_be_too_many(arguments: Trees<'_>, limit: u64) -> bool {
    let mut count = 0u64;
    let mut rest = arguments;
    'arguments: while let Some((_, after)) = split(rest) {
        count = count.saturating_add(1);
        rest = after;
    }
    pass(count, limit)
}

/// The arguments of a `distinct`.
fn distinct_arguments(tree: Trees<'_>) -> Option<Trees<'_>>
    ensures { IfSome result (λ us. IsDistinctOf (tree_meant tree.entry) (trees_meant us)) }
{
    let View::List(_, inside, _) = look(tree) else {
        return None;
    };
    let Some((head, arguments)) = split(inside) else {
        return None;
    };
    let ListForm::Applies(_, name) = list_form(head, arguments) else {
        return None;
    };
    match TheoryHead::named(name) {
        Some(TheoryHead::Distinct) => Some(arguments),
        _ => None,
    }
}

/// Sees numbers, each once.
fn see_all(seen: &mut IndexSet<TermId>, ids: &[TermId]) -> Result<(), NoMemory>
    ensures { OnOk result (AddsOnce seen.old.keys ids.now seen.new.keys) }
{
    'ids: for id in ids.iter() {
        seen.insert(*id)?;
    }
    Ok(())
}

/// How many different terms numbers mean that were seen, each once.
fn seen_terms(table: &TermTable, ids: &[TermId], seen: &IndexSet<TermId>) -> u64
    requires there { AreIn table.now ids.now }
    requires once { AddsOnce [] ids.now seen.now.keys }
    ensures { result ≡ different (clause_at table.now ids.now) }
{
    table.ids_are_unique();
    seen.len() as u64
}

/// How many different terms there are.
fn count_different(alloc: Global, table: &TermTable, ids: &[TermId]) -> Result<u64, NoMemory>
    requires { AreIn table.now ids.now }
    ensures { IfOk result (λ n. n ≡ different (clause_at table.now ids.now)) }
{
    let mut seen = IndexSet::new(alloc);
    see_all(&mut seen, ids)?;
    Ok(seen_terms(table, ids, &seen))
}

/// Tells whether terms have one sort.
fn have_one_sort(table: &TermTable, ids: &[TermId]) -> bool
    requires { AreIn table.now ids.now }
    ensures { result ≡ sorts_fit alike (map sort_of (clause_at table.now ids.now)) }
{
    match ids.split_first() {
        None => true,
        Some((first, others)) => all_have(table, table.sort(*first), others),
    }
}

/// Tells whether terms of one sort are too many to be told apart.
fn are_too_many(alloc: Global, table: &TermTable, ids: &[TermId], limit: u64) -> bool
    requires { AreIn table.now ids.now }
    ensures alike { result ≡ true → sorts_fit alike (map sort_of (clause_at table.now ids.now)) ≡ true }
    ensures many { result ≡ true → AreTooMany limit (clause_at table.now ids.now) }
{
    if !have_one_sort(table, ids) {
        return false;
    }
    match count_different(alloc, table, ids) {
        Err(_) => false,
        Ok(count) => pass(count, limit),
    }
}

/// Tells whether texts are read as terms of one sort that are too many to be told apart.
fn are_read_as_too_many(
    alloc: Global,
    table: &mut TermTable,
    scope: &mut Scope,
    setting: Setting<'_>,
    arguments: Trees<'_>,
    limit: u64,
) -> bool
    requires { HasSignature table.old scope.old }
    ensures many { result ≡ true → (s : Signature) → ScopeMeans table.old scope.old s
        → HasTooMany limit (readings (setting_meant setting.entry) s [] (trees_meant arguments.entry)) }
    ensures grows { StoreGrows (store table.old scope.old) (store table.new scope.new) }
{
    match read(
        alloc,
        table,
        scope,
        setting,
        Bindings::new(alloc),
        arguments,
    ) {
        Err(_) => false,
        Ok((ids, _)) => are_too_many(alloc, table, &ids, limit),
    }
}

/// The limit, and the arguments of a `distinct` of the sort that is wanted, which may be too many.
fn wide_arguments(sort: Sort, tree: Trees<'_>, room: Room) -> Option<(u64, Trees<'_>)>
    ensures { IfSome result (λ x. (room.limit ≡ Some x.0) × (sort ≡ truth_values)
        × IsDistinctOf (tree_meant tree.entry) (trees_meant x.1)) }
{
    let Some(limit) = room.limit else {
        return None;
    };
    if sort != Sort::Bool {
        return None;
    }
    let Some(arguments) = distinct_arguments(tree) else {
        return None;
    };
    if !may_be_too_many(arguments, limit) {
        return None;
    }
    Some((limit, arguments))
}

/// Tells whether a tree is a `distinct` of too many different terms. Table and scope are as they were.
fn cannot_fit(
    alloc: Global,
    table: &mut TermTable,
    scope: &mut Scope,
    setting: Setting<'_>,
    sort: Sort,
    tree: Trees<'_>,
    room: Room,
) -> bool
    requires known { HasSignature table.old scope.old }
    ensures full { result ≡ true → (s : Signature) → ScopeMeans table.old scope.old s
        → roomy_reading (room_meant room) (setting_meant setting.entry) s (sort_meant table.old.sorts sort)
        (tree_meant tree.entry) ≡ refused room.at no_room }
    ensures same { IsSame (store table.old scope.old) (store table.new scope.new) }
{
    let Some((limit, arguments)) = wide_arguments(sort, tree, room) else {
        return false;
    };
    scope.each_name_means_something();
    let count = table.len();
    let sorts = scope.sorts_len();
    let names = scope.len();
    let is_full = are_read_as_too_many(alloc, table, scope, setting, arguments, limit);
    table.cut(count);
    scope.back(sorts, names);
    is_full
}

/// Reads a tree as a term of a sort, where there is room. A tree that is a `distinct` of too many different terms is
/// refused by its arguments, without its pairs.
pub fn read_fitting(
    alloc: Global,
    table: &mut TermTable,
    scope: &mut Scope,
    setting: Setting<'_>,
    sort: Sort,
    tree: Trees<'_>,
    room: Room,
) -> Result<TermId, ReadError>
    requires known { HasSignature table.old scope.old }
    requires sort { HasSortIn table.old.sorts sort }
    ensures ends { (s : Signature) → ScopeMeans table.old scope.old s → EndsTerm s (store table.new scope.new)
        (roomy_reading (room_meant room) (setting_meant setting.entry) s (sort_meant table.old.sorts sort)
        (tree_meant tree.entry))
        result }
    ensures grows { StoreGrows (store table.old scope.old) (store table.new scope.new) }
{
    if cannot_fit(alloc, table, scope, setting, sort, tree, room) {
        return Err(ReadError::Fault(fault_at(room.at, Fault::Full)));
    }
    read_term(alloc, table, scope, setting, sort, tree, room)
}
