//! Reads a row of texts, one list inside the other.

ghost use Rattle.std.specs.Prelude.{◌≡◌, ◌<◌, ◌≤◌, ℕ, ◌+◌, [], ◌∷◌, ◌++◌, length, take, drop, IfOk, OnOk};
ghost use Rattle.spec_text.specs.Trees.{Tree, atom, list, more, none};
ghost use Rattle.spec_reading.specs.Names.{Setting as TextSetting, is_in_list};
ghost use Rattle.smt_sexpr.specs.Items.{trees_meant, tree_meant};
ghost use Rattle.term_core.specs.Tables.{TableView};
ghost use Rattle.term_reader.specs.Names.{setting_meant};
ghost use Rattle.term_reader.specs.Building.{KeepsTable};
ghost use Rattle.term_reader.specs.Scopes.{ScopeView, Widens};
ghost use Rattle.term_core.specs.Tables.{AreIn};
ghost use Rattle.spec_sorts.specs.Signatures.{Signature};
ghost use Rattle.spec_reading.specs.Reading.{readings};
ghost use Rattle.term_reader.specs.Scopes.{HasSignature, ScopeMeans};
ghost use Rattle.sort_check.specs.Bindings.{bound_at};
ghost use Rattle.sort_check.specs.Walks.{here, with_frame, OnWalk, ContinuesWalk, GoesInLet, IsNextTree, all_left, frames_left, let_left, sizes, let_of};
ghost use Rattle.sort_check.specs.Steps.{IsMemory, HasBound, IsLetAt, IsAnnotatedAt, Steps};
ghost use Rattle.sort_check.specs.Rows.{EndsRow};
ghost use Rattle.sort_check.specs.Reads.{store, StoreGrows};
ghost use Rattle.sort_check.specs.declared.frames.Opened.TheVariants.{Applies as applies, Binds as binds, Body as body, Annotates as annotates};

use crate::applied::{Called, applied, atom};
use crate::bindings::Bindings;
use crate::frames::{Frame, Opened, Walk, begin};
use crate::naming::{Annotated, may_name, name_term};
use crate::splitting::{first_binding, let_parts};
use no_memory::NoMemory;
use smt_sexpr::{Kind, Trees, View, look, split};
use spec_text::Fault;
use std::alloc::Global;
use term_core::{TermId, TermTable, TheoryHead};
use term_reader::{ListForm, ReadError, Scope, Setting, fault_at, list_form, new_name};

// A term more in the innermost row, and what is left of it.
fn add_value<'a>(walk: &mut Walk<'a>, id: TermId, rest: Trees<'a>) -> Result<(), ReadError>
    ensures added { (t : TableView) (v : ScopeView) → OnOk result (here t v walk.new
        ≡ record (here t v walk.old) { values = walk.old.values.items ++ id ∷ []; rest = trees_meant rest.entry }) }
    ensures memory { IsMemory result }
{
    if let Err(_) = walk.values.push(id) {
        return Err(ReadError::Memory);
    }
    walk.rest = rest;
    Ok(())
}

// A term in the place of those that were read in a list, which is read then.
fn replace<'a>(walk: &mut Walk<'a>, frame: Frame<'a>, id: TermId) -> Result<(), ReadError>
    ensures replaced { (t : TableView) (v : ScopeView) → OnOk result (here t v walk.new
        ≡ record (here t v walk.old) {
          values = take frame.entry.from walk.old.values.items ++ id ∷ [];
          rest = trees_meant frame.entry.after;
        }) }
    ensures memory { IsMemory result }
{
    walk.values.truncate(frame.from);
    add_value(walk, id, frame.after)
}

// A list opens, in which a row is read next.
fn open<'a>(walk: &mut Walk<'a>, frame: Frame<'a>, row: Trees<'a>) -> Result<(), ReadError>
    ensures opened { (t : TableView) (v : ScopeView) → OnOk result (here t v walk.new
        ≡ record (here t v walk.old) {
          frames = walk.old.frames.items ++ frame.entry ∷ [];
          rest = trees_meant row.entry;
        }) }
    ensures memory { IsMemory result }
{
    if let Err(_) = walk.frames.push(frame) {
        return Err(ReadError::Memory);
    }
    walk.rest = row;
    Ok(())
}

// The atom that is next.
fn read_atom<'a>(
    alloc: Global,
    table: &mut TermTable,
    scope: &Scope,
    walk: &mut Walk<'a>,
    called: Called<'a>,
    kind: Kind,
    after: Trees<'a>,
) -> Result<(), ReadError>
    requires walk { (w : TextSetting) × OnWalk w (here table.old scope.now walk.old) }
    requires next { IsNextTree (here table.old scope.now walk.old) (atom called.at kind called.name.now)
        (trees_meant after) }
    requires place { called.place ≡ called.at }
    ensures goes { (w : TextSetting) → ContinuesWalk w (here table.old scope.now walk.old)
        (here table.new scope.now walk.new) result }
    ensures keeps { KeepsTable table.old table.new }
    ensures less { OnOk result (all_left (here table.new scope.now walk.new) < all_left
        (here table.old scope.now walk.old)) }
{
    match atom(alloc, table, scope, &walk.bound, called, kind) {
        Ok(id) => add_value(walk, id, after),
        Err(stop) => Err(stop),
    }
}

// Whether the name of a binding is taken, where some names of its `let` wait from a place on.
fn is_taken(waiting: &Bindings, from: usize, name: &[u8]) -> bool
    ensures { result ≡ is_in_list (drop from waiting.now.names) name.now }
{
    if let Some(_) = TheoryHead::named(name) {
        return true;
    }
    waiting.has_from(name, from)
}

// Binds the names that wait from a place on, the last one first.
fn bind_waiting(waiting: &mut Bindings, bound: &mut Bindings, from: usize) -> Result<(), NoMemory>
    requires { from ≤ length waiting.old.names }
    ensures { OnOk result (HasBound from waiting.old bound.old waiting.new bound.new) }
{
    waiting.each_name_has_a_term();
    'names: while from < waiting.len() {
        waiting.each_name_has_a_term();
        let last = waiting.len() - 1;
        bound.push(waiting.name(last), waiting.term(last))?;
        waiting.back(last);
    }
    Ok(())
}

// The next of bindings, or else the body.
fn read_bindings<'a>(
    setting: Setting<'_>,
    walk: &mut Walk<'a>,
    bindings: Trees<'a>,
    body: Trees<'a>,
    waited: usize,
    after: Trees<'a>,
) -> Result<(), ReadError>
    requires one { trees_meant body ≡ more (tree_meant body) none }
    requires waited { waited ≤ length walk.old.waiting.names }
    ensures goes { (t : TableView) (v : ScopeView) → GoesInLet (setting_meant setting.entry)
        (let_of bindings.entry body.entry waited after.entry) (here t v walk.old) (here t v walk.new) result }
    ensures less { (t : TableView) (v : ScopeView) → OnOk result (all_left (here t v walk.new)
        < 2 + let_left (here t v walk.old) (let_of bindings.entry body.entry waited after.entry)) }
{
    walk.waiting.each_name_has_a_term();
    walk.bound.each_name_has_a_term();
    let from = walk.values.len();
    match first_binding(bindings) {
        Some((word, term, left)) => {
            let taken = is_taken(&walk.waiting, waited, word.bytes);
            match new_name(setting, taken, word) {
                Err(fault) => Err(ReadError::Fault(fault)),
                Ok(name) => open(
                    walk,
                    Frame {
                        opened: Opened::Binds(name, left, body, waited),
                        from,
                        after,
                    },
                    term,
                ),
            }
        }
        None => {
            let bound = walk.bound.len();
            if let Err(_) = bind_waiting(&mut walk.waiting, &mut walk.bound, waited) {
                return Err(ReadError::Memory);
            }
            open(
                walk,
                Frame {
                    opened: Opened::Body(bound),
                    from,
                    after,
                },
                body,
            )
        }
    }
}

// A `let` at an offset.
fn open_let<'a>(
    setting: Setting<'_>,
    walk: &mut Walk<'a>,
    at: u64,
    arguments: Trees<'a>,
    after: Trees<'a>,
) -> Result<(), ReadError>
    ensures goes { (t : TableView) (v : ScopeView) (tree : Tree)
        → IsNextTree (here t v walk.old) tree (trees_meant after.entry)
        → IsLetAt (setting_meant setting.entry) tree at (trees_meant arguments.entry)
        → ContinuesWalk (setting_meant setting.entry) (here t v walk.old) (here t v walk.new) result }
    ensures less { (t : TableView) (v : ScopeView) → OnOk result (all_left (here t v walk.new)
        < frames_left walk.old.frames.items + (sizes (trees_meant arguments.entry) + sizes (trees_meant after.entry))) }
{
    let Some((bindings, body)) = let_parts(arguments) else {
        return Err(ReadError::Fault(fault_at(at, Fault::BadShape)));
    };
    walk.waiting.each_name_has_a_term();
    let waited = walk.waiting.len();
    read_bindings(setting, walk, bindings, body, waited, after)
}

// A term with attributes at an offset.
fn open_annotated<'a>(
    walk: &mut Walk<'a>,
    at: u64,
    arguments: Trees<'a>,
    after: Trees<'a>,
) -> Result<(), ReadError>
    ensures goes { (w : TextSetting) (t : TableView) (v : ScopeView) (tree : Tree)
        → IsNextTree (here t v walk.old) tree (trees_meant after.entry)
        → IsAnnotatedAt w tree at (trees_meant arguments.entry)
        → ContinuesWalk w (here t v walk.old) (here t v walk.new) result }
    ensures less { (t : TableView) (v : ScopeView) → OnOk result (all_left (here t v walk.new)
        < 2 + (frames_left walk.old.frames.items
        + (sizes (trees_meant arguments.entry) + sizes (trees_meant after.entry)))) }
{
    let Some((text, attributes)) = split(arguments) else {
        return Err(ReadError::Fault(fault_at(at, Fault::BadShape)));
    };
    let from = walk.values.len();
    open(
        walk,
        Frame {
            opened: Opened::Annotates(at, text, attributes),
            from,
            after,
        },
        text,
    )
}

// The list at an offset that is next.
fn open_list<'a>(
    setting: Setting<'_>,
    walk: &mut Walk<'a>,
    at: u64,
    inside: Trees<'a>,
    after: Trees<'a>,
) -> Result<(), ReadError>
    ensures goes { (t : TableView) (v : ScopeView) (end : ℕ)
        → IsNextTree (here t v walk.old) (list at (trees_meant inside.entry) end) (trees_meant after.entry)
        → ContinuesWalk (setting_meant setting.entry) (here t v walk.old) (here t v walk.new) result }
    ensures less { (t : TableView) (v : ScopeView) → OnOk result (all_left (here t v walk.new)
        < 2 + (frames_left walk.old.frames.items
        + (sizes (trees_meant inside.entry) + sizes (trees_meant after.entry)))) }
{
    let Some((head, arguments)) = split(inside) else {
        return Err(ReadError::Fault(fault_at(at, Fault::BadShape)));
    };
    match list_form(head, arguments) {
        ListForm::Malformed => Err(ReadError::Fault(fault_at(at, Fault::BadShape))),
        ListForm::Reserved(place) => Err(ReadError::Fault(fault_at(place, Fault::Reserved))),
        ListForm::Applies(place, name) => {
            let from = walk.values.len();
            open(
                walk,
                Frame {
                    opened: Opened::Applies(Called { at, place, name }),
                    from,
                    after,
                },
                arguments,
            )
        }
        ListForm::Binds => open_let(setting, walk, at, arguments, after),
        ListForm::Annotates => open_annotated(walk, at, arguments, after),
    }
}

// The numbers from a place on.
fn values_from(values: &[TermId], from: usize) -> &[TermId]
    requires { from ≤ length values.now }
    ensures { result.now ≡ drop from values.now }
{
    &values[from..]
}

// A name before the terms that were read in its list.
fn close_applied<'a>(
    alloc: Global,
    table: &mut TermTable,
    scope: &Scope,
    walk: &mut Walk<'a>,
    frame: Frame<'a>,
    called: Called<'a>,
) -> Result<(), ReadError>
    requires opened { frame.opened ≡ applies called }
    requires walk { (w : TextSetting) × OnWalk w (with_frame (here table.old scope.now walk.old) frame) }
    ensures goes { (w : TextSetting) → ContinuesWalk w (with_frame (here table.old scope.now walk.old) frame.entry)
        (here table.new scope.now walk.new) result }
    ensures keeps { KeepsTable table.old table.new }
    ensures less { OnOk result (all_left (here table.new scope.now walk.new)
        < all_left (with_frame (here table.old scope.now walk.old) frame.entry)) }
{
    match applied(
        alloc,
        table,
        scope,
        &walk.bound,
        called,
        values_from(walk.values.as_slice(), frame.from),
    ) {
        Ok(id) => replace(walk, frame, id),
        Err(stop) => Err(stop),
    }
}

// The term of a binding was read: it waits with its name, and the next binding or the body is read.
fn close_binding<'a>(
    setting: Setting<'_>,
    walk: &mut Walk<'a>,
    frame: Frame<'a>,
    name: &'a [u8],
    left: Trees<'a>,
    body: Trees<'a>,
    waited: usize,
) -> Result<(), ReadError>
    requires opened { frame.opened ≡ binds name left body waited }
    requires walk { (t : TableView) × (v : ScopeView)
        × OnWalk (setting_meant setting) (with_frame (here t v walk.old) frame) }
    ensures goes { (t : TableView) (v : ScopeView)
        → ContinuesWalk (setting_meant setting.entry) (with_frame (here t v walk.old) frame.entry)
        (here t v walk.new) result }
    ensures less { (t : TableView) (v : ScopeView) → OnOk result (all_left (here t v walk.new)
        < all_left (with_frame (here t v walk.old) frame.entry)) }
{
    let term = walk.values[frame.from];
    walk.values.truncate(frame.from);
    walk.waiting.each_name_has_a_term();
    if let Err(_) = walk.waiting.push(name, term) {
        return Err(ReadError::Memory);
    }
    read_bindings(setting, walk, left, body, waited, frame.after)
}

// The body of a `let` was read: its names are bound no more.
fn close_body<'a>(walk: &mut Walk<'a>, frame: Frame<'a>, bound: usize) -> Result<(), ReadError>
    requires opened { frame.opened ≡ body bound }
    requires walk { (w : TextSetting) × (t : TableView) × (v : ScopeView)
        × OnWalk w (with_frame (here t v walk.old) frame) }
    ensures goes { (w : TextSetting) (t : TableView) (v : ScopeView)
        → ContinuesWalk w (with_frame (here t v walk.old) frame.entry) (here t v walk.new) result }
    ensures less { (t : TableView) (v : ScopeView) → OnOk result (all_left (here t v walk.new)
        < all_left (with_frame (here t v walk.old) frame.entry)) }
{
    let id = walk.values[frame.from];
    walk.bound.each_name_has_a_term();
    walk.bound.back(bound);
    replace(walk, frame, id)
}

// A term with attributes was read: it gets its names.
fn close_annotated<'a>(
    alloc: Global,
    table: &TermTable,
    scope: &mut Scope,
    setting: Setting<'_>,
    walk: &mut Walk<'a>,
    frame: Frame<'a>,
    at: u64,
    text: Trees<'a>,
    attributes: Trees<'a>,
) -> Result<(), ReadError>
    requires opened { frame.opened ≡ annotates at text attributes }
    requires walk { OnWalk (setting_meant setting) (with_frame (here table.now scope.old walk.old) frame) }
    ensures goes { ContinuesWalk (setting_meant setting.entry)
        (with_frame (here table.now scope.old walk.old) frame.entry)
        (here table.now scope.new walk.new) result }
    ensures widens { Widens scope.old scope.new }
    ensures less { OnOk result (all_left (here table.now scope.new walk.new)
        < all_left (with_frame (here table.now scope.old walk.old) frame.entry)) }
{
    let id = walk.values[frame.from];
    let Ok(may_name) = may_name(alloc, setting, &walk.bound, text) else {
        return Err(ReadError::Memory);
    };
    match name_term(
        alloc,
        table,
        scope,
        setting,
        Annotated { at, id, may_name },
        attributes,
        &mut walk.named,
    ) {
        Ok(()) => replace(walk, frame, id),
        Err(stop) => Err(stop),
    }
}

// The innermost row was read.
fn close<'a>(
    alloc: Global,
    table: &mut TermTable,
    scope: &mut Scope,
    setting: Setting<'_>,
    walk: &mut Walk<'a>,
    frame: Frame<'a>,
) -> Result<(), ReadError>
    requires { OnWalk (setting_meant setting) (with_frame (here table.old scope.old walk.old) frame) }
    ensures goes { ContinuesWalk (setting_meant setting.entry)
        (with_frame (here table.old scope.old walk.old) frame.entry)
        (here table.new scope.new walk.new) result }
    ensures grows { StoreGrows (store table.old scope.old) (store table.new scope.new) }
    ensures less { OnOk result (all_left (here table.new scope.new walk.new)
        < all_left (with_frame (here table.old scope.old walk.old) frame.entry)) }
{
    match frame.opened {
        Opened::Applies(called) => close_applied(alloc, table, scope, walk, frame, called),
        Opened::Binds(name, left, body, waited) => {
            close_binding(setting, walk, frame, name, left, body, waited)
        }
        Opened::Body(bound) => close_body(walk, frame, bound),
        Opened::Annotates(at, text, attributes) => close_annotated(
            alloc, table, scope, setting, walk, frame, at, text, attributes,
        ),
    }
}

// The text that is next, before others.
fn read_next<'a>(
    alloc: Global,
    table: &mut TermTable,
    scope: &Scope,
    setting: Setting<'_>,
    walk: &mut Walk<'a>,
    first: Trees<'a>,
    after: Trees<'a>,
) -> Result<(), ReadError>
    requires walk { OnWalk (setting_meant setting) (here table.old scope.now walk.old) }
    requires next { IsNextTree (here table.old scope.now walk.old) (tree_meant first) (trees_meant after) }
    ensures goes { ContinuesWalk (setting_meant setting.entry) (here table.old scope.now walk.old)
        (here table.new scope.now walk.new)
        result }
    ensures keeps { KeepsTable table.old table.new }
    ensures less { OnOk result (all_left (here table.new scope.now walk.new)
        < all_left (here table.old scope.now walk.old)) }
{
    match look(first) {
        View::Atom(at, kind, name) => {
            let at = u64::from(at);
            let called = Called {
                at,
                place: at,
                name,
            };
            read_atom(alloc, table, scope, walk, called, kind, after)
        }
        View::List(at, inside, _) => open_list(setting, walk, u64::from(at), inside, after),
    }
}

// The next step; tells whether there was one.
fn step<'a>(
    alloc: Global,
    table: &mut TermTable,
    scope: &mut Scope,
    setting: Setting<'_>,
    walk: &mut Walk<'a>,
) -> Result<bool, ReadError>
    requires { OnWalk (setting_meant setting) (here table.old scope.old walk.old) }
    ensures goes { ContinuesWalk (setting_meant setting.entry) (here table.old scope.old walk.old)
        (here table.new scope.new walk.new)
        result }
    ensures grows { StoreGrows (store table.old scope.old) (store table.new scope.new) }
    ensures next { IfOk result (λ yes. Steps yes (here table.old scope.old walk.old)
        (here table.new scope.new walk.new)) }
{
    if let Some((first, after)) = split(walk.rest) {
        return match read_next(alloc, table, scope, setting, walk, first, after) {
            Ok(()) => Ok(true),
            Err(stop) => Err(stop),
        };
    }
    if let Some(frame) = walk.frames.pop() {
        return match close(alloc, table, scope, setting, walk, frame) {
            Ok(()) => Ok(true),
            Err(stop) => Err(stop),
        };
    }
    Ok(false)
}

/// Reads a row of texts under bound names: gives the numbers of their terms, in their order, and of the terms that got names.
///
/// The names that `:named` gives come into the scope. `Fault` is the first fault of the texts, and `Memory` comes where no
/// memory is left; after both the table may have more terms than before, and the scope more names.
pub fn read(
    alloc: Global,
    table: &mut TermTable,
    scope: &mut Scope,
    setting: Setting<'_>,
    bound: Bindings,
    texts: Trees<'_>,
) -> Result<(Vec<TermId>, Vec<TermId>), ReadError>
    requires known { HasSignature table.old scope.old }
    requires bound { AreIn table.old bound.terms }
    ensures ends { (s : Signature) → ScopeMeans table.old scope.old s → EndsRow s (store table.new scope.new)
        (readings (setting_meant setting.entry) s (bound_at table.old bound) (trees_meant texts.entry)) result }
    ensures grows { StoreGrows (store table.old scope.old) (store table.new scope.new) }
{
    let mut walk = begin(alloc, bound, texts);
    'steps: loop {
        match step(alloc, table, scope, setting, &mut walk) {
            Err(stop) => return Err(stop),
            Ok(true) => {}
            Ok(false) => {
                let Walk { values, named, .. } = walk;
                return Ok((values, named));
            }
        }
    }
}
