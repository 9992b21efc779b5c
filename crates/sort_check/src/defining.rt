//! Reads definitions of functions, where there is room.

ghost use Rattle.std.specs.Prelude.{◌≡◌, [], length};
ghost use Rattle.spec_sorts.specs.Signatures.{Signature};
ghost use Rattle.spec_reading.specs.Names.{is_in_list};
ghost use Rattle.spec_reading.specs.Reading.{reading_of_sort};
ghost use Rattle.spec_reading.specs.Definitions.{parameters_in, bound_parameters, definitions_in};
ghost use Rattle.smt_sexpr.specs.Items.{trees_meant, tree_meant};
ghost use Rattle.term_core.specs.Symbols.{HasSortIn, HaveSortsIn, sort_meant};
ghost use Rattle.term_core.specs.Tables.{TableView};
ghost use Rattle.term_reader.specs.Building.{KeepsTable};
ghost use Rattle.term_reader.specs.Names.{setting_meant};
ghost use Rattle.term_reader.specs.Scopes.{HasSignature, ScopeMeans};
ghost use Rattle.sort_check.specs.Defining.{parameters_at, EndsParameters, EndsBinding, EndsMade};
ghost use Rattle.sort_check.specs.Reads.{room_meant, parts_meant, roomy_definitions, store, StoreGrows, EndsDefinition};
ghost use Rattle.sort_check.specs.Rows.{EndsOne};

use crate::bindings::Bindings;
use crate::naming::is_function;
use crate::reads::{FunctionParts, Room};
use crate::sorted::{find_room, read_of_sort};
use crate::splitting::first_binding;
use no_memory::NoMemory;
use smt_sexpr::Trees;
use std::alloc::Global;
use term_core::{Head, Sort, TermId, TermTable, TheoryHead};
use term_reader::{Function, Macro, NameStack, ReadError, Scope, Setting, new_name, put, sort_in};

// Whether a name is a theory's, or one of these.
fn is_listed(names: &NameStack, name: &[u8]) -> bool
    ensures { result ≡ is_in_list names.now name.now }
{
    if let Some(_) = TheoryHead::named(name) {
        return true;
    }
    match names.find(name) {
        Some(_) => true,
        None => false,
    }
}

// The names and sorts of parameters.
fn read_parameters(
    alloc: Global,
    scope: &Scope,
    setting: Setting<'_>,
    parameters: Trees<'_>,
) -> Result<(NameStack, Vec<Sort>), ReadError>
    ensures { (t : TableView) (s : Signature) → ScopeMeans t scope.now s
        → EndsParameters t (parameters_in (setting_meant setting.entry) s [] (trees_meant parameters.entry)) result }
{
    let mut names = NameStack::new(alloc);
    let mut sorts = Vec::new(alloc);
    let mut rest = parameters;
    'parameters: while let Some((word, text, left)) = first_binding(rest) {
        let taken = is_listed(&names, word.bytes);
        let name = match new_name(setting, taken, word) {
            Ok(name) => name,
            Err(fault) => return Err(ReadError::Fault(fault)),
        };
        let sort = match sort_in(scope, text) {
            Ok(sort) => sort,
            Err(fault) => return Err(ReadError::Fault(fault)),
        };
        if let Err(_) = names.push(name) {
            return Err(ReadError::Memory);
        }
        if let Err(_) = sorts.push(sort) {
            return Err(ReadError::Memory);
        }
        rest = left;
    }
    Ok((names, sorts))
}

// Parameters as bound names: the last one is bound first, so that the first of a name counts.
fn bind_parameters(
    alloc: Global,
    table: &mut TermTable,
    names: &NameStack,
    sorts: &[Sort],
) -> Result<Bindings, NoMemory>
    requires long { length names.now ≡ length sorts.now }
    requires there { HaveSortsIn table.old.sorts sorts.now }
    ensures ends { EndsBinding table.new (bound_parameters 0 (parameters_at table.old names.now sorts.now)) result }
    ensures keeps { KeepsTable table.old table.new }
{
    let mut bound = Bindings::new(alloc);
    let mut left = sorts.len();
    'sorts: while 0 < left {
        let last = left - 1;
        let id = put(alloc, table, Head::Parameter(last as u64, sorts[last]), &[])?;
        bound.push(names.name(last), id)?;
        left = last;
    }
    Ok(bound)
}

// The body of a definition, under its parameters.
fn read_body(
    alloc: Global,
    table: &mut TermTable,
    scope: &mut Scope,
    setting: Setting<'_>,
    names: &NameStack,
    sorts: &[Sort],
    sort: Sort,
    body: Trees<'_>,
) -> Result<(TermId, Vec<TermId>), ReadError>
    requires known { HasSignature table.old scope.old }
    requires long { length names.now ≡ length sorts.now }
    requires there { HaveSortsIn table.old.sorts sorts.now }
    requires sort { HasSortIn table.old.sorts sort }
    ensures ends { (s : Signature) → ScopeMeans table.old scope.old s → EndsOne s (store table.new scope.new)
        (reading_of_sort (setting_meant setting.entry) s
        (bound_parameters 0 (parameters_at table.old names.now sorts.now))
        (sort_meant table.old.sorts sort) (tree_meant body.entry)) result }
    ensures grows { StoreGrows (store table.old scope.old) (store table.new scope.new) }
{
    match bind_parameters(alloc, table, names, sorts) {
        Err(_) => Err(ReadError::Memory),
        Ok(bound) => read_of_sort(alloc, table, scope, setting, bound, sort, body),
    }
}

// A definition, with the terms that got names.
fn read_whole(
    alloc: Global,
    table: &mut TermTable,
    scope: &mut Scope,
    setting: Setting<'_>,
    parts: FunctionParts<'_>,
) -> Result<Vec<TermId>, ReadError>
    requires { HasSignature table.old scope.old }
    ensures ends { (s : Signature) → ScopeMeans table.old scope.old s → EndsMade s (store table.new scope.new)
        (definitions_in (setting_meant setting.entry) s (parts_meant parts.entry)) result }
    ensures grows { StoreGrows (store table.old scope.old) (store table.new scope.new) }
{
    let taken = is_function(scope, parts.name.bytes);
    let name = match new_name(setting, taken, parts.name) {
        Ok(name) => name,
        Err(fault) => return Err(ReadError::Fault(fault)),
    };
    let (names, sorts) = match read_parameters(alloc, scope, setting, parts.parameters) {
        Ok(parameters) => parameters,
        Err(stop) => return Err(stop),
    };
    let sort = match sort_in(scope, parts.result) {
        Ok(sort) => sort,
        Err(fault) => return Err(ReadError::Fault(fault)),
    };
    let inner = Setting {
        kept_names: setting.kept_names,
        may_name: setting.may_name,
        own: Some(name),
    };
    match read_body(alloc, table, scope, inner, &names, &sorts, sort, parts.body) {
        Err(stop) => Err(stop),
        Ok((id, mut named)) => {
            scope.each_name_means_something();
            let definition = Macro {
                parameters: sorts,
                result: sort,
                body: id,
            };
            if let Err(_) = scope.name_function(name, Function::Defined(definition)) {
                return Err(ReadError::Memory);
            }
            if let Err(_) = named.push(id) {
                return Err(ReadError::Memory);
            }
            Ok(named)
        }
    }
}

/// Reads the definition of a function, and puts it into the scope, where there is room.
pub fn read_definition(
    alloc: Global,
    table: &mut TermTable,
    scope: &mut Scope,
    setting: Setting<'_>,
    parts: FunctionParts<'_>,
    room: Room,
) -> Result<(), ReadError>
    requires { HasSignature table.old scope.old }
    ensures ends { (s : Signature) → ScopeMeans table.old scope.old s → EndsDefinition s (store table.new scope.new)
        (roomy_definitions (room_meant room) (setting_meant setting.entry) s (parts_meant parts.entry)) result }
    ensures grows { StoreGrows (store table.old scope.old) (store table.new scope.new) }
{
    match read_whole(alloc, table, scope, setting, parts) {
        Err(stop) => Err(stop),
        Ok(named) => find_room(alloc, table, scope, room, &named),
    }
}
