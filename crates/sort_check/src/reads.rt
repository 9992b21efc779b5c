//! Reads terms and definitions under a scope.

ghost use Rattle.std.specs.Prelude.{[], OnErr};
ghost use Rattle.spec_sorts.specs.Signatures.{Signature};
ghost use Rattle.spec_reading.specs.Reading.{readings};
ghost use Rattle.smt_sexpr.specs.Items.{trees_meant, tree_meant};
ghost use Rattle.term_core.specs.Symbols.{HasSortIn, sort_meant};
ghost use Rattle.term_reader.specs.Names.{setting_meant};
ghost use Rattle.term_reader.specs.Scopes.{HasSignature, ScopeMeans};
ghost use Rattle.sort_check.specs.Reads.{room_meant, parts_meant, roomy_reading, roomy_readings, roomy_definitions, store, StoreGrows, IsSame, EndsTerm, EndsTerms, EndsDefinition};

use crate::bindings::Bindings;
use crate::defining::read_definition;
use crate::distinct::read_fitting;
use crate::sorted::read_terms;
use crate::walk::read;
use smt_sexpr::{Trees, Word};
use std::alloc::Global;
use term_core::{Sort, TermId, TermTable};
use term_reader::{ReadError, Scope, Setting};

/// Says how many names there may be, and how many different subterms the terms of a command may have.
#[derive(Clone, Copy, Debug)]
pub struct Room {
    /// The limit on both; `None` where there is none.
    pub limit: Option<u64>,
    /// The offset of the command, at which a fault says that there are more.
    pub at: u64,
}

/// Holds the definition of a function by its parts, as they are written. Source: SMT-LIB 2.6, section 4.2.3.
#[derive(Clone, Copy, Debug)]
pub struct FunctionParts<'a> {
    /// The name of the function.
    pub name: Word<'a>,
    /// Its parameters, none or more: each a list of a name and a sort.
    pub parameters: Trees<'a>,
    /// The sort of its values.
    pub result: Trees<'a>,
    /// The term that it stands for.
    pub body: Trees<'a>,
}

/// Reads a tree as a term of that sort, puts the term into the table, and the names that `:named` makes in it into the
/// scope.
///
/// - `Fault` is the first fault, with its offset. In a list it is looked for in this order: its shape (`BadShape` at the
///   list), a first reserved word (`Reserved` at the word), the arguments from left to right, the name (`UnknownSymbol`
///   at the name), the number of arguments (`WrongCount` at the list), their sorts (`WrongSort`), and what is linear
///   (`NotLinear`, `ZeroDivisor`). In `let` each binding has its name (`Reserved`, `Twice` at the name) before its term,
///   then comes the body. In `!` the term comes before the attributes, and for `:named` its name (`Reserved`, `Twice`),
///   then `BadShape` at the list where the term may get none. `NumberWide` comes at a literal.
/// - `Fault` with `WrongSort` at the tree comes then where the term has another sort; `Full` at the room's offset where
///   there are more names or different subterms than the limit says. A tree that is one `distinct` has too many where it
///   has n different arguments and n * n - n is over the limit. Then its pairs are not made.
/// - `Memory` may come at any allocation, and says nothing of the text.
///
/// After each of these table and scope are as they were. Time goes with the text and the terms that it is read as, and
/// nothing recurses. Source: SMT-LIB 2.6, section 3.6.
pub fn term(
    alloc: Global,
    table: &mut TermTable,
    scope: &mut Scope,
    setting: Setting<'_>,
    sort: Sort,
    tree: Trees<'_>,
    room: Room,
) -> Result<TermId, ReadError>
    requires known { HasSignature table.old scope.old }
    requires sort { HasSortIn table.old.sorts sort }
    ensures ends { (s : Signature) → ScopeMeans table.old scope.old s → EndsTerm s (store table.new scope.new)
        (roomy_reading (room_meant room) (setting_meant setting.entry) s (sort_meant table.old.sorts sort)
        (tree_meant tree.entry))
        result }
    ensures grows { StoreGrows (store table.old scope.old) (store table.new scope.new) }
    ensures same { OnErr result (IsSame (store table.old scope.old) (store table.new scope.new)) }
{
    scope.each_name_means_something();
    let count = table.len();
    let sorts = scope.sorts_len();
    let names = scope.len();
    match read_fitting(alloc, table, scope, setting, sort, tree, room) {
        Ok(id) => Ok(id),
        Err(stop) => {
            table.cut(count);
            scope.back(sorts, names);
            Err(stop)
        }
    }
}

/// Reads trees as terms of that sort, one after the other, as `term` does: what one defines is known in those after it.
///
/// - `Fault` is the first fault, with its offset, as there. Of room it comes after all others: the limit is on the
///   different subterms of all terms together.
/// - `Memory` may come at any allocation, and says nothing of the text.
///
/// After each of these table and scope are as they were. Source: SMT-LIB 2.6, section 3.6.
pub fn terms(
    alloc: Global,
    table: &mut TermTable,
    scope: &mut Scope,
    setting: Setting<'_>,
    sort: Sort,
    trees: Trees<'_>,
    room: Room,
) -> Result<Vec<TermId>, ReadError>
    requires known { HasSignature table.old scope.old }
    requires sort { HasSortIn table.old.sorts sort }
    ensures ends { (s : Signature) → ScopeMeans table.old scope.old s → EndsTerms s (store table.new scope.new)
        (roomy_readings (room_meant room) (setting_meant setting.entry) s (sort_meant table.old.sorts sort)
        (trees_meant trees.entry))
        result }
    ensures grows { StoreGrows (store table.old scope.old) (store table.new scope.new) }
    ensures same { OnErr result (IsSame (store table.old scope.old) (store table.new scope.new)) }
{
    scope.each_name_means_something();
    let count = table.len();
    let sorts = scope.sorts_len();
    let names = scope.len();
    match read_terms(alloc, table, scope, setting, sort, trees, room) {
        Ok(ids) => Ok(ids),
        Err(stop) => {
            table.cut(count);
            scope.back(sorts, names);
            Err(stop)
        }
    }
}

/// Reads trees as terms, each of any sort, one after the other, as `term` does: what one defines is known in those after
/// it. There is no limit on names and terms.
///
/// - `Fault` is the first fault, with its offset, as there; `WrongSort` comes in a term alone, and `Full` never.
/// - `Memory` may come at any allocation, and says nothing of the text.
///
/// After each of these table and scope are as they were. Time goes with the text and the terms that it is read as, and
/// nothing recurses. Source: SMT-LIB 2.6, sections 3.6 and 4.2.6.
pub fn terms_of_any_sort(
    alloc: Global,
    table: &mut TermTable,
    scope: &mut Scope,
    setting: Setting<'_>,
    trees: Trees<'_>,
) -> Result<Vec<TermId>, ReadError>
    requires { HasSignature table.old scope.old }
    ensures ends { (s : Signature) → ScopeMeans table.old scope.old s → EndsTerms s (store table.new scope.new)
        (readings (setting_meant setting.entry) s [] (trees_meant trees.entry)) result }
    ensures grows { StoreGrows (store table.old scope.old) (store table.new scope.new) }
    ensures same { OnErr result (IsSame (store table.old scope.old) (store table.new scope.new)) }
{
    scope.each_name_means_something();
    let count = table.len();
    let sorts = scope.sorts_len();
    let names = scope.len();
    match read(alloc, table, scope, setting, Bindings::new(alloc), trees) {
        Ok((ids, _)) => Ok(ids),
        Err(stop) => {
            table.cut(count);
            scope.back(sorts, names);
            Err(stop)
        }
    }
}

/// Reads the definition of a function, and puts it into the scope, after the names that `:named` makes in its body.
///
/// - `Fault` is the first fault, with its offset: of the name (`Reserved`, `Twice` at it), of each parameter's name and
///   sort, of the result's sort, then of the body as `term` tells it, `WrongSort` at the body where it has another sort
///   than the result, and `Full` at the room's offset.
/// - `Memory` may come at any allocation, and says nothing of the text.
///
/// After each of these table and scope are as they were. The setting's own name has no effect.
/// Source: SMT-LIB 2.6, section 4.2.3.
pub fn define(
    alloc: Global,
    table: &mut TermTable,
    scope: &mut Scope,
    setting: Setting<'_>,
    parts: FunctionParts<'_>,
    room: Room,
) -> Result<(), ReadError>
    requires { HasSignature table.old scope.old }
    ensures ends { (s : Signature) → ScopeMeans table.old scope.old s → EndsDefinition s (store table.new scope.new)
        (roomy_definitions (room_meant room) (setting_meant setting.entry) s (parts_meant parts.entry)) result }
    ensures grows { StoreGrows (store table.old scope.old) (store table.new scope.new) }
    ensures same { OnErr result (IsSame (store table.old scope.old) (store table.new scope.new)) }
{
    scope.each_name_means_something();
    let count = table.len();
    let sorts = scope.sorts_len();
    let names = scope.len();
    match read_definition(alloc, table, scope, setting, parts, room) {
        Ok(()) => Ok(()),
        Err(stop) => {
            table.cut(count);
            scope.back(sorts, names);
            Err(stop)
        }
    }
}
