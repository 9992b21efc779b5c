//! Declarations of sorts and functions, and definitions of sorts.

ghost use Rattle.std.specs.Prelude.{◌≡◌, ℕ, ◌+◌, ◌++◌, [], ◌∷◌, length, nat_lt, false, true, None, OnErr, OnOk};
ghost use Rattle.spec_text.specs.Bytes.{among};
ghost use Rattle.spec_text.specs.Trees.{none};
ghost use Rattle.spec_sorts.specs.Signatures.{of_function, declared};
ghost use Rattle.spec_commands.specs.Commands.{DeclareSort, DefineSort, DeclareFun};
ghost use Rattle.spec_commands.specs.Stack.{Stack as ScriptStack, begun, with_declaration, signature_of, roomy, performed};
ghost use Rattle.smt_sexpr.specs.Items.{tree_meant, trees_meant};
ghost use Rattle.smt_sexpr.specs.Views.{word_view};
ghost use Rattle.spec_sorts.specs.Signatures.{known_as};
ghost use Rattle.term_core.specs.Symbols.{HasSortIn, HaveSortsIn, symbol_named, symbol_of};
ghost use Rattle.term_core.specs.Tables.{Extends};
ghost use Rattle.assertion_stack.specs.Stacks.{over_table, IsStack, HasStack, Performs, with_sort, with_function};

use crate::faults::refused;
use crate::names::{new_function, new_sort, sorts_in};
use crate::stack::{Effect, Stack};
use no_memory::NoMemory;
use smt_sexpr::{Trees, Word};
use spec_text::Fault;
use std::alloc::Global;
use term_core::{Sort, SortId, SymbolId, TermTable};
use term_reader::{Function, ReadError, sort_in};

/// Tells whether there is room for one name more.
fn has_room(stack: &Stack) -> bool
    ensures { result ≡ nat_lt (length stack.now.scope.sort_names + length stack.now.scope.names) stack.now.limit }
{
    stack.limit != 0 && stack.scope.has_room(stack.limit - 1)
}

/// Puts the name of a sort last.
fn add_name(stack: &mut Stack, name: &[u8], sort: Sort) -> Result<(), NoMemory>
    ensures added { OnOk result (stack.new ≡ with_sort stack.old name.now sort) }
    ensures same { OnErr result (stack.new ≡ stack.old) }
{
    stack.scope.name_sort(name, sort)?;
    stack.started = true;
    Ok(())
}

/// Declares a sort of a new name, in the table and as a name.
fn add_sort(stack: &mut Stack, table: &mut TermTable, name: &[u8]) -> Result<(), NoMemory>
    requires { among table.old.sorts name.now ≡ false }
    ensures named { OnOk result
        (stack.new ≡ with_sort stack.old name.now (Sort.Declared (record { 0 = length table.old.sorts }))) }
    ensures declared { OnOk result (table.new ≡ record table.old { sorts = table.old.sorts ++ name.now ∷ [] }) }
    ensures same { OnErr result ((stack.new ≡ stack.old) × (table.new ≡ table.old)) }
{
    stack.scope.each_name_means_something();
    let sorts = stack.scope.sorts_len();
    let functions = stack.scope.len();
    let number = SortId(table.symbols().sorts_len());
    stack.scope.name_sort(name, Sort::Declared(number))?;
    match table.declare_sort(name) {
        Ok(_) => {
            stack.started = true;
            Ok(())
        }
        Err(stop) => {
            stack.scope.back(sorts, functions);
            Err(stop)
        }
    }
}

/// Declares a symbol of a new name, in the table and as a name.
fn add_symbol(
    stack: &mut Stack,
    table: &mut TermTable,
    name: &[u8],
    parameters: &[Sort],
    gives: Sort,
) -> Result<(), NoMemory>
    requires new { symbol_named table.old.symbols name.now ≡ None }
    requires sorts { HaveSortsIn table.old.sorts parameters.now × HasSortIn table.old.sorts gives }
    ensures named { OnOk result
        (stack.new ≡ with_function stack.old name.now (Function.Declared (record { 0 = length table.old.symbols }))) }
    ensures declared { OnOk result (table.new ≡ record table.old {
      symbols = table.old.symbols ++ symbol_of table.old.sorts name.now parameters.now gives ∷ [];
    }) }
    ensures same { OnErr result ((stack.new ≡ stack.old) × (table.new ≡ table.old)) }
{
    stack.scope.each_name_means_something();
    let sorts = stack.scope.sorts_len();
    let functions = stack.scope.len();
    let number = SymbolId(table.symbols().len());
    stack.scope.name_function(name, Function::Declared(number))?;
    match table.declare(name, parameters, gives) {
        Ok(_) => {
            stack.started = true;
            Ok(())
        }
        Err(stop) => {
            stack.scope.back(sorts, functions);
            Err(stop)
        }
    }
}

/// Declares a function of a new name over sorts that are there, by a command at an offset.
fn declare_over<'a>(
    stack: &mut Stack,
    table: &mut TermTable,
    at: u64,
    name: &[u8],
    parameters: &[Sort],
    gives: Sort,
) -> Result<Effect<'a>, ReadError>
    requires new { (limit : ℕ) × (s : ScriptStack) × IsStack limit (over_table table.old stack.old) s
        × (known_as (signature_of s) name.now ≡ None) }
    requires sorts { HaveSortsIn table.old.sorts parameters.now × HasSortIn table.old.sorts gives }
    ensures performs { (limit : ℕ) (s : ScriptStack) → IsStack limit (over_table table.old stack.old) s
        → known_as (signature_of s) name.now ≡ None
        → Performs limit (roomy limit at [] (begun (with_declaration s
        (of_function (declared (symbol_of table.old.sorts name.now parameters.now gives))))))
        (over_table table.new stack.new) result }
    ensures kept { OnOk result (Extends table.old table.new) }
    ensures same { OnErr result ((stack.new ≡ stack.old) × (table.new ≡ table.old)) }
{
    stack.scope.each_name_means_something();
    if !has_room(stack) {
        return Err(refused(at, Fault::Full));
    }
    match add_symbol(stack, table, name, parameters, gives) {
        Ok(()) => Ok(Effect::Done),
        Err(_) => Err(ReadError::Memory),
    }
}

impl Stack {
    /// Declares a sort, by a `declare-sort` at an offset in bytes: the table has it last, and the scope its name.
    ///
    /// - `Fault` has the first fault, with its offset: of the name (`Reserved` at the word where it is reserved or kept
    ///   for solvers, `Twice` there where a sort has it), then `Full` at the command where no name more has room.
    /// - `Memory` may come where the sort or its name finds no memory, and says nothing of the command.
    ///
    /// After each of these stack and table are as they were. Source: SMT-LIB 2.6, section 4.2.3.
    pub fn declare_sort<'a>(
        &mut self,
        table: &mut TermTable,
        at: u64,
        word: Word<'_>,
    ) -> Result<Effect<'a>, ReadError>
        requires { HasStack (over_table table.old self.old) }
        ensures performs { (limit : ℕ) (s : ScriptStack) → IsStack limit (over_table table.old self.old) s
            → Performs limit (performed limit at s (DeclareSort (word_view word.entry))) (over_table table.new self.new)
            result }
        ensures kept { OnOk result (Extends table.old table.new) }
        ensures same { OnErr result ((self.new ≡ self.old) × (table.new ≡ table.old)) }
    {
        self.scope.each_name_means_something();
        let name = match new_sort(&self.scope, word) {
            Ok(name) => name,
            Err(fault) => return Err(ReadError::Fault(fault)),
        };
        if !has_room(self) {
            return Err(refused(at, Fault::Full));
        }
        match add_sort(self, table, name) {
            Ok(()) => Ok(Effect::Done),
            Err(_) => Err(ReadError::Memory),
        }
    }

    /// Gives a sort of the table a name more, by a `define-sort` without parameters at an offset in bytes.
    ///
    /// - `Fault` has the first fault, with its offset: of the name as `declare_sort` tells it, of the sort
    ///   (`UnknownSort`, `Reserved`, `BadShape` at its tree), then `Full` at the command where no name more has room.
    /// - `Memory` may come where the name finds no memory, and says nothing of the command.
    ///
    /// After each of these the stack is as it was. Source: SMT-LIB 2.6, section 4.2.3.
    pub fn name_sort<'a>(
        &mut self,
        table: &TermTable,
        at: u64,
        word: Word<'_>,
        sort: Trees<'_>,
    ) -> Result<Effect<'a>, ReadError>
        ensures performs { (limit : ℕ) (s : ScriptStack) → IsStack limit (over_table table.now self.old) s
            → Performs limit (performed limit at s (DefineSort (word_view word.entry) (tree_meant sort.entry)))
            (over_table table.now self.new) result }
        ensures same { OnErr result (self.new ≡ self.old) }
    {
        self.scope.each_name_means_something();
        let name = match new_sort(&self.scope, word) {
            Ok(name) => name,
            Err(fault) => return Err(ReadError::Fault(fault)),
        };
        let sort = match sort_in(&self.scope, sort) {
            Ok(sort) => sort,
            Err(fault) => return Err(ReadError::Fault(fault)),
        };
        if !has_room(self) {
            return Err(refused(at, Fault::Full));
        }
        match add_name(self, name, sort) {
            Ok(()) => Ok(Effect::Done),
            Err(_) => Err(ReadError::Memory),
        }
    }

    /// Declares a constant, by a `declare-const` at an offset in bytes: a function without parameters.
    ///
    /// - `Fault` has the first fault, with its offset: of the name, of the sort, then `Full`, each as `declare` tells it.
    /// - `Memory` may come where the symbol or its name finds no memory, and says nothing of the command.
    ///
    /// After each of these stack and table are as they were. Source: SMT-LIB 2.6, section 4.2.3.
    pub fn declare_const<'a>(
        &mut self,
        table: &mut TermTable,
        at: u64,
        word: Word<'_>,
        sort: Trees<'_>,
    ) -> Result<Effect<'a>, ReadError>
        requires { HasStack (over_table table.old self.old) }
        ensures performs { (limit : ℕ) (s : ScriptStack) → IsStack limit (over_table table.old self.old) s
            → Performs limit (performed limit at s (DeclareFun (word_view word.entry) none (tree_meant sort.entry)))
            (over_table table.new self.new) result }
        ensures kept { OnOk result (Extends table.old table.new) }
        ensures same { OnErr result ((self.new ≡ self.old) × (table.new ≡ table.old)) }
    {
        let name = match new_function(&self.scope, word) {
            Ok(name) => name,
            Err(fault) => return Err(ReadError::Fault(fault)),
        };
        match sort_in(&self.scope, sort) {
            Ok(gives) => declare_over(self, table, at, name, &[], gives),
            Err(fault) => Err(ReadError::Fault(fault)),
        }
    }

    /// Declares a function, by a `declare-fun` at an offset in bytes: the table has its symbol last, and the scope its
    /// name. `parameters` are the sorts of its parameters, none or more, and `sort` is that of its values.
    ///
    /// - `Fault` has the first fault, with its offset: of the name (`Reserved` at the word where it is reserved or kept
    ///   for solvers, `Twice` there where a function has it), of each parameter's sort, of the values' sort
    ///   (`UnknownSort`, `Reserved`, `BadShape` at its tree), then `Full` at the command where no name more has room.
    /// - `Memory` may come at any allocation, and says nothing of the command.
    ///
    /// After each of these stack and table are as they were. Source: SMT-LIB 2.6, section 4.2.3.
    pub fn declare<'a>(
        &mut self,
        alloc: Global,
        table: &mut TermTable,
        at: u64,
        word: Word<'_>,
        parameters: Trees<'_>,
        sort: Trees<'_>,
    ) -> Result<Effect<'a>, ReadError>
        requires { HasStack (over_table table.old self.old) }
        ensures performs { (limit : ℕ) (s : ScriptStack) → IsStack limit (over_table table.old self.old) s
            → Performs limit (performed limit at s
            (DeclareFun (word_view word.entry) (trees_meant parameters.entry) (tree_meant sort.entry)))
            (over_table table.new self.new) result }
        ensures kept { OnOk result (Extends table.old table.new) }
        ensures same { OnErr result ((self.new ≡ self.old) × (table.new ≡ table.old)) }
    {
        let name = match new_function(&self.scope, word) {
            Ok(name) => name,
            Err(fault) => return Err(ReadError::Fault(fault)),
        };
        let parameters = match sorts_in(alloc, &self.scope, parameters) {
            Ok(parameters) => parameters,
            Err(stop) => return Err(stop),
        };
        match sort_in(&self.scope, sort) {
            Ok(gives) => declare_over(self, table, at, name, parameters.as_slice(), gives),
            Err(fault) => Err(ReadError::Fault(fault)),
        }
    }
}
