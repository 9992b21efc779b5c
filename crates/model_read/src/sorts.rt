//! The sorts that texts name.

ghost use Rattle.std.specs.Prelude.{◌≡◌, Ok};
ghost use Rattle.spec_text.specs.Shapes.{Word as TextWord};
ghost use Rattle.spec_sorts.specs.Terms.{same_sort};
ghost use Rattle.spec_sorts.specs.Signatures.{Signature};
ghost use Rattle.spec_model_files.specs.Values.{symbol_read, names_sort, sort_read};
ghost use Rattle.smt_sexpr.specs.Items.{tree_meant};
ghost use Rattle.term_core.specs.Symbols.{HasSortIn, sort_meant};
ghost use Rattle.term_reader.specs.Scopes.{ScopeMeans, HasSignature};
ghost use Rattle.model_read.specs.Answers.{agreed};

use crate::errors::{LocatedFault, fault_at};
use crate::words::symbol;
use smt_sexpr::Trees;
use spec_model_files::ModelKind;
use term_core::{Sort, TermTable};
use term_reader::{Scope, sort_in};

/// Tells whether two sorts are one.
fn are_one(table: &TermTable, a: Sort, b: Sort) -> bool
    requires first { HasSortIn table.now.sorts a }
    requires second { HasSortIn table.now.sorts b }
    ensures { result ≡ same_sort (sort_meant table.now.sorts a) (sort_meant table.now.sorts b) }
{
    table.symbols().are_declared();
    a == b
}

/// Tells whether the symbol that a text is names a sort, by its own name or by a defined one.
pub(crate) fn names_sort(table: &TermTable, scope: &Scope, sort: Sort, text: Trees<'_>) -> bool
    requires known { HasSignature table.now scope.now }
    requires sort { HasSortIn table.now.sorts sort }
    ensures { (g : Signature) (w : TextWord) → ScopeMeans table.now scope.now g
        → symbol_read (tree_meant text.entry) ≡ Ok w → result ≡ names_sort g (sort_meant table.now.sorts sort) w }
{
    match sort_in(scope, text) {
        Ok(found) => are_one(table, sort, found),
        Err(_) => false,
    }
}

/// Asks that a text names a sort: `BadShape` at a tree that is no symbol, `WrongSort` at any other symbol.
pub(crate) fn want_sort(
    table: &TermTable,
    scope: &Scope,
    sort: Sort,
    text: Trees<'_>,
) -> Result<(), LocatedFault>
    requires known { HasSignature table.now scope.now }
    requires sort { HasSortIn table.now.sorts sort }
    ensures { (g : Signature) → ScopeMeans table.now scope.now g
        → agreed result ≡ sort_read g (sort_meant table.now.sorts sort) (tree_meant text.entry) }
{
    match symbol(text) {
        Ok(word) => {
            if names_sort(table, scope, sort, text) {
                return Ok(());
            }
            Err(fault_at(word.at, ModelKind::WrongSort))
        }
        Err(fault) => Err(fault),
    }
}
