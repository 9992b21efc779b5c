//! What a walk knows of a term.

ghost use Rattle.std.specs.Prelude.{◌≡◌, ◌++◌, ◌∷◌, [], ℕ, map, All, IfOk, OnOk};
ghost use Rattle.term_core.specs.Tables.{TableView, IsIn};
ghost use Rattle.linear_form.specs.Walks.{needed_at, known_meant, KnownVariables, IsKnown, AreKnownForms, gathered, forms_made, MadeVariables};

use crate::form::{Form, copy};
use crate::heads::by_head;
use crate::stop::FormStop;
use no_memory::NoMemory;
use ratio128::Wide;
use std::alloc::Global;
use term_core::{TermId, TermTable};

/// Says what is known of a term.
#[derive(Drop)]
pub enum KnownForm {
    /// Its form.
    Form(Form),
    /// Its first operation that leaves the bound on fractions, with the term whose head makes it.
    Wide(TermId, Wide),
}

/// Holds the forms of arguments.
#[derive(Drop)]
pub enum Forms {
    /// All of them, in order.
    All(Vec<Form>),
    /// The first operation of one that leaves the bound on fractions, with the term whose head makes it.
    Wide(TermId, Wide),
}

/// Copies what is known of a term.
pub fn copy_known(alloc: Global, known: &KnownForm) -> Result<KnownForm, NoMemory>
    ensures { (t : TableView) (k : ℕ) → IsKnown t k known.now → IfOk result (IsKnown t k) }
{
    match known {
        KnownForm::Form(form) => match copy(alloc, form) {
            Ok(copied) => Ok(KnownForm::Form(copied)),
            Err(_) => Err(NoMemory),
        },
        KnownForm::Wide(term, wide) => Ok(KnownForm::Wide(*term, *wide)),
    }
}

/// Puts a form after those that are there.
fn push_form(forms: &mut Vec<Form>, form: Form) -> Result<(), NoMemory>
    ensures { OnOk result (forms.new.items ≡ forms.old.items ++ form ∷ []) }
{
    forms.push(form)?;
    Ok(())
}

/// Takes the forms out of what is known of arguments.
fn forms_in(alloc: Global, arguments: Vec<KnownForm>) -> Result<Forms, NoMemory>
    ensures comes { IfOk result (λ r. (t : TableView)
        → forms_made t r ≡ gathered (map (known_meant t) arguments.items)) }
    ensures there { IfOk result (λ r. (t : TableView) → All (KnownVariables t) arguments.items → MadeVariables t r) }
{
    let mut forms = Vec::new(alloc);
    'arguments: for known in arguments {
        match known {
            KnownForm::Form(form) => push_form(&mut forms, form)?,
            KnownForm::Wide(term, wide) => return Ok(Forms::Wide(term, wide)),
        }
    }
    Ok(Forms::All(forms))
}

/// Says what is known of a term by what is known of the arguments of which its form is made.
pub fn known_of(
    alloc: Global,
    table: &TermTable,
    id: TermId,
    arguments: Vec<KnownForm>,
) -> Result<KnownForm, NoMemory>
    requires there { IsIn table.now id }
    requires known { AreKnownForms table.now (needed_at table.now id.0) arguments.items }
    ensures { IfOk result (IsKnown table.now id.0) }
{
    table.ids_are_unique();
    let node = table.node(id);
    match forms_in(alloc, arguments)? {
        Forms::All(forms) => match by_head(alloc, id, node.head, forms) {
            Ok(form) => Ok(KnownForm::Form(form)),
            Err(FormStop::Wide(wide)) => Ok(KnownForm::Wide(id, wide)),
            Err(FormStop::Memory) => Err(NoMemory),
        },
        Forms::Wide(term, wide) => Ok(KnownForm::Wide(term, wide)),
    }
}
