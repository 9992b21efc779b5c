//! Whether bound names occur free in a text.

ghost use Rattle.std.specs.Prelude.{◌≡◌, ◌+◌, ◌||◌, List, ◌++◌, IfOk, OnOk};
ghost use Rattle.spec_text.specs.Bytes.{Name, among};
ghost use Rattle.spec_sorts.specs.Forms.{form};
ghost use Rattle.spec_reading.specs.Names.{names_bound, without, mentions, any_mentions, first_mentions, let_mentions, binding_mentions};
ghost use Rattle.spec_reading.specs.Reading.{bound_names};
ghost use Rattle.smt_sexpr.specs.Items.{trees_meant, tree_meant};
ghost use Rattle.term_core.specs.Tables.{TableView};
ghost use Rattle.sort_check.specs.Bindings.{bound_at};
ghost use Rattle.sort_check.specs.Walks.{size, sizes};
ghost use Rattle.sort_check.specs.Mentions.{names_of, form_mentions, rest_of, with_next, rest_mentions, left_size, FindsName};

use crate::bindings::Bindings;
use crate::splitting::{first_binding, let_parts};
use no_memory::NoMemory;
use smt_sexpr::{Trees, View, is_symbol, look, split};
use std::alloc::Global;
use term_reader::{ListForm, NameStack, list_form};

/// Says what of a text is left to look at.
#[derive(Clone, Copy, Debug)]
pub enum Left<'a> {
    /// A row of terms.
    Terms(Trees<'a>),
    /// The terms of bindings.
    Values(Trees<'a>),
    /// The body under bindings, whose names are bound in it: the bindings, and the body.
    Body(Trees<'a>, Trees<'a>),
    /// Nothing: the end of a body, around which the text binds so many names.
    Back(usize),
}

/// Holds how far a text is searched.
#[derive(Drop)]
pub struct NameSearch<'a> {
    /// The names that the text itself binds there, the innermost last.
    pub inner: NameStack,
    /// What is left of it, that which comes next last.
    pub left: Vec<Left<'a>>,
}

// Whether a name is one of the bound names, and the text does not bind it itself.
fn is_free(bound: &Bindings, inner: &NameStack, name: &[u8]) -> bool
    ensures { result ≡ among (without (names_of bound.now) inner.now) name.now }
{
    match bound.find(name) {
        None => false,
        Some(_) => match inner.find(name) {
            None => true,
            Some(_) => false,
        },
    }
}

// What comes next.
fn push<'a>(search: &mut NameSearch<'a>, next: Left<'a>) -> Result<(), NoMemory>
    ensures { OnOk result (rest_of search.new ≡ with_next next.entry (rest_of search.old)) }
{
    search.left.push(next)?;
    Ok(())
}

// A `let` by its bindings and its body.
fn look_in_let<'a>(search: &mut NameSearch<'a>, arguments: Trees<'a>) -> Result<bool, NoMemory>
    ensures { (ns : List Name) → FindsName ns
        (let_mentions (without ns search.old.inner) (trees_meant arguments.entry)
        || rest_mentions ns (rest_of search.old))
        (3 + (sizes (trees_meant arguments.entry) + left_size (rest_of search.old).left)) (rest_of search.new) result }
{
    let Some((bindings, body)) = let_parts(arguments) else {
        return Ok(false);
    };
    push(search, Left::Body(bindings, body))?;
    push(search, Left::Values(bindings))?;
    Ok(false)
}

// A term before attributes.
fn look_in_annotated<'a>(
    search: &mut NameSearch<'a>,
    arguments: Trees<'a>,
) -> Result<bool, NoMemory>
    ensures { (ns : List Name) → FindsName ns
        (first_mentions (without ns search.old.inner) (trees_meant arguments.entry)
        || rest_mentions ns (rest_of search.old))
        (2 + (sizes (trees_meant arguments.entry) + left_size (rest_of search.old).left)) (rest_of search.new) result }
{
    let Some((text, _)) = split(arguments) else {
        return Ok(false);
    };
    push(search, Left::Terms(text))?;
    Ok(false)
}

// A list by its first item and the others.
fn look_in_list<'a>(
    bound: &Bindings,
    search: &mut NameSearch<'a>,
    head: Trees<'a>,
    arguments: Trees<'a>,
) -> Result<bool, NoMemory>
    ensures { FindsName (names_of bound.now)
        (form_mentions (without (names_of bound.now) search.old.inner) (trees_meant arguments.entry)
        (form (tree_meant head.entry) (trees_meant arguments.entry))
        || rest_mentions (names_of bound.now) (rest_of search.old))
        (3 + (sizes (trees_meant arguments.entry) + left_size (rest_of search.old).left)) (rest_of search.new) result }
{
    match list_form(head, arguments) {
        ListForm::Malformed => Ok(false),
        ListForm::Reserved(_) => Ok(false),
        ListForm::Applies(_, name) => {
            if is_free(bound, &search.inner, name) {
                return Ok(true);
            }
            push(search, Left::Terms(arguments))?;
            Ok(false)
        }
        ListForm::Binds => look_in_let(search, arguments),
        ListForm::Annotates => look_in_annotated(search, arguments),
    }
}

// An atom or a list.
fn look_at<'a>(
    bound: &Bindings,
    search: &mut NameSearch<'a>,
    text: Trees<'a>,
) -> Result<bool, NoMemory>
    ensures { FindsName (names_of bound.now)
        (mentions (without (names_of bound.now) search.old.inner) (tree_meant text.entry)
        || rest_mentions (names_of bound.now) (rest_of search.old))
        (size (tree_meant text.entry) + left_size (rest_of search.old).left) (rest_of search.new) result }
{
    match look(text) {
        View::Atom(_, kind, name) => {
            if !is_symbol(kind) {
                return Ok(false);
            }
            Ok(is_free(bound, &search.inner, name))
        }
        View::List(_, inside, _) => match split(inside) {
            None => Ok(false),
            Some((head, arguments)) => look_in_list(bound, search, head, arguments),
        },
    }
}

// The first of a row of terms; the others come next.
fn look_in_terms<'a>(
    bound: &Bindings,
    search: &mut NameSearch<'a>,
    terms: Trees<'a>,
) -> Result<bool, NoMemory>
    ensures { FindsName (names_of bound.now)
        (any_mentions (without (names_of bound.now) search.old.inner) (trees_meant terms.entry)
        || rest_mentions (names_of bound.now) (rest_of search.old))
        (1 + (sizes (trees_meant terms.entry) + left_size (rest_of search.old).left)) (rest_of search.new) result }
{
    let Some((first, after)) = split(terms) else {
        return Ok(false);
    };
    push(search, Left::Terms(after))?;
    look_at(bound, search, first)
}

// The term of the first of bindings; the others come next.
fn look_in_values<'a>(
    bound: &Bindings,
    search: &mut NameSearch<'a>,
    bindings: Trees<'a>,
) -> Result<bool, NoMemory>
    ensures { FindsName (names_of bound.now)
        (binding_mentions (without (names_of bound.now) search.old.inner) (trees_meant bindings.entry)
        || rest_mentions (names_of bound.now) (rest_of search.old))
        (1 + (sizes (trees_meant bindings.entry) + left_size (rest_of search.old).left)) (rest_of search.new) result }
{
    let Some((_, term, after)) = first_binding(bindings) else {
        return Ok(false);
    };
    push(search, Left::Values(after))?;
    look_at(bound, search, term)
}

// The names of bindings, put after others.
fn bind_names(inner: &mut NameStack, bindings: Trees<'_>) -> Result<(), NoMemory>
    ensures { OnOk result (inner.new ≡ inner.old ++ names_bound (trees_meant bindings.entry)) }
{
    let mut rest = bindings;
    'bindings: while let Some((name, _, after)) = first_binding(rest) {
        inner.push(name.bytes)?;
        rest = after;
    }
    Ok(())
}

// The body under bindings, in which their names are bound.
fn look_under<'a>(
    bound: &Bindings,
    search: &mut NameSearch<'a>,
    bindings: Trees<'a>,
    body: Trees<'a>,
) -> Result<bool, NoMemory>
    ensures { FindsName (names_of bound.now)
        (mentions (without (without (names_of bound.now) search.old.inner) (names_bound (trees_meant bindings.entry)))
        (tree_meant body.entry) || rest_mentions (names_of bound.now) (rest_of search.old))
        (3 + (size (tree_meant body.entry) + left_size (rest_of search.old).left)) (rest_of search.new) result }
{
    let before = search.inner.len();
    push(search, Left::Back(before))?;
    bind_names(&mut search.inner, bindings)?;
    look_at(bound, search, body)
}

// What comes next; tells whether one of the bound names occurs free in what is looked at of it.
fn step<'a>(bound: &Bindings, search: &mut NameSearch<'a>, next: Left<'a>) -> Result<bool, NoMemory>
    ensures { FindsName (names_of bound.now)
        (rest_mentions (names_of bound.now) (with_next next.entry (rest_of search.old)))
        (left_size (with_next next.entry (rest_of search.old)).left) (rest_of search.new) result }
{
    match next {
        Left::Terms(terms) => look_in_terms(bound, search, terms),
        Left::Values(bindings) => look_in_values(bound, search, bindings),
        Left::Body(bindings, body) => look_under(bound, search, bindings, body),
        Left::Back(len) => {
            search.inner.back(len);
            Ok(false)
        }
    }
}

// Whether one of the bound names occurs free in what is left.
fn is_left(bound: &Bindings, search: &mut NameSearch<'_>) -> Result<bool, NoMemory>
    ensures { IfOk result (λ yes. yes ≡ rest_mentions (names_of bound.now) (rest_of search.old)) }
{
    'left: while let Some(next) = search.left.pop() {
        if step(bound, search, next)? {
            return Ok(true);
        }
    }
    Ok(false)
}

/// Tells whether one of the bound names occurs free in a text.
///
/// Time goes with the text, and nothing recurses. `NoMemory` may come where a list is in it.
/// Source: SMT-LIB 2.6, section 3.6.
pub fn mentions(alloc: Global, bound: &Bindings, text: Trees<'_>) -> Result<bool, NoMemory>
    ensures { IfOk result (λ yes. (t : TableView) → yes
        ≡ mentions (bound_names (bound_at t bound.now)) (tree_meant text.entry)) }
{
    let mut search = NameSearch {
        inner: NameStack::new(alloc),
        left: Vec::new(alloc),
    };
    if look_at(bound, &mut search, text)? {
        return Ok(true);
    }
    is_left(bound, &mut search)
}
