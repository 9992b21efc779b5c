//! What a list in a term is, by its shape alone.

ghost use Rattle.std.specs.Prelude.{◌≡◌, ◌<◌, option_map, IfSome};
ghost use Rattle.spec_sorts.specs.Forms.{is_name, are_named, is_let, is_annotated, form, word_form};
ghost use Rattle.smt_sexpr.specs.Items.{trees_meant, tree_meant, size_of};
ghost use Rattle.term_reader.specs.Forms.{binding_in, word_tree, form_meant};

use crate::attributes::are_attributes;
use smt_sexpr::{
    Kind, Trees, View, Word, is_reserved, is_symbol, list_inside, look, passes, same_bytes, split,
    tree_alone, word_first,
};

/// Tells what a list in a term is. Source: SMT-LIB 2.6, section 3.6.
#[derive(Clone, Copy, Debug)]
pub enum ListForm<'a> {
    /// No term is written so.
    Malformed,
    /// It has a reserved word as its head: the offset of the word.
    Reserved(u64),
    /// It has a symbol as its head, with arguments: the offset of the symbol, and its name.
    Applies(u64, &'a [u8]),
    /// It is a `let`, with bindings and a body.
    Binds,
    /// It is a `!`, with a term and attributes.
    Annotates,
}

/// Tells whether a kind may be where a new name is wanted: a symbol, or a reserved word, which is refused later.
pub fn is_name(kind: Kind) -> bool
    ensures { result ≡ is_name kind }
{
    is_symbol(kind) || is_reserved(kind)
}

/// Takes a binding apart, a list of a name and one tree more: the name and that tree; `None` where it is no such list.
///
/// Source: SMT-LIB 2.6, section 3.6.
#[tactic(auto, unfolding(crate::specs::Forms::binding_in))]
pub fn binding(tree: Trees<'_>) -> Option<(Word<'_>, Trees<'_>)>
    ensures gives { option_map word_tree result ≡ binding_in (tree_meant tree.entry) }
    ensures less { IfSome result (λ x. size_of x.1 < size_of tree.entry) }
{
    let (_, inside) = list_inside(tree)?;
    let (name, rest) = word_first(inside)?;
    let value = tree_alone(rest)?;
    passes(is_name(name.kind))?;
    Some((name, value))
}

#[tactic(auto, using(crate::proofs::Shapes::named_none, crate::proofs::Shapes::named_some))]
fn are_named(bindings: Trees<'_>) -> bool
    ensures { result ≡ are_named (trees_meant bindings.entry) }
{
    let mut rest = bindings;
    'bindings: while let Some((first, after)) = split(rest) {
        let Some(_) = binding(first) else {
            return false;
        };
        rest = after;
    }
    true
}

fn is_let(arguments: Trees<'_>) -> bool
    ensures { result ≡ is_let (trees_meant arguments.entry) }
{
    let Some((first, rest)) = split(arguments) else {
        return false;
    };
    let View::List(_, bindings, _) = look(first) else {
        return false;
    };
    let Some(_) = tree_alone(rest) else {
        return false;
    };
    let Some(_) = split(bindings) else {
        return false;
    };
    are_named(bindings)
}

fn is_annotated(arguments: Trees<'_>) -> bool
    ensures { result ≡ is_annotated (trees_meant arguments.entry) }
{
    let Some((_, attributes)) = split(arguments) else {
        return false;
    };
    let Some(_) = split(attributes) else {
        return false;
    };
    are_attributes(attributes)
}

fn word_form<'a>(at: u64, name: &'a [u8], arguments: Trees<'a>) -> ListForm<'a>
    ensures { form_meant result ≡ word_form at name.now (trees_meant arguments.entry) }
{
    if same_bytes(name, b"let") {
        if is_let(arguments) {
            return ListForm::Binds;
        }
        return ListForm::Malformed;
    }
    if same_bytes(name, b"!") {
        if is_annotated(arguments) {
            return ListForm::Annotates;
        }
        return ListForm::Malformed;
    }
    ListForm::Reserved(at)
}

/// Tells what a list in a term is, by its first item and the others. It takes no memory, and time that goes with its items.
///
/// Source: SMT-LIB 2.6, section 3.6.
pub fn list_form<'a>(head: Trees<'a>, arguments: Trees<'a>) -> ListForm<'a>
    ensures { form_meant result ≡ form (tree_meant head.entry) (trees_meant arguments.entry) }
{
    let Some(_) = split(arguments) else {
        return ListForm::Malformed;
    };
    match look(head) {
        View::Atom(at, Kind::Simple | Kind::Quoted, name) => ListForm::Applies(u64::from(at), name),
        View::Atom(at, Kind::Reserved, name) => word_form(u64::from(at), name, arguments),
        _ => ListForm::Malformed,
    }
}
