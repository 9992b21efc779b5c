//! The labels of assertions.

ghost use Rattle.std.specs.Prelude.{◌≡◌, option_map};
ghost use Rattle.spec_sorts.specs.Forms.{a_keyword, named_words};
ghost use Rattle.spec_commands.specs.Labels.{names_given, first_name_of, label_of};
ghost use Rattle.smt_sexpr.specs.Items.{trees_meant, tree_meant};
ghost use Rattle.term_reader.specs.Forms.{next_meant};
ghost use Rattle.sort_check.specs.Naming.{wanted_word, next_word, listed_word};

use smt_sexpr::{Trees, View, look, split};
use term_reader::{ListForm, NextAttribute, list_form, next_after};

/// Finds the name that the first tree is, where one is wanted there.
fn name_wanted<'a>(next: NextAttribute, item: Trees<'a>) -> Option<&'a [u8]>
    ensures { option_map (λ b. b.now) result
        ≡ first_name_of (listed_word (wanted_word (next_meant next) (tree_meant item.entry))) }
{
    match (next, look(item)) {
        (NextAttribute::Name, View::Atom(_, _, bytes)) => Some(bytes),
        _ => None,
    }
}

/// Says what may come after an item among attributes.
fn next_wanted(next: NextAttribute, item: Trees<'_>) -> NextAttribute
    ensures { next_meant result ≡ next_word (next_meant next) (tree_meant item.entry) }
{
    match next_after(next, item) {
        Some(then) => then,
        None => NextAttribute::Keyword,
    }
}

/// Finds the first name that attributes give.
fn first_named<'a>(attributes: Trees<'a>) -> Option<&'a [u8]>
    ensures { option_map (λ b. b.now) result ≡ first_name_of (named_words a_keyword (trees_meant attributes.entry)) }
{
    let mut next = NextAttribute::Keyword;
    let mut rest = attributes;
    'attributes: while let Some((item, after)) = split(rest) {
        if let Some(name) = name_wanted(next, item) {
            return Some(name);
        }
        next = next_wanted(next, item);
        rest = after;
    }
    None
}

/// Finds the first name that a list gives to its term.
fn list_label<'a>(inside: Trees<'a>) -> Option<&'a [u8]>
    ensures { option_map (λ b. b.now) result ≡ first_name_of (names_given (trees_meant inside.entry)) }
{
    let (head, arguments) = split(inside)?;
    let (_, attributes) = split(arguments)?;
    match list_form(head, arguments) {
        ListForm::Annotates => first_named(attributes),
        _ => None,
    }
}

/// Finds the label of the first tree.
pub(crate) fn label_in<'a>(tree: Trees<'a>) -> Option<&'a [u8]>
    ensures { option_map (λ b. b.now) result ≡ label_of (tree_meant tree.entry) }
{
    match look(tree) {
        View::Atom(_, _, _) => None,
        View::List(_, inside, _) => list_label(inside),
    }
}
