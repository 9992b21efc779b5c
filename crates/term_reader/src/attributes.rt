//! The attributes of a term.

ghost use Rattle.std.specs.Prelude.{◌≡◌, option_map};
ghost use Rattle.spec_sorts.specs.Forms.{are_attributes, after_keyword, a_keyword};
ghost use Rattle.smt_sexpr.specs.Items.{trees_meant, tree_meant};
ghost use Rattle.term_reader.specs.Forms.{next_meant, next_after};

use crate::forms::is_name;
use smt_sexpr::{Kind, Trees, View, look, same_bytes, split};

/// Tells what may come next among attributes. Source: SMT-LIB 2.6, sections 3.4 and 3.6.
#[derive(Clone, Copy, Debug, PartialEq, Eq)]
pub enum NextAttribute {
    /// A keyword alone.
    Keyword,
    /// A keyword, or the value of the one before.
    Value,
    /// A name alone.
    Name,
}

fn after_keyword(keyword: &[u8]) -> NextAttribute
    ensures { next_meant result ≡ after_keyword keyword.now }
{
    if same_bytes(keyword, b"named") {
        NextAttribute::Name
    } else {
        NextAttribute::Value
    }
}

/// Gives what may come after an item among attributes; `None` where the item may not are there.
///
/// After a keyword comes one value at most, and after `:named` a name.
/// Source: SMT-LIB 2.6, sections 3.4 and 3.6.
pub fn next_after(next: NextAttribute, item: Trees<'_>) -> Option<NextAttribute>
    ensures { option_map next_meant result ≡ next_after (next_meant next) (tree_meant item.entry) }
{
    match (next, look(item)) {
        (NextAttribute::Name, View::Atom(_, kind, _)) => {
            if is_name(kind) {
                return Some(NextAttribute::Keyword);
            }
            None
        }
        (NextAttribute::Name, View::List(_, _, _)) => None,
        (_, View::Atom(_, Kind::Keyword, name)) => Some(after_keyword(name)),
        (NextAttribute::Value, _) => Some(NextAttribute::Keyword),
        (NextAttribute::Keyword, _) => None,
    }
}

/// Tells whether trees are attributes: keywords, each with one value at most, and a name after each `:named`.
///
/// Source: SMT-LIB 2.6, sections 3.4 and 3.6.
pub fn are_attributes(attributes: Trees<'_>) -> bool
    ensures { result ≡ are_attributes a_keyword (trees_meant attributes.entry) }
{
    let mut next = NextAttribute::Keyword;
    let mut rest = attributes;
    'attributes: while let Some((item, after)) = split(rest) {
        let Some(then) = next_after(next, item) else {
            return false;
        };
        next = then;
        rest = after;
    }
    match next {
        NextAttribute::Name => false,
        _ => true,
    }
}
