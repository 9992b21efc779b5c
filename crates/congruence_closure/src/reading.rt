//! What a listed term is.

ghost use Rattle.std.specs.Prelude.{◌≡◌, MatchOption};
ghost use Rattle.term_core.specs.declared.ids.TermId.{TermId as Number};
ghost use Rattle.term_core.specs.Tables.{shape_of};
ghost use Rattle.congruence_closure.specs.Listed.{equality_of};

use term_core::{Head, Node, TermId};

/// Gives the sides of an equality. It takes no memory.
pub(crate) fn sides_of(node: &Node) -> Option<(TermId, TermId)>
    ensures { MatchOption result ((a b : Number) → shape_of node.now ≡ equality_of a b → ⊥)
        (λ sides. shape_of node.now ≡ equality_of sides.0 sides.1) }
{
    if node.head != Head::Equal {
        return None;
    }
    match node.arguments.as_slice() {
        [a, b] => Some((*a, *b)),
        _ => None,
    }
}
