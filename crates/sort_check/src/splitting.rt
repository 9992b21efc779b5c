//! The parts of `let`.

ghost use Rattle.std.specs.Prelude.{◌≡◌, option_map, IfSome};
ghost use Rattle.smt_sexpr.specs.Items.{trees_meant, tree_meant};
ghost use Rattle.spec_text.specs.Trees.{more, none};
ghost use Rattle.sort_check.specs.Splitting.{first_binding, let_parts, binding_meant, let_meant};

use smt_sexpr::{Trees, Word, list_first, list_inside, split, want_end, word_first};

/// Takes the first binding off: its name, its term, and the bindings after it; `None` where no binding is first.
///
/// The term is alone. Source: SMT-LIB 2.6, section 3.6.1.
#[tactic(auto, unfolding(crate::specs::Splitting::first_binding))]
pub fn first_binding(bindings: Trees<'_>) -> Option<(Word<'_>, Trees<'_>, Trees<'_>)>
    ensures gives { option_map binding_meant result ≡ first_binding (trees_meant bindings.entry) }
    ensures alone { IfSome result (λ x. trees_meant x.1 ≡ more (tree_meant x.1) none) }
{
    let (first, left) = split(bindings)?;
    let (_, inside) = list_inside(first)?;
    let (name, rest) = word_first(inside)?;
    let (term, others) = split(rest)?;
    want_end(others)?;
    Some((name, term, left))
}

/// Takes the bindings and the body of a `let` apart, of which the body is alone; `None` where it has another shape.
///
/// Source: SMT-LIB 2.6, section 3.6.1.
#[tactic(auto, unfolding(crate::specs::Splitting::let_parts))]
pub fn let_parts(arguments: Trees<'_>) -> Option<(Trees<'_>, Trees<'_>)>
    ensures gives { option_map let_meant result ≡ let_parts (trees_meant arguments.entry) }
    ensures alone { IfSome result (λ x. trees_meant x.1 ≡ more (tree_meant x.1) none) }
{
    let (bindings, rest) = list_first(arguments)?;
    let (body, others) = split(rest)?;
    want_end(others)?;
    Some((bindings, body))
}
