//! Whether a clause has the terms of a list.

ghost use Rattle.std.specs.Prelude.{[], ◌∷◌, ◌≡◌, ◌≢◌, ◌<◌, ◌≤◌, length, Contains, MatchBool, MatchOption};
ghost use Rattle.spec_proofs.specs.Resolution.{IsWithin};

use term_core::TermId;

/// Tells whether two numbers are one.
pub(crate) fn same_number(a: TermId, b: TermId) -> bool
    ensures { MatchBool result (a ≡ b) (a ≢ b) }
{
    a == b
}

/// Gives the one term of a list, or nothing where it has none or several.
pub(crate) fn alone(ids: &[TermId]) -> Option<TermId>
    ensures { MatchOption result (length ids.now ≢ 1) (λ id. ids.now ≡ id ∷ []) }
{
    let [id] = ids else {
        return None;
    };
    Some(*id)
}

/// Gives the first place of a term, or nothing where it has none.
fn place_in(ids: &[TermId], id: TermId) -> Option<usize>
    ensures { MatchOption result (Contains ids.now id → ⊥) (λ place. (place < length ids.now) × Contains ids.now id) }
{
    for (place, other) in ids.iter().enumerate() {
        if same_number(*other, id) {
            return Some(place);
        }
    }
    None
}

/// Tells whether a term is one of a list.
pub(crate) fn has_number(ids: &[TermId], id: TermId) -> bool
    ensures { MatchBool result (Contains ids.now id) (Contains ids.now id → ⊥) }
{
    place_in(ids, id).is_some()
}

/// Gives a place of a term, where the places from `from` on are looked at before those before it, or nothing where it has none.
fn place_around(ids: &[TermId], id: TermId, from: usize) -> Option<usize>
    requires { from ≤ length ids.now }
    ensures { MatchOption result (Contains ids.now id → ⊥) (λ place. (place < length ids.now) × Contains ids.now id) }
{
    let (before, rest) = ids.split_at(from);
    if let Some(place) = place_in(rest, id) {
        return Some(from + place);
    }
    place_in(before, id)
}

/// Tells whether the clause has each term of the list.
///
/// The look for a term begins at the place of the term before it, and goes on from the prefix at the clause's end. So it takes time
/// in proportion to both lengths where the terms are in the clause's order, with gaps or repeats; far out of that order the
/// lengths are multiplied, since a set of the clause's terms would take memory, which the rules on single premises do without.
pub(crate) fn has_each(clause: &[TermId], ids: &[TermId]) -> bool
    ensures { MatchBool result (IsWithin ids.now clause.now) (IsWithin ids.now clause.now → ⊥) }
{
    let mut last = 0;
    for id in ids {
        match place_around(clause, *id, last) {
            Some(place) => last = place,
            None => return false,
        }
    }
    true
}
