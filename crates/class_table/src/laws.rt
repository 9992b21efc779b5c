//! Laws of classes, as functions without a body.

ghost use Rattle.std.specs.Prelude.{◌≡◌, ◌<◌, ◌≤◌, ◌⊎◌, ◌↔◌, max, ℕ, List, length};
ghost use Rattle.class_table.specs.Classes.{class_at, joined, with_terms, AreSame};

use term_core::TermId;

/// States which terms are in one class after two classes were joined.
///
/// Those are that were before, and each of the one class with each of the other.
pub fn joining_joins_two_classes()
    ensures count { (numbers : List ℕ) (a b : TermId) → length (joined a b numbers) ≡ length numbers }
    ensures same { (numbers : List ℕ) (a b t u : TermId) → t.0 < length numbers → u.0 < length numbers
        → AreSame (joined a b numbers) t u
        ↔ (AreSame numbers t u
        ⊎ (AreSame numbers t a × AreSame numbers u b) ⊎ (AreSame numbers t b × AreSame numbers u a)) }
{}

/// States that terms which are added are each in the class of their own number, and the others stay in theirs.
pub fn adding_adds_terms_alone()
    ensures count { (numbers : List ℕ) (count : ℕ) → length (with_terms count numbers) ≡ max (length numbers) count }
    ensures others { (numbers : List ℕ) (count : ℕ) (t : TermId) → t.0 < length numbers
        → class_at (with_terms count numbers) t ≡ class_at numbers t }
    ensures added { (numbers : List ℕ) (count : ℕ) (t : TermId) → length numbers ≤ t.0 → t.0 < count
        → class_at (with_terms count numbers) t ≡ t.0 }
{}
