//! Laws of texts, lexemes and trees: functions with empty bodies, whose clauses are proved of the definitions.

ghost use Rattle.std.specs.Prelude.{◌≤◌, length, ◌≡◌, ℕ, ◌<◌, List, ◌∷◌, ◌++◌, Option, Some, None};
ghost use Rattle.spec_text.specs.Lexemes.{lexemes_from, Lexeme, first_piece};
ghost use Rattle.spec_text.specs.Lexicon.{Spells, IsFirst};
ghost use Rattle.spec_text.specs.Trees.{Tree, Trees, none, more, spelled, spelled_all, IsRead};
ghost use Rattle.spec_text.specs.Printed.{printed, SameTree};
ghost use Rattle.spec_text.specs.Offsets.{AllOffsets, AllOffsetsOf};
ghost use Rattle.spec_text.specs.Faults.{Located, first_fault, lexical_fault};
ghost use Rattle.spec_text.specs.Readings.{StopsAt, BeginsNoTree, AreTrees, IsReadUpTo};

/// Says that a text has one reading at most. Source: SMT-LIB 2.6, section 3.2.
pub fn trees_are_unique()
    ensures { (text : List ℕ) (ts us : Trees) → IsRead text ts → IsRead text us → ts ≡ us }
{}

/// Says that a text without a lexical fault has a reading.
pub fn a_text_without_fault_is_read()
    ensures { (text : List ℕ) → lexical_fault text ≡ None → (ts : Trees) × IsRead text ts }
{}

/// Says that a text with a reading has no lexical fault.
pub fn a_read_text_has_no_fault()
    ensures { (text : List ℕ) (ts : Trees) → IsRead text ts → lexical_fault text ≡ None }
{}

/// Says that an s-expression of a text is read back from how it is printed, but for offsets and the bars of symbols.
pub fn printed_trees_read_back()
    ensures { (text : List ℕ) (at : ℕ) (t : Tree) (rest : List (ℕ × Lexeme))
        → lexemes_from text at ≡ spelled t ++ rest → (u : Tree) × IsRead (printed t) (more u none) × SameTree t u }
{}

/// Says that the first lexeme of a text is the longest prefix that the lexicon's table has, and that a text whose first
/// lexeme is a fault begins with none. Source: SMT-LIB 2.6, section 3.1.
pub fn lexemes_are_longest()
    ensures { (b : ℕ) (bs : List ℕ) → IsFirst (b ∷ bs) (first_piece b bs).lexeme (first_piece b bs).size }
{}

/// Says that no bytes are two lexemes. Source: SMT-LIB 2.6, section 3.1.
pub fn spelling_is_unique()
    ensures { (bytes : List ℕ) (x y : Lexeme) → Spells bytes x → Spells bytes y → x ≡ y }
{}

/// Says that a text is s-expressions up to one end, and which these are.
pub fn a_text_is_read_up_to_one_end()
    ensures { (text : List ℕ) (ts us : Trees) (f g : Option Located) → IsReadUpTo text ts f → IsReadUpTo text us g
        → (ts ≡ us) × (f ≡ g) }
{}

/// Says that lexemes are trees up to one end: where what is after the trees begins with no tree, the trees and what is
/// after them are one.
pub fn lexemes_are_read_up_to_one_end()
    ensures { (xs rest others : List (ℕ × Lexeme)) (ts us : Trees) → AreTrees xs ts rest → AreTrees xs us others
        → BeginsNoTree rest → BeginsNoTree others → (ts ≡ us) × (rest ≡ others) }
{}

/// Says that each text is s-expressions, from each offset on and after so many open lists, up to what stops their reading.
pub fn each_text_is_read()
    ensures { (text : List ℕ) (at n : ℕ) → (ts : Trees) × (rest : List (ℕ × Lexeme))
        × AreTrees (lexemes_from text at) ts rest × StopsAt (length text) n rest }
{}

/// Says that the offsets of trees lie in the text that they are in, from the offset on from which it was read: that of
/// one tree before other trees, and of trees after other lexemes.
pub fn trees_are_in_their_text()
    ensures first { (text : List ℕ) (at : ℕ) (t : Tree) (rest : List (ℕ × Lexeme))
        → lexemes_from text at ≡ spelled t ++ rest
        → AllOffsets (λ n. (at ≤ n) × (n < length text)) t }
    ensures all { (text : List ℕ) (at : ℕ) (earlier rest : List (ℕ × Lexeme)) (ts : Trees)
        → lexemes_from text at ≡ earlier ++ (spelled_all ts ++ rest)
        → AllOffsetsOf (λ n. (at ≤ n) × (n < length text)) ts }
{}

/// Says that the first fault of lexemes of a text lies in the text or at its end, after whatever other lexemes and
/// however many open lists.
pub fn lexical_faults_are_in_their_text()
    ensures { (text : List ℕ) (at n : ℕ) (earlier rest : List (ℕ × Lexeme)) (f : Located)
        → lexemes_from text at ≡ earlier ++ rest
        → first_fault (length text) n rest ≡ Some f → f.offset ≤ length text }
{}
