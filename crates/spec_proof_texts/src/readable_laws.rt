//! What the definitions imply. Each law is a function whose contract is the law; it computes nothing.

ghost use Rattle.std.specs.Prelude.{◌≡◌, ℕ, List, false, true, All, Ok, Contains};
ghost use Rattle.spec_text.specs.Bytes.{Name};
ghost use Rattle.spec_text.specs.Trees.{Tree};
ghost use Rattle.spec_sorts.specs.Numerals.{literal_value, is_wide};
ghost use Rattle.spec_sorts.specs.Terms.{Term, filled};
ghost use Rattle.spec_sorts.specs.Signatures.{Definition, Signature, with_definitions};
ghost use Rattle.spec_reading.specs.Names.{Setting};
ghost use Rattle.spec_reading.specs.Reading.{Bound, Reading, reading};
ghost use Rattle.spec_reading.specs.Definitions.{Parts, definitions_in};
ghost use Rattle.spec_commands.specs.Stack.{Assertion, Stack, Taken, empty_stack, signature_of, assertions_of, step};
ghost use Rattle.spec_commands.specs.Checks.{Check, asked, IsCurrent};
ghost use Rattle.spec_commands.specs.Kept.{IsSoundStack};
ghost use Rattle.spec_arithmetic.specs.Numbers.{IsLinear};
ghost use Rattle.spec_derivations.specs.Problems.{Problem, terms_of_problem, known_terms, problem_of};
ghost use Rattle.spec_derivations.specs.Orders.{whole_terms};
ghost use Rattle.spec_derivations.specs.Lemmas.{IsMadeOf};
ghost use Rattle.spec_derivations.specs.Spent.{IsAtomOf};
ghost use Rattle.spec_proof_texts.specs.Decimals.{is_decimal};
ghost use Rattle.spec_proof_texts.specs.Printable.{IsReadable};
ghost use Rattle.spec_proof_texts.specs.Readable.{HasDecimals, IsReadableWhole, AreReadable, HaveReadableDefinitions};

/// States that each literal that is not too wide to be read has a value that is a decimal, whatever its bytes are.
pub fn read_numbers_are_decimals()
    ensures { (bytes : List ℕ) → is_wide bytes ≡ false → is_decimal (literal_value bytes) ≡ true }
{
    crate::laws::literals_are_decimals();
}

/// States that the head of a linear term with decimals can be read before its arguments.
pub fn linear_terms_with_decimals_are_readable()
    ensures { (t : Term) → IsLinear t → HasDecimals t → IsReadable t }
{}

/// States that a term that is readable whole remains so with such arguments for its parameters.
pub fn filled_terms_are_readable()
    ensures { (ts : List Term) (t : Term) → All IsReadableWhole ts → IsReadableWhole t
        → IsReadableWhole (filled ts t) }
{}

/// States that what a text is read as is readable whole, where the terms of bound names and of definitions are. It is
/// so of its term, of the definitions that it makes, and of a definition with those that its body makes.
pub fn readings_are_readable()
    ensures term { (w : Setting) (s : Signature) (b : Bound) (t : Tree) (r : Reading) → AreReadable s
        → reading w s b t ≡ Ok r → All (λ (p : Name × Term). IsReadableWhole p.1) b → IsReadableWhole r.term }
    ensures made { (w : Setting) (s : Signature) (b : Bound) (t : Tree) (r : Reading) → AreReadable s
        → reading w s b t ≡ Ok r → All (λ (p : Name × Term). IsReadableWhole p.1) b
        → AreReadable (with_definitions s r.made) }
    ensures defined { (w : Setting) (s : Signature) (d : Parts) (ds : List Definition) → AreReadable s
        → definitions_in w s d ≡ Ok ds → AreReadable (with_definitions s ds) }
{
    read_numbers_are_decimals();
}

/// States that commands leave definitions that are readable whole, up to each level. There is none at first. A command
/// that is taken leaves such where those before it are.
pub fn commands_leave_readable_definitions()
    ensures first { HaveReadableDefinitions empty_stack }
    ensures next { (limit : ℕ) (s : Stack) (t : Tree) (d : Taken) → step limit s t ≡ Ok d → HaveReadableDefinitions s
        → HaveReadableDefinitions d.stack }
{
    read_numbers_are_decimals();
}

/// States that the term of each assertion that is kept is readable whole, where the definitions are.
pub fn assertions_are_readable()
    ensures { (limit : ℕ) (s : Stack) → IsSoundStack limit s → AreReadable (signature_of s)
        → All (λ (a : Assertion). IsReadableWhole a.term) (assertions_of s) }
{
    read_numbers_are_decimals();
}

/// States that at a check of a script the definitions are readable whole. So is the term of each expression that it
/// asks about.
pub fn checks_are_readable()
    ensures names { (limit : ℕ) (text : List ℕ) (k : ℕ) (c : Check) → IsCurrent limit text k c
        → AreReadable (signature_of c.stack) }
    ensures asked { (limit : ℕ) (text : List ℕ) (k : ℕ) (c : Check) → IsCurrent limit text k c
        → All (λ (a : Assertion). IsReadableWhole a.term) (asked c) }
    ensures terms { (limit : ℕ) (text : List ℕ) (k : ℕ) (c : Check) (interface : List Term) → IsCurrent limit text k c
        → All IsReadableWhole (terms_of_problem (problem_of c interface)) }
{
    read_numbers_are_decimals();
    spec_commands::assertions_have_their_texts_value();
}

/// States that where the terms of a check and the interface equalities have decimals, so have all that a search over linear
/// arithmetic speaks of. The same holds of terms that are readable whole.
pub fn searched_terms_are_readable()
    ensures decimals { (p : Problem) → All HasDecimals (known_terms p)
        → (t : Term) → Contains (whole_terms p) t → HasDecimals t }
    ensures whole { (p : Problem) → All IsReadableWhole (known_terms p)
        → (t : Term) → Contains (whole_terms p) t → IsReadableWhole t }
{}

/// States that where the terms of a check and the interface equalities are readable whole, so is all that lemmas and learned
/// clauses may be over.
pub fn search_makes_readable_terms()
    ensures lemmas { (p : Problem) → All IsReadableWhole (known_terms p)
        → (t : Term) → IsMadeOf (whole_terms p) t → IsReadableWhole t }
    ensures atoms { (p : Problem) → All IsReadableWhole (known_terms p)
        → (t : Term) → IsAtomOf p t → IsReadableWhole t }
{}
