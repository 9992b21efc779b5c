//! Definitions about scripts of the whole language: the commands by their shape, what is after them, their first
//! faults, and what is current at a check.
//!
//! Nothing here runs. The functions with empty bodies are laws: what they ensure is proved of the definitions in
//! `specs/`.
#![tactic(auto)]

ghost use Rattle.std.specs.Prelude.{◌≡◌, ℕ, Bool, List, [], All, Ok, Err};
ghost use Rattle.spec_text.specs.Trees.{Tree};
ghost use Rattle.spec_text.specs.Faults.{Located};
ghost use Rattle.spec_text.specs.Offsets.{HasOffset};
ghost use Rattle.spec_sorts.specs.WellSorted.{IsFormulaOver};
ghost use Rattle.spec_sorts.specs.Values.{truth, Interpretation, Interprets};
ghost use Rattle.spec_sorts.specs.Signatures.{symbols_in};
ghost use Rattle.spec_sorts.specs.TermValues.{value_at};
ghost use Rattle.spec_sorts.specs.Meaning.{value_under};
ghost use Rattle.spec_commands.specs.Stack.{Assertion, Stack, check, Taken, empty_stack, signature_of, assertions_of, step};
ghost use Rattle.spec_commands.specs.Checks.{Check, asked, IsCurrent, HasNoCheck};
ghost use Rattle.spec_commands.specs.Kept.{IsAsserted, IsSoundStack};

/// States that the fault of a command of a script is at the offset of one of its atoms or lists.
pub fn faults_are_in_their_command()
    ensures { (limit : ℕ) (s : Stack) (t : Tree) (f : Located) → step limit s t ≡ Err f → HasOffset t f.offset }
{}

/// States that a command of a script asks for a check at the offset of one of its atoms or lists.
pub fn checks_are_in_their_command()
    ensures { (limit : ℕ) (s : Stack) (t : Tree) (d : Taken) (place : ℕ) (assumptions : List Assertion)
        → step limit s t ≡ Ok d → d.effect ≡ check place assumptions → HasOffset t place }
{}

/// States that commands leave what they should, under any limit: nothing is declared or asserted at first. After a
/// command that is taken names give by their texts what their terms give, and definitions stand for well-sorted terms.
/// Assertions have terms that were read of their texts, are of sort Bool and fit in. Later names change no value. It is
/// so up to each level, and so after levels are closed. Source: SMT-LIB 2.6, section 4.1.4.
pub fn commands_keep_stacks()
    ensures first { (limit : ℕ) → IsSoundStack limit empty_stack }
    ensures next { (limit : ℕ) (s : Stack) (t : Tree) (d : Taken) → step limit s t ≡ Ok d → IsSoundStack limit s
        → IsSoundStack limit d.stack }
    ensures value { (limit : ℕ) (s : Stack) (i : Interpretation) → IsSoundStack limit s
        → All (λ (a : Assertion). value_under i (signature_of s) a.text ≡ value_at i [] a.term) (assertions_of s) }
{}

/// States that the text and the term of a current assertion have one value, under every interpretation.
/// Source: SMT-LIB 2.6, section 5.3.
pub fn assertions_have_their_texts_value()
    ensures kept { (limit : ℕ) (text : List ℕ) (k : ℕ) (c : Check) → IsCurrent limit text k c
        → IsSoundStack limit c.stack }
    ensures value { (limit : ℕ) (text : List ℕ) (k : ℕ) (c : Check) → IsCurrent limit text k c → (i : Interpretation)
        → All (λ (a : Assertion). value_under i (signature_of c.stack) a.text ≡ value_at i [] a.term)
        (assertions_of c.stack) }
{}

/// States that each assertion is a formula over the declared symbols. Under an interpretation of these its text has a
/// truth value. It is so after commands that were taken, and so at each check. Source: SMT-LIB 2.6, sections 5.2 and 5.3.
pub fn assertions_are_formulas()
    ensures formula { (limit : ℕ) (s : Stack) → IsSoundStack limit s
        → All (λ (a : Assertion). IsFormulaOver (symbols_in (signature_of s)) a.term) (assertions_of s) }
    ensures value { (limit : ℕ) (s : Stack) (i : Interpretation) → IsSoundStack limit s
        → Interprets i (symbols_in (signature_of s))
        → All (λ (a : Assertion). (b : Bool) × (value_under i (signature_of s) a.text ≡ truth b)) (assertions_of s) }
    ensures at_check { (limit : ℕ) (text : List ℕ) (k : ℕ) (c : Check) → IsCurrent limit text k c
        → (i : Interpretation) → Interprets i (symbols_in (signature_of c.stack))
        → All (λ (a : Assertion). (b : Bool) × (value_under i (signature_of c.stack) a.text ≡ truth b))
        (assertions_of c.stack) }
{}

/// States that a text has at most one check of a number, or none.
pub fn texts_have_one_check_of_a_number()
    ensures one { (limit : ℕ) (text : List ℕ) (k : ℕ) (c d : Check) → IsCurrent limit text k c
        → IsCurrent limit text k d → c ≡ d }
    ensures other { (limit : ℕ) (text : List ℕ) (k : ℕ) (c : Check) → IsCurrent limit text k c
        → HasNoCheck limit text k → ⊥ }
{
    spec_text::laws::a_text_is_read_up_to_one_end();
}

/// States that what a check assumes was read with the names that are there, is of sort Bool and fits in. It is so of the
/// check that a command asks for, and of the one that is current. Source: SMT-LIB 2.6, section 4.2.5.
pub fn assumptions_are_read()
    ensures taken { (limit : ℕ) (s : Stack) (t : Tree) (d : Taken) (place : ℕ) (assumptions : List Assertion)
        → step limit s t ≡ Ok d → d.effect ≡ check place assumptions
        → All (IsAsserted limit (signature_of d.stack)) assumptions }
    ensures current { (limit : ℕ) (text : List ℕ) (k : ℕ) (c : Check) → IsCurrent limit text k c
        → All (IsAsserted limit (signature_of c.stack)) c.assumptions }
{}

/// States that what a check asks about, its assumptions among it, is formulas over the declared symbols. Under every
/// interpretation the text of each has its term's value. Source: SMT-LIB 2.6, sections 5.2 and 5.3.
pub fn what_is_asked_has_its_texts_value()
    ensures value { (limit : ℕ) (text : List ℕ) (k : ℕ) (c : Check) → IsCurrent limit text k c → (i : Interpretation)
        → All (λ (a : Assertion). value_under i (signature_of c.stack) a.text ≡ value_at i [] a.term) (asked c) }
    ensures formula { (limit : ℕ) (text : List ℕ) (k : ℕ) (c : Check) → IsCurrent limit text k c
        → All (λ (a : Assertion). IsFormulaOver (symbols_in (signature_of c.stack)) a.term) (asked c) }
{}
