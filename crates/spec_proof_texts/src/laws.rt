//! What the definitions imply. Each law is a function whose contract is the law; it computes nothing.

ghost use Rattle.std.specs.Prelude.{◌≡◌, ℕ, ◌+◌, ◌*◌, ◌≤◌, true, false, List, [], ◌∷◌, ◌++◌, length, map, All, Some, None, Ok, codes};
ghost use Rattle.spec_text.specs.Bytes.{is_digit};
ghost use Rattle.spec_text.specs.Lexicon.{Consists, IsNumeral};
ghost use Rattle.spec_text.specs.Lexemes.{Lexeme, lexemes_from};
ghost use Rattle.spec_text.specs.Trees.{Tree, Trees, spelled};
ghost use Rattle.spec_text.specs.Printed.{SameTrees};
ghost use Rattle.spec_sorts.specs.Terms.{Term};
ghost use Rattle.spec_numbers.specs.Fractions.{Fraction};
ghost use Rattle.spec_sorts.specs.Numerals.{literal_value, is_wide};
ghost use Rattle.spec_sorts.specs.WellSorted.{IsWellSorted};
ghost use Rattle.spec_sorts.specs.Signatures.{Signature, symbols_in};
ghost use Rattle.spec_commands.specs.Stack.{Stack, Taken, empty_stack, signature_of, terms_asserted, step};
ghost use Rattle.spec_commands.specs.Checks.{Check, asked, term_limit, IsCurrent};
ghost use Rattle.spec_checking.specs.Good.{AreGood, IsGood};
ghost use Rattle.spec_checking.specs.Assumes.{assumed_in};
ghost use Rattle.spec_checking.specs.Accepted.{IsAccepted};
ghost use Rattle.spec_proofs.specs.Texts.{IsWholeText};
ghost use Rattle.spec_derivations.specs.Derivations.{Derivation, conclusion_at, IsDerivation, IsDerivedFrom};
ghost use Rattle.spec_models.specs.Values.{trees_of, fraction_tree};
ghost use Rattle.spec_proof_texts.specs.Decimals.{is_decimal};
ghost use Rattle.spec_proof_texts.specs.Lines.{Line, line_tree, proof_text};
ghost use Rattle.spec_checking.specs.Limits.{LeaveRoom};
ghost use Rattle.spec_proof_texts.specs.Meaning.{AreSpelled, AreRightLines};
ghost use Rattle.spec_proof_texts.specs.Plans.{Plan, terms_planned, lines_of, IsPlan};
ghost use Rattle.spec_proof_texts.specs.Printable.{IsPrintable, ArePrintable, AllConcludeOver, IsReadable};
ghost use Rattle.spec_proof_texts.specs.ReadBack.{IsWritableLine, AreScriptNames, HaveScriptNames, known_before};

/// States that the lines of an inference that is derived from terms and has the empty clause are a proof from these
/// terms.
pub fn planned_lines_are_right()
    ensures { (g : Signature) (terms asserted : List Term) (d : Derivation) (n : ℕ) (plan : Plan)
        → ArePrintable g terms d n → AllConcludeOver terms d → IsDerivation d
        → IsDerivedFrom asserted d n → conclusion_at d n ≡ [] → IsPlan terms d n plan
        → AreRightLines g asserted (lines_of terms d plan) }
{}

/// States which terms can be printed: well-sorted ones over the symbols of a script, whose heads can be read before their
/// arguments.
pub fn well_sorted_terms_are_printable()
    ensures { (g : Signature) (t : Term) → AreScriptNames g → IsWellSorted (symbols_in g) [] t → IsReadable t
        → IsPrintable g t }
{}

/// States that each numeral and each decimal of the lexicon that is not too wide to be read has a value that is printed as a
/// decimal. So the numbers that a text has can be printed.
pub fn literals_are_decimals()
    ensures numeral { (ds : List ℕ) → IsNumeral ds → is_wide ds ≡ false → is_decimal (literal_value ds) ≡ true }
    ensures decimal { (ds : List ℕ) (f : ℕ) (fs : List ℕ) → IsNumeral ds → Consists is_digit (f ∷ fs)
        → is_wide (ds ++ 46 ∷ f ∷ fs) ≡ false → is_decimal (literal_value (ds ++ 46 ∷ f ∷ fs)) ≡ true }
{}

/// States that numbers can be arguments of steps: each as it is written as a value.
pub fn numbers_are_given()
    ensures { (qs : List Fraction) → AreSpelled (trees_of (map fraction_tree qs)) }
{}

/// States that the text of lines is read back, the whole of it, as commands in one list and nothing else, which are the
/// lines but for offsets and the bars of symbols.
pub fn printed_proofs_are_read()
    ensures { (lines : List Line) → All IsWritableLine lines
        → (commands : Trees) × IsWholeText (proof_text lines) commands
        × SameTrees (trees_of (map line_tree lines)) commands }
{}

/// States that lines which are right under the names of a script are read back, the whole of their text, as good
/// commands. A definition has 23 bytes or more. A number of more than five bytes takes seven, with the blank before it;
/// shorter ones and the truth values are at most 177,158, and terms in place 900,000. So the commands are within a limit
/// with room for the names: the script's, and one for each 23 bytes of the text. It also has room for the terms: the
/// script's symbols, those 1,077,158, and one for each seven bytes.
pub fn right_lines_are_good()
    ensures commands { (g : Signature) (asserted : List Term) (lines : List Line) → AreScriptNames g
        → AreRightLines g asserted lines
        → (commands : Trees) × IsWholeText (proof_text lines) commands
        × AreGood None (known_before g asserted) commands }
    ensures within { (limit : ℕ) (g : Signature) (asserted : List Term) (lines : List Line) → AreScriptNames g
        → AreRightLines g asserted lines → 23 * length g + length (proof_text lines) ≤ 23 * limit
        → 7 * (length (symbols_in g) + 1077158) + length (proof_text lines) ≤ 7 * limit
        → (commands : Trees) × IsWholeText (proof_text lines) commands
        × AreGood (Some limit) (known_before g asserted) commands }
{}

/// States that the text of a derivation's lines, which can be printed, assumes the terms of the assumptions that have a
/// number, in their order, and nothing else.
pub fn printed_proofs_assume_what_is_planned()
    ensures { (g : Signature) (terms asserted : List Term) (d : Derivation) (n : ℕ) (plan : Plan) → AreScriptNames g
        → ArePrintable g terms d n → AllConcludeOver terms d → IsDerivation d → IsDerivedFrom asserted d n
        → IsPlan terms d n plan
        → assumed_in (known_before g asserted) (proof_text (lines_of terms d plan)) ≡ terms_planned d plan.inferences }
{}

/// States that the commands of a script leave names that can be printed, up to each level. None is there at first, and a
/// command that is in a text leaves such names where those before it can be printed.
pub fn commands_leave_script_names()
    ensures first { HaveScriptNames empty_stack }
    ensures next { (limit : ℕ) (s : Stack) (text : List ℕ) (from : ℕ) (t : Tree) (rest : List (ℕ × Lexeme)) (d : Taken)
        → lexemes_from text from ≡ spelled t ++ rest → step limit s t ≡ Ok d → HaveScriptNames s
        → HaveScriptNames d.stack }
{}

/// States that the names at a check of a script can be printed. They are no more than a fifth of its bytes, and declared
/// symbols no more than an eleventh, by the keywords that make them.
pub fn checks_have_script_names()
    ensures names { (limit : ℕ) (script : List ℕ) (k : ℕ) (c : Check) → IsCurrent limit script k c
        → AreScriptNames (signature_of c.stack) }
    ensures few { (limit : ℕ) (script : List ℕ) (k : ℕ) (c : Check) → IsCurrent limit script k c
        → 5 * length (signature_of c.stack) ≤ length script }
    ensures symbols { (limit : ℕ) (script : List ℕ) (k : ℕ) (c : Check) → IsCurrent limit script k c
        → 11 * length (symbols_in (signature_of c.stack)) ≤ length script }
{}

/// States that lines which are right under what is current at a check of a script, whatever the limit on terms is, are a
/// good proof of that check, alone and after the answer `unsat`.
pub fn printed_proofs_are_good()
    ensures alone { (limit : ℕ) (script : List ℕ) (k : ℕ) (c : Check) (lines : List Line)
        → IsCurrent limit script k c → AreRightLines (signature_of c.stack) (terms_asserted (asked c)) lines
        → IsGood limit script k (proof_text lines) }
    ensures answered { (limit : ℕ) (script : List ℕ) (k : ℕ) (c : Check) (lines : List Line)
        → IsCurrent limit script k c → AreRightLines (signature_of c.stack) (terms_asserted (asked c)) lines
        → IsGood limit script k (codes "unsat\n" ++ proof_text lines) }
{
    checks_have_script_names();
}

/// States that such lines are an accepted proof of the check, alone and after the answer `unsat`, where script and text
/// have at most 2^26 bytes. Then there is room for all names and terms.
pub fn printed_proofs_are_accepted()
    ensures alone { (script : List ℕ) (k : ℕ) (c : Check) (lines : List Line) → IsCurrent term_limit script k c
        → AreRightLines (signature_of c.stack) (terms_asserted (asked c)) lines
        → LeaveRoom script (proof_text lines) → IsAccepted script k (proof_text lines) }
    ensures answered { (script : List ℕ) (k : ℕ) (c : Check) (lines : List Line) → IsCurrent term_limit script k c
        → AreRightLines (signature_of c.stack) (terms_asserted (asked c)) lines
        → LeaveRoom script (codes "unsat\n" ++ proof_text lines)
        → IsAccepted script k (codes "unsat\n" ++ proof_text lines) }
{
    checks_have_script_names();
}
