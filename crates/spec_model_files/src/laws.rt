//! What the definitions imply. Each law is a function whose contract is the law; it computes nothing.

ghost use Rattle.std.specs.Prelude.{◌≡◌, ◌≤◌, ◌<◌, ℕ, true, false, List, [], ◌∷◌, ◌++◌, length, All, Option, None};
ghost use Rattle.std.specs.Prelude.{Ok, Err};
ghost use Rattle.spec_text.specs.Trees.{Tree, Trees, spelled_all, offset_of};
ghost use Rattle.spec_text.specs.Lexemes.{opens, closes, lexemes};
ghost use Rattle.spec_text.specs.Readings.{is_long, prefix};
ghost use Rattle.spec_text.specs.Offsets.{HasOffset};
ghost use Rattle.spec_text.specs.Bytes.{Name};
ghost use Rattle.spec_sorts.specs.Terms.{Sort, Symbol};
ghost use Rattle.spec_sorts.specs.Values.{Value, truth, number, Table, first_fit, Interpretation};
ghost use Rattle.spec_sorts.specs.BoundedValues.{bounded_value};
ghost use Rattle.spec_sorts.specs.Signatures.{Signature, symbols_in};
ghost use Rattle.spec_sorts.specs.Meaning.{Meaning, bind};
ghost use Rattle.spec_reading.specs.Agreement.{AreSound};
ghost use Rattle.spec_commands.specs.Stack.{Assertion, signature_of};
ghost use Rattle.spec_commands.specs.Checks.{Check, asked, term_limit, IsCurrent, MakesTrue};
ghost use Rattle.spec_checking.specs.Accepted.{IsAccepted};
ghost use Rattle.spec_models.specs.Models.{model_text};
ghost use Rattle.spec_models.specs.Meaning.{model_value};
ghost use Rattle.spec_model_files.specs.Faults.{is_of_script, faulty_text, ModelFault, ReadModel};
ghost use Rattle.spec_model_files.specs.Values.{WrittenNumber, number_read, value_read};
ghost use Rattle.spec_model_files.specs.Bodies.{Parameters, body_read};
ghost use Rattle.spec_model_files.specs.Definitions.{DefinedSymbol, definition_read, definitions_read};
ghost use Rattle.spec_model_files.specs.Texts.{behind_sat, ModelEnding, IsModelText};
ghost use Rattle.spec_model_files.specs.Verdicts.{IsModelReading, SaysInterpretation, IsModelVerdict};
ghost use Rattle.spec_model_files.specs.Limits.{IsPrintable};
ghost use Rattle.spec_model_files.specs.Meaning.{HasOwnSortNames, HaveOwnNames};

/// States that the fault of a definition of a model file is at the offset of one of its atoms or lists, and so is that
/// of a value.
pub fn faults_are_in_their_definition()
    ensures definition { (g : Signature) (names : List Name) (t : Tree) (f : ModelFault)
        → definition_read g names t ≡ Err f → HasOffset t f.offset }
    ensures value { (g : Signature) (s : Sort) (t : Tree) (f : ModelFault) → value_read g s t ≡ Err f
        → HasOffset t f.offset }
{}

/// States that the first fault of a model file lies in it, or at its end, and is none of the script's.
pub fn faults_are_in_their_file()
    ensures { (g : Signature) (text : List ℕ) (f : ModelFault) → IsModelReading g text (Err f)
        → (f.offset ≤ length text) × (is_of_script f.kind ≡ false) }
{
    spec_text::laws::trees_are_in_their_text();
    spec_text::laws::lexical_faults_are_in_their_text();
}

/// States that the fault of a verdict lies in the text that it is of, the script or the model file, or at its end.
pub fn model_verdicts_are_in_their_text()
    ensures { (script model : List ℕ) (k : ℕ) (f : ModelFault) → IsModelVerdict script k model (Some f)
        → f.offset ≤ length (faulty_text script model f.kind) }
{
    faults_are_in_their_file();
    what_is_asked_is_in_its_script();
}

/// States that a model file that says an interpretation is no longer than it may be. It is the definitions that are
/// read, in one list, after the word `sat` or without it, and nothing else.
pub fn read_model_files_are_one_list()
    ensures { (g : Signature) (text : List ℕ) (ds : List DefinedSymbol) → IsModelReading g text (Ok ds)
        → (is_long text ≡ false)
        × (at : ℕ) × (ts : Trees) × (end : ℕ)
        × (behind_sat (lexemes 0 0 text) ≡ (at, opens) ∷ spelled_all ts ++ (end, closes) ∷ [])
        × (definitions_read g [] ts ≡ Ok ds) }
{}

/// States that a model file is one row of definitions with one ending. So it is read as one list of tables, or has one
/// first fault.
pub fn model_files_have_one_reading()
    ensures text { (text : List ℕ) (ts us : Trees) (e f : ModelEnding) → IsModelText text ts e → IsModelText text us f
        → (ts ≡ us) × (e ≡ f) }
    ensures reading { (g : Signature) (text : List ℕ) (a b : ReadModel (List DefinedSymbol)) → IsModelReading g text a
        → IsModelReading g text b → a ≡ b }
{
    spec_text::laws::lexemes_are_read_up_to_one_end();
}

/// States that a script and a model file have at most one verdict at a check.
pub fn model_verdict_is_one()
    ensures { (script model : List ℕ) (k : ℕ) (a b : Option ModelFault) → IsModelVerdict script k model a
        → IsModelVerdict script k model b → a ≡ b }
{
    spec_text::laws::lexemes_are_read_up_to_one_end();
    spec_commands::texts_have_one_check_of_a_number();
}

/// States what a verdict without a fault means. The file says an interpretation of the check's symbols, with tables of
/// their sorts, under which all that the check asks about has the value true. So no proof of that check is accepted.
/// Source: SMT-LIB 2.6, sections 4.2.5 and 5.3.
pub fn valid_models_make_true()
    ensures model { (script model : List ℕ) (k : ℕ) → IsModelVerdict script k model None
        → (i : Interpretation) × (m : MakesTrue term_limit i script k)
        × SaysInterpretation (signature_of m.here.stack) model i }
    ensures no_proof { (script model proof : List ℕ) (k : ℕ) → IsModelVerdict script k model None
        → IsAccepted script k proof → ⊥ }
{
    spec_commands::assertions_have_their_texts_value();
    spec_commands::what_is_asked_has_its_texts_value();
    spec_checking::laws::acceptance_is_sound();
}

/// States that what is printed of a model is read back. The interpretation has tables of the symbols' sorts, within the
/// bounds on fractions and elements, and its text is no longer than it may be. Then the text says an
/// interpretation that has the same table for each symbol, and so the same value at all arguments.
/// Source: SMT-LIB 2.6, sections 4.1.8 and 4.2.6.
pub fn printed_models_read_back()
    ensures { (g : Signature) (i : Interpretation) → AreSound g → IsPrintable i g
        → (j : Interpretation) × SaysInterpretation g (model_text i (symbols_in g)) j
        × All (λ (s : Symbol). j.table s.name ≡ i.table s.name) (symbols_in g) }
{}

/// States that the model that is printed of a check is valid. The interpretation has tables of the symbols' sorts,
/// within the bounds, and its text is within the limits. Each expression of the check is true under it, and no
/// operation of one leaves the bound on fractions.
pub fn printed_models_are_valid()
    ensures { (script : List ℕ) (k : ℕ) (c : Check) (i : Interpretation) → IsCurrent term_limit script k c
        → IsPrintable i (signature_of c.stack)
        → All (λ (a : Assertion). bounded_value i [] a.term ≡ Ok (truth true)) (asked c)
        → IsModelVerdict script k (model_text i (symbols_in (signature_of c.stack))) None }
{
    spec_commands::assertions_have_their_texts_value();
    spec_commands::what_is_asked_has_its_texts_value();
}

/// States that a model file and a script are read by their prefixes, of 2^30 + 1 bytes each at the most: what these are
/// read as, and the verdict on them, is that of the whole texts.
pub fn model_verdicts_need_a_prefix_alone()
    ensures reading { (g : Signature) (text : List ℕ) (a : ReadModel (List DefinedSymbol))
        → IsModelReading g (prefix text) a → IsModelReading g text a }
    ensures verdict { (script model : List ℕ) (k : ℕ) (found : Option ModelFault)
        → IsModelVerdict (prefix script) k (prefix model) found → IsModelVerdict script k model found }
{}

/// States that what a check asks about begins in its script.
pub fn what_is_asked_is_in_its_script()
    ensures { (limit : ℕ) (text : List ℕ) (k : ℕ) (c : Check) → IsCurrent limit text k c
        → All (λ (a : Assertion). offset_of a.text < length text) (asked c) }
{
    spec_text::laws::trees_are_in_their_text();
}

/// States that what is read of a file is what its text means. A number is the value of its text. A table gives at all
/// arguments the value of its body where the parameters have these as values. Sorts and parameters have names of their
/// own there, and none of a theory. In other files a value is read as a value, whatever a parameter is called.
/// Source: SMT-LIB 2.6, section 5.3, theories Core and Reals.
pub fn bodies_have_their_texts_value()
    ensures number { (t : Tree) (x : WrittenNumber) → number_read t ≡ Ok x → (m : Meaning)
        → model_value m [] t ≡ number x.fraction }
    ensures body { (g : Signature) (ps : Parameters) (s : Sort) (t : Tree) (table : Table) → HasOwnSortNames g
        → HaveOwnNames ps → body_read g ps s t ≡ Ok table → (m : Meaning) (vs : List Value) → length vs ≡ length ps
        → model_value m (bind ps vs) t ≡ first_fit table.rows table.default vs }
{}
