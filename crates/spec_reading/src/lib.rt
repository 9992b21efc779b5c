//! Definitions about reading: the sort of a text, the term that a text is read as, the names that it makes, or its first
//! fault with its place.
//!
//! Nothing here runs. The functions with empty bodies are laws: what they ensure is proved of the definitions in
//! `specs/`.
#![tactic(auto)]

ghost use Rattle.std.specs.Prelude.{◌≡◌, List, [], All, Ok, Err};
ghost use Rattle.spec_text.specs.Trees.{Tree};
ghost use Rattle.spec_text.specs.Faults.{Located};
ghost use Rattle.spec_text.specs.Offsets.{HasOffset};
ghost use Rattle.spec_text.specs.Bytes.{Name};
ghost use Rattle.spec_sorts.specs.Terms.{Sort, Term};
ghost use Rattle.spec_sorts.specs.WellSorted.{IsWellSorted};
ghost use Rattle.spec_sorts.specs.Values.{Value, Interpretation};
ghost use Rattle.spec_sorts.specs.TermValues.{value_at};
ghost use Rattle.spec_sorts.specs.Signatures.{Definition, Signature, symbols_in, with_definitions};
ghost use Rattle.spec_sorts.specs.Meaning.{Meaning, value_of, meaning_of, value_under};
ghost use Rattle.spec_reading.specs.Names.{Setting, script};
ghost use Rattle.spec_reading.specs.Sorts.{sort_in};
ghost use Rattle.spec_reading.specs.Reading.{Bound, Reading, reading};
ghost use Rattle.spec_reading.specs.Definitions.{Parts, definitions_in};
ghost use Rattle.spec_reading.specs.WellSorted.{AreWellSorted};
ghost use Rattle.spec_reading.specs.Agreement.{Agrees, values_bound, AreSound};

/// States that the term which a text is read as has the text's value where bound names have their terms' values, and what
/// the other names give agrees with the signature and with the definitions that the text makes. Source: SMT-LIB 2.6,
/// section 5.3.
pub fn terms_have_their_texts_value_where_names_agree()
    ensures { (w : Setting) (s : Signature) (b : Bound) (t : Tree) (r : Reading) → reading w s b t ≡ Ok r
        → (i : Interpretation) (ps : List Value) (m : Meaning) → Agrees i m (with_definitions s r.made)
        → value_of m (values_bound i ps b) t ≡ value_at i ps r.term }
{}

/// States that the term which an asserted text is read as has the text's value under every interpretation, with the
/// definitions of a sound signature and those that the text makes. Source: SMT-LIB 2.6, section 5.3.
pub fn terms_have_their_texts_value()
    ensures { (s : Signature) (t : Tree) (r : Reading) → AreSound s → reading script s [] t ≡ Ok r
        → (i : Interpretation) → value_under i (with_definitions s r.made) t ≡ value_at i [] r.term }
{}

/// States that in a sound signature each name gives by its text what its term gives. Source: SMT-LIB 2.6, section 4.2.3.
pub fn sound_names_agree()
    ensures { (s : Signature) → AreSound s → (i : Interpretation) → Agrees i (meaning_of i s) s }
{}

/// States that a signature stays sound with the definitions that an asserted text makes, and with a definition and those
/// that its body makes. Source: SMT-LIB 2.6, section 4.2.3.
pub fn readings_keep_signatures_sound()
    ensures asserted { (s : Signature) (t : Tree) (r : Reading) → AreSound s → reading script s [] t ≡ Ok r
        → AreSound (with_definitions s r.made) }
    ensures defined { (w : Setting) (s : Signature) (d : Parts) (ds : List Definition) → AreSound s
        → definitions_in w s d ≡ Ok ds → AreSound (with_definitions s ds) }
{}

/// States that what a text is read as is well sorted, where the signature is. It is so of the definitions that the text
/// makes. It is so of its term where the terms of bound names are well sorted; outside of bodies there are no parameters.
/// And it is so of a definition and those that its body makes. Source: SMT-LIB 2.6, sections 4.2.3 and 5.2.
pub fn readings_are_well_sorted()
    ensures term { (w : Setting) (s : Signature) (b : Bound) (t : Tree) (r : Reading) (parameters : List Sort)
        → AreWellSorted s → reading w s b t ≡ Ok r
        → All (λ (p : Name × Term). IsWellSorted (symbols_in s) parameters p.1) b
        → IsWellSorted (symbols_in s) parameters r.term }
    ensures made { (w : Setting) (s : Signature) (b : Bound) (t : Tree) (r : Reading) → AreWellSorted s
        → reading w s b t ≡ Ok r → AreWellSorted (with_definitions s r.made) }
    ensures defined { (w : Setting) (s : Signature) (d : Parts) (ds : List Definition) → AreWellSorted s
        → definitions_in w s d ≡ Ok ds → AreWellSorted (with_definitions s ds) }
{}

/// States that the first fault of a text that is read as a term, or as a sort, is at the offset of one of its atoms or
/// lists.
pub fn faults_are_in_their_text()
    ensures term { (w : Setting) (s : Signature) (b : Bound) (t : Tree) (f : Located) → reading w s b t ≡ Err f
        → HasOffset t f.offset }
    ensures sort { (s : Signature) (t : Tree) (f : Located) → sort_in s t ≡ Err f → HasOffset t f.offset }
{}
