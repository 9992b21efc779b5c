//! Definitions about the whole language: sorts, fractions, terms as read, signatures, values, interpretations, and the
//! value of a text.
//!
//! Nothing here runs. The functions with empty bodies are laws: what they ensure is proved of the definitions in
//! `specs/`.
#![tactic(auto)]

ghost use Rattle.std.specs.Prelude.{◌≡◌, Bool, true, List, [], length, map, All, Some, Ok};
ghost use Rattle.spec_text.specs.Bytes.{Name};
ghost use Rattle.spec_sorts.specs.Terms.{Sort, Symbol, Term, same_sorts, sort_of, filled};
ghost use Rattle.spec_sorts.specs.WellSorted.{IsWellSorted, IsFormulaOver};
ghost use Rattle.spec_sorts.specs.Values.{Value, truth, HasSort, HaveSorts, Interpretation, Interprets};
ghost use Rattle.spec_sorts.specs.TermValues.{value_at};
ghost use Rattle.spec_sorts.specs.BoundedValues.{bounded_value};
ghost use Rattle.spec_sorts.specs.Theory.{look_up, sorts_fit, Rule, takes_count, theory};
ghost use Rattle.spec_sorts.specs.Meaning.{theory_values};

pub mod subterms;

/// States that the term which a head of the theories is read as has the value that the head gives at its arguments'
/// values. Source: SMT-LIB 2.6, theories Core and Reals.
pub fn heads_mean_what_they_are_read_as()
    ensures { (n : Name) (r : Rule) → look_up theory n ≡ Some r
        → (f : List Value → Value) × (look_up theory_values n ≡ Some f)
        × ((i : Interpretation) (ps : List Value) (ts : List Term)
        → value_at i ps (r.reads ts) ≡ f (map (value_at i ps) ts)) }
{}

/// States that a term with arguments for its parameters has the value that it has where the parameters have the
/// arguments' values. Source: SMT-LIB 2.6, section 4.2.3.
pub fn filled_terms_have_their_value()
    ensures { (i : Interpretation) (ps : List Value) (ts : List Term) (t : Term)
        → value_at i ps (filled ts t) ≡ value_at i (map (value_at i ps) ts) t }
{}

/// States that a term has the value that is reached where no operation on numbers leaves 128 bits.
pub fn bounded_values_are_values()
    ensures { (i : Interpretation) (ps : List Value) (t : Term) (v : Value) → bounded_value i ps t ≡ Ok v
        → value_at i ps t ≡ v }
{}

/// States that the value of a well-sorted term has the term's sort, under an interpretation of the symbols. The values of
/// the parameters have the parameters' sorts. So a formula has a truth value. Source: SMT-LIB 2.6, section 5.3.
pub fn values_have_their_terms_sort()
    ensures term { (i : Interpretation) (symbols : List Symbol) (parameters : List Sort) (vs : List Value) (t : Term)
        → Interprets i symbols → IsWellSorted symbols parameters t → HaveSorts parameters vs
        → HasSort (sort_of t) (value_at i vs t) }
    ensures formula { (i : Interpretation) (symbols : List Symbol) (t : Term) → Interprets i symbols
        → IsFormulaOver symbols t → (b : Bool) × (value_at i [] t ≡ truth b) }
{}

/// States that what a head of the theories is read as is well sorted. Its arguments are well sorted, and as many and of
/// such sorts as the head takes. Source: SMT-LIB 2.6, section 5.2, theories Core and Reals.
pub fn heads_are_read_as_well_sorted_terms()
    ensures { (n : Name) (r : Rule) → look_up theory n ≡ Some r
        → (symbols : List Symbol) (parameters : List Sort) (ts : List Term) → takes_count r (length ts) ≡ true
        → sorts_fit r.takes (map sort_of ts) ≡ true → All (IsWellSorted symbols parameters) ts
        → IsWellSorted symbols parameters (r.reads ts) }
{}

/// States that a well-sorted term stays so, and of its sort, with well-sorted arguments for its parameters. The arguments
/// have the sorts of the parameters that they stand for. Source: SMT-LIB 2.6, section 4.2.3.
pub fn filled_terms_are_well_sorted()
    ensures { (symbols : List Symbol) (inner outer : List Sort) (ts : List Term) (t : Term)
        → IsWellSorted symbols inner t → same_sorts inner (map sort_of ts) ≡ true → All (IsWellSorted symbols outer) ts
        → IsWellSorted symbols outer (filled ts t) × (sort_of (filled ts t) ≡ sort_of t) }
{}
