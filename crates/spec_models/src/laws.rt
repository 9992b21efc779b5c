//! Laws of models' texts: functions with empty bodies, whose clauses are proved of the definitions.

ghost use Rattle.std.specs.Prelude.{◌≡◌, ℕ, ◌^◌, ◌<◌, decimal, List, [], ◌++◌, All};
ghost use Rattle.spec_text.specs.Trees.{Tree, Trees, list, none, more, IsRead};
ghost use Rattle.spec_text.specs.Printed.{printed};
ghost use Rattle.spec_sorts.specs.Terms.{Sort, Symbol, Term};
ghost use Rattle.spec_sorts.specs.Values.{Value, TableRow, Interpretation, Interprets, HasSort};
ghost use Rattle.spec_sorts.specs.WellSorted.{IsWellSorted};
ghost use Rattle.spec_sorts.specs.TermValues.{value_at};
ghost use Rattle.spec_sorts.specs.Signatures.{Signature};
ghost use Rattle.spec_sorts.specs.Meaning.{Meaning, Bindings, value_of};
ghost use Rattle.spec_models.specs.Values.{numeral, value_text};
ghost use Rattle.spec_models.specs.Models.{body_tree, body_front, body_back, model_text};
ghost use Rattle.spec_models.specs.Meaning.{model_value, HasNoElement, DefineAll, IsSortIn, IsSymbolIn};

/// States that what std writes of a number by `{}` is its numeral, up to 64 digits.
pub fn numerals_are_decimal()
    ensures { (n : ℕ) → n < 10 ^ 64 → numeral n ≡ decimal n }
{}

/// States that what is printed of a value of a sort that a signature has is read as one tree with that value.
/// Source: SMT-LIB 2.6, sections 3.6 and 4.2.6.
pub fn printed_values_read_back()
    ensures { (g : Signature) (s : Sort) (v : Value) → IsSortIn g s → HasSort s v
        → (t : Tree) × IsRead (value_text v) (more t none) × ((m : Meaning) → model_value m [] t ≡ v) }
{}

/// States that a printed model is read as one list of definitions, one for each symbol in its order. The body of each
/// has at all arguments the value that the interpretation gives the symbol: so the text says the values of all symbols.
/// Source: SMT-LIB 2.6, sections 4.1.8 and 4.2.6.
pub fn model_texts_say_their_interpretation()
    ensures { (i : Interpretation) (g : Signature) (symbols : List Symbol) → All (IsSymbolIn g) symbols
        → Interprets i symbols
        → (ts : Trees) × (end : ℕ) × IsRead (model_text i symbols) (more (list 0 ts end) none)
        × DefineAll i g symbols ts }
{}

/// States that interpretations which one model's text defines give each well-sorted term one value. So what an
/// interpretation makes true, each one with its text makes true.
pub fn interpretations_of_one_text_agree()
    ensures { (i j : Interpretation) (g : Signature) (symbols : List Symbol) (ts : Trees) → DefineAll i g symbols ts
        → DefineAll j g symbols ts → (parameters : List Sort) (t : Term) (vs : List Value)
        → IsWellSorted symbols parameters t → value_at i vs t ≡ value_at j vs t }
{}

/// States that in the text of a model, too, what has no element in it has the value that it has in a script.
/// Source: SMT-LIB 2.6, section 5.3.
pub fn other_texts_mean_what_they_do_in_scripts()
    ensures { (m : Meaning) (b : Bindings) (t : Tree) → HasNoElement t → model_value m b t ≡ value_of m b t }
{}

/// States that the body of a table is printed row after row: what opens for each row, the default, and what closes for
/// each row.
pub fn bodies_are_printed_by_rows()
    ensures { (rows : List TableRow) (default : Value)
        → printed (body_tree rows default) ≡ body_front rows ++ value_text default ++ body_back rows }
{}
