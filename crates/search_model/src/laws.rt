//! What the model of a search means. Each law is a function whose contract is the law; it computes nothing.

ghost use Rattle.std.specs.Prelude.{ℕ, List, map};
ghost use Rattle.spec_numbers.specs.Fractions.{Fraction};
ghost use Rattle.spec_sorts.specs.Terms.{Term};
ghost use Rattle.spec_sorts.specs.Values.{Interpretation};
ghost use Rattle.spec_valuations.specs.Classes.{class_in};
ghost use Rattle.spec_valuations.specs.Saturation.{values_of as values_at_saturation};
ghost use Rattle.spec_valuations.specs.Tables.{IsModelBy};
ghost use Rattle.term_core.specs.declared.ids.Lit.{Lit};
ghost use Rattle.term_core.specs.declared.ids.TermId.{TermId};
ghost use Rattle.term_core.specs.NameLists.{HaveNoTwice};
ghost use Rattle.term_core.specs.Symbols.{names_of};
ghost use Rattle.term_core.specs.Tables.{TableView, clause_at};
ghost use Rattle.term_walks.specs.declared.values.Interp.{Interp};
ghost use Rattle.term_walks.specs.Valuations.{HasSymbolTables};
ghost use Rattle.search_model.specs.Models.{truths_of, values_of, TakeNumbersOf, IsModelOf};

/// States that the tables of a search's model are those of an interpretation, where no name of a symbol occurs twice.
/// Each that has them is the one that the values of the listed terms give.
pub fn made_models_have_interpretations()
    ensures represents { (t : TableView) (held : List Lit) (terms : List TermId) (classes : List ℕ)
        (numbers : List Fraction) (interp : Interp) → HaveNoTwice (names_of t.symbols)
        → IsModelOf t held terms classes numbers interp → (i : Interpretation) × HasSymbolTables t interp i }
    ensures models { (t : TableView) (held : List Lit) (terms : List TermId) (classes : List ℕ)
        (numbers : List Fraction) (interp : Interp) → IsModelOf t held terms classes numbers interp
        → (i : Interpretation) → HasSymbolTables t interp i
        → IsModelBy i (values_of t held terms classes numbers) t.symbols (clause_at t terms) }
{}

/// States that a model made with the numbers of a function of terms has the tables of a saturated search on them. The
/// arguments of sort Real are listed, with the numbers of their heads.
pub fn made_models_are_those_of_numbers()
    ensures { (t : TableView) (held : List Lit) (terms : List TermId) (classes : List ℕ) (number : Term → Fraction)
        (interp : Interp) → TakeNumbersOf number (clause_at t terms)
        → IsModelOf t held terms classes (map number (clause_at t terms)) interp
        → (i : Interpretation) → HasSymbolTables t interp i
        → IsModelBy i (values_at_saturation (record {
          truths = truths_of t held;
          class = class_in (clause_at t terms) classes;
          number = number;
        })) t.symbols (clause_at t terms) }
{}
