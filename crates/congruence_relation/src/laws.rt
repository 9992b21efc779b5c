//! What the definitions imply. Each law is a function whose contract is the law; it computes nothing.

ghost use Rattle.std.specs.Prelude.{◌↔◌, ◌≡◌, List, map};
ghost use Rattle.spec_equality.specs.Congruence.{IsCongruent as AreEqual, IsRefuted as AreRefuted};
ghost use Rattle.term_core.specs.declared.ids.TermId.{TermId as Number};
ghost use Rattle.term_core.specs.Symbols.{AreDeclared};
ghost use Rattle.term_core.specs.Tables.{TableView, Extends, IsIn, AreDifferent, term_at, literal_at};
ghost use Rattle.explain_forest.specs.declared.types.Edge.{Edge};
ghost use Rattle.explain_forest.specs.Forest.{Linked};
ghost use Rattle.congruence_relation.specs.Relation.{Facts, IsCongruentIn, FactsAreRefuted, AreMore, AreFactsOf, terms_listed};
ghost use Rattle.congruence_relation.specs.Edges.{EdgesHaveReasons, IsClosed};

/// States that edges with reasons link congruent terms alone, and that closed edges link all of them.
///
/// Source: Nelson and Oppen, Fast decision procedures based on congruence closure, JACM 1980.
pub fn closed_edges_are_exact()
    ensures sound { (f : Facts) (es : List Edge) → EdgesHaveReasons f es
        → (a b : Number) → Linked es a.0 b.0 → IsCongruentIn f a b }
    ensures complete { (f : Facts) (es : List Edge) → IsClosed f es
        → (a b : Number) → IsCongruentIn f a b → Linked es a.0 b.0 }
{}

/// States that the congruence by numbers is that of the terms of a table. No term is in it twice, and no sort or symbol has
/// the name of another.
pub fn numbers_and_terms_agree()
    ensures { (t : TableView) (f : Facts) → AreDifferent t.terms → AreDeclared t.sorts t.symbols → AreFactsOf t f
        → (a b : Number) → IsIn t a → IsIn t b
        → IsCongruentIn f a b ↔ AreEqual (terms_listed t f) (map (literal_at t) f.held) (term_at t a) (term_at t b) }
{}

/// States that held literals are refuted by numbers exactly where they are refuted over the terms of such a table.
pub fn refutations_agree()
    ensures { (t : TableView) (f : Facts) → AreDifferent t.terms → AreDeclared t.sorts t.symbols → AreFactsOf t f
        → FactsAreRefuted f ↔ AreRefuted (terms_listed t f) (map (literal_at t) f.held) }
{}

/// States that congruent numbers stay so where more terms are listed or more literals held. Edges keep their reasons.
pub fn more_facts_keep_reasons()
    ensures congruent { (f g : Facts) → AreMore f g → (a b : Number) → IsCongruentIn f a b → IsCongruentIn g a b }
    ensures reasons { (f g : Facts) (es : List Edge) → AreMore f g → EdgesHaveReasons f es → EdgesHaveReasons g es }
{}

/// States that facts of a table are facts of each table that extends it, and mean the same terms and literals there.
pub fn facts_stay_over_more_terms()
    ensures of { (t u : TableView) (f : Facts) → Extends t u → AreFactsOf t f → AreFactsOf u f }
    ensures listed { (t u : TableView) (f : Facts) → Extends t u → AreFactsOf t f → terms_listed u f
        ≡ terms_listed t f }
    ensures held { (t u : TableView) (f : Facts) → Extends t u → AreFactsOf t f
        → map (literal_at u) f.held ≡ map (literal_at t) f.held }
{}
