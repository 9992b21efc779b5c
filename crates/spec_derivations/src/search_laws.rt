//! Which terms a search speaks of, and that its clauses are over them. Each law is a function whose contract is the
//! law; it computes nothing.

ghost use Rattle.std.specs.Prelude.{◌≡◌, ◌≢◌, true, List, [], flat_map, All, Contains};
ghost use Rattle.spec_sorts.specs.Terms.{True, False, Truth, Symbol, Term, of, sort_of};
ghost use Rattle.spec_sorts.specs.WellSorted.{IsWellSorted, IsFormulaOver};
ghost use Rattle.spec_sorts.specs.Subsets.{arguments_of};
ghost use Rattle.spec_sorts.specs.Literals.{Clause, Literal, literal_of, literals_of};
ghost use Rattle.spec_derivations.specs.Problems.{Problem, known_terms, known_subterms};
ghost use Rattle.spec_derivations.specs.Base.{base_clauses, truth_facts, branch_equalities};
ghost use Rattle.spec_derivations.specs.Base.{search_terms, search_clauses};
ghost use Rattle.spec_derivations.specs.Orders.{order_facts, whole_terms, whole_clauses};
ghost use Rattle.spec_derivations.specs.Spent.{IsAtomOf};

/// States which terms a search speaks of. They are the subterms of the check's terms, of the interface equalities and of the
/// two facts about truth values, and the equalities of choices with their branches. With a term its arguments are among
/// them. Those of sort Bool that stand for themselves are atoms of the check, but for the truth values and the two
/// facts. Of formulas over symbols they are well sorted.
pub fn search_terms_are_known()
    ensures subterms { (p : Problem) (u : Term) → Contains (known_subterms p) u → Contains (search_terms p) u }
    ensures closed { (p : Problem) (t u : Term) → Contains (search_terms p) t → Contains (arguments_of t) u
        → Contains (search_terms p) u }
    ensures facts { (p : Problem) (u : Term) → Contains truth_facts u → Contains (search_terms p) u }
    ensures equalities { (p : Problem) (w u : Term) → Contains (search_terms p) w → Contains (branch_equalities w) u
        → Contains (search_terms p) u }
    ensures atoms { (p : Problem) (u : Term) → Contains (search_terms p) u → sort_of u ≡ Truth
        → literal_of u ≡ record { atom = u; positive = true } → u ≢ of True [] → u ≢ of False []
        → (Contains truth_facts u → ⊥) → IsAtomOf p u }
    ensures sorted { (symbols : List Symbol) (p : Problem) → All (IsFormulaOver symbols) (known_terms p)
        → (t : Term) → Contains (search_terms p) t → IsWellSorted symbols [] t }
{}

/// States that the literals of the clauses with which a search begins are over terms of which it speaks.
pub fn search_clauses_are_over_search_terms()
    ensures { (p : Problem) (c : Clause) (l : Literal) → Contains (search_clauses p) c → Contains (literals_of c) l
        → Contains (search_terms p) l.atom }
{}

/// States that the base clauses are among the clauses with which a search begins.
pub fn base_clauses_are_search_clauses()
    ensures { (p : Problem) (c : Clause) → Contains (base_clauses p) c → Contains (search_clauses p) c }
{}

/// States which terms a search over linear arithmetic speaks of. They are those that any search speaks of, and for each
/// equality of numbers its order fact, with its subterms. Of these hold the same laws. The orders are atoms of the check
/// too, but no order fact need be one.
pub fn whole_terms_are_known()
    ensures searched { (p : Problem) (u : Term) → Contains (search_terms p) u → Contains (whole_terms p) u }
    ensures closed { (p : Problem) (t u : Term) → Contains (whole_terms p) t → Contains (arguments_of t) u
        → Contains (whole_terms p) u }
    ensures equalities { (p : Problem) (w u : Term) → Contains (whole_terms p) w → Contains (branch_equalities w) u
        → Contains (whole_terms p) u }
    ensures orders { (p : Problem) (w u : Term) → Contains (whole_terms p) w → Contains (order_facts w) u
        → Contains (whole_terms p) u }
    ensures atoms { (p : Problem) (u : Term) → Contains (whole_terms p) u → sort_of u ≡ Truth
        → literal_of u ≡ record { atom = u; positive = true } → u ≢ of True [] → u ≢ of False []
        → (Contains truth_facts u → ⊥) → (Contains (flat_map order_facts (whole_terms p)) u → ⊥) → IsAtomOf p u }
    ensures sorted { (symbols : List Symbol) (p : Problem) → All (IsFormulaOver symbols) (known_terms p)
        → (t : Term) → Contains (whole_terms p) t → IsWellSorted symbols [] t }
{}

/// States that the literals of the clauses with which a search over linear arithmetic begins are over terms of which it
/// speaks.
pub fn whole_clauses_are_over_whole_terms()
    ensures { (p : Problem) (c : Clause) (l : Literal) → Contains (whole_clauses p) c → Contains (literals_of c) l
        → Contains (whole_terms p) l.atom }
{}

/// States that the clauses with which any search begins are among those of a search over linear arithmetic.
pub fn search_clauses_are_whole_clauses()
    ensures { (p : Problem) (c : Clause) → Contains (search_clauses p) c → Contains (whole_clauses p) c }
{}
