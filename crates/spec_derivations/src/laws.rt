//! What the definitions imply. Each law is a function whose contract is the law; it computes nothing.

ghost use Rattle.std.specs.Prelude.{◌≡◌, ◌≢◌, ◌⊎◌, ◌<◌, ℕ, true, List, [], ◌∷◌, ◌++◌, length, map, All, Contains};
ghost use Rattle.spec_sorts.specs.Terms.{True, False, Symbol, Term, of};
ghost use Rattle.spec_sorts.specs.Values.{Interpretation, Interprets, truth};
ghost use Rattle.spec_sorts.specs.TermValues.{value_at};
ghost use Rattle.spec_sorts.specs.WellSorted.{IsFormulaOver};
ghost use Rattle.spec_sorts.specs.Literals.{Clause, Literal, complement, literals_of};
ghost use Rattle.spec_proofs.specs.Resolution.{IsWithin, Resolves};
ghost use Rattle.spec_derivations.specs.Quiet.{IsQuiet, IsConsistent, OthersFail};
ghost use Rattle.spec_rules.specs.Clauses.{term_true, clause_true};
ghost use Rattle.spec_rules.specs.Truths.{Truths};
ghost use Rattle.spec_derivations.specs.Problems.{Problem, terms_of_problem, subterms_in};
ghost use Rattle.spec_derivations.specs.Derivations.{Derivation, «assumption», conclusion};
ghost use Rattle.spec_derivations.specs.Derivations.{inference_at, conclusion_at, IsDerivation, DependsOn};
ghost use Rattle.spec_derivations.specs.Base.{base_clauses};
ghost use Rattle.spec_derivations.specs.Models.{SatisfiesClauses, joins_formulas, Obeys};
ghost use Rattle.spec_derivations.specs.Orders.{first_clauses};
ghost use Rattle.spec_derivations.specs.Inputs.{IsInput};
ghost use Rattle.spec_derivations.specs.ExactChains.{IsExactResolvent};
ghost use Rattle.spec_derivations.specs.Learned.{IsOpenIn, IsNew};
ghost use Rattle.spec_derivations.specs.Spent.{IsOverAtoms, at_start, AreLearned, IsConflictBudgetSpent, CanLearnMore};
ghost use Rattle.spec_derivations.specs.Examples.{asserting, eight, not_both, not_both_derived};

/// States that where propagation is quiet and consistent, a clause whose literals but one are false, and whose one
/// literal does not hold, is new.
pub fn quiet_clause_is_new()
    ensures { (premises : List (List Literal)) (held clause : List Literal) (l : Literal)
        → IsQuiet complement premises held → IsConsistent complement held
        → Contains clause l → (Contains held l → ⊥) → OthersFail complement held clause l
        → IsOpenIn premises clause l }
{}

/// States that a clause which has all literals of a premise is not new, a premise itself among them.
pub fn new_clauses_contain_none()
    ensures { (premises : List (List Literal)) (clause premise : List Literal) → Contains premises premise
        → ((m : Literal) → Contains premise m → Contains clause m) → IsNew premises clause → ⊥ }
{}

/// States that of the eight disjunctions of three constants or their negations a search may learn `(cl (not p) (not
/// q))`: it is new over all clauses with which that search begins.
pub fn first_of_eight_is_new()
    ensures { IsNew (map literals_of (first_clauses (asserting eight))) (literals_of not_both) }
{}

/// States that a spent budget is no empty word, and not every claim of one. Of the eight disjunctions of three
/// constants or their negations a search learns `(cl (not p) (not q))`, which spends a budget of one. It spends
/// none of two or of nothing, and the reason carries no other number than one. In its place no tautology spends the
/// budget.
pub fn eight_clauses_spend_a_budget_of_one()
    ensures spent { IsConflictBudgetSpent (asserting eight) not_both_derived 1 1 [] (literals_of not_both ∷ []) }
    ensures no_other_limit { (limit carried : ℕ) → limit ≢ 1
        → IsConflictBudgetSpent (asserting eight) not_both_derived limit carried [] (literals_of not_both ∷ []) → ⊥ }
    ensures no_other_number { (carried : ℕ) → carried ≢ 1
        → IsConflictBudgetSpent (asserting eight) not_both_derived 1 carried [] (literals_of not_both ∷ []) → ⊥ }
    ensures no_tautology { (l : Literal)
        → IsConflictBudgetSpent (asserting eight) not_both_derived 1 1 [] ((l ∷ complement l ∷ []) ∷ []) → ⊥ }
    ensures not_twice { IsConflictBudgetSpent (asserting eight) not_both_derived 2 2 []
        (literals_of not_both ∷ literals_of not_both ∷ []) → ⊥ }
{
    learned_clauses_say_something();
}

/// States that learned clauses say something. None has a literal with its complement, none has a literal of `true`
/// or `false`, and none is empty. None has all literals of a clause with which a search of the problem begins, or of a
/// clause that was learned before it, in this check or an earlier one. So a copy of such a clause is not learned.
pub fn learned_clauses_say_something()
    ensures no_tautology { (p : Problem) (d : Derivation) (earlier learned : List (List Literal))
        → AreLearned p d earlier learned
        → (c : List Literal) (l : Literal) → Contains learned c → Contains c l → Contains c (complement l) → ⊥ }
    ensures no_truth_value { (p : Problem) (d : Derivation) (earlier learned : List (List Literal))
        → AreLearned p d earlier learned
        → (c : List Literal) (l : Literal) → Contains learned c → Contains c l
        → (l.atom ≢ of True []) × (l.atom ≢ of False []) }
    ensures not_empty { (p : Problem) (d : Derivation) (earlier learned : List (List Literal))
        → AreLearned p d earlier learned
        → (c : List Literal) → Contains learned c → c ≢ [] }
    ensures no_first_clause { (p : Problem) (d : Derivation) (earlier learned : List (List Literal))
        → AreLearned p d earlier learned
        → (c : List Literal) (b : Clause) → Contains learned c → Contains (first_clauses p) b
        → IsWithin (literals_of b) c → ⊥ }
    ensures no_earlier_clause { (p : Problem) (d : Derivation) (earlier learned : List (List Literal))
        → AreLearned p d earlier learned
        → (before after : List (List Literal)) (c e : List Literal) → learned ≡ before ++ c ∷ after
        → Contains (earlier ++ before) e → IsWithin e c → ⊥ }
{}

/// States that where one clause more can be learned, with it and its steps the check has learned one more than before.
pub fn one_clause_more_is_learned()
    ensures { (p : Problem) (d : Derivation) (earlier learned : List (List Literal))
        → AreLearned p d earlier learned
        → (x : CanLearnMore p d earlier learned) → AreLearned p (d ++ x.more) earlier (learned ++ x.clause ∷ []) }
{}

/// States that what a check learned has served it, and serves the next one. With what earlier ones learned, it is what
/// is learned before a check of the same terms that has learned nothing yet.
pub fn learned_clauses_serve_the_next_check()
    ensures { (p : Problem) (d : Derivation) (earlier learned : List (List Literal))
        → AreLearned p d earlier learned → AreLearned p d (earlier ++ learned) [] }
{}

/// States when one clause more can be learned: a clause follows by unit propagation from the base clauses and the
/// learned ones, those of earlier checks too. It is over the check's atoms, new, and what a chain of resolutions gives.
/// Further steps derive it.
pub fn propagated_clauses_can_be_learned()
    ensures { (p : Problem) (d : Derivation) (earlier learned : List (List Literal)) (clause : Clause)
        → AreLearned p d earlier learned → IsOverAtoms p (literals_of clause)
        → Resolves complement (map literals_of (base_clauses p) ++ (earlier ++ learned)) (literals_of clause)
        → IsNew (at_start p earlier ++ learned) (literals_of clause)
        → IsExactResolvent complement (λ c. IsInput p d c ⊎ Contains (earlier ++ learned) c) (literals_of clause)
        → CanLearnMore p d earlier learned }
{}

/// States that in a derivation a clause is true under an interpretation of the symbols where the assumptions are
/// that it depends on. The derivation's clauses have formulas over these symbols.
pub fn derivations_are_sound()
    ensures { (symbols : List Symbol) (d : Derivation) (i : Interpretation) → IsDerivation d → Interprets i symbols
        → All (λ x. All (IsFormulaOver symbols) (conclusion x)) d → (n : ℕ) → n < length d
        → ((m : ℕ) (t : Term) → DependsOn d n m → inference_at d m ≡ «assumption» t → term_true i t ≡ true)
        → clause_true i (conclusion_at d n) ≡ true }
{
    spec_rules::laws::rules_are_sound();
}

/// States that learned clauses follow from the check's terms. Each has the literals of a clause that is true under
/// an interpretation of the symbols which makes the terms true. The derivation's clauses have formulas over these
/// symbols.
pub fn learned_clauses_are_true()
    ensures { (symbols : List Symbol) (p : Problem) (d : Derivation) (earlier learned : List (List Literal))
        → (i : Interpretation) → AreLearned p d earlier learned → Interprets i symbols
        → All (λ x. All (IsFormulaOver symbols) (conclusion x)) d
        → All (λ t. term_true i t ≡ true) (terms_of_problem p)
        → (c : List Literal) → Contains (earlier ++ learned) c
        → (clause : Clause) × (literals_of clause ≡ c) × (clause_true i clause ≡ true) }
{
    derivations_are_sound();
}

/// States what truths that meet the base clauses of a check say of its terms. Each subterm that joins formulas has
/// the value of its head at its arguments' values. Source: Tseitin 1968.
pub fn base_clauses_define_their_terms()
    ensures obey { (p : Problem) (v : Truths) → SatisfiesClauses v (base_clauses p)
        → (t : Term) → Contains (subterms_in p) t → joins_formulas t ≡ true → Obeys v t }
{}

/// States that base clauses are no stronger than the asserted terms. Each is true under an interpretation of the
/// symbols that makes these true. The check's terms are formulas over the symbols, and then so are those of the
/// clauses. Source: Alethe specification, the rules without premises.
pub fn base_clauses_hold_in_models()
    ensures formulas { (symbols : List Symbol) (p : Problem) → All (IsFormulaOver symbols) (terms_of_problem p)
        → All (All (IsFormulaOver symbols)) (base_clauses p) }
    ensures hold { (symbols : List Symbol) (p : Problem) (i : Interpretation) → Interprets i symbols
        → All (IsFormulaOver symbols) (terms_of_problem p) → All (λ t. value_at i [] t ≡ truth true) p.asserted
        → All (λ c. clause_true i c ≡ true) (base_clauses p) }
{
    spec_rules::laws::rules_are_sound();
}

/// States that the literals of base clauses are over subterms of the check's terms.
pub fn base_clauses_are_over_subterms()
    ensures { (p : Problem) (c : Clause) (l : Literal) → Contains (base_clauses p) c → Contains (literals_of c) l
        → Contains (subterms_in p) l.atom }
{
    spec_sorts::subterms::subterms_are_least();
}
