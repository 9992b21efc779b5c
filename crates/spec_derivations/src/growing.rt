//! A problem that grows: what a search of it has derived, speaks of and has learned, it has of what it grows to. Each
//! law is a function whose contract is the law; it computes nothing.

ghost use Rattle.std.specs.Prelude.{◌≡◌, ℕ, List, Contains, ◌++◌};
ghost use Rattle.spec_sorts.specs.Terms.{Term};
ghost use Rattle.spec_sorts.specs.Subsets.{AreAmong};
ghost use Rattle.spec_sorts.specs.Literals.{Clause, Literal, literals_of};
ghost use Rattle.spec_proofs.specs.Resolution.{IsWithin};
ghost use Rattle.spec_derivations.specs.Problems.{Problem, terms_of_problem, known_terms, known_subterms};
ghost use Rattle.spec_derivations.specs.Derivations.{Inference, Derivation};
ghost use Rattle.spec_derivations.specs.Base.{base_clauses};
ghost use Rattle.spec_derivations.specs.Orders.{whole_terms, whole_clauses, first_clauses};
ghost use Rattle.spec_derivations.specs.Lemmas.{IsLemma, HasLemma};
ghost use Rattle.spec_derivations.specs.Inputs.{input_clauses, IsInput};
ghost use Rattle.spec_derivations.specs.Learned.{IsNew, AreNew};
ghost use Rattle.spec_derivations.specs.Spent.{IsAtomOf, IsOverAtoms, IsLearnedFrom, AreLearned, CanLearnMore};

/// States that with more known terms a search speaks of more terms, and its atoms and lemmas stay such. With more
/// asserted ones it begins with more clauses.
pub fn problems_speak_of_more()
    ensures subterms { (p q : Problem) → AreAmong (known_terms p) (known_terms q)
        → AreAmong (known_subterms p) (known_subterms q) }
    ensures terms { (p q : Problem) → AreAmong (known_terms p) (known_terms q)
        → AreAmong (whole_terms p) (whole_terms q) }
    ensures atoms { (p q : Problem) (t : Term) → AreAmong (known_terms p) (known_terms q)
        → IsAtomOf p t → IsAtomOf q t }
    ensures over { (p q : Problem) (c : List Literal) → AreAmong (known_terms p) (known_terms q)
        → IsOverAtoms p c → IsOverAtoms q c }
    ensures lemmas { (p q : Problem) (d : Derivation) (n : ℕ) (x : Inference) → AreAmong (known_terms p) (known_terms q)
        → IsLemma (whole_terms p) d n x → IsLemma (whole_terms q) d n x }
    ensures clauses { (p q : Problem) → AreAmong p.asserted q.asserted → AreAmong (known_terms p) (known_terms q)
        → IsWithin (whole_clauses p) (whole_clauses q) }
{}

/// States that the base clauses are among those with which a search begins without interface equalities, and these
/// among those with which it begins with them.
pub fn first_clauses_are_whole_clauses()
    ensures base { (p : Problem) → IsWithin (base_clauses p) (first_clauses p) }
    ensures whole { (p : Problem) → IsWithin (first_clauses p) (whole_clauses p) }
{}

/// States that what is derived from terms is derived from more of them.
pub fn derived_clauses_stay_derived()
    ensures { (p q : Problem) (d : Derivation) (c : List Literal) → AreAmong (terms_of_problem p) (terms_of_problem q)
        → IsLearnedFrom p d c → IsLearnedFrom q d c }
{}

/// States that what is new over clauses is new over fewer of them.
pub fn new_clauses_are_new_over_fewer()
    ensures one { (more fewer : List (List Literal)) (c : List Literal) → IsWithin fewer more
        → IsNew more c → IsNew fewer c }
    ensures all { (more fewer cs : List (List Literal)) → IsWithin fewer more → AreNew more cs → AreNew fewer cs }
{}

/// States that a clause from which a search may learn stays one, in a longer derivation and for a problem that grows.
/// So does the clause of a lemma. The clauses with which a search begins are such, with interface equalities too.
pub fn inputs_stay_inputs()
    ensures longer { (p : Problem) (d more : Derivation) (c : List Literal) → IsInput p d c → IsInput p (d ++ more) c }
    ensures wider { (p q : Problem) (d : Derivation) (c : List Literal)
        → AreAmong (terms_of_problem p) (terms_of_problem q) → AreAmong (known_terms p) (known_terms q)
        → IsInput p d c → IsInput q d c }
    ensures whole { (p : Problem) → IsWithin (whole_clauses p) (input_clauses p) }
    ensures begins { (p : Problem) (d : Derivation) (c : Clause) → Contains (whole_clauses p) c
        → IsInput p d (literals_of c) }
    ensures lemma_longer { (ts : List Term) (d more : Derivation) (c : List Literal) → HasLemma ts d c
        → HasLemma ts (d ++ more) c }
    ensures lemma_wider { (ts us : List Term) (d : Derivation) (c : List Literal) → AreAmong ts us → HasLemma ts d c
        → HasLemma us d c }
{}

/// States that what is assumed may be asserted in a search: learned clauses are such of the check that assumes it, and
/// a conflict more is one of it.
pub fn assumptions_may_be_asserted()
    ensures learned { (p q : Problem) (d : Derivation) (earlier cs : List (List Literal))
        → terms_of_problem q ≡ terms_of_problem p → q.interface ≡ p.interface → AreAmong p.asserted q.asserted
        → AreLearned q d earlier cs → AreLearned p d earlier cs }
    ensures conflict { (p q : Problem) (d : Derivation) (earlier cs : List (List Literal))
        → terms_of_problem q ≡ terms_of_problem p → q.interface ≡ p.interface → AreAmong p.asserted q.asserted
        → CanLearnMore q d earlier cs → CanLearnMore p d earlier cs }
{}
