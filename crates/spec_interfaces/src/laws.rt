//! Laws of interface equalities: functions with empty bodies, whose clauses are proved of the definitions.

ghost use Rattle.std.specs.Prelude.{◌≡◌, List, true, false, All, Contains};
ghost use Rattle.spec_sorts.specs.Terms.{Term};
ghost use Rattle.spec_derivations.specs.Problems.{Problem, subterms_in};
ghost use Rattle.spec_derivations.specs.Spent.{IsAtomOf};
ghost use Rattle.spec_causes.specs.Shared.{IsSharedEquality};
ghost use Rattle.spec_interfaces.specs.Interfaces.{IsElementEquality, IsInterfaceEquality, is_of_numbers, numbers_alone};

/// States that interface equalities are of numbers where functions and arithmetic share these, and else not.
pub fn interface_equalities_are_of_numbers_or_elements()
    ensures numbers { (ts : List Term) (u : Term) → IsSharedEquality ts u → is_of_numbers u ≡ true }
    ensures elements { (ts : List Term) (u : Term) → IsElementEquality ts u → is_of_numbers u ≡ false }
{}

/// States that an atom of a problem is one without the equalities of elements, where it is none of these.
pub fn other_atoms_stand_apart()
    ensures { (p : Problem) (t : Term) → All (IsInterfaceEquality (subterms_in p)) p.interface → IsAtomOf p t
        → (IsElementEquality (subterms_in p) t → Contains p.interface t → ⊥) → IsAtomOf (numbers_alone p) t }
{}
