//! What the definitions imply. Each law is a function whose contract is the law; it computes nothing.

ghost use Rattle.std.specs.Prelude.{◌≡◌, List, map, All};
ghost use Rattle.spec_sorts.specs.Values.{Interpretation};
ghost use Rattle.spec_sorts.specs.Literals.{Clause};
ghost use Rattle.spec_equality.specs.declared.EqualityRule.{EqualityRule};
ghost use Rattle.spec_equality.specs.Reasons.{alone};
ghost use Rattle.spec_equality.specs.EqualityRules.{IsEquating, IsTrueClause};

/// States that what follows by a rule of equality from clauses that are true is true, under the same interpretation,
/// whichever that is. Source: Alethe specification, rules; SMT-LIB 2.6, theory Core.
pub fn equality_rules_are_sound()
    ensures { (rule : EqualityRule) (premises : List Clause) (clause : Clause) (i : Interpretation)
        → All (IsTrueClause i) premises → IsEquating rule premises clause → IsTrueClause i clause }
{}

/// States that of premises only those of one literal count, and how many there are. So where a premise has none or several, another
/// that has none or several may be in its place.
pub fn premises_count_by_their_one_literal()
    ensures { (rule : EqualityRule) (premises others : List Clause) (clause : Clause)
        → map alone premises ≡ map alone others → IsEquating rule premises clause → IsEquating rule others clause }
{}
