//! What the definitions imply. Each law is a function whose contract is the law; it computes nothing.

ghost use Rattle.std.specs.Prelude.{◌≡◌, true, List, ◌∷◌, map, All};
ghost use Rattle.spec_text.specs.Trees.{Trees};
ghost use Rattle.spec_sorts.specs.Terms.{Symbol};
ghost use Rattle.spec_sorts.specs.Values.{Interpretation, Interprets};
ghost use Rattle.spec_sorts.specs.WellSorted.{IsFormulaOver};
ghost use Rattle.spec_equality.specs.declared.EqualityRule.{EqualityRule};
ghost use Rattle.spec_equality.specs.EqualityRules.{equality_name};
ghost use Rattle.spec_arithmetic.specs.declared.ArithmeticRule.{ArithmeticRule};
ghost use Rattle.spec_arithmetic.specs.ArithmeticRules.{arithmetic_name};
ghost use Rattle.spec_proofs.specs.declared.Rule.{Rule};
ghost use Rattle.spec_proofs.specs.RuleNames.{rule_name};
ghost use Rattle.spec_proofs.specs.Resolution.{IsWithin, IsChain};
ghost use Rattle.spec_sorts.specs.Literals.{Clause, complement, literals_of};
ghost use Rattle.spec_rules.specs.Clauses.{IsResolvent, clause_true};
ghost use Rattle.spec_rules.specs.Rules.{IsRight, IsWide};
ghost use Rattle.spec_rules.specs.Schemes.{equates, calculates, kind_of};

/// States that what follows by a rule from clauses that are true is true, under the same interpretation of the symbols. The
/// clause has formulas over these. Source: Alethe specification, rules; SMT-LIB 2.6, theories Core and Reals.
pub fn rules_are_sound()
    ensures { (symbols : List Symbol) (rule : Rule) (premises : List Clause) (arguments : Trees) (clause : Clause)
        → (i : Interpretation) → Interprets i symbols → All (IsFormulaOver symbols) clause
        → All (λ c. clause_true i c ≡ true) premises → IsRight rule premises arguments clause
        → clause_true i clause ≡ true }
{}

/// States that a step of which it cannot be told within the bound on numbers whether it is right counts as none that is.
pub fn wide_steps_are_not_right()
    ensures { (rule : Rule) (premises : List Clause) (arguments : Trees) (clause : Clause)
        → IsWide rule premises arguments clause → IsRight rule premises arguments clause → ⊥ }
{}

/// States that a rule of equality has the name by which it is defined.
pub fn equality_rules_keep_their_names()
    ensures { (rule : Rule) (other : EqualityRule) → kind_of rule ≡ equates other
        → rule_name rule ≡ equality_name other }
{}

/// States that a rule of linear arithmetic has the name by which it is defined.
pub fn arithmetic_rules_keep_their_names()
    ensures { (rule : Rule) (other : ArithmeticRule) → kind_of rule ≡ calculates other
        → rule_name rule ≡ arithmetic_name other }
{}

/// States that each chain of binary resolutions passes, where each resolves the clause up to here with a premise. Premises
/// may be used in any order and as often as wanted, and so in the order in which they are listed.
pub fn chains_are_resolvents()
    ensures any { (premises : List Clause) (first : Clause) (rest : List Clause) (clause : Clause)
        → IsWithin (first ∷ rest) premises
        → IsChain complement (literals_of first) (map literals_of rest) (literals_of clause)
        → IsResolvent premises clause }
    ensures in_order { (first : Clause) (rest : List Clause) (clause : Clause)
        → IsChain complement (literals_of first) (map literals_of rest) (literals_of clause)
        → IsResolvent (first ∷ rest) clause }
{}
