//! Laws of rows and of the least-variable rule: functions with empty bodies, whose clauses are proved of the
//! definitions. `A` are the numbers of an ordered field, and `V` values that they scale.

ghost use Rattle.std.specs.Prelude.{◌≡◌, ◌↔◌, ℕ, ◌<◌, ◌^◌, ◌==◌, true, false, List, [], length};
ghost use Rattle.spec_tableaux.specs.Fields.{Field, IsOrderedField};
ghost use Rattle.spec_tableaux.specs.Spaces.{Space, Pair, IsSpace, IsOrdered, TellsApart, space_difference, as_space, pairs};
ghost use Rattle.spec_tableaux.specs.Rows.{Entry, Row, sum_of, coefficient_of, row_of, is_basic, exchanged};
ghost use Rattle.spec_tableaux.specs.Rows.{with_row, Holds, Solves};
ghost use Rattle.spec_tableaux.specs.SolvedForms.{AllVariables, AllRowVariables, IsNonbasic, IsSolved, IsPivot, extended};
ghost use Rattle.spec_tableaux.specs.Ranges.{Range, AreStopped, Meets, is_crossed, value_in_range};
ghost use Rattle.spec_tableaux.specs.LeastVariable.{State, Move, done, crossed, stuck, exchange, goes_up, distance, moved};
ghost use Rattle.spec_tableaux.specs.LeastVariable.{RuleSays, Exchanges, MakesPivots, Moves, UpdatesNonbasic, IsNonbasicFeasible, AreUnder};
ghost use Rattle.spec_tableaux.specs.States.{AreSameState, AreBelow, RepeatsNoState, NeverReturns};
ghost use Rattle.spec_tableaux.specs.Numbers.{numbers};

/// States that an ordered field is an ordered space over itself, and that such a field can compare its numbers.
pub fn fields_are_ordered_spaces<A>()
    ensures space { (f : Field A) → IsOrderedField f → IsSpace (as_space f) }
    ensures ordered { (f : Field A) → IsOrderedField f → IsOrdered (as_space f) }
    ensures one { (f : Field A) → IsOrderedField f → TellsApart (as_space f) f.one }
{}

/// States that pairs of a base and a tilt are an ordered space over the field, and that it can compare its numbers.
pub fn pairs_are_an_ordered_space<A>()
    ensures space { (f : Field A) → IsOrderedField f → IsSpace (pairs f) }
    ensures ordered { (f : Field A) → IsOrderedField f → IsOrdered (pairs f) }
    ensures one { (f : Field A) → IsOrderedField f → TellsApart (pairs f) (record { base = f.one; tilt = f.zero }) }
{}

/// States that fractions in lowest terms are an ordered field.
pub fn fractions_are_an_ordered_field()
    ensures { IsOrderedField numbers }
{}

/// States that an exchange keeps the solutions of rows in solved form, and that they are in solved form after it.
pub fn exchanges_keep_solutions<A, V>()
    ensures solutions { (s : Space A V) → IsSpace s → (rs : List (Row A)) (b x : ℕ) → IsSolved s.numbers rs
        → IsPivot s.numbers rs b x → (v : ℕ → V) → Solves s v (exchanged s.numbers b x rs) ↔ Solves s v rs }
    ensures solved { (s : Space A V) → IsSpace s → (rs : List (Row A)) (b x : ℕ) → IsSolved s.numbers rs
        → IsPivot s.numbers rs b x → IsSolved s.numbers (exchanged s.numbers b x rs) }
{}

/// States that the solutions of rows with one more are those in which its variable is the sum that it was added for,
/// and that they are in solved form where the variable is new.
pub fn rows_are_added<A, V>()
    ensures solutions { (s : Space A V) → IsSpace s → (rs : List (Row A)) (b : ℕ) (es : List (Entry A)) (v : ℕ → V)
        → Solves s v (with_row s.numbers rs b es) ↔ (Solves s v rs × (v b ≡ sum_of s v es)) }
    ensures solved { (s : Space A V) (rs : List (Row A)) (b : ℕ) (es : List (Entry A)) → IsSolved s.numbers rs
        → IsNonbasic rs b → AllRowVariables (λ y. (y == b) ≡ false) rs → AllVariables (λ y. (y == b) ≡ false) es
        → IsSolved s.numbers (with_row s.numbers rs b es) }
{}

/// States that the solutions of rows in pairs of a base and a tilt are those in both parts.
pub fn solutions_in_pairs_are_of_both_parts<A>()
    ensures { (f : Field A) (rs : List (Row A)) (v : ℕ → Pair A) → Solves (pairs f) v rs
        ↔ (Solves (as_space f) (λ y. (v y).base) rs × Solves (as_space f) (λ y. (v y).tilt) rs) }
{}

/// States that rows in solved form have one solution for all values of the nonbasic variables.
pub fn nonbasic_values_have_one_solution<A, V>()
    ensures solution { (s : Space A V) (rs : List (Row A)) (v : ℕ → V) → IsSolved s.numbers rs
        → Solves s (extended s rs v) rs }
    ensures one { (s : Space A V) (rs : List (Row A)) (u v : ℕ → V) → IsSolved s.numbers rs → Solves s u rs
        → Solves s v rs → ((y : ℕ) → IsNonbasic rs y → u y ≡ v y) → (y : ℕ) → u y ≡ v y }
{}

/// States that rows in solved form with the same solutions and the same basic variables have the same coefficients.
pub fn solved_forms_are_unique<A, V>()
    ensures { (s : Space A V) → IsSpace s → (u : V) → TellsApart s u → (rs qs : List (Row A)) → IsSolved s.numbers rs
        → IsSolved s.numbers qs → ((y : ℕ) → is_basic y rs ≡ is_basic y qs)
        → ((v : ℕ → V) → Solves s v rs → Solves s v qs) → (b x : ℕ) → is_basic b rs ≡ true
        → coefficient_of s.numbers x (row_of b rs).entries ≡ coefficient_of s.numbers x (row_of b qs).entries }
{}

/// States that where the rule is done its point keeps each bound, and that where it is stuck, or bounds cross, none
/// does.
pub fn the_rule_answers_rightly<A, V>()
    ensures done { (s : Space A V) (ranges : ℕ → Range V) (t : State A V) → IsNonbasicFeasible s ranges t
        → RuleSays s ranges t done
        → Meets s t.rows ranges t.point }
    ensures crossed { (s : Space A V) → IsOrdered s → (ranges : ℕ → Range V) (t : State A V) (y : ℕ)
        → RuleSays s ranges t (crossed y) → (p : ℕ → V) → Meets s t.rows ranges p → ⊥ }
    ensures stuck { (s : Space A V) → IsSpace s → IsOrdered s → (ranges : ℕ → Range V) (t : State A V) (b : ℕ)
        → IsSolved s.numbers t.rows → Solves s t.point t.rows → RuleSays s ranges t (stuck b)
        → (p : ℕ → V) → Meets s t.rows ranges p → ⊥ }
{}

/// States what explains a stuck row: each variable of its entries is at the bound that stops it. In each solution p,
/// what the basic variable lacks to its bound, and the distances of the others from theirs times their coefficients,
/// come to one sum, which does not depend on p. Source: Farkas 1902; Dutertre and de Moura, CAV 2006.
pub fn stuck_rows_explain_themselves<A, V>()
    ensures stopped { (s : Space A V) → IsSpace s → IsOrdered s → (ranges : ℕ → Range V) (t : State A V) (b : ℕ)
        → IsSolved s.numbers t.rows → IsNonbasicFeasible s ranges t → RuleSays s ranges t (stuck b)
        → AreStopped s ranges t.point (goes_up s ranges t b) (row_of b t.rows).entries }
    ensures sum { (s : Space A V) → IsSpace s → (r : Row A) (bound : V) (p v : ℕ → V) → Holds s p r → Holds s v r
        → s.plus (space_difference s bound (p r.basic)) (sum_of s (λ y. space_difference s (p y) (v y)) r.entries)
        ≡ space_difference s bound (v r.basic) }
{}

/// States that there is a point at which nonbasic variables that violated a bound are at it, and that all of them keep
/// their bounds there, where no bounds cross.
pub fn points_are_updated<A, V>()
    ensures made { (s : Space A V) (ranges : ℕ → Range V) (t : State A V) → IsSolved s.numbers t.rows
        → UpdatesNonbasic s ranges t
        (record { rows = t.rows; point = extended s t.rows (λ y. value_in_range s (ranges y) (t.point y)) }) }
    ensures nonbasic_updated { (s : Space A V) → IsOrdered s → (ranges : ℕ → Range V) (t u : State A V)
        → ((y : ℕ) → is_crossed s ranges y ≡ false) → UpdatesNonbasic s ranges t u → IsNonbasicFeasible s ranges u }
{}

/// States that a nonbasic variable can move by each distance, and that rows keep a point as solution that moves so.
pub fn points_move<A, V>()
    ensures made { (s : Space A V) (rs : List (Row A)) (x : ℕ) (d : V) (v : ℕ → V) → IsNonbasic rs x
        → Moves s rs x d v (moved s rs x d v) }
    ensures solves { (s : Space A V) → IsSpace s → (rs : List (Row A)) (x : ℕ) (d : V) (v w : ℕ → V)
        → IsSolved s.numbers rs → Moves s rs x d v w → Solves s v rs → Solves s w rs }
{}

/// States that an exchange that the rule says can be made, and by one point alone, and that nonbasic variables stay
/// within their bounds.
pub fn exchanges_are_made<A, V>()
    ensures pivot { (s : Space A V) → IsSpace s → (ranges : ℕ → Range V) (t : State A V) (b x : ℕ)
        → IsSolved s.numbers t.rows → RuleSays s ranges t (exchange b x) → IsPivot s.numbers t.rows b x }
    ensures made { (s : Space A V) → IsSpace s → (ranges : ℕ → Range V) (t : State A V) (b x : ℕ) (w : ℕ → V)
        → IsSolved s.numbers t.rows → Solves s t.point t.rows → IsPivot s.numbers t.rows b x
        → Moves s t.rows x (distance s ranges t b x) t.point w
        → Exchanges s ranges t b x (record { rows = exchanged s.numbers b x t.rows; point = w }) }
    ensures one { (s : Space A V) → IsSpace s → (ranges : ℕ → Range V) (t u w : State A V) (b x : ℕ)
        → IsSolved s.numbers t.rows → IsPivot s.numbers t.rows b x → Exchanges s ranges t b x u
        → Exchanges s ranges t b x w → (y : ℕ) → u.point y ≡ w.point y }
    ensures nonbasic_updated { (s : Space A V) → IsOrdered s → (ranges : ℕ → Range V) (t u : State A V) (b x : ℕ)
        → IsNonbasicFeasible s ranges t → RuleSays s ranges t (exchange b x) → Exchanges s ranges t b x u
        → IsNonbasicFeasible s ranges u }
{}

/// States that the least-variable rule ends: over n variables it makes fewer than 3^n exchanges. Source: Bland 1977.
pub fn the_rule_ends<A, V>()
    ensures under { (s : Space A V) → IsSpace s → IsOrdered s → (ranges : ℕ → Range V) (n : ℕ) (t u : State A V)
        → (es : List (ℕ × ℕ)) → IsSolved s.numbers t.rows → IsNonbasicFeasible s ranges t → MakesPivots s ranges t es u
        → AreUnder n es → length es < 3 ^ n }
    ensures below { (s : Space A V) → IsSpace s → IsOrdered s → (ranges : ℕ → Range V) (n : ℕ) (t u : State A V)
        → (es : List (ℕ × ℕ)) → IsSolved s.numbers t.rows → IsNonbasicFeasible s ranges t → AreBelow n t.rows
        → MakesPivots s ranges t es u → length es < 3 ^ n }
{}

/// States that the least-variable rule comes to no state twice: where exchanges that it says lead to the same basic
/// variables with the same values of the nonbasic ones, there are none. The same holds of each part of such exchanges,
/// and what it says next leads to no state from which it came. Source: Bland 1977.
pub fn no_state_comes_twice<A, V>()
    ensures ends { (s : Space A V) → IsSpace s → IsOrdered s → (one : V) → TellsApart s one → (ranges : ℕ → Range V)
        → (t u : State A V) (es : List (ℕ × ℕ)) → IsSolved s.numbers t.rows → IsNonbasicFeasible s ranges t
        → MakesPivots s ranges t es u → AreSameState t u → es ≡ [] }
    ensures parts { (s : Space A V) → IsSpace s → IsOrdered s → (one : V) → TellsApart s one → (ranges : ℕ → Range V)
        → (t u : State A V) (es : List (ℕ × ℕ)) → IsSolved s.numbers t.rows → IsNonbasicFeasible s ranges t
        → MakesPivots s ranges t es u → RepeatsNoState s ranges t es }
    ensures moves { (s : Space A V) → IsSpace s → IsOrdered s → (one : V) → TellsApart s one → (ranges : ℕ → Range V)
        → (u : State A V) (m : Move) → RuleSays s ranges u m → NeverReturns s ranges u m }
{}
