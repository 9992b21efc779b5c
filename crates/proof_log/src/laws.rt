//! What the definitions imply. Each law is a function whose contract is the law; it computes nothing.

ghost use Rattle.std.specs.Prelude.{◌≡◌, ◌⊎◌, ℕ, suc, ◌<◌, ◌≤◌, true, List, [], length, take, get_or, All, Contains};
ghost use Rattle.spec_sorts.specs.Terms.{Term};
ghost use Rattle.spec_sorts.specs.Values.{Interpretation, Interprets};
ghost use Rattle.spec_rules.specs.Clauses.{term_true, clause_true};
ghost use Rattle.spec_derivations.specs.Derivations.{DependsOn, IsDerivedFrom};
ghost use Rattle.term_core.specs.declared.ids.TermId.{TermId};
ghost use Rattle.term_core.specs.Tables.{TableView, term_at, clause_at, Extends};
ghost use Rattle.proof_log.specs.declared.premises.StepId.{StepId};
ghost use Rattle.proof_log.specs.Logs.{Logged, assumed, named, logged_at, AreStepsOf, AreEarlier, derivation_in, AreBelow, IsLogOf};
ghost use Rattle.proof_log.specs.Reaches.{RestsOn, ReachView, reach_at};
ghost use Rattle.proof_log.specs.Levels.{LevelMark, no_level, terms_of, steps_of, AreRising, IsScope, scope_by, IsReachWithin};
ghost use Rattle.proof_log.specs.Keeping.{was, IsKeeping};

/// States that a log without clauses is one over each table.
pub fn empty_logs_are_right()
    ensures { (t : TableView) → IsLogOf t [] }
{}

/// States that a log over a table is one over each table to which this grows, and says the same there.
pub fn logs_hold_in_grown_tables()
    ensures right { (t u : TableView) (log : List Logged) → IsLogOf t log → Extends t u → IsLogOf u log }
    ensures same { (t u : TableView) (log : List Logged) → IsLogOf t log → Extends t u
        → derivation_in u log ≡ derivation_in t log }
{}

/// States that a log over a table is one over each table of its first terms with the same symbols, if it names these alone, and says
/// the same there.
pub fn logs_hold_in_cut_tables()
    ensures right { (t u : TableView) (n : ℕ) (log : List Logged) → IsLogOf t log → u.terms ≡ take n t.terms
        → u.symbols ≡ t.symbols → AreBelow n log → IsLogOf u log }
    ensures same { (t u : TableView) (n : ℕ) (log : List Logged) → IsLogOf t log → u.terms ≡ take n t.terms
        → u.symbols ≡ t.symbols → AreBelow n log → derivation_in u log ≡ derivation_in t log }
{}

/// States that under an interpretation of a table's symbols a clause of a log over the table is true where the assumed terms that it
/// depends on are, and so where all of the log's are.
pub fn logs_are_sound()
    ensures each { (t : TableView) (log : List Logged) (i : Interpretation) → IsLogOf t log → Interprets i t.symbols
        → (s : StepId) → s.0 < length log
        → ((m : StepId) (id : TermId) → DependsOn (derivation_in t log) s.0 m.0 → m.0 < length log
        → logged_at log m ≡ assumed id → term_true i (term_at t id) ≡ true)
        → clause_true i (clause_at t (named (logged_at log s))) ≡ true }
    ensures all { (t : TableView) (log : List Logged) (i : Interpretation) → IsLogOf t log → Interprets i t.symbols
        → ((id : TermId) → Contains log (assumed id) → term_true i (term_at t id) ≡ true)
        → All (λ l. clause_true i (clause_at t (named l)) ≡ true) log }
{
    spec_derivations::laws::derivations_are_sound();
}

/// States that a clause of a log over a table rests on what it depends on there.
pub fn clauses_rest_on_what_they_depend_on()
    ensures { (t : TableView) (log : List Logged) (s m : StepId) → IsLogOf t log → s.0 < length log
        → DependsOn (derivation_in t log) s.0 m.0 → RestsOn log s m }
{}

/// States that all that a clause rests on is within its reach: each term is below, and so is the number of each assumed clause.
pub fn derivations_are_within_reach()
    ensures terms { (log : List Logged) (s m : StepId) (id : TermId) → AreEarlier log → s.0 < length log
        → RestsOn log s m → Contains (named (logged_at log m)) id → id.0 < (reach_at log s).terms }
    ensures assumes { (log : List Logged) (s m : StepId) (id : TermId) → AreEarlier log → s.0 < length log
        → RestsOn log s m → logged_at log m ≡ assumed id → m.0 < (reach_at log s).assumes }
{}

/// States that each reach is met, by a term or by an assumed clause on which the clause rests, or is 0. So it is no more than it has
/// to be.
pub fn reaches_are_met()
    ensures terms { (log : List Logged) (s : StepId) → AreEarlier log → s.0 < length log
        → ((reach_at log s).terms ≡ 0) ⊎ ((m : StepId) × ((id : TermId) × RestsOn log s m
        × Contains (named (logged_at log m)) id × (suc id.0 ≡ (reach_at log s).terms))) }
    ensures assumes { (log : List Logged) (s : StepId) → AreEarlier log → s.0 < length log
        → ((reach_at log s).assumes ≡ 0) ⊎ ((m : StepId) × ((id : TermId) × RestsOn log s m
        × (logged_at log m ≡ assumed id) × (suc m.0 ≡ (reach_at log s).assumes))) }
{}

/// States that what a reach gives at levels is the scope of the clause, and that the scope is not above a level exactly where the reach
/// is within what there was when the next one was opened.
pub fn reaches_give_scopes()
    ensures scope { (ls : List LevelMark) (log : List Logged) (s : StepId) → AreEarlier log → s.0 < length log
        → IsScope ls log s (scope_by ls (reach_at log s)) }
    ensures within { (ls : List LevelMark) (k : ℕ) (r : ReachView) → AreRising (terms_of ls) → AreRising (steps_of ls)
        → k < length ls → (scope_by ls r ≤ k → IsReachWithin (get_or ls k no_level) r)
        × (IsReachWithin (get_or ls k no_level) r → scope_by ls r ≤ k) }
{}

/// States that a clause whose reach is within what there was when a level was opened is true wherever the terms are that were assumed
/// before and on which it rests.
pub fn kept_clauses_are_implied()
    ensures { (t : TableView) (log : List Logged) (i : Interpretation) (mark : LevelMark) (s : StepId) → IsLogOf t log
        → Interprets i t.symbols → s.0 < length log → IsReachWithin mark (reach_at log s)
        → ((m : StepId) (id : TermId) → RestsOn log s m → m.0 < mark.steps → logged_at log m ≡ assumed id
        → term_true i (term_at t id) ≡ true)
        → clause_true i (clause_at t (named (logged_at log s))) ≡ true }
{
    spec_derivations::laws::derivations_are_sound();
}

/// States that the first clauses of a log that is cut are as they were, under their numbers.
pub fn cut_logs_begin_the_same()
    ensures { (old new : List Logged) (len : ℕ) (names renamed : List StepId) → IsKeeping old len names new renamed
        → (s : StepId) → s.0 < len → s.0 < length old → (s.0 < length new) × (logged_at new s ≡ logged_at old s) }
{}

/// States that what is left of a log that is cut names terms below a number alone, if what the first clauses name is below, and so is
/// all that the named ones reach. So it is a log over the table that is cut there.
pub fn cut_logs_name_what_they_reach()
    ensures { (old new : List Logged) (len n : ℕ) (names renamed : List StepId) → IsKeeping old len names new renamed
        → AreEarlier old → AreStepsOf old names → AreBelow n (take len old)
        → All (λ s. (reach_at old s).terms ≤ n) names → AreBelow n new }
{}

/// States that a step of a log that is cut has the clause that it had, rests on what it rested on, and is derived from what it was
/// derived from. This is also said of the named ones, by their new names.
pub fn kept_derivations_stay()
    ensures clauses { (old new : List Logged) (len : ℕ) (names renamed : List StepId)
        → (h : IsKeeping old len names new renamed) → (s : StepId) → s.0 < length new
        → named (logged_at new s) ≡ named (logged_at old (was h.kept s)) }
    ensures rests { (old new : List Logged) (len : ℕ) (names renamed : List StepId)
        → (h : IsKeeping old len names new renamed) → (s m : StepId) → s.0 < length new → RestsOn new s m
        → RestsOn old (was h.kept s) (was h.kept m) }
    ensures derived { (t : TableView) (terms : List Term) (old new : List Logged) (len : ℕ)
        → (names renamed : List StepId) → (h : IsKeeping old len names new renamed) → (s : StepId) → s.0 < length new
        → IsDerivedFrom terms (derivation_in t old) (was h.kept s).0 → IsDerivedFrom terms (derivation_in t new) s.0 }
    ensures names { (old new : List Logged) (len : ℕ) (names renamed : List StepId)
        → (h : IsKeeping old len names new renamed) → (k : ℕ) (d : StepId) → k < length names
        → was h.kept (get_or renamed k d) ≡ get_or names k d }
{}
