//! What the definitions imply. Each law is a function whose contract is the law; it computes nothing.

ghost use Rattle.std.specs.Prelude.{◌≡◌, ℕ, ◌<◌, ◌≤◌, [], length, get_or, List, Option, Some, None, Contains};
ghost use Rattle.term_core.specs.Tables.{TableView};
ghost use Rattle.term_core.specs.declared.ids.Lit.{Lit};
ghost use Rattle.clause_literals.specs.Literals.{IsConsistent};
ghost use Rattle.clause_literals.specs.Statuses.{IsFalsified, IsUnit};
ghost use Rattle.proof_log.specs.declared.premises.StepId.{StepId};
ghost use Rattle.proof_log.specs.Logs.{Logged};
ghost use Rattle.sat_trail.specs.Trails.{TrailView, empty as no_trail, HasSame, IsPushed, IsCutTo};
ghost use Rattle.clause_store.specs.Stores.{StoreView, LiteralsAreBelow, HasSeen, IsAdded};
ghost use Rattle.clause_store.specs.Propagating.{AddsImplied, AreImplied, IsPropagated};
ghost use Rattle.clause_store.specs.Keeping.{staying, StaysAs};

/// States that a store has seen what its trail has marked as propagated, whatever the calls of either did: at first, when a literal
/// is decided or implied, after going back, with a variable or a clause more.
pub fn what_is_marked_was_seen()
    ensures begun { (s : StoreView) (t : TrailView) → t.propagated ≡ 0 → HasSeen s t }
    ensures pushed { (s : StoreView) (t u : TrailView) (l : Lit) (r : Option ℕ) (n : ℕ)
        → t.propagated ≤ length t.literals → HasSeen s t → IsPushed t l r n u → HasSeen s u }
    ensures cut { (s : StoreView) (t u : TrailView) (n : ℕ) → HasSeen s t → IsCutTo t n u → HasSeen s u }
    ensures grown { (s : StoreView) (t u : TrailView) → HasSeen s t → HasSame t u → u.propagated ≡ t.propagated
        → HasSeen s u }
    ensures added { (x : TableView) (log : List Logged) (id : StepId) (s n : StoreView) (t : TrailView) → HasSeen s t
        → IsAdded x log id s n → HasSeen n t }
{}

/// States that each reason along a trail stays that of a clause whose others are false by earlier literals: from the empty trail on,
/// with a decision, after propagation, after going back, with a variable or a clause more; of a trail that was cleared it holds.
pub fn reasons_stay_right()
    ensures begun { (s : StoreView) → AreImplied s no_trail }
    ensures cleared { (s : StoreView) (t : TrailView) → t.literals ≡ [] → t.reasons ≡ [] → AreImplied s t }
    ensures decided { (s : StoreView) (t u : TrailView) (l : Lit) (n : ℕ) → AreImplied s t → IsPushed t l None n u
        → AreImplied s u }
    ensures propagated { (s : StoreView) (t u : TrailView) → AreImplied s t → AddsImplied s t u → AreImplied s u }
    ensures cut { (s : StoreView) (t u : TrailView) (n : ℕ) → AreImplied s t → IsCutTo t n u → AreImplied s u }
    ensures grown { (s : StoreView) (t u : TrailView) → AreImplied s t → HasSame t u → AreImplied s u }
    ensures added { (x : TableView) (log : List Logged) (id : StepId) (s n : StoreView) (t : TrailView)
        → length s.steps ≡ length s.clauses → AreImplied s t → IsAdded x log id s n → AreImplied n t }
{}

/// States that a clause that is added is over the terms of its table.
pub fn clauses_stay_known()
    ensures { (x : TableView) (log : List Logged) (id : StepId) (s n : StoreView) (vars : ℕ) → LiteralsAreBelow s vars
        → IsAdded x log id s n → length x.terms ≤ vars → LiteralsAreBelow n vars }
{}

/// States that clauses that are kept go place by place: each has been a clause with a step, and each such clause is there with it. They
/// are over the same variables.
pub fn kept_clauses_go_by_places()
    ensures each { (kept : List (Option StepId)) (clauses : List (List Lit)) (n : ℕ) → length kept ≡ length clauses
        → n < length (staying kept clauses) → (m : ℕ) × StaysAs kept clauses m n }
    ensures all { (kept : List (Option StepId)) (clauses : List (List Lit)) (m : ℕ) (s : StepId)
        → length kept ≡ length clauses → get_or kept m None ≡ Some s → (n : ℕ) × StaysAs kept clauses m n }
    ensures known { (kept : List (Option StepId)) (s n : StoreView) (vars : ℕ) → length kept ≡ length s.clauses
        → LiteralsAreBelow s vars → n.clauses ≡ staying kept s.clauses → LiteralsAreBelow n vars }
{}

/// States that where clauses are quiet under literals none of which holds with its complement, none is false and none is unit.
pub fn quiet_clauses_are_neither_false_nor_unit()
    ensures no_false { (held : List Lit) (clauses : List (List Lit)) (c : List Lit) → IsConsistent held
        → IsPropagated clauses held → Contains clauses c → IsFalsified held c → ⊥ }
    ensures no_unit { (held : List Lit) (clauses : List (List Lit)) (c : List Lit) (l : Lit) → IsConsistent held
        → IsPropagated clauses held → Contains clauses c → IsUnit held c l → ⊥ }
{}
