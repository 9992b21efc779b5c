//! What the definitions imply. Each law is a function whose contract is the law; it computes nothing.

ghost use Rattle.std.specs.Prelude.{◌↔◌, ℕ, List, Contains};
ghost use Rattle.term_core.specs.declared.ids.Lit.{Lit};
ghost use Rattle.clause_literals.specs.Literals.{SameLits};
ghost use Rattle.proof_log.specs.declared.premises.StepId.{StepId};
ghost use Rattle.conflict_learn.specs.Conflicts.{Conflict};
ghost use Rattle.conflict_learn.specs.Points.{IsUip};

/// States that a conflict has one first unique implication point: the literals of its clause are known, and the steps that it follows
/// from.
pub fn points_are_unique()
    ensures clause { (c : Conflict) (n : ℕ) (ls ms : List Lit) (ps qs : List StepId)
        → IsUip c n ls ps → IsUip c n ms qs → SameLits ls ms }
    ensures premises { (c : Conflict) (n : ℕ) (ls ms : List Lit) (ps qs : List StepId)
        → IsUip c n ls ps → IsUip c n ms qs → (s : StepId) → Contains ps s ↔ Contains qs s }
{}
