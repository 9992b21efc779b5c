//! Unit propagation.

ghost use Rattle.std.specs.Prelude.{IfOk};
ghost use Rattle.clause_store.specs.Stores.{LiteralsAreBelow, HasSeen, HasSameClauses};
ghost use Rattle.clause_store.specs.Propagating.{AddsImplied, EndsPropagation};

use crate::store::ClauseStore;
use no_memory::NoMemory;
use proof_log::StepId;
use sat_trail::SatTrail;

/// What propagation comes to.
#[derive(Clone, Copy, Debug, PartialEq, Eq)]
pub enum Propagation {
    /// No clause is false or unit.
    Quiet,
    /// The clause of this step is false.
    Clash(StepId),
}

impl ClauseStore {
    /// Implies what the clauses force, until one is false or none is unit. `Clash` comes exactly where a clause is false.
    ///
    /// The trail must have a variable for each term of the clauses, and be the one that the earlier calls took, changed since by its
    /// own calls alone: what it has marked as propagated is what this store has seen. Each literal that is implied has as its reason
    /// a step whose clause has this literal and whose other literals are false by earlier ones.
    ///
    /// `NoMemory` may come before the end; what was implied until then stays, and is rightly implied.
    /// Source: Davis, Logemann and Loveland 1962.
    pub fn propagate(&mut self, trail: &mut SatTrail) -> Result<Propagation, NoMemory>
        requires known { LiteralsAreBelow self.old trail.old.vars }
        requires seen { HasSeen self.old trail.old }
        ensures same { HasSameClauses self.old self.new }
        ensures seen { HasSeen self.new trail.new }
        ensures adds { AddsImplied self.old trail.old trail.new }
        ensures ends { IfOk result (EndsPropagation self.old trail.new.literals) }
    {
        match self.parts.propagate(trail)? {
            Some(n) => Ok(Propagation::Clash(self.step(n))),
            None => Ok(Propagation::Quiet),
        }
    }
}
