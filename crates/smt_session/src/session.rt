//! A session: it takes commands one after the other, and writes what each is answered.

ghost use Rattle.std.specs.Prelude.{◌≡◌, ◌≤◌, [], IfOk, IsErrOf};
ghost use Rattle.world_io.specs.Outside.{Rose};
ghost use Rattle.spec_sessions.specs.States.{State, first_state, mode_of};
ghost use Rattle.search_loop.specs.Rounds.{HasLimit};
ghost use Rattle.smt_session.specs.Sessions.{execution_meant, IsSession, Stepped};

use crate::mode::{ExecutionMode, Mode};
use crate::responses::{after_of, send_response};
use crate::script::{Script, take};
use assertion_stack::{Assumed, Stack};
use check_evidence::Evidence;
use no_memory::NoMemory;
use sat_budget::{Budget, Limits};
use smt_sexpr::Sexpr;
use spec_commands::commands_keep_stacks;
use spec_proof_texts::laws::commands_leave_script_names;
use spec_proof_texts::readable_laws::commands_leave_readable_definitions;
use spec_sessions::laws::what_is_shown_is_so;
use std::alloc::Global;
use std::marker::Model;
use term_core::TermTable;
use world_io::{Failed, Sink};

/// Tells what comes after a command.
#[derive(Clone, Copy, Debug, PartialEq, Eq)]
pub enum After {
    /// It was taken; the session goes on.
    Went,
    /// It was refused, and changed nothing: the whole session is the same as before it, and goes on.
    Refused,
    /// It ended the script.
    Ended,
}

/// Tells why a step came to no end.
#[derive(Clone, Copy, Debug, PartialEq, Eq)]
pub enum Halt {
    /// Memory ran out: the session is as before the command, and nothing was written.
    Memory,
    /// The sink failed: the session is as after the command, and a prefix of its response was written.
    Sink,
}

impl From<NoMemory> for Halt {
    ghost use Rattle.smt_session.specs.declared.session.Halt.TheVariants as halts;

    ghost from_gives = { λ _ r. r ≡ halts.Memory };

    fn from(_error: NoMemory) -> Halt {
        Halt::Memory
    }
}

/// Holds what a script has stated up to here, what each search of its checks may spend, and what the last check found.
///
/// Contracts see it as a state of the definitions, by the relation `IsSession`. Source: SMT-LIB 2.6, section 4.2.
#[derive(Drop)]
pub struct Session {
    alloc: Global,
    script: Script,
    limits: Limits,
    mode: Mode,
}

impl Model for Session {
    ghost use Rattle.std.specs.Prelude.{◌≡◌};
    ghost use Rattle.std.specs.Coded.{codes};
    ghost use Rattle.term_core.specs.Tables.{table_code};
    ghost use Rattle.search_loop.specs.Rounds.{HasLimit};
    ghost use Rattle.smt_session.specs.Sessions.{SessionView, HoldsScript};

    ghost Value = { SessionView };

    ghost coded = { Prim.hlevel (codes, table_code) };

    ghost view = { λ x. record { script = x.script; limits = x.limits; mode = x.mode } };

    ghost invariant = { λ x. HoldsScript x.limits.terms x.script × HasLimit x.limits x.script.budget };
}

impl Session {
    /// Makes a session that has stated nothing.
    ///
    /// `limits.conflicts` tells how many conflicts each search of a check may learn from. `limits.terms` tells how many names
    /// there may be, and how many different subterms the terms of a command may have. `NoMemory` comes where memory ran out.
    pub fn new(alloc: Global, limits: &Limits, mode: Mode) -> Result<Session, NoMemory>
        ensures begun { IfOk result (λ x. IsSession x first_state × (x.limits ≡ limits.now) × (x.mode ≡ mode)) }
        ensures budget { IfOk result (λ x. (x.script.budget.learned ≡ []) × (x.script.budget.exchanges ≡ [])
            × HasLimit limits.now x.script.budget) }
    {
        commands_keep_stacks();
        commands_leave_script_names();
        commands_leave_readable_definitions();
        let budget = Budget::new(alloc, limits)?;
        Ok(Session {
            alloc,
            script: Script {
                table: TermTable::new(alloc),
                stack: Stack::new(alloc, limits.terms),
                budget,
                answer: None,
                assumed: Assumed::nothing(alloc),
            },
            limits: *limits,
            mode,
        })
    }

    /// Gives the budget of the last check that was answered, with its limit, the clauses that it learned and the exchanges
    /// that it made; before the first one there are none. At `unknown` they show the reason. At `sat` and `unsat` some search
    /// with that model, or with that printed proof, has them: no clause says that it is the one that was run. It takes no
    /// memory.
    pub fn budget(&self) -> &Budget
        ensures budget { result.now ≡ self.now.script.budget }
        ensures limit { HasLimit self.now.limits result.now }
    {
        &self.script.budget
    }

    /// Gives the mode in which the session is. It takes no memory.
    ///
    /// Source: SMT-LIB 2.6, section 4.1.1.
    pub fn execution_mode(&self) -> ExecutionMode
        ensures { (s : State) → IsSession self.now s → execution_meant result ≡ mode_of s }
    {
        if !self.script.stack.started {
            return ExecutionMode::Start;
        }
        match &self.script.answer {
            None => ExecutionMode::Assert,
            Some(Evidence::Model(_)) => ExecutionMode::Sat,
            Some(Evidence::Proof(_, _)) => ExecutionMode::Unsat,
            Some(Evidence::Reason(_)) => ExecutionMode::Unknown,
        }
    }

    /// Takes the command or the question that an s-expression is, and writes what it is answered.
    ///
    /// It takes its memory first, then changes the session, then writes, and passes on what was written: then nothing waits
    /// in a buffer. What is asked is answered from what the last check found, while nothing was stated or taken back since:
    /// from one model, one proof or one reason. A question changes nothing, and so does a command that is refused: the whole
    /// session is the same as before it, with its table, its stack, its budget and its mode.
    ///
    /// `Memory` comes where memory ran out: the session is the same as before the command, too, and nothing was written.
    /// `Sink` comes only where the sink's count of faults rose in this call, and there was no room for the response: the
    /// session is as after the command, and a prefix of its response was written.
    /// Source: SMT-LIB 2.6, sections 3.9 and 4.2.
    pub fn step<K: Sink>(&mut self, command: &Sexpr<'_>, out: &mut K) -> Result<After, Halt>
        ensures same { (self.new.limits ≡ self.old.limits) × (self.new.mode ≡ self.old.mode) }
        ensures limit { HasLimit self.new.limits self.new.script.budget }
        ensures stepped { Stepped self.old self.new command.now result (K.state out.old) (K.state out.new) }
        ensures failed { IsErrOf result Halt.Sink → Rose (K.state out.old).faults (K.state out.new).faults }
        ensures count { (K.state out.old).faults ≤ (K.state out.new).faults }
    {
        what_is_shown_is_so();
        let response = take(self.alloc, &mut self.script, &self.limits, command)?;
        match send_response(self.mode, &self.script, &response, out) {
            Ok(()) => Ok(after_of(&response)),
            Err(Failed) => Err(Halt::Sink),
        }
    }
}
