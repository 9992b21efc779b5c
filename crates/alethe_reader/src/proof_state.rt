//! What is known of a proof while it is judged: terms and names, and the clauses of the commands up to here.

ghost use Rattle.std.specs.Prelude.{◌≡◌, ℕ, ◌++◌, IfOk, IfErr, OnOk, MatchBool, Contains, false};
ghost use Rattle.spec_text.specs.Bytes.{among};
ghost use Rattle.spec_commands.specs.Checks.{Check};
ghost use Rattle.spec_checking.specs.Commands.{Known, known_at};
ghost use Rattle.term_core.specs.Tables.{AreIn, IsIn, clause_at, term_at};
ghost use Rattle.assertion_stack.specs.Stacks.{over_table, AreAssumed, IsStack};
ghost use Rattle.alethe_reader.specs.Holding.{IsKnown, HasKnown, with_entry};
ghost use Rattle.alethe_reader.specs.Parts.{HaveSameMembers};
ghost use Rattle.alethe_reader.specs.declared.errors.CommandError.TheVariants as errors;

use crate::errors::CommandError;
use assertion_stack::Stack;
use indexmap::IndexSet;
use std::alloc::Global;
use term_core::{Clause, NameTable, TermId, TermTable};
use term_reader::Scope;

/// Holds what is known. The clause of a name is at the name's number.
///
/// Contracts see it as what is known before a command of a proof, by the relation `IsKnown`. Source: Alethe specification,
/// commands.
#[derive(Drop)]
pub struct ProofState {
    /// The terms up to here.
    pub table: TermTable,
    /// The names of the script, and those that the proof defines up to here, with what they stand for.
    pub scope: Scope,
    /// The terms that the check asks about, each once, by their numbers.
    pub asserted: IndexSet<TermId>,
    /// The names of the assumes and steps up to here.
    pub names: NameTable,
    /// Their clauses.
    pub clauses: Vec<Clause>,
}

/// Adds terms to a set, each once, with a look-up by hash.
fn add_terms(set: &mut IndexSet<TermId>, ids: &[TermId]) -> Result<(), CommandError>
    ensures added { OnOk result (HaveSameMembers (set.old.keys ++ ids.now) set.new.keys) }
    ensures memory { IfErr result (λ e. e ≡ errors.Memory) }
{
    for id in ids {
        match set.insert(*id) {
            Ok(_) => {}
            Err(_) => return Err(CommandError::Memory),
        }
    }
    Ok(())
}

impl ProofState {
    /// Gives what is known at a script's check, before the first command of a proof. It takes the script's table and names,
    /// and the terms that the check assumes besides what is asserted.
    ///
    /// `Memory` comes where memory runs out. Source: Alethe specification, commands.
    pub fn at_check(
        alloc: Global,
        table: TermTable,
        stack: Stack,
        assumed: &[TermId],
    ) -> Result<ProofState, CommandError>
        ensures known { IfOk result (λ h. (limit : ℕ) (c : Check) → IsStack limit (over_table table stack) c.stack
            → AreAssumed table assumed.now c.assumptions → IsKnown h (known_at c)) }
        ensures memory { IfErr result (λ e. e ≡ errors.Memory) }
    {
        let mut asserted = IndexSet::new(alloc);
        add_terms(&mut asserted, stack.assertions.as_slice())?;
        add_terms(&mut asserted, assumed)?;
        Ok(ProofState {
            table,
            scope: stack.scope,
            asserted,
            names: NameTable::new(alloc),
            clauses: Vec::new(alloc),
        })
    }

    /// Tells whether the check asks about a term, by a look-up by hash.
    pub fn is_asserted(&self, id: TermId) -> bool
        requires there { IsIn self.now.table id }
        ensures { (k : Known) → IsKnown self.now k
            → MatchBool result (Contains k.asserted (term_at self.now.table id))
            (Contains k.asserted (term_at self.now.table id) → ⊥) }
    {
        self.table.ids_are_unique();
        self.asserted.contains(&id)
    }

    /// Adds a command's name with its clause.
    ///
    /// `Memory` comes where memory runs out; then nothing is promised of what is known. Source: Alethe specification, commands.
    pub fn add(&mut self, name: &[u8], clause: Clause) -> Result<(), CommandError>
        requires known { HasKnown self.old }
        requires new { among self.old.names name.now ≡ false }
        requires there { AreIn self.old.table clause }
        ensures added { OnOk result ((k : Known) → IsKnown self.old k
            → IsKnown self.new (with_entry k name.now (clause_at self.old.table clause))) }
        ensures memory { IfErr result (λ e. e ≡ errors.Memory) }
    {
        self.names.add(name)?;
        self.clauses.push(clause)?;
        Ok(())
    }
}
