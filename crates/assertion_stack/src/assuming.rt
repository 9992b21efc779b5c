//! Checks that assume literals.

ghost use Rattle.std.specs.Prelude.{◌≡◌, ℕ, [], IfOk, OnErr};
ghost use Rattle.spec_sorts.specs.Signatures.{Signature};
ghost use Rattle.spec_commands.specs.Commands.{CheckSatAssuming};
ghost use Rattle.spec_commands.specs.Stack.{Stack as ScriptStack, performed};
ghost use Rattle.smt_sexpr.specs.Items.{trees_meant};
ghost use Rattle.term_reader.specs.Building.{KeepsTable};
ghost use Rattle.term_reader.specs.Scopes.{HasSignature, ScopeMeans};
ghost use Rattle.sort_check.specs.Reads.{room_meant};
ghost use Rattle.assertion_stack.specs.Assertions.{tree_offsets, tree_texts};
ghost use Rattle.assertion_stack.specs.Stacks.{over_table, HasStack, IsStack, Performs, KeepsAtCheck};
ghost use Rattle.assertion_stack.specs.Literals.{EndsLiterals, roomy_literals};

use crate::asserting::room;
use crate::literals::literals;
use crate::rows::Rows;
use crate::stack::{Effect, Stack};
use no_memory::NoMemory;
use smt_sexpr::{Trees, offset, split};
use sort_check::{Room, find_room};
use std::alloc::Global;
use term_core::{TermId, TermTable};
use term_reader::{ReadError, Scope};

/// Holds what a check assumes: its literals, in their order.
///
/// Source: SMT-LIB 2.6, section 4.2.5.
#[derive(Drop)]
pub struct Assumed {
    /// The numbers of their terms in the table.
    pub ids: Vec<TermId>,
    /// The offset of the first byte of each in the script, in bytes.
    pub offsets: Vec<u64>,
    /// How each is written, as `print` prints it.
    pub texts: Rows,
}

impl Assumed {
    /// Makes what a check assumes that assumes nothing. It takes no memory.
    pub fn nothing(alloc: Global) -> Assumed
        ensures { (result.ids.items ≡ []) × (result.offsets.items ≡ []) × (result.texts ≡ []) }
    {
        Assumed {
            ids: Vec::new(alloc),
            offsets: Vec::new(alloc),
            texts: Rows::new(alloc),
        }
    }
}

/// Lists where trees begin.
fn offsets_of(alloc: Global, trees: Trees<'_>) -> Result<Vec<u64>, NoMemory>
    ensures { IfOk result (λ v. v.items ≡ tree_offsets (trees_meant trees.entry)) }
{
    let mut offsets = Vec::new(alloc);
    let mut rest = trees;
    'trees: while let Some((first, after)) = split(rest) {
        offsets.push(offset(first))?;
        rest = after;
    }
    Ok(offsets)
}

/// Prints trees, each as a row.
fn texts_of(alloc: Global, trees: Trees<'_>) -> Result<Rows, NoMemory>
    ensures { IfOk result (λ rows. rows ≡ tree_texts (trees_meant trees.entry)) }
{
    let mut texts = Rows::new(alloc);
    let mut rest = trees;
    'trees: while let Some((first, after)) = split(rest) {
        texts.add_printed(alloc, first)?;
        rest = after;
    }
    Ok(texts)
}

/// Lists where trees begin, and prints them.
fn written_of(alloc: Global, trees: Trees<'_>) -> Result<(Vec<u64>, Rows), NoMemory>
    ensures { IfOk result (λ x. (x.0.items ≡ tree_offsets (trees_meant trees.entry))
        × (x.1 ≡ tree_texts (trees_meant trees.entry))) }
{
    let offsets = offsets_of(alloc, trees)?;
    let texts = texts_of(alloc, trees)?;
    Ok((offsets, texts))
}

/// Reads trees as literals, where there is room for their terms. After a fault the table may have some of them.
fn assume(
    alloc: Global,
    table: &mut TermTable,
    scope: &mut Scope,
    room: Room,
    trees: Trees<'_>,
) -> Result<Vec<TermId>, ReadError>
    requires { HasSignature table.old scope.old }
    ensures ends { (s : Signature) → ScopeMeans table.old scope.old s → EndsLiterals table.new
        (roomy_literals (room_meant room) s (trees_meant trees.entry)) result }
    ensures keeps { KeepsTable table.old table.new }
    ensures same { scope.new ≡ scope.old }
{
    match literals(alloc, table, scope, trees) {
        Err(stop) => Err(stop),
        Ok(ids) => match find_room(alloc, table, scope, room, &ids) {
            Err(stop) => Err(stop),
            Ok(()) => Ok(ids),
        },
    }
}

impl Stack {
    /// Begins a check that assumes literals, by a `check-sat-assuming` at an offset in bytes, whose word is at a place. Each
    /// of the trees is a literal: `p` or `(not p)`, where `p` is a declared or defined name of sort Bool without parameters.
    /// Their terms come into the table, and count for this check alone.
    ///
    /// - `Fault` has the first fault, with its offset, literal by literal: `NotLiteral` at the tree where it is no symbol and
    ///   no negated one, or where the name is of a theory, has parameters or another sort; `UnknownSymbol` at the symbol. Then
    ///   comes `Full` at the command where the literals have more different subterms than the limit says.
    /// - `Memory` may come at any allocation, and says nothing of the command.
    ///
    /// After each of these stack and table are as they were. Its time goes with the literals. Source: SMT-LIB 2.6,
    /// section 4.2.5.
    pub fn check_assuming<'a>(
        &mut self,
        alloc: Global,
        table: &mut TermTable,
        at: u64,
        place: u64,
        literals: Trees<'_>,
    ) -> Result<Effect<'a>, ReadError>
        requires { HasStack (over_table table.old self.old) }
        ensures performs { (limit : ℕ) (s : ScriptStack) → IsStack limit (over_table table.old self.old) s
            → Performs limit (performed limit at s (CheckSatAssuming place (trees_meant literals.entry)))
            (over_table table.new self.new) result }
        ensures check { KeepsAtCheck result (over_table table.old self.old) (over_table table.new self.new) }
        ensures same { OnErr result ((self.new ≡ self.old) × (table.new ≡ table.old)) }
    {
        let Ok((offsets, texts)) = written_of(alloc, literals) else {
            return Err(ReadError::Memory);
        };
        let room = room(self, at);
        let terms = table.len();
        match assume(alloc, table, &mut self.scope, room, literals) {
            Ok(ids) => {
                self.started = true;
                Ok(Effect::Check(
                    place,
                    Assumed {
                        ids,
                        offsets,
                        texts,
                    },
                ))
            }
            Err(stop) => {
                table.cut(terms);
                Err(stop)
            }
        }
    }
}
