//! Terms by their heads and the numbers of their arguments.

ghost use Rattle.std.specs.Prelude.{◌≡◌, IfOk};

use crate::ids::{SymbolId, TermId};
use crate::sorts::Sort;
use no_memory::NoMemory;
use ratio128::Ratio;
use smallvec::SmallVec;
use std::alloc::Global;

/// Comes before the arguments of a term.
///
/// Source: SMT-LIB 2.6, section 3.6, theories Core and Reals. Chains, `distinct`, `>` and `>=` are read as terms of these.
#[derive(Clone, Copy, Debug, PartialEq, Eq, Hash)]
pub enum Head {
    /// The truth value true, which takes no argument.
    True,
    /// The truth value false, which takes no argument.
    False,
    /// The negation of its one argument.
    Not,
    /// That all of its arguments are true, of which there is one at least.
    And,
    /// That one of its arguments is true, of which there is one at least.
    Or,
    /// That exactly one of its two arguments is true.
    Xor,
    /// That the second of its two arguments is true where the first is.
    Implies,
    /// That its two arguments, of one sort, have the same value.
    Equal,
    /// The second of its three arguments where the first is true, else the third.
    Ite,
    /// The negative of its one argument, or the difference of its two.
    Minus,
    /// The sum of its arguments, of which there is one at least.
    Plus,
    /// The product of its arguments, of which there is one at least.
    Times,
    /// The quotient of its two arguments.
    Divide,
    /// That the first of its two arguments is less than the second.
    Less,
    /// That the first of its two arguments is at most the second.
    AtMost,
    /// A number, which takes no argument.
    Literal(Ratio),
    /// The declared symbol of that number, which takes arguments of the sorts that it is declared with.
    Apply(SymbolId),
    /// The parameter of that number, from 0, and of that sort in the body of a definition. It takes no argument.
    Parameter(u64, Sort),
}

/// Lists the arguments of a term by their numbers: up to three of them take no memory of their own.
pub type Arguments = SmallVec<TermId, 3>;

/// Holds a term by its head, with arguments of the same table.
#[derive(Drop, Debug, PartialEq, Eq, Hash)]
pub struct Node {
    /// What is before the arguments.
    pub head: Head,
    /// The arguments, in their order.
    pub arguments: Arguments,
}

impl Node {
    /// Makes a node by a copy of its arguments.
    ///
    /// `NoMemory` comes where more than three arguments find no memory.
    pub fn new(alloc: Global, head: Head, arguments: &[TermId]) -> Result<Node, NoMemory>
        ensures { IfOk result (λ n. (n.head ≡ head) × (n.arguments.items ≡ arguments.now)) }
    {
        Ok(Node {
            head,
            arguments: SmallVec::from_slice(alloc, arguments)?,
        })
    }
}
