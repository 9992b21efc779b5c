//! Why a step of linear arithmetic is not taken.

use ratio128::Wide;
use std::alloc::AllocError;
use thiserror::Error;

/// Says why a step of linear arithmetic is not taken.
///
/// Source: Alethe specification, `la_generic`; the bound on numbers and out of memory are own.
#[derive(Clone, Copy, Debug, PartialEq, Eq, Error)]
pub enum ArithFault {
    /// A literal is no order, and no negated equality, of numbers; an argument is no number; or there are not as many arguments as
    /// literals.
    #[error("a literal or an argument is none of the rule")]
    Shape,
    /// All is well formed, and neither sum of the negated literals is a contradiction.
    #[error("the sum of the negated literals is no contradiction")]
    NoContradiction,
    /// The first operation that leaves the bound on numbers: of the arguments first, then of the forms, then of the sums.
    #[error("a number leaves 128 bits")]
    Wide(Wide),
    /// Memory ran out before that was known.
    #[error("out of memory")]
    Memory,
}

impl From<AllocError> for ArithFault {
    ghost use Rattle.std.specs.Prelude.{◌≡◌};
    ghost use Rattle.linear_form.specs.declared.arith_fault.ArithFault.TheVariants.{Memory};

    ghost from_gives = { λ _ r. r ≡ Memory };

    fn from(_error: AllocError) -> ArithFault {
        ArithFault::Memory
    }
}
