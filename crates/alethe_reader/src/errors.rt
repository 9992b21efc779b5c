//! Why a proof is not read on.

ghost use Rattle.std.specs.Prelude.{◌≡◌};
ghost use Rattle.alethe_reader.specs.declared.errors.CommandError.TheVariants as errors;

use no_memory::NoMemory;
use smt_lexer::Place;
use spec_proofs::ProofKind;
use std::alloc::{AllocError, AllocFailed};
use thiserror::Error;

/// A fault of a proof with its offset in bytes.
#[derive(Clone, Copy, Debug, PartialEq, Eq)]
pub struct LocatedFault {
    /// The offset in the proof.
    pub offset: u64,
    /// What is wrong.
    pub kind: ProofKind,
}

/// Why a command is not read, or not right.
#[derive(Clone, Copy, Debug, PartialEq, Eq)]
pub enum CommandError {
    /// It has this fault.
    Fault(LocatedFault),
    /// Memory ran out.
    Memory,
}

/// Why a proof is not accepted, and where: a place of the proof.
#[derive(Clone, Copy, Debug, PartialEq, Eq)]
pub struct ProofFault {
    /// The place in the proof.
    pub place: Place,
    /// What is wrong.
    pub kind: ProofKind,
}

/// Why a check did not answer that the proof is accepted.
#[derive(Clone, Copy, Debug, Error, PartialEq, Eq)]
pub enum ProofStop {
    /// The first fault of the proof.
    #[error("{0:?}")]
    Fault(ProofFault),
    /// Out of memory, which says nothing of the proof.
    #[error("out of memory")]
    Memory,
}

/// Makes the error of a fault at an offset.
pub fn fault(offset: u64, kind: ProofKind) -> CommandError
    ensures { result ≡ errors.Fault (record { offset = offset; kind = kind }) }
{
    CommandError::Fault(LocatedFault { offset, kind })
}

impl From<AllocError> for CommandError {
    ghost use Rattle.alethe_reader.specs.declared.errors.CommandError.TheVariants as errors;

    ghost from_gives = { λ _ e. e ≡ errors.Memory };

    fn from(_error: AllocError) -> CommandError {
        CommandError::Memory
    }
}

impl<T: Drop> From<AllocFailed<T>> for CommandError {
    ghost use Rattle.alethe_reader.specs.declared.errors.CommandError.TheVariants as errors;

    ghost from_gives = { λ _ e. e ≡ errors.Memory };

    fn from(_error: AllocFailed<T>) -> CommandError {
        CommandError::Memory
    }
}

impl From<NoMemory> for CommandError {
    ghost use Rattle.alethe_reader.specs.declared.errors.CommandError.TheVariants as errors;

    ghost from_gives = { λ _ e. e ≡ errors.Memory };

    fn from(_error: NoMemory) -> CommandError {
        CommandError::Memory
    }
}
