//! Why a model is not read.

ghost use Rattle.std.specs.Prelude.{◌≡◌};
ghost use Rattle.model_read.specs.declared.errors.ReadError.TheVariants as errors;

use no_memory::NoMemory;
use smt_lexer::Place;
use spec_model_files::ModelKind;
use std::alloc::{AllocError, AllocFailed};
use thiserror::Error;

/// A fault of a model with its offset in bytes.
#[derive(Clone, Copy, Debug, PartialEq, Eq)]
pub(crate) struct LocatedFault {
    /// The offset in the model's text.
    pub(crate) offset: u64,
    /// What is wrong.
    pub(crate) kind: ModelKind,
}

/// Why a part of a model is not read.
#[derive(Clone, Copy, Debug, PartialEq, Eq)]
pub(crate) enum ReadError {
    /// It has this fault.
    Fault(LocatedFault),
    /// Memory ran out.
    Memory,
}

/// Why a model is not read, and where: a place of its text.
#[derive(Clone, Copy, Debug, PartialEq, Eq)]
pub struct ModelFault {
    /// The place in the model's text.
    pub place: Place,
    /// What is wrong.
    pub kind: ModelKind,
}

/// Why the reading of a model did not give an interpretation.
#[derive(Clone, Copy, Debug, Error, PartialEq, Eq)]
pub enum ModelStop {
    /// The first fault of the model's text.
    #[error("{0:?}")]
    Fault(ModelFault),
    /// Out of memory, which says nothing of the model.
    #[error("out of memory")]
    Memory,
}

/// Makes a fault at an offset.
pub(crate) fn fault_at(offset: u64, kind: ModelKind) -> LocatedFault
    ensures { result ≡ record { offset = offset; kind = kind } }
{
    LocatedFault { offset, kind }
}

impl From<LocatedFault> for ReadError {
    ghost use Rattle.model_read.specs.declared.errors.ReadError.TheVariants as errors;

    ghost from_gives = { λ f e. e ≡ errors.Fault f };

    fn from(fault: LocatedFault) -> ReadError {
        ReadError::Fault(fault)
    }
}

impl From<AllocError> for ReadError {
    ghost use Rattle.model_read.specs.declared.errors.ReadError.TheVariants as errors;

    ghost from_gives = { λ _ e. e ≡ errors.Memory };

    fn from(_error: AllocError) -> ReadError {
        ReadError::Memory
    }
}

impl<T: Drop> From<AllocFailed<T>> for ReadError {
    ghost use Rattle.model_read.specs.declared.errors.ReadError.TheVariants as errors;

    ghost from_gives = { λ _ e. e ≡ errors.Memory };

    fn from(_error: AllocFailed<T>) -> ReadError {
        ReadError::Memory
    }
}

impl From<NoMemory> for ReadError {
    ghost use Rattle.model_read.specs.declared.errors.ReadError.TheVariants as errors;

    ghost from_gives = { λ _ e. e ≡ errors.Memory };

    fn from(_error: NoMemory) -> ReadError {
        ReadError::Memory
    }
}
