//! A fault, or want of memory.
ghost use Rattle.std.specs.Prelude.{◌≡◌};
ghost use Rattle.files.specs.declared.faults.failure.Failure.TheVariants.{Fault, Memory};

use crate::faults::at::At;
use crate::faults::file::FileFault;
use recording::faults::record::RecordFault;
use std::alloc::{AllocError, AllocFailed};

/// Why there is no answer: a fault of what was given, or want of memory.
#[derive(Clone, Copy, PartialEq, Eq, Debug)]
pub enum Failure<F> {
    Fault(F),
    Memory,
}

impl<F> From<AllocError> for Failure<F> {
    ghost from_gives = { λ _ y. y ≡ Memory };

    fn from(_error: AllocError) -> Self {
        Failure::Memory
    }
}

impl<F, T: Drop> From<AllocFailed<T>> for Failure<F> {
    ghost from_gives = { λ _ y. y ≡ Memory };

    fn from(_error: AllocFailed<T>) -> Self {
        Failure::Memory
    }
}

// For each kind of fault apart: an impl for all of them would meet the one for want of memory.
impl<F: From<FileFault>> From<FileFault> for Failure<F> {
    ghost from_gives = { λ x y. (f : F) × F.From.from_gives x f × (y ≡ Fault f) };

    fn from(fault: FileFault) -> Self {
        Failure::Fault(F::from(fault))
    }
}

impl<F: From<At<RecordFault>>> From<At<RecordFault>> for Failure<F> {
    ghost from_gives = { λ x y. (f : F) × F.From.from_gives x f × (y ≡ Fault f) };

    fn from(at: At<RecordFault>) -> Self {
        Failure::Fault(F::from(at))
    }
}
