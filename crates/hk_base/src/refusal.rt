// The answers other than a value: want of memory, and a fault of the input.
use std::alloc::{AllocError, AllocFailed};

/// Want of memory.
#[derive(Clone, Copy, Debug, PartialEq, Eq, Drop)]
pub struct NoMemory;

impl From<AllocError> for NoMemory {
    fn from(_: AllocError) -> Self {
        NoMemory
    }
}

impl<T: Drop> From<AllocFailed<T>> for NoMemory {
    fn from(_: AllocFailed<T>) -> Self {
        NoMemory
    }
}

/// Why a call has no value: a fault of what it was given, or want of memory.
#[derive(Clone, Copy, Debug, PartialEq, Eq, Drop)]
pub enum Refusal<F> {
    Fault(F),
    NoMemory,
}

impl<F: Drop> From<AllocError> for Refusal<F> {
    ghost use Rattle.std.specs.Prelude.{◌≡◌};
    ghost use Rattle.hk_base.specs.declared.refusal.Refusal.TheVariants.{NoMemory};

    ghost from_gives = { λ _ e. e ≡ NoMemory };

    fn from(_: AllocError) -> Self {
        Refusal::NoMemory
    }
}

impl<F: Drop, T: Drop> From<AllocFailed<T>> for Refusal<F> {
    ghost use Rattle.std.specs.Prelude.{◌≡◌};
    ghost use Rattle.hk_base.specs.declared.refusal.Refusal.TheVariants.{NoMemory};

    ghost from_gives = { λ _ e. e ≡ NoMemory };

    fn from(_: AllocFailed<T>) -> Self {
        Refusal::NoMemory
    }
}

impl<F: Drop> From<crate::refusal::NoMemory> for Refusal<F> {
    ghost use Rattle.std.specs.Prelude.{◌≡◌};
    ghost use Rattle.hk_base.specs.declared.refusal.Refusal.TheVariants.{NoMemory};

    ghost from_gives = { λ _ e. e ≡ NoMemory };

    fn from(_: crate::refusal::NoMemory) -> Self {
        Refusal::NoMemory
    }
}
