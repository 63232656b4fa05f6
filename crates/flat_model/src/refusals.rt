//! The answers that many crates share.

ghost use Rattle.std.specs.Prelude.{◌≡◌};

use std::alloc::{AllocError, AllocFailed};

/// Memory ran out. It is the one answer that any call which takes memory may give at any time.
#[derive(Clone, Copy, Debug, PartialEq, Eq)]
pub struct NoMemory;

impl From<AllocError> for NoMemory {
    fn from(_error: AllocError) -> NoMemory {
        NoMemory
    }
}

impl<T: Drop> From<AllocFailed<T>> for NoMemory {
    fn from(_error: AllocFailed<T>) -> NoMemory {
        NoMemory
    }
}

/// A call's own refusal, or want of memory.
#[derive(Clone, Debug, PartialEq, Eq, Drop)]
pub enum Refused<R> {
    Because(R),
    NoMemory,
}

impl<R> From<NoMemory> for Refused<R> {
    ghost use Rattle.flat_model.specs.declared.refusals.Refused.TheVariants as refused;

    ghost from_gives = { λ _ refusal. refusal ≡ refused.NoMemory };

    fn from(_error: NoMemory) -> Refused<R> {
        Refused::NoMemory
    }
}

/// A journal is not one of the run that was named.
#[derive(Clone, Copy, Debug, PartialEq, Eq)]
pub struct NotThisRun {
    /// The index of the first entry that breaks a rule, or the number of entries where all are legal
    /// and the journal is not whole.
    pub place: u64,
}
