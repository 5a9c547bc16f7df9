ghost use Rattle.std.specs.Prelude.{◌≡◌, ◌+◌, ◌-◌, ◌^◌, ◌≤◌, min};

use std::alloc::{AllocError, AllocFailed};
use thiserror::Error;

/// There was no memory for what a call makes.
#[derive(Clone, Copy, Debug, PartialEq, Eq, Error)]
#[error("no memory")]
pub struct NoMemory;

/// A device refused a call. The device's count of faults has risen.
#[derive(Clone, Copy, Debug, PartialEq, Eq, Error)]
#[error("a device refused a call")]
pub struct Failed;

impl From<AllocError> for NoMemory {
    ghost from_gives = { λ _ e. e ≡ record {} };

    fn from(_error: AllocError) -> NoMemory {
        NoMemory
    }
}

impl<T: Drop> From<AllocFailed<T>> for NoMemory {
    ghost from_gives = { λ _ e. e ≡ record {} };

    fn from(_error: AllocFailed<T>) -> NoMemory {
        NoMemory
    }
}

// Counts one fault more, up to the last value of the count.
pub(crate) fn count_fault(faults: &mut u64)
    ensures later { faults.old ≤ faults.new }
    ensures more { faults.new ≡ min (faults.old + 1) (2 ^ 64 - 1) }
{
    *faults = faults.saturating_add(1);
}
