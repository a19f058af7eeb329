//! The error of a failed allocation, and a function that appends to a vector and can return this error.
ghost use Rattle.std.specs.Prelude.{◌≡◌, ◌++◌, ◌∷◌, [], if◌then◌else◌, is_ok};

use std::alloc::{AllocError, AllocFailed};
use std::error::Error as StdError;
use std::fmt;
use thiserror::Error;

/// An allocation failed. A public function that returns this leaves the
/// values that it borrows unchanged, unless its comment says otherwise.
#[derive(Clone, Copy, Debug, PartialEq, Eq, Error)]
#[error("out of memory")]
pub struct NoMemory;

impl From<AllocError> for NoMemory {
    fn from(_error: AllocError) -> NoMemory {
        NoMemory
    }
}

impl<T: Drop> From<AllocFailed<T>> for NoMemory {
    fn from(_error: AllocFailed<T>) -> NoMemory {
        NoMemory
    }
}

/// Appends a value. If memory runs out, the vector is unchanged and the value is dropped.
///
/// `Vec::push` returns the value with its error instead. Callers that don't need the value back should
/// call this function: dropping the value in each caller would need a longer proof.
pub fn push<T: Drop>(values: &mut Vec<T>, value: T) -> Result<(), NoMemory>
    ensures items { values.new.items ≡ (if is_ok result then values.old.items ++ value
        ∷ [] else values.old.items) }
{
    values.push(value)?;
    Ok(())
}

/// The error of a function that allocates and can also fail for a reason `E` of its own.
#[derive(Clone, Copy, Debug, PartialEq, Eq)]
pub enum Failed<E> {
    /// An error in the arguments, independent of the available memory.
    Because(E),
    /// An allocation failed.
    NoMemory,
}

// Not derived, because `Because` must print the message of the error that it contains.
impl<E: fmt::Display> fmt::Display for Failed<E> {
    fn fmt<W: fmt::Write>(&self, f: &mut fmt::Formatter<W>) -> fmt::Result {
        match self {
            Failed::Because(fault) => fault.fmt(f),
            Failed::NoMemory => NoMemory.fmt(f),
        }
    }
}

impl<E: fmt::Debug + fmt::Display + Drop> StdError for Failed<E> {}

impl<E> From<NoMemory> for Failed<E> {
    ghost use Rattle.std.specs.Prelude.{◌≡◌};
    ghost use Rattle.scim_text.specs.declared.memory.Failed.{Failed};

    ghost from_gives = { λ _ f. f ≡ Failed.NoMemory };

    fn from(_: NoMemory) -> Failed<E> {
        Failed::NoMemory
    }
}

impl<E> From<AllocError> for Failed<E> {
    ghost use Rattle.std.specs.Prelude.{◌≡◌};
    ghost use Rattle.scim_text.specs.declared.memory.Failed.{Failed};

    ghost from_gives = { λ _ f. f ≡ Failed.NoMemory };

    fn from(_: AllocError) -> Failed<E> {
        Failed::NoMemory
    }
}

impl<E, T: Drop> From<AllocFailed<T>> for Failed<E> {
    ghost use Rattle.std.specs.Prelude.{◌≡◌};
    ghost use Rattle.scim_text.specs.declared.memory.Failed.{Failed};

    ghost from_gives = { λ _ f. f ≡ Failed.NoMemory };

    fn from(_: AllocFailed<T>) -> Failed<E> {
        Failed::NoMemory
    }
}
