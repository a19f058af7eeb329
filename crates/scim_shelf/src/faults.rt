//! The faults of a shelf, apart from running out of memory.
use scim_text::Failed;
use thiserror::Error;

/// A fault of a shelf.
#[derive(Clone, Copy, Debug, PartialEq, Eq, Error)]
pub enum ShelfFault {
    /// The device failed or refused a read or a write. `Shelf::failures` counts these errors.
    #[error("the store can't be read or written")]
    Device,
    /// The last audit number is in use, so nothing can be committed.
    #[error("the audit is full")]
    Full,
}

impl From<ShelfFault> for Failed<ShelfFault> {
    ghost use Rattle.std.specs.Prelude.{◌≡◌};
    ghost use Rattle.scim_text.specs.declared.memory.Failed.{Failed};

    ghost from_gives = { λ e f. f ≡ Failed.Because e };

    fn from(fault: ShelfFault) -> Failed<ShelfFault> {
        Failed::Because(fault)
    }
}
