//! The error for cells that don't form a part and for parts that aren't resources.
use scim_text::Failed;
use thiserror::Error;

/// The cells don't form a part, or the part isn't a resource.
#[derive(Clone, Copy, Debug, PartialEq, Eq, Error)]
#[error("these are not the cells of such a part or resource")]
pub struct Invalid;

impl From<Invalid> for Failed<Invalid> {
    ghost use Rattle.std.specs.Prelude.{◌≡◌};
    ghost use Rattle.scim_text.specs.declared.memory.Failed.{Failed};

    ghost from_gives = { λ i f. f ≡ Failed.Because i };

    fn from(invalid: Invalid) -> Failed<Invalid> {
        Failed::Because(invalid)
    }
}
