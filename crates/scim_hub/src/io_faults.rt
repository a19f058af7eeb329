//! The errors of serving a stream.
use crate::events::HubFault;
use crate::stamps::NoStamp;
use thiserror::Error;

/// The error that ends the serving of a stream.
#[derive(Clone, Copy, Debug, PartialEq, Eq, Error)]
pub enum IoFault {
    /// A read failed.
    #[error("the stream can't be read")]
    Read,
    /// A write failed; a prefix of the text may have been written.
    #[error("the reply can't be written")]
    Write,
    /// The stream was read a million times without an end.
    #[error("the stream doesn't end")]
    Turns,
    /// No stamp was available for a piece.
    #[error("no stamp")]
    Stamp,
    /// The hub failed with this error for an event.
    #[error("{0}")]
    Hub(HubFault),
}

impl From<HubFault> for IoFault {
    ghost use Rattle.std.specs.Prelude.{◌≡◌};
    ghost use Rattle.scim_hub.specs.declared.io_faults.IoFault.{IoFault};

    ghost from_gives = { λ e f. f ≡ IoFault.Hub e };

    fn from(fault: HubFault) -> IoFault {
        IoFault::Hub(fault)
    }
}

impl From<NoStamp> for IoFault {
    ghost use Rattle.std.specs.Prelude.{◌≡◌};
    ghost use Rattle.scim_hub.specs.declared.io_faults.IoFault.{IoFault};

    ghost from_gives = { λ _ f. f ≡ IoFault.Stamp };

    fn from(_: NoStamp) -> IoFault {
        IoFault::Stamp
    }
}
