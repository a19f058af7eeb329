//! The source of the stamps of events.
ghost use Rattle.std.specs.Prelude.{List, [], ◌∷◌, Option, IfOk, OnErr};
ghost use Rattle.scim_hub.specs.Streams.{Grows};
ghost use Rattle.scim_hub.specs.declared.events.Stamp.{Stamp};

use crate::events::Stamp;
use thiserror::Error;

/// The error if no stamp is available.
#[derive(Clone, Copy, Debug, PartialEq, Eq, Error)]
#[error("no stamp")]
pub struct NoStamp;

/// A source of stamps for events.
pub trait Stamps {
    /// The stamps returned so far, if known.
    ghost given: { Self → Option (List Stamp) };

    /// Returns the stamp for the next event.
    ///
    /// Fails with [`NoStamp`] if no stamp is available; then `given` is unchanged.
    fn next(&mut self) -> Result<Stamp, NoStamp>
        ensures given { IfOk result (λ stamp.
            Grows (given self.old) (given self.new) (stamp ∷ [])) }
        ensures none { OnErr result (Grows (given self.old) (given self.new) []) };
}
