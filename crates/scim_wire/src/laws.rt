//! Proof that a stream of requests can be read in only one way.
ghost use Rattle.std.specs.Prelude.{◌≡◌, ℕ, List, [], ◌∷◌, ◌++◌};
ghost use Rattle.scim_wire.specs.Messages.{HasItems};
ghost use Rattle.scim_wire.specs.Wires.{IsShut, StandsFor};

use crate::messages::Item;
use crate::wires::Wire;
use scim_audit::Refusal;

/// States that a stream has at most one list of items, and that a wire returns the items of this list.
///
/// So the result of [`Wire::feed`] depends on the bytes of the stream and not on how they are cut into
/// pieces. After a refusal the wire is shut.
pub fn streams_are_read_in_one_way()
    ensures has { (wire : Wire) (stream : List ℕ) (items : List Item) → StandsFor wire stream items
        → HasItems stream items }
    ensures one { (stream : List ℕ) (a b : List Item) → HasItems stream a → HasItems stream b
        → a ≡ b }
    ensures shut { (wire : Wire) (stream : List ℕ) (items : List Item) (refusal : Refusal)
        → StandsFor wire stream (items ++ Item.Refused refusal ∷ []) → IsShut wire }
{}
