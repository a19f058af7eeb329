//! Converts the events of an events file to events for a hub.
ghost use Rattle.std.specs.Prelude.{◌≡◌, IfOk, map};
ghost use Rattle.scim_hub.specs.HubStates.{event_of, owned_event_of};

use scim_hub::{Event, OwnedEvent};
use scim_text::NoMemory;
use std::alloc::Global;

/// Returns the events in `owned` as events for a hub, in the same order. Borrows the pieces from `owned`.
pub fn events_of(alloc: Global, owned: &[OwnedEvent]) -> Result<Vec<Event<'_>>, NoMemory>
    ensures { IfOk result (λ events. map event_of events.items ≡ map owned_event_of owned.now) }
{
    Ok(owned.iter().map(|event| event.event()).collect(alloc)?)
}
