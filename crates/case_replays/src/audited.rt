//! The audit after the events of a recording.
use crate::recordings::Texts;
use case_values::{CaseFault, push_rows_after};
use scim_command::{DatabaseFault, Recording, RunFault, events_of, read_events, service_over};
use scim_hub::{Hub, OwnedEvent};
use scim_policy_file::read_policy;
use scim_route::Routes;
use scim_shelf::MemoryShelf;
use scim_token::Tokens;
use std::alloc::Global;

/// Runs the events of a recording on a new hub, and returns the lines of the audit.
pub(crate) fn audit_lines(alloc: Global, texts: &Texts) -> Result<String, CaseFault> {
    let recording = texts.recording();
    let mut hub = hub_of(alloc, &recording)?;
    lines_after(alloc, &mut hub, recording.events)
}

/// Runs the events of an events file on a hub, and returns the lines of the audit.
fn lines_after(
    alloc: Global,
    hub: &mut Hub<MemoryShelf>,
    events: &str,
) -> Result<String, CaseFault> {
    run_events(alloc, hub, events)?;
    let mut text = String::new(alloc);
    push_rows_after(alloc, 0, hub.service().shelf().audit(), &mut text)?;
    Ok(text)
}

/// Returns a hub with the policy, tokens and users of a recording. Fails with `Missing` if the text of one of
/// them is invalid.
pub(crate) fn hub_of(
    alloc: Global,
    recording: &Recording<'_>,
) -> Result<Hub<MemoryShelf>, CaseFault> {
    let Ok(policy) = read_policy(alloc, recording.policy) else {
        return Err(CaseFault::Missing("policy"));
    };
    let Ok(tokens) = Tokens::read(alloc, recording.tokens) else {
        return Err(CaseFault::Missing("tokens"));
    };
    let routes = Routes::new(alloc)?;
    match service_over(alloc, policy, recording.users, recording.base) {
        Ok(service) => Ok(Hub::new(alloc, routes, service, tokens)),
        Err(_) => Err(CaseFault::Missing("users")),
    }
}

/// Runs the events of an events file on a hub. Fails with `Missing` if the file is invalid.
fn run_events(alloc: Global, hub: &mut Hub<MemoryShelf>, events: &str) -> Result<(), CaseFault> {
    match read_events(alloc, events) {
        Ok(owned) => run_recorded(alloc, hub, owned.as_slice()),
        Err(_) => Err(CaseFault::Missing("events")),
    }
}

fn run_recorded(
    alloc: Global,
    hub: &mut Hub<MemoryShelf>,
    owned: &[OwnedEvent],
) -> Result<(), CaseFault> {
    let events = events_of(alloc, owned)?;
    let _results = hub.run(alloc, events.as_slice())?;
    Ok(())
}
