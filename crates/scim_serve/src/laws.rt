//! Laws of what occurs while a server runs.
ghost use Rattle.scim_serve.specs.Occurrences.{RunsInParts, RunsWithoutReload};

/// Law: what occurs without a reload of the policy and the tokens is one run of the hub, as
/// [`Hub::run`](scim_hub::Hub::run) describes it.
pub fn runs_without_reload()
    ensures { RunsWithoutReload }
{}

/// Law: a run through events and reloads falls into parts. Up to the first reload it is one run of the hub
/// under the policy and the tokens at first, and the rest is a run that begins there with the new ones. So an
/// event that comes after a reload is answered by the new policy, on behalf of the client that has the new
/// token.
pub fn runs_in_parts()
    ensures { RunsInParts }
{}
