//! The promise of the server: what each reply shows, what changes, what a denial does and what its audit row names;
//! and that a client can't tell apart two stores that are alike for it, by the bytes of its connections.
//!
//! The laws are about what the running code ensures: `Runs` of `scim_service` is the contract of
//! [`Service::run`](scim_service::Service::run), and `Runs` of `scim_hub` that of [`Hub::run`](scim_hub::Hub::run).
//! `docs/THEOREM.md` says in words what each means.
#![tactic(auto)]

ghost use Rattle.scim_headline.specs.Headline.{PromisesAreKept, LeastRulesDecide, ClientsCanNotTell};
ghost use Rattle.scim_headline.specs.Connections.{OutputsAreForTheirConnection, RunsInParts, QuietEventsLeadAlike, ConnectionsCanNotTell};

/// Law: for every policy, store and list of requests that the service runs, each reply shows exactly the cells that
/// the policy grants its client and `returned` admits, of the resource named or of the page that the query selects
/// from the client's view; a refusal changes no resource; the audit row of a denial names the deciding rule; and the
/// resources afterwards are those of the granted requests alone.
pub fn promises_are_kept()
    ensures { PromisesAreKept }
{}

/// Law: the least rule that fits decides, and rule 0 denies if none fits. For reading this holds if no rule of the
/// policy has a value filter.
pub fn least_rules_decide()
    ensures { LeastRulesDecide }
{}

/// Law: if two stores are alike for a client, the service gives the client equal replies over both, and the stores
/// are alike afterwards. Requests of other clients come between, and lead from alike to alike.
pub fn clients_can_not_tell()
    ensures { ClientsCanNotTell }
{}

/// Law: each output of an event is for the event's own connection.
pub fn outputs_are_for_their_connection()
    ensures { OutputsAreForTheirConnection }
{}

/// Law: a run of a hub through the events of two lists falls into a run through the first and one through the second.
/// So what [`Hub::run`](scim_hub::Hub::run) ensures of all events holds round by round.
pub fn runs_in_parts()
    ensures { RunsInParts }
{}

/// Law: events of others lead from stores that are alike for a client to stores that are, if each changes the store
/// quietly for the client: not at all; or in a resource that it doesn't see, with the same unique names in use; or in
/// values that it may not read, that no rule decides by and that needn't be unique.
pub fn quiet_events_lead_alike()
    ensures { QuietEventsLeadAlike }
{}

/// Law: if two hubs are alike for a client, and its connections hear the same pieces at the same moments with the
/// same ids, the same bytes are written to them, event by event, and the hubs are alike afterwards. Other connections
/// carry what they like, as long as that leads from alike stores to alike stores.
pub fn connections_can_not_tell()
    ensures { ConnectionsCanNotTell }
{}
