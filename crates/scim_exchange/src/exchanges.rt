//! Answers one message: finds its endpoint, reads what it asks for, and calls the service.
ghost use Rattle.std.specs.Prelude.{◌≡◌, ◌≤◌, ◌⊎◌, IfOk, MatchResult, Ok};
ghost use Rattle.std.specs.Option.{option_copied};
ghost use Rattle.scim_audit.specs.declared.refusals.Refusal.{Refusal};
ghost use Rattle.scim_text.specs.Failures.{UnlessMemory};
ghost use Rattle.scim_route.specs.Targets.{query_of};
ghost use Rattle.scim_route.specs.Routes.{named, Finds};
ghost use Rattle.scim_exchange.specs.Asks.{Asks};
ghost use Rattle.scim_shelf.specs.Stores.{Store, IsStore};
ghost use Rattle.scim_shelf.specs.Shelves.{KeepsRound};
ghost use Rattle.scim_service.specs.Answers.{IsCause};
ghost use Rattle.scim_route.specs.declared.routes.Found.{Found};
ghost use Rattle.scim_exchange.specs.Exchanges.{IsTurnOf, IsPageOr, IsServedTo, IsTold, Exchanged, IsTokenless, IsUnserved};
ghost use Rattle.scim_exchange.specs.code.Faults as spec;
ghost use Rattle.scim_exchange.specs.declared.answers.Answer.{Answer};
ghost use Rattle.scim_exchange.specs.declared.exchanges.Arrival.{Arrival as IsArrival};
ghost use Rattle.scim_service.specs.Setting.{service_base, service_policy, service_shelf, KeepsSetting};

use crate::answers::Answer;
use crate::asks::ask;
use scim_audit::Refusal;
use scim_cell::{Id, Text};
use scim_discovery::page_reply;
use scim_route::{DiscoveryPage, Found, Route, Routes};
use scim_service::{Ask, Request, Service, Turn};
use scim_shelf::Shelf;
use scim_text::{Failed, Moment, NoMemory};
use scim_wire::Message;
use std::alloc::Global;

/// The sender and the time of a message, and the id for the resource that it may create.
#[derive(Clone, Copy)]
pub struct Arrival<'a> {
    /// The name of the client that has the message's token; `None` if the message has no token or if no
    /// client has it.
    pub client: Option<&'a str>,
    /// The time at which the message arrived.
    pub moment: Moment,
    /// The id for the resource that the message creates, if it creates one.
    pub fresh: Id,
}

/// Returns what the route and the body ask for, or the refusal if they are invalid.
fn asked(alloc: Global, route: &Route<'_>, body: &[u8]) -> Result<Result<Ask, Refusal>, NoMemory>
    ensures { IfOk result (Asks route.now body.now) }
{
    match ask(alloc, route, body) {
        Ok(ask) => Ok(Ok(ask)),
        Err(Failed::Because(refusal)) => Ok(Err(refusal)),
        Err(Failed::NoMemory) => Err(NoMemory),
    }
}

/// Returns the input of the service for a message of `client`: the request, the time and the id for a new
/// resource.
fn turn_of(
    alloc: Global,
    client: &str,
    arrival: &Arrival<'_>,
    route: &Route<'_>,
    body: &[u8],
) -> Result<Turn, NoMemory>
    ensures { IfOk result (IsTurnOf client.now arrival.now route.now body.now) }
{
    let client = Text::copy_of(alloc, client)?;
    let ask = asked(alloc, route, body)?;
    Ok(Turn {
        request: Request {
            client,
            op: route.op,
            kind: route.kind,
            id: route.id,
            ask,
        },
        moment: arrival.moment,
        fresh: arrival.fresh,
    })
}

/// Returns the refusal that the fault contains, or `Refusal::Store` for `NoMemory`.
fn refusal_for(fault: Failed<Refusal>) -> Refusal
    ensures { result ≡ spec.refusal_for fault }
{
    match fault {
        Failed::Because(refusal) => refusal,
        Failed::NoMemory => Refusal::Store,
    }
}

/// Returns the endpoint that the message's method and target name.
///
/// Fails with a refusal if the target names no supported endpoint, or if the endpoint doesn't allow the
/// method.
fn found_in<'m>(
    alloc: Global,
    routes: &Routes,
    message: &'m Message,
) -> Result<Found<'m>, Failed<Refusal>>
    ensures { UnlessMemory (Finds (named message.now.method message.now.target)
        (query_of message.now.target)) result }
{
    routes.find(alloc, message.method.as_slice(), message.target.as_slice())
}

/// Answers a request for a discovery page with the page, with a refusal if the query string has a filter, or
/// with `Refusal::Store` if memory runs out.
fn page_answer(alloc: Global, page: DiscoveryPage, query: Option<&[u8]>) -> Answer
    ensures { IsPageOr page (option_copied query.entry) result
        ⊎ (result ≡ Answer.Refused Refusal.Store) }
{
    match page_reply(alloc, page, query) {
        Ok(text) => Answer::Page(text),
        Err(Failed::Because(refusal)) => Answer::Refused(refusal),
        Err(Failed::NoMemory) => Answer::Refused(Refusal::Store),
    }
}

/// Answers a request for resources: calls the service, or refuses the request with `NoToken` if
/// `arrival.client` is `None`. If memory runs out before the call, the answer is the refusal `Store`.
fn served<S: Shelf>(
    alloc: Global,
    service: &mut Service<S>,
    arrival: &Arrival<'_>,
    route: &Route<'_>,
    message: &Message,
) -> Answer
    ensures keeps { KeepsSetting service.old service.new }
    ensures served { (store : Store) → S.stands (service_shelf service.old) store
        → S.is_honest (service_shelf service.new) → IsStore (service_base service.old) store
        → (next : Store) × S.stands (service_shelf service.new) next
        × IsStore (service_base service.old) next
        × (IsServedTo (option_copied arrival.now.client) (service_policy service.old)
        (service_base service.old)
        (IsCause (S.failures (service_shelf service.old))
        (S.failures (service_shelf service.new)) store) arrival.now
        route.now message.now store result next
        ⊎ IsTold (Answer.Refused Refusal.Store) store result next) }
    ensures round { KeepsRound S.has_round (service_shelf service.old) (service_shelf service.new) }
    ensures honest { S.is_honest (service_shelf service.new)
        → S.is_honest (service_shelf service.old) }
    ensures grown { S.failures (service_shelf service.old)
        ≤ S.failures (service_shelf service.new) }
{
    let Some(client) = arrival.client else {
        return Answer::Refused(Refusal::NoToken);
    };
    match turn_of(alloc, client, arrival, route, message.body.as_slice()) {
        Ok(turn) => Answer::Served(service.answer(alloc, &turn)),
        Err(NoMemory) => Answer::Refused(Refusal::Store),
    }
}

/// Returns the route of a request for resources.
///
/// Fails with the answer to any other message: the page or the refusal of a request for a discovery page, or the
/// refusal of a message that names no endpoint. If memory runs out, the answer is the refusal `Store`.
fn routed<'m>(alloc: Global, routes: &Routes, message: &'m Message) -> Result<Route<'m>, Answer>
    ensures { MatchResult result (λ route.
        Finds (named message.now.method message.now.target) (query_of message.now.target)
        (Ok (Found.Resource route)))
        (λ answer. (arrival : IsArrival) → IsUnserved arrival message.now answer) }
{
    match found_in(alloc, routes, message) {
        Ok(Found::Discovery(page, query)) => Err(page_answer(alloc, page, query)),
        Ok(Found::Resource(route)) => Ok(route),
        Err(fault) => Err(Answer::Refused(refusal_for(fault))),
    }
}

/// Returns the answer to a request for resources that doesn't reach the service: the refusal `Store`, or `NoToken`
/// if `arrival.client` is `None`.
fn unserved(arrival: &Arrival<'_>) -> Answer
    ensures { IsTokenless (option_copied arrival.now.client) result
        ⊎ (result ≡ Answer.Refused Refusal.Store) }
{
    match arrival.client {
        Some(_) => Answer::Refused(Refusal::Store),
        None => Answer::Refused(Refusal::NoToken),
    }
}

/// Answers one message.
///
/// The steps, in this order: find the endpoint by target and method; answer a request for a discovery page
/// without a token and without an audit row; refuse a message without a known client; read what the body and
/// the query string ask for; call the service.
///
/// If memory runs out before or in the service, the client gets the refusal [`Refusal::Store`], and neither a
/// change nor an audit row is committed.
pub fn answer<S: Shelf>(
    alloc: Global,
    routes: &Routes,
    service: &mut Service<S>,
    arrival: &Arrival<'_>,
    message: &Message,
) -> Answer
    ensures keeps { KeepsSetting service.old service.new }
    ensures exchanged { (store : Store) → S.stands (service_shelf service.old) store
        → S.is_honest (service_shelf service.new) → IsStore (service_base service.old) store
        → (next : Store) × S.stands (service_shelf service.new) next
        × IsStore (service_base service.old) next
        × Exchanged (service_policy service.old) (service_base service.old)
        (IsCause (S.failures (service_shelf service.old))
        (S.failures (service_shelf service.new)) store)
        arrival.now message.now store result next }
    ensures round { KeepsRound S.has_round (service_shelf service.old) (service_shelf service.new) }
    ensures honest { S.is_honest (service_shelf service.new)
        → S.is_honest (service_shelf service.old) }
    ensures grown { S.failures (service_shelf service.old)
        ≤ S.failures (service_shelf service.new) }
{
    match routed(alloc, routes, message) {
        Ok(route) => served(alloc, service, arrival, &route, message),
        Err(answer) => answer,
    }
}

/// Answers one message as `answer` does, but without the service: a request that would reach the service is
/// refused with [`Refusal::Store`].
pub fn answer_unserved(
    alloc: Global,
    routes: &Routes,
    arrival: &Arrival<'_>,
    message: &Message,
) -> Answer
    ensures { IsUnserved arrival.now message.now result }
{
    match routed(alloc, routes, message) {
        Ok(_route) => unserved(arrival),
        Err(answer) => answer,
    }
}
