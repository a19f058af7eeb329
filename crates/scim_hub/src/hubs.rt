//! The hub, which serves many connections with one service.
ghost use Rattle.std.specs.Prelude.{◌≡◌, ◌<◌, ◌≤◌, List, IfOk, OnErr, length, map, take};
ghost use Rattle.std.specs.Borrow.{Lends, sem};
ghost use Rattle.scim_token.specs.TokenFile.{Entry};
ghost use Rattle.scim_token.specs.Tokens.{Knows};
ghost use Rattle.scim_shelf.specs.Stores.{Store, IsStore};
ghost use Rattle.scim_shelf.specs.Shelves.{KeepsRound, settled};
ghost use Rattle.scim_hub.specs.Events.{HubState, Hears, Runs, none_joined};
ghost use Rattle.scim_hub.specs.HubStates.{IsHubState, event_of, owned_event_of, done, result_of};
ghost use Rattle.scim_hub.specs.code.Rounds.{piece_event};
ghost use Rattle.scim_service.specs.Setting.{service_base, service_shelf};
ghost use Rattle.scim_hub.specs.HubSetting.{hub_base, hub_policy, hub_shelf, hub_tokens, refused_tokens_of, with_hub_shelf, with_hub_setting, KeepsHubSetting};
ghost use Rattle.scim_hub.specs.contracts.hubs.Hub.{the_row};

use crate::connections::Connections;
use crate::events::{Event, EventAnswer, EventKind, HubFault, Output};
use crate::owned_events::OwnedEvent;
use crate::rounds::{Pace, Piece};
use scim_policy::Policy;
use scim_route::Routes;
use scim_service::Service;
use scim_shelf::Shelf;
use scim_text::NoMemory;
use scim_token::Tokens;
use std::alloc::Global;

/// Answers the events of many connections with one service.
///
/// A connection joins, its stream arrives in pieces, and the connection leaves. The messages that a piece
/// completes are answered in order, each on behalf of the client that has the message's token. After a reply
/// that closes the connection, the hub shuts the connection and ignores the rest of its stream.
pub struct Hub<S> {
    pub(crate) routes: Routes,
    pub(crate) service: Service<S>,
    pub(crate) tokens: Tokens,
    pub(crate) connections: Connections,
    /// The number of messages that were refused because no client has their token, 2^64 - 1 at most.
    pub(crate) refused: u64,
}

impl<S: Drop> Drop for Hub<S> {
    fn drop(self) {
        let Hub {
            routes: _routes,
            service: _service,
            tokens: _tokens,
            connections: _connections,
            refused: _,
        } = self;
    }
}

impl<S: Shelf> Hub<S> {
    /// Returns a hub without connections over the service, with these routes and the clients' tokens.
    pub fn new(alloc: Global, routes: Routes, service: Service<S>, tokens: Tokens) -> Hub<S>
        ensures service { result.service ≡ service }
        ensures tokens { hub_tokens result ≡ tokens }
        ensures state { (store : Store) → S.stands (service_shelf service) store
            → IsStore (service_base service) store
            → IsHubState S.stands result (none_joined store) }
        ensures refused { refused_tokens_of result ≡ 0 }
    {
        Hub {
            routes,
            service,
            tokens,
            connections: Connections::new(alloc),
            refused: 0,
        }
    }

    /// Handles an event, and returns the outputs for its connection, in order.
    ///
    /// - `Joined`: adds the connection; nothing of its stream has been read. Fails with `AlreadyJoined` if
    ///   the number is in use.
    /// - `Piece`: answers the items that the piece completes, in order, up to the first whose reply closes
    ///   the connection. Then the connection is shut, and further items are dropped. Fails with `Unknown` if
    ///   no connection has the number, and with `Closed` if the connection is shut.
    /// - `Left`: removes the connection. Fails with `Unknown` if no connection has the number.
    ///
    /// After these errors nothing has changed. After `NoMemory` a joining connection hasn't joined; a
    /// connection whose piece was read is shut and its outputs are lost, while the changes of its requests
    /// remain committed. Other connections aren't affected.
    pub fn event(&mut self, alloc: Global, event: &Event<'_>) -> Result<Vec<Output>, HubFault>
        ensures keeps { KeepsHubSetting self.old self.new }
        ensures heard { (entries : List Entry) (state : HubState)
            → Knows entries (hub_tokens self.old)
            → IsHubState S.stands self.old state → S.is_honest (hub_shelf self.new)
            → (next : HubState) × IsHubState S.stands self.new next
            × Hears (hub_policy self.old) (hub_base self.old) entries (event_of event.now) state
            (done result) next }
        ensures round { KeepsRound S.has_round (hub_shelf self.old) (hub_shelf self.new) }
        ensures honest { S.is_honest (hub_shelf self.new) → S.is_honest (hub_shelf self.old) }
        ensures refused { refused_tokens_of self.old ≤ refused_tokens_of self.new }
    {
        match event.kind {
            EventKind::Joined => {
                self.connections.join(alloc, event.connection)?;
                Ok(Vec::new(alloc))
            }
            EventKind::Piece(bytes) => {
                let piece = Piece {
                    connection: event.connection,
                    stamp: event.stamp,
                    bytes,
                };
                self.take(alloc, &piece)
            }
            EventKind::Left => {
                self.connections.leave(event.connection)?;
                Ok(Vec::new(alloc))
            }
        }
    }

    /// Handles the next piece of a connection's stream.
    ///
    /// Fails with `Unknown` if no connection has the number, and with `Closed` if the connection is shut;
    /// then nothing has changed. After `NoMemory` the connection is shut, while the changes of its requests
    /// remain committed.
    fn take(&mut self, alloc: Global, piece: &Piece<'_>) -> Result<Vec<Output>, HubFault>
        ensures keeps { KeepsHubSetting self.old self.new }
        ensures heard { (entries : List Entry) (state : HubState)
            → Knows entries (hub_tokens self.old)
            → IsHubState S.stands self.old state → S.is_honest (hub_shelf self.new)
            → (next : HubState) × IsHubState S.stands self.new next
            × Hears (hub_policy self.old) (hub_base self.old) entries (piece_event piece.now) state
            (done result) next }
        ensures round { KeepsRound S.has_round (hub_shelf self.old) (hub_shelf self.new) }
        ensures honest { S.is_honest (hub_shelf self.new) → S.is_honest (hub_shelf self.old) }
        ensures refused { refused_tokens_of self.old ≤ refused_tokens_of self.new }
    {
        let taken = self.take_in(alloc, piece);
        self.conclude(alloc, true, piece, taken).result
    }

    /// Handles events one after another, and returns the result of each.
    ///
    /// Fails with `NoMemory` if the list of results can't be allocated. Then no event has been handled, and
    /// the hub is unchanged.
    pub fn run(
        &mut self,
        alloc: Global,
        events: &[Event<'_>],
    ) -> Result<Vec<Result<Vec<Output>, HubFault>>, NoMemory>
        ensures keeps { KeepsHubSetting self.old self.new }
        ensures ran { IfOk result (λ results. (entries : List Entry) (state : HubState)
            → Knows entries (hub_tokens self.old) → IsHubState S.stands self.old state
            → S.is_honest (hub_shelf self.new)
            → (next : HubState) × IsHubState S.stands self.new next
            × Runs (hub_policy self.old) (hub_base self.old) entries state
            (map event_of events.now) (map done results.items) next) }
        ensures nothing { OnErr result (self.new ≡ self.old) }
        ensures round { KeepsRound S.has_round (hub_shelf self.old) (hub_shelf self.new) }
        ensures honest { S.is_honest (hub_shelf self.new) → S.is_honest (hub_shelf self.old) }
    {
        let mut results = Vec::with_capacity(alloc, events.len())?;
        for event in events {
            let result = self.event(alloc, event);
            results.push(result).unwrap();
        }
        Ok(results)
    }

    /// Handles the first of these events, and as many of those behind it as a round takes, and returns the answer
    /// to each. No answer is returned before the changes of all of them are on the shelf's device.
    ///
    /// A round takes pieces of different connections, as long as the shelf has rounds and `pace` goes on. If the
    /// shelf can't put their changes on its device, none of them is made, and each request that reached the
    /// service is refused with [`scim_audit::Refusal::Store`]. Connections that don't belong to the round aren't
    /// affected.
    ///
    /// Fails with `NoMemory` if the list of answers can't be allocated. Then no event has been handled, and the hub
    /// is unchanged.
    pub fn round<P: Pace>(
        &mut self,
        alloc: Global,
        events: &[OwnedEvent],
        pace: &P,
    ) -> Result<Vec<EventAnswer>, NoMemory>
        ensures keeps { KeepsHubSetting self.old self.new }
        ensures some { IfOk result (λ answers. 0 < length events.now → 0 < length answers.items) }
        ensures ran { IfOk result (λ answers. (entries : List Entry) (state : HubState)
            → Knows entries (hub_tokens self.old) → IsHubState S.stands self.old state
            → S.has_round (hub_shelf self.old) settled → S.is_honest (hub_shelf self.new)
            → (next : HubState) × IsHubState S.stands self.new next
            × Runs (hub_policy self.old) (hub_base self.old) entries state
            (map owned_event_of (take (length answers.items) events.now))
            (map result_of answers.items) next) }
        ensures nothing { OnErr result (self.new ≡ self.old) }
        ensures settled { (store : Store) → S.stands (hub_shelf self.old) store
            → S.has_round (hub_shelf self.old) settled
            → S.has_round (hub_shelf self.new) settled }
        ensures honest { S.is_honest (hub_shelf self.new) → S.is_honest (hub_shelf self.old) }
        ensures refused { refused_tokens_of self.old ≤ refused_tokens_of self.new }
    {
        let mut answers = Vec::with_capacity(alloc, events.len())?;
        let members = Vec::with_capacity(alloc, events.len())?;
        let [first, rest @ ..] = events else {
            return Ok(answers);
        };
        match self.begin(alloc, first, rest) {
            Some(piece) => Ok(self.together(alloc, &piece, rest, pace, members, answers)),
            None => {
                answers.push(self.alone(alloc, first)).unwrap();
                Ok(answers)
            }
        }
    }

    /// Returns the policy.
    pub fn policy(&self) -> &Policy
        ensures { result.now ≡ hub_policy self.now }
    {
        self.service.policy()
    }

    /// Replaces the policy and the clients' tokens. The connections stay as they are, and the messages that
    /// come next are answered by the new policy, on behalf of the clients that have the new tokens.
    pub fn reload(&mut self, policy: Policy, tokens: Tokens)
        ensures reloaded { self.new ≡ with_hub_setting self.old policy tokens }
        ensures state { (state : HubState) → IsHubState S.stands self.old state
            → IsHubState S.stands self.new state }
    {
        self.service.set_policy(policy);
        self.tokens = tokens;
    }

    /// Returns the number of messages that were refused because no client has their token, 2^64 - 1 at most.
    /// Messages whose replies were lost to `NoMemory` aren't counted.
    pub fn refused_tokens(&self) -> u64
        ensures { result ≡ refused_tokens_of self.now }
    {
        self.refused
    }

    /// Returns the service.
    pub fn service(&self) -> &Service<S>
        ensures { result.now ≡ self.now.service }
    {
        &self.service
    }

    /// Returns the shelf of the service, to read what no request tells, such as audit rows. A change that is
    /// made through this reference is made without the policy and without an audit row.
    pub fn shelf_mut(&mut self) -> &mut S
        ensures* writes_back { sem 𝓛
            (Lends (the_row S.row) S.row self.entry result (λ shelf. with_hub_shelf self.old shelf)) }
        ensures shows { result.now ≡ hub_shelf self.old }
    {
        self.service.shelf_mut()
    }

    /// Returns the service, and drops the connections.
    pub fn into_service(self) -> Service<S>
        ensures { result ≡ self.service }
    {
        let Hub {
            routes: _routes,
            service,
            tokens: _tokens,
            connections: _connections,
            refused: _,
        } = self;
        service
    }
}
