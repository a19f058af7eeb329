//! Rounds: the events whose changes are put on the device together.
ghost use Rattle.std.specs.Prelude.{◌≡◌, ◌<◌, ◌≤◌, ◌+◌, ℕ, List, ◌∷◌, [], map, take, length, true, false, IfSome, IsSome, IsNone, Ok, vec_len};
ghost use Rattle.std.specs.Vec.{vec_capacity};
ghost use Rattle.scim_token.specs.TokenFile.{Entry};
ghost use Rattle.scim_token.specs.Tokens.{Knows};
ghost use Rattle.scim_shelf.specs.Stores.{Store, IsStore};
ghost use Rattle.scim_shelf.specs.Shelves.{Round, KeepsRound, KeepsStore, since, settled};
ghost use Rattle.scim_hub.specs.Events.{Connection, HubState, Hears, Runs};
ghost use Rattle.scim_hub.specs.HubStates.{AreConnections, IsHubState, owned_event_of, result_of};
ghost use Rattle.scim_hub.specs.HubSetting.{hub_base, hub_policy, hub_shelf, hub_tokens, refused_tokens_of, KeepsHubSetting};
ghost use Rattle.scim_hub.specs.declared.rounds.Member.{Member as IsMember};
ghost use Rattle.scim_hub.specs.code.Replies.{AreReplies};
ghost use Rattle.scim_hub.specs.code.Rounds as spec;
ghost use Rattle.scim_hub.specs.code.Rounds.{piece_event, member_event, IsTakenIn, IsFinished, AreGathered, ComesTo, AllComeTo, KeepsService, KeepsAllButShelf};

use crate::answering::{Replies, Serving, answer_items};
use crate::events::{EventAnswer, HubFault, Stamp};
use crate::hubs::Hub;
use crate::owned_events::{OwnedEvent, OwnedEventKind};
use scim_shelf::Shelf;
use scim_text::NoMemory;
use scim_wire::Item;
use std::alloc::Global;

/// Tells how long a round may go on.
pub trait Pace {
    /// Whether the round may take one more event.
    fn goes_on(&self) -> bool;
}

/// The next piece of a connection's stream, with its stamp.
#[derive(Clone, Copy)]
pub(crate) struct Piece<'e> {
    pub(crate) connection: u64,
    pub(crate) stamp: Stamp,
    pub(crate) bytes: &'e [u8],
}

/// The items that a piece completes, and the replies to them.
#[derive(Drop)]
pub(crate) struct Answered {
    items: Vec<Item>,
    replies: Result<Replies, NoMemory>,
}

/// A piece that belongs to a round, with its items and replies, or the error of its connection.
///
/// The connection has read the piece, but isn't shut yet if a reply closes it.
#[derive(Drop)]
pub(crate) struct Member<'e> {
    piece: Piece<'e>,
    taken: Result<Answered, HubFault>,
}

/// Returns the piece that the event brings; `None` if the connection joins or leaves.
fn piece_of(event: &OwnedEvent) -> Option<Piece<'_>>
    ensures { IfSome result (λ piece. piece_event piece ≡ owned_event_of event.now) }
{
    match &event.kind {
        OwnedEventKind::Piece(bytes) => Some(Piece {
            connection: event.connection,
            stamp: event.stamp,
            bytes: bytes.as_slice(),
        }),
        OwnedEventKind::Joined | OwnedEventKind::Left => None,
    }
}

/// Whether a piece of the connection belongs to the round.
fn has_member(members: &[Member<'_>], connection: u64) -> bool
    ensures { result ≡ spec.has_member connection members.now }
{
    members
        .iter()
        .any(|member| member.piece.connection == connection)
}

/// Returns the piece that the event brings, if the round takes it: if no piece of its connection belongs to the
/// round, and the pace goes on.
fn next_piece<'e, P: Pace>(
    event: &'e OwnedEvent,
    members: &[Member<'_>],
    pace: &P,
) -> Option<Piece<'e>>
    ensures event { IfSome result (λ piece. piece_event piece ≡ owned_event_of event.now) }
    ensures apart { IfSome result (λ piece.
        spec.has_member piece.connection members.now ≡ false) }
{
    let Some(piece) = piece_of(event) else {
        return None;
    };
    if has_member(members, piece.connection) || !pace.goes_on() {
        return None;
    }
    Some(piece)
}

impl<S: Shelf> Hub<S> {
    /// Begins a round on the shelf. Returns false if the shelf can't; then nothing has changed.
    fn begin_round(&mut self, alloc: Global) -> bool
        ensures begun { result ≡ true → (store : Store) → S.stands (hub_shelf self.old) store
            → S.has_round (hub_shelf self.old) settled
            → S.has_round (hub_shelf self.new) (since store) }
        ensures refused { result ≡ false → self.new ≡ self.old }
        ensures kept { KeepsStore S.stands (hub_shelf self.old) (hub_shelf self.new) }
        ensures honest { S.is_honest (hub_shelf self.new) → S.is_honest (hub_shelf self.old) }
        ensures other { KeepsAllButShelf self.old self.new }
    {
        self.service.shelf_mut().begin_round(alloc)
    }

    /// Ends the round that is under way on the shelf. Returns false if the shelf couldn't put its changes on the
    /// device; then none of them is made.
    fn settle(&mut self, alloc: Global) -> bool
        ensures made { result ≡ true
            → KeepsStore S.stands (hub_shelf self.old) (hub_shelf self.new) }
        ensures back { result ≡ false → (store : Store)
            → S.has_round (hub_shelf self.old) (since store)
            → S.stands (hub_shelf self.new) store }
        ensures settles { (round : Round) → S.has_round (hub_shelf self.old) round
            → S.has_round (hub_shelf self.new) settled }
        ensures honest { S.is_honest (hub_shelf self.new) → S.is_honest (hub_shelf self.old) }
        ensures other { KeepsAllButShelf self.old self.new }
    {
        self.service.shelf_mut().settle(alloc).is_ok()
    }

    /// Begins a round, and returns the piece of its first event. Returns `None` if the event brings no piece, if
    /// nothing is behind it, or if the shelf can't begin a round. Then nothing has changed.
    pub(crate) fn begin<'e>(
        &mut self,
        alloc: Global,
        first: &'e OwnedEvent,
        rest: &[OwnedEvent],
    ) -> Option<Piece<'e>>
        ensures first { IfSome result (λ piece. piece_event piece ≡ owned_event_of first.now) }
        ensures begun { IsSome result → (store : Store) → S.stands (hub_shelf self.old) store
            → S.has_round (hub_shelf self.old) settled
            → S.has_round (hub_shelf self.new) (since store) }
        ensures nothing { IsNone result → self.new ≡ self.old }
        ensures kept { KeepsStore S.stands (hub_shelf self.old) (hub_shelf self.new) }
        ensures honest { S.is_honest (hub_shelf self.new) → S.is_honest (hub_shelf self.old) }
        ensures other { KeepsAllButShelf self.old self.new }
    {
        let Some(piece) = piece_of(first) else {
            return None;
        };
        if rest.is_empty() {
            return None;
        }
        if self.begin_round(alloc) {
            Some(piece)
        } else {
            None
        }
    }

    /// Passes a piece to its connection, and answers the items that it completes. The connection isn't shut yet if
    /// a reply closes it.
    ///
    /// Fails with `Unknown` if no connection has the number, and with `Closed` if the connection is shut; then
    /// nothing has changed. After `NoMemory` the connection is shut.
    pub(crate) fn take_in(&mut self, alloc: Global, piece: &Piece<'_>) -> Result<Answered, HubFault>
        ensures taken { (connections : ℕ → Connection)
            → AreConnections self.old.connections connections
            → IsTakenIn (connections piece.now.connection) piece.now.connection
            piece.now.bytes.now connections result self.new.connections }
        ensures answered { (entries : List Entry) (store : Store)
            → Knows entries (hub_tokens self.old)
            → S.stands (hub_shelf self.old) store → S.is_honest (hub_shelf self.new)
            → IsStore (hub_base self.old) store
            → (next : Store) × S.stands (hub_shelf self.new) next
            × IsStore (hub_base self.old) next
            × ComesTo (hub_policy self.old) (hub_base self.old) entries true piece.now.stamp
            piece.now.connection result store next }
        ensures keeps { KeepsHubSetting self.old self.new }
        ensures round { KeepsRound S.has_round (hub_shelf self.old) (hub_shelf self.new) }
        ensures honest { S.is_honest (hub_shelf self.new) → S.is_honest (hub_shelf self.old) }
        ensures refused { refused_tokens_of self.new ≡ refused_tokens_of self.old }
    {
        let items = self.connections.feed(alloc, piece.connection, piece.bytes)?;
        let replies = answer_items(
            alloc,
            &self.routes,
            &mut self.service,
            Serving::Live,
            &self.tokens,
            &piece.stamp,
            piece.connection,
            items.as_slice(),
        );
        Ok(Answered { items, replies })
    }

    /// Takes in the first piece of a round, and as many of the events behind it as the round takes.
    fn gather<'e, P: Pace>(
        &mut self,
        alloc: Global,
        first: &Piece<'e>,
        rest: &'e [OwnedEvent],
        pace: &P,
        mut members: Vec<Member<'e>>,
    ) -> Vec<Member<'e>>
        requires empty { members.items ≡ [] }
        requires len { vec_len members ≡ 0 }
        requires room { length rest.now < vec_capacity members }
        ensures events { (count : ℕ) × (length result.items ≡ count + 1)
            × (map member_event result.items
            ≡ piece_event first.now ∷ map owned_event_of (take count rest.now)) }
        ensures gathered { (connections : ℕ → Connection)
            → AreConnections self.old.connections connections
            → AreGathered result.items connections self.new.connections }
        ensures answered { (entries : List Entry) (store : Store)
            → Knows entries (hub_tokens self.old)
            → S.stands (hub_shelf self.old) store → S.is_honest (hub_shelf self.new)
            → IsStore (hub_base self.old) store
            → (next : Store) × S.stands (hub_shelf self.new) next
            × IsStore (hub_base self.old) next
            × AllComeTo (hub_policy self.old) (hub_base self.old) entries true result.items
            store next }
        ensures keeps { KeepsHubSetting self.old self.new }
        ensures round { KeepsRound S.has_round (hub_shelf self.old) (hub_shelf self.new) }
        ensures honest { S.is_honest (hub_shelf self.new) → S.is_honest (hub_shelf self.old) }
        ensures refused { refused_tokens_of self.new ≡ refused_tokens_of self.old }
    {
        let taken = self.take_in(alloc, first);
        let first = Piece {
            connection: first.connection,
            stamp: first.stamp,
            bytes: first.bytes,
        };
        members
            .push(Member {
                piece: first,
                taken,
            })
            .unwrap();
        for event in rest {
            let Some(piece) = next_piece(event, members.as_slice(), pace) else {
                return members;
            };
            let taken = self.take_in(alloc, &piece);
            members.push(Member { piece, taken }).unwrap();
        }
        members
    }

    /// Shuts the connection if its replies close it or were lost, counts the messages that were refused because no
    /// client has their token, and returns the answer to the piece.
    fn finish(&mut self, connection: u64, replies: Result<Replies, NoMemory>) -> EventAnswer
        ensures result { result.result ≡ spec.result_for replies }
        ensures connections { IsFinished replies connection self.old.connections
            self.new.connections }
        ensures service { KeepsService self.old self.new }
        ensures refused { refused_tokens_of self.old ≤ refused_tokens_of self.new }
    {
        match replies {
            Ok(
                Replies {
                    outputs,
                    closed,
                    refused,
                },
            ) => {
                self.refused = self.refused.saturating_add(refused);
                if closed {
                    self.connections.shut(connection);
                }
                EventAnswer {
                    result: Ok(outputs),
                    refused,
                }
            }
            Err(NoMemory) => {
                self.connections.shut(connection);
                EventAnswer {
                    result: Err(HubFault::NoMemory),
                    refused: 0,
                }
            }
        }
    }

    /// Returns the replies of a member if its round was made. Otherwise answers its items anew, without the service.
    fn replies_of(
        &mut self,
        alloc: Global,
        made: bool,
        piece: &Piece<'_>,
        answered: Answered,
    ) -> Result<Replies, NoMemory>
        ensures replied { (entries : List Entry) (store : Store) (next : Store)
            → Knows entries (hub_tokens self.old) → S.is_honest (hub_shelf self.old)
            → ComesTo (hub_policy self.old) (hub_base self.old) entries made piece.now.stamp
            piece.now.connection (Ok answered) store next
            → AreReplies (hub_policy self.old) (hub_base self.old) entries piece.now.stamp
            piece.now.connection answered.items.items store result next }
        ensures same { self.new ≡ self.old }
    {
        let Answered { items, replies } = answered;
        if made {
            return replies;
        }
        answer_items(
            alloc,
            &self.routes,
            &mut self.service,
            Serving::Lost,
            &self.tokens,
            &piece.stamp,
            piece.connection,
            items.as_slice(),
        )
    }

    /// Returns the answer to a piece of a round that was made or wasn't, and shuts its connection if the answer
    /// says so.
    pub(crate) fn conclude(
        &mut self,
        alloc: Global,
        made: bool,
        piece: &Piece<'_>,
        taken: Result<Answered, HubFault>,
    ) -> EventAnswer
        ensures heard { (entries : List Entry) (state : HubState) (members : List IsMember)
            (next : Store)
            → Knows entries (hub_tokens self.old) → S.is_honest (hub_shelf self.old)
            → AreGathered (record { piece = piece.now; taken = taken } ∷ members)
            state.connections self.old.connections
            → ComesTo (hub_policy self.old) (hub_base self.old) entries made piece.now.stamp
            piece.now.connection taken state.store next
            → (connections : ℕ → Connection)
            × AreGathered members connections self.new.connections
            × Hears (hub_policy self.old) (hub_base self.old) entries (piece_event piece.now)
            state (result_of result)
            (record { connections = connections; store = next }) }
        ensures service { KeepsService self.old self.new }
        ensures refused { refused_tokens_of self.old ≤ refused_tokens_of self.new }
    {
        match taken {
            Ok(answered) => {
                let replies = self.replies_of(alloc, made, piece, answered);
                self.finish(piece.connection, replies)
            }
            Err(fault) => EventAnswer {
                result: Err(fault),
                refused: 0,
            },
        }
    }

    /// Returns the answers to the members of a round that was made or wasn't, in order.
    fn conclude_all(
        &mut self,
        alloc: Global,
        made: bool,
        members: Vec<Member<'_>>,
        mut answers: Vec<EventAnswer>,
    ) -> Vec<EventAnswer>
        requires empty { answers.items ≡ [] }
        requires len { vec_len answers ≡ 0 }
        requires room { length members.items ≤ vec_capacity answers }
        ensures len { length result.items ≡ length members.entry.items }
        ensures ran { (entries : List Entry) (state : HubState) (next : Store)
            → Knows entries (hub_tokens self.old) → S.is_honest (hub_shelf self.old)
            → AreGathered members.entry.items state.connections self.old.connections
            → AllComeTo (hub_policy self.old) (hub_base self.old) entries made
            members.entry.items state.store next
            → (connections : ℕ → Connection)
            × AreConnections self.new.connections connections
            × Runs (hub_policy self.old) (hub_base self.old) entries state
            (map member_event members.entry.items) (map result_of result.items)
            (record { connections = connections; store = next }) }
        ensures service { KeepsService self.old self.new }
        ensures refused { refused_tokens_of self.old ≤ refused_tokens_of self.new }
    {
        for member in members {
            let Member { piece, taken } = member;
            let answer = self.conclude(alloc, made, &piece, taken);
            answers.push(answer).unwrap();
        }
        answers
    }

    /// Handles the first piece of a round that was begun, and as many of the events behind it as the round takes,
    /// and returns the answer to each. If the shelf can't put their changes on its device, each request that reached
    /// the service is refused.
    pub(crate) fn together<'e, P: Pace>(
        &mut self,
        alloc: Global,
        first: &Piece<'e>,
        rest: &'e [OwnedEvent],
        pace: &P,
        members: Vec<Member<'e>>,
        answers: Vec<EventAnswer>,
    ) -> Vec<EventAnswer>
        requires empty { (members.items ≡ []) × (answers.items ≡ []) }
        requires len { (vec_len members ≡ 0) × (vec_len answers ≡ 0) }
        requires room { (length rest.now < vec_capacity members)
            × (length rest.now < vec_capacity answers) }
        ensures some { 0 < length result.items }
        ensures ran { (entries : List Entry) (state : HubState)
            → Knows entries (hub_tokens self.old) → IsHubState S.stands self.old state
            → S.has_round (hub_shelf self.old) (since state.store)
            → S.is_honest (hub_shelf self.new)
            → (next : HubState) × IsHubState S.stands self.new next
            × Runs (hub_policy self.old) (hub_base self.old) entries state
            (take (length result.items)
            (piece_event first.now ∷ map owned_event_of rest.now))
            (map result_of result.items) next }
        ensures settled { (round : Round) → S.has_round (hub_shelf self.old) round
            → S.has_round (hub_shelf self.new) settled }
        ensures keeps { KeepsHubSetting self.old self.new }
        ensures honest { S.is_honest (hub_shelf self.new) → S.is_honest (hub_shelf self.old) }
        ensures refused { refused_tokens_of self.old ≤ refused_tokens_of self.new }
    {
        let members = self.gather(alloc, first, rest, pace, members);
        let made = self.settle(alloc);
        self.conclude_all(alloc, made, members, answers)
    }

    /// Handles one event outside a round, and returns the answer to it.
    pub(crate) fn alone(&mut self, alloc: Global, event: &OwnedEvent) -> EventAnswer
        ensures keeps { KeepsHubSetting self.old self.new }
        ensures heard { (entries : List Entry) (state : HubState)
            → Knows entries (hub_tokens self.old)
            → IsHubState S.stands self.old state → S.is_honest (hub_shelf self.new)
            → (next : HubState) × IsHubState S.stands self.new next
            × Hears (hub_policy self.old) (hub_base self.old) entries (owned_event_of event.now)
            state (result_of result) next }
        ensures round { KeepsRound S.has_round (hub_shelf self.old) (hub_shelf self.new) }
        ensures honest { S.is_honest (hub_shelf self.new) → S.is_honest (hub_shelf self.old) }
        ensures refused { refused_tokens_of self.old ≤ refused_tokens_of self.new }
    {
        let refused = self.refused;
        let result = self.event(alloc, &event.event());
        EventAnswer {
            result,
            refused: self.refused - refused,
        }
    }
}
