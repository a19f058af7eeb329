//! The main loop of a server.
ghost use Rattle.std.specs.Prelude.{◌≡◌, ◌≢◌, ◌<◌, ◌||◌, Bool, Some, ◌==◌, if◌then◌else◌, ◌++◌, ◌∷◌, ℕ, List, [], IsTrue, OnOk, Result, Ok, Err, Option, None, IsSome, IfSome, false, true, map, take, length, vec_len, ◌≤◌};
ghost use Rattle.std.specs.Vec.{vec_capacity};
ghost use Rattle.std.specs.List.{flat_map, list_any};
ghost use Rattle.scim_policy.specs.Rules.{Rule};
ghost use Rattle.scim_shelf.specs.Shelves.{KeepsRound, settled};
ghost use Rattle.scim_token.specs.TokenFile.{Entry};
ghost use Rattle.scim_token.specs.Tokens.{Knows};
ghost use Rattle.scim_hub.specs.declared.events.HubFault.{HubFault};
ghost use Rattle.scim_hub.specs.Events.{HubEvent, absent, shut, HubOutput, HubState, Hears, Runs, joining};
ghost use Rattle.scim_hub.specs.HubStates.{IsHubState, output_of, done, owned_event_of, result_of};
ghost use Rattle.scim_serve.specs.Occurrences.{Occurrence, heard, reloaded, RunsThrough};
ghost use Rattle.scim_serve.specs.Operators.{is_ended, says_end};
ghost use Rattle.scim_serve.specs.Peers.{KeepsClients, told_by};
ghost use Rattle.scim_serve.specs.declared.serving.Ending.{Ending};
ghost use Rattle.scim_serve.specs.Serving.{AreServed, text_to, due_for, due, shuts, shut_for, is_shut, leaves, has_left};
ghost use Rattle.scim_serve.specs.SettledStates.{IsSettledIn};
ghost use Rattle.scim_serve.specs.code.Closings.{IsMarked, Marks, IsClosing};
ghost use Rattle.scim_serve.specs.code.Leads.{Leads};
ghost use Rattle.scim_serve.specs.code.Levels.{Fits, IsLevel, Keeps, Grows};
ghost use Rattle.scim_serve.specs.code.Rests.{finished};
ghost use Rattle.scim_serve.specs.code.Served.{IsReached, IsServed, Start};
ghost use Rattle.scim_serve.specs.code.Waiting.{waiting_for};
ghost use Rattle.scim_serve.specs.code.Wholes.{AllTaken, StaysOpen};
ghost use Rattle.scim_hub.specs.HubSetting.{hub_base, hub_policy, hub_shelf, hub_tokens, KeepsHubSetting};

use crate::operators::{Operator, Pause, Then};
use crate::peers::{Note, PeerEvent, Peers, PeersFault};
use crate::pending_bytes::Waiting;
use scim_hub::{EventAnswer, Hub, HubFault, Output, OwnedEvent, OwnedEventKind};
use scim_shelf::Shelf;
use scim_text::NoMemory;
use std::alloc::Global;

/// Closes a connection, and drops its pending bytes.
fn close<P: Peers>(peers: &mut P, waiting: &mut Waiting, connection: u64)
    ensures seen { IsTrue P.is_known → P.seen peers.new ≡ P.seen peers.old }
    ensures written { IsTrue P.is_known → (m : ℕ) → P.written peers.new m ≡ P.written peers.old m }
    ensures kept { IsTrue P.is_known → Keeps (P.written peers.old) waiting.old
        (P.written peers.new) waiting.new }
    ensures gone { waiting_for waiting.new connection ≡ None }
    ensures taken { IsTrue P.is_known → (m : ℕ)
        → AllTaken (waiting_for waiting.old m) (P.takes_all peers.old m)
        → AllTaken (waiting_for waiting.new m) (P.takes_all peers.new m) }
    ensures stays { IsTrue P.is_known → (m : ℕ)
        → StaysOpen (waiting_for waiting.old m) (P.is_closed peers.old m)
        (waiting_for waiting.new m) (P.is_closed peers.new m) }
    ensures closed { IsTrue P.is_known → P.is_closed peers.new connection ≡ true }
    ensures marks { (m : ℕ) (shut : Bool) → IsMarked (waiting_for waiting.old m) shut
        → IsMarked (waiting_for waiting.new m) shut }
    ensures unfinished { (m : ℕ) → waiting_for waiting.old m ≢ Some finished
        → waiting_for waiting.new m ≢ Some finished }
    ensures next { waiting.new.next ≡ waiting.old.next }
{
    waiting.leave(connection);
    peers.close(connection);
}

/// Offers a connection its pending bytes, if any.
fn offer<P: Peers>(peers: &mut P, waiting: &mut Waiting, connection: u64)
    ensures seen { IsTrue P.is_known → P.seen peers.new ≡ P.seen peers.old }
    ensures kept { IsTrue P.is_known → Keeps (P.written peers.old) waiting.old
        (P.written peers.new) waiting.new }
    ensures taken { IsTrue P.is_known → (m : ℕ)
        → ((connection ≡ m → ⊥) → AllTaken (waiting_for waiting.old m) (P.takes_all peers.old m))
        → AllTaken (waiting_for waiting.new m) (P.takes_all peers.new m) }
    ensures stays { IsTrue P.is_known → (m : ℕ)
        → StaysOpen (waiting_for waiting.old m) (P.is_closed peers.old m)
        (waiting_for waiting.new m) (P.is_closed peers.new m) }
    ensures closed { IsTrue P.is_known → (m : ℕ)
        → P.is_closed peers.new m ≡ P.is_closed peers.old m }
    ensures marks { (m : ℕ) (shut : Bool) → IsMarked (waiting_for waiting.old m) shut
        → IsMarked (waiting_for waiting.new m) shut }
    ensures unfinished { (m : ℕ) → (connection ≡ m → ⊥)
        → waiting_for waiting.old m ≢ Some finished
        → waiting_for waiting.new m ≢ Some finished }
    ensures next { waiting.new.next ≡ waiting.old.next }
{
    let Some(rest) = waiting.rest(connection) else {
        return;
    };
    if rest.is_empty() {
        return;
    }
    let count = peers.write(connection, rest);
    waiting.take(connection, count);
}

/// Offers a connection its pending bytes, and closes it if it has taken all of them and is to be closed.
fn flush<P: Peers>(peers: &mut P, waiting: &mut Waiting, connection: u64)
    ensures seen { IsTrue P.is_known → P.seen peers.new ≡ P.seen peers.old }
    ensures kept { IsTrue P.is_known → Keeps (P.written peers.old) waiting.old
        (P.written peers.new) waiting.new }
    ensures taken { IsTrue P.is_known → (m : ℕ)
        → ((connection ≡ m → ⊥) → AllTaken (waiting_for waiting.old m) (P.takes_all peers.old m))
        → AllTaken (waiting_for waiting.new m) (P.takes_all peers.new m) }
    ensures stays { IsTrue P.is_known → (m : ℕ)
        → StaysOpen (waiting_for waiting.old m) (P.is_closed peers.old m)
        (waiting_for waiting.new m) (P.is_closed peers.new m) }
    ensures finished { IsTrue P.is_known → (due : List ℕ)
        → Fits (waiting_for waiting.old connection) (P.written peers.old connection) due
        → P.is_closed peers.old connection ≡ false → P.is_closed peers.new connection ≡ true
        → P.written peers.new connection ≡ due }
    ensures marks { (m : ℕ) (shut : Bool) → IsMarked (waiting_for waiting.old m) shut
        → IsMarked (waiting_for waiting.new m) shut }
    ensures unfinished { (m : ℕ)
        → ((connection ≡ m → ⊥) → waiting_for waiting.old m ≢ Some finished)
        → waiting_for waiting.new m ≢ Some finished }
    ensures next { waiting.new.next ≡ waiting.old.next }
{
    offer(peers, waiting, connection);
    if waiting.is_done(connection) {
        close(peers, waiting, connection);
    }
}

/// Appends the text of an output to the pending bytes of its connection, or, for an output that shuts the
/// connection, notes that it is to be closed after its pending bytes.
///
/// Closes the connection at once if memory runs out.
fn queue_one<P: Peers>(peers: &mut P, waiting: &mut Waiting, output: &Output)
    ensures seen { IsTrue P.is_known → P.seen peers.new ≡ P.seen peers.old }
    ensures queued { IsTrue P.is_known → Grows (λ m. text_to m (output_of output.now))
        (P.written peers.old) waiting.old (P.written peers.new) waiting.new }
    ensures taken { IsTrue P.is_known → (m : ℕ) → text_to m (output_of output.now) ≡ []
        → AllTaken (waiting_for waiting.old m) (P.takes_all peers.old m)
        → AllTaken (waiting_for waiting.new m) (P.takes_all peers.new m) }
    ensures stays { IsTrue P.is_known → (m : ℕ)
        → StaysOpen (waiting_for waiting.old m) (P.is_closed peers.old m)
        (waiting_for waiting.new m) (P.is_closed peers.new m) }
    ensures marks { Marks (λ m. shuts m (output_of output.now)) waiting.old waiting.new }
    ensures unfinished { (m : ℕ) → shuts m (output_of output.now) ≡ false
        → waiting_for waiting.old m ≢ Some finished
        → waiting_for waiting.new m ≢ Some finished }
    ensures pending { IsTrue P.is_known → (m : ℕ) → shuts m (output_of output.now) ≡ true
        → P.is_closed peers.new m ≡ P.is_closed peers.old m }
    ensures next { waiting.new.next ≡ waiting.old.next }
{
    match output {
        Output::Write(connection, text) => {
            if waiting.add(*connection, text.as_bytes()).is_err() {
                close(peers, waiting, *connection);
            }
        }
        Output::Shut(connection) => waiting.close_after(*connection),
    }
}

/// Calls `queue_one` for each of the outputs, in order.
fn queue<P: Peers>(peers: &mut P, waiting: &mut Waiting, outputs: &[Output])
    ensures seen { IsTrue P.is_known → P.seen peers.new ≡ P.seen peers.old }
    ensures queued { IsTrue P.is_known → Grows (λ m.
        flat_map (text_to m) (map output_of outputs.now)) (P.written peers.old) waiting.old
        (P.written peers.new) waiting.new }
    ensures taken { IsTrue P.is_known → (m : ℕ)
        → flat_map (text_to m) (map output_of outputs.now) ≡ []
        → AllTaken (waiting_for waiting.old m) (P.takes_all peers.old m)
        → AllTaken (waiting_for waiting.new m) (P.takes_all peers.new m) }
    ensures stays { IsTrue P.is_known → (m : ℕ)
        → StaysOpen (waiting_for waiting.old m) (P.is_closed peers.old m)
        (waiting_for waiting.new m) (P.is_closed peers.new m) }
    ensures marks { Marks (λ m. list_any (shuts m) (map output_of outputs.now)) waiting.old
        waiting.new }
    ensures unfinished { (m : ℕ) → list_any (shuts m) (map output_of outputs.now) ≡ false
        → waiting_for waiting.old m ≢ Some finished
        → waiting_for waiting.new m ≢ Some finished }
    ensures next { waiting.new.next ≡ waiting.old.next }
{
    for output in outputs {
        queue_one(peers, waiting, output);
    }
}

/// Adds a new connection without pending bytes, so that it can be written to.
///
/// Closes the connection if its number isn't greater than all earlier numbers, or if memory runs out.
fn welcome<P: Peers>(alloc: Global, peers: &mut P, waiting: &mut Waiting, connection: u64)
    ensures seen { IsTrue P.is_known → P.seen peers.new ≡ P.seen peers.old }
    ensures written { IsTrue P.is_known → (m : ℕ) → P.written peers.new m ≡ P.written peers.old m }
    ensures level { IsTrue P.is_known → (due : ℕ → List ℕ)
        → IsLevel (P.written peers.old) waiting.old due
        → IsLevel (P.written peers.new) waiting.new due }
    ensures taken { IsTrue P.is_known → (m : ℕ)
        → AllTaken (waiting_for waiting.old m) (P.takes_all peers.old m)
        → AllTaken (waiting_for waiting.new m) (P.takes_all peers.new m) }
    ensures stays { IsTrue P.is_known → (m : ℕ)
        → StaysOpen (waiting_for waiting.old m) (P.is_closed peers.old m)
        (waiting_for waiting.new m) (P.is_closed peers.new m) }
    ensures closing { (shut : ℕ → Bool) → IsClosing waiting.old shut → IsClosing waiting.new shut }
    ensures entered { IsTrue P.is_known → P.is_closed peers.new connection ≡ false
        → IsSome (waiting_for waiting.new connection) }
    ensures noted { connection < waiting.new.next }
{
    if !waiting.note(connection) || waiting.enter(alloc, connection).is_err() {
        close(peers, waiting, connection);
    }
}

/// Updates the set of connections that can be written to, before the hub handles an event: adds a connection
/// that joins, and drops the pending bytes of a connection that leaves.
fn prepare<P: Peers>(alloc: Global, peers: &mut P, waiting: &mut Waiting, event: &OwnedEvent)
    ensures seen { IsTrue P.is_known → P.seen peers.new ≡ P.seen peers.old }
    ensures written { IsTrue P.is_known → (m : ℕ) → P.written peers.new m ≡ P.written peers.old m }
    ensures level { IsTrue P.is_known → (due : ℕ → List ℕ)
        → IsLevel (P.written peers.old) waiting.old due
        → IsLevel (P.written peers.new) waiting.new due }
    ensures taken { IsTrue P.is_known → (m : ℕ)
        → AllTaken (waiting_for waiting.old m) (P.takes_all peers.old m)
        → AllTaken (waiting_for waiting.new m) (P.takes_all peers.new m) }
    ensures stays { IsTrue P.is_known → (m : ℕ) → leaves m (owned_event_of event.now) ≡ false
        → StaysOpen (waiting_for waiting.old m) (P.is_closed peers.old m)
        (waiting_for waiting.new m) (P.is_closed peers.new m) }
    ensures closing { (shut : ℕ → Bool) → IsClosing waiting.old shut → IsClosing waiting.new shut }
    ensures gone { (m : ℕ) → leaves m (owned_event_of event.now) ≡ true
        → waiting_for waiting.new m ≡ None }
    ensures unclosed { IsTrue P.is_known → (m : ℕ) → leaves m (owned_event_of event.now) ≡ true
        → P.is_closed peers.new m ≡ P.is_closed peers.old m }
    ensures entered { IsTrue P.is_known → (owned_event_of event.now).kind ≡ joining
        → P.is_closed peers.new event.now.connection ≡ false
        → IsSome (waiting_for waiting.new event.now.connection) }
    ensures noted { event.now.connection < waiting.new.next }
{
    match &event.kind {
        OwnedEventKind::Joined => welcome(alloc, peers, waiting, event.connection),
        OwnedEventKind::Piece(_) => {
            waiting.note(event.connection);
        }
        OwnedEventKind::Left => {
            waiting.note(event.connection);
            waiting.leave(event.connection);
        }
    }
}

/// Carries out the hub's answer to an event of a connection.
///
/// Queues the outputs and offers the connection its pending bytes. Closes the connection after the errors
/// `NoMemory` (its outputs are lost, or it couldn't join) and `AlreadyJoined`. Does nothing after other
/// errors.
fn settle<P: Peers>(
    peers: &mut P,
    waiting: &mut Waiting,
    connection: u64,
    answer: &Result<Vec<Output>, HubFault>,
)
    ensures seen { IsTrue P.is_known → P.seen peers.new ≡ P.seen peers.old }
    ensures settled { IsTrue P.is_known → Grows (λ m. due_for m (done answer.now))
        (P.written peers.old) waiting.old (P.written peers.new) waiting.new }
    ensures taken { IsTrue P.is_known → (m : ℕ)
        → ((connection ≡ m → ⊥) → due_for m (done answer.now) ≡ [])
        → AllTaken (waiting_for waiting.old m) (P.takes_all peers.old m)
        → AllTaken (waiting_for waiting.new m) (P.takes_all peers.new m) }
    ensures stays { IsTrue P.is_known → (m : ℕ)
        → StaysOpen (waiting_for waiting.old m) (P.is_closed peers.old m)
        (waiting_for waiting.new m) (P.is_closed peers.new m) }
    ensures marks { Marks (λ m. shut_for m (done answer.now)) waiting.old waiting.new }
    ensures unfinished { (m : ℕ)
        → ((connection ≡ m → ⊥) → shut_for m (done answer.now) ≡ false)
        → waiting_for waiting.old m ≢ Some finished
        → waiting_for waiting.new m ≢ Some finished }
    ensures lost { IsTrue P.is_known → done answer.now ≡ Err HubFault.NoMemory
        → P.is_closed peers.new connection ≡ true }
    ensures next { waiting.new.next ≡ waiting.old.next }
{
    match answer {
        Ok(outputs) => {
            queue(peers, waiting, outputs.as_slice());
            flush(peers, waiting, connection);
        }
        Err(HubFault::NoMemory | HubFault::AlreadyJoined) => close(peers, waiting, connection),
        Err(HubFault::Unknown | HubFault::Closed) => (),
    }
}

/// Tells `peers` how many messages of an event of the connection were refused for their token, if any, and
/// whether memory ran out for the event.
fn report<P: Peers>(
    peers: &mut P,
    connection: u64,
    refused: u64,
    answer: &Result<Vec<Output>, HubFault>,
)
    ensures { IsTrue P.is_known → KeepsClients P.seen P.written P.takes_all P.is_closed
        peers.old peers.new }
{
    if refused > 0 {
        peers.note(Note::RefusedTokens {
            connection,
            count: refused,
        });
    }
    if matches!(answer, Err(HubFault::NoMemory)) {
        peers.note(Note::NoMemory(connection));
    }
}

/// Carries out the hub's answer to an event of a client's connection, and tells `peers` what it met.
fn deliver<P: Peers>(
    alloc: Global,
    peers: &mut P,
    waiting: &mut Waiting,
    event: &OwnedEvent,
    answer: &EventAnswer,
)
    ensures seen { IsTrue P.is_known → P.seen peers.new ≡ P.seen peers.old }
    ensures served { IsTrue P.is_known → (policy : List Rule) (base : List ℕ) (entries : List Entry)
        (first state next : HubState) (seen : List HubEvent) (due : ℕ → List ℕ) (shut : ℕ → Bool)
        → Hears policy base entries (owned_event_of event.now) state (result_of answer.now) next
        → IsServed first state seen (P.written peers.old) (P.takes_all peers.old)
        (P.is_closed peers.old) waiting.old due shut
        → IsServed first next (seen ++ owned_event_of event.now ∷ []) (P.written peers.new)
        (P.takes_all peers.new) (P.is_closed peers.new) waiting.new
        (λ m. due m ++ due_for m (result_of answer.now))
        (λ m. shut m || shut_for m (result_of answer.now)) }
{
    prepare(alloc, peers, waiting, event);
    settle(peers, waiting, event.connection, &answer.result);
    report(peers, event.connection, answer.refused, &answer.result);
}

/// Calls `deliver` for each of the events with its answer, in order.
fn deliver_all<P: Peers>(
    alloc: Global,
    peers: &mut P,
    waiting: &mut Waiting,
    events: &[OwnedEvent],
    answers: &[EventAnswer],
)
    ensures seen { IsTrue P.is_known → P.seen peers.new ≡ P.seen peers.old }
    ensures served { IsTrue P.is_known → (policy : List Rule) (base : List ℕ) (entries : List Entry)
        (first state next : HubState) (seen : List HubEvent)
        (results : List (Result (List HubOutput) HubFault))
        → Runs policy base entries state
        (map owned_event_of (take (length answers.now) events.now))
        (map result_of answers.now) next
        → IsServed first state seen (P.written peers.old) (P.takes_all peers.old)
        (P.is_closed peers.old) waiting.old (λ m. due m results) (λ m. is_shut m results)
        → IsServed first next
        (seen ++ map owned_event_of (take (length answers.now) events.now))
        (P.written peers.new) (P.takes_all peers.new) (P.is_closed peers.new) waiting.new
        (λ m. due m (results ++ map result_of answers.now))
        (λ m. is_shut m (results ++ map result_of answers.now)) }
{
    let Some((event, events)) = events.split_first() else {
        return;
    };
    let Some((answer, answers)) = answers.split_first() else {
        return;
    };
    deliver(alloc, peers, waiting, event, answer);
    deliver_all(alloc, peers, waiting, events, answers);
}

/// Passes an event to the hub, and carries out the hub's answer.
fn hear<P: Peers, S: Shelf>(
    alloc: Global,
    peers: &mut P,
    hub: &mut Hub<S>,
    waiting: &mut Waiting,
    event: &OwnedEvent,
)
    ensures keeps { KeepsHubSetting hub.old hub.new }
    ensures seen { IsTrue P.is_known → P.seen peers.new ≡ P.seen peers.old }
    ensures leads { IsTrue P.is_known → S.is_honest (hub_shelf hub.new)
        → Leads P.written P.takes_all P.is_closed S.stands S.has_round (owned_event_of event.now ∷ [])
        peers.old peers.new waiting.old waiting.new hub.old hub.new }
    ensures round { KeepsRound S.has_round (hub_shelf hub.old) (hub_shelf hub.new) }
    ensures honest { S.is_honest (hub_shelf hub.new) → S.is_honest (hub_shelf hub.old) }
{
    let refused = hub.refused_tokens();
    let result = hub.event(alloc, &event.event());
    let answer = EventAnswer {
        result,
        refused: hub.refused_tokens() - refused,
    };
    deliver(alloc, peers, waiting, event, &answer);
}

/// Has the hub handle a round of these events, and carries out its answers. Returns how many of the events
/// the round took, from the first on.
///
/// If the hub can't answer a round because memory runs out, the first of the events is a round by itself.
fn hear_round<P: Peers, S: Shelf>(
    alloc: Global,
    peers: &mut P,
    hub: &mut Hub<S>,
    waiting: &mut Waiting,
    events: &[OwnedEvent],
) -> usize
    ensures count { result ≤ length events.now }
    ensures some { 0 < length events.now → 0 < result }
    ensures keeps { KeepsHubSetting hub.old hub.new }
    ensures seen { IsTrue P.is_known → P.seen peers.new ≡ P.seen peers.old }
    ensures leads { IsTrue P.is_known → S.is_honest (hub_shelf hub.new)
        → Leads P.written P.takes_all P.is_closed S.stands S.has_round
        (map owned_event_of (take result events.now))
        peers.old peers.new waiting.old waiting.new hub.old hub.new }
    ensures honest { S.is_honest (hub_shelf hub.new) → S.is_honest (hub_shelf hub.old) }
{
    match hub.round(alloc, events, &*peers) {
        Ok(answers) => {
            deliver_all(alloc, peers, waiting, events, answers.as_slice());
            answers.len().min(events.len())
        }
        Err(NoMemory) => match events {
            [event, ..] => {
                hear(alloc, peers, hub, waiting, event);
                1
            }
            [] => 0,
        },
    }
}

/// Has the hub handle the events, in order, in as many rounds as they take.
fn hear_all<P: Peers, S: Shelf>(
    alloc: Global,
    peers: &mut P,
    hub: &mut Hub<S>,
    waiting: &mut Waiting,
    events: &[OwnedEvent],
)
    ensures keeps { KeepsHubSetting hub.old hub.new }
    ensures seen { IsTrue P.is_known → P.seen peers.new ≡ P.seen peers.old }
    ensures leads { IsTrue P.is_known → S.is_honest (hub_shelf hub.new)
        → Leads P.written P.takes_all P.is_closed S.stands S.has_round (map owned_event_of events.now)
        peers.old peers.new waiting.old waiting.new hub.old hub.new }
    ensures honest { S.is_honest (hub_shelf hub.new) → S.is_honest (hub_shelf hub.old) }
{
    if events.is_empty() {
        return;
    }
    let count = hear_round(alloc, peers, hub, waiting, events);
    hear_all(alloc, peers, hub, waiting, &events[count..]);
}

/// The number of events that are gathered before the hub handles them, at most.
const MOST_GATHERED: usize = 64;

/// Returns an empty list with room for this event and those that are gathered behind it; `None` if none are
/// gathered behind such an event, or if memory runs out.
fn room_behind(alloc: Global, event: &OwnedEvent) -> Option<Vec<OwnedEvent>>
    ensures empty { IfSome result (λ events. events.items ≡ []) }
    ensures room { IfSome result (λ events. vec_len events < vec_capacity events) }
{
    match &event.kind {
        OwnedEventKind::Piece(_) => Vec::with_capacity(alloc, MOST_GATHERED).ok(),
        OwnedEventKind::Joined | OwnedEventKind::Left => None,
    }
}

/// Adds the pieces that are ready now to the events, until there are 64 events or their list is full.
fn gather<P: Peers>(alloc: Global, peers: &mut P, events: &mut Vec<OwnedEvent>)
    ensures gathered { IsTrue P.is_known → (ready : List OwnedEvent)
        × (events.new.items ≡ events.old.items ++ ready)
        × (P.seen peers.new ≡ P.seen peers.old ++ map owned_event_of ready) }
    ensures written { IsTrue P.is_known → (m : ℕ) → P.written peers.new m ≡ P.written peers.old m }
    ensures takes { IsTrue P.is_known → (m : ℕ) → P.takes_all peers.new m ≡ true
        → P.takes_all peers.old m ≡ true }
    ensures closed { IsTrue P.is_known → (m : ℕ)
        → P.is_closed peers.new m ≡ P.is_closed peers.old m }
{
    let most = events.capacity().min(MOST_GATHERED);
    for _ in events.len()..most {
        let Some(event) = peers.next_ready(alloc) else {
            return;
        };
        events.push(event).unwrap();
    }
}

/// Has the hub handle an event of a client's connection, which `peers` reported last. The pieces of other
/// connections that are ready now are handled after a piece, in the same rounds.
///
/// If memory runs out for the list of these events, the event is handled alone.
fn hear_ready<P: Peers, S: Shelf>(
    alloc: Global,
    peers: &mut P,
    hub: &mut Hub<S>,
    waiting: &mut Waiting,
    event: OwnedEvent,
)
    ensures keeps { KeepsHubSetting hub.old hub.new }
    ensures reached { IsTrue P.is_known → S.is_honest (hub_shelf hub.new) → (start : Start) (may_reload : Bool)
        (seen : List HubEvent) → start.base ≡ hub_base hub.old
        → P.seen peers.old ≡ seen ++ owned_event_of event ∷ []
        → IsReached start may_reload seen (P.written peers.old) (P.takes_all peers.old)
        (P.is_closed peers.old) waiting.old (hub_policy hub.old) (hub_tokens hub.old)
        (IsSettledIn S.stands S.has_round hub.old)
        → IsReached start may_reload (P.seen peers.new) (P.written peers.new)
        (P.takes_all peers.new) (P.is_closed peers.new) waiting.new (hub_policy hub.new)
        (hub_tokens hub.new) (IsSettledIn S.stands S.has_round hub.new) }
    ensures honest { S.is_honest (hub_shelf hub.new) → S.is_honest (hub_shelf hub.old) }
{
    let Some(mut events) = room_behind(alloc, &event) else {
        hear(alloc, peers, hub, waiting, &event);
        return;
    };
    events.push(event).unwrap();
    gather(alloc, peers, &mut events);
    hear_all(alloc, peers, hub, waiting, events.as_slice());
}

/// Handles what the connections report: a client's event by the hub, and what interrupts the serving of
/// clients by the operator. Returns whether the server goes on.
fn attend<P: Peers, S: Shelf, O: Operator<S>>(
    alloc: Global,
    peers: &mut P,
    hub: &mut Hub<S>,
    waiting: &mut Waiting,
    operator: &mut O,
    peer_event: PeerEvent,
) -> Then
    ensures base { hub_base hub.new ≡ hub_base hub.old }
    ensures keeps { O.may_reload ≡ false → KeepsHubSetting hub.old hub.new }
    ensures reached { IsTrue P.is_known → S.is_honest (hub_shelf hub.new) → (start : Start) (seen : List HubEvent)
        → start.base ≡ hub_base hub.old
        → P.seen peers.old ≡ seen ++ told_by (Ok (Some peer_event))
        → IsReached start O.may_reload seen (P.written peers.old) (P.takes_all peers.old)
        (P.is_closed peers.old) waiting.old (hub_policy hub.old) (hub_tokens hub.old)
        (IsSettledIn S.stands S.has_round hub.old)
        → IsReached start O.may_reload (P.seen peers.new) (P.written peers.new)
        (P.takes_all peers.new) (P.is_closed peers.new) waiting.new (hub_policy hub.new)
        (hub_tokens hub.new) (IsSettledIn S.stands S.has_round hub.new) }
    ensures ended { O.has_ended operator.old ≡ false
        → O.has_ended operator.new ≡ says_end result }
    ensures honest { S.is_honest (hub_shelf hub.new) → S.is_honest (hub_shelf hub.old) }
{
    match peer_event {
        PeerEvent::Event(event) => {
            hear_ready(alloc, peers, hub, waiting, event);
            Then::GoOn
        }
        PeerEvent::Ready(connection) => {
            flush(peers, waiting, connection);
            Then::GoOn
        }
        PeerEvent::Admin(event) => operator.handle(alloc, peers, hub, Pause::Admin(event)),
        PeerEvent::Tick => operator.handle(alloc, peers, hub, Pause::Tick),
    }
}

/// Why a server ended.
#[derive(Clone, Copy, Debug, PartialEq, Eq)]
pub enum Ending {
    /// No connection is open and none can join.
    Over,
    /// The operator ended the server. Connections may still be open.
    Ended,
}

/// Serves connections with a hub until `peers` reports the end, or the operator ends the server.
///
/// Each event of a client's connection is passed to the hub, whose outputs are written to the connection as
/// fast as it accepts them. A connection that is shut is closed once it has taken all its bytes. A connection
/// that has left isn't written to any more. If a connection's number isn't greater than all earlier numbers,
/// or if memory runs out for a connection, only that connection is closed, and the others are still served.
///
/// The pieces of several connections that are ready at the same time are handled in rounds, each of which puts
/// its changes on the device of the hub's shelf at once. A piece that is alone is a round by itself.
///
/// Between two events of clients the operator handles the administrator's connections, and may replace the
/// hub's policy and tokens.
///
/// Fails with [`PeersFault`] if `peers` fails, or after 2^64 - 1 events.
pub fn serve<P: Peers, S: Shelf, O: Operator<S>>(
    alloc: Global,
    peers: &mut P,
    hub: &mut Hub<S>,
    operator: &mut O,
) -> Result<Ending, PeersFault>
    ensures base { hub_base hub.new ≡ hub_base hub.old }
    ensures keeps { O.may_reload ≡ false → KeepsHubSetting hub.old hub.new }
    ensures served { IsTrue P.is_known → (entries : List Entry) (state : HubState)
        → P.seen peers.old ≡ [] → ((m : ℕ) → P.written peers.old m ≡ [])
        → Knows entries (hub_tokens hub.old) → IsHubState S.stands hub.old state
        → S.has_round (hub_shelf hub.old) settled → S.is_honest (hub_shelf hub.new)
        → (occurrences : List Occurrence) × (results : List (Result (List HubOutput) HubFault))
        × (entries_last : List Entry) × (next : HubState)
        × (heard occurrences ≡ P.seen peers.new)
        × (O.may_reload ≡ false → reloaded occurrences ≡ [])
        × Knows entries_last (hub_tokens hub.new) × IsSettledIn S.stands S.has_round hub.new next
        × RunsThrough (hub_base hub.old) (hub_policy hub.old) entries state
        occurrences results (hub_policy hub.new) entries_last next
        × AreServed state next (P.seen peers.new) results (P.written peers.new)
        (P.takes_all peers.new) (P.is_closed peers.new) }
    ensures over { IsTrue P.is_known → result ≡ Ok Ending.Over → P.is_over peers.new ≡ true }
    ensures ended { O.has_ended operator.old ≡ false → O.has_ended operator.new ≡ is_ended result }
    ensures honest { S.is_honest (hub_shelf hub.new) → S.is_honest (hub_shelf hub.old) }
{
    let mut waiting = Waiting::new(alloc);
    for _ in 0..u64::MAX {
        let Some(peer_event) = peers.next(alloc)? else {
            return Ok(Ending::Over);
        };
        match attend(alloc, peers, hub, &mut waiting, operator, peer_event) {
            Then::GoOn => (),
            Then::End => return Ok(Ending::Ended),
        }
    }
    Err(PeersFault)
}
