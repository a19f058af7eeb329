//! Answers the items of an event.
ghost use Rattle.std.specs.Prelude.{◌≡◌, ◌||◌, false, List, Option, ⊤};
ghost use Rattle.std.specs.Option.{option_copied};
ghost use Rattle.scim_token.specs.TokenFile.{Entry};
ghost use Rattle.scim_token.specs.Tokens.{Knows};
ghost use Rattle.scim_shelf.specs.Stores.{Store, IsStore};
ghost use Rattle.scim_shelf.specs.Shelves.{KeepsRound};
ghost use Rattle.scim_hub.specs.Answering as spec;
ghost use Rattle.scim_hub.specs.Answering.{Arrives};
ghost use Rattle.scim_exchange.specs.Replies.{answer_text};
ghost use Rattle.scim_exchange.specs.Exchanges.{Exchanged};
ghost use Rattle.scim_hub.specs.code.Replies.{IsOver, Says, IsReplyToItem, IsReplyToMessage, AreReplies};
ghost use Rattle.scim_service.specs.Setting.{service_base, service_policy, service_shelf, KeepsSetting};

use crate::events::{Output, Stamp};
use scim_audit::Refusal;
use scim_cell::{Id, id_of, uuid_of};
use scim_exchange::{Answer, Arrival, answer, answer_unserved};
use scim_route::Routes;
use scim_service::Service;
use scim_shelf::Shelf;
use scim_text::{NoMemory, push};
use scim_token::Tokens;
use scim_wire::{Item, Message, ReplyForm};
use std::alloc::Global;
use uuid::Uuid;

/// The text that tells a client to send the body (RFC 9110 section 15.2.1).
pub(crate) const CONTINUE: &str = "HTTP/1.1 100 Continue\r\n\r\n";

/// Whether the service answers requests for resources.
#[derive(Clone, Copy)]
pub(crate) enum Serving {
    /// The service answers them.
    Live,
    /// Each request that would reach the service is refused with [`Refusal::Store`].
    Lost,
}

/// The reply to an item.
#[derive(Drop)]
struct Reply {
    text: String,
    /// Whether the connection closes after the reply.
    closes: bool,
    /// Whether the message was refused because no client has its token.
    refuses_token: bool,
}

/// The replies to the items of an event.
#[derive(Drop)]
pub(crate) struct Replies {
    pub(crate) outputs: Vec<Output>,
    /// Whether the connection closes after the replies.
    pub(crate) closed: bool,
    /// The number of messages that were refused because no client has their token.
    pub(crate) refused: u64,
}

/// Returns the id with the number of `first` plus `count`, modulo 2^128.
#[tactic(auto, unfolding(crate::specs::Answering::id_after))]
fn id_after(first: Id, count: usize) -> Id
    ensures { result ≡ spec.id_after first count }
{
    let number = uuid_of(first).as_u128();
    id_of(Uuid::from_u128(number.wrapping_add(count as u128)))
}

/// Returns the client that has the message's token; `None` if the message has no token or no client has it.
fn client_of<'t>(tokens: &'t Tokens, message: &Message) -> Option<&'t str>
    ensures { (entries : List Entry) → Knows entries tokens.now
        → option_copied result ≡ spec.client_of entries message.now.token }
{
    match &message.token {
        Some(token) => tokens.client_of(token.as_slice()),
        None => None,
    }
}

/// Returns the client of a message, the time of its event, and the id for the resource that it may create.
/// `count` is the number of whole messages that precede it in the event.
fn arrival_of<'t>(tokens: &'t Tokens, stamp: &Stamp, count: usize, message: &Message) -> Arrival<'t>
    ensures { (entries : List Entry) → Knows entries tokens.now
        → Arrives entries stamp.now count message.now result }
{
    Arrival {
        client: client_of(tokens, message),
        moment: stamp.moment,
        fresh: id_after(stamp.first, count),
    }
}

/// Whether the answer is a refusal that closes the connection.
fn closes_by_itself(answer: &Answer) -> bool
    ensures { result ≡ spec.closes_by_itself answer.now }
{
    let refusal = match answer {
        Answer::Refused(refusal) => Some(*refusal),
        Answer::Page(_) => None,
        Answer::Served(reply) => reply.refusal(),
    };
    match refusal {
        Some(refusal) => refusal.closes(),
        None => false,
    }
}

/// Whether the answer refuses the message because no client has its token.
fn refuses_token(answer: &Answer) -> bool
    ensures { result ≡ spec.refuses_token answer.now }
{
    matches!(answer, Answer::Refused(Refusal::NoToken))
}

/// Returns the reply for an answer, printed in the given form. The reply closes the connection if the form
/// says so, or if the answer is a refusal that closes the connection.
fn reply_with(alloc: Global, answer: &Answer, form: ReplyForm) -> Result<Reply, NoMemory>
    ensures { Says result (answer_text answer.now form) (form.closes
        || spec.closes_by_itself answer.now) }
{
    let text = answer.text(alloc, form)?;
    let closes = form.closes || closes_by_itself(answer);
    Ok(Reply {
        text,
        closes,
        refuses_token: refuses_token(answer),
    })
}

/// Returns the reply 100 (Continue).
#[tactic(auto, unfolding(crate::specs::Answering::continue_text))]
fn continue_reply(alloc: Global) -> Result<Reply, NoMemory>
    ensures { Says result spec.continue_text false }
{
    let text = String::from_str(alloc, CONTINUE)?;
    Ok(Reply {
        text,
        closes: false,
        refuses_token: false,
    })
}

/// Answers a message, by the service or without it.
fn answer_by<S: Shelf>(
    alloc: Global,
    routes: &Routes,
    service: &mut Service<S>,
    serving: Serving,
    arrival: &Arrival<'_>,
    message: &Message,
) -> Answer
    ensures keeps { KeepsSetting service.old service.new }
    ensures exchanged { (held : Option Store) (store : Store)
        → IsOver serving S.stands held (service_shelf service.old) store
        → S.is_honest (service_shelf service.new) → IsStore (service_base service.old) store
        → (next : Store) × IsOver serving S.stands held (service_shelf service.new) next
        × IsStore (service_base service.old) next
        × Exchanged (service_policy service.old) (service_base service.old) (λ _. ⊤)
        arrival.now message.now store result next }
    ensures lost { serving ≡ Serving.Lost → service.new ≡ service.old }
    ensures round { KeepsRound S.has_round (service_shelf service.old) (service_shelf service.new) }
    ensures honest { S.is_honest (service_shelf service.new)
        → S.is_honest (service_shelf service.old) }
{
    match serving {
        Serving::Live => answer(alloc, routes, service, arrival, message),
        Serving::Lost => answer_unserved(alloc, routes, arrival, message),
    }
}

/// Answers a message. Fails with `NoMemory` if the reply's text can't be allocated; the changes that the
/// message made remain committed.
fn answer_message<S: Shelf>(
    alloc: Global,
    routes: &Routes,
    service: &mut Service<S>,
    serving: Serving,
    arrival: &Arrival<'_>,
    message: &Message,
) -> Result<Reply, NoMemory>
    ensures keeps { KeepsSetting service.old service.new }
    ensures answered { (held : Option Store) (store : Store)
        → IsOver serving S.stands held (service_shelf service.old) store
        → S.is_honest (service_shelf service.new) → IsStore (service_base service.old) store
        → (next : Store) × IsOver serving S.stands held (service_shelf service.new) next
        × IsStore (service_base service.old) next
        × IsReplyToMessage (service_policy service.old)
        (service_base service.old) arrival.now message.now store result
        next }
    ensures lost { serving ≡ Serving.Lost → service.new ≡ service.old }
    ensures round { KeepsRound S.has_round (service_shelf service.old) (service_shelf service.new) }
    ensures honest { S.is_honest (service_shelf service.new)
        → S.is_honest (service_shelf service.old) }
{
    let answer = answer_by(alloc, routes, service, serving, arrival, message);
    reply_with(alloc, &answer, ReplyForm::of(message))
}

/// Answers an item of an event, in which `count` whole messages precede the item.
///
/// Fails with `NoMemory` if the reply's text can't be allocated; the changes that the item made remain
/// committed.
fn answer_item<S: Shelf>(
    alloc: Global,
    routes: &Routes,
    service: &mut Service<S>,
    serving: Serving,
    tokens: &Tokens,
    stamp: &Stamp,
    count: usize,
    item: &Item,
) -> Result<Reply, NoMemory>
    ensures keeps { KeepsSetting service.old service.new }
    ensures answered { (entries : List Entry) (held : Option Store) (store : Store)
        → Knows entries tokens.now
        → IsOver serving S.stands held (service_shelf service.old) store
        → S.is_honest (service_shelf service.new) → IsStore (service_base service.old) store
        → (next : Store) × IsOver serving S.stands held (service_shelf service.new) next
        × IsStore (service_base service.old) next
        × IsReplyToItem (service_policy service.old)
        (service_base service.old) entries stamp.now count item.now store
        result next }
    ensures lost { serving ≡ Serving.Lost → service.new ≡ service.old }
    ensures round { KeepsRound S.has_round (service_shelf service.old) (service_shelf service.new) }
    ensures honest { S.is_honest (service_shelf service.new)
        → S.is_honest (service_shelf service.old) }
{
    match item {
        Item::Continue => continue_reply(alloc),
        Item::Whole(message) => {
            let arrival = arrival_of(tokens, stamp, count, message);
            answer_message(alloc, routes, service, serving, &arrival, message)
        }
        Item::Refused(refusal) => {
            reply_with(alloc, &Answer::Refused(*refusal), ReplyForm::whole(true))
        }
    }
}

/// Returns 1 for a whole message and 0 for any other item.
fn whole_count(item: &Item) -> usize
    ensures { result ≡ spec.whole_count item.now }
{
    match item {
        Item::Whole(_) => 1,
        _ => 0,
    }
}

/// Answers the items of an event in order, up to and including the first whose reply closes the connection.
///
/// After `NoMemory` the changes of the items that were answered remain committed, and their replies are lost.
pub(crate) fn answer_items<S: Shelf>(
    alloc: Global,
    routes: &Routes,
    service: &mut Service<S>,
    serving: Serving,
    tokens: &Tokens,
    stamp: &Stamp,
    connection: u64,
    items: &[Item],
) -> Result<Replies, NoMemory>
    ensures keeps { KeepsSetting service.old service.new }
    ensures answered { (entries : List Entry) (held : Option Store) (store : Store)
        → Knows entries tokens.now
        → IsOver serving S.stands held (service_shelf service.old) store
        → S.is_honest (service_shelf service.new) → IsStore (service_base service.old) store
        → (next : Store) × IsOver serving S.stands held (service_shelf service.new) next
        × IsStore (service_base service.old) next
        × AreReplies (service_policy service.old)
        (service_base service.old) entries stamp.now connection items.now
        store result next }
    ensures lost { serving ≡ Serving.Lost → service.new ≡ service.old }
    ensures round { KeepsRound S.has_round (service_shelf service.old) (service_shelf service.new) }
    ensures honest { S.is_honest (service_shelf service.new)
        → S.is_honest (service_shelf service.old) }
{
    let mut outputs = Vec::new(alloc);
    let mut count = 0;
    let mut refused: u64 = 0;
    for item in items {
        let reply = answer_item(alloc, routes, service, serving, tokens, stamp, count, item)?;
        let Reply {
            text,
            closes,
            refuses_token,
        } = reply;
        refused = refused.saturating_add(u64::from(refuses_token));
        push(&mut outputs, Output::Write(connection, text))?;
        if closes {
            push(&mut outputs, Output::Shut(connection))?;
            return Ok(Replies {
                outputs,
                closed: true,
                refused,
            });
        }
        count += whole_count(item);
    }
    Ok(Replies {
        outputs,
        closed: false,
        refused,
    })
}
