//! Answers whole requests, which are the messages in a stream of bytes, over a store.
use case_messages::client_of;
use case_runs::request_bytes;
use case_values::{Case, CaseFault};
use scim_cell::Id;
use scim_exchange::{Answer, Arrival, answer as answer_message};
use scim_route::Routes;
use scim_service::Service;
use scim_shelf::Shelf;
use scim_text::read_printed_moment;
use scim_token::Tokens;
use scim_wire::{Item, Message, ReplyForm, Wire};
use std::alloc::Global;

/// The default id of a resource that a request creates.
pub const FRESH: &str = "00000000-0000-4000-8000-0000000000e1";

/// The response that asks for the body of a message (RFC 9110 section 15.2.1).
const CONTINUE: &str = "HTTP/1.1 100 Continue\r\n\r\n";

/// Appends the replies to the messages of a step, up to the first reply that closes the connection.
///
/// If a message creates a resource, the id of the resource is the argument `first`, by default [`FRESH`].
pub fn push_replies<S: Shelf>(
    step: &Case<'_>,
    tokens: &Tokens,
    service: &mut Service<S>,
    text: &mut String,
) -> Result<(), CaseFault> {
    let bytes = request_bytes(step)?;
    let Some(fresh) = Id::read(step.text_or("first", FRESH)) else {
        return Err(CaseFault::Missing("first"));
    };
    let asking = Asking {
        step,
        tokens,
        fresh,
    };
    push_replies_to(&asking, bytes.as_slice(), service, text)
}

/// Who asks, and the id of a resource that is created.
#[derive(Clone, Copy)]
pub struct Asking<'a> {
    /// The step, whose arguments `client` and `at` say who asks and when.
    pub step: &'a Case<'a>,
    pub tokens: &'a Tokens,
    pub fresh: Id,
}

/// Appends the replies to the messages in some bytes, up to the first reply that closes the connection.
pub fn push_replies_to<S: Shelf>(
    asking: &Asking<'_>,
    bytes: &[u8],
    service: &mut Service<S>,
    text: &mut String,
) -> Result<(), CaseFault> {
    let mut wire = Wire::new(asking.step.alloc);
    let items = wire.feed(asking.step.alloc, bytes)?;
    push_items(asking, items.as_slice(), service, text)
}

/// Appends the replies to the items of a step, up to the first reply that closes the connection.
fn push_items<S: Shelf>(
    asking: &Asking<'_>,
    items: &[Item],
    service: &mut Service<S>,
    text: &mut String,
) -> Result<(), CaseFault> {
    for item in items {
        if push_item(asking, item, service, text)? {
            return Ok(());
        }
    }
    Ok(())
}

/// Appends the reply to an item, and returns whether the connection is closed after it.
///
/// Like the command `once`, doesn't append a 100 (Continue) response if the step has a `client`.
fn push_item<S: Shelf>(
    asking: &Asking<'_>,
    item: &Item,
    service: &mut Service<S>,
    text: &mut String,
) -> Result<bool, CaseFault> {
    match item {
        Item::Continue => {
            if !asking.step.has("client") {
                text.push_str(CONTINUE)?;
            }
            Ok(false)
        }
        Item::Whole(message) => {
            push_answer(asking, message, service, text)?;
            Ok(message.close)
        }
        Item::Refused(refusal) => {
            push_text(
                asking.step.alloc,
                &Answer::Refused(*refusal),
                ReplyForm::whole(true),
                text,
            )?;
            Ok(true)
        }
    }
}

/// Appends the reply to a message.
///
/// The client is the step's `client` or, if this isn't given, the client that has the token of the message.
/// The time is the argument `at`, by default 2024-06-01T12:00:00Z.
fn push_answer<S: Shelf>(
    asking: &Asking<'_>,
    message: &Message,
    service: &mut Service<S>,
    text: &mut String,
) -> Result<(), CaseFault> {
    let step = asking.step;
    let at = step.text_or("at", "2024-06-01T12:00:00Z");
    let Some(moment) = read_printed_moment(step.alloc, at)? else {
        return Err(CaseFault::Missing("at"));
    };
    let routes = Routes::new(step.alloc)?;
    let arrival = Arrival {
        client: client_of(step, message, asking.tokens),
        moment,
        fresh: asking.fresh,
    };
    let answer = answer_message(step.alloc, &routes, service, &arrival, message);
    push_text(step.alloc, &answer, ReplyForm::of(message), text)
}

fn push_text(
    alloc: Global,
    answer: &Answer,
    form: ReplyForm,
    text: &mut String,
) -> Result<(), CaseFault> {
    let told = answer.text(alloc, form)?;
    Ok(text.push_str(told.as_str())?)
}
