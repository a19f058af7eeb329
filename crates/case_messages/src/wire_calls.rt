//! The calls of `scim_wire`.
use case_values::{Case, CaseFault, between, debugged, push_all};
use scim_wire::{HttpReply, Item, Message, Octets, ReplyForm, Wire, print_reply};
use std::alloc::Global;

/// Returns the result of the case's call, or `None` if it isn't a call of `scim_wire`.
pub fn answer(case: &Case<'_>, call: &str) -> Option<Result<String, CaseFault>> {
    match call {
        "feed" => Some(feed_call(case)),
        "print_reply" => Some(print_reply_call(case)),
        _ => None,
    }
}

/// Returns the bytes of a stream, which the argument `hex` gives in hex. If it isn't given, the stream is the
/// argument `text`, then `again` repeated `count` times, then `end`.
fn stream(case: &Case<'_>) -> Result<Vec<u8>, CaseFault> {
    if let Ok(digits) = case.text("hex") {
        return bytes_of(case.alloc, digits);
    }
    let mut bytes = case.text("text")?.as_bytes().to_vec(case.alloc)?;
    for _ in 0..case.number("count").unwrap_or(0) {
        bytes.extend_from_slice(case.text_or("again", "").as_bytes())?;
    }
    bytes.extend_from_slice(case.text_or("end", "").as_bytes())?;
    Ok(bytes)
}

fn bytes_of(alloc: Global, digits: &str) -> Result<Vec<u8>, CaseFault> {
    match hex::decode(alloc, digits) {
        Ok(bytes) => Ok(bytes),
        Err(_) => Err(CaseFault::Missing("hex")),
    }
}

/// Feeds a stream byte by byte. Returns its items, each with the number of bytes fed when it is complete.
///
/// If the argument `cuts` is true, also feeds the stream in two pieces, cut at each position in turn. Then
/// also returns the first cut that changes the items, or ` however cut` if no cut does.
fn feed_call(case: &Case<'_>) -> Result<String, CaseFault> {
    let bytes = stream(case)?;
    let mut text = String::new(case.alloc);
    push_stream(case.alloc, bytes.as_slice(), &mut text)?;
    if case.is_true("cuts") {
        push_cuts(case.alloc, bytes.as_slice(), &mut text)?;
    }
    Ok(text)
}

/// Feeds a stream byte by byte and appends its items.
fn push_stream(alloc: Global, bytes: &[u8], text: &mut String) -> Result<(), CaseFault> {
    let mut wire = Wire::new(alloc);
    for (index, byte) in bytes.iter().enumerate() {
        push_fed(alloc, &mut wire, &[*byte], index.saturating_add(1), text)?;
    }
    Ok(())
}

/// Feeds some bytes and appends the items that they complete. Prints `count`, the number of bytes fed so far,
/// after each item.
fn push_fed(
    alloc: Global,
    wire: &mut Wire,
    bytes: &[u8],
    count: usize,
    text: &mut String,
) -> Result<(), CaseFault> {
    let items = wire.feed(alloc, bytes)?;
    for item in items.as_slice() {
        push_item(alloc, item, text)?;
        push_count(alloc, count, text)?;
    }
    Ok(())
}

fn push_count(alloc: Global, count: usize, text: &mut String) -> Result<(), CaseFault> {
    let count = between(alloc, "@", &count, ";")?;
    push_all(text, &[count.as_str()])
}

/// Appends an item: `Continue`, a refusal, or a message. Of a message, appends the method, the target, the
/// token and the body, and ` closes` if it closes the connection.
fn push_item(alloc: Global, item: &Item, text: &mut String) -> Result<(), CaseFault> {
    match item {
        Item::Continue => push_all(text, &["Continue"]),
        Item::Refused(refusal) => {
            let refusal = debugged(alloc, refusal)?;
            push_all(text, &[refusal.as_str()])
        }
        Item::Whole(message) => push_message(message, text),
    }
}

fn push_message(message: &Message, text: &mut String) -> Result<(), CaseFault> {
    push_all(
        text,
        &[text_of(&message.method), " ", text_of(&message.target)],
    )?;
    if let Some(token) = &message.token {
        push_all(text, &[" token ", text_of(token)])?;
    }
    if !message.body.as_slice().is_empty() {
        push_all(text, &[" body ", text_of(&message.body)])?;
    }
    push_all(text, &[if message.close { " closes" } else { "" }])
}

fn text_of(octets: &Octets) -> &str {
    str::from_utf8(octets.as_slice()).unwrap_or("no UTF-8")
}

/// Feeds a stream in two pieces, the first of `cut` bytes, and returns its items.
fn items_in_two(alloc: Global, bytes: &[u8], cut: usize) -> Result<String, CaseFault> {
    let (front, back) = bytes.split_at(cut.min(bytes.len()));
    let mut wire = Wire::new(alloc);
    let mut text = String::new(alloc);
    push_fed(alloc, &mut wire, front, 0, &mut text)?;
    push_fed(alloc, &mut wire, back, 0, &mut text)?;
    Ok(text)
}

/// Appends the first cut with which the items differ from the items of the uncut stream, and these items.
/// Appends ` however cut` if the items are equal for every cut.
fn push_cuts(alloc: Global, bytes: &[u8], text: &mut String) -> Result<(), CaseFault> {
    let whole = items_in_two(alloc, bytes, 0)?;
    for cut in 1..bytes.len() {
        let found = items_in_two(alloc, bytes, cut)?;
        if found.as_str() != whole.as_str() {
            return push_cut(alloc, cut, found.as_str(), text);
        }
    }
    push_all(text, &[" however cut"])
}

fn push_cut(alloc: Global, cut: usize, found: &str, text: &mut String) -> Result<(), CaseFault> {
    let cut = between(alloc, " cut at ", &cut, ": ")?;
    push_all(text, &[cut.as_str(), found])
}

/// Returns the HTTP reply that the arguments describe, printed as text.
fn print_reply_call(case: &Case<'_>) -> Result<String, CaseFault> {
    let Ok(status) = u16::try_from(case.number("status")?) else {
        return Err(CaseFault::Missing("status"));
    };
    let reply = HttpReply {
        status,
        body: case.text("body").ok(),
        location: case.text("location").ok(),
        allow: case.text("allow").ok(),
        asks_for_token: case.is_true("asks_for_token"),
    };
    let form = ReplyForm {
        closes: case.is_true("close"),
        omits_body: case.is_true("omits_body"),
    };
    Ok(print_reply(case.alloc, &reply, form)?)
}
