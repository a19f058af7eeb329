//! The texts of requests and replies.
use case_values::{Case, CaseFault, push_all, said, shown, text_or_json};

/// Returns the text of an HTTP message. The parameters `head` and `body` name the arguments that contain it.
///
/// If the argument `head` is a string, it is the whole message. Otherwise it is a list of lines, and the
/// message is these lines, an empty line and the argument `body`, which is a string or another JSON value. If
/// `is_request` is true, the message is extended as [`push_more`] says, and a `Content-Length` line is added
/// if the body isn't empty.
pub fn message_text(
    step: &Case<'_>,
    head: &'static str,
    body: &'static str,
    is_request: bool,
) -> Result<String, CaseFault> {
    if let Ok(text) = step.text(head) {
        return more_text(step, said(step.alloc, text)?, is_request);
    }
    let body = more_text(step, text_or_json(step, body, "")?, is_request)?;
    let mut text = String::new(step.alloc);
    push_lines(step, head, "\r\n", &mut text)?;
    if is_request && !body.is_empty() {
        push_length(step, body.len(), &mut text)?;
    }
    push_all(&mut text, &["\r\n", body.as_str()])?;
    Ok(text)
}

/// Returns the text of a message or body, extended as [`push_more`] says if it is that of a request.
fn more_text(step: &Case<'_>, text: String, is_request: bool) -> Result<String, CaseFault> {
    let mut text = text;
    if is_request {
        push_more(step, &mut text)?;
    }
    Ok(text)
}

/// Appends the argument `again` as often as the argument `count` says, by default not at all, and then the
/// argument `end`. The first `#` in `again` stands for the number of the repetition, counted from 1.
fn push_more(step: &Case<'_>, text: &mut String) -> Result<(), CaseFault> {
    let again = step.text_or("again", "");
    for number in 0..step.count("count").unwrap_or(0) {
        push_numbered(step, again, number.saturating_add(1), text)?;
    }
    Ok(text.push_str(step.text_or("end", ""))?)
}

/// Appends a text with the number in place of the first `#`.
fn push_numbered(
    step: &Case<'_>,
    again: &str,
    number: usize,
    text: &mut String,
) -> Result<(), CaseFault> {
    let Some((front, back)) = again.split_once('#') else {
        return Ok(text.push_str(again)?);
    };
    let number = shown(step.alloc, &number)?;
    push_all(text, &[front, number.as_str(), back])
}

/// Appends the strings in the list `name`, each followed by `end`.
pub fn push_lines(
    step: &Case<'_>,
    name: &'static str,
    end: &str,
    text: &mut String,
) -> Result<(), CaseFault> {
    for value in step.list(name) {
        if let Some(line) = value.as_str() {
            push_all(text, &[line, end])?;
        }
    }
    Ok(())
}

fn push_length(step: &Case<'_>, length: usize, text: &mut String) -> Result<(), CaseFault> {
    let number = shown(step.alloc, &length)?;
    push_all(text, &["Content-Length: ", number.as_str(), "\r\n"])
}

/// Returns the bytes of the request in a step. It is given in hex in `request_hex`, or as a message in
/// `request` and `body`.
pub fn request_bytes(step: &Case<'_>) -> Result<Vec<u8>, CaseFault> {
    let Ok(digits) = step.text("request_hex") else {
        return Ok(message_text(step, "request", "body", true)?.into_bytes());
    };
    match hex::decode(step.alloc, digits) {
        Ok(bytes) => Ok(bytes),
        Err(_) => Err(CaseFault::Missing("request_hex")),
    }
}
