//! The calls of `scim_token`, and a function that finds the client of a step.
use case_values::{Case, CaseFault, said, shown};
use scim_text::{Failed, NoMemory};
use scim_token::Tokens;
use scim_wire::Message;
use std::alloc::Global;

/// Returns the result of the case's call, or `None` if it isn't one of these.
pub fn answer(case: &Case<'_>, call: &str) -> Option<Result<String, CaseFault>> {
    match call {
        "client_of" => Some(client_call(case)),
        "first_shared" => Some(shared_call(case)),
        _ => None,
    }
}

/// Returns the client to which a token file assigns the token in the argument `token`, or `none` if the file
/// assigns it to no client. Returns the text of the error if the token file is invalid.
fn client_call(case: &Case<'_>) -> Result<String, CaseFault> {
    let token = case.text("token")?.as_bytes();
    let file = token_file(case)?;
    client_in(case.alloc, file.as_str(), token)
}

fn client_in(alloc: Global, file: &str, token: &[u8]) -> Result<String, CaseFault> {
    match Tokens::read(alloc, file) {
        Ok(tokens) => said(alloc, tokens.client_of(token).unwrap_or("none")),
        Err(Failed::Because(fault)) => shown(alloc, &fault),
        Err(Failed::NoMemory) => Err(CaseFault::NoMemory),
    }
}

/// Returns the number of the first line of the argument `other` that has a token of the token file `tokens`, or
/// `none`.
fn shared_call(case: &Case<'_>) -> Result<String, CaseFault> {
    let tokens = tokens_of(case)?;
    match tokens.first_shared(case.text("other")?) {
        Some(line) => shown(case.alloc, &line),
        None => said(case.alloc, "none"),
    }
}

/// Returns the argument `tokens`, followed by as many lines as the argument `more` says. Each line has a
/// different token.
fn token_file(case: &Case<'_>) -> Result<String, NoMemory> {
    let mut file = String::from_str(case.alloc, case.text_or("tokens", ""))?;
    for number in 0..case.number("more").unwrap_or(0) {
        push_token_line(case.alloc, number, &mut file)?;
    }
    Ok(file)
}

/// Appends the line of a token whose digest is `number` in hex, padded with zeros.
fn push_token_line(alloc: Global, number: i64, file: &mut String) -> Result<(), NoMemory> {
    let digits = hex::encode(alloc, number.to_be_bytes())?;
    file.push_str("client 000000000000000000000000000000000000000000000000")?;
    file.push_str(digits.as_str())?;
    Ok(file.push_str("\n")?)
}

/// Returns the tokens of the token file in the argument `tokens`, by default an empty file. Fails with
/// `Missing` if the file is invalid.
pub fn tokens_of(case: &Case<'_>) -> Result<Tokens, CaseFault> {
    match Tokens::read(case.alloc, case.text_or("tokens", "")) {
        Ok(tokens) => Ok(tokens),
        Err(Failed::NoMemory) => Err(CaseFault::NoMemory),
        Err(Failed::Because(_)) => Err(CaseFault::Missing("tokens")),
    }
}

/// Returns the client of a step: its argument `client` or, if this isn't given, the client that has the token
/// of the message. Returns `None` if there is no such client.
pub fn client_of<'c>(step: &'c Case<'_>, message: &Message, tokens: &'c Tokens) -> Option<&'c str> {
    if let Ok(client) = step.text("client") {
        return Some(client);
    }
    match &message.token {
        Some(token) => tokens.client_of(token.as_slice()),
        None => None,
    }
}
