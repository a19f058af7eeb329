//! The expected result of a case.
use crate::outputs::outputs_text;
use crate::requests::{message_text, push_lines};
use crate::stores::{Store, goes_to, stores_of};
use case_values::{Case, CaseFault, text_or_json};

/// Returns the expected result of a case: the replies to its steps, or the outputs of its events.
///
/// A case without steps and outputs has the expected result in `gives` or, if this isn't given, in `said`. A
/// string is returned as it is, and any other value as JSON without spaces.
pub fn expected(case: &Case<'_>) -> Result<String, CaseFault> {
    if case.has("steps") {
        return replies(case);
    }
    if case.has("outputs") {
        return outputs_text(case);
    }
    let name = if case.has("gives") { "gives" } else { "said" };
    text_or_json(case, name, "")
}

/// Returns the expected replies to the steps for each store in turn. Each reply is followed by the lines in
/// the list `audit` of its step.
fn replies(case: &Case<'_>) -> Result<String, CaseFault> {
    let mut text = String::new(case.alloc);
    for store in stores_of(case) {
        push_replies(case, store, &mut text)?;
    }
    Ok(text)
}

/// Appends the expected replies of a store. Includes the reply to a step whose `over` is invalid. Running
/// this step fails, so the case is reported.
fn push_replies(case: &Case<'_>, store: &Store, text: &mut String) -> Result<(), CaseFault> {
    for value in case.list("steps") {
        let step = case.inner(value);
        if goes_to(&step, store).unwrap_or(true) {
            text.push_str(store.title)?;
            push_reply(&step, store, text)?;
        }
    }
    Ok(())
}

fn push_reply(step: &Case<'_>, store: &Store, text: &mut String) -> Result<(), CaseFault> {
    let (head, body) = if step.has(store.reply) {
        (store.reply, store.gives)
    } else {
        ("reply", "gives")
    };
    let reply = message_text(step, head, body, false)?;
    text.push_str(reply.as_str())?;
    push_lines(step, "audit", ";", text)
}
