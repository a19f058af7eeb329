//! The call `refusal`, which describes the reply for a refusal.
use case_values::{Case, CaseFault, joined, push_all, refusal_of, shown};
use scim_audit::Refusal;
use std::alloc::Global;

/// Returns the number, the status, the `scimType` and the allowed methods of a refusal, and whether its reply
/// asks for a token and closes the connection.
pub fn refusal_call(case: &Case<'_>) -> Result<String, CaseFault> {
    let refusal = refusal_of(case)?;
    let mut text = number_and_status(case.alloc, refusal)?;
    push_words(refusal, &mut text)?;
    push_asks(refusal, &mut text)?;
    Ok(text)
}

fn number_and_status(alloc: Global, refusal: Refusal) -> Result<String, CaseFault> {
    let number = shown(alloc, &refusal.number())?;
    let status = shown(alloc, &refusal.status())?;
    joined(alloc, &["F", number.as_str(), " ", status.as_str()])
}

/// Appends the `scimType` and the allowed methods of a refusal, if it has them.
fn push_words(refusal: Refusal, text: &mut String) -> Result<(), CaseFault> {
    if let Some(scim_type) = refusal.scim_type() {
        push_all(text, &[" ", scim_type])?;
    }
    if let Some(allow) = refusal.allow() {
        push_all(text, &[", Allow: ", allow])?;
    }
    Ok(())
}

/// Appends whether the reply for a refusal asks for a token, and whether it closes the connection.
fn push_asks(refusal: Refusal, text: &mut String) -> Result<(), CaseFault> {
    if refusal.asks_for_token() {
        text.push_str(", asks for a token")?;
    }
    if refusal.closes() {
        text.push_str(", closes")?;
    }
    Ok(())
}
