//! The calls of `scim_fault_details`.
#![tactic(auto)]

use case_values::{Case, CaseFault, policy_text, said, text_or_json};
use scim_fault_details::{policy_detail, tokens_detail, users_detail};
use scim_json::{DamagedItem, check_documents};
use scim_policy_file::read_policy;
use scim_text::Failed;
use scim_token::{TokenFault, Tokens};
use std::alloc::Global;

/// Returns the result of the case's call, or `None` if it isn't a call of this crate.
pub fn answer(case: &Case<'_>, call: &str) -> Option<Result<String, CaseFault>> {
    match call {
        "policy_detail" => Some(policy_call(case)),
        "tokens_detail" => Some(tokens_call(case)),
        "users_detail" => Some(users_call(case)),
        _ => None,
    }
}

/// Returns the line of a fault and, below it, two spaces and the detail, if there is one.
fn with_detail(alloc: Global, line: String, detail: Option<String>) -> Result<String, CaseFault> {
    match detail {
        Some(detail) => Ok(format!(in alloc; "{line}\n  {detail}")?),
        None => Ok(line),
    }
}

/// Returns the fault of the case's policy file with its detail, or `ok`.
fn policy_call(case: &Case<'_>) -> Result<String, CaseFault> {
    let alloc = case.alloc;
    let text = policy_text(case)?;
    match read_policy(alloc, text.as_str()) {
        Ok(_) => said(alloc, "ok"),
        Err(Failed::Because(fault)) => {
            let line = format!(in alloc; "policy: {fault}")?;
            let detail = policy_detail(alloc, text.as_str(), fault)?;
            with_detail(alloc, line, detail)
        }
        Err(Failed::NoMemory) => Err(CaseFault::NoMemory),
    }
}

/// Returns the fault of the case's token file with its detail, or `ok`.
fn tokens_call(case: &Case<'_>) -> Result<String, CaseFault> {
    let alloc = case.alloc;
    let text = token_file(case)?;
    match Tokens::read(alloc, text.as_str()) {
        Ok(_) => said(alloc, "ok"),
        Err(Failed::Because(TokenFault { line, .. })) => {
            let line = format!(in alloc; "tokens: line {line}")?;
            let detail = tokens_detail(alloc, text.as_str())?;
            with_detail(alloc, line, detail)
        }
        Err(Failed::NoMemory) => Err(CaseFault::NoMemory),
    }
}

/// Returns as many lines with a token of their own as the argument `more` says, and the text `tokens` behind them.
fn token_file(case: &Case<'_>) -> Result<String, CaseFault> {
    let mut file = String::new(case.alloc);
    for number in 0..case.number("more").unwrap_or(0) {
        let line = format!(in case.alloc; "client {number:064x}\n")?;
        file.push_str(line.as_str())?;
    }
    file.push_str(case.text_or("tokens", ""))?;
    Ok(file)
}

/// Returns the fault of the case's users file with its detail, or `ok`.
fn users_call(case: &Case<'_>) -> Result<String, CaseFault> {
    let alloc = case.alloc;
    let base = case.text_or("base", "http://127.0.0.1:8080");
    let text = users_file(case)?;
    match check_documents(alloc, base, text.as_str()) {
        Ok(()) => said(alloc, "ok"),
        Err(Failed::Because(DamagedItem(item))) => {
            let line = format!(in alloc; "users: item {item}")?;
            let detail = users_detail(alloc, base, text.as_str(), item)?;
            with_detail(alloc, line, detail)
        }
        Err(Failed::NoMemory) => Err(CaseFault::NoMemory),
    }
}

/// Returns the text `users`, `count` times the text `again`, and the text `end`.
fn users_file(case: &Case<'_>) -> Result<String, CaseFault> {
    let mut file = text_or_json(case, "users", "[]")?;
    for _ in 0..case.number("count").unwrap_or(0) {
        file.push_str(case.text_or("again", ""))?;
    }
    file.push_str(case.text_or("end", ""))?;
    Ok(file)
}
