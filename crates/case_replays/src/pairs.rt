//! Runs the events of a case on two hubs, and compares what the connections of one client get from them.
use crate::event_lines::events_over;
use crate::events::replayed;
use crate::recordings::Texts;
use case_runs::{Store, stores_of};
use case_values::{Case, CaseFault, push_all};

/// Returns the output of `replay` for the connections in the list `ours`, if it is the same from a hub over the
/// users `users` and from one over the users `beside`. If it differs, returns both, each with the name of its store.
pub(crate) fn told_of_pair(case: &Case<'_>) -> Result<String, CaseFault> {
    let mut told: Option<String> = None;
    for store in stores_of(case) {
        let found = told_to_ours(case, store)?;
        told = Some(match told {
            Some(first) => both_or_one(case, first, found.as_str())?,
            None => found,
        });
    }
    told.ok_or(CaseFault::Missing("beside"))
}

/// Returns the first text if the second is the same; otherwise both, each with the name of its store.
fn both_or_one(case: &Case<'_>, first: String, second: &str) -> Result<String, CaseFault> {
    if first.as_str() == second {
        return Ok(first);
    }
    let mut text = String::new(case.alloc);
    let words = ["first store: ", first.as_str(), "second store: ", second];
    push_all(&mut text, &words)?;
    Ok(text)
}

/// Returns the output of `replay` over a store for the connections in the list `ours`.
fn told_to_ours(case: &Case<'_>, store: &Store) -> Result<String, CaseFault> {
    let texts = Texts::over(case, store.users, events_over(case, store)?)?;
    let lines = replayed(case.alloc, &texts, "")?;
    lines_to_ours(case, lines.as_str())
}

/// Returns those of these lines that are for a connection in the list `ours`.
fn lines_to_ours(case: &Case<'_>, lines: &str) -> Result<String, CaseFault> {
    let mut text = String::new(case.alloc);
    for line in lines.lines() {
        if is_to_ours(case, line) {
            push_all(&mut text, &[line, "\n"])?;
        }
    }
    Ok(text)
}

/// Whether the second word of a line is the number of a connection in the list `ours`.
fn is_to_ours(case: &Case<'_>, line: &str) -> bool {
    let number = line.split(' ').nth(1);
    case.list("ours")
        .iter()
        .any(|ours| number.is_some() && ours.as_str() == number)
}
