//! Answers the steps of a case over stores in memory, in a database, and in a database with a cache, of whose
//! commits a watcher is told.
use crate::audited::{Audited, cached, watched};
use crate::databases::{OverDatabase, filled, over_new_database, shelf_of};
use crate::exchanges::push_replies;
use crate::faults::{StoreFault, told_or_fault};
use crate::services::service_over;
use case_messages::tokens_of;
use case_runs::{Store, goes_to, stores_of};
use case_values::{Case, CaseFault, joined, push_rows_after};
use scim_service::Service;
use scim_shelf::Shelf;
use scim_token::Tokens;
use sqlite::{Alter, Connection};

/// Answers the steps over a store in memory, over a database, and over a database with a cache. Returns the
/// replies over the store in memory and, if the three results differ, also the replies over both databases.
pub fn answered(case: &Case<'_>) -> Result<String, CaseFault> {
    let tokens = tokens_of(case)?;
    told_of_all(case, &tokens)
}

fn told_of_all(case: &Case<'_>, tokens: &Tokens) -> Result<String, CaseFault> {
    let in_memory = told_or_fault(case.alloc, told_in_memory(case, tokens))?;
    let in_database = told_or_fault(case.alloc, told_in_database(case, tokens, false))?;
    let in_cache = told_or_fault(case.alloc, told_in_database(case, tokens, true))?;
    if in_memory == in_database && in_memory == in_cache {
        return Ok(in_memory);
    }
    let texts = [
        in_memory.as_str(),
        "\nand something else over a database: ",
        in_database.as_str(),
        "\nor over one that is kept in memory too: ",
        in_cache.as_str(),
    ];
    joined(case.alloc, &texts)
}

fn told_in_memory(case: &Case<'_>, tokens: &Tokens) -> Result<String, StoreFault> {
    let mut text = String::new(case.alloc);
    for store in stores_of(case) {
        let shelf = shelf_of(case, store.users)?;
        let asked = Asked {
            store,
            tokens,
            is_cached: false,
        };
        push_steps(case, &asked, shelf, &mut text)?;
    }
    Ok(text)
}

fn told_in_database(
    case: &Case<'_>,
    tokens: &Tokens,
    is_cached: bool,
) -> Result<String, StoreFault> {
    let mut text = String::new(case.alloc);
    for store in stores_of(case) {
        let asked = Asked {
            store,
            tokens,
            is_cached,
        };
        let told = over_new_database(case, &asked)?;
        text.push_str(told.as_str())?;
    }
    Ok(text)
}

/// The store of a case, the tokens of its clients, and whether the store has a cache.
#[derive(Clone, Copy)]
struct Asked<'a> {
    store: &'a Store,
    tokens: &'a Tokens,
    is_cached: bool,
}

impl OverDatabase for Asked<'_> {
    fn over<S: Alter + Drop>(
        &self,
        case: &Case<'_>,
        connection: Connection<S>,
    ) -> Result<String, StoreFault> {
        let shelf = filled(case, self.store.users, connection)?;
        let mut text = String::new(case.alloc);
        if self.is_cached {
            let shelf = watched(case.alloc, cached(case.alloc, shelf)?, 0);
            push_steps(case, self, shelf, &mut text)?;
        } else {
            push_steps(case, self, shelf, &mut text)?;
        }
        Ok(text)
    }
}

/// Appends the replies of a store to the steps of a case, and closes the store.
fn push_steps<S: Audited>(
    case: &Case<'_>,
    asked: &Asked<'_>,
    shelf: S,
    text: &mut String,
) -> Result<(), StoreFault> {
    let mut shelf = shelf;
    let mut known = 0;
    for value in case.list("steps") {
        let step = case.inner(value);
        let service = service_for(case, &step, shelf)?;
        shelf = after_step(&step, asked, service, &mut known, text)?;
    }
    shelf.close();
    Ok(())
}

/// Returns a service for a step. If `reopens` is true in the step, first closes the database and opens it
/// again.
fn service_for<S: Audited>(
    case: &Case<'_>,
    step: &Case<'_>,
    shelf: S,
) -> Result<Service<S>, StoreFault> {
    if step.is_true("reopens") {
        service_over(case, shelf.reopened(case)?)
    } else {
        service_over(case, shelf)
    }
}

/// Answers a step and returns the store. Appends the replies and, if the step has `audit`, the new audit
/// lines. A step before which the audit has an even number of rows is a round, if the store has rounds.
///
/// If this fails, closes the store.
fn after_step<S: Audited>(
    step: &Case<'_>,
    asked: &Asked<'_>,
    service: Service<S>,
    known: &mut u64,
    text: &mut String,
) -> Result<S, StoreFault> {
    let mut service = service;
    if *known % 2 == 0 {
        let _begun = service.shelf_mut().begin_round(step.alloc);
    }
    let answered = push_answers(step, asked, &mut service, text);
    let mut shelf = service.into_shelf();
    let noted = push_settled_rows(step, &mut shelf, known, text);
    match (answered, noted) {
        (Ok(()), Ok(())) => Ok(shelf),
        (Err(fault), _) => {
            shelf.close();
            Err(StoreFault::Case(fault))
        }
        (_, Err(fault)) => {
            shelf.close();
            Err(fault)
        }
    }
}

/// Appends the replies to a step, if it goes to the store.
fn push_answers<S: Shelf>(
    step: &Case<'_>,
    asked: &Asked<'_>,
    service: &mut Service<S>,
    text: &mut String,
) -> Result<(), CaseFault> {
    if !goes_to(step, asked.store)? {
        return Ok(());
    }
    text.push_str(asked.store.title)?;
    push_replies(step, asked.tokens, service, text)
}

/// Ends the round that is under way, if there is one, and calls [`push_new_rows`].
fn push_settled_rows<S: Audited>(
    step: &Case<'_>,
    shelf: &mut S,
    known: &mut u64,
    text: &mut String,
) -> Result<(), StoreFault> {
    match shelf.settle(step.alloc) {
        Ok(()) => push_new_rows(step, shelf, known, text),
        Err(_) => Err(StoreFault::NotSettled),
    }
}

/// If the step has `audit`, appends a line for each audit row after the first `known` rows. Sets `known` to
/// the number of all audit rows in any case.
fn push_new_rows<S: Audited>(
    step: &Case<'_>,
    shelf: &mut S,
    known: &mut u64,
    text: &mut String,
) -> Result<(), StoreFault> {
    let rows = shelf.rows_after(step.alloc, *known)?;
    if step.has("audit") {
        push_rows_after(step.alloc, *known, rows.as_slice(), text)?;
    }
    *known = known.saturating_add(rows.len() as u64);
    Ok(())
}
