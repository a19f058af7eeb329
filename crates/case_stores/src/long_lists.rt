//! The call `long_list`, which makes, changes, reads and finds many users, one after another.
use crate::audited::{Audited, cached};
use crate::databases::{OverDatabase, filled, over_new_database, shelf_of};
use crate::exchanges::{Asking, push_replies_to};
use crate::faults::{StoreFault, told_or_fault};
use crate::services::service_over;
use case_messages::tokens_of;
use case_values::{Case, CaseFault, between, joined, named, push_all, shown};
use scim_cell::Id;
use scim_service::Service;
use scim_shelf::Shelf;
use scim_token::Tokens;
use sqlite::{Alter, Connection};
use std::alloc::Global;

/// The store of a long list.
#[derive(Clone, Copy)]
enum Over {
    Memory,
    /// A database. The field is whether it has a cache.
    Database(bool),
}

static STORES: [(&str, Over); 3] = [
    ("memory", Over::Memory),
    ("database", Over::Database(false)),
    ("cache", Over::Database(true)),
];

/// For each number from 1 to the argument `count`, creates a user, adds a title, and reads and searches the
/// user. Returns the statuses of the four replies and the number of results. If a number has other ones than 1
/// has, also returns the first such number with its replies.
///
/// The argument `client` asks. The store has the users of the argument `users`. It is in memory, in a database
/// or in a database with a cache, as the argument `over` says: `memory`, `database` or `cache`.
pub fn list_call(case: &Case<'_>) -> Result<String, CaseFault> {
    let Some(over) = named(&STORES, case.text("over")?) else {
        return Err(CaseFault::Missing("over"));
    };
    match over {
        Over::Memory => told_or_fault(case.alloc, rounds_over(case, shelf_of(case, "users")?)),
        Over::Database(is_cached) => told_or_fault(
            case.alloc,
            over_new_database(case, &LongList { is_cached }),
        ),
    }
}

/// A long list over a database.
#[derive(Clone, Copy)]
struct LongList {
    is_cached: bool,
}

impl OverDatabase for LongList {
    fn over<S: Alter + Drop>(
        &self,
        case: &Case<'_>,
        connection: Connection<S>,
    ) -> Result<String, StoreFault> {
        let shelf = filled(case, "users", connection)?;
        if self.is_cached {
            rounds_over(case, cached(case.alloc, shelf)?)
        } else {
            rounds_over(case, shelf)
        }
    }
}

/// Runs all rounds over a store, and closes the store.
fn rounds_over<S: Audited>(case: &Case<'_>, shelf: S) -> Result<String, StoreFault> {
    let mut service = service_over(case, shelf)?;
    let told = told_of_rounds(case, &mut service);
    service.into_shelf().close();
    Ok(told?)
}

fn told_of_rounds<S: Shelf>(
    case: &Case<'_>,
    service: &mut Service<S>,
) -> Result<String, CaseFault> {
    let tokens = tokens_of(case)?;
    let mut first = round(case, &tokens, 1, service)?;
    push_first_other(case, &tokens, service, &mut first)?;
    Ok(first)
}

/// Runs the rounds from 2 on. Appends the first whose replies are other ones than `first`, if any.
fn push_first_other<S: Shelf>(
    case: &Case<'_>,
    tokens: &Tokens,
    service: &mut Service<S>,
    first: &mut String,
) -> Result<(), CaseFault> {
    for number in 2..case.count("count")?.saturating_add(1) {
        let told = round(case, tokens, number, service)?;
        if told.as_str() != first.as_str() {
            return push_other(case.alloc, number, told.as_str(), first);
        }
    }
    Ok(())
}

fn push_other(
    alloc: Global,
    number: usize,
    told: &str,
    text: &mut String,
) -> Result<(), CaseFault> {
    let number = shown(alloc, &number)?;
    push_all(text, &["; at ", number.as_str(), ": ", told])
}

/// Creates a user, adds a title, and reads and searches the user. Returns the statuses of the replies and the
/// number of results.
fn round<S: Shelf>(
    case: &Case<'_>,
    tokens: &Tokens,
    number: usize,
    service: &mut Service<S>,
) -> Result<String, CaseFault> {
    let id = id_text(case.alloc, number)?;
    let Some(fresh) = Id::read(id.as_str()) else {
        return Err(CaseFault::Missing("count"));
    };
    let asking = Asking {
        step: case,
        tokens,
        fresh,
    };
    let requests = requests(case.alloc, number, id.as_str())?;
    let mut replies = String::new(case.alloc);
    push_replies_to(&asking, requests.as_bytes(), service, &mut replies)?;
    told_of_replies(case.alloc, replies.as_str())
}

/// Returns the id of the user with this number, which must be less than 9,000.
fn id_text(alloc: Global, number: usize) -> Result<String, CaseFault> {
    let digits = number.saturating_add(1_000);
    between(alloc, "00000000-0000-4000-8000-00000000", &digits, "")
}

/// Returns the four requests of a round.
fn requests(alloc: Global, number: usize, id: &str) -> Result<String, CaseFault> {
    let name = between(alloc, "u", &number, "")?;
    let body = joined(alloc, &["{\"userName\":\"", name.as_str(), "\"}"])?;
    let length = shown(alloc, &body.len())?;
    joined(
        alloc,
        &[
            "POST /Users HTTP/1.1\r\nContent-Length: ",
            length.as_str(),
            "\r\n\r\n",
            body.as_str(),
            "PATCH /Users/",
            id,
            " HTTP/1.1\r\nContent-Length: 116\r\n\r\n",
            "{\"schemas\":[\"urn:ietf:params:scim:api:messages:2.0:PatchOp\"],\"Operations\":[{\"op\":\"add\",\"path\":\"title\",\"value\":\"t\"}]}",
            "GET /Users/",
            id,
            " HTTP/1.1\r\n\r\nGET /Users?filter=userName%20eq%20%22",
            name.as_str(),
            "%22 HTTP/1.1\r\n\r\n",
        ],
    )
}

/// Returns the statuses of the replies, and the number of results of the last.
fn told_of_replies(alloc: Global, replies: &str) -> Result<String, CaseFault> {
    let mut text = String::new(alloc);
    for reply in replies.split("HTTP/1.1 ") {
        if let Some((status, _)) = reply.split_once(' ') {
            push_all(&mut text, &[status, ", "])?;
        }
    }
    let (_, rest) = replies
        .split_once("\"totalResults\":")
        .unwrap_or(("", "none"));
    let (total, _) = rest.split_once('}').unwrap_or((rest, ""));
    push_all(&mut text, &["totalResults ", total])?;
    Ok(text)
}
