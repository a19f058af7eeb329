//! The calls of `scim_service`, over a shelf in memory.
use crate::databases::{base_of, shelf_of};
use crate::exchanges::FRESH;
use case_filters::{body_kind, use_for};
use case_policies::{policy, query_of, wanted};
use case_values::{Case, CaseFault, named, push_all, push_rows_after, shown};
use scim_audit::{AuditRow, Refusal};
use scim_body::{BodyFault, Draft, read_body};
use scim_cell::{Id, Text};
use scim_service::{Ask, Reply, Request, Service, Turn};
use scim_shelf::MemoryShelf;
use scim_text::{Failed, Moment, push};
use std::alloc::Global;

/// The time of all turns, 2024-06-01T12:00:00Z.
const NOON: i64 = 1_717_243_200;

/// Answers the turns in the list `turns` one by one. Returns the replies, followed by the lines of the audit.
pub fn service_call(case: &Case<'_>) -> Result<String, CaseFault> {
    let mut service = service_of(case)?;
    told_of_turns(case, &mut service)
}

/// Answers the turns in the list `turns` by one call of `Service::run`. Returns the replies, followed by the
/// lines of the audit.
pub fn run_call(case: &Case<'_>) -> Result<String, CaseFault> {
    let mut service = service_of(case)?;
    told_of_run(case, &mut service)
}

/// Returns a service with the policy of the case over a shelf in memory. The shelf has the resources of the
/// users file in the argument `users`.
fn service_of(case: &Case<'_>) -> Result<Service<MemoryShelf>, CaseFault> {
    let base = Text::copy_of(case.alloc, base_of(case))?;
    let policy = policy(case)?;
    let shelf = shelf_of(case, "users")?;
    Ok(Service::new(policy, shelf, base))
}

fn told_of_turns(case: &Case<'_>, service: &mut Service<MemoryShelf>) -> Result<String, CaseFault> {
    let mut text = String::new(case.alloc);
    for value in case.list("turns") {
        let turn = case.inner(value);
        push_answer(&turn, service, &mut text)?;
    }
    push_rows_after(case.alloc, 0, service.shelf().audit(), &mut text)?;
    Ok(text)
}

fn told_of_run(case: &Case<'_>, service: &mut Service<MemoryShelf>) -> Result<String, CaseFault> {
    let turns = turns_of(case)?;
    replies_to(case.alloc, turns.as_slice(), service)
}

fn replies_to(
    alloc: Global,
    turns: &[Turn],
    service: &mut Service<MemoryShelf>,
) -> Result<String, CaseFault> {
    let replies = service.run(alloc, turns)?;
    told_of_replies(alloc, replies.as_slice(), service.shelf().audit())
}

fn turns_of(case: &Case<'_>) -> Result<Vec<Turn>, CaseFault> {
    let mut turns = Vec::new(case.alloc);
    for value in case.list("turns") {
        let turn = case.inner(value);
        push(&mut turns, turn_of(&turn)?)?;
    }
    Ok(turns)
}

fn told_of_replies(
    alloc: Global,
    replies: &[Reply],
    rows: &[AuditRow],
) -> Result<String, CaseFault> {
    let mut text = String::new(alloc);
    for reply in replies {
        push_reply(alloc, reply, &mut text)?;
    }
    push_rows_after(alloc, 0, rows, &mut text)?;
    Ok(text)
}

/// Answers a turn. Appends the status of the reply, its location if it has one, and its body.
fn push_answer(
    case: &Case<'_>,
    service: &mut Service<MemoryShelf>,
    text: &mut String,
) -> Result<(), CaseFault> {
    let turn = turn_of(case)?;
    push_reply_to(case.alloc, &turn, service, text)
}

fn push_reply_to(
    alloc: Global,
    turn: &Turn,
    service: &mut Service<MemoryShelf>,
    text: &mut String,
) -> Result<(), CaseFault> {
    let reply = service.answer(alloc, turn);
    push_reply(alloc, &reply, text)
}

fn push_reply(alloc: Global, reply: &Reply, text: &mut String) -> Result<(), CaseFault> {
    let status = shown(alloc, &reply.status())?;
    text.push_str(status.as_str())?;
    if let Some(location) = reply.location() {
        push_all(text, &[" at ", location])?;
    }
    push_all(text, &[" ", reply.body().unwrap_or("no body"), ", "])
}

fn turn_of(case: &Case<'_>) -> Result<Turn, CaseFault> {
    let Some(moment) = Moment::new(NOON) else {
        return Err(CaseFault::Missing("moment"));
    };
    let Some(fresh) = Id::read(case.text_or("fresh", FRESH)) else {
        return Err(CaseFault::Missing("fresh"));
    };
    Ok(Turn {
        request: request_of(case)?,
        moment,
        fresh,
    })
}

fn request_of(case: &Case<'_>) -> Result<Request, CaseFault> {
    Ok(Request {
        client: Text::copy_of(case.alloc, case.text_or("client", "hr"))?,
        op: case.op(),
        kind: case.kind(),
        id: Id::read(case.text_or("id", "")),
        ask: ask_of(case)?,
    })
}

/// The value of the argument `ask`.
#[derive(Clone, Copy)]
enum AskNamed {
    Get,
    Search,
    Create,
    Remove,
    /// The request is refused before the service receives it.
    Refused(Refusal),
}

static ASKS: [(&str, AskNamed); 9] = [
    ("get", AskNamed::Get),
    ("search", AskNamed::Search),
    ("create", AskNamed::Create),
    ("remove", AskNamed::Remove),
    ("Syntax", AskNamed::Refused(Refusal::Syntax)),
    ("Filter", AskNamed::Refused(Refusal::Filter)),
    ("Path", AskNamed::Refused(Refusal::Path)),
    ("MessageValue", AskNamed::Refused(Refusal::MessageValue)),
    ("Store", AskNamed::Refused(Refusal::Store)),
];

/// Returns what the request asks for, as the argument `ask` says: `get`, `search`, `create`, `remove`, or the
/// name of a refusal.
fn ask_of(case: &Case<'_>) -> Result<Result<Ask, Refusal>, CaseFault> {
    let Some(ask) = named(&ASKS, case.text("ask")?) else {
        return Err(CaseFault::Missing("ask"));
    };
    match ask {
        AskNamed::Get => Ok(Ok(Ask::Get(wanted(case)?))),
        AskNamed::Search => Ok(Ok(Ask::Search(query_of(case)?))),
        AskNamed::Create => create_of(case),
        AskNamed::Remove => Ok(Ok(Ask::Remove)),
        AskNamed::Refused(refusal) => Ok(Err(refusal)),
    }
}

/// Returns the request to create a resource from the argument `body`, or the refusal if the body is invalid.
fn create_of(case: &Case<'_>) -> Result<Result<Ask, Refusal>, CaseFault> {
    match read_body(
        case.alloc,
        body_kind(case),
        use_for(case),
        case.text("body")?,
    ) {
        Ok(draft) => creating(case, draft),
        Err(Failed::Because(BodyFault::Syntax)) => Ok(Err(Refusal::Syntax)),
        Err(Failed::Because(BodyFault::Value)) => Ok(Err(Refusal::MessageValue)),
        Err(Failed::NoMemory) => Err(CaseFault::NoMemory),
    }
}

/// Returns the request to create a resource from a draft.
fn creating(case: &Case<'_>, draft: Draft) -> Result<Result<Ask, Refusal>, CaseFault> {
    let wanted = wanted(case)?;
    Ok(Ok(Ask::Create(draft, wanted)))
}
