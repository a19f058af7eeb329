//! Requests to a store as constants, and functions that answer them.
use scim_body::{UseFor, read_body};
use scim_cell::{Id, Text};
use scim_patch_message::read_patch;
use scim_schema::{Kind, Op};
use scim_service::{Ask, Reply, Request, Service, Turn};
use scim_shelf::Shelf;
use scim_text::Moment;
use scim_view::Wanted;
use std::alloc::Global;

/// What a request does.
#[derive(Clone, Copy)]
pub(crate) enum Action {
    Create,
    Patch,
    Replace,
    Remove,
}

/// A request: what it does, the kind and the id of its resource, and its body, which is empty if the request
/// has no body.
#[derive(Clone, Copy)]
pub(crate) struct RequestParts {
    pub(crate) action: Action,
    pub(crate) kind: Kind,
    pub(crate) id: &'static str,
    pub(crate) body: &'static str,
}

impl Action {
    fn op(self) -> Op {
        match self {
            Action::Create => Op::Create,
            Action::Patch | Action::Replace => Op::Modify,
            Action::Remove => Op::Delete,
        }
    }
}

fn ask_of(alloc: Global, parts: RequestParts) -> Option<Ask> {
    match parts.action {
        Action::Create => match read_body(alloc, parts.kind, UseFor::Creating, parts.body) {
            Ok(draft) => Some(Ask::Create(draft, Wanted::Default)),
            Err(_) => None,
        },
        Action::Replace => match read_body(alloc, parts.kind, UseFor::Replacing, parts.body) {
            Ok(draft) => Some(Ask::Replace(draft, Wanted::Default)),
            Err(_) => None,
        },
        Action::Patch => match read_patch(alloc, parts.kind, parts.body) {
            Ok(patch) => Some(Ask::Patch(patch, Wanted::Default)),
            Err(_) => None,
        },
        Action::Remove => Some(Ask::Remove),
    }
}

fn turn_of(alloc: Global, parts: RequestParts) -> Option<Turn> {
    let (Some(moment), Some(id)) = (Moment::new(1_717_243_200), Id::read(parts.id)) else {
        return None;
    };
    let Ok(client) = Text::copy_of(alloc, "hr") else {
        return None;
    };
    match ask_of(alloc, parts) {
        Some(ask) => Some(Turn {
            request: Request {
                client,
                op: parts.action.op(),
                kind: parts.kind,
                id: Some(id),
                ask: Ok(ask),
            },
            moment,
            fresh: id,
        }),
        None => None,
    }
}

/// Whether the service answers a request with another status than 500.
fn is_answered<H: Shelf>(alloc: Global, service: &mut Service<H>, parts: RequestParts) -> bool {
    match turn_of(alloc, parts) {
        Some(turn) => !matches!(service.answer(alloc, &turn), Reply::Failed(..)),
        None => false,
    }
}

/// Answers the requests one after another, up to the first reply with status 500. Returns whether there is no
/// such reply.
pub(crate) fn are_answered<H: Shelf>(
    alloc: Global,
    service: &mut Service<H>,
    requests: &[RequestParts],
) -> bool {
    for parts in requests {
        if !is_answered(alloc, service, *parts) {
            return false;
        }
    }
    true
}
