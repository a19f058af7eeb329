//! The requests that clients send to the service.
ghost use Rattle.std.specs.Prelude.{◌≡◌, ◌↔◌, IsTrue, Err};
ghost use Rattle.scim_audit.specs.declared.refusals.Refusal.{Refusal};
ghost use Rattle.scim_service.specs.Requests.{IsAsk, IsTurn};
ghost use Rattle.scim_service.specs.Step as spec;

use scim_audit::Refusal;
use scim_body::Draft;
use scim_cell::{Id, Text, uuid_of};
use scim_patch_steps::Patch;
use scim_query::Query;
use scim_schema::{Kind, Op};
use scim_text::Moment;
use scim_view::Wanted;

/// What a request asks the service to do.
pub enum Ask {
    /// GET: shows the resource that the request names, projected to the wanted attributes (RFC 7644 section
    /// 3.4.1).
    Get(Wanted),
    /// Search: shows the resources that the query finds (RFC 7644 section 3.4.2).
    Search(Query),
    /// Create: makes a resource from a draft (RFC 7644 section 3.3), and shows the wanted attributes of the
    /// resource. The draft must be of the request's kind, and must have been read to create a resource; any
    /// other draft is refused with [`Refusal::MessageValue`].
    Create(Draft, Wanted),
    /// PUT: writes the draft's values to the resource that the request names, for all attributes that the
    /// client may write (RFC 7644 section 3.5.1), and shows the wanted attributes of the resource. The draft
    /// must be of the request's kind; any other draft is refused with [`Refusal::MessageValue`].
    Replace(Draft, Wanted),
    /// PATCH: applies the steps of a patch to the resource that the request names (RFC 7644 section 3.5.2),
    /// and shows the wanted attributes of the resource. The patch must be of the request's kind; any other
    /// patch is refused with [`Refusal::MessageValue`].
    Patch(Patch, Wanted),
    /// DELETE: removes the resource that the request names (RFC 7644 section 3.6).
    Remove,
}

impl Drop for Ask {
    fn drop(self) {
        match self {
            Ask::Get(_wanted) => (),
            Ask::Search(_query) => (),
            Ask::Create(_draft, _wanted) => (),
            Ask::Replace(_draft, _wanted) => (),
            Ask::Patch(_patch, _wanted) => (),
            Ask::Remove => (),
        }
    }
}

/// A request of a client.
pub struct Request {
    /// The name of the client.
    pub client: Text,
    /// The operation on which the policy decides.
    pub op: Op,
    /// The kind of the resources.
    pub kind: Kind,
    /// The id of the resource that the request names; `None` if the request names no resource, or if the text
    /// that names it isn't a valid id. With `None`, no resource is found.
    pub id: Option<Id>,
    /// What to do, or the refusal of a request that can't be read.
    pub ask: Result<Ask, Refusal>,
}

impl Drop for Request {
    fn drop(self) {
        let Request {
            client: _client,
            op: _op,
            kind: _kind,
            id: _id,
            ask: _ask,
        } = self;
    }
}

/// A request, the moment of the request, and an id for a resource that the request may create.
#[derive(Drop)]
pub struct Turn {
    pub request: Request,
    /// The moment of the request.
    pub moment: Moment,
    /// The id of the resource that the request creates, if it creates one.
    pub fresh: Id,
}

/// Whether memory ran out before the request could be read.
pub(crate) fn is_unread(request: &Request) -> bool
    ensures { IsTrue result ↔ (request.now.ask ≡ Err Refusal.Store) }
{
    matches!(request.ask, Err(Refusal::Store))
}

/// Whether a request is for the one resource that its id names, and not a create or a search. A request that
/// can't be read is for one resource unless its operation is `Create`.
fn is_for_one(request: &Request) -> bool
    ensures { result ≡ spec.is_for_one request.now.op request.now.ask }
{
    match &request.ask {
        Ok(Ask::Search(_) | Ask::Create(_, _)) => false,
        Ok(_) => true,
        Err(_) => request.op != Op::Create,
    }
}

/// Returns the id of the request, if `is_for_one` says that the request is for one resource; otherwise
/// `None`, even if the request has an id.
#[tactic(auto, unfolding(crate::specs::Step::named_id))]
pub(crate) fn named_id(turn: &Turn) -> Option<Id>
    ensures { result ≡ spec.named_id turn.now }
{
    if is_for_one(&turn.request) {
        turn.request.id
    } else {
        None
    }
}

/// Proves that the draft or the patch of a request is valid. Has no effect.
fn ask_is_sound(ask: &Result<Ask, Refusal>)
    ensures { IsAsk ask.now }
{
    match ask {
        Ok(Ask::Create(draft, _)) => {
            let _ = draft.rows();
        }
        Ok(Ask::Replace(draft, _)) => {
            let _ = draft.rows();
        }
        Ok(Ask::Patch(patch, _)) => {
            let _ = patch.steps();
        }
        _ => {}
    }
}

/// Proves that a turn is valid: its draft or patch is one that the body readers return, `fresh` is a valid
/// id, and its moment can be written as a timestamp. Has no effect.
pub fn turn_is_sound(turn: &Turn)
    ensures { IsTurn turn.now }
{
    ask_is_sound(&turn.request.ask);
    let _ = uuid_of(turn.fresh);
    let _ = turn.moment.seconds();
}
