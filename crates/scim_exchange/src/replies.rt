//! Prints replies (RFC 7644 sections 3.4.1 and 3.12).
ghost use Rattle.std.specs.Prelude.{◌≡◌, IfOk, string_bytes};
ghost use Rattle.scim_exchange.specs.Replies as spec;

use scim_audit::Refusal;
use scim_service::Reply;
use scim_text::NoMemory;
use scim_wire::{HttpReply, ReplyForm, print_reply};
use std::alloc::Global;

/// Returns the text of the reply for a refusal, printed in the given form. It has the header
/// `Connection: close` if the form or the refusal closes the connection.
#[tactic(auto, unfolding(crate::specs::Replies::refusal_text))]
pub(crate) fn refusal_text(
    alloc: Global,
    refusal: Refusal,
    form: ReplyForm,
) -> Result<String, NoMemory>
    ensures { IfOk result (λ t. string_bytes t ≡ spec.refusal_text refusal form) }
{
    let reply = HttpReply {
        status: refusal.status(),
        body: Some(refusal.body()),
        location: None,
        allow: refusal.allow(),
        asks_for_token: refusal.asks_for_token(),
    };
    let form = ReplyForm {
        closes: refusal.closes() || form.closes,
        omits_body: form.omits_body,
    };
    print_reply(alloc, &reply, form)
}

/// Returns the text of a reply of the service, printed in the given form.
pub(crate) fn reply_text(alloc: Global, reply: &Reply, form: ReplyForm) -> Result<String, NoMemory>
    ensures { IfOk result (λ t. string_bytes t ≡ spec.reply_text reply.now form) }
{
    match reply.refusal() {
        Some(refusal) => refusal_text(alloc, refusal, form),
        None => success_text(alloc, reply, form),
    }
}

/// Returns the text of a successful reply, printed in the given form.
#[tactic(auto, unfolding(crate::specs::Replies::success_text))]
fn success_text(alloc: Global, reply: &Reply, form: ReplyForm) -> Result<String, NoMemory>
    ensures { IfOk result (λ t. string_bytes t ≡ spec.success_text reply.now form) }
{
    let reply = HttpReply {
        status: reply.status(),
        body: reply.body(),
        location: reply.location(),
        allow: None,
        asks_for_token: false,
    };
    print_reply(alloc, &reply, form)
}

/// Returns the text of a reply with a discovery page, printed in the given form.
#[tactic(auto, unfolding(crate::specs::Replies::page_text))]
pub(crate) fn page_text(alloc: Global, page: &str, form: ReplyForm) -> Result<String, NoMemory>
    ensures { IfOk result (λ t. string_bytes t ≡ spec.page_text page.now form) }
{
    let reply = HttpReply {
        status: 200,
        body: Some(page),
        location: None,
        allow: None,
        asks_for_token: false,
    };
    print_reply(alloc, &reply, form)
}
