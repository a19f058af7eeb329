//! The texts of replies.
ghost use Rattle.std.specs.Prelude.{◌≡◌, IfOk, string_bytes};
ghost use Rattle.scim_audit.specs.declared.refusals.Refusal.{Refusal};
ghost use Rattle.scim_shelf.specs.Stores.{Store, IsStore};
ghost use Rattle.scim_exchange.specs.Replies as replies;
ghost use Rattle.scim_command.specs.Once.{IsReplyTo};
ghost use Rattle.scim_service.specs.Setting.{service_base, service_policy, service_shelf};

use scim_audit::Refusal;
use scim_exchange::{Answer, Arrival, answer};
use scim_route::Routes;
use scim_service::Service;
use scim_shelf::{MemoryShelf, Shelf};
use scim_text::NoMemory;
use scim_wire::{Message, ReplyForm};
use std::alloc::Global;

/// Returns the text of the service's reply to a message.
pub(crate) fn reply_text(
    alloc: Global,
    routes: &Routes,
    service: &mut Service<MemoryShelf>,
    arrival: &Arrival<'_>,
    message: &Message,
) -> Result<String, NoMemory>
    ensures { (store : Store) → ⟦<MemoryShelf as Shelf>⟧.stands (service_shelf service.old) store
        → IsStore (service_base service.old) store
        → IfOk result (λ t.
        IsReplyTo (service_policy service.old)
        (service_base service.old) arrival.now store message.now
        (string_bytes t)) }
{
    let answer = answer(alloc, routes, service, arrival, message);
    answer.text(alloc, ReplyForm::of(message))
}

/// Returns the text of the reply for a refusal, printed in the given form. It has the header
/// `Connection: close` if the form or the refusal closes the connection.
pub(crate) fn refusal_text(
    alloc: Global,
    refusal: Refusal,
    form: ReplyForm,
) -> Result<String, NoMemory>
    ensures { IfOk result (λ t. string_bytes t ≡ replies.refusal_text refusal form) }
{
    Answer::Refused(refusal).text(alloc, form)
}
