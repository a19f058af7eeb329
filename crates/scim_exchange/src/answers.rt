//! The answer to a message.
ghost use Rattle.std.specs.Prelude.{◌≡◌, IfOk, string_bytes};
ghost use Rattle.scim_exchange.specs.Replies as spec;

use crate::replies::{page_text, refusal_text, reply_text};
use scim_audit::Refusal;
use scim_cell::Text;
use scim_service::Reply;
use scim_text::NoMemory;
use scim_wire::ReplyForm;
use std::alloc::Global;

/// The answer to a message.
pub enum Answer {
    /// The message is refused before the service is called.
    Refused(Refusal),
    /// A discovery page, in JSON (RFC 7644 section 4).
    Page(Text),
    /// The reply of the service.
    Served(Reply),
}

impl Drop for Answer {
    fn drop(self) {
        match self {
            Answer::Refused(_) => (),
            Answer::Page(_text) => (),
            Answer::Served(_reply) => (),
        }
    }
}

impl Answer {
    /// Returns the text of the HTTP reply, printed in the given form (RFC 9112 section 4).
    ///
    /// The reply has the header `Connection: close` if the form closes the connection, or if the answer is a
    /// refusal that closes it.
    pub fn text(&self, alloc: Global, form: ReplyForm) -> Result<String, NoMemory>
        ensures { IfOk result (λ t. string_bytes t ≡ spec.answer_text self.now form) }
    {
        match self {
            Answer::Refused(refusal) => refusal_text(alloc, *refusal, form),
            Answer::Page(page) => page_text(alloc, page.as_str(), form),
            Answer::Served(reply) => reply_text(alloc, reply, form),
        }
    }
}
