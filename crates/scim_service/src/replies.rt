//! The replies to requests.
ghost use Rattle.std.specs.Prelude.{◌≡◌};
ghost use Rattle.std.specs.Option.{option_copied};
ghost use Rattle.scim_service.specs.Replies as spec;

use scim_audit::Refusal;
use scim_cell::Text;
use scim_shelf::ShelfFault;
use scim_text::Failed;

/// The reply to a request.
pub enum Reply {
    /// 200, with the JSON of a resource or of a list.
    Shown(Text),
    /// 201: a resource was created. Has the location of the resource and its JSON, or `None` in place of the
    /// JSON if the client doesn't see the resource.
    Created(Text, Option<Text>),
    /// 204: the request was carried out, and there is nothing to show.
    Done,
    /// A refusal.
    Refused(Refusal),
    /// 500: because of this fault, nothing was done. The reply's body doesn't name the fault.
    Failed(Failed<ShelfFault>),
}

impl Drop for Reply {
    fn drop(self) {
        match self {
            Reply::Shown(_text) => (),
            Reply::Created(_location, _text) => (),
            Reply::Done | Reply::Refused(_) | Reply::Failed(_) => (),
        }
    }
}

impl Reply {
    /// Returns the status code (RFC 9110 section 15).
    pub fn status(&self) -> u16
        ensures { result ≡ spec.status_of self.now }
    {
        match self {
            Reply::Shown(_) => 200,
            Reply::Created(_, _) => 201,
            Reply::Done => 204,
            Reply::Refused(refusal) => refusal.status(),
            Reply::Failed(_) => Refusal::Store.status(),
        }
    }

    /// Returns the refusal that the reply reports, if any. A failure is reported as [`Refusal::Store`].
    pub fn refusal(&self) -> Option<Refusal>
        ensures { result ≡ spec.refusal_of self.now }
    {
        match self {
            Reply::Refused(refusal) => Some(*refusal),
            Reply::Failed(_) => Some(Refusal::Store),
            _ => None,
        }
    }

    /// Returns the body, if any: a JSON text.
    pub fn body(&self) -> Option<&str>
        ensures { option_copied result ≡ spec.body_of self.now }
    {
        match self {
            Reply::Shown(text) => Some(text.as_str()),
            Reply::Created(_, text) => text.as_ref().map(|text| text.as_str()),
            Reply::Done => None,
            Reply::Refused(refusal) => Some(refusal.body()),
            Reply::Failed(_) => Some(Refusal::Store.body()),
        }
    }

    /// Returns the location of the resource that was created, if any (RFC 7644 section 3.1).
    pub fn location(&self) -> Option<&str>
        ensures { option_copied result ≡ spec.location_of self.now }
    {
        match self {
            Reply::Created(location, _) => Some(location.as_str()),
            _ => None,
        }
    }
}
