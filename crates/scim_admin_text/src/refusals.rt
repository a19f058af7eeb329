//! Why a request of the administrator isn't carried out.
ghost use Rattle.std.specs.Prelude.{◌≡◌};
ghost use Rattle.scim_admin_text.specs.ParameterNames as spec;

use crate::endpoints::Endpoint;
use scim_text::Failed;

/// A parameter of a request.
#[derive(Clone, Copy, Debug, PartialEq, Eq)]
pub enum Parameter {
    From,
    Count,
    Last,
    Client,
    Since,
    Refusal,
    Format,
    Op,
    Kind,
    Id,
    Path,
}

impl Parameter {
    /// Returns the name of the parameter.
    pub fn name(self) -> &'static str
        ensures { result.now ≡ spec.name_of self }
    {
        match self {
            Parameter::From => "from",
            Parameter::Count => "count",
            Parameter::Last => "last",
            Parameter::Client => "client",
            Parameter::Since => "since",
            Parameter::Refusal => "refusal",
            Parameter::Format => "format",
            Parameter::Op => "op",
            Parameter::Kind => "kind",
            Parameter::Id => "id",
            Parameter::Path => "path",
        }
    }
}

/// The reason why a request of the administrator isn't carried out. The reasons are checked in this order.
#[derive(Clone, Copy, Debug, PartialEq, Eq)]
pub enum AdminRefusal {
    /// The request has no token of an administrator.
    NoToken,
    /// There is no such endpoint.
    NoEndpoint,
    /// The endpoint allows only one method.
    BadMethod(Endpoint),
    /// A parameter isn't one of the endpoint's.
    UnknownParameter,
    /// The parameter isn't valid, or it is missing and has no default.
    BadValue(Parameter),
}

impl From<AdminRefusal> for Failed<AdminRefusal> {
    ghost use Rattle.std.specs.Prelude.{◌≡◌};
    ghost use Rattle.scim_text.specs.declared.memory.Failed.{Failed};

    ghost from_gives = { λ refusal f. f ≡ Failed.Because refusal };

    fn from(refusal: AdminRefusal) -> Failed<AdminRefusal> {
        Failed::Because(refusal)
    }
}
