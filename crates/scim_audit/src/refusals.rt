//! Refusals: the errors that the server replies with (RFC 7644 section 3.12).
ghost use Rattle.std.specs.Prelude.{◌≡◌};
ghost use Rattle.std.specs.Option.{option_copied};
ghost use Rattle.scim_audit.specs.Refusals as spec;

use crate::allowed_methods::Methods;

/// The reason why a request is refused. The server checks for the reasons in this order.
#[derive(Clone, Copy, Debug, PartialEq, Eq)]
pub enum Refusal {
    /// The input isn't the head of an HTTP request (RFC 9112 sections 2 and 3), or the head is too
    /// long.
    BadHead,
    /// The body is longer than this server accepts (RFC 9110 section 15.5.14).
    TooLarge,
    /// The length of the body can't be determined (RFC 9112 section 6).
    BadFraming,
    /// The body has an unknown transfer coding (RFC 9112 section 6.1).
    UnknownCoding,
    /// There is no such endpoint.
    NoRoute,
    /// The request is for a SCIM endpoint that this server doesn't support, such as `/Bulk` or `/Me` (RFC
    /// 7644 sections 3.7 and 3.11).
    NotSupported,
    /// The endpoint allows only these methods, which the header `Allow` lists (RFC 9110 section
    /// 15.5.6).
    BadMethod(Methods),
    /// The request has no token, or a token that belongs to no client (RFC 6750 section 3).
    NoToken,
    /// The body doesn't have the required form.
    Syntax,
    /// The filter isn't valid, or compares values that can't be compared.
    Filter,
    /// A path of a PATCH operation isn't valid, or names no attribute.
    Path,
    /// A value in the message isn't valid for its attribute.
    MessageValue,
    /// The resource doesn't exist, or the client may not see it. The reply is the same in both cases.
    NotFound,
    /// The policy denies the request.
    Denied,
    /// The attribute can't be changed (RFC 7643 section 7).
    Mutability,
    /// The filter in a path of a PATCH operation matches no value.
    NoTarget,
    /// The result isn't a valid resource, for example because a required value is missing.
    ResultValue,
    /// Another resource has a value that must be unique (RFC 7643 section 7).
    Taken,
    /// The change would give the client more rights on the resource than before.
    Widens,
    /// The id that the server generated for the new resource is already in use.
    IdInUse,
    /// An allocation or the store failed.
    Store,
}

/// The JSON of an error message, with its keys in byte order.
macro_rules! error_message {
    ($status:literal, $detail:literal) => {
        concat!(
            "{\"detail\":\"",
            $detail,
            "\",\"schemas\":[\"urn:ietf:params:scim:api:messages:2.0:Error\"],\"status\":\"",
            $status,
            "\"}"
        )
    };
    ($status:literal, $scim_type:literal, $detail:literal) => {
        concat!(
            "{\"detail\":\"",
            $detail,
            "\",\"schemas\":[\"urn:ietf:params:scim:api:messages:2.0:Error\"],\"scimType\":\"",
            $scim_type,
            "\",\"status\":\"",
            $status,
            "\"}"
        )
    };
}

impl Refusal {
    /// Returns one refusal for each number, in order. [`Refusal::BadMethod`] is listed with the methods of a
    /// collection.
    #[tactic(auto, unfolding(crate::specs::Refusals::refusals))]
    pub fn all() -> &'static [Refusal]
        ensures { result.now ≡ spec.refusals }
    {
        &[
            Refusal::BadHead,
            Refusal::TooLarge,
            Refusal::BadFraming,
            Refusal::UnknownCoding,
            Refusal::NoRoute,
            Refusal::NotSupported,
            Refusal::BadMethod(Methods::Collection),
            Refusal::NoToken,
            Refusal::Syntax,
            Refusal::Filter,
            Refusal::Path,
            Refusal::MessageValue,
            Refusal::NotFound,
            Refusal::Denied,
            Refusal::Mutability,
            Refusal::NoTarget,
            Refusal::ResultValue,
            Refusal::Taken,
            Refusal::Widens,
            Refusal::IdInUse,
            Refusal::Store,
        ]
    }

    /// The number of this refusal in the audit, from 1.
    pub fn number(self) -> u8
        ensures { result ≡ spec.number_of self }
    {
        match self {
            Refusal::BadHead => 1,
            Refusal::TooLarge => 2,
            Refusal::BadFraming => 3,
            Refusal::UnknownCoding => 4,
            Refusal::NoRoute => 5,
            Refusal::NotSupported => 6,
            Refusal::BadMethod(_) => 7,
            Refusal::NoToken => 8,
            Refusal::Syntax => 9,
            Refusal::Filter => 10,
            Refusal::Path => 11,
            Refusal::MessageValue => 12,
            Refusal::NotFound => 13,
            Refusal::Denied => 14,
            Refusal::Mutability => 15,
            Refusal::NoTarget => 16,
            Refusal::ResultValue => 17,
            Refusal::Taken => 18,
            Refusal::Widens => 19,
            Refusal::IdInUse => 20,
            Refusal::Store => 21,
        }
    }

    /// Returns the status code of the reply (RFC 9110 section 15, RFC 7644 table 8).
    pub fn status(self) -> u16
        ensures { result ≡ spec.status_of self }
    {
        match self {
            Refusal::BadHead
            | Refusal::BadFraming
            | Refusal::Syntax
            | Refusal::Filter
            | Refusal::Path
            | Refusal::MessageValue
            | Refusal::Mutability
            | Refusal::NoTarget
            | Refusal::ResultValue => 400,
            Refusal::TooLarge => 413,
            Refusal::UnknownCoding | Refusal::NotSupported => 501,
            Refusal::NoRoute | Refusal::NotFound => 404,
            Refusal::BadMethod(_) => 405,
            Refusal::NoToken => 401,
            Refusal::Denied | Refusal::Widens => 403,
            Refusal::Taken => 409,
            Refusal::IdInUse => 503,
            Refusal::Store => 500,
        }
    }

    /// The detail error keyword (`scimType`), or `None` if RFC 7644 table 9 defines none for this error.
    pub fn scim_type(self) -> Option<&'static str>
        ensures { option_copied result ≡ spec.scim_type_of self }
    {
        match self {
            Refusal::Syntax => Some("invalidSyntax"),
            Refusal::Filter => Some("invalidFilter"),
            Refusal::Path => Some("invalidPath"),
            Refusal::MessageValue | Refusal::ResultValue => Some("invalidValue"),
            Refusal::Mutability => Some("mutability"),
            Refusal::NoTarget => Some("noTarget"),
            Refusal::Taken => Some("uniqueness"),
            _ => None,
        }
    }

    /// The body of the reply: the JSON of an error message (RFC 7644 section 3.12).
    pub fn body(self) -> &'static str
        ensures { result.now ≡ spec.body_of self }
    {
        match self {
            Refusal::BadHead => error_message!(400, "Malformed request head."),
            Refusal::TooLarge => error_message!(413, "Request body too large."),
            Refusal::BadFraming => error_message!(400, "Malformed message framing."),
            Refusal::UnknownCoding => error_message!(501, "Unknown transfer coding."),
            Refusal::NoRoute => error_message!(404, "No such endpoint."),
            Refusal::NotSupported => error_message!(501, "Not supported."),
            Refusal::BadMethod(_) => error_message!(405, "Method not allowed."),
            Refusal::NoToken => error_message!(401, "A valid bearer token is required."),
            Refusal::Syntax => error_message!(400, "invalidSyntax", "Malformed request body."),
            Refusal::Filter => error_message!(400, "invalidFilter", "The filter is not valid."),
            Refusal::Path => error_message!(400, "invalidPath", "The path is not valid."),
            Refusal::MessageValue => error_message!(
                400,
                "invalidValue",
                "A value in the request is not valid."
            ),
            Refusal::NotFound => error_message!(404, "Resource not found."),
            Refusal::Denied => error_message!(403, "Denied by policy."),
            Refusal::Mutability => error_message!(
                400,
                "mutability",
                "The attribute cannot be changed."
            ),
            Refusal::NoTarget => error_message!(400, "noTarget", "The path matched nothing."),
            Refusal::ResultValue => error_message!(400, "invalidValue", "The result is not valid."),
            Refusal::Taken => error_message!(409, "uniqueness", "A unique value is taken."),
            Refusal::Widens => error_message!(403, "The change would widen access."),
            Refusal::IdInUse => error_message!(503, "The identifier is in use."),
            Refusal::Store => error_message!(500, "The server could not complete the request."),
        }
    }

    /// Whether the server closes the connection after the reply, because it doesn't read the rest of the
    /// request.
    pub fn closes(self) -> bool
        ensures { result ≡ spec.closes self }
    {
        matches!(
            self,
            Refusal::BadHead | Refusal::TooLarge | Refusal::BadFraming | Refusal::UnknownCoding
        )
    }

    /// Whether the reply asks for a token in the header `WWW-Authenticate` (RFC 9110 section
    /// 15.5.2).
    pub fn asks_for_token(self) -> bool
        ensures { result ≡ spec.asks_for_token self }
    {
        self == Refusal::NoToken
    }

    /// The text of the header `Allow` in the reply, or `None` if the reply has no such header (RFC 9110
    /// section 10.2.1).
    pub fn allow(self) -> Option<&'static str>
        ensures { option_copied result ≡ spec.allow_of self }
    {
        match self {
            Refusal::BadMethod(methods) => Some(methods.allow()),
            _ => None,
        }
    }
}
