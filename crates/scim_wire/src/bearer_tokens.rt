//! The bearer token of a request (RFC 6750 section 2.1).
ghost use Rattle.std.specs.Prelude.{◌≡◌, map, IfOk};
ghost use Rattle.std.specs.Option.{option_copied};
ghost use Rattle.scim_wire.specs.Headers.{header_parts, texts};
ghost use Rattle.scim_wire.specs.Tokens.{bearer, lone_bearer, token_of};

use crate::headers::{Header, same_name, values_named};
use crate::octets::Octets;
use scim_text::NoMemory;
use std::alloc::Global;

/// Returns the part of a header's value after the scheme `Bearer`, in any case, and one space; `None` if the
/// value doesn't begin with this scheme and a space.
fn bearer(value: &[u8]) -> Option<&[u8]>
    ensures { option_copied result ≡ bearer value.now }
{
    if value.len() < 7 {
        return None;
    }
    let (scheme, token) = value.split_at(7);
    if same_name(scheme, b"bearer ") {
        Some(token)
    } else {
        None
    }
}

/// Returns the bearer token if there is exactly one value and its scheme is `Bearer`; `None` otherwise.
fn lone_bearer<'b>(values: &[&'b [u8]]) -> Option<&'b [u8]>
    ensures { option_copied result ≡ lone_bearer (texts values.now) }
{
    match values {
        [value] => bearer(value),
        _ => None,
    }
}

/// Returns the bearer token in the header `Authorization`.
///
/// `None` if there isn't exactly one such header, or if its scheme isn't `Bearer`.
pub fn token_of(alloc: Global, headers: &[Header<'_>]) -> Result<Option<Octets>, NoMemory>
    ensures { IfOk result (λ token. token ≡ token_of (map header_parts headers.now)) }
{
    let values = values_named(alloc, headers, b"authorization")?;
    match lone_bearer(values.as_slice()) {
        Some(token) => Ok(Some(Octets::copied(alloc, token)?)),
        None => Ok(None),
    }
}
