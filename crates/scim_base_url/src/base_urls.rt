//! Tells whether a text is a base URL.
ghost use Rattle.std.specs.Prelude.{◌≡◌, ◌↔◌, true, IfOk};
ghost use Rattle.scim_base_url.specs.BaseUrl as spec;

use http_uri::{Uri, UriError};
use scim_text::NoMemory;
use std::alloc::Global;

/// Whether the text is a base URL: an absolute URL of HTTP (RFC 9110 section 4.2) with a host, without a query, a
/// fragment or a slash at its end. Its scheme is in lower case and its characters are ASCII (RFC 3986 section 2).
pub fn is_base_url(alloc: Global, text: &str) -> Result<bool, NoMemory>
    ensures { IfOk result (λ found. found ≡ true ↔ spec.IsBaseUrl text.now) }
{
    match Uri::from_str(alloc, text) {
        Ok(url) => Ok(is_base(&url) && is_location_prefix(text)),
        Err(UriError::OutOfMemory) => Err(NoMemory),
        Err(UriError::Invalid(_)) => Ok(false),
    }
}

/// Whether the URL has the scheme `http` or `https` and a host, and no query.
fn is_base(url: &Uri) -> bool
    ensures { result ≡ spec.is_base url.now }
{
    is_of_http(url) && has_host(url) && url.query().is_none()
}

/// Whether the URL's scheme is `http` or `https`.
fn is_of_http(url: &Uri) -> bool
    ensures { result ≡ spec.is_of_http url.now }
{
    match url.scheme_str() {
        Some(scheme) => scheme == "http" || scheme == "https",
        None => false,
    }
}

/// Whether the URL has a host that isn't empty.
fn has_host(url: &Uri) -> bool
    ensures { result ≡ spec.has_host url.now }
{
    match url.host() {
        Some(host) => !host.is_empty(),
        None => false,
    }
}

/// Whether the text is ASCII, has no `#` and doesn't end in a slash, so that a path may be appended to it.
fn is_location_prefix(text: &str) -> bool
    ensures { result ≡ spec.is_location_prefix text.now }
{
    has_only_location_bytes(text) && !text.ends_with('/')
}

/// Whether all bytes are ASCII and none is `#`.
fn has_only_location_bytes(text: &str) -> bool
    ensures { result ≡ spec.has_only_location_bytes text.now }
{
    text.as_bytes()
        .iter()
        .all(|byte| byte.is_ascii() && *byte != b'#')
}
