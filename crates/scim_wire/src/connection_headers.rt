//! The headers `Connection` and `Expect` of a request.
ghost use Rattle.std.specs.Prelude.{◌≡◌, reverse, map};
ghost use Rattle.httparse.specs.Grammar.{skip_ows, trim_ows};
ghost use Rattle.scim_wire.specs.Headers.{header_parts};
ghost use Rattle.scim_wire.specs.Options.{lists, says, has, says_close, expects_continue};

use crate::headers::{Header, same_name};
use httparse::is_space_or_tab;

/// Removes spaces and tabs at the start.
fn trim_start(mut s: &[u8]) -> &[u8]
    ensures { result.now ≡ skip_ows s.now }
{
    while let [first, rest @ ..] = s
        && is_space_or_tab(*first)
    {
        s = rest;
    }
    s
}

/// Removes spaces and tabs at the end.
fn trim_end(mut s: &[u8]) -> &[u8]
    ensures { result.now ≡ reverse (skip_ows (reverse s.now)) }
{
    while let [rest @ .., last] = s
        && is_space_or_tab(*last)
    {
        s = rest;
    }
    s
}

/// Removes spaces and tabs at both ends.
#[tactic(auto, unfolding(httparse::specs::Grammar::trim_ows))]
fn trim_ows(s: &[u8]) -> &[u8]
    ensures { result.now ≡ trim_ows s.now }
{
    trim_end(trim_start(s))
}

/// Whether the comma-separated list contains the option, ignoring ASCII case.
fn lists(value: &[u8], option: &[u8]) -> bool
    ensures { result ≡ lists option.now value.now }
{
    value
        .split(|b| *b == b',')
        .any(|part| same_name(trim_ows(part), option))
}

/// Whether a header with this name lists the option, ignoring ASCII case.
fn says(headers: &[Header<'_>], name: &[u8], option: &[u8]) -> bool
    ensures { result ≡ says name.now option.now (map header_parts headers.now) }
{
    for header in headers {
        if same_name(header.name, name) && lists(header.value, option) {
            return true;
        }
    }
    false
}

/// Whether a header with this name has this value, ignoring ASCII case.
fn has(headers: &[Header<'_>], name: &[u8], value: &[u8]) -> bool
    ensures { result ≡ has name.now value.now (map header_parts headers.now) }
{
    for header in headers {
        if same_name(header.name, name) && same_name(header.value, value) {
            return true;
        }
    }
    false
}

/// Whether a header `Connection` lists the option `close` (RFC 9112 section 9.6).
pub fn says_close(headers: &[Header<'_>]) -> bool
    ensures { result ≡ says_close (map header_parts headers.now) }
{
    says(headers, b"connection", b"close")
}

/// Whether a header `Expect` is `100-continue` (RFC 9110 section 10.1.1).
pub fn expects_continue(headers: &[Header<'_>]) -> bool
    ensures { result ≡ expects_continue (map header_parts headers.now) }
{
    has(headers, b"expect", b"100-continue")
}
