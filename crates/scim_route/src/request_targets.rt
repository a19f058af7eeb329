//! Splits the target of a request into path and query.
ghost use Rattle.std.specs.Prelude.{◌≡◌, ◌≤◌, length, Ok, Err, Some, None, IfOk};
ghost use Rattle.std.specs.Option.{option_copied};
ghost use Rattle.std.specs.Cow.{cow_str_bytes};
ghost use Rattle.std.specs.List.{position_or_len, before_first};
ghost use Rattle.scim_text.specs.Failures.{IfFault};
ghost use Rattle.scim_audit.specs.declared.refusals.Refusal.TheVariants.{NoRoute};
ghost use Rattle.scim_route.specs.Targets as spec;
ghost use Rattle.scim_route.specs.Endpoints as paths;

use percent_encoding::{DecodeError, percent_decode};
use scim_audit::Refusal;
use scim_text::Failed;
use std::alloc::Global;
use std::borrow::CowStr;

/// The path and the query of a request target, both still percent-encoded.
#[derive(Clone, Copy)]
pub(crate) struct Target<'t> {
    pub(crate) path: &'t [u8],
    pub(crate) query: Option<&'t [u8]>,
}

/// Returns the length of the authority at the start of `bytes`: the index of the first `/` or `?`, or the
/// length of `bytes` if there is none.
fn end_of_authority(bytes: &[u8]) -> usize
    ensures place { result ≡ position_or_len spec.ends_authority bytes.now }
    ensures within { result ≤ length bytes.now }
{
    bytes
        .iter()
        .position(|b| *b == b'/' || *b == b'?')
        .unwrap_or(bytes.len())
}

/// Returns the index of the first `?`, or the length of `bytes` if there is none.
fn end_of_path(bytes: &[u8]) -> usize
    ensures place { result ≡ position_or_len spec.is_question_mark bytes.now }
    ensures within { result ≤ length bytes.now }
{
    bytes.iter().position(|b| *b == b'?').unwrap_or(bytes.len())
}

/// Returns the part of the target after the authority if the target is in absolute form (`http://`);
/// otherwise `None`.
fn behind_authority(target: &[u8]) -> Option<&[u8]>
    ensures { option_copied result ≡ spec.behind_authority_of target.now }
{
    let rest = target.strip_prefix(b"http://")?;
    Some(&rest[end_of_authority(rest)..])
}

/// Returns the part after the first `?`; `None` if there is no `?`.
fn behind_question_mark(bytes: &[u8]) -> Option<&[u8]>
    ensures { option_copied result ≡ spec.behind_question_mark bytes.now }
{
    let end = end_of_path(bytes);
    if end == bytes.len() {
        None
    } else {
        Some(&bytes[end + 1..])
    }
}

/// Returns the part before the first `?`, or all bytes if there is no `?`.
fn before_question_mark(bytes: &[u8]) -> &[u8]
    ensures { result.now ≡ before_first spec.is_question_mark bytes.now }
{
    &bytes[..end_of_path(bytes)]
}

/// Returns the path of a target in absolute form: `path`, or `/` if `path` is empty.
fn or_root(path: &[u8]) -> &[u8]
    ensures { result.now ≡ spec.or_root path.now }
{
    if path.is_empty() { b"/" } else { path }
}

/// Splits a target into its path and its query.
pub(crate) fn read_target(target: &[u8]) -> Target<'_>
    ensures path { result.path.now ≡ spec.path_of target.now }
    ensures query { option_copied result.query ≡ spec.query_of target.now }
{
    match behind_authority(target) {
        Some(rest) => Target {
            path: or_root(before_question_mark(rest)),
            query: behind_question_mark(rest),
        },
        None => Target {
            path: before_question_mark(target),
            query: behind_question_mark(target),
        },
    }
}

/// Decodes the percent-encoding of a path.
///
/// Fails with `NoRoute` if the result isn't UTF-8.
pub(crate) fn decoded<'t>(
    alloc: Global,
    path: &'t [u8],
) -> Result<CowStr<'t, Global>, Failed<Refusal>>
    ensures ok { IfOk result (λ text. spec.decoded path.now ≡ Some (cow_str_bytes text)) }
    ensures fault { IfFault result (λ refusal. (refusal ≡ NoRoute)
        × (spec.decoded path.now ≡ None)) }
{
    match percent_decode(path).decode_utf8(alloc) {
        Ok(text) => Ok(text),
        Err(DecodeError::OutOfMemory) => Err(Failed::NoMemory),
        Err(DecodeError::Utf8(_)) => Err(Failed::Because(Refusal::NoRoute)),
    }
}

/// Returns the text without one slash at its end, if it ends in a slash.
pub(crate) fn without_last_slash(text: &str) -> &str
    ensures { result.now ≡ paths.without_last_slash text.now }
{
    text.strip_suffix('/').unwrap_or(text)
}
