//! Reads the paths of PATCH operations (RFC 7644 section 3.5.2).
ghost use Rattle.std.specs.Prelude.{◌≡◌, ◌≤◌, length, IfOk, IfSome, IsSomeAnd};
ghost use Rattle.scim_filter_grammar.specs.Reading.{Gives};
ghost use Rattle.scim_filter_grammar.specs.PathReading.{ended_at, sub_at, filtered_at, behind_names_at, written_at};
ghost use Rattle.scim_filter_grammar.specs.WrittenPaths.{Written, IsWritten, written_of};
ghost use Rattle.scim_filter_grammar.specs.Tree.{tree_of};
ghost use Rattle.scim_filter_grammar.specs.Bytes.{is_space, behind};

use crate::attribute_paths::{name, path};
use crate::bytes::{skip_spaces, split_word};
use crate::faults::ReadError;
use crate::filter_reading::listed;
use crate::tree::{AttributePath, Filter, Scope};
use scim_cell::Text;
use scim_schema::{Kind, LONGEST_FILTER};
use scim_text::{Failed, NoMemory};
use std::alloc::Global;

/// The path of a PATCH operation, as written.
#[derive(Drop)]
pub enum WrittenPath {
    /// The path of an attribute or of a sub-attribute.
    Plain(AttributePath),
    /// A value path, and the name of a sub-attribute after its brackets, if there is one.
    Filtered(Filter, Option<Text>),
}

/// Returns `path` if `bytes` are only spaces.
///
/// Fails with `Syntax` if there is any other byte.
#[tactic(auto, unfolding(crate::specs::PathReading::ended_at))]
fn ended(path: WrittenPath, bytes: &[u8]) -> Result<WrittenPath, Failed<ReadError>>
    ensures { Gives written_of result (ended_at (written_of path) bytes.now) }
{
    if !skip_spaces(bytes).is_empty() {
        return Err(Failed::Because(ReadError::Syntax(bytes.len())));
    }
    Ok(path)
}

/// Reads what follows the closing bracket of a value path: a dot and a name, or nothing.
#[tactic(auto, unfolding(crate::specs::PathReading::sub_at))]
fn with_sub_attribute(
    alloc: Global,
    filter: Filter,
    bytes: &[u8],
) -> Result<WrittenPath, Failed<ReadError>>
    ensures { Gives written_of result (sub_at (tree_of filter) bytes.now) }
{
    let [b'.', rest @ ..] = bytes else {
        return ended(WrittenPath::Filtered(filter, None), bytes);
    };
    let (word, rest) = split_word(rest);
    let Some(sub_name) = name(word) else {
        return Err(Failed::Because(ReadError::Syntax(bytes.len())));
    };
    let sub_name = Text::copy_of(alloc, sub_name)?;
    ended(WrittenPath::Filtered(filter, Some(sub_name)), rest)
}

/// Reads what follows a path and an opening bracket: the filter, the closing bracket, and possibly a dot and
/// a name.
#[tactic(auto, unfolding(crate::specs::PathReading::filtered_at))]
fn filtered(
    alloc: Global,
    kind: Kind,
    path: AttributePath,
    bytes: &[u8],
) -> Result<WrittenPath, Failed<ReadError>>
    ensures { Gives written_of result (filtered_at 32 kind path bytes.now) }
{
    let (node, rest) = listed(alloc, 32, Scope::Attributes(kind), path, bytes)?;
    with_sub_attribute(alloc, Filter::of(node), rest)
}

/// Reads what follows a path: a filter in brackets, or nothing.
#[tactic(auto, unfolding(crate::specs::PathReading::behind_names_at))]
fn behind_names(
    alloc: Global,
    kind: Kind,
    path: AttributePath,
    bytes: &[u8],
) -> Result<WrittenPath, Failed<ReadError>>
    ensures { Gives written_of result (behind_names_at 32 kind path bytes.now) }
{
    match bytes {
        [b'[', rest @ ..] => filtered(alloc, kind, path, rest),
        _ => ended(WrittenPath::Plain(path), bytes),
    }
}

/// Reads a path whose leading spaces are already skipped.
#[tactic(auto, unfolding(crate::specs::PathReading::written_at))]
fn written(alloc: Global, kind: Kind, bytes: &[u8]) -> Result<WrittenPath, Failed<ReadError>>
    ensures { Gives written_of result (written_at 32 kind bytes.now) }
{
    let (word, behind) = split_word(bytes);
    let path = path(alloc, Scope::Attributes(kind), word, bytes.len())?;
    behind_names(alloc, kind, path, behind)
}

/// Reads a text as a path with at most 4,096 bytes and 32 open brackets: `path`, `path[filter]` or
/// `path[filter].name`, with optional spaces around it. Names in the brackets are names of sub-attributes.
///
/// `None` if the text isn't a path within these limits.
pub fn written_path(alloc: Global, kind: Kind, text: &str) -> Result<Option<WrittenPath>, NoMemory>
    // The text spells the returned path.
    ensures found { IfOk result (λ o. IfSome o (λ w. (length text.now ≤ LONGEST_FILTER)
        × IsWritten kind 32 text.now (written_of w))) }
    // If the text spells a path within the limits, that path is returned.
    ensures only { (w : Written) → length text.now ≤ LONGEST_FILTER → IsWritten kind 32 text.now w
        → IfOk result (λ o. IsSomeAnd o (λ p. written_of p ≡ w)) }
{
    let bytes = text.as_bytes();
    if bytes.len() > LONGEST_FILTER {
        return Ok(None);
    }
    match written(alloc, kind, skip_spaces(bytes)) {
        Ok(path) => Ok(Some(path)),
        Err(Failed::NoMemory) => Err(NoMemory),
        Err(Failed::Because(ReadError::Syntax(_))) => Ok(None),
        Err(Failed::Because(ReadError::TooDeep)) => Ok(None),
    }
}
