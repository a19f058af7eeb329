//! Reads the paths of attributes (RFC 7644 section 3.10).
ghost use Rattle.std.specs.Prelude.{◌≡◌, ◌≤◌, length, MatchOption, option_map};
ghost use Rattle.scim_filter_grammar.specs.Bytes as spec;
ghost use Rattle.scim_filter_grammar.specs.declared.tree.AttributePath.{AttributePath};
ghost use Rattle.scim_filter_grammar.specs.Spelled.{path_in};
ghost use Rattle.scim_filter_grammar.specs.WrittenPaths.{IsWritten, Plain};

use crate::attribute_paths::meant;
use crate::bytes::{skip_spaces, split_word};
use crate::tree::{Meant, Scope};
use scim_schema::{Kind, LONGEST_FILTER};

/// The only word of a text, without the spaces around it. `None` if the text has anything else.
///
/// A word has no space, quote or bracket.
pub fn lone_word(text: &str) -> Option<&[u8]>
    ensures { option_map (λ w. w.now) result ≡ spec.lone_word text.now }
{
    let (word, rest) = split_word(skip_spaces(text.as_bytes()));
    skip_spaces(rest).is_empty().then_some(word)
}

/// Returns the attribute or sub-attribute of `kind` that an attribute path names, such as `name.familyName`.
/// The path may have a URN before it and spaces around it.
///
/// `None` if the text isn't a path, or has more than 4,096 bytes.
pub fn attribute_path(kind: Kind, text: &str) -> Option<Meant>
    ensures spelled { MatchOption result ((path : AttributePath) → length text.now ≤ LONGEST_FILTER
        → ¬ (IsWritten kind 0 text.now (Plain path)))
        (λ m. (path : AttributePath) × (length text.now ≤ LONGEST_FILTER)
        × IsWritten kind 0 text.now (Plain path) × (path.meant ≡ m)) }
    // `path_in` returns the path that a text spells.
    ensures same { result ≡ option_map (λ (path : AttributePath). path.meant)
        (path_in kind text.now) }
{
    if text.len() > LONGEST_FILTER {
        return None;
    }
    let Some(word) = lone_word(text) else {
        return None;
    };
    meant(Scope::Attributes(kind), word)
}
