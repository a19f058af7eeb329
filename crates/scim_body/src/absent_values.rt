//! Absent values: null, `[]` and a missing member are equivalent in SCIM (RFC 7643 section 2.5).
ghost use Rattle.std.specs.Prelude.{◌≡◌, option_map};
ghost use Rattle.scim_body.specs.View.{view, members_view};
ghost use Rattle.scim_body.specs.BodyValues as values;

use crate::object_members::value_named;
use crate::trees::{Member, Tree};

/// Whether a value counts as absent: null and `[]` do (RFC 7643 section 2.5).
pub fn is_absent(value: &Tree<'_>) -> bool
    ensures { result ≡ values.is_absent (view value.now) }
{
    match value {
        Tree::Null => true,
        Tree::Array(items) => items.is_empty(),
        _ => false,
    }
}

/// The value under the first key that is `name` in any case. `None` if there is no such key, or if the value
/// counts as absent.
pub fn given_named<'a, 'b>(members: &'a [Member<'b>], name: &str) -> Option<&'a Tree<'b>>
    ensures { option_map (λ v. view v.now) result
        ≡ values.given_named name.now (members_view members.now) }
{
    match value_named(members, name) {
        Some(value) => { if is_absent(value) { None } else { Some(value) } }
        None => None,
    }
}
