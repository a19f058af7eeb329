//! Finds members of a JSON object by name. Keys match in any case (RFC 7643 section 2.1).
ghost use Rattle.std.specs.Prelude.{◌≡◌, option_map};
ghost use Rattle.scim_body.specs.View.{view, members_view};
ghost use Rattle.scim_body.specs.BodyNames as spec;

use crate::trees::{Member, Tree};
use scim_text::same_name;

/// The value under the first key that is `name` in any case. `None` if there is no such key.
pub fn value_named<'a, 'b>(members: &'a [Member<'b>], name: &str) -> Option<&'a Tree<'b>>
    ensures { option_map (λ v. view v.now) result
        ≡ spec.value_named name.now (members_view members.now) }
{
    for member in members {
        if same_name(name, member.0) {
            return Some(&member.1);
        }
    }
    None
}

/// Whether more than one key is `name`, in any case.
///
/// Returns at once for an object with fewer than two keys. Most items of long lists are such objects.
pub fn is_twice(members: &[Member<'_>], name: &str) -> bool
    ensures { result ≡ spec.is_twice name.now (members_view members.now) }
{
    if members.len() < 2 {
        return false;
    }
    let mut is_found = false;
    for member in members {
        if same_name(name, member.0) {
            if is_found {
                return true;
            }
            is_found = true;
        }
    }
    false
}
