//! The names that are unique among resources, such as `userName` (RFC 7643 section 2.2,
//! uniqueness).
ghost use Rattle.std.specs.Prelude.{◌≡◌, ◌++◌, IfOk, OnOk, map, string_bytes};
ghost use Rattle.std.specs.List.{flat_map};
ghost use Rattle.scim_value.specs.Resource.{first_at};
ghost use Rattle.scim_value.specs.Uniqueness as spec;
ghost use Rattle.scim_value.specs.Uniqueness.{name_of};

use crate::resources::Resource;
use scim_cell::Atom;
use scim_schema::{Kind, Leaf, characteristics_of, unique_leaves};
use scim_text::{NoMemory, fold, push};
use std::alloc::Global;

/// A value that at most one resource may have, such as a `userName`: the leaf, and the text that comparisons
/// use. The text is folded unless the attribute is caseExact.
#[derive(PartialEq, Eq, PartialOrd, Ord)]
pub struct UniqueName {
    pub leaf: Leaf,
    pub text: String,
}

impl Drop for UniqueName {
    fn drop(self) {
        let UniqueName {
            leaf: _leaf,
            text: _text,
        } = self;
    }
}

/// Returns the unique names of a resource, in the order of [`scim_schema::unique_leaves`].
pub fn unique_names(alloc: Global, resource: &Resource) -> Result<Vec<UniqueName>, NoMemory>
    ensures { IfOk result (λ v. map name_of v.items ≡ spec.unique_names resource.now) }
{
    let mut names = Vec::new(alloc);
    push_names(alloc, resource, unique_leaves(resource.kind()), &mut names)?;
    Ok(names)
}

/// Appends the names that the resource has at `leaves`. If memory runs out, some may have been appended.
fn push_names(
    alloc: Global,
    resource: &Resource,
    leaves: &[Leaf],
    names: &mut Vec<UniqueName>,
) -> Result<(), NoMemory>
    ensures { OnOk result (map name_of names.new.items ≡ map name_of names.old.items
        ++ flat_map (λ l. spec.name_at resource.now.kind l (first_at l resource.now)) leaves.now) }
{
    for leaf in leaves {
        if let Some(Atom::Text(text)) = resource.get(*leaf, 0) {
            let text = known_text(alloc, resource.kind(), *leaf, text.as_str())?;
            push(names, UniqueName { leaf: *leaf, text })?;
        }
    }
    Ok(())
}

/// Returns the form of `text` that comparisons of names at the leaf use: `text` itself if the leaf is
/// caseExact, otherwise the folded text.
pub fn known_text(alloc: Global, kind: Kind, leaf: Leaf, text: &str) -> Result<String, NoMemory>
    ensures { IfOk result (λ t. string_bytes t ≡ spec.known_text kind leaf text.now) }
{
    if characteristics_of(kind, leaf).case_exact {
        Ok(String::from_str(alloc, text)?)
    } else {
        fold(alloc, text)
    }
}
