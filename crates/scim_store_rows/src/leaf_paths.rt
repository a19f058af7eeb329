//! Finds leaves by their paths.
ghost use Rattle.std.specs.Prelude.{◌≡◌, ◌↔◌, IsTrue, find, bytes_eq};
ghost use Rattle.scim_schema.specs.Names.{attribute_name, sub_attribute_name};
ghost use Rattle.scim_audit.specs.Rows as rows;
ghost use Rattle.scim_store_rows.specs.AuditBack.{ReadsBack, Any, IsAnyLeaf};

use scim_schema::{Attribute, Kind, Leaf, SubAttribute, attributes, has_leaf};

/// Returns the first of these attributes that has this name. Case matters.
fn attribute_in(attributes: &[Attribute], name: &str) -> Option<Attribute>
    ensures { result ≡ find (λ a. bytes_eq (attribute_name a) name.now) attributes.now }
{
    attributes.iter().copied().find(|a| a.name() == name)
}

/// Returns the attribute of users or groups that has this name.
fn attribute_of(name: &str) -> Option<Attribute>
    ensures { ReadsBack Any attribute_name name.now result }
{
    match attribute_in(attributes(Kind::User), name) {
        Some(attribute) => Some(attribute),
        None => attribute_in(attributes(Kind::Group), name),
    }
}

/// Returns the first of these sub-attributes that has this name. Case matters.
fn sub_attribute_in(sub_attributes: &[SubAttribute], name: &str) -> Option<SubAttribute>
    ensures { result ≡ find (λ s. bytes_eq (sub_attribute_name s) name.now) sub_attributes.now }
{
    sub_attributes.iter().copied().find(|s| s.name() == name)
}

/// Returns the sub-attribute with this name, whichever attribute it belongs to.
fn sub_attribute_of(name: &str) -> Option<SubAttribute>
    ensures { ReadsBack Any sub_attribute_name name.now result }
{
    sub_attribute_in(SubAttribute::all(), name)
}

/// Returns the attribute and the sub-attribute, if any, that a path names; `None` if a name is unknown.
/// Doesn't test that the attribute has the sub-attribute.
fn named_in(path: &str) -> Option<Leaf>
    ensures { ReadsBack Any rows.leaf_path path.now result }
{
    match path.split_once('.') {
        Some((name, sub_name)) => Some(Leaf {
            attribute: attribute_of(name)?,
            sub_attribute: Some(sub_attribute_of(sub_name)?),
        }),
        None => Some(Leaf {
            attribute: attribute_of(path)?,
            sub_attribute: None,
        }),
    }
}

/// Whether users or groups have this leaf.
fn is_any_leaf(leaf: Leaf) -> bool
    ensures { IsTrue result ↔ IsAnyLeaf leaf }
{
    has_leaf(Kind::User, leaf) || has_leaf(Kind::Group, leaf)
}

/// Returns the leaf with this path, such as `userName` or `emails.value`; `None` if neither users nor groups
/// have such a leaf.
pub(crate) fn leaf_of_path(path: &str) -> Option<Leaf>
    ensures { ReadsBack IsAnyLeaf rows.leaf_path path.now result }
{
    let leaf = named_in(path)?;
    if is_any_leaf(leaf) { Some(leaf) } else { None }
}
