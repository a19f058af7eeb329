//! Look-ups by name. Attributes and schemas are found without regard to ASCII case (RFC 7643
//! section 2.1); the names of kinds and operations are case-sensitive.
ghost use Rattle.std.specs.Prelude.{◌≡◌, ◌↔◌, Some};
ghost use Rattle.scim_schema.specs.Names as names;
ghost use Rattle.scim_schema.specs.Lookup as lookup;

use crate::attribute_lists::{attributes, sub_attributes};
use crate::names::is_same_name;
use crate::schema_urns::{Schema, schema_of};
use crate::{Attribute, Kind, Op, SubAttribute};

/// Returns the attribute of the kind with this name, or `None` if the kind has no such attribute. The
/// attributes of an extension are found by their bare name, without the URN.
pub fn attribute_named(kind: Kind, name: &str) -> Option<Attribute>
    ensures { result ≡ lookup.attribute_named kind name.now }
{
    attributes(kind)
        .iter()
        .copied()
        .find(|a| is_same_name(a.name(), name))
}

/// Returns the attribute of the kind with this name in this schema, or `None` if there is no such
/// attribute. Use it for full paths such as `urn:..:User:userName` (RFC 7644 section 3.10).
pub fn attribute_named_in(kind: Kind, schema: Schema, name: &str) -> Option<Attribute>
    ensures { result ≡ lookup.attribute_named_in kind schema name.now }
{
    attributes(kind).iter().copied().find(|a| schema_of(kind, *a) == schema
        && is_same_name(a.name(), name))
}

/// Returns the sub-attribute of the attribute with this name, or `None` if the attribute has no such
/// sub-attribute. A simple attribute has no sub-attributes.
pub fn sub_attribute_named(attribute: Attribute, name: &str) -> Option<SubAttribute>
    ensures { result ≡ lookup.sub_attribute_named attribute name.now }
{
    sub_attributes(attribute)
        .iter()
        .copied()
        .find(|b| is_same_name(b.name(), name))
}

impl Schema {
    /// Returns the schema with this URN, or `None` if no schema has this URN.
    pub fn named(urn: &str) -> Option<Schema>
        ensures { result ≡ lookup.schema_named urn.now }
    {
        Schema::all()
            .iter()
            .copied()
            .find(|s| is_same_name(s.urn(), urn))
    }
}

impl Kind {
    /// Returns the kind with this name, as in `meta.resourceType`, or `None` if there is no such
    /// kind. The name is case-sensitive.
    pub fn named(name: &str) -> Option<Kind>
        ensures named { result ≡ lookup.kind_named name.now }
        ensures exact { (kind : Kind) → (result ≡ Some kind) ↔ (name.now ≡ names.kind_name kind) }
    {
        if name == Kind::User.name() {
            Some(Kind::User)
        } else if name == Kind::Group.name() {
            Some(Kind::Group)
        } else {
            None
        }
    }
}

impl Op {
    /// Returns the operation with this name, as in policy files, or `None` if there is no such
    /// operation. The name is case-sensitive.
    pub fn named(name: &str) -> Option<Op>
        ensures { result ≡ lookup.operation_named name.now }
    {
        Op::all().iter().copied().find(|op| name == op.name())
    }
}
