//! The characteristics of each attribute and sub-attribute (RFC 7643 sections 2.2 and 7).
ghost use Rattle.std.specs.Prelude.{◌≡◌};
ghost use Rattle.scim_schema.specs.Characteristics as spec;
ghost use Rattle.scim_schema.specs.Mutability as written;

use crate::{Attribute, Kind, Leaf, SubAttribute, Unit};

/// The type of an attribute's values (RFC 7643 section 2.3).
#[derive(Clone, Copy, PartialEq, Eq)]
pub enum AttributeType {
    String,
    Boolean,
    DateTime,
    Reference,
    Binary,
    Complex,
}

/// Who may change an attribute, and when (RFC 7643 section 2.2).
#[derive(Clone, Copy, PartialEq, Eq)]
pub enum Mutability {
    ReadOnly,
    ReadWrite,
    Immutable,
    WriteOnly,
}

/// When an attribute is part of a reply (RFC 7643 section 2.2).
#[derive(Clone, Copy, PartialEq, Eq)]
pub enum Returned {
    Always,
    Never,
    Default,
    Request,
}

/// Whether two resources may have the same value of an attribute (RFC 7643 section 2.2).
#[derive(Clone, Copy, PartialEq, Eq)]
pub enum Uniqueness {
    NotUnique,
    Server,
}

/// The characteristics of an attribute or a sub-attribute (RFC 7643 section 2.2).
#[derive(Clone, Copy, PartialEq, Eq)]
pub struct Characteristics {
    pub attribute_type: AttributeType,
    pub multi_valued: bool,
    pub required: bool,
    pub case_exact: bool,
    pub mutability: Mutability,
    pub returned: Returned,
    pub uniqueness: Uniqueness,
}

/// The defaults of RFC 7643 section 2.2: a single string, not case-sensitive, that clients may read
/// and write.
const PLAIN: Characteristics = Characteristics {
    attribute_type: AttributeType::String,
    multi_valued: false,
    required: false,
    case_exact: false,
    mutability: Mutability::ReadWrite,
    returned: Returned::Default,
    uniqueness: Uniqueness::NotUnique,
};

/// A complex attribute with one value.
const COMPLEX: Characteristics = Characteristics {
    attribute_type: AttributeType::Complex,
    ..PLAIN
};

/// A complex attribute with a list of values.
const MULTI_VALUED: Characteristics = Characteristics {
    multi_valued: true,
    ..COMPLEX
};

/// A string whose case matters.
const CASE_EXACT: Characteristics = Characteristics {
    case_exact: true,
    ..PLAIN
};

/// A URI, whose case matters.
const REFERENCE: Characteristics = Characteristics {
    attribute_type: AttributeType::Reference,
    ..CASE_EXACT
};

/// Base64 text, whose case matters.
const BINARY: Characteristics = Characteristics {
    attribute_type: AttributeType::Binary,
    ..CASE_EXACT
};

/// A string that no client may read, and whose case matters.
const WRITE_ONLY: Characteristics = Characteristics {
    mutability: Mutability::WriteOnly,
    returned: Returned::Never,
    ..CASE_EXACT
};

const BOOLEAN: Characteristics = Characteristics {
    attribute_type: AttributeType::Boolean,
    ..PLAIN
};

const DATE_TIME: Characteristics = Characteristics {
    attribute_type: AttributeType::DateTime,
    ..PLAIN
};

impl Characteristics {
    /// These characteristics with mutability `readOnly`.
    fn read_only(self) -> Characteristics
        ensures { result ≡ spec.read_only self }
    {
        Characteristics {
            mutability: Mutability::ReadOnly,
            ..self
        }
    }

    /// These characteristics with mutability `immutable`.
    fn immutable(self) -> Characteristics
        ensures { result ≡ spec.immutable self }
    {
        Characteristics {
            mutability: Mutability::Immutable,
            ..self
        }
    }

    /// These characteristics with `required` set.
    fn required(self) -> Characteristics
        ensures { result ≡ spec.required self }
    {
        Characteristics {
            required: true,
            ..self
        }
    }
}

/// The characteristics of an attribute of the kind (RFC 7643 sections 3.1, 4 and 7, and the site extension). If the kind
/// doesn't have the attribute, returns the characteristics of the attribute for the other kind.
pub fn attribute_characteristics(kind: Kind, attribute: Attribute) -> Characteristics
    ensures { result ≡ spec.attribute_characteristics kind attribute }
{
    match attribute {
        Attribute::Id => Characteristics {
            returned: Returned::Always,
            ..CASE_EXACT.read_only()
        },
        Attribute::ExternalId => CASE_EXACT,
        Attribute::UserName => Characteristics {
            uniqueness: Uniqueness::Server,
            ..PLAIN.required()
        },
        Attribute::DisplayName => match kind {
            Kind::User => PLAIN,
            Kind::Group => PLAIN.required(),
        },
        Attribute::ProfileUrl => REFERENCE,
        Attribute::Active => BOOLEAN,
        Attribute::Password | Attribute::DoorCode => WRITE_ONLY,
        Attribute::Badge => Characteristics {
            uniqueness: Uniqueness::Server,
            ..CASE_EXACT
        },
        Attribute::Note => Characteristics {
            returned: Returned::Request,
            ..PLAIN
        },
        Attribute::Name | Attribute::Manager => COMPLEX,
        Attribute::Meta => COMPLEX.read_only(),
        Attribute::Groups => MULTI_VALUED.read_only(),
        Attribute::Emails
        | Attribute::PhoneNumbers
        | Attribute::Ims
        | Attribute::Photos
        | Attribute::Addresses
        | Attribute::Entitlements
        | Attribute::Roles
        | Attribute::X509Certificates
        | Attribute::Members => MULTI_VALUED,
        _ => PLAIN,
    }
}

/// The characteristics of a sub-attribute of an attribute (RFC 7643 sections 2.4, 3.1 and 4).
pub fn sub_attribute_characteristics(
    attribute: Attribute,
    sub_attribute: SubAttribute,
) -> Characteristics
    ensures { result ≡ spec.sub_attribute_characteristics attribute sub_attribute }
{
    match attribute {
        Attribute::Photos => match sub_attribute {
            SubAttribute::Value => REFERENCE,
            _ => common_sub_attribute(sub_attribute),
        },
        Attribute::X509Certificates => match sub_attribute {
            SubAttribute::Value => BINARY,
            _ => common_sub_attribute(sub_attribute),
        },
        Attribute::Groups => linked_sub_attribute(sub_attribute).read_only(),
        Attribute::Manager => match sub_attribute {
            SubAttribute::DisplayName => PLAIN.read_only(),
            _ => linked_sub_attribute(sub_attribute),
        },
        Attribute::Members => match sub_attribute {
            SubAttribute::Value => CASE_EXACT.immutable().required(),
            _ => linked_sub_attribute(sub_attribute).immutable(),
        },
        Attribute::Meta => meta_sub_attribute(sub_attribute),
        _ => common_sub_attribute(sub_attribute),
    }
}

/// The characteristics of a sub-attribute of most attributes: `primary` is a boolean, the other
/// sub-attributes are strings.
fn common_sub_attribute(sub_attribute: SubAttribute) -> Characteristics
    ensures { result ≡ spec.common_sub_attribute sub_attribute }
{
    match sub_attribute {
        SubAttribute::Primary => BOOLEAN,
        _ => PLAIN,
    }
}

/// The characteristics of a sub-attribute of a link to a resource: `value` is the id of the resource,
/// and `$ref` is the location.
fn linked_sub_attribute(sub_attribute: SubAttribute) -> Characteristics
    ensures { result ≡ spec.linked_sub_attribute sub_attribute }
{
    match sub_attribute {
        SubAttribute::Value => CASE_EXACT,
        SubAttribute::Reference => REFERENCE,
        _ => PLAIN,
    }
}

/// The characteristics of a sub-attribute of `meta`. Each one is read-only.
fn meta_sub_attribute(sub_attribute: SubAttribute) -> Characteristics
    ensures { result ≡ spec.meta_sub_attribute sub_attribute }
{
    match sub_attribute {
        SubAttribute::ResourceType => CASE_EXACT.read_only(),
        SubAttribute::Created | SubAttribute::LastModified => DATE_TIME.read_only(),
        SubAttribute::Location => REFERENCE.read_only(),
        _ => PLAIN.read_only(),
    }
}

/// The characteristics of the leaf's sub-attribute, or of its attribute if the leaf has no
/// sub-attribute.
pub fn characteristics_of(kind: Kind, leaf: Leaf) -> Characteristics
    ensures { result ≡ spec.characteristics_of kind leaf }
{
    match leaf.sub_attribute {
        None => attribute_characteristics(kind, leaf.attribute),
        Some(sub_attribute) => sub_attribute_characteristics(leaf.attribute, sub_attribute),
    }
}

/// Whether the attribute holds a list of values (RFC 7643 section 2.4). The answer doesn't depend
/// on the kind of resource.
pub fn is_multi_valued(attribute: Attribute) -> bool
    ensures { result ≡ spec.is_multi_valued attribute }
{
    attribute_characteristics(Kind::User, attribute).multi_valued
}

/// Whether comparisons of texts at the leaf are case-sensitive (RFC 7643 section 2.2). The answer
/// doesn't depend on the kind of resource.
pub fn is_case_exact(leaf: Leaf) -> bool
    ensures { result ≡ spec.is_case_exact leaf }
{
    characteristics_of(Kind::User, leaf).case_exact
}

/// Whether the leaf is read-only: no client may write it (RFC 7643 section 2.2). If `leaf` has no
/// sub-attribute, the answer is for the whole attribute.
pub fn is_read_only(kind: Kind, leaf: Leaf) -> bool
    ensures { result ≡ written.is_read_only kind leaf }
{
    characteristics_of(kind, leaf).mutability == Mutability::ReadOnly
}

/// Whether the leaf is write-only: no client may read it (RFC 7643 section 2.2).
pub fn is_write_only(kind: Kind, leaf: Leaf) -> bool
    ensures { result ≡ written.is_write_only kind leaf }
{
    characteristics_of(kind, leaf).mutability == Mutability::WriteOnly
}

/// Whether the leaf is dropped: a body may give it, and it is neither stored nor returned.
pub fn is_dropped(leaf: Leaf) -> bool
    ensures { result ≡ written.is_dropped leaf }
{
    leaf == Leaf::simple(Attribute::Password)
}

/// The mutability of the unit's sub-attribute, or of its attribute if the unit has no sub-attribute
/// (RFC 7643 section 2.2).
pub fn mutability_of(kind: Kind, unit: Unit) -> Mutability
    ensures { result ≡ written.mutability_of kind unit }
{
    characteristics_of(
        kind,
        Leaf {
            attribute: unit.attribute,
            sub_attribute: unit.sub_attribute,
        },
    )
    .mutability
}
