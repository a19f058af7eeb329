//! The schemas of SCIM: the kinds of resources, their attributes and sub-attributes, the URNs of the
//! schemas, and the characteristics of each attribute (RFC 7643 sections 2, 3.1, 4 and 7).
//!
//! No function of this crate allocates or fails.
#![tactic(auto)]

mod attribute_lists;
mod characteristic_names;
mod characteristics;
mod json_keys;
mod leaf_units;
mod limits;
mod lookup;
mod names;
mod schema_urns;

pub use attribute_lists::{
    attributes, has_leaf, indexed_leaves, leaves, sub_attributes, unique_leaves,
    unique_leaves_by_name, unique_leaves_in_order, units,
};
pub use characteristics::{
    AttributeType, Characteristics, Mutability, Returned, Uniqueness, attribute_characteristics,
    characteristics_of, is_case_exact, is_dropped, is_multi_valued, is_read_only, is_write_only,
    mutability_of, sub_attribute_characteristics,
};
pub use json_keys::{
    JsonForm, JsonKey, JsonShape, extension_keys, keys, keys_ascend, keys_have_all_attributes,
    ordered_sub_attributes, shape_of,
};
pub use leaf_units::unit_of;
pub use limits::{
    LONGEST_FILTER, LONGEST_VALUE, MAX_BODY, MOST_OPERATIONS, MOST_RULES, MOST_SHOWN, MOST_TOKENS,
    MOST_VALUES, USUALLY_SHOWN,
};
pub use lookup::{attribute_named, attribute_named_in, sub_attribute_named};
pub use schema_urns::{Schema, core_schema, extension_of, extensions, schema_of};

/// A kind of resource, called resource type in RFC 7643 section 6.
#[derive(Clone, Copy, Debug, PartialEq, Eq)]
pub enum Kind {
    User,
    Group,
}

/// An operation on a resource that a policy allows or denies.
#[derive(Clone, Copy, Debug, PartialEq, Eq)]
pub enum Op {
    Read,
    Create,
    Modify,
    Delete,
}

/// An attribute of a user (RFC 7643 sections 3.1, 4.1 and 4.3, and the site extension) or a group (sections 3.1
/// and 4.2).
///
/// An attribute of both users and groups, such as `id`, has a single variant.
#[derive(Clone, Copy, Debug, PartialEq, Eq, PartialOrd, Ord, Hash)]
pub enum Attribute {
    Id,
    ExternalId,
    UserName,
    Name,
    DisplayName,
    NickName,
    ProfileUrl,
    Title,
    UserType,
    PreferredLanguage,
    Locale,
    Timezone,
    Active,
    Password,
    Emails,
    PhoneNumbers,
    Ims,
    Photos,
    Addresses,
    Groups,
    Entitlements,
    Roles,
    X509Certificates,
    EmployeeNumber,
    CostCenter,
    Organization,
    Division,
    Department,
    Manager,
    Badge,
    Note,
    DoorCode,
    Members,
    Meta,
}

/// A sub-attribute: a named part of a complex attribute's value (RFC 7643 sections 2.3.8 and 2.4).
#[derive(Clone, Copy, Debug, PartialEq, Eq, PartialOrd, Ord, Hash)]
pub enum SubAttribute {
    Formatted,
    FamilyName,
    GivenName,
    MiddleName,
    HonorificPrefix,
    HonorificSuffix,
    Value,
    /// `$ref`
    Reference,
    Display,
    /// `type`
    TypeName,
    Primary,
    StreetAddress,
    Locality,
    Region,
    PostalCode,
    Country,
    DisplayName,
    ResourceType,
    Created,
    LastModified,
    Location,
}

/// A simple attribute, or a sub-attribute of a complex attribute. Each cell of a resource holds one
/// simple value at one leaf.
///
/// Not every pair of an attribute and a sub-attribute is a leaf of a kind: see [`has_leaf`].
#[derive(Clone, Copy, PartialEq, Eq, PartialOrd, Ord, Hash)]
pub struct Leaf {
    pub attribute: Attribute,
    /// `None` for a simple attribute.
    pub sub_attribute: Option<SubAttribute>,
}

/// A part of a resource for which writing is allowed or denied as a whole: a simple attribute, a
/// sub-attribute of a single-valued complex attribute, or a whole multi-valued attribute.
#[derive(Clone, Copy, PartialEq, Eq)]
pub struct Unit {
    pub attribute: Attribute,
    /// `None` for a simple attribute and for a whole multi-valued attribute.
    pub sub_attribute: Option<SubAttribute>,
}
