//! The attributes, sub-attributes, leaves and units of each kind, in the order of `specs/Table.antt`.
ghost use Rattle.std.specs.Prelude.{◌≡◌, ◌↔◌, IsTrue};
ghost use Rattle.scim_schema.specs.Table as table;
ghost use Rattle.scim_schema.specs.UniqueLeaves as unique;
ghost use Rattle.scim_schema.specs.IndexedLeaves as indexed;
ghost use Rattle.scim_schema.specs.Units as of_units;

use crate::{Attribute, Kind, Leaf, SubAttribute, Unit};

// The leaf of a simple attribute, or of a sub-attribute of a complex attribute.
macro_rules! leaf {
    ($attribute:ident) => {
        Leaf {
            attribute: Attribute::$attribute,
            sub_attribute: None,
        }
    };
    ($attribute:ident, $sub_attribute:ident) => {
        Leaf {
            attribute: Attribute::$attribute,
            sub_attribute: Some(SubAttribute::$sub_attribute),
        }
    };
}

// The unit of a simple attribute, of a whole multi-valued attribute, or of a sub-attribute of a single-valued
// complex attribute.
macro_rules! unit {
    ($attribute:ident) => {
        Unit {
            attribute: Attribute::$attribute,
            sub_attribute: None,
        }
    };
    ($attribute:ident, $sub_attribute:ident) => {
        Unit {
            attribute: Attribute::$attribute,
            sub_attribute: Some(SubAttribute::$sub_attribute),
        }
    };
}

static USER_ATTRIBUTES: [Attribute; 33] = [
    Attribute::Id,
    Attribute::ExternalId,
    Attribute::UserName,
    Attribute::Name,
    Attribute::DisplayName,
    Attribute::NickName,
    Attribute::ProfileUrl,
    Attribute::Title,
    Attribute::UserType,
    Attribute::PreferredLanguage,
    Attribute::Locale,
    Attribute::Timezone,
    Attribute::Active,
    Attribute::Password,
    Attribute::Emails,
    Attribute::PhoneNumbers,
    Attribute::Ims,
    Attribute::Photos,
    Attribute::Addresses,
    Attribute::Groups,
    Attribute::Entitlements,
    Attribute::Roles,
    Attribute::X509Certificates,
    Attribute::EmployeeNumber,
    Attribute::CostCenter,
    Attribute::Organization,
    Attribute::Division,
    Attribute::Department,
    Attribute::Manager,
    Attribute::Badge,
    Attribute::Note,
    Attribute::DoorCode,
    Attribute::Meta,
];

static GROUP_ATTRIBUTES: [Attribute; 5] = [
    Attribute::Id,
    Attribute::ExternalId,
    Attribute::DisplayName,
    Attribute::Members,
    Attribute::Meta,
];

static USER_LEAVES: [Leaf; 74] = [
    leaf!(Id),
    leaf!(ExternalId),
    leaf!(UserName),
    leaf!(Name, Formatted),
    leaf!(Name, FamilyName),
    leaf!(Name, GivenName),
    leaf!(Name, MiddleName),
    leaf!(Name, HonorificPrefix),
    leaf!(Name, HonorificSuffix),
    leaf!(DisplayName),
    leaf!(NickName),
    leaf!(ProfileUrl),
    leaf!(Title),
    leaf!(UserType),
    leaf!(PreferredLanguage),
    leaf!(Locale),
    leaf!(Timezone),
    leaf!(Active),
    leaf!(Password),
    leaf!(Emails, Value),
    leaf!(Emails, Display),
    leaf!(Emails, TypeName),
    leaf!(Emails, Primary),
    leaf!(PhoneNumbers, Value),
    leaf!(PhoneNumbers, Display),
    leaf!(PhoneNumbers, TypeName),
    leaf!(PhoneNumbers, Primary),
    leaf!(Ims, Value),
    leaf!(Ims, Display),
    leaf!(Ims, TypeName),
    leaf!(Ims, Primary),
    leaf!(Photos, Value),
    leaf!(Photos, Display),
    leaf!(Photos, TypeName),
    leaf!(Photos, Primary),
    leaf!(Addresses, Formatted),
    leaf!(Addresses, StreetAddress),
    leaf!(Addresses, Locality),
    leaf!(Addresses, Region),
    leaf!(Addresses, PostalCode),
    leaf!(Addresses, Country),
    leaf!(Addresses, TypeName),
    leaf!(Addresses, Primary),
    leaf!(Groups, Value),
    leaf!(Groups, Reference),
    leaf!(Groups, Display),
    leaf!(Groups, TypeName),
    leaf!(Entitlements, Value),
    leaf!(Entitlements, Display),
    leaf!(Entitlements, TypeName),
    leaf!(Entitlements, Primary),
    leaf!(Roles, Value),
    leaf!(Roles, Display),
    leaf!(Roles, TypeName),
    leaf!(Roles, Primary),
    leaf!(X509Certificates, Value),
    leaf!(X509Certificates, Display),
    leaf!(X509Certificates, TypeName),
    leaf!(X509Certificates, Primary),
    leaf!(EmployeeNumber),
    leaf!(CostCenter),
    leaf!(Organization),
    leaf!(Division),
    leaf!(Department),
    leaf!(Manager, Value),
    leaf!(Manager, Reference),
    leaf!(Manager, DisplayName),
    leaf!(Badge),
    leaf!(Note),
    leaf!(DoorCode),
    leaf!(Meta, ResourceType),
    leaf!(Meta, Created),
    leaf!(Meta, LastModified),
    leaf!(Meta, Location),
];

static GROUP_LEAVES: [Leaf; 11] = [
    leaf!(Id),
    leaf!(ExternalId),
    leaf!(DisplayName),
    leaf!(Members, Value),
    leaf!(Members, Reference),
    leaf!(Members, TypeName),
    leaf!(Members, Display),
    leaf!(Meta, ResourceType),
    leaf!(Meta, Created),
    leaf!(Meta, LastModified),
    leaf!(Meta, Location),
];

static USER_UNITS: [Unit; 43] = [
    unit!(Id),
    unit!(ExternalId),
    unit!(UserName),
    unit!(Name, Formatted),
    unit!(Name, FamilyName),
    unit!(Name, GivenName),
    unit!(Name, MiddleName),
    unit!(Name, HonorificPrefix),
    unit!(Name, HonorificSuffix),
    unit!(DisplayName),
    unit!(NickName),
    unit!(ProfileUrl),
    unit!(Title),
    unit!(UserType),
    unit!(PreferredLanguage),
    unit!(Locale),
    unit!(Timezone),
    unit!(Active),
    unit!(Password),
    unit!(Emails),
    unit!(PhoneNumbers),
    unit!(Ims),
    unit!(Photos),
    unit!(Addresses),
    unit!(Groups),
    unit!(Entitlements),
    unit!(Roles),
    unit!(X509Certificates),
    unit!(EmployeeNumber),
    unit!(CostCenter),
    unit!(Organization),
    unit!(Division),
    unit!(Department),
    unit!(Manager, Value),
    unit!(Manager, Reference),
    unit!(Manager, DisplayName),
    unit!(Badge),
    unit!(Note),
    unit!(DoorCode),
    unit!(Meta, ResourceType),
    unit!(Meta, Created),
    unit!(Meta, LastModified),
    unit!(Meta, Location),
];

static UNIQUE_USER_LEAVES: [Leaf; 2] = [leaf!(UserName), leaf!(Badge)];

static UNIQUE_USER_LEAVES_BY_NAME: [Leaf; 2] = [leaf!(Badge), leaf!(UserName)];

static INDEXED_USER_LEAVES: [Leaf; 2] = [leaf!(ExternalId), leaf!(Emails, Value)];

static INDEXED_GROUP_LEAVES: [Leaf; 3] = [
    leaf!(ExternalId),
    leaf!(DisplayName),
    leaf!(Members, Value),
];

static GROUP_UNITS: [Unit; 8] = [
    unit!(Id),
    unit!(ExternalId),
    unit!(DisplayName),
    unit!(Members),
    unit!(Meta, ResourceType),
    unit!(Meta, Created),
    unit!(Meta, LastModified),
    unit!(Meta, Location),
];

/// The attributes of a kind, in the order of `specs/Table.antt`.
pub fn attributes(kind: Kind) -> &'static [Attribute]
    ensures { result.now ≡ table.attributes kind }
{
    match kind {
        Kind::User => &USER_ATTRIBUTES,
        Kind::Group => &GROUP_ATTRIBUTES,
    }
}

/// The leaves of a kind, in the order of `specs/Table.antt`. Other comments call this order leaf order.
pub fn leaves(kind: Kind) -> &'static [Leaf]
    ensures { result.now ≡ table.leaves kind }
{
    match kind {
        Kind::User => &USER_LEAVES,
        Kind::Group => &GROUP_LEAVES,
    }
}

/// The units of a kind, in the order of `specs/Table.antt`.
#[tactic(auto, unfolding(crate::specs::Units::units))]
pub fn units(kind: Kind) -> &'static [Unit]
    ensures { result.now ≡ of_units.units kind }
{
    match kind {
        Kind::User => &USER_UNITS,
        Kind::Group => &GROUP_UNITS,
    }
}

/// Whether the kind has the leaf.
pub fn has_leaf(kind: Kind, leaf: Leaf) -> bool
    ensures { IsTrue result ↔ table.HasLeaf kind leaf }
{
    leaves(kind).contains(&leaf)
}

/// The sub-attributes of an attribute, in the order of `specs/Table.antt`. Empty for a simple attribute.
pub fn sub_attributes(attribute: Attribute) -> &'static [SubAttribute]
    ensures { result.now ≡ table.sub_attributes attribute }
{
    match attribute {
        Attribute::Name => &[
            SubAttribute::Formatted,
            SubAttribute::FamilyName,
            SubAttribute::GivenName,
            SubAttribute::MiddleName,
            SubAttribute::HonorificPrefix,
            SubAttribute::HonorificSuffix,
        ],
        Attribute::Addresses => &[
            SubAttribute::Formatted,
            SubAttribute::StreetAddress,
            SubAttribute::Locality,
            SubAttribute::Region,
            SubAttribute::PostalCode,
            SubAttribute::Country,
            SubAttribute::TypeName,
            SubAttribute::Primary,
        ],
        Attribute::Groups => &[
            SubAttribute::Value,
            SubAttribute::Reference,
            SubAttribute::Display,
            SubAttribute::TypeName,
        ],
        Attribute::Members => &[
            SubAttribute::Value,
            SubAttribute::Reference,
            SubAttribute::TypeName,
            SubAttribute::Display,
        ],
        Attribute::Manager => &[
            SubAttribute::Value,
            SubAttribute::Reference,
            SubAttribute::DisplayName,
        ],
        Attribute::Meta => &[
            SubAttribute::ResourceType,
            SubAttribute::Created,
            SubAttribute::LastModified,
            SubAttribute::Location,
        ],
        Attribute::Emails
        | Attribute::PhoneNumbers
        | Attribute::Ims
        | Attribute::Photos
        | Attribute::Entitlements
        | Attribute::Roles
        | Attribute::X509Certificates => &[
            SubAttribute::Value,
            SubAttribute::Display,
            SubAttribute::TypeName,
            SubAttribute::Primary,
        ],
        _ => &[],
    }
}

/// The leaves of a kind that must have a different value in each resource (RFC 7643 section 2.2,
/// uniqueness).
#[tactic(auto, unfolding(crate::specs::UniqueLeaves::unique_leaves))]
pub fn unique_leaves(kind: Kind) -> &'static [Leaf]
    ensures { result.now ≡ unique.unique_leaves kind }
{
    match kind {
        Kind::User => &UNIQUE_USER_LEAVES,
        Kind::Group => &[],
    }
}

/// The leaves of [`unique_leaves`] in byte order of the names of their attributes.
#[tactic(auto, unfolding(crate::specs::UniqueLeaves::unique_leaves_by_name))]
pub fn unique_leaves_by_name(kind: Kind) -> &'static [Leaf]
    ensures { result.now ≡ unique.unique_leaves_by_name kind }
{
    match kind {
        Kind::User => &UNIQUE_USER_LEAVES_BY_NAME,
        Kind::Group => &[],
    }
}

/// Lemma: [`unique_leaves_by_name`] has the leaves of [`unique_leaves`], and the names of their attributes ascend.
pub fn unique_leaves_in_order()
    ensures permuted { unique.UniqueLeavesArePermuted }
    ensures ascending { unique.UniqueLeavesAscend }
{}

/// The leaves of a kind that a store in memory indexes by text: it finds the resources that have a text at one
/// of these leaves without reading any other resource.
#[tactic(auto, unfolding(crate::specs::IndexedLeaves::indexed_leaves))]
pub fn indexed_leaves(kind: Kind) -> &'static [Leaf]
    ensures { result.now ≡ indexed.indexed_leaves kind }
{
    match kind {
        Kind::User => &INDEXED_USER_LEAVES,
        Kind::Group => &INDEXED_GROUP_LEAVES,
    }
}
