//! The schemas and their URNs (RFC 7643 sections 3 and 8.7, and the site extension).
ghost use Rattle.std.specs.Prelude.{◌≡◌};
ghost use Rattle.scim_schema.specs.Schemas as spec;

use crate::{Attribute, Kind};

/// A schema of resources: the core schema of a kind, or an extension.
#[derive(Clone, Copy, Debug, PartialEq, Eq, Hash)]
pub enum Schema {
    User,
    Group,
    EnterpriseUser,
    /// The extension for what an organisation keeps of its own: badges, notes and door codes.
    SiteUser,
}

impl Schema {
    /// All schemas, in the order in which `/Schemas` lists them.
    pub fn all() -> &'static [Schema]
        ensures { result.now ≡ spec.schemas }
    {
        &[
            Schema::User,
            Schema::Group,
            Schema::EnterpriseUser,
            Schema::SiteUser,
        ]
    }

    /// The schema's URN.
    pub fn urn(self) -> &'static str
        ensures { result.now ≡ spec.urn self }
    {
        match self {
            Schema::User => "urn:ietf:params:scim:schemas:core:2.0:User",
            Schema::Group => "urn:ietf:params:scim:schemas:core:2.0:Group",
            Schema::EnterpriseUser => "urn:ietf:params:scim:schemas:extension:enterprise:2.0:User",
            Schema::SiteUser => "urn:example:scim:schemas:extension:site:1.0:User",
        }
    }
}

/// The core schema of the kind. Every resource of the kind has this schema.
pub fn core_schema(kind: Kind) -> Schema
    ensures { result ≡ spec.core_schema kind }
{
    match kind {
        Kind::User => Schema::User,
        Kind::Group => Schema::Group,
    }
}

/// The extensions that a resource of the kind may have, in the order in which `schemas` lists them (RFC 7643
/// section 3.3).
pub fn extensions(kind: Kind) -> &'static [Schema]
    ensures { result.now ≡ spec.extensions kind }
{
    match kind {
        Kind::User => &[Schema::EnterpriseUser, Schema::SiteUser],
        Kind::Group => &[],
    }
}

/// The extension that defines an attribute, or `None` if a core schema defines the attribute.
pub fn extension_of(attribute: Attribute) -> Option<Schema>
    ensures { result ≡ spec.extension_of attribute }
{
    match attribute {
        Attribute::EmployeeNumber
        | Attribute::CostCenter
        | Attribute::Organization
        | Attribute::Division
        | Attribute::Department
        | Attribute::Manager => Some(Schema::EnterpriseUser),
        Attribute::Badge | Attribute::Note | Attribute::DoorCode => Some(Schema::SiteUser),
        _ => None,
    }
}

/// The schema that defines an attribute of the kind. `id`, `externalId` and `meta` belong to the core schema.
pub fn schema_of(kind: Kind, attribute: Attribute) -> Schema
    ensures { result ≡ spec.schema_of kind attribute }
{
    extension_of(attribute).unwrap_or(core_schema(kind))
}
