//! The printed names of kinds, operations, attributes and sub-attributes, and the comparison of
//! names without regard to ASCII case (RFC 7643 section 2.1).
ghost use Rattle.std.specs.Prelude.{◌≡◌};
ghost use Rattle.scim_schema.specs.Names as names;

use crate::{Attribute, Kind, Op, SubAttribute};

/// Whether two names are equal without regard to ASCII case, as attribute names and URNs are
/// compared (RFC 7643 section 2.1, RFC 8141 section 3).
pub(crate) fn is_same_name(a: &str, b: &str) -> bool
    ensures { result ≡ names.is_same_name a.now b.now }
{
    a.eq_ignore_ascii_case(b)
}

impl Kind {
    /// All kinds of resources.
    pub fn all() -> &'static [Kind]
        ensures { result.now ≡ names.kinds }
    {
        &[Kind::User, Kind::Group]
    }

    /// The name of the resource type, as in `meta.resourceType` (RFC 7643 section 6).
    pub fn name(self) -> &'static str
        ensures { result.now ≡ names.kind_name self }
    {
        match self {
            Kind::User => "User",
            Kind::Group => "Group",
        }
    }

    /// The path of the resources of the kind below the base URL: `/Users` or `/Groups` (RFC 7644
    /// section 3.2).
    pub fn endpoint(self) -> &'static str
        ensures { result.now ≡ names.endpoint self }
    {
        match self {
            Kind::User => "/Users",
            Kind::Group => "/Groups",
        }
    }
}

impl Op {
    /// All operations.
    pub fn all() -> &'static [Op]
        ensures { result.now ≡ names.operations }
    {
        &[Op::Read, Op::Create, Op::Modify, Op::Delete]
    }

    /// The name of the operation, in lower case, as in policy files and audit lines.
    pub fn name(self) -> &'static str
        ensures { result.now ≡ names.op_name self }
    {
        match self {
            Op::Read => "read",
            Op::Create => "create",
            Op::Modify => "modify",
            Op::Delete => "delete",
        }
    }
}

impl Attribute {
    /// The attribute's printed name, such as `userName`.
    pub fn name(self) -> &'static str
        ensures { result.now ≡ names.attribute_name self }
    {
        match self {
            Attribute::Id => "id",
            Attribute::ExternalId => "externalId",
            Attribute::UserName => "userName",
            Attribute::Name => "name",
            Attribute::DisplayName => "displayName",
            Attribute::NickName => "nickName",
            Attribute::ProfileUrl => "profileUrl",
            Attribute::Title => "title",
            Attribute::UserType => "userType",
            Attribute::PreferredLanguage => "preferredLanguage",
            Attribute::Locale => "locale",
            Attribute::Timezone => "timezone",
            Attribute::Active => "active",
            Attribute::Password => "password",
            Attribute::Emails => "emails",
            Attribute::PhoneNumbers => "phoneNumbers",
            Attribute::Ims => "ims",
            Attribute::Photos => "photos",
            Attribute::Addresses => "addresses",
            Attribute::Groups => "groups",
            Attribute::Entitlements => "entitlements",
            Attribute::Roles => "roles",
            Attribute::X509Certificates => "x509Certificates",
            Attribute::EmployeeNumber => "employeeNumber",
            Attribute::CostCenter => "costCenter",
            Attribute::Organization => "organization",
            Attribute::Division => "division",
            Attribute::Department => "department",
            Attribute::Manager => "manager",
            Attribute::Badge => "badge",
            Attribute::Note => "note",
            Attribute::DoorCode => "doorCode",
            Attribute::Members => "members",
            Attribute::Meta => "meta",
        }
    }
}

impl SubAttribute {
    /// The sub-attributes of all attributes.
    #[tactic(auto, unfolding(crate::specs::Names::all_sub_attributes))]
    pub fn all() -> &'static [SubAttribute]
        ensures { result.now ≡ names.all_sub_attributes }
    {
        &[
            SubAttribute::Formatted,
            SubAttribute::FamilyName,
            SubAttribute::GivenName,
            SubAttribute::MiddleName,
            SubAttribute::HonorificPrefix,
            SubAttribute::HonorificSuffix,
            SubAttribute::Value,
            SubAttribute::Reference,
            SubAttribute::Display,
            SubAttribute::TypeName,
            SubAttribute::Primary,
            SubAttribute::StreetAddress,
            SubAttribute::Locality,
            SubAttribute::Region,
            SubAttribute::PostalCode,
            SubAttribute::Country,
            SubAttribute::DisplayName,
            SubAttribute::ResourceType,
            SubAttribute::Created,
            SubAttribute::LastModified,
            SubAttribute::Location,
        ]
    }

    /// The sub-attribute's printed name, such as `givenName`; `$ref` for `Reference` and `type` for
    /// `TypeName`.
    pub fn name(self) -> &'static str
        ensures { result.now ≡ names.sub_attribute_name self }
    {
        match self {
            SubAttribute::Formatted => "formatted",
            SubAttribute::FamilyName => "familyName",
            SubAttribute::GivenName => "givenName",
            SubAttribute::MiddleName => "middleName",
            SubAttribute::HonorificPrefix => "honorificPrefix",
            SubAttribute::HonorificSuffix => "honorificSuffix",
            SubAttribute::Value => "value",
            SubAttribute::Reference => "$ref",
            SubAttribute::Display => "display",
            SubAttribute::TypeName => "type",
            SubAttribute::Primary => "primary",
            SubAttribute::StreetAddress => "streetAddress",
            SubAttribute::Locality => "locality",
            SubAttribute::Region => "region",
            SubAttribute::PostalCode => "postalCode",
            SubAttribute::Country => "country",
            SubAttribute::DisplayName => "displayName",
            SubAttribute::ResourceType => "resourceType",
            SubAttribute::Created => "created",
            SubAttribute::LastModified => "lastModified",
            SubAttribute::Location => "location",
        }
    }
}
