//! The keys of the JSON objects of a resource, in byte order, so that each resource has exactly one
//! JSON text.
ghost use Rattle.std.specs.Prelude.{◌≡◌};
ghost use Rattle.scim_schema.specs.JsonKeys as spec;

use crate::characteristics::{AttributeType, attribute_characteristics};
use crate::schema_urns::Schema;
use crate::{Attribute, Kind, SubAttribute};

/// Who reads the JSON text of a resource: a client or the store. The text for the store has fewer keys.
#[derive(Clone, Copy, PartialEq, Eq)]
pub enum JsonForm {
    /// For a client: all attributes, and `schemas` (RFC 7643 section 3).
    Shown,
    /// For the store: without `schemas`, `meta.location` and `groups`, which the server computes.
    Stored,
}

/// A key of the outermost JSON object that represents a resource or a part of a resource.
#[derive(Clone, Copy, PartialEq, Eq)]
pub enum JsonKey {
    /// The name of an attribute of a core schema.
    Of(Attribute),
    /// `schemas` (RFC 7643 section 3).
    Schemas,
    /// The URN of an extension. The value is an object with the attributes of the extension (RFC
    /// 7643 section 3.3).
    Extension(Schema),
}

/// Whether the JSON value of an attribute is simple, an object or an array of objects.
#[derive(Clone, Copy, PartialEq, Eq)]
pub enum JsonShape {
    /// A value that isn't an object or an array.
    Simple,
    /// An object of sub-attributes (RFC 7643 section 2.3.8).
    Complex,
    /// An array of objects of sub-attributes (RFC 7643 section 2.4).
    MultiValued,
}

static SHOWN_USER_KEYS: [JsonKey; 27] = [
    JsonKey::Of(Attribute::Active),
    JsonKey::Of(Attribute::Addresses),
    JsonKey::Of(Attribute::DisplayName),
    JsonKey::Of(Attribute::Emails),
    JsonKey::Of(Attribute::Entitlements),
    JsonKey::Of(Attribute::ExternalId),
    JsonKey::Of(Attribute::Groups),
    JsonKey::Of(Attribute::Id),
    JsonKey::Of(Attribute::Ims),
    JsonKey::Of(Attribute::Locale),
    JsonKey::Of(Attribute::Meta),
    JsonKey::Of(Attribute::Name),
    JsonKey::Of(Attribute::NickName),
    JsonKey::Of(Attribute::Password),
    JsonKey::Of(Attribute::PhoneNumbers),
    JsonKey::Of(Attribute::Photos),
    JsonKey::Of(Attribute::PreferredLanguage),
    JsonKey::Of(Attribute::ProfileUrl),
    JsonKey::Of(Attribute::Roles),
    JsonKey::Schemas,
    JsonKey::Of(Attribute::Timezone),
    JsonKey::Of(Attribute::Title),
    JsonKey::Extension(Schema::SiteUser),
    JsonKey::Extension(Schema::EnterpriseUser),
    JsonKey::Of(Attribute::UserName),
    JsonKey::Of(Attribute::UserType),
    JsonKey::Of(Attribute::X509Certificates),
];

static STORED_USER_KEYS: [JsonKey; 25] = [
    JsonKey::Of(Attribute::Active),
    JsonKey::Of(Attribute::Addresses),
    JsonKey::Of(Attribute::DisplayName),
    JsonKey::Of(Attribute::Emails),
    JsonKey::Of(Attribute::Entitlements),
    JsonKey::Of(Attribute::ExternalId),
    JsonKey::Of(Attribute::Id),
    JsonKey::Of(Attribute::Ims),
    JsonKey::Of(Attribute::Locale),
    JsonKey::Of(Attribute::Meta),
    JsonKey::Of(Attribute::Name),
    JsonKey::Of(Attribute::NickName),
    JsonKey::Of(Attribute::Password),
    JsonKey::Of(Attribute::PhoneNumbers),
    JsonKey::Of(Attribute::Photos),
    JsonKey::Of(Attribute::PreferredLanguage),
    JsonKey::Of(Attribute::ProfileUrl),
    JsonKey::Of(Attribute::Roles),
    JsonKey::Of(Attribute::Timezone),
    JsonKey::Of(Attribute::Title),
    JsonKey::Extension(Schema::SiteUser),
    JsonKey::Extension(Schema::EnterpriseUser),
    JsonKey::Of(Attribute::UserName),
    JsonKey::Of(Attribute::UserType),
    JsonKey::Of(Attribute::X509Certificates),
];

static SHOWN_GROUP_KEYS: [JsonKey; 6] = [
    JsonKey::Of(Attribute::DisplayName),
    JsonKey::Of(Attribute::ExternalId),
    JsonKey::Of(Attribute::Id),
    JsonKey::Of(Attribute::Members),
    JsonKey::Of(Attribute::Meta),
    JsonKey::Schemas,
];

static STORED_GROUP_KEYS: [JsonKey; 5] = [
    JsonKey::Of(Attribute::DisplayName),
    JsonKey::Of(Attribute::ExternalId),
    JsonKey::Of(Attribute::Id),
    JsonKey::Of(Attribute::Members),
    JsonKey::Of(Attribute::Meta),
];

impl JsonKey {
    /// The text of the key.
    #[tactic(auto, unfolding(crate::specs::JsonKeys::schemas_name))]
    pub fn text(self) -> &'static str
        ensures { result.now ≡ spec.key_text self }
    {
        match self {
            JsonKey::Of(attribute) => attribute.name(),
            JsonKey::Schemas => "schemas",
            JsonKey::Extension(schema) => schema.urn(),
        }
    }
}

/// The keys that the outermost JSON object of a resource of the kind may have, in byte order.
#[tactic(auto, unfolding(crate::specs::JsonKeys::keys))]
pub fn keys(form: JsonForm, kind: Kind) -> &'static [JsonKey]
    ensures { result.now ≡ spec.keys form kind }
{
    match (form, kind) {
        (JsonForm::Shown, Kind::User) => &SHOWN_USER_KEYS,
        (JsonForm::Shown, Kind::Group) => &SHOWN_GROUP_KEYS,
        (JsonForm::Stored, Kind::User) => &STORED_USER_KEYS,
        (JsonForm::Stored, Kind::Group) => &STORED_GROUP_KEYS,
    }
}

/// The attributes that the JSON object of an extension may have, in byte order of their names. Empty
/// for a core schema, because its attributes are keys of the outermost object.
#[tactic(auto, unfolding(crate::specs::JsonKeys::extension_keys))]
pub fn extension_keys(schema: Schema) -> &'static [Attribute]
    ensures { result.now ≡ spec.extension_keys schema }
{
    match schema {
        Schema::User | Schema::Group => &[],
        Schema::EnterpriseUser => &[
            Attribute::CostCenter,
            Attribute::Department,
            Attribute::Division,
            Attribute::EmployeeNumber,
            Attribute::Manager,
            Attribute::Organization,
        ],
        Schema::SiteUser => &[Attribute::Badge, Attribute::DoorCode, Attribute::Note],
    }
}

/// The sub-attributes that a JSON object in the value of the attribute may have, in byte order of
/// their names. Empty for a simple attribute.
#[tactic(auto, unfolding(crate::specs::JsonKeys::ordered_sub_attributes))]
pub fn ordered_sub_attributes(form: JsonForm, attribute: Attribute) -> &'static [SubAttribute]
    ensures { result.now ≡ spec.ordered_sub_attributes form attribute }
{
    match attribute {
        Attribute::Name => &[
            SubAttribute::FamilyName,
            SubAttribute::Formatted,
            SubAttribute::GivenName,
            SubAttribute::HonorificPrefix,
            SubAttribute::HonorificSuffix,
            SubAttribute::MiddleName,
        ],
        Attribute::Addresses => &[
            SubAttribute::Country,
            SubAttribute::Formatted,
            SubAttribute::Locality,
            SubAttribute::PostalCode,
            SubAttribute::Primary,
            SubAttribute::Region,
            SubAttribute::StreetAddress,
            SubAttribute::TypeName,
        ],
        Attribute::Groups | Attribute::Members => &[
            SubAttribute::Reference,
            SubAttribute::Display,
            SubAttribute::TypeName,
            SubAttribute::Value,
        ],
        Attribute::Manager => &[
            SubAttribute::Reference,
            SubAttribute::DisplayName,
            SubAttribute::Value,
        ],
        Attribute::Meta => ordered_meta_sub_attributes(form),
        Attribute::Emails
        | Attribute::PhoneNumbers
        | Attribute::Ims
        | Attribute::Photos
        | Attribute::Entitlements
        | Attribute::Roles
        | Attribute::X509Certificates => &[
            SubAttribute::Display,
            SubAttribute::Primary,
            SubAttribute::TypeName,
            SubAttribute::Value,
        ],
        _ => &[],
    }
}

/// The sub-attributes of `meta`, in byte order of their names. `Stored` leaves out `location`.
fn ordered_meta_sub_attributes(form: JsonForm) -> &'static [SubAttribute]
    ensures { result.now ≡ spec.ordered_meta_sub_attributes form }
{
    match form {
        JsonForm::Shown => &[
            SubAttribute::Created,
            SubAttribute::LastModified,
            SubAttribute::Location,
            SubAttribute::ResourceType,
        ],
        JsonForm::Stored => &[
            SubAttribute::Created,
            SubAttribute::LastModified,
            SubAttribute::ResourceType,
        ],
    }
}

/// Whether the JSON value of the attribute is simple, an object or an array of objects. The answer doesn't
/// depend on the kind of resource.
#[tactic(auto, unfolding(crate::specs::JsonKeys::shape_of))]
pub fn shape_of(attribute: Attribute) -> JsonShape
    ensures { result ≡ spec.shape_of attribute }
{
    let characteristics = attribute_characteristics(Kind::User, attribute);
    if characteristics.multi_valued {
        JsonShape::MultiValued
    } else if characteristics.attribute_type == AttributeType::Complex {
        JsonShape::Complex
    } else {
        JsonShape::Simple
    }
}

/// Lemma: the keys of each object are in strictly ascending byte order, so no key occurs twice.
pub fn keys_ascend()
    ensures part { spec.PartKeysAscend }
    ensures extension { spec.ExtensionKeysAscend }
    ensures sub_attributes { spec.SubAttributesAscend }
{}

/// Lemma: the JSON text for a client has a key for each attribute and sub-attribute. The key of an
/// attribute in the outermost object is the attribute's name, or the URN if an extension defines the
/// attribute. Each sub-attribute is a key of its attribute's object.
pub fn keys_have_all_attributes()
    ensures attributes { spec.AttributesHaveKeys }
    ensures sub_attributes { spec.SubAttributesHaveKeys }
{}
