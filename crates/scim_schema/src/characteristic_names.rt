//! The names of characteristics, as the schema resources print them (RFC 7643 section 7).
ghost use Rattle.std.specs.Prelude.{◌≡◌};
ghost use Rattle.scim_schema.specs.CharacteristicNames as names;

use crate::characteristics::{AttributeType, Mutability, Returned, Uniqueness};

impl AttributeType {
    /// The name of the type, such as `dateTime`.
    pub fn name(self) -> &'static str
        ensures { result.now ≡ names.type_name self }
    {
        match self {
            AttributeType::String => "string",
            AttributeType::Boolean => "boolean",
            AttributeType::DateTime => "dateTime",
            AttributeType::Reference => "reference",
            AttributeType::Binary => "binary",
            AttributeType::Complex => "complex",
        }
    }
}

impl Mutability {
    /// The name of the mutability, such as `readOnly`.
    pub fn name(self) -> &'static str
        ensures { result.now ≡ names.mutability_name self }
    {
        match self {
            Mutability::ReadOnly => "readOnly",
            Mutability::ReadWrite => "readWrite",
            Mutability::Immutable => "immutable",
            Mutability::WriteOnly => "writeOnly",
        }
    }
}

impl Returned {
    /// The name of the characteristic `returned`, such as `always`.
    pub fn name(self) -> &'static str
        ensures { result.now ≡ names.returned_name self }
    {
        match self {
            Returned::Always => "always",
            Returned::Never => "never",
            Returned::Default => "default",
            Returned::Request => "request",
        }
    }
}

impl Uniqueness {
    /// The name of the uniqueness: `none` or `server`.
    pub fn name(self) -> &'static str
        ensures { result.now ≡ names.uniqueness_name self }
    {
        match self {
            Uniqueness::NotUnique => "none",
            Uniqueness::Server => "server",
        }
    }
}
