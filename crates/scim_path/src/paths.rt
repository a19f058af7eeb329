//! The targets of PATCH operations.
use scim_filter_grammar::Filter;
use scim_schema::{Attribute, Schema, SubAttribute};

/// The target of a PATCH operation (RFC 7644 section 3.5.2).
#[derive(Drop)]
pub enum Path {
    /// All attributes of an extension, named by its URN alone.
    Extension(Schema),
    /// An attribute.
    Attribute(Attribute),
    /// A sub-attribute of an attribute, in all values if the attribute is multi-valued.
    SubAttribute(Attribute, SubAttribute),
    /// Those values of a multi-valued attribute that match a filter, or one sub-attribute of these values.
    Values(ValuePath),
}

/// Those values of a multi-valued attribute that match a filter, or one sub-attribute of these values.
#[derive(Drop)]
pub struct ValuePath {
    /// The attribute.
    pub attribute: Attribute,
    /// The value path. `scim_filter::holds_at` evaluates it on a value.
    pub filter: Filter,
    /// The sub-attribute named after the brackets. `None` if the whole values are the target.
    pub sub_attribute: Option<SubAttribute>,
}
