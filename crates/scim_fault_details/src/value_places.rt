//! Places in the stored document of a resource, and the form of the values there.
use scim_schema::{Attribute, AttributeType, SubAttribute};
use std::fmt;

/// A value in a stored document: that of an attribute, or of a sub-attribute in one of its values.
#[derive(Clone, Copy)]
pub(crate) struct ValuePlace {
    attribute: Attribute,
    /// The number of the value in the list, from 1, if it is in a list.
    number: Option<usize>,
    sub_attribute: Option<SubAttribute>,
}

impl ValuePlace {
    /// The whole value of an attribute.
    pub(crate) fn of(attribute: Attribute) -> ValuePlace {
        ValuePlace {
            attribute,
            number: None,
            sub_attribute: None,
        }
    }

    /// The value with this number, from 1, of a multi-valued attribute.
    pub(crate) fn item(attribute: Attribute, number: usize) -> ValuePlace {
        ValuePlace {
            attribute,
            number: Some(number),
            sub_attribute: None,
        }
    }

    /// A sub-attribute of the value at this place.
    pub(crate) fn within(self, sub_attribute: SubAttribute) -> ValuePlace {
        ValuePlace {
            attribute: self.attribute,
            number: self.number,
            sub_attribute: Some(sub_attribute),
        }
    }
}

/// For example `"title"`, `"name.familyName"` or `value 2 of "emails.type"`.
impl fmt::Display for ValuePlace {
    fn fmt<W: fmt::Write>(&self, f: &mut fmt::Formatter<W>) -> fmt::Result {
        if let Some(number) = self.number {
            write!(f, "value {number} of ")?;
        }
        let name = self.attribute.name();
        match self.sub_attribute {
            Some(sub_attribute) => write!(f, "\"{name}.{}\"", sub_attribute.name()),
            None => write!(f, "\"{name}\""),
        }
    }
}

/// What a value has to be.
#[derive(Clone, Copy)]
pub(crate) enum ValueForm {
    Text,
    Boolean,
    Moment,
    Object,
    List,
}

impl ValueForm {
    /// What a value of this type has to be.
    pub(crate) fn of(attribute_type: AttributeType) -> ValueForm {
        match attribute_type {
            AttributeType::String | AttributeType::Reference | AttributeType::Binary => {
                ValueForm::Text
            }
            AttributeType::Boolean => ValueForm::Boolean,
            AttributeType::DateTime => ValueForm::Moment,
            AttributeType::Complex => ValueForm::Object,
        }
    }
}

impl fmt::Display for ValueForm {
    fn fmt<W: fmt::Write>(&self, f: &mut fmt::Formatter<W>) -> fmt::Result {
        f.write_str(match self {
            ValueForm::Text => "string",
            ValueForm::Boolean => "boolean",
            ValueForm::Moment => "moment such as 2024-06-01T12:00:00Z",
            ValueForm::Object => "object",
            ValueForm::List => "list",
        })
    }
}
