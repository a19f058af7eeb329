//! Why a JSON value isn't the stored document of a resource.
use crate::nearest::Suggestion;
use crate::one_line::Short;
use crate::value_places::{ValueForm, ValuePlace};
use scim_schema::{Attribute, Kind, LONGEST_VALUE, MOST_VALUES, Schema};
use std::fmt;

/// What to do with a file that has `schemas`.
const FOREIGN: &str = "a file of another server? import it with --foreign";

/// Why a JSON value isn't the stored document of a resource.
#[derive(Clone, Copy)]
pub(crate) enum DocumentDetail<'v> {
    /// It isn't an object.
    NoObject,
    /// It has the key `schemas`, as resources have that clients are shown.
    Schemas,
    /// An object in it has an unknown key. The nearest known one stands beside it.
    UnknownKey(&'v str, KeyPlace, Option<&'static str>),
    /// There is no value at this place.
    Missing(ValuePlace),
    /// The value at this place has another type.
    OtherType(ValuePlace, ValueForm),
    /// The text, the list or the object at this place is empty.
    Empty(ValuePlace),
    /// The text at this place is too long.
    TooLong(ValuePlace),
    /// The attribute has too many values.
    TooMany(Attribute),
    /// More than one value of the attribute is primary.
    TwoPrimary(Attribute),
    /// `id` isn't the text of an id.
    NoId,
    /// `meta.resourceType` isn't the name of a type.
    NoKind,
    /// The object of an extension isn't one, or is empty.
    NoExtension(Schema),
}

/// The object that has a key.
#[derive(Clone, Copy)]
pub(crate) enum KeyPlace {
    /// The document of a resource of this kind.
    Document(Kind),
    /// The object of an extension.
    Extension(Schema),
    /// A value of a complex attribute.
    Value(ValuePlace),
}

impl fmt::Display for KeyPlace {
    fn fmt<W: fmt::Write>(&self, f: &mut fmt::Formatter<W>) -> fmt::Result {
        match self {
            KeyPlace::Document(Kind::User) => f.write_str("a stored user"),
            KeyPlace::Document(Kind::Group) => f.write_str("a stored group"),
            KeyPlace::Extension(schema) => write!(f, "\"{}\"", schema.urn()),
            KeyPlace::Value(place) => write!(f, "{place}"),
        }
    }
}

impl fmt::Display for DocumentDetail<'_> {
    fn fmt<W: fmt::Write>(&self, f: &mut fmt::Formatter<W>) -> fmt::Result {
        match self {
            DocumentDetail::NoObject => f.write_str("the item is no JSON object"),
            DocumentDetail::Schemas => {
                write!(f, "\"schemas\" is no key of a stored resource ({FOREIGN})")
            }
            DocumentDetail::UnknownKey(key, place, near) => write!(
                f,
                "\"{}\" is no key of {place}{}",
                Short(key),
                Suggestion(near)
            ),
            DocumentDetail::Missing(place) => write!(f, "{place} is missing"),
            DocumentDetail::OtherType(place, form) => write!(f, "{place} is no {form}"),
            DocumentDetail::Empty(place) => write!(f, "{place} is empty"),
            DocumentDetail::TooLong(place) => {
                write!(f, "{place} has more than {LONGEST_VALUE} bytes")
            }
            DocumentDetail::TooMany(attribute) => {
                write!(
                    f,
                    "\"{}\" has more than {MOST_VALUES} values",
                    attribute.name()
                )
            }
            DocumentDetail::TwoPrimary(attribute) => {
                write!(
                    f,
                    "more than one value of \"{}\" is primary",
                    attribute.name()
                )
            }
            DocumentDetail::NoId => f.write_str(
                "\"id\" is no UUID such as 00000000-0000-4000-8000-00000000000a, in lower case",
            ),
            DocumentDetail::NoKind => {
                f.write_str("\"meta.resourceType\" is neither \"User\" nor \"Group\"")
            }
            DocumentDetail::NoExtension(schema) => {
                write!(f, "\"{}\" is no object with an attribute", schema.urn())
            }
        }
    }
}
