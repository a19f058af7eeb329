//! JSON trees with borrowed texts.
ghost use Rattle.std.specs.Prelude.{◌≡◌, option_map, option_and_then};
ghost use Rattle.serde_json.specs.Find.{as_bool, as_number, as_str, as_array, as_object, as_i64};
ghost use Rattle.scim_body.specs.View.{view, items_view, members_view};

use serde_json::Number;

/// A key of an object and its value.
pub type Member<'a> = (&'a str, Tree<'a>);

/// A JSON value (RFC 8259) whose texts and keys are borrowed from the text it was read from.
///
/// An object has each key once, in byte order; if the text repeats a key, the last value counts.
#[derive(Drop)]
pub enum Tree<'a> {
    Null,
    Bool(bool),
    Number(Number),
    String(&'a str),
    Array(Vec<Tree<'a>>),
    Object(Vec<(&'a str, Tree<'a>)>),
}

impl<'a> Tree<'a> {
    /// The boolean, if the value is one.
    pub fn as_bool(&self) -> Option<bool>
        ensures { result ≡ as_bool (view self.now) }
    {
        if let Tree::Bool(truth) = self {
            Some(*truth)
        } else {
            None
        }
    }

    /// The integer, if the value is one and fits in a signed 64-bit integer.
    pub fn as_i64(&self) -> Option<i64>
        ensures { result ≡ option_and_then as_i64 (as_number (view self.now)) }
    {
        if let Tree::Number(number) = self {
            number.as_i64()
        } else {
            None
        }
    }

    /// The text, if the value is one.
    pub fn as_str(&self) -> Option<&'a str>
        ensures { option_map (λ s. s.now) result ≡ as_str (view self.now) }
    {
        if let Tree::String(text) = self {
            Some(*text)
        } else {
            None
        }
    }

    /// The items, if the value is an array.
    pub fn as_array(&self) -> Option<&[Tree<'a>]>
        ensures { option_map (λ v. items_view v.now) result ≡ as_array (view self.now) }
    {
        if let Tree::Array(items) = self {
            Some(items.as_slice())
        } else {
            None
        }
    }

    /// The members, if the value is an object.
    pub fn as_object(&self) -> Option<&[Member<'a>]>
        ensures { option_map (λ v. members_view v.now) result ≡ as_object (view self.now) }
    {
        if let Tree::Object(members) = self {
            Some(members.as_slice())
        } else {
            None
        }
    }
}
