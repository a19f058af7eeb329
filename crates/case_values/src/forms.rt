//! The JSON values of a case.

/// The type of a JSON value.
#[derive(Clone, Copy)]
pub enum Form {
    /// A string.
    Text,
    /// An integer that fits in 64 bits.
    Number(i64),
    /// True or false.
    Truth(bool),
    /// An array.
    List,
    /// An object.
    Object,
    /// Null, or any other number.
    Other,
}

/// A JSON value of a case: the case itself, or an argument, item or member at any depth.
///
/// It is a separate type so that the crates of calls don't depend on a JSON parser.
pub struct Argument {
    /// Its name if it is a member of an object, and empty otherwise.
    pub name: String,
    /// Its text if it is a string, otherwise its JSON without spaces.
    pub text: String,
    /// Its type.
    pub form: Form,
    /// The index of its first item or member in the list of all values of the case.
    pub first: usize,
    /// The number of its items or members.
    pub count: usize,
}

impl Drop for Argument {
    fn drop(self) {
        let Argument {
            name: _name,
            text: _text,
            form: _form,
            first: _first,
            count: _count,
        } = self;
    }
}

impl Argument {
    /// Returns its text, or `None` if it isn't a string.
    pub fn as_str(&self) -> Option<&str> {
        match self.form {
            Form::Text => Some(self.text.as_str()),
            _ => None,
        }
    }
}
