//! The edits that a change makes to the tables.

use scim_cell::Text;
use scim_schema::Kind;
use scim_value::UniqueName;

/// What happens to the row of a user's door code.
pub(crate) enum SecretEdit {
    /// There is no row, or the row stays.
    Stays,
    /// The row is removed.
    Goes,
    /// A row with this door code is added. There was none.
    Comes(String),
    /// The row is replaced by one with this door code.
    Becomes(String),
}

impl Drop for SecretEdit {
    fn drop(self) {
        match self {
            SecretEdit::Stays | SecretEdit::Goes => (),
            SecretEdit::Comes(_code) => (),
            SecretEdit::Becomes(_code) => (),
        }
    }
}

/// The rows that the change of one resource removes from the tables and adds to them.
pub(crate) struct Edits {
    /// The text of the resource's id.
    pub id: Text,
    /// The resource's kind.
    pub kind: Kind,
    /// The new document, without the door code; `None` if the resource is removed.
    pub document: Option<String>,
    /// The unique names to remove, which only the old resource has.
    pub names_gone: Vec<UniqueName>,
    /// The unique names to add, which only the new resource has.
    pub names_come: Vec<UniqueName>,
    /// The member values to remove, which only the old resource lists.
    pub members_gone: Vec<Text>,
    /// The member values to add, which only the new resource lists, each once.
    pub members_come: Vec<Text>,
    /// What happens to the door code.
    pub secret: SecretEdit,
}

impl Drop for Edits {
    fn drop(self) {
        let Edits {
            id: _id,
            kind: _kind,
            document: _document,
            names_gone: _names_gone,
            names_come: _names_come,
            members_gone: _members_gone,
            members_come: _members_come,
            secret: _secret,
        } = self;
    }
}
