//! Keys for the look-up of values: two values that are the same have the same key.
ghost use Rattle.std.specs.Prelude.{◌≡◌, IfOk, string_bytes};
ghost use Rattle.scim_cell.specs.code.Keys.{atom_key, field_key, fields_key, key_of};

use crate::atoms::Atom;
use crate::rows::{Field, Row};
use scim_schema::{Attribute, Leaf, SubAttribute};
use scim_text::NoMemory;
use std::alloc::Global;

/// Returns the key of a value. For a member, the key is the text of its `value`; for any other value,
/// the joined texts of all fields. Different values can have the same key.
pub(crate) fn key(alloc: Global, attribute: Attribute, value: &Row) -> Result<String, NoMemory>
    ensures { IfOk result (λ k. string_bytes k ≡ key_of attribute value.now) }
{
    if attribute != Attribute::Members {
        return all_texts(alloc, value.fields());
    }
    match value.get(Leaf::of(Attribute::Members, SubAttribute::Value)) {
        Some(atom) => Ok(String::from_str(alloc, text_of(atom))?),
        None => Ok(String::new(alloc)),
    }
}

/// The text that an atom adds to a key. It is empty for `false`, and for moments, which multi-valued
/// attributes don't contain.
fn text_of(atom: &Atom) -> &str
    ensures { result.now ≡ atom_key atom.now }
{
    match atom {
        Atom::Text(text) => text.as_str(),
        Atom::Truth(true) => "true",
        Atom::Truth(false) | Atom::Moment(_) => "",
    }
}

/// The text that a field adds to a key: the name of the sub-attribute, the length of the atom's text and the
/// atom's text. The length shows where the text ends, so that a client can't give different values the same
/// key by moving text between fields.
#[tactic(auto, unfolding(crate::specs::code::Keys::field_key))]
fn field_text(alloc: Global, field: &Field) -> Result<String, NoMemory>
    ensures { IfOk result (λ k. string_bytes k ≡ field_key field.now) }
{
    let name = match field.leaf.sub_attribute {
        Some(sub_attribute) => sub_attribute.name(),
        None => "",
    };
    let text = text_of(&field.atom);
    let length = text.len();
    Ok(format!(in alloc; "{name} {length} {text}")?)
}

/// The texts that the fields add to a key, joined in order.
fn all_texts(alloc: Global, fields: &[Field]) -> Result<String, NoMemory>
    ensures { IfOk result (λ k. string_bytes k ≡ fields_key fields.now) }
{
    let mut key = String::new(alloc);
    for field in fields {
        key.push_str(field_text(alloc, field)?.as_str())?;
    }
    Ok(key)
}
