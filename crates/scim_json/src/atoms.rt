//! Makes atoms from JSON values (RFC 7643 section 2.3).
ghost use Rattle.std.specs.Prelude.{◌≡◌, IfOk, option_map, option_and_then};
ghost use Rattle.scim_schema.specs.declared.characteristics.AttributeType.{AttributeType};
ghost use Rattle.scim_cell.specs.declared.atoms.Atom.TheVariants.{Text as text_of, Moment as moment_in};
ghost use Rattle.scim_text.specs.Moments.{moment_of};
ghost use Rattle.scim_json.specs.Found as spec;

use scim_cell::{Atom, Text};
use scim_schema::AttributeType;
use scim_text::{NoMemory, read_printed_moment};
use std::alloc::Global;

/// Makes an atom of the type from a JSON value. `truth` is the value if it is a Boolean, and `text` is
/// the value if it is a string. Returns `None` if the value doesn't have the type (RFC 7643 section 2.3).
/// A dateTime must have the form that [`scim_text::print_moment`] prints.
pub fn atom_of(
    alloc: Global,
    truth: Option<bool>,
    text: Option<&str>,
    attribute_type: AttributeType,
) -> Result<Option<Atom>, NoMemory>
    ensures { IfOk result (λ o. o
        ≡ spec.atom_from attribute_type truth (option_map (λ s. s.now) text.entry)) }
{
    match attribute_type {
        AttributeType::Boolean => Ok(truth.map(Atom::Truth)),
        AttributeType::DateTime => moment_atom(alloc, text),
        AttributeType::String | AttributeType::Reference | AttributeType::Binary => {
            text_atom(alloc, text)
        }
        AttributeType::Complex => Ok(None),
    }
}

/// The moment whose printed form is the text, or `None` if there is no text or no such moment.
fn moment_atom(alloc: Global, text: Option<&str>) -> Result<Option<Atom>, NoMemory>
    ensures { IfOk result
        (λ o. o ≡ option_map moment_in
        (option_and_then moment_of (option_map (λ s. s.now) text.entry))) }
{
    match text {
        Some(text) => Ok(read_printed_moment(alloc, text)?.map(Atom::Moment)),
        None => Ok(None),
    }
}

/// The text as an atom, or `None` if there is no text.
fn text_atom(alloc: Global, text: Option<&str>) -> Result<Option<Atom>, NoMemory>
    ensures { IfOk result (λ o. o ≡ option_map text_of (option_map (λ s. s.now) text.entry)) }
{
    match text {
        Some(text) => Ok(Some(Atom::Text(Text::copy_of(alloc, text)?))),
        None => Ok(None),
    }
}
