//! Cells, and the types of their atoms.
ghost use Rattle.std.specs.Prelude.{◌≡◌, ◌↔◌, IsTrue};
ghost use Rattle.scim_cell.specs.Content.{place_of, HasType};

use crate::atoms::Atom;
use crate::places::Place;
use scim_schema::{AttributeType, Leaf};
use scim_text::Moment;

/// A cell of a part or a resource: an atom, and the leaf and the position where it is.
#[derive(Drop)]
pub struct Cell {
    pub leaf: Leaf,
    /// The index of the value among the values of its attribute; 0 for a single-valued attribute.
    pub position: usize,
    pub atom: Atom,
}

impl Cell {
    /// The place of the cell: its attribute, position and sub-attribute.
    pub fn place(&self) -> Place
        ensures { result ≡ place_of self.now }
    {
        Place {
            attribute: self.leaf.attribute,
            position: self.position,
            sub_attribute: self.leaf.sub_attribute,
        }
    }
}

/// Whether an atom has the type (RFC 7643 section 2.3). A `Moment` has the type dateTime, a `Truth` the
/// type boolean, and a `Text` the types string, reference and binary. No atom is complex.
pub fn has_type(attribute_type: AttributeType, atom: &Atom) -> bool
    ensures { IsTrue result ↔ HasType attribute_type atom.now }
{
    match (attribute_type, atom) {
        (AttributeType::Boolean, Atom::Truth(_)) => true,
        (AttributeType::DateTime, Atom::Moment(moment)) => moment.seconds() <= Moment::LAST as u64,
        (AttributeType::String | AttributeType::Reference | AttributeType::Binary, Atom::Text(_)) =>
            true,
        _ => false,
    }
}
