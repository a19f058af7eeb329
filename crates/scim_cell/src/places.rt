//! The places of cells, and the order of places and units.
ghost use Rattle.std.specs.Prelude.{◌≡◌};
ghost use Rattle.scim_cell.specs.Place.{place_cmp, unit_cmp, sub_attribute_number, leaf_of};
ghost use Rattle.scim_cell.specs.Place as spec;

use scim_schema::{Attribute, Leaf, SubAttribute, Unit, sub_attributes};
use std::cmp::Ordering;

/// The place of a cell: an attribute, the index of one of its values, and a sub-attribute of that
/// value.
#[derive(Clone, Copy)]
pub struct Place {
    pub attribute: Attribute,
    pub position: usize,
    pub sub_attribute: Option<SubAttribute>,
}

impl Place {
    /// The leaf of a cell at this place.
    pub fn leaf(self) -> Leaf
        ensures { result ≡ leaf_of self }
    {
        Leaf {
            attribute: self.attribute,
            sub_attribute: self.sub_attribute,
        }
    }

    /// Compares places by attribute, then by position, then by sub-attribute.
    pub fn compare(self, other: Place) -> Ordering
        ensures { result ≡ place_cmp self other }
    {
        let by_attribute = (self.attribute as u8).cmp(&(other.attribute as u8));
        let by_position = self.position.cmp(&other.position);
        let by_sub_attribute = number_of(self.sub_attribute).cmp(&number_of(other.sub_attribute));
        by_attribute.then(by_position.then(by_sub_attribute))
    }
}

/// Compares units by attribute, then by sub-attribute.
pub fn compare_units(a: Unit, b: Unit) -> Ordering
    ensures { result ≡ unit_cmp a b }
{
    let by_attribute = (a.attribute as u8).cmp(&(b.attribute as u8));
    by_attribute.then(number_of(a.sub_attribute).cmp(&number_of(b.sub_attribute)))
}

/// The rank of a sub-attribute in the order of places; 0 for `None`.
pub(crate) fn number_of(sub_attribute: Option<SubAttribute>) -> u8
    ensures { result ≡ sub_attribute_number sub_attribute }
{
    match sub_attribute {
        None => 0,
        Some(sub_attribute) => sub_attribute as u8 + 1,
    }
}

/// The sub-attributes of an attribute, in the order in which [`Place::compare`] sorts the cells of one
/// value. Empty for a simple attribute.
#[tactic(auto, unfolding(crate::specs::Place::sub_attributes_by_place))]
pub fn sub_attributes_by_place(attribute: Attribute) -> &'static [SubAttribute]
    ensures { result.now ≡ spec.sub_attributes_by_place attribute }
{
    match attribute {
        Attribute::Addresses => &[
            SubAttribute::Formatted,
            SubAttribute::TypeName,
            SubAttribute::Primary,
            SubAttribute::StreetAddress,
            SubAttribute::Locality,
            SubAttribute::Region,
            SubAttribute::PostalCode,
            SubAttribute::Country,
        ],
        Attribute::Members => &[
            SubAttribute::Value,
            SubAttribute::Reference,
            SubAttribute::Display,
            SubAttribute::TypeName,
        ],
        _ => sub_attributes(attribute),
    }
}
