//! Finds missing required attributes (RFC 7643 section 2.2).
ghost use Rattle.std.specs.Prelude.{◌≡◌};
ghost use Rattle.std.specs.List.{list_any};
ghost use denote.Enum.Bare.{sameb};
ghost use Rattle.scim_schema.specs.contracts.Attribute.{the_type as the_attribute};
ghost use Rattle.scim_body.specs.Drafts as drafts;

use scim_cell::Row;
use scim_schema::{Attribute, Kind, attribute_characteristics, attributes};

/// Whether `rows` lack an attribute that the kind requires.
#[tactic(auto, unfolding(crate::specs::Drafts::lacks_required))]
pub fn lacks_required(kind: Kind, rows: &[Row]) -> bool
    ensures { result ≡ drafts.lacks_required kind rows.now }
{
    attributes(kind)
        .iter()
        .any(|attribute| is_missing(kind, rows, *attribute))
}

/// Whether the kind requires `attribute` and no row has it.
fn is_missing(kind: Kind, rows: &[Row], attribute: Attribute) -> bool
    ensures { result ≡ drafts.is_missing kind rows.now attribute }
{
    attribute_characteristics(kind, attribute).required && !has_attribute(rows, attribute)
}

/// Whether any of `rows` is a value of `attribute`.
fn has_attribute(rows: &[Row], attribute: Attribute) -> bool
    ensures { result ≡ list_any (λ r. sameb the_attribute r.unit.attribute attribute) rows.now }
{
    for row in rows {
        if row.unit().attribute == attribute {
            return true;
        }
    }
    false
}
