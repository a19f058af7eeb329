//! When two values of an attribute are the same.
ghost use Rattle.std.specs.Prelude.{◌≡◌};
ghost use Rattle.std.specs.List.{list_any};
ghost use Rattle.scim_cell.specs.SameValues as spec;

use crate::rows::Row;
use scim_schema::{Attribute, Leaf, SubAttribute};

/// Whether two values of the attribute are the same. Members are the same if they have the same
/// `value` or neither has a `value` (RFC 7643 section 4.2). Values of other attributes are the same if
/// their cells are equal. Comparisons of texts are case-sensitive.
pub fn is_same_value(attribute: Attribute, a: &Row, b: &Row) -> bool
    ensures { result ≡ spec.is_same_value attribute a.now b.now }
{
    if attribute != Attribute::Members {
        return a == b;
    }
    let leaf = Leaf::of(Attribute::Members, SubAttribute::Value);
    match (a.get(leaf), b.get(leaf)) {
        (Some(one), Some(other)) => one == other,
        (None, None) => true,
        _ => false,
    }
}

/// Whether the value is a member without a `value` (RFC 7643 section 4.2).
pub fn is_nameless(attribute: Attribute, value: &Row) -> bool
    ensures { result ≡ spec.is_nameless attribute value.now }
{
    attribute == Attribute::Members
        && value
            .get(Leaf::of(Attribute::Members, SubAttribute::Value))
            .is_none()
}

/// Whether one of `values` is the same as `value`. Compares `value` with each of them in turn.
pub(crate) fn has_same_among(attribute: Attribute, values: &[Row], value: &Row) -> bool
    ensures { result ≡ list_any (λ other. spec.is_same_value attribute other value.now) values.now }
{
    for other in values {
        if is_same_value(attribute, other, value) {
            return true;
        }
    }
    false
}
