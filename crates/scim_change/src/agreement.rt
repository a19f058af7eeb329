//! Compares the values that a body gives for a unit with the values that a part has.
ghost use Rattle.std.specs.Prelude.{◌≡◌, IfOk};
ghost use Rattle.scim_change.specs.Agreement as spec;

use scim_body::Draft;
use scim_cell::{Row, with_values};
use scim_schema::{Kind, Mutability, Unit, mutability_of};
use scim_text::NoMemory;
use scim_value::{Part, copy_rows};
use std::alloc::Global;

/// Whether the draft has the same values of `unit` as the part.
/// The part's values are treated like those in a body: equal values count once, and a readOnly unit has no
/// values. False if the unit is writeOnly (RFC 7643 section 2.2) and the body has a value for it, since such
/// values can't be compared.
#[tactic(auto, unfolding(crate::specs::Agreement::agrees))]
pub fn agrees(alloc: Global, draft: &Draft, unit: Unit, part: &Part) -> Result<bool, NoMemory>
    ensures { IfOk result (λ b. b ≡ spec.agrees draft.now unit part.now) }
{
    let kind = draft.kind();
    if mutability_of(kind, unit) == Mutability::WriteOnly && draft.gives(unit) {
        return Ok(false);
    }
    let expected = as_given(alloc, kind, unit, part.values(unit))?;
    Ok(draft.values(unit) == expected.as_slice())
}

/// Returns the values of `unit` that would be read from a body with `values`.
/// Each distinct value is returned once. A readOnly unit has no values in a body (RFC 7643 section 2.2).
fn as_given(alloc: Global, kind: Kind, unit: Unit, values: &[Row]) -> Result<Vec<Row>, NoMemory>
    ensures { IfOk result (λ v. v.items ≡ spec.as_given kind unit values.now) }
{
    if mutability_of(kind, unit) == Mutability::ReadOnly {
        return Ok(Vec::new(alloc));
    }
    let copies = copy_rows(alloc, values)?;
    with_values(alloc, unit.attribute, Vec::new(alloc), copies)
}
