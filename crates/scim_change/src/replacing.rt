//! Replaces a resource's values by the values that a body gives (RFC 7644 section 3.5.1).
ghost use Rattle.std.specs.Prelude.{◌≡◌, ◌≤◌, List, ℕ, All, Some, None, false, IfOk};
ghost use Rattle.scim_text.specs.Failures.{OnFault};
ghost use Rattle.scim_text.specs.Moments.{last_moment};
ghost use Rattle.scim_schema.specs.Mutability as written;
ghost use Rattle.scim_cell.specs.Rows.{AreSound, content, put_values, rows, values};
ghost use Rattle.scim_value.specs.Resource.{HasBase};
ghost use Rattle.scim_body.specs.Drafts.{IsDraft};
ghost use Rattle.scim_change.specs.Replace as spec;

use crate::creating::moment_row;
use scim_body::{Draft, lacks_required};
use scim_cell::Row;
use scim_schema::{Attribute, Leaf, Mutability, SubAttribute, Unit, mutability_of, unit_of};
use scim_text::{Failed, Moment, NoMemory, push};
use scim_value::{Part, Resource, copy_rows, values_among};
use std::alloc::Global;
use thiserror::Error;

/// A resource after a change, and whether the change had any effect on it.
#[derive(Drop)]
pub struct Changed {
    pub resource: Resource,
    pub changed: bool,
}

/// The fault of a change that would leave a required attribute without a value.
/// It is reported as invalidValue (RFC 7644 section 3.12).
#[derive(Clone, Copy, Debug, PartialEq, Eq, Error)]
#[error("a required attribute would be missing")]
pub struct MissingRequired;

/// Replaces the resource's values of `units` by the draft's values (RFC 7644 section 3.5.1).
/// A unit without a value in the draft is cleared. A writeOnly unit for which the body has no value keeps its
/// value instead, since a client that can't read it can't give it again. Other units keep their values, but
/// `meta.lastModified` becomes `moment`. If the draft has the same values of `units` as the resource, and its
/// body had no value for a writeOnly unit among them, the resource is returned unchanged, including
/// `meta.lastModified`.
///
/// The draft must be of the resource's kind, and none of the units may be readOnly. Fails with
/// `MissingRequired` if an attribute that the kind requires would be missing. On an error the resource is
/// dropped.
pub fn replace(
    alloc: Global,
    resource: Resource,
    draft: &Draft,
    units: &[Unit],
    moment: Moment,
) -> Result<Changed, Failed<MissingRequired>>
    requires kind { draft.now.kind ≡ resource.kind }
    requires writable { All (λ u. written.is_fixed resource.kind u ≡ false) units.now }
    ensures value { IfOk result (λ c. spec.replaced draft.now units.now moment resource
        ≡ Some c.resource) }
    ensures changed { IfOk result (λ c. c.changed
        ≡ spec.changes draft.now units.now (rows resource)) }
    ensures missing { OnFault result (spec.replaced draft.now units.now moment resource ≡ None) }
    ensures base { (base : List ℕ) → HasBase base resource
        → IfOk result (λ c. HasBase base c.resource) }
{
    if !changes(draft, units, resource.part()) {
        return Ok(Changed {
            resource,
            changed: false,
        });
    }
    let part = with_units(alloc, resource.into_part(), draft, units)?;
    if lacks_required(part.kind(), part.rows()) {
        return Err(Failed::Because(MissingRequired));
    }
    let part = modified_at(alloc, part, moment)?;
    Ok(Changed {
        resource: Resource::of_whole(part),
        changed: true,
    })
}

/// Whether the draft changes one of the units of the part.
fn changes(draft: &Draft, units: &[Unit], part: &Part) -> bool
    ensures { result ≡ spec.changes draft.now units.now (rows part.now) }
{
    for unit in units {
        if changes_unit(draft, part, *unit) {
            return true;
        }
    }
    false
}

/// Whether the draft changes the unit: the draft and the part have different values of it, or, if the unit is
/// writeOnly, the body has a value for it.
fn changes_unit(draft: &Draft, part: &Part, unit: Unit) -> bool
    ensures { result ≡ spec.changes_unit draft.now (rows part.now) unit }
{
    if mutability_of(draft.kind(), unit) == Mutability::WriteOnly {
        return draft.gives(unit);
    }
    part.values(unit) != draft.values(unit)
}

/// Whether the draft replaces the values of the unit: a writeOnly unit keeps its values unless the body has a
/// value for it.
fn takes(draft: &Draft, unit: Unit) -> bool
    ensures { result ≡ spec.takes draft.now unit }
{
    draft.gives(unit) || mutability_of(draft.kind(), unit) != Mutability::WriteOnly
}

/// Returns the part with its values of those of `units` that the draft replaces replaced by the draft's values.
fn with_units(
    alloc: Global,
    mut part: Part,
    draft: &Draft,
    units: &[Unit],
) -> Result<Part, NoMemory>
    requires { draft.now.kind ≡ part.kind }
    ensures rows { IfOk result (λ p. rows p ≡ spec.with_units draft.now
        (spec.taken draft.now units.now) (rows part)) }
    ensures kind { IfOk result (λ p. p.kind ≡ part.kind) }
    ensures id { IfOk result (λ p. p.id ≡ part.id) }
    ensures valid { IfOk result (λ p. IsDraft draft.now) }
{
    // This call lets the proof use that the draft is valid.
    let given = draft.rows();
    for unit in units {
        if takes(draft, *unit) {
            part = put_given(alloc, part, given, *unit)?;
        }
    }
    Ok(part)
}

/// Returns the part with its values of the unit replaced by the values of the unit in `given`.
fn put_given(alloc: Global, part: Part, given: &[Row], unit: Unit) -> Result<Part, NoMemory>
    requires { AreSound part.kind given.now }
    ensures rows { IfOk result (λ p. rows p ≡ put_values unit (values unit given.now) (rows part)) }
    ensures kind { IfOk result (λ p. p.kind ≡ part.kind) }
    ensures id { IfOk result (λ p. p.id ≡ part.id) }
{
    let values = copy_rows(alloc, values_among(given, unit))?;
    part.put(unit, values)
}

/// Returns the part with `meta.lastModified` set to `moment` (RFC 7643 section 3.1).
pub fn modified_at(alloc: Global, part: Part, moment: Moment) -> Result<Part, NoMemory>
    ensures whole { IfOk result (λ p. p
        ≡ content part.kind part.id (spec.modified_at moment (rows part))) }
    ensures bound { IfOk result (λ p. moment ≤ last_moment) }
{
    let mut values = Vec::with_capacity(alloc, 1)?;
    let last_modified = moment_row(alloc, SubAttribute::LastModified, moment)?;
    push(&mut values, last_modified)?;
    let leaf = Leaf::of(Attribute::Meta, SubAttribute::LastModified);
    part.put(unit_of(leaf), values)
}
