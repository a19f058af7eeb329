//! The units that a patch names, and whether the patch changes their values.
ghost use Rattle.std.specs.Prelude.{◌≡◌, AllPairs, IfOk, map, filter};
ghost use Rattle.std.specs.List.{flat_map, list_any};
ghost use Rattle.scim_cell.specs.Rows.{Precedes, is_primary, rows};
ghost use Rattle.scim_patch_steps.specs.Changes.{change_of};
ghost use Rattle.scim_patch_steps.specs.Patch as spec;
ghost use Rattle.scim_patch_steps.specs.Kept.{patch_of, step_of};
ghost use Rattle.scim_patch_steps.specs.code.Lengths as lengths;
ghost use Rattle.scim_patch_steps.specs.code.Before.{IsBefore, IsInOrder, tells};
ghost use Rattle.scim_patch_steps.specs.code.Touched.{PassTheSame, is_about, is_other, rows_about};

use crate::changes::StepChange;
use crate::patches::{Patch, Step};
use scim_cell::Row;
use scim_schema::{Kind, Mutability, Unit, mutability_of};
use scim_text::{NoMemory, push};
use scim_value::{Part, values_among};
use std::alloc::Global;

/// The data that is recorded before a patch, to detect afterwards whether the values of the resource changed.
#[derive(Drop)]
pub(crate) enum Before {
    /// The only unit of the patch and the number of its values. Used if the number of values afterwards shows
    /// whether the values changed.
    Number(Unit, usize),
    /// The units that the patch names, each once, and copies of their rows.
    Rows(Vec<Unit>, Vec<Row>),
}

impl Patch {
    /// Returns the unit of each step, in the order of the steps. A step without a path has no unit.
    pub fn touched(&self, alloc: Global) -> Result<Vec<Unit>, NoMemory>
        ensures { IfOk result (λ v. v.items ≡ spec.touched (patch_of self.now)) }
    {
        units_of(alloc, self.steps())
    }
}

/// Returns the unit of each step, in the order of the steps. A step without a path has no unit.
fn units_of(alloc: Global, steps: &[Step]) -> Result<Vec<Unit>, NoMemory>
    ensures { IfOk result (λ v. v.items ≡ flat_map spec.units_in (map step_of steps.now)) }
{
    let mut units = Vec::new(alloc);
    for step in steps {
        if let Step::Of(unit, _) = step {
            push(&mut units, *unit)?;
        }
    }
    Ok(units)
}

/// Whether the unit is one of `units`.
fn is_one_of(units: &[Unit], unit: Unit) -> bool
    ensures { result ≡ is_about units.now unit }
{
    units.iter().any(|other| unit == *other)
}

/// Returns the units that the patch names, each once.
fn distinct_units(alloc: Global, patch: &Patch) -> Result<Vec<Unit>, NoMemory>
    ensures { IfOk result (λ v. PassTheSame v.items (spec.touched (patch_of patch.now))) }
{
    let units = patch.touched(alloc)?;
    let mut distinct = Vec::new(alloc);
    for unit in &units {
        if !is_one_of(distinct.as_slice(), *unit) {
            push(&mut distinct, *unit)?;
        }
    }
    Ok(distinct)
}

/// Copies the rows of `part` that belong to one of `units`.
fn rows_of(alloc: Global, units: &[Unit], part: &Part) -> Result<Vec<Row>, NoMemory>
    ensures rows { IfOk result (λ v. v.items ≡ rows_about units.now (rows part.now)) }
    ensures sorted { IfOk result (λ v. AllPairs (λ r s. Precedes r.unit s.unit) v.items) }
{
    let mut copies = Vec::new(alloc);
    for row in part.rows() {
        if is_one_of(units, row.unit()) {
            push(&mut copies, row.try_copy(alloc)?)?;
        }
    }
    Ok(copies)
}

/// Returns the data of a part to record before the patch, to detect changes.
/// This is the number of values if the patch is a single step that only removes values, or only appends
/// values none of which is primary; otherwise the units that the patch names and copies of their rows.
pub(crate) fn before_of(alloc: Global, patch: &Patch, part: &Part) -> Result<Before, NoMemory>
    ensures { IfOk result (IsBefore (patch_of patch.now) (rows part.now)) }
{
    match unit_told_by_length(patch.steps()) {
        Some(unit) => Ok(Before::Number(unit, part.values(unit).len())),
        None => {
            let units = distinct_units(alloc, patch)?;
            let rows = rows_of(alloc, units.as_slice(), part)?;
            Ok(Before::Rows(units, rows))
        }
    }
}

/// Whether the change counts as writing to its unit. Every change does, except [`StepChange::Keep`].
fn writes(change: &StepChange) -> bool
    ensures { result ≡ spec.writes (change_of change.now) }
{
    match change {
        StepChange::Keep => false,
        _ => true,
    }
}

/// Whether the step writes to a writeOnly unit, which no client may read.
fn is_unseen_writing(kind: Kind, step: &Step) -> bool
    ensures { result ≡ spec.is_unseen_writing kind (step_of step.now) }
{
    match step {
        Step::Pathless => false,
        Step::Of(unit, change) => {
            mutability_of(kind, *unit) == Mutability::WriteOnly && writes(change)
        }
    }
}

/// Whether any of the steps writes to a writeOnly unit.
fn is_any_unseen_writing(kind: Kind, steps: &[Step]) -> bool
    ensures { result ≡ list_any (spec.is_unseen_writing kind) (map step_of steps.now) }
{
    for step in steps {
        if is_unseen_writing(kind, step) {
            return true;
        }
    }
    false
}

/// Whether `before` and `part` have different values of at least one of the units.
fn is_any_other(units: &[Unit], before: &[Row], part: &Part) -> bool
    requires { AllPairs (λ r s. Precedes r.unit s.unit) before.now }
    ensures { result ≡ list_any (is_other before.now (rows part.now)) units.now }
{
    for unit in units {
        if values_among(before, *unit) != part.values(*unit) {
            return true;
        }
    }
    false
}

/// Whether any of the values is marked as primary.
fn has_primary(values: &[Row]) -> bool
    ensures { result ≡ list_any is_primary values.now }
{
    values.iter().any(|value| value.is_primary())
}

/// Whether the number of values after the change shows whether the change had an effect.
/// This is so if the change does nothing, only removes values, or only appends values none of which is
/// primary.
fn is_told_by_length(change: &StepChange) -> bool
    ensures { result ≡ lengths.is_told_by_length (change_of change.now) }
{
    match change {
        StepChange::Keep
        | StepChange::KeepMatches(_)
        | StepChange::KeepSubAttribute(_)
        | StepChange::Clear
        | StepChange::RemoveListed(_)
        | StepChange::RemoveMatches(_) => true,
        StepChange::Append(given) => !has_primary(given.as_slice()),
        _ => false,
    }
}

/// Returns the unit of the only step. `None` if there isn't exactly one step, the step has no path, or the
/// number of values after the step doesn't show whether the values changed.
fn unit_told_by_length(steps: &[Step]) -> Option<Unit>
    ensures { result ≡ lengths.unit_told_among (map step_of steps.now) }
{
    match steps {
        [Step::Of(unit, change)] if is_told_by_length(change) => Some(*unit),
        _ => None,
    }
}

/// Whether the patch changed something. `before` was recorded before the patch, and `part` is the result of
/// the patch.
pub(crate) fn is_changed(before: &Before, patch: &Patch, part: &Part) -> bool
    requires { IsInOrder before.now }
    ensures { result ≡ tells (patch_of patch.now) (rows part.now) before.now }
{
    let is_other = match before {
        Before::Number(unit, number) => part.values(*unit).len() != *number,
        Before::Rows(units, before) => is_any_other(units.as_slice(), before.as_slice(), part),
    };
    is_any_unseen_writing(patch.kind(), patch.steps()) || is_other
}
