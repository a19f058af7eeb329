//! Applies the steps of a patch to a resource, one after another.
ghost use Rattle.std.specs.Prelude.{◌≡◌, List, ℕ, Ok, IfOk, OnOk, map, All};
ghost use Rattle.scim_text.specs.Failures.{UnlessMemory};
ghost use Rattle.scim_cell.specs.Rows.{rows};
ghost use Rattle.scim_value.specs.Resource.{HasBase};
ghost use Rattle.scim_patch_steps.specs.Patch as spec;
ghost use Rattle.scim_patch_steps.specs.Kept.{outcome, patch_of, step_of};
ghost use Rattle.scim_patch_steps.specs.code.Groups.{AreGroups, AreOfResource, joined, left_in};
ghost use Rattle.scim_patch_steps.specs.code.Outcomes.{rows_left};

use crate::patches::{Patch, Step};
use crate::steps::{StepFault, values_after};
use crate::touched_units::{before_of, is_changed};
use crate::unit_rows::{UnitRows, grouped, insert, joined, taken};
use crate::work::is_within_limit;
use scim_change::{Changed, modified_at};
use scim_schema::Kind;
use scim_text::{Failed, Moment};
use scim_value::{Part, Resource};
use std::alloc::Global;

/// Applies one step to the rows of a resource.
///
/// Fails with `NoTarget` if the step has no path or its path has no target, with `Mutability` if no client
/// may make the change, and with `Value` if the values after it would be invalid; see [`values_after`]. On an
/// error the groups may lack the values of the step's unit.
fn stepped(
    alloc: Global,
    kind: Kind,
    groups: &mut Vec<UnitRows>,
    step: &Step,
) -> Result<(), Failed<StepFault>>
    requires step { spec.IsStep kind (step_of step.now) }
    requires groups { AreGroups groups.old.items }
    requires rows { AreOfResource kind (joined groups.old.items) }
    ensures rows { UnlessMemory (λ r. left_in groups.new.items r
        ≡ spec.stepped kind (step_of step.now) (joined groups.old.items)) result }
    ensures groups { OnOk result (AreGroups groups.new.items) }
{
    let Step::Of(unit, change) = step else {
        return Err(Failed::Because(StepFault::NoTarget));
    };
    let (index, own) = taken(alloc, groups, *unit);
    let rows = values_after(alloc, kind, *unit, change, own)?;
    insert(groups, index, UnitRows { unit: *unit, rows })?;
    Ok(())
}

/// Applies the steps to the rows of a resource, one after another.
///
/// Fails with the fault of the first step that is refused. On an error the groups may lack the values of that
/// step's unit.
fn groups_stepped(
    alloc: Global,
    kind: Kind,
    groups: &mut Vec<UnitRows>,
    steps: &[Step],
) -> Result<(), Failed<StepFault>>
    requires steps { All (spec.IsStep kind) (map step_of steps.now) }
    requires groups { AreGroups groups.old.items }
    requires rows { AreOfResource kind (joined groups.old.items) }
    ensures { UnlessMemory (λ r. left_in groups.new.items r
        ≡ spec.all_stepped kind (map step_of steps.now) (Ok (joined groups.old.items))) result }
{
    for step in steps {
        stepped(alloc, kind, groups, step)?;
    }
    Ok(())
}

/// Applies the steps to the resource, one after another.
///
/// Fails with the fault of the first step that is refused.
fn all_stepped(
    alloc: Global,
    resource: Resource,
    steps: &[Step],
) -> Result<Resource, Failed<StepFault>>
    requires { All (spec.IsStep resource.kind) (map step_of steps.now) }
    ensures rows { UnlessMemory (λ r. rows_left r
        ≡ spec.all_stepped resource.kind (map step_of steps.now) (Ok (rows resource))) result }
    ensures kind { IfOk result (λ r. r.kind ≡ resource.kind) }
    ensures id { IfOk result (λ r. r.id ≡ resource.id) }
    ensures base { (base : List ℕ) → HasBase base resource → IfOk result (HasBase base) }
{
    let (kind, id, rows) = resource.into_part().into_parts();
    let mut groups = grouped(alloc, rows)?;
    groups_stepped(alloc, kind, &mut groups, steps)?;
    let rows = joined(alloc, groups)?;
    Ok(Resource::of_whole(Part::of_rows(kind, id, rows)))
}

/// Applies the steps of a patch to the resource, one after another, at `moment` (RFC 7644 section 3.5.2).
/// If the values of the resource stay equal and no step writes to a writeOnly unit, the resource is returned
/// unchanged, including `meta.lastModified`; otherwise `meta.lastModified` becomes `moment`.
///
/// The patch must be for the resource's kind. Fails with `Value`, before any step is applied, if the work of
/// the patch is over [`MOST_WORK`](crate::MOST_WORK). Otherwise fails with the fault of the first step that is
/// refused: `NoTarget` for a remove without a path or a path without a target, `Mutability` for a change that
/// no client may make, or `Value` for invalid values after the step; see [`values_after`]. On an error the
/// resource is dropped.
///
/// The resource is taken apart once, and each step passes only over the values of its unit. Values are moved.
/// The values of the units that the patch names are also copied, unless the patch is a single step that only
/// removes values, or only appends values none of which is primary.
pub fn apply(
    alloc: Global,
    resource: Resource,
    patch: &Patch,
    moment: Moment,
) -> Result<Changed, Failed<StepFault>>
    requires { patch.now.kind ≡ resource.kind }
    ensures outcome { UnlessMemory (λ r. outcome r
        ≡ spec.applied (patch_of patch.now) moment resource) result }
    ensures base { (base : List ℕ) → HasBase base resource
        → IfOk result (λ c. HasBase base c.resource) }
{
    if !is_within_limit(patch, resource.part()) {
        return Err(Failed::Because(StepFault::Value));
    }
    let before = before_of(alloc, patch, resource.part())?;
    let resource = all_stepped(alloc, resource, patch.steps())?;
    if !is_changed(&before, patch, resource.part()) {
        return Ok(Changed {
            resource,
            changed: false,
        });
    }
    let part = modified_at(alloc, resource.into_part(), moment)?;
    Ok(Changed {
        resource: Resource::of_whole(part),
        changed: true,
    })
}
