//! Plans a PATCH (RFC 7644 section 3.5.2).
ghost use Rattle.std.specs.Prelude.{◌≡◌, None};
ghost use Rattle.scim_patch_steps.specs.Patch.{touched};
ghost use Rattle.scim_patch_steps.specs.Kept.{patch_of};
ghost use Rattle.scim_policy.specs.PatternTable.{access_in};
ghost use Rattle.scim_view.specs.View.{viewer_of};
ghost use Rattle.scim_shelf.specs.Shelves.{IsReadFrom, OnlyReads};
ghost use Rattle.scim_shelf.specs.Stores.{AreOf};
ghost use Rattle.scim_service.specs.Step as spec;
ghost use Rattle.scim_service.specs.code.Reached.{AreRightsOn};

use crate::changed_resources::plan_changed;
use crate::plans::{Plan, denied, refused};
use crate::reached_resources::{Reached, reach};
use crate::requests::Turn;
use scim_audit::Refusal;
use scim_patch_steps::{Patch, Step, StepFault, apply};
use scim_policy::{Decision, Rights};
use scim_schema::Leaf;
use scim_shelf::{Shelf, ShelfFault};
use scim_text::Failed;
use scim_value::Resource;
use scim_view::{Viewer, Wanted};
use std::alloc::Global;

/// Returns the refusal that reports the fault of a PATCH step.
fn step_refusal(fault: StepFault) -> Refusal
    ensures { result ≡ spec.step_refusal fault }
{
    match fault {
        StepFault::Mutability => Refusal::Mutability,
        StepFault::NoTarget => Refusal::NoTarget,
        StepFault::Value => Refusal::ResultValue,
    }
}

/// Finds the first unit in the patch that the client may not write. Returns the denied leaf of this unit and
/// the decision on the leaf; `None` if the client may write all units in the patch.
fn first_forbidden(rights: &Rights<'_>, patch: &Patch) -> Option<(Leaf, Decision)>
    ensures { result ≡ spec.first_forbidden patch.now.kind (access_in rights.now)
        (touched (patch_of patch.now)) }
{
    let kind = patch.kind();
    let steps = patch.steps();
    for step in steps {
        if let Step::Of(unit, _) = step {
            let forbidden = rights.forbidding(kind, *unit);
            if forbidden.is_some() {
                return forbidden;
            }
        }
    }
    None
}

/// Returns the plan that stores `resource` as the patch changes it, or that refuses the change. The caller
/// has checked that the client may write all units in the patch.
fn plan_allowed<S: Shelf>(
    alloc: Global,
    viewer: &Viewer<'_>,
    shelf: &mut S,
    turn: &Turn,
    patch: &Patch,
    wanted: &Wanted,
    rights: &Rights<'_>,
    resource: Resource,
) -> Result<Plan, Failed<ShelfFault>>
    requires rights { AreRightsOn (viewer_of viewer.now) resource rights.now }
    requires kind { patch.now.kind ≡ resource.kind }
    ensures plan { IsReadFrom S.stands S.is_honest shelf.old shelf.new result (λ store plan.
        AreOf resource.kind resource.id store.resources
        → plan ≡ spec.decided_patch_plan (viewer_of viewer.now) turn.now store.resources
        (patch_of patch.now) wanted.now resource None) }
    ensures read { OnlyReads S.stands S.is_honest S.failures S.has_round shelf.old shelf.new result }
{
    match apply(alloc, resource, patch, turn.moment) {
        Ok(changed) => plan_changed(alloc, viewer, shelf, turn, wanted, rights, changed),
        Err(Failed::Because(fault)) => Ok(refused(alloc, turn, step_refusal(fault))?),
        Err(Failed::NoMemory) => Err(Failed::NoMemory),
    }
}

/// Returns the plan for a PATCH of `resource`, which the client sees. The plan is a refusal if the patch is
/// of another kind or has a unit that the client may not write, or if the change can't be made.
#[tactic(auto, unfolding(crate::specs::Step::patch_plan))]
fn plan_seen<S: Shelf>(
    alloc: Global,
    viewer: &Viewer<'_>,
    shelf: &mut S,
    turn: &Turn,
    patch: &Patch,
    wanted: &Wanted,
    rights: &Rights<'_>,
    resource: Resource,
) -> Result<Plan, Failed<ShelfFault>>
    requires { AreRightsOn (viewer_of viewer.now) resource rights.now }
    ensures plan { IsReadFrom S.stands S.is_honest shelf.old shelf.new result (λ store plan.
        AreOf resource.kind resource.id store.resources
        → plan ≡ spec.patch_plan (viewer_of viewer.now) turn.now store.resources
        (patch_of patch.now) wanted.now resource) }
    ensures read { OnlyReads S.stands S.is_honest S.failures S.has_round shelf.old shelf.new result }
{
    if patch.kind() != resource.kind() {
        return Ok(refused(alloc, turn, Refusal::MessageValue)?);
    }
    match first_forbidden(rights, patch) {
        Some((leaf, decision)) => Ok(denied(alloc, turn, decision, leaf, Refusal::Denied)?),
        None => plan_allowed(alloc, viewer, shelf, turn, patch, wanted, rights, resource),
    }
}

/// Returns the plan for a PATCH of the resource that the request names. The plan is a refusal if there is no
/// such resource or the client doesn't see it.
pub(crate) fn plan_patch<S: Shelf>(
    alloc: Global,
    viewer: &Viewer<'_>,
    shelf: &mut S,
    turn: &Turn,
    patch: &Patch,
    wanted: &Wanted,
) -> Result<Plan, Failed<ShelfFault>>
    ensures plan { IsReadFrom S.stands S.is_honest shelf.old shelf.new result (λ store plan. plan
        ≡ spec.plan_for_seen (viewer_of viewer.now) turn.now
        (spec.patch_plan (viewer_of viewer.now) turn.now store.resources
        (patch_of patch.now) wanted.now) (spec.sought_resource turn.now store.resources)) }
    ensures read { OnlyReads S.stands S.is_honest S.failures S.has_round shelf.old shelf.new result }
{
    let reached = reach(alloc, viewer, shelf, turn)?;
    match reached {
        Reached::Seen(resource, rights) => {
            plan_seen(alloc, viewer, shelf, turn, patch, wanted, &rights, resource)
        }
        Reached::Told(plan) => Ok(plan),
    }
}
