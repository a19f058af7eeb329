//! Plans a PUT (RFC 7644 section 3.5.1).
ghost use Rattle.std.specs.Prelude.{◌≡◌, filter, None, IfOk};
ghost use Rattle.std.specs.List.{list_any};
ghost use Rattle.scim_schema.specs.Units.{units};
ghost use Rattle.scim_policy.specs.PatternTable.{access_in};
ghost use Rattle.scim_view.specs.View.{viewer_of, visible};
ghost use Rattle.scim_shelf.specs.Shelves.{IsReadFrom, OnlyReads};
ghost use Rattle.scim_shelf.specs.Stores.{AreOf};
ghost use Rattle.scim_service.specs.Step as spec;
ghost use Rattle.scim_service.specs.code.Reached.{AreRightsOn};
ghost use Rattle.scim_service.specs.code.Questions.{is_in_question};

use crate::changed_resources::plan_changed;
use crate::plans::{Plan, denied, refused};
use crate::reached_resources::{Reached, reach};
use crate::requests::Turn;
use scim_audit::Refusal;
use scim_body::Draft;
use scim_change::{MissingRequired, agrees, replace};
use scim_policy::{Decision, Rights};
use scim_schema::{Kind, Leaf, Mutability, Unit, mutability_of, units};
use scim_shelf::{Shelf, ShelfFault};
use scim_text::{Failed, NoMemory, push};
use scim_value::{Part, Resource};
use scim_view::{Viewer, Wanted};
use std::alloc::Global;

/// Whether the client may write the unit: it isn't readOnly, and the policy forbids no leaf of it.
fn is_writable(rights: &Rights<'_>, kind: Kind, unit: Unit) -> bool
    ensures { result ≡ spec.is_writable kind (access_in rights.now) unit }
{
    mutability_of(kind, unit) != Mutability::ReadOnly && rights.forbidding(kind, unit).is_none()
}

/// Returns the units in `units` that the client may write, in order.
fn writable_of(
    alloc: Global,
    rights: &Rights<'_>,
    kind: Kind,
    units: &[Unit],
) -> Result<Vec<Unit>, NoMemory>
    ensures { IfOk result (λ v. v.items
        ≡ filter (spec.is_writable kind (access_in rights.now)) units.now) }
{
    let mut writable = Vec::new(alloc);
    for unit in units {
        if is_writable(rights, kind, *unit) {
            push(&mut writable, *unit)?;
        }
    }
    Ok(writable)
}

/// Whether the unit isn't readOnly, and the body gives it although the client may not write it.
fn is_questionable(rights: &Rights<'_>, draft: &Draft, unit: Unit) -> bool
    ensures { result ≡ is_in_question (access_in rights.now) draft.now unit }
{
    mutability_of(draft.kind(), unit) != Mutability::ReadOnly
        && draft.gives(unit)
        && rights.forbidding(draft.kind(), unit).is_some()
}

/// Whether the body gives at least one of `units` that isn't readOnly and that the client may not write.
fn is_any_questionable(rights: &Rights<'_>, draft: &Draft, units: &[Unit]) -> bool
    ensures { result ≡ list_any (is_in_question (access_in rights.now) draft.now) units.now }
{
    for unit in units {
        if is_questionable(rights, draft, *unit) {
            return true;
        }
    }
    false
}

/// Returns the denied leaf and the decision on that leaf if the PUT is denied because of the unit; otherwise
/// `None`. The PUT is denied if the unit isn't readOnly, the client may not write the unit, and the body
/// gives the unit other values than the client sees. `seen` is the resource as the client sees it.
fn unit_denied(
    alloc: Global,
    rights: &Rights<'_>,
    draft: &Draft,
    seen: &Part,
    unit: Unit,
) -> Result<Option<(Leaf, Decision)>, NoMemory>
    ensures { IfOk result (λ o. o
        ≡ spec.unit_denial (access_in rights.now) draft.now seen.now unit) }
{
    if !is_questionable(rights, draft, unit) || agrees(alloc, draft, unit, seen)? {
        return Ok(None);
    }
    Ok(rights.forbidding(draft.kind(), unit))
}

/// Calls `unit_denied` for each of `units` in order. Returns the first result that isn't `None`; `None` if no
/// unit is denied.
fn first_denied_among(
    alloc: Global,
    rights: &Rights<'_>,
    draft: &Draft,
    seen: &Part,
    units: &[Unit],
) -> Result<Option<(Leaf, Decision)>, NoMemory>
    ensures { IfOk result (λ o. o
        ≡ spec.first_unit_denial (access_in rights.now) draft.now seen.now units.now) }
{
    for unit in units {
        let denied = unit_denied(alloc, rights, draft, seen, *unit)?;
        if denied.is_some() {
            return Ok(denied);
        }
    }
    Ok(None)
}

/// Calls `unit_denied` for each unit of the draft's kind in order. Returns the first result that isn't
/// `None`; `None` if no unit is denied. Computes what the client sees of the resource only if the body gives
/// a unit that isn't readOnly and that the client may not write.
fn first_unit_denied(
    alloc: Global,
    viewer: &Viewer<'_>,
    rights: &Rights<'_>,
    draft: &Draft,
    resource: &Resource,
) -> Result<Option<(Leaf, Decision)>, NoMemory>
    requires { AreRightsOn (viewer_of viewer.now) resource.now rights.now }
    ensures { IfOk result (λ o. o
        ≡ spec.first_unit_denial (spec.access_to (viewer_of viewer.now) resource.now)
        draft.now (visible (viewer_of viewer.now) resource.now) (units draft.now.kind)) }
{
    let own = units(draft.kind());
    if !is_any_questionable(rights, draft, own) {
        return Ok(None);
    }
    let seen = viewer.visible_by(alloc, rights.read(), resource)?;
    first_denied_among(alloc, rights, draft, &seen, own)
}

/// Returns the plan that writes the draft's values to all units that the client may write. The plan is a
/// refusal if a required attribute would be missing, or if the changed resource can't be stored. The caller
/// has checked that the policy doesn't deny the PUT.
fn plan_allowed<S: Shelf>(
    alloc: Global,
    viewer: &Viewer<'_>,
    shelf: &mut S,
    turn: &Turn,
    draft: &Draft,
    wanted: &Wanted,
    rights: &Rights<'_>,
    resource: Resource,
) -> Result<Plan, Failed<ShelfFault>>
    requires rights { AreRightsOn (viewer_of viewer.now) resource rights.now }
    requires kind { draft.now.kind ≡ resource.kind }
    ensures plan { IsReadFrom S.stands S.is_honest shelf.old shelf.new result (λ store plan.
        AreOf resource.kind resource.id store.resources
        → plan ≡ spec.decided_replacement_plan
        (viewer_of viewer.now) turn.now store.resources draft.now wanted.now resource None) }
    ensures read { OnlyReads S.stands S.is_honest S.failures S.has_round shelf.old shelf.new result }
{
    let kind = resource.kind();
    let writable = writable_of(alloc, rights, kind, units(kind))?;
    match replace(alloc, resource, draft, writable.as_slice(), turn.moment) {
        Ok(changed) => plan_changed(alloc, viewer, shelf, turn, wanted, rights, changed),
        Err(Failed::Because(MissingRequired)) => Ok(refused(alloc, turn, Refusal::ResultValue)?),
        Err(Failed::NoMemory) => Err(Failed::NoMemory),
    }
}

/// Returns the plan for a PUT to `resource`, which the client sees.
#[tactic(auto, unfolding(crate::specs::Step::replacement_plan))]
fn plan_seen<S: Shelf>(
    alloc: Global,
    viewer: &Viewer<'_>,
    shelf: &mut S,
    turn: &Turn,
    draft: &Draft,
    wanted: &Wanted,
    rights: &Rights<'_>,
    resource: Resource,
) -> Result<Plan, Failed<ShelfFault>>
    requires { AreRightsOn (viewer_of viewer.now) resource rights.now }
    ensures plan { IsReadFrom S.stands S.is_honest shelf.old shelf.new result (λ store plan.
        AreOf resource.kind resource.id store.resources
        → plan ≡ spec.replacement_plan
        (viewer_of viewer.now) turn.now store.resources draft.now wanted.now resource) }
    ensures read { OnlyReads S.stands S.is_honest S.failures S.has_round shelf.old shelf.new result }
{
    if draft.kind() != resource.kind() {
        return Ok(refused(alloc, turn, Refusal::MessageValue)?);
    }
    match first_unit_denied(alloc, viewer, rights, draft, &resource)? {
        Some((leaf, decision)) => Ok(denied(alloc, turn, decision, leaf, Refusal::Denied)?),
        None => plan_allowed(alloc, viewer, shelf, turn, draft, wanted, rights, resource),
    }
}

/// Returns the plan for a PUT to the resource that the request names. The plan is a refusal if there is no
/// such resource or the client doesn't see it.
pub(crate) fn plan_replace<S: Shelf>(
    alloc: Global,
    viewer: &Viewer<'_>,
    shelf: &mut S,
    turn: &Turn,
    draft: &Draft,
    wanted: &Wanted,
) -> Result<Plan, Failed<ShelfFault>>
    ensures plan { IsReadFrom S.stands S.is_honest shelf.old shelf.new result (λ store plan. plan
        ≡ spec.plan_for_seen (viewer_of viewer.now) turn.now
        (spec.replacement_plan (viewer_of viewer.now) turn.now store.resources draft.now wanted.now)
        (spec.sought_resource turn.now store.resources)) }
    ensures read { OnlyReads S.stands S.is_honest S.failures S.has_round shelf.old shelf.new result }
{
    let reached = reach(alloc, viewer, shelf, turn)?;
    match reached {
        Reached::Seen(resource, rights) => {
            plan_seen(alloc, viewer, shelf, turn, draft, wanted, &rights, resource)
        }
        Reached::Told(plan) => Ok(plan),
    }
}
