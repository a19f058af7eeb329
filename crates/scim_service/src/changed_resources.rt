//! Plans to store a resource that a PUT or a PATCH has changed.
ghost use Rattle.std.specs.Prelude.{◌≡◌, IfOk};
ghost use Rattle.scim_schema.specs.declared.Attribute.{Attribute};
ghost use Rattle.scim_schema.specs.Units.{simple};
ghost use Rattle.scim_policy.specs.PatternTable.{access_in};
ghost use Rattle.scim_view.specs.View.{viewer_of};
ghost use Rattle.scim_shelf.specs.Shelves.{IsReadFrom, OnlyReads};
ghost use Rattle.scim_shelf.specs.Stores.{AreOf};
ghost use Rattle.scim_service.specs.Step as spec;
ghost use Rattle.scim_service.specs.code.Refusals.{IsRefusalToChange};

use crate::plans::{Plan, allowed, denied, kept_text, refused};
use crate::replies::Reply;
use crate::requests::Turn;
use crate::taken_names::has_taken_name;
use scim_audit::Refusal;
use scim_cell::Text;
use scim_change::Changed;
use scim_policy::Rights;
use scim_schema::{Attribute, Leaf};
use scim_shelf::{Change, Shelf, ShelfFault};
use scim_text::{Failed, NoMemory};
use scim_value::Resource;
use scim_view::{Viewer, Wanted};
use std::alloc::Global;

/// Returns a 200 reply with the text, or a 204 reply if there is no text.
fn shown_or_done(text: Option<Text>) -> Reply
    ensures { result ≡ spec.shown_or_done text }
{
    match text {
        Some(text) => Reply::Shown(text),
        None => Reply::Done,
    }
}

/// Returns the plan that stores a changed resource, or stores nothing if no value changed. `text` is the JSON
/// of the resource as the client sees it, or `None` if the client doesn't see it. `rule` is the number of the
/// rule that let the client read the resource's `id` before the change.
fn changed_with(
    alloc: Global,
    turn: &Turn,
    rule: u32,
    changed: Changed,
    text: Option<Text>,
) -> Result<Plan, NoMemory>
    ensures { IfOk result (λ plan. plan
        ≡ spec.kept_plan turn.now rule changed.changed changed.resource text) }
{
    let Changed { resource, changed } = changed;
    let row = allowed(alloc, turn, rule)?;
    let change = if changed {
        Change::Keep(resource)
    } else {
        Change::Nothing
    };
    Ok(Plan {
        reply: shown_or_done(text),
        change,
        row,
    })
}

/// Returns the plan that refuses a changed resource because another resource has one of the same unique
/// names, or because the change widens the client's rights; `None` if the resource may be stored.
fn refusal_to_change<S: Shelf>(
    alloc: Global,
    viewer: &Viewer<'_>,
    shelf: &mut S,
    turn: &Turn,
    before: &Rights<'_>,
    after: &Rights<'_>,
    resource: &Resource,
) -> Result<Option<Plan>, Failed<ShelfFault>>
    requires { access_in after.now ≡ spec.access_to (viewer_of viewer.now) resource.now }
    ensures refusal { IsReadFrom S.stands S.is_honest shelf.old shelf.new result (λ store refusal.
        IsRefusalToChange (viewer_of viewer.now) turn.now store.resources
        (access_in before.now) resource.now refusal) }
    ensures read { OnlyReads S.stands S.is_honest S.failures S.has_round shelf.old shelf.new result }
{
    if has_taken_name(alloc, shelf, &Some(resource.id()), resource)? {
        let plan = refused(alloc, turn, Refusal::Taken)?;
        return Ok(Some(plan));
    }
    match before.widening(alloc, resource.kind(), after)? {
        Some((_, leaf, decision)) => {
            let plan = denied(alloc, turn, decision, leaf, Refusal::Widens)?;
            Ok(Some(plan))
        }
        None => Ok(None),
    }
}

/// Returns the plan that stores the changed resource. The plan is a refusal if another resource has one of
/// the same unique names, or if the change widens the client's rights. `rights` are the client's rights to
/// the resource before the change.
pub(crate) fn plan_changed<S: Shelf>(
    alloc: Global,
    viewer: &Viewer<'_>,
    shelf: &mut S,
    turn: &Turn,
    wanted: &Wanted,
    rights: &Rights<'_>,
    changed: Changed,
) -> Result<Plan, Failed<ShelfFault>>
    ensures plan { IsReadFrom S.stands S.is_honest shelf.old shelf.new result (λ store plan.
        AreOf changed.resource.kind changed.resource.id store.resources
        → plan ≡ spec.unique_change_plan (viewer_of viewer.now) turn.now store.resources wanted.now
        (access_in rights.now) changed.changed changed.resource) }
    ensures read { OnlyReads S.stands S.is_honest S.failures S.has_round shelf.old shelf.new result }
{
    let after = viewer
        .policy
        .rights(alloc, viewer.client, &changed.resource)?;
    let refusal = refusal_to_change(
        alloc,
        viewer,
        shelf,
        turn,
        rights,
        &after,
        &changed.resource,
    )?;
    if let Some(plan) = refusal {
        return Ok(plan);
    }
    let text = kept_text(
        alloc,
        viewer,
        shelf,
        after.read(),
        &changed.resource,
        wanted,
    )?;
    let rule = rights.read().whole(Leaf::simple(Attribute::Id)).rule;
    Ok(changed_with(alloc, turn, rule, changed, text)?)
}
