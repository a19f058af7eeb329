//! Plans a create (RFC 7644 section 3.3).
ghost use Rattle.std.specs.Prelude.{◌≡◌, ◌&&◌, ℕ, List, not, find, IfOk};
ghost use Rattle.scim_schema.specs.declared.Attribute.{Attribute};
ghost use Rattle.scim_schema.specs.declared.Leaf.{Leaf};
ghost use Rattle.scim_schema.specs.Table.{leaves};
ghost use Rattle.scim_schema.specs.Units.{simple};
ghost use Rattle.scim_policy.specs.Table.{decision};
ghost use Rattle.scim_view.specs.View as view;
ghost use Rattle.scim_view.specs.View.{viewer_of};
ghost use Rattle.scim_shelf.specs.Shelves.{Answers, IsReadFrom, OnlyReads};
ghost use Rattle.scim_shelf.specs.Stores.{IsStore, is_used};
ghost use Rattle.scim_service.specs.Step as spec;
ghost use Rattle.scim_service.specs.code.Refusals.{IsRefusalToMake};

use crate::plans::{Finding, Plan, denied, kept_text, refused, row_of};
use crate::replies::Reply;
use crate::requests::Turn;
use crate::taken_names::has_taken_name;
use scim_audit::{Decided, Refusal};
use scim_body::{Draft, UseFor};
use scim_cell::{Id, Text};
use scim_change::create;
use scim_policy::Decisions;
use scim_schema::{Attribute, Kind, Leaf, Op, leaves, unit_of};
use scim_shelf::{Change, Shelf, ShelfFault};
use scim_text::{Failed, NoMemory};
use scim_value::{Resource, location};
use scim_view::{Viewer, Wanted};
use std::alloc::Global;

/// Whether the draft is of the request's kind and was read to create a resource.
fn is_for(turn: &Turn, draft: &Draft) -> bool
    ensures { result ≡ spec.is_for turn.now draft.now }
{
    draft.kind() == turn.request.kind && draft.use_for() == UseFor::Creating
}

/// Whether a create from the draft needs the policy's permission at the leaf: the leaf is `id`, or it belongs
/// to a unit that the body gives.
fn is_decided(draft: &Draft, leaf: Leaf) -> bool
    ensures { result ≡ spec.is_decided draft.now leaf }
{
    leaf == Leaf::simple(Attribute::Id) || draft.gives(unit_of(leaf))
}

/// Returns the first of `leaves` for which a create from the draft needs permission and `decisions` deny it;
/// `None` if there is no such leaf.
fn first_denied_of(decisions: &Decisions, draft: &Draft, leaves: &[Leaf]) -> Option<Leaf>
    ensures { result ≡ find (λ l. spec.is_decided draft.now l
        && not (decision decisions.now l).allow) leaves.now }
{
    for leaf in leaves {
        if is_decided(draft, *leaf) && !decisions.of(*leaf).allow {
            return Some(*leaf);
        }
    }
    None
}

/// Returns the first leaf of the draft's kind, in leaf order, for which a create from the draft needs
/// permission and `decisions` deny it; `None` if there is no such leaf.
fn first_denied(decisions: &Decisions, draft: &Draft) -> Option<Leaf>
    ensures { result ≡ find (λ l. spec.is_decided draft.now l
        && not (decision decisions.now l).allow) (leaves draft.now.kind) }
{
    first_denied_of(decisions, draft, leaves(draft.kind()))
}

/// Whether a user or a group has the id.
fn has_used_id<S: Shelf>(alloc: Global, shelf: &mut S, id: Id) -> Result<bool, Failed<ShelfFault>>
    ensures answer { IfOk result (Answers S.stands S.is_honest shelf.old shelf.new (λ store b. b
        ≡ is_used store.resources id)) }
    ensures read { OnlyReads S.stands S.is_honest S.failures S.has_round shelf.old shelf.new result }
{
    let user = shelf.by_id(alloc, Kind::User, id)?;
    if user.is_some() {
        return Ok(true);
    }
    let group = shelf.by_id(alloc, Kind::Group, id)?;
    Ok(group.is_some())
}

/// Returns the plan that stores a new resource. `text` is the JSON of the resource as the client sees it, or
/// `None` if the client doesn't see it. `rule` is the number of the rule that allows the create.
fn made(
    alloc: Global,
    viewer: &Viewer<'_>,
    turn: &Turn,
    resource: Resource,
    rule: u32,
    text: Option<Text>,
) -> Result<Plan, NoMemory>
    ensures { IfOk result (λ plan. plan
        ≡ spec.creation_plan_with (viewer_of viewer.now) turn.now resource rule text) }
{
    let id = resource.id();
    let place = location(alloc, viewer.base, resource.kind(), id)?;
    let finding = Finding {
        decided: Decided::Allow,
        rule: Some(rule),
        leaf: None,
        refusal: None,
    };
    let row = row_of(alloc, turn, Some(id), finding)?;
    Ok(Plan {
        reply: Reply::Created(place, text),
        change: Change::Keep(resource),
        row,
    })
}

/// Returns the plan that refuses to create a resource because an existing resource, visible to the client or
/// not, has a unique name or the id of the new one; `None` if the names and the id are free.
fn refusal_to_make<S: Shelf>(
    alloc: Global,
    shelf: &mut S,
    turn: &Turn,
    resource: &Resource,
) -> Result<Option<Plan>, Failed<ShelfFault>>
    ensures refusal { IfOk result (Answers S.stands S.is_honest shelf.old shelf.new
        (λ store refusal. (base : List ℕ) (viewer : view.Viewer) → IsStore base store
        → IsRefusalToMake viewer turn.now store.resources resource.now refusal)) }
    ensures read { OnlyReads S.stands S.is_honest S.failures S.has_round shelf.old shelf.new result }
{
    if has_taken_name(alloc, shelf, &None, resource)? {
        let plan = refused(alloc, turn, Refusal::Taken)?;
        return Ok(Some(plan));
    }
    if has_used_id(alloc, shelf, resource.id())? {
        let plan = refused(alloc, turn, Refusal::IdInUse)?;
        return Ok(Some(plan));
    }
    Ok(None)
}

/// Returns the plan that stores the new resource, or that refuses it if its id or a unique name is taken.
/// `rule` is the number of the rule that allows the create.
fn plan_if_free<S: Shelf>(
    alloc: Global,
    viewer: &Viewer<'_>,
    shelf: &mut S,
    turn: &Turn,
    resource: Resource,
    rule: u32,
    wanted: &Wanted,
) -> Result<Plan, Failed<ShelfFault>>
    requires { rule ≡ (spec.create_decision (viewer_of viewer.now) resource
        (simple Attribute.Id)).rule }
    ensures plan { IsReadFrom S.stands S.is_honest shelf.old shelf.new result (λ store plan. plan
        ≡ spec.unique_creation_plan
        (viewer_of viewer.now) turn.now store.resources wanted.now resource) }
    ensures read { OnlyReads S.stands S.is_honest S.failures S.has_round shelf.old shelf.new result }
{
    let refusal = refusal_to_make(alloc, shelf, turn, &resource)?;
    if let Some(plan) = refusal {
        return Ok(plan);
    }
    let patterns = viewer.patterns(alloc, &resource)?;
    let text = kept_text(alloc, viewer, shelf, &patterns, &resource, wanted)?;
    Ok(made(alloc, viewer, turn, resource, rule, text)?)
}

/// Returns the plan for a create from a draft. The plan is a refusal if the draft isn't one for this request,
/// if the policy denies a leaf, or if a unique name or the id of the new resource is taken.
#[tactic(auto, unfolding(crate::specs::Step::creation_plan))]
pub(crate) fn plan_create<S: Shelf>(
    alloc: Global,
    viewer: &Viewer<'_>,
    shelf: &mut S,
    turn: &Turn,
    draft: &Draft,
    wanted: &Wanted,
) -> Result<Plan, Failed<ShelfFault>>
    ensures plan { IsReadFrom S.stands S.is_honest shelf.old shelf.new result (λ store plan. plan
        ≡ spec.creation_plan (viewer_of viewer.now) turn.now store.resources draft.now wanted.now) }
    ensures read { OnlyReads S.stands S.is_honest S.failures S.has_round shelf.old shelf.new result }
{
    if !is_for(turn, draft) {
        return Ok(refused(alloc, turn, Refusal::MessageValue)?);
    }
    let resource = create(alloc, draft, turn.fresh, turn.moment, viewer.base)?;
    let decisions = create_decisions(alloc, viewer, &resource)?;
    if let Some(leaf) = first_denied(&decisions, draft) {
        return Ok(denied(alloc, turn, decisions.of(leaf), leaf, Refusal::Denied)?);
    }
    let rule = decisions.of(Leaf::simple(Attribute::Id)).rule;
    plan_if_free(alloc, viewer, shelf, turn, resource, rule, wanted)
}

/// Returns the policy's decisions on creating the resource.
fn create_decisions(
    alloc: Global,
    viewer: &Viewer<'_>,
    resource: &Resource,
) -> Result<Decisions, NoMemory>
    ensures { IfOk result (λ decisions. (l : Leaf)
        → decision decisions l ≡ spec.create_decision (viewer_of viewer.now) resource.now l) }
{
    viewer
        .policy
        .decisions(alloc, viewer.client, Op::Create, resource)
}
