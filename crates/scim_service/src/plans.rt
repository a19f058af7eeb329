//! Plans the reply to a request, the change to the store and the audit row. Only reads the shelf.
ghost use Rattle.std.specs.Prelude.{◌≡◌, List, Some, IfOk};
ghost use Rattle.scim_schema.specs.declared.Kind.{Kind};
ghost use Rattle.scim_schema.specs.declared.Leaf.{Leaf};
ghost use Rattle.scim_cell.specs.Content.{Content};
ghost use Rattle.scim_cell.specs.Kinds.{of_kind};
ghost use Rattle.scim_policy.specs.PatternTable.{rules_in};
ghost use Rattle.scim_view.specs.View as view;
ghost use Rattle.scim_view.specs.View.{viewer_of};
ghost use Rattle.scim_view.specs.Listings.{AreListing};
ghost use Rattle.scim_query.specs.declared.queries.Query.{Query};
ghost use Rattle.scim_query.specs.ClientSearches.{IsShownPage};
ghost use Rattle.scim_shelf.specs.Shelves.{Answers, IsReadFrom, OnlyReads};
ghost use Rattle.scim_shelf.specs.Stores.{AreOf};
ghost use Rattle.scim_service.specs.Step as spec;

use crate::create_plans::plan_create;
use crate::get_plans::plan_get;
use crate::patch_plans::plan_patch;
use crate::put_plans::plan_replace;
use crate::replies::Reply;
use crate::requests::{Ask, Turn, named_id};
use scim_audit::{AuditRow, Decided, Refusal};
use scim_cell::{Id, Text};
use scim_json::{to_json, to_list_json};
use scim_policy::{Decision, Patterns};
use scim_query::{Page, Query};
use scim_schema::{Attribute, Leaf, Op};
use scim_search::{groups_beside, page_of_query};
use scim_shelf::{Change, Shelf, ShelfFault};
use scim_text::{Failed, NoMemory};
use scim_value::Resource;
use scim_view::{ListingGroups, Viewer, Wanted, shows_id};
use std::alloc::Global;

/// The reply to a request, the change to the store and the audit row.
pub(crate) struct Plan {
    pub(crate) reply: Reply,
    pub(crate) change: Change,
    pub(crate) row: AuditRow,
}

impl Drop for Plan {
    fn drop(self) {
        let Plan {
            reply: _reply,
            change: _change,
            row: _row,
        } = self;
    }
}

impl Plan {
    /// Returns the reply, the change and the audit row.
    pub(crate) fn into_parts(self) -> (Reply, Change, AuditRow)
        ensures { result ≡ (self.reply, self.change, self.row) }
    {
        let Plan { reply, change, row } = self;
        (reply, change, row)
    }
}

/// The fields of an audit row that don't come from the request: decision, rule, leaf and refusal.
#[derive(Clone, Copy)]
pub(crate) struct Finding {
    pub(crate) decided: Decided,
    pub(crate) rule: Option<u32>,
    pub(crate) leaf: Option<Leaf>,
    pub(crate) refusal: Option<Refusal>,
}

/// Returns the audit row for a request, with `id` and the fields of `finding`. The other fields come from the
/// request and its moment.
pub(crate) fn row_of(
    alloc: Global,
    turn: &Turn,
    id: Option<Id>,
    finding: Finding,
) -> Result<AuditRow, NoMemory>
    ensures { IfOk result (λ row. row
        ≡ spec.row_of turn.now id finding.decided finding.rule finding.leaf finding.refusal) }
{
    Ok(AuditRow {
        moment: turn.moment,
        client: turn.request.client.try_copy(alloc)?,
        op: turn.request.op,
        kind: turn.request.kind,
        id,
        decided: finding.decided,
        rule: finding.rule,
        leaf: finding.leaf,
        refusal: finding.refusal,
    })
}

/// Returns the plan that replies to the request with `refusal`, and puts `decided`, `rule` and `leaf` in the
/// audit row.
pub(crate) fn refused_as(
    alloc: Global,
    turn: &Turn,
    decided: Decided,
    rule: Option<u32>,
    leaf: Option<Leaf>,
    refusal: Refusal,
) -> Result<Plan, NoMemory>
    ensures { IfOk result (λ plan. plan ≡ spec.refusal_plan turn.now decided rule leaf refusal) }
{
    let finding = Finding {
        decided,
        rule,
        leaf,
        refusal: Some(refusal),
    };
    Ok(Plan {
        reply: Reply::Refused(refusal),
        change: Change::Nothing,
        row: row_of(alloc, turn, named_id(turn), finding)?,
    })
}

/// Returns the plan that refuses the request for a reason other than a decision of the policy.
#[tactic(auto, unfolding(crate::specs::Step::rejection_plan))]
pub(crate) fn refused(alloc: Global, turn: &Turn, refusal: Refusal) -> Result<Plan, NoMemory>
    ensures { IfOk result (λ plan. plan ≡ spec.rejection_plan turn.now refusal) }
{
    refused_as(alloc, turn, Decided::Refused, None, None, refusal)
}

/// Returns the plan that refuses the request because the resource that it names doesn't exist.
#[tactic(auto, unfolding(crate::specs::Step::absence_plan))]
pub(crate) fn absent(alloc: Global, turn: &Turn) -> Result<Plan, NoMemory>
    ensures { IfOk result (λ plan. plan ≡ spec.absence_plan turn.now) }
{
    refused_as(alloc, turn, Decided::Absent, None, None, Refusal::NotFound)
}

/// Returns the plan that refuses the request because `decision` doesn't let the client read the resource's
/// `id`. The reply is the refusal `NotFound`, as if there were no such resource.
#[tactic(auto, unfolding(crate::specs::Step::hidden_plan))]
pub(crate) fn hidden(alloc: Global, turn: &Turn, decision: Decision) -> Result<Plan, NoMemory>
    ensures { IfOk result (λ plan. plan ≡ spec.hidden_plan turn.now decision) }
{
    let id = Leaf::simple(Attribute::Id);
    refused_as(
        alloc,
        turn,
        Decided::Hidden,
        Some(decision.rule),
        Some(id),
        Refusal::NotFound,
    )
}

/// Returns the plan that refuses the request because of `decision`, the policy's decision on `leaf`.
#[tactic(auto, unfolding(crate::specs::Step::denial_plan))]
pub(crate) fn denied(
    alloc: Global,
    turn: &Turn,
    decision: Decision,
    leaf: Leaf,
    refusal: Refusal,
) -> Result<Plan, NoMemory>
    ensures { IfOk result (λ plan. plan ≡ spec.denial_plan turn.now decision leaf refusal) }
{
    refused_as(
        alloc,
        turn,
        Decided::Deny,
        Some(decision.rule),
        Some(leaf),
        refusal,
    )
}

/// Returns the audit row for a request that the rule with the number `rule` allows.
pub(crate) fn allowed(alloc: Global, turn: &Turn, rule: u32) -> Result<AuditRow, NoMemory>
    ensures { IfOk result (λ row. row ≡ spec.allowed_row turn.now rule) }
{
    let finding = Finding {
        decided: Decided::Allow,
        rule: Some(rule),
        leaf: None,
        refusal: None,
    };
    row_of(alloc, turn, turn.request.id, finding)
}

/// Returns the resource that the request names; `None` if the request names none or the resource doesn't
/// exist.
pub(crate) fn found<S: Shelf>(
    alloc: Global,
    shelf: &mut S,
    turn: &Turn,
) -> Result<Option<Resource>, Failed<ShelfFault>>
    ensures answer { IfOk result (Answers S.stands S.is_honest shelf.old shelf.new (λ store o. o
        ≡ spec.sought_resource turn.now store.resources)) }
    ensures read { OnlyReads S.stands S.is_honest S.failures S.has_round shelf.old shelf.new result }
{
    match turn.request.id {
        Some(id) => shelf.by_id(alloc, turn.request.kind, id),
        None => Ok(None),
    }
}

/// Returns the JSON of a resource as the client sees it, projected to the wanted attributes. `patterns` are
/// those for reading the resource, and `groups` are the groups to list in the resource.
#[tactic(auto, unfolding(crate::specs::Step::resource_text))]
pub(crate) fn resource_text(
    alloc: Global,
    viewer: &Viewer<'_>,
    patterns: &Patterns<'_>,
    groups: &ListingGroups,
    resource: &Resource,
    wanted: &Wanted,
) -> Result<Text, NoMemory>
    requires { (l : Leaf) → rules_in patterns.now l
        ≡ view.read_rules (viewer_of viewer.now) resource.now l }
    ensures { IfOk result (λ text. (gathered : List Content)
        → AreListing (viewer_of viewer.now) resource.now.id gathered groups.now
        → text ≡ spec.resource_text (viewer_of viewer.now) gathered wanted.now resource.now) }
{
    let shown = viewer.shown_with_groups(alloc, patterns, groups, resource, wanted)?;
    Ok(Text::new(to_json(alloc, &shown)?))
}

/// Returns the JSON of a resource as the client sees it, projected to the wanted attributes. Reads the
/// resource's groups from the shelf if the reply shows them. `patterns` are those for reading the resource.
pub(crate) fn seen_text<S: Shelf>(
    alloc: Global,
    viewer: &Viewer<'_>,
    shelf: &mut S,
    patterns: &Patterns<'_>,
    resource: &Resource,
    wanted: &Wanted,
) -> Result<Text, Failed<ShelfFault>>
    requires { (l : Leaf) → rules_in patterns.now l
        ≡ view.read_rules (viewer_of viewer.now) resource.now l }
    ensures text { IsReadFrom S.stands S.is_honest shelf.old shelf.new result (λ store text. text
        ≡ spec.resource_text (viewer_of viewer.now)
        (of_kind Kind.Group store.resources) wanted.now resource.now) }
    ensures read { OnlyReads S.stands S.is_honest S.failures S.has_round shelf.old shelf.new result }
{
    if !wanted.shows_groups(resource) {
        let none = ListingGroups::new(alloc, resource.id());
        let text = resource_text(alloc, viewer, patterns, &none, resource, wanted)?;
        return Ok(text);
    }
    let groups = groups_beside(alloc, viewer, shelf, resource)?;
    Ok(resource_text(alloc, viewer, patterns, &groups, resource, wanted)?)
}

/// Returns the JSON of a resource that the request stores, as the client sees the resource, projected to the
/// wanted attributes; `None` if the client doesn't see the resource. `patterns` are those for reading the
/// resource.
pub(crate) fn kept_text<S: Shelf>(
    alloc: Global,
    viewer: &Viewer<'_>,
    shelf: &mut S,
    patterns: &Patterns<'_>,
    resource: &Resource,
    wanted: &Wanted,
) -> Result<Option<Text>, Failed<ShelfFault>>
    requires { (l : Leaf) → rules_in patterns.now l
        ≡ view.read_rules (viewer_of viewer.now) resource.now l }
    ensures text { IsReadFrom S.stands S.is_honest shelf.old shelf.new result (λ store text.
        AreOf resource.now.kind resource.now.id store.resources
        → text ≡ spec.kept_text (viewer_of viewer.now) store.resources wanted.now resource.now) }
    ensures read { OnlyReads S.stands S.is_honest S.failures S.has_round shelf.old shelf.new result }
{
    if !shows_id(patterns) {
        return Ok(None);
    }
    let text = seen_text(alloc, viewer, shelf, patterns, resource, wanted)?;
    Ok(Some(text))
}

/// Returns the plan for a DELETE of `resource`, which the client sees. The plan is a refusal if the policy
/// doesn't let the client delete it.
#[tactic(auto, unfolding(crate::specs::Step::removal_plan))]
fn removed(
    alloc: Global,
    viewer: &Viewer<'_>,
    turn: &Turn,
    resource: &Resource,
) -> Result<Plan, NoMemory>
    ensures { IfOk result (λ plan. plan
        ≡ spec.removal_plan (viewer_of viewer.now) turn.now resource.now) }
{
    let id = Leaf::simple(Attribute::Id);
    let decision = viewer
        .policy
        .decide(alloc, viewer.client, Op::Delete, resource, id)?;
    if !decision.allow {
        return denied(alloc, turn, decision, id, Refusal::Denied);
    }
    Ok(Plan {
        reply: Reply::Done,
        change: Change::Remove(resource.kind(), resource.id()),
        row: allowed(alloc, turn, decision.rule)?,
    })
}

/// Returns the plan for a DELETE of `resource`. The plan is a refusal if the client doesn't see the resource
/// or may not delete it.
fn removed_if_seen(
    alloc: Global,
    viewer: &Viewer<'_>,
    turn: &Turn,
    resource: &Resource,
) -> Result<Plan, NoMemory>
    ensures { IfOk result (λ plan. plan
        ≡ spec.plan_for_seen (viewer_of viewer.now) turn.now
        (spec.removal_plan (viewer_of viewer.now) turn.now) (Some resource.now)) }
{
    let id = Leaf::simple(Attribute::Id);
    let seen = viewer
        .policy
        .decide(alloc, viewer.client, Op::Read, resource, id)?;
    if !seen.allow {
        return hidden(alloc, turn, seen);
    }
    removed(alloc, viewer, turn, resource)
}

/// Returns the plan for a DELETE of the resource that the request names. The plan is a refusal if there is no
/// such resource, or if the client doesn't see it or may not delete it.
fn plan_remove<S: Shelf>(
    alloc: Global,
    viewer: &Viewer<'_>,
    shelf: &mut S,
    turn: &Turn,
) -> Result<Plan, Failed<ShelfFault>>
    ensures plan { IfOk result (Answers S.stands S.is_honest shelf.old shelf.new (λ store plan.
        plan ≡ spec.plan_for_seen (viewer_of viewer.now) turn.now
        (spec.removal_plan (viewer_of viewer.now) turn.now)
        (spec.sought_resource turn.now store.resources))) }
    ensures read { OnlyReads S.stands S.is_honest S.failures S.has_round shelf.old shelf.new result }
{
    let Some(resource) = found(alloc, shelf, turn)? else {
        return Ok(absent(alloc, turn)?);
    };
    Ok(removed_if_seen(alloc, viewer, turn, &resource)?)
}

/// Returns the JSON of a page, whose items are projected to the attributes that its query wants.
fn list_text(alloc: Global, page: &Page) -> Result<Text, NoMemory>
    ensures { IfOk result (λ text. (view : List Content) (query : Query)
        → IsShownPage view query page.now → text ≡ spec.list_text query view) }
{
    let text = to_list_json(alloc, page.total, page.start, page.items.as_slice())?;
    Ok(Text::new(text))
}

/// Returns the plan for a search. The reply is a page of the resources that match the query, as the client
/// sees them.
#[tactic(auto, unfolding(crate::specs::Step::search_plan))]
fn plan_search<S: Shelf>(
    alloc: Global,
    viewer: &Viewer<'_>,
    shelf: &mut S,
    turn: &Turn,
    query: &Query,
) -> Result<Plan, Failed<ShelfFault>>
    ensures plan { IsReadFrom S.stands S.is_honest shelf.old shelf.new result (λ store plan. plan
        ≡ spec.search_plan (viewer_of viewer.now) turn.now store.resources query.now) }
    ensures read { OnlyReads S.stands S.is_honest S.failures S.has_round shelf.old shelf.new result }
{
    let page = page_of_query(alloc, viewer, shelf, turn.request.kind, query)?;
    let text = list_text(alloc, &page)?;
    let finding = Finding {
        decided: Decided::Allow,
        rule: None,
        leaf: None,
        refusal: None,
    };
    Ok(Plan {
        reply: Reply::Shown(text),
        change: Change::Nothing,
        row: row_of(alloc, turn, None, finding)?,
    })
}

/// Returns the plan for a request: the reply, the change to the store and the audit row. Only reads the
/// shelf.
pub(crate) fn planned<S: Shelf>(
    alloc: Global,
    viewer: &Viewer<'_>,
    shelf: &mut S,
    turn: &Turn,
) -> Result<Plan, Failed<ShelfFault>>
    ensures plan { IsReadFrom S.stands S.is_honest shelf.old shelf.new result (λ store plan. plan
        ≡ spec.request_plan (viewer_of viewer.now) turn.now store.resources turn.now.request.ask) }
    ensures read { OnlyReads S.stands S.is_honest S.failures S.has_round shelf.old shelf.new result }
{
    match &turn.request.ask {
        Ok(Ask::Get(wanted)) => plan_get(alloc, viewer, shelf, turn, wanted),
        Ok(Ask::Search(query)) => plan_search(alloc, viewer, shelf, turn, query),
        Ok(Ask::Create(draft, wanted)) => { plan_create(alloc, viewer, shelf, turn, draft, wanted) }
        Ok(Ask::Replace(draft, wanted)) => {
            plan_replace(alloc, viewer, shelf, turn, draft, wanted)
        }
        Ok(Ask::Patch(patch, wanted)) => plan_patch(alloc, viewer, shelf, turn, patch, wanted),
        Ok(Ask::Remove) => plan_remove(alloc, viewer, shelf, turn),
        Err(refusal) => Ok(refused(alloc, turn, *refusal)?),
    }
}
