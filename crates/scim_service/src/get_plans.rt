//! Plans the reply to a GET (RFC 7644 section 3.4.1).
ghost use Rattle.std.specs.Prelude.{◌≡◌, Option, Some, IfOk};
ghost use Rattle.scim_cell.specs.Content.{Content};
ghost use Rattle.scim_view.specs.View.{viewer_of};
ghost use Rattle.scim_shelf.specs.Shelves.{IsReadFrom, OnlyReads};
ghost use Rattle.scim_service.specs.Step as spec;
ghost use Rattle.scim_service.specs.code.Outcomes.{IsOutcome, IsLent, TakesLent};

use crate::plans::{Plan, absent, allowed, hidden, resource_text, seen_text};
use crate::replies::Reply;
use crate::requests::Turn;
use scim_cell::Text;
use scim_policy::Decision;
use scim_schema::{Attribute, Leaf};
use scim_shelf::{Change, Shelf, ShelfFault, Visitor};
use scim_text::{Failed, NoMemory};
use scim_value::Resource;
use scim_view::{ListingGroups, Viewer, Wanted};
use std::alloc::Global;

/// The outcome of a GET of a resource that a shelf lends.
#[derive(Drop)]
enum Outcome {
    /// The client doesn't see the resource, by this decision on reading its `id`.
    Hidden(Decision),
    /// The client sees the resource, by this decision on reading its `id`. Has the JSON of the reply, which shows no
    /// `groups`.
    Told(Decision, Text),
    /// A copy of the resource: the reply shows its `groups`, which are still to be read.
    Copy(Resource),
}

/// A visitor that makes the outcome of a GET from the resource that it is shown. Copies the resource only if the
/// reply shows its `groups`.
#[derive(Drop)]
struct GetVisitor<'a> {
    viewer: &'a Viewer<'a>,
    wanted: &'a Wanted,
    outcome: Option<Outcome>,
}

impl Visitor for GetVisitor<'_> {
    ghost takes = { TakesLent };

    fn take(&mut self, alloc: Global, resource: &Resource) -> Result<(), NoMemory> {
        self.outcome = Some(outcome_of(alloc, self.viewer, self.wanted, resource)?);
        Ok(())
    }
}

impl GetVisitor<'_> {
    /// Consumes the visitor and returns the outcome; `None` if it was shown no resource.
    fn end(self) -> Option<Outcome>
        ensures { result ≡ self.entry.outcome }
    {
        self.outcome
    }
}

/// Returns the outcome of a GET of the resource.
fn outcome_of(
    alloc: Global,
    viewer: &Viewer<'_>,
    wanted: &Wanted,
    resource: &Resource,
) -> Result<Outcome, NoMemory>
    ensures { IfOk result (λ outcome.
        IsOutcome (viewer_of viewer.now) wanted.now resource.now outcome) }
{
    if wanted.shows_groups(resource) {
        return Ok(Outcome::Copy(resource.try_copy(alloc)?));
    }
    let patterns = viewer.patterns(alloc, resource)?;
    let seen = patterns.whole(Leaf::simple(Attribute::Id));
    if !seen.allow {
        return Ok(Outcome::Hidden(seen));
    }
    let none = ListingGroups::new(alloc, resource.id());
    let text = resource_text(alloc, viewer, &patterns, &none, resource, wanted)?;
    Ok(Outcome::Told(seen, text))
}

/// Returns the plan that replies to a GET with this JSON. `seen` is the decision on reading the resource's `id`.
fn told(alloc: Global, turn: &Turn, seen: Decision, text: Text) -> Result<Plan, NoMemory>
    ensures { IfOk result (λ plan. plan ≡ record {
      reply = Reply.Shown text;
      change = Change.Nothing;
      row = spec.allowed_row turn.now seen.rule;
    }) }
{
    Ok(Plan {
        reply: Reply::Shown(text),
        change: Change::Nothing,
        row: allowed(alloc, turn, seen.rule)?,
    })
}

/// Returns the plan for a GET of `resource`. The plan is a refusal if the client doesn't see the resource.
#[tactic(auto, unfolding(crate::specs::Step::get_plan))]
fn plan_show<S: Shelf>(
    alloc: Global,
    viewer: &Viewer<'_>,
    shelf: &mut S,
    turn: &Turn,
    wanted: &Wanted,
    resource: &Resource,
) -> Result<Plan, Failed<ShelfFault>>
    ensures plan { IsReadFrom S.stands S.is_honest shelf.old shelf.new result (λ store plan. plan
        ≡ spec.plan_for_seen (viewer_of viewer.now) turn.now
        (spec.get_plan (viewer_of viewer.now) turn.now store.resources wanted.now)
        (Some resource.now)) }
    ensures read { OnlyReads S.stands S.is_honest S.failures S.has_round shelf.old shelf.new result }
{
    let patterns = viewer.patterns(alloc, resource)?;
    let seen = patterns.whole(Leaf::simple(Attribute::Id));
    if !seen.allow {
        return Ok(hidden(alloc, turn, seen)?);
    }
    let text = seen_text(alloc, viewer, shelf, &patterns, resource, wanted)?;
    Ok(told(alloc, turn, seen, text)?)
}

/// Returns the plan for a GET with this outcome. The plan is a refusal if there is no resource or the client doesn't
/// see it.
fn plan_outcome<S: Shelf>(
    alloc: Global,
    viewer: &Viewer<'_>,
    shelf: &mut S,
    turn: &Turn,
    wanted: &Wanted,
    outcome: Option<Outcome>,
) -> Result<Plan, Failed<ShelfFault>>
    ensures plan { IsReadFrom S.stands S.is_honest shelf.old shelf.new result (λ store plan.
        (found : Option Content) → IsLent (viewer_of viewer.now) wanted.now found outcome
        → plan ≡ spec.plan_for_seen (viewer_of viewer.now) turn.now
        (spec.get_plan (viewer_of viewer.now) turn.now store.resources wanted.now) found) }
    ensures read { OnlyReads S.stands S.is_honest S.failures S.has_round shelf.old shelf.new result }
{
    match outcome {
        None => Ok(absent(alloc, turn)?),
        Some(Outcome::Hidden(seen)) => Ok(hidden(alloc, turn, seen)?),
        Some(Outcome::Told(seen, text)) => Ok(told(alloc, turn, seen, text)?),
        Some(Outcome::Copy(resource)) => plan_show(alloc, viewer, shelf, turn, wanted, &resource),
    }
}

/// Returns the plan for a GET of the resource that the request names. The plan is a refusal if there is no
/// such resource or the client doesn't see it.
pub(crate) fn plan_get<S: Shelf>(
    alloc: Global,
    viewer: &Viewer<'_>,
    shelf: &mut S,
    turn: &Turn,
    wanted: &Wanted,
) -> Result<Plan, Failed<ShelfFault>>
    ensures plan { IsReadFrom S.stands S.is_honest shelf.old shelf.new result (λ store plan. plan
        ≡ spec.plan_for_seen (viewer_of viewer.now) turn.now
        (spec.get_plan (viewer_of viewer.now) turn.now store.resources wanted.now)
        (spec.sought_resource turn.now store.resources)) }
    ensures read { OnlyReads S.stands S.is_honest S.failures S.has_round shelf.old shelf.new result }
{
    let Some(id) = turn.request.id else {
        return Ok(absent(alloc, turn)?);
    };
    let mut visitor = GetVisitor {
        viewer,
        wanted,
        outcome: None,
    };
    shelf.lend_by_id(alloc, turn.request.kind, id, &mut visitor)?;
    plan_outcome(alloc, viewer, shelf, turn, wanted, visitor.end())
}
