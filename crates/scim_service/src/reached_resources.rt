//! Reads the resource that a request names, if its client sees it.
ghost use Rattle.std.specs.Prelude.{◌≡◌, IfOk};
ghost use Rattle.scim_view.specs.View.{viewer_of};
ghost use Rattle.scim_shelf.specs.Shelves.{IsReadFrom, OnlyReads};
ghost use Rattle.scim_service.specs.code.Reached.{HasRights, IsReached};

use crate::plans::{Plan, absent, found, hidden};
use crate::requests::Turn;
use scim_policy::Rights;
use scim_schema::{Attribute, Leaf};
use scim_shelf::{Shelf, ShelfFault};
use scim_text::Failed;
use scim_value::Resource;
use scim_view::Viewer;
use std::alloc::Global;

/// The resource that a request names, or the plan that refuses the request if there is no such resource or
/// the client doesn't see it.
#[derive(Drop)]
pub(crate) enum Reached<'p> {
    /// The client sees the resource. Has the resource and the client's rights to it.
    Seen(Resource, Rights<'p>),
    /// There is no such resource, or the client doesn't see it. Has the plan that refuses the request.
    Told(Plan),
}

/// Reads the resource that the request names and the client's rights to it. Returns the plan that refuses the
/// request instead if there is no such resource or the client doesn't see it.
pub(crate) fn reach<'p, S: Shelf>(
    alloc: Global,
    viewer: &Viewer<'p>,
    shelf: &mut S,
    turn: &Turn,
) -> Result<Reached<'p>, Failed<ShelfFault>>
    ensures answer { IsReadFrom S.stands S.is_honest shelf.old shelf.new result (λ store it.
        IsReached (viewer_of viewer.now) turn.now store.resources it) }
    ensures rights { IfOk result (HasRights (viewer_of viewer.now)) }
    ensures read { OnlyReads S.stands S.is_honest S.failures S.has_round shelf.old shelf.new result }
{
    let Some(resource) = found(alloc, shelf, turn)? else {
        let plan = absent(alloc, turn)?;
        return Ok(Reached::Told(plan));
    };
    let rights = viewer.policy.rights(alloc, viewer.client, &resource)?;
    let seen = rights.read().whole(Leaf::simple(Attribute::Id));
    if seen.allow {
        return Ok(Reached::Seen(resource, rights));
    }
    let plan = hidden(alloc, turn, seen)?;
    Ok(Reached::Told(plan))
}
