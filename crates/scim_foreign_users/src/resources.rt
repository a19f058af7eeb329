//! Makes a resource of an item of an export.
ghost use Rattle.std.specs.Prelude.{◌≡◌, IfOk};
ghost use Rattle.serde_json.specs.Read.{read};
ghost use Rattle.scim_text.specs.Failures.{IfFault, UnlessMemory};
ghost use Rattle.scim_body.specs.declared.drafts.UseFor.{UseFor};
ghost use Rattle.scim_foreign_users.specs.Resources.{GivesResource};
ghost use Rattle.scim_foreign_users.specs.code.Stamps.{IsStampOf, HasNoStamp, IsBodyOf};

use crate::faults::ItemFault;
use crate::items::{id_of, kind_of, moment_named};
use json::Scratch;
use scim_body::{Draft, NotJson, Tree, UseFor, read_body};
use scim_cell::{Atom, Id};
use scim_change::create;
use scim_schema::{Attribute, Kind, Leaf, SubAttribute};
use scim_text::{Failed, Moment};
use scim_value::{Invalid, Resource};
use std::alloc::Global;

/// What a resource keeps of its item beside the attributes of a body: its kind, its id, and when it was created
/// and last modified.
#[derive(Clone, Copy)]
pub(crate) struct Stamp {
    pub(crate) kind: Kind,
    pub(crate) id: Id,
    pub(crate) created: Moment,
    pub(crate) modified: Moment,
}

/// Returns what a resource keeps of the item with this text.
///
/// Fails with `NotAnObject` or `NoKind`.
fn stamp_of(alloc: Global, text: &str, now: Moment, fresh: Id) -> Result<Stamp, Failed<ItemFault>>
    ensures stamp { IfOk result (IsStampOf now fresh (read text.now)) }
    ensures none { IfFault result (HasNoStamp (read text.now)) }
{
    let mut scratch = Scratch::new(alloc);
    let tree = match Tree::read(alloc, text, &mut scratch) {
        Ok(tree) => tree,
        Err(Failed::Because(NotJson)) => return Err(Failed::Because(ItemFault::NotAnObject)),
        Err(Failed::NoMemory) => return Err(Failed::NoMemory),
    };
    let Some(members) = tree.as_object() else {
        return Err(Failed::Because(ItemFault::NotAnObject));
    };
    let Some(kind) = kind_of(members) else {
        return Err(Failed::Because(ItemFault::NoKind));
    };
    Ok(Stamp {
        kind,
        id: id_of(members, fresh),
        created: moment_named(members, "created", now),
        modified: moment_named(members, "lastModified", now),
    })
}

/// Reads the item with this text as the body of a create.
///
/// Fails with `Body` if the body is refused.
fn body_of(alloc: Global, kind: Kind, text: &str) -> Result<Draft, Failed<ItemFault>>
    ensures body { UnlessMemory (IsBodyOf kind (read text.now)) result }
    ensures creating { IfOk result (λ draft. draft.use_for ≡ UseFor.Creating) }
{
    match read_body(alloc, kind, UseFor::Creating, text) {
        Ok(draft) => Ok(draft),
        Err(Failed::Because(fault)) => Err(Failed::Because(ItemFault::Body(fault))),
        Err(Failed::NoMemory) => Err(Failed::NoMemory),
    }
}

/// Returns the resource that a create makes of the item with this JSON text (RFC 7644 section 3.3), with the id
/// and the moments of the item. It gets the id `fresh` if the item has no id of the right form, and the moment
/// `now` in place of a moment that the item doesn't have. Its location is below `base`.
///
/// Fails with `NotAnObject`, `NoKind` or `Body`, in this order. Fails with `Invalid` if the result isn't valid
/// as a resource.
pub(crate) fn resource_of(
    alloc: Global,
    base: &str,
    text: &str,
    now: Moment,
    fresh: Id,
) -> Result<Resource, Failed<ItemFault>>
    ensures { UnlessMemory (GivesResource base.now now fresh (read text.now)) result }
{
    let stamp = stamp_of(alloc, text, now, fresh)?;
    let draft = body_of(alloc, stamp.kind, text)?;
    let resource = create(alloc, &draft, stamp.id, stamp.created, base)?;
    let last_modified = Leaf::of(Attribute::Meta, SubAttribute::LastModified);
    match resource.with(alloc, last_modified, 0, Atom::Moment(stamp.modified)) {
        Ok(resource) => Ok(resource),
        Err(Failed::Because(Invalid)) => Err(Failed::Because(ItemFault::Invalid)),
        Err(Failed::NoMemory) => Err(Failed::NoMemory),
    }
}
