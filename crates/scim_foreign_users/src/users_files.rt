//! Makes a users file of the items of an export.
ghost use Rattle.std.specs.Prelude.{◌≡◌, ◌+◌, ◌<◌, List, Ok, Err, IfOk, length, string_bytes};
ghost use Rattle.serde_json.specs.Data.{array, no_items};
ghost use Rattle.serde_json.specs.Read.{read};
ghost use Rattle.serde_json.specs.Written.{compact_text};
ghost use Rattle.scim_cell.specs.Content.{Content};
ghost use Rattle.scim_text.specs.Failures.{IfFault};
ghost use Rattle.scim_json.specs.Documents.{documents_and};
ghost use Rattle.scim_foreign_users.specs.Resources.{GivesResource};
ghost use Rattle.scim_foreign_users.specs.UsersFiles.{AreMade, IsRefusedAt, IsDocumentList};

use crate::faults::RefusedItem;
use crate::resources::resource_of;
use scim_cell::Id;
use scim_json::stored_text;
use scim_text::{Failed, Moment, NoMemory, push};
use scim_value::Resource;
use std::alloc::Global;

/// Returns the resource of the item at an index, with the JSON text `item`.
///
/// Fails with the number of the item if no resource can be made of it.
fn resource_at(
    alloc: Global,
    base: &str,
    item: &str,
    now: Moment,
    fresh: Id,
    index: usize,
) -> Result<Resource, Failed<RefusedItem>>
    requires { index < usize.MAX }
    ensures made { IfOk result (λ c. GivesResource base.now now fresh (read item.now) (Ok c)) }
    ensures refused { IfFault result (λ refused. (refused.number ≡ index + 1)
        × GivesResource base.now now fresh (read item.now) (Err refused.fault)) }
{
    match resource_of(alloc, base, item, now, fresh) {
        Ok(resource) => Ok(resource),
        Err(Failed::Because(fault)) => {
            let number = index + 1;
            Err(Failed::Because(RefusedItem { number, fault }))
        }
        Err(Failed::NoMemory) => Err(Failed::NoMemory),
    }
}

/// Returns the resources of the items.
///
/// Fails with the first item of which no resource can be made.
fn resources_of(
    alloc: Global,
    base: &str,
    items: &[String],
    now: Moment,
    ids: &[Id],
) -> Result<Vec<Resource>, Failed<RefusedItem>>
    requires { length ids.now ≡ length items.now }
    ensures made { IfOk result (λ v. AreMade base.now now items.now ids.now v.items) }
    ensures refused { IfFault result (IsRefusedAt base.now now items.now ids.now) }
{
    let mut resources = Vec::new(alloc);
    for (index, item) in items.iter().enumerate() {
        let resource = resource_at(alloc, base, item.as_str(), now, ids[index], index)?;
        push(&mut resources, resource)?;
    }
    Ok(resources)
}

/// Returns the JSON list of the stored documents of the resources.
fn list_text(alloc: Global, resources: &[Resource]) -> Result<String, NoMemory>
    ensures { IfOk result (λ text. string_bytes text
        ≡ compact_text (array (documents_and resources.now no_items))) }
{
    let mut text = String::from_str(alloc, "[")?;
    let mut separator = "";
    for resource in resources {
        text.push_str(separator)?;
        text.push_str(stored_text(alloc, resource)?.as_str())?;
        separator = ",";
    }
    text.push_str("]")?;
    Ok(text)
}

/// Makes a users file of the items of an export, whose JSON texts [`crate::items_of_export`] returns: a list with
/// the stored document of one resource for each item, in order. The locations of the resources are below `base`.
///
/// An item is read as the body of a create (RFC 7644 section 3.3): readOnly attributes and unknown keys are
/// ignored. Its kind is the one that `meta.resourceType` names, or else the one whose core schema `schemas`
/// lists. The resource keeps the item's `id` if it has the form of an id, else it gets the id of `ids` at the
/// place of the item. It keeps `meta.created` and `meta.lastModified`, in whole seconds; `now` stands for a
/// moment that is missing, has no form of a moment or is before 1970. Values of `members` stay as they are, also
/// those that name an item by an id that it doesn't keep.
///
/// The result may repeat an id or a unique name; then it isn't a valid users file.
///
/// Fails with [`RefusedItem`], the first item that has no such kind or whose body is refused.
pub fn users_of_items(
    alloc: Global,
    base: &str,
    items: &[String],
    now: Moment,
    ids: &[Id],
) -> Result<String, Failed<RefusedItem>>
    requires { length ids.now ≡ length items.now }
    ensures users { IfOk result (λ text. (cs : List Content)
        × AreMade base.now now items.now ids.now cs
        × IsDocumentList base.now (string_bytes text) cs) }
    ensures refused { IfFault result (IsRefusedAt base.now now items.now ids.now) }
{
    let resources = resources_of(alloc, base, items, now, ids)?;
    Ok(list_text(alloc, resources.as_slice())?)
}
