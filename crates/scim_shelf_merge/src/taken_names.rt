//! Tests whether another resource has a unique name of a resource (RFC 7643 section 2.2).
ghost use Rattle.std.specs.Prelude.{◌≡◌, map};
ghost use Rattle.std.specs.List.{list_any};
ghost use Rattle.scim_value.specs.Uniqueness.{name_of};
ghost use Rattle.scim_shelf.specs.Shelves.{OnlyReads};
ghost use Rattle.scim_shelf.specs.Stores.{has_name, is_taken, without};
ghost use Rattle.scim_shelf_merge.specs.Reads.{IsReadKeyed};
ghost use Rattle.scim_shelf_merge.specs.code.Owners.{is_another};

use scim_cell::Id;
use scim_shelf::{Shelf, ShelfFault};
use scim_text::Failed;
use scim_value::{Resource, UniqueName, unique_names};
use std::alloc::Global;

/// Whether there is an owner, and its id isn't `own`.
fn is_another(owner: &Option<Resource>, own: Id) -> bool
    ensures { result ≡ is_another own owner.now }
{
    match owner {
        Some(owner) => own != owner.id(),
        None => false,
    }
}

/// Whether a resource whose id isn't `own` has one of the names.
fn is_any_taken<H: Shelf>(
    alloc: Global,
    shelf: &mut H,
    own: Id,
    names: &[UniqueName],
) -> Result<bool, Failed<ShelfFault>>
    ensures answer { IsReadKeyed H.stands H.is_honest shelf.old shelf.new result (λ cs b. b
        ≡ list_any (λ n. list_any (has_name n) (without own cs)) (map name_of names.now)) }
    ensures read { OnlyReads H.stands H.is_honest H.failures H.has_round shelf.old shelf.new result }
{
    for name in names {
        let owner = shelf.name_owner(alloc, name)?;
        if is_another(&owner, own) {
            return Ok(true);
        }
    }
    Ok(false)
}

/// Whether a resource with another id has one of the unique names of `resource`.
///
/// Fails as [`Shelf::name_owner`] does.
pub(crate) fn has_taken_name<H: Shelf>(
    alloc: Global,
    shelf: &mut H,
    resource: &Resource,
) -> Result<bool, Failed<ShelfFault>>
    ensures answer { IsReadKeyed H.stands H.is_honest shelf.old shelf.new result (λ cs b. b
        ≡ is_taken (without resource.now.id cs) resource.now) }
    ensures read { OnlyReads H.stands H.is_honest H.failures H.has_round shelf.old shelf.new result }
{
    let names = unique_names(alloc, resource)?;
    is_any_taken(alloc, shelf, resource.id(), names.as_slice())
}
