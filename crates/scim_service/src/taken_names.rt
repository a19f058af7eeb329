//! Tests whether unique names are in use (RFC 7643 section 2.2).
ghost use Rattle.std.specs.Prelude.{◌≡◌, map};
ghost use Rattle.std.specs.List.{list_any};
ghost use Rattle.scim_value.specs.Uniqueness.{name_of};
ghost use Rattle.scim_shelf.specs.Shelves.{IsReadFrom, OnlyReads};
ghost use Rattle.scim_shelf.specs.Stores.{has_name, is_taken};
ghost use Rattle.scim_service.specs.code.Others as spec;

use scim_cell::Id;
use scim_shelf::{Shelf, ShelfFault};
use scim_text::Failed;
use scim_value::{Resource, UniqueName, unique_names};
use std::alloc::Global;

/// Whether there is an owner, and its id isn't `own`.
fn is_another(owner: &Option<Resource>, own: &Option<Id>) -> bool
    ensures { result ≡ spec.is_another own.now owner.now }
{
    match owner {
        Some(owner) => match own {
            Some(own) => *own != owner.id(),
            None => true,
        },
        None => false,
    }
}

/// Whether any resource whose id isn't `own` has one of `names`.
fn any_taken<S: Shelf>(
    alloc: Global,
    shelf: &mut S,
    own: &Option<Id>,
    names: &[UniqueName],
) -> Result<bool, Failed<ShelfFault>>
    ensures answer { IsReadFrom S.stands S.is_honest shelf.old shelf.new result (λ store b. b
        ≡ list_any (λ n. list_any (has_name n) (spec.beside own.now store.resources))
        (map name_of names.now)) }
    ensures read { OnlyReads S.stands S.is_honest S.failures S.has_round shelf.old shelf.new result }
{
    match names {
        [] => Ok(false),
        [name, rest @ ..] => {
            let owner = shelf.name_owner(alloc, name)?;
            if is_another(&owner, own) {
                return Ok(true);
            }
            any_taken(alloc, shelf, own, rest)
        }
    }
}

/// Whether a resource other than the one with the id `own` has one of the unique names of `new`. Includes
/// resources that the client doesn't see.
pub(crate) fn has_taken_name<S: Shelf>(
    alloc: Global,
    shelf: &mut S,
    own: &Option<Id>,
    new: &Resource,
) -> Result<bool, Failed<ShelfFault>>
    ensures answer { IsReadFrom S.stands S.is_honest shelf.old shelf.new result (λ store b. b
        ≡ is_taken (spec.beside own.now store.resources) new.now) }
    ensures read { OnlyReads S.stands S.is_honest S.failures S.has_round shelf.old shelf.new result }
{
    let names = unique_names(alloc, new)?;
    any_taken(alloc, shelf, own, names.as_slice())
}
