//! Copies of all resources of a shelf.
ghost use Rattle.std.specs.Prelude.{◌≡◌, IfOk};
ghost use Rattle.scim_cell.specs.Kinds.{of_kind};
ghost use Rattle.scim_shelf.specs.Stores.{AreKeyed};
ghost use Rattle.scim_shelf.specs.Shelves.{Answers, OnlyReads};
ghost use Rattle.scim_shelf.specs.Collections.{IsCollection};

use crate::collections::Collection;
use crate::faults::ShelfFault;
use crate::shelf::{Shelf, Visitor};
use scim_schema::Kind;
use scim_text::{Failed, NoMemory, push};
use scim_value::Resource;
use std::alloc::Global;

/// A visitor that copies each resource into a list.
#[derive(Drop)]
struct Copies {
    resources: Vec<Resource>,
}

impl Visitor for Copies {
    ghost use Rattle.scim_shelf.specs.code.Copies.{Takes};

    ghost takes = { Takes };

    fn take(&mut self, alloc: Global, resource: &Resource) -> Result<(), NoMemory> {
        let copy = resource.try_copy(alloc)?;
        push(&mut self.resources, copy)?;
        Ok(())
    }
}

/// Returns copies of the resources of the kind, in order of id. If the caller needs only one resource at a
/// time, `Shelf::each` avoids the copies.
///
/// Fails as `Shelf::each` does.
pub fn all_of<S: Shelf>(
    alloc: Global,
    shelf: &mut S,
    kind: Kind,
) -> Result<Vec<Resource>, Failed<ShelfFault>>
    ensures answer { IfOk result (Answers S.stands S.is_honest shelf.old shelf.new (λ store all.
        all.items ≡ of_kind kind store.resources)) }
    ensures read { OnlyReads S.stands S.is_honest S.failures S.has_round shelf.old shelf.new result }
{
    let mut copies = Copies {
        resources: Vec::new(alloc),
    };
    shelf.each(alloc, kind, &mut copies)?;
    let Copies { resources } = copies;
    Ok(resources)
}

/// A visitor that copies each resource into a collection.
#[derive(Drop)]
struct Collecting {
    collection: Collection,
}

impl Visitor for Collecting {
    ghost use Rattle.scim_shelf.specs.code.Copies.{Keeps};

    ghost takes = { Keeps };

    fn take(&mut self, alloc: Global, resource: &Resource) -> Result<(), NoMemory> {
        let copy = resource.try_copy(alloc)?;
        self.collection.keep(alloc, copy)
    }
}

/// Returns copies of all resources of a shelf as a collection in memory.
///
/// Fails as `Shelf::each` does.
pub fn collection_of<S: Shelf>(
    alloc: Global,
    shelf: &mut S,
) -> Result<Collection, Failed<ShelfFault>>
    ensures answer { IfOk result (Answers S.stands S.is_honest shelf.old shelf.new
        (λ store collection. AreKeyed store.resources → IsCollection store.resources collection)) }
    ensures read { OnlyReads S.stands S.is_honest S.failures S.has_round shelf.old shelf.new result }
{
    let mut collecting = Collecting {
        collection: Collection::new(alloc),
    };
    shelf.each(alloc, Kind::User, &mut collecting)?;
    shelf.each(alloc, Kind::Group, &mut collecting)?;
    let Collecting { collection } = collecting;
    Ok(collection)
}
