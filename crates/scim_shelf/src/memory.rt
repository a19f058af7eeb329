//! A shelf in memory.
ghost use Rattle.std.specs.Prelude.{◌≡◌, IfOk, OnOk, AllPairs, ⊤};
ghost use Rattle.scim_value.specs.Uniqueness.{AreApart};
ghost use Rattle.scim_shelf.specs.Stores.{Store, IsNewStore};
ghost use Rattle.scim_shelf.specs.Commits.{CanKeepAll, after_all};
ghost use Rattle.scim_shelf.specs.Shelves.{KeepsStore};
ghost use Rattle.scim_shelf.specs.Collections.{IsCollection};

use crate::changes::Change;
use crate::collections::Collection;
use crate::commits::Commit;
use crate::copies::collection_of;
use crate::faults::ShelfFault;
use crate::leaf_texts::LeafText;
use crate::shelf::{BatchShelf, Shelf, Visitor};
use scim_audit::AuditRow;
use scim_cell::Id;
use scim_schema::Kind;
use scim_text::{Failed, NoMemory, push};
use scim_value::{Resource, UniqueName};
use std::alloc::Global;

/// The largest number of an audit row, 2^63 - 1.
const LAST_NUMBER: u64 = 9_223_372_036_854_775_807;

/// A shelf in memory, with no device that could fail.
///
/// Resources are kept in a [`Collection`]. Only resources that are returned are copied.
pub struct MemoryShelf {
    collection: Collection,
    audit: Vec<AuditRow>,
}

impl Drop for MemoryShelf {
    fn drop(self) {
        let MemoryShelf {
            collection: _collection,
            audit: _audit,
        } = self;
    }
}

impl MemoryShelf {
    /// Returns a shelf of these resources, which may come in any order, with no audit rows. No two of them
    /// may have the same id or share a unique name (RFC 7643 sections 2.2 and 3.1).
    pub fn new(alloc: Global, resources: Vec<Resource>) -> Result<MemoryShelf, NoMemory>
        requires { AllPairs AreApart resources.items }
        ensures { IfOk result (λ shelf. (store : Store) × IsNewStore resources.items store
            × ⟦<MemoryShelf as Shelf>⟧.stands shelf store) }
    {
        let collection = Collection::of(alloc, resources)?;
        Ok(MemoryShelf {
            collection,
            audit: Vec::new(alloc),
        })
    }

    /// Returns a copy.
    fn try_copy(&mut self, alloc: Global) -> Result<MemoryShelf, NoMemory>
        ensures copy { IfOk result (λ copy. (store : Store)
            → ⟦<MemoryShelf as Shelf>⟧.stands self.old store
            → ⟦<MemoryShelf as Shelf>⟧.stands copy store) }
        ensures kept { KeepsStore ⟦<MemoryShelf as Shelf>⟧.stands self.old self.new }
    {
        let audit = copies_of_rows(alloc, self.audit.as_slice())?;
        match collection_of(alloc, self) {
            Ok(collection) => Ok(MemoryShelf { collection, audit }),
            Err(_) => Err(NoMemory),
        }
    }

    /// Returns the audit rows in order: the first has number 1.
    pub fn audit(&self) -> &[AuditRow]
        ensures { (store : Store) → ⟦<MemoryShelf as Shelf>⟧.stands self.now store
            → result.now ≡ store.audit }
    {
        self.audit.as_slice()
    }
}

impl Shelf for MemoryShelf {
    ghost stands = { λ shelf store. IsCollection store.resources shelf.collection × (shelf.audit.items ≡ store.audit) };

    ghost is_honest = { λ _. ⊤ };

    ghost failures = { λ _. 0 };

    fn by_id(
        &mut self,
        alloc: Global,
        kind: Kind,
        id: Id,
    ) -> Result<Option<Resource>, Failed<ShelfFault>> {
        Ok(self.collection.resource_at(alloc, kind, id)?)
    }

    fn lend_by_id<V: Visitor>(
        &mut self,
        alloc: Global,
        kind: Kind,
        id: Id,
        visitor: &mut V,
    ) -> Result<(), Failed<ShelfFault>> {
        Ok(self.collection.show_at(alloc, kind, id, visitor)?)
    }

    fn name_owner(
        &mut self,
        alloc: Global,
        name: &UniqueName,
    ) -> Result<Option<Resource>, Failed<ShelfFault>> {
        Ok(self.collection.name_owner(alloc, name)?)
    }

    fn groups_with<V: Visitor>(
        &mut self,
        alloc: Global,
        value: &str,
        visitor: &mut V,
    ) -> Result<(), Failed<ShelfFault>> {
        Ok(self.collection.show_groups_with(alloc, value, visitor)?)
    }

    fn each<V: Visitor>(
        &mut self,
        alloc: Global,
        kind: Kind,
        visitor: &mut V,
    ) -> Result<(), Failed<ShelfFault>> {
        self.collection.show(alloc, kind, visitor)?;
        Ok(())
    }

    fn each_of<V: Visitor>(
        &mut self,
        alloc: Global,
        kind: Kind,
        texts: &[LeafText<'_>],
        visitor: &mut V,
    ) -> Result<(), Failed<ShelfFault>> {
        Ok(self.collection.show_of(alloc, kind, texts, visitor)?)
    }

    fn each_from<V: Visitor>(
        &mut self,
        alloc: Global,
        kind: Kind,
        skipped: usize,
        count: usize,
        visitor: &mut V,
    ) -> Result<usize, Failed<ShelfFault>> {
        let collection = &self.collection;
        Ok(collection.show_from(alloc, kind, skipped, count, visitor)?)
    }

    fn commit(
        &mut self,
        alloc: Global,
        change: Change,
        row: AuditRow,
    ) -> Result<(), Failed<ShelfFault>> {
        if self.audit.len() as u64 >= LAST_NUMBER {
            return Err(Failed::Because(ShelfFault::Full));
        }
        push(&mut self.audit, row)?;
        match self.collection.make(alloc, change) {
            Ok(()) => Ok(()),
            Err(_) => {
                let _row = self.audit.pop();
                Err(Failed::NoMemory)
            }
        }
    }

    fn settle(&mut self, _alloc: Global) -> Result<(), Failed<ShelfFault>> {
        Ok(())
    }

    fn failures(&self) -> u64 {
        0
    }
}

/// Returns copies of the rows, in order.
fn copies_of_rows(alloc: Global, rows: &[AuditRow]) -> Result<Vec<AuditRow>, NoMemory>
    ensures { IfOk result (λ copies. copies.items ≡ rows.now) }
{
    let mut copies = Vec::with_capacity(alloc, rows.len())?;
    for row in rows {
        let copy = row.try_copy(alloc)?;
        push(&mut copies, copy)?;
    }
    Ok(copies)
}

/// Makes these changes and appends their rows, in order. The caller has seen that there are numbers for them.
///
/// On an error some of them may have been made.
fn commit_each(
    alloc: Global,
    shelf: &mut MemoryShelf,
    commits: &[Commit<'_>],
) -> Result<(), NoMemory>
    ensures { OnOk result ((store : Store) → ⟦<MemoryShelf as Shelf>⟧.stands shelf.old store
        → CanKeepAll commits.now store
        → ⟦<MemoryShelf as Shelf>⟧.stands shelf.new (after_all commits.now store)) }
{
    for commit in commits {
        let change = commit.change.try_copy(alloc)?;
        let row = commit.row.try_copy(alloc)?;
        let Ok(()) = shelf.commit(alloc, change, row) else {
            return Err(NoMemory);
        };
    }
    Ok(())
}

impl BatchShelf for MemoryShelf {
    fn commit_all(
        &mut self,
        alloc: Global,
        commits: &[Commit<'_>],
    ) -> Result<(), Failed<ShelfFault>> {
        let left = LAST_NUMBER.saturating_sub(self.audit.len() as u64);
        if commits.len() as u64 > left {
            return Err(Failed::Because(ShelfFault::Full));
        }
        let mut next = self.try_copy(alloc)?;
        commit_each(alloc, &mut next, commits)?;
        *self = next;
        Ok(())
    }
}
