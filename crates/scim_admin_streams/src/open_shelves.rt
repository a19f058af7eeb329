//! Shelves that an administrator can look into.
ghost use Rattle.std.specs.Prelude.{IfOk};
ghost use Rattle.scim_shelf.specs.Shelves.{Answers};
ghost use Rattle.scim_store_rows.specs.Auditing.{AreRowsFrom};
ghost use Rattle.scim_admin_streams.specs.Shelves.{KeepsShelf};

use scim_audit::AuditRow;
use scim_shelf::{BatchShelf, Shelf, ShelfFault};
use scim_shelf_cache::CachedShelf;
use scim_shelf_watch::{WatchedShelf, Watcher};
use scim_store::SqlShelf;
use scim_text::Failed;
use sqlite::Alter;
use std::alloc::Global;

/// A shelf that an administrator can look into: it shows the rows of its audit, and tells of its cache.
pub trait OpenShelf: Shelf {
    /// Returns at most `count` rows of the audit from number `from` on, in order. Rows are numbered from 1, and
    /// 0 counts as 1.
    ///
    /// Fails with `Device` if the device failed, and with `NoMemory` in a round too. An error leaves the stored
    /// resources and the audit unchanged.
    fn rows_from(
        &mut self,
        alloc: Global,
        from: u64,
        count: u64,
    ) -> Result<Vec<AuditRow>, Failed<ShelfFault>>
        ensures answer { IfOk result (Answers Self.stands Self.is_honest self.old self.new (λ store rows.
            AreRowsFrom from count store rows.items)) }
        ensures keeps { KeepsShelf Self.stands Self.is_honest Self.has_round self.old self.new };

    /// Returns the number of resources in the cache; `None` if there is no cache, or if it isn't filled.
    fn resident(&mut self) -> Option<u64>
        ensures keeps { KeepsShelf Self.stands Self.is_honest Self.has_round self.old self.new };

    /// Reads all resources into the cache, if there is one. Fails with `Device` if the device failed. After an
    /// error the cache is unchanged.
    fn fill_cache(&mut self, alloc: Global) -> Result<(), Failed<ShelfFault>>
        ensures keeps { KeepsShelf Self.stands Self.is_honest Self.has_round self.old self.new };
}

impl<T: Alter> OpenShelf for SqlShelf<T> {
    fn rows_from(
        &mut self,
        alloc: Global,
        from: u64,
        count: u64,
    ) -> Result<Vec<AuditRow>, Failed<ShelfFault>> {
        self.audit_rows(alloc, from, count)
    }

    fn resident(&mut self) -> Option<u64> {
        None
    }

    fn fill_cache(&mut self, _alloc: Global) -> Result<(), Failed<ShelfFault>> {
        Ok(())
    }
}

impl<S: OpenShelf + BatchShelf> OpenShelf for CachedShelf<S> {
    fn rows_from(
        &mut self,
        alloc: Global,
        from: u64,
        count: u64,
    ) -> Result<Vec<AuditRow>, Failed<ShelfFault>> {
        // The rows of the round aren't in the shelf below yet.
        if self.is_in_round() {
            return Err(Failed::NoMemory);
        }
        self.lower_mut().rows_from(alloc, from, count)
    }

    fn resident(&mut self) -> Option<u64> {
        self.cached().map(|count| count as u64)
    }

    fn fill_cache(&mut self, alloc: Global) -> Result<(), Failed<ShelfFault>> {
        self.fill(alloc)
    }
}

impl<S: OpenShelf, W: Watcher> OpenShelf for WatchedShelf<S, W> {
    fn rows_from(
        &mut self,
        alloc: Global,
        from: u64,
        count: u64,
    ) -> Result<Vec<AuditRow>, Failed<ShelfFault>> {
        self.lower_mut().rows_from(alloc, from, count)
    }

    fn resident(&mut self) -> Option<u64> {
        self.lower_mut().resident()
    }

    fn fill_cache(&mut self, alloc: Global) -> Result<(), Failed<ShelfFault>> {
        self.lower_mut().fill_cache(alloc)
    }
}
