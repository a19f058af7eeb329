//! The stores over which cases answer whole requests.
use crate::databases::opened;
use crate::faults::StoreFault;
use case_values::{Case, CaseFault, push_all, push_rows_after};
use case_watchers::{RowWatcher, ToldRow};
use scim_audit::{AuditRow, print_row};
use scim_shelf::{BatchShelf, MemoryShelf, Shelf};
use scim_shelf_cache::CachedShelf;
use scim_shelf_watch::WatchedShelf;
use scim_store::SqlShelf;
use scim_text::push;
use sqlite::Alter;
use std::alloc::Global;

/// A store over which cases answer whole requests, and its audit.
pub trait Audited: Shelf {
    /// Returns the rows of the audit, without the first `known` rows.
    fn rows_after(&mut self, alloc: Global, known: u64) -> Result<Vec<AuditRow>, StoreFault>;

    /// Closes the database of the store, opens it again and returns the store. Returns a store in memory
    /// unchanged.
    fn reopened(self, case: &Case<'_>) -> Result<Self, StoreFault>;

    /// Closes the store.
    fn close(self);
}

impl Audited for MemoryShelf {
    fn rows_after(&mut self, alloc: Global, known: u64) -> Result<Vec<AuditRow>, StoreFault> {
        Ok(copied_after(alloc, self.audit(), known as usize)?)
    }

    fn reopened(self, _case: &Case<'_>) -> Result<MemoryShelf, StoreFault> {
        Ok(self)
    }

    fn close(self) {}
}

impl<S: Alter + Drop> Audited for SqlShelf<S> {
    fn rows_after(&mut self, alloc: Global, known: u64) -> Result<Vec<AuditRow>, StoreFault> {
        match self.audit_rows(alloc, known.saturating_add(1), u64::MAX) {
            Ok(rows) => Ok(rows),
            Err(_) => Err(StoreFault::NotRead),
        }
    }

    fn reopened(self, case: &Case<'_>) -> Result<SqlShelf<S>, StoreFault> {
        opened(case, self.into_connection())
    }

    fn close(self) {
        let _connection = self.into_connection();
    }
}

impl<S: Audited + BatchShelf> Audited for CachedShelf<S> {
    fn rows_after(&mut self, alloc: Global, known: u64) -> Result<Vec<AuditRow>, StoreFault> {
        self.lower_mut().rows_after(alloc, known)
    }

    fn reopened(self, case: &Case<'_>) -> Result<CachedShelf<S>, StoreFault> {
        cached(case.alloc, self.into_lower().reopened(case)?)
    }

    fn close(self) {
        self.into_lower().close();
    }
}

impl<S: Audited> Audited for WatchedShelf<S, RowWatcher> {
    fn rows_after(&mut self, alloc: Global, known: u64) -> Result<Vec<AuditRow>, StoreFault> {
        let rows = self.lower_mut().rows_after(alloc, known)?;
        if are_told(alloc, self.watcher().rows(), known, rows.as_slice())? {
            Ok(rows)
        } else {
            Err(StoreFault::NotTold)
        }
    }

    fn reopened(self, case: &Case<'_>) -> Result<WatchedShelf<S, RowWatcher>, StoreFault> {
        let rows = self.rows();
        Ok(watched(case.alloc, self.into_lower().reopened(case)?, rows))
    }

    fn close(self) {
        self.into_lower().close();
    }
}

/// Returns the store, which has this number of audit rows, with a watcher that keeps the rows that are
/// committed from now on.
pub fn watched<S: Audited>(alloc: Global, shelf: S, rows: u64) -> WatchedShelf<S, RowWatcher> {
    WatchedShelf::over(shelf, RowWatcher::new(alloc), rows)
}

/// Whether a watcher was told of these rows, which come after the first `known` rows, and of no other rows
/// after them.
fn are_told(
    alloc: Global,
    told: &[ToldRow],
    known: u64,
    rows: &[AuditRow],
) -> Result<bool, CaseFault> {
    let mut expected = String::new(alloc);
    push_rows_after(alloc, known, rows, &mut expected)?;
    let mut text = String::new(alloc);
    for told in told {
        if told.number > known {
            let line = print_row(alloc, told.number, &told.row)?;
            push_all(&mut text, &[line.as_str(), ";"])?;
        }
    }
    Ok(text == expected)
}

/// Returns the store with a cache that contains all its resources. If the store can't be read, closes it and
/// fails with `NotRead`.
pub fn cached<S: Audited + BatchShelf>(
    alloc: Global,
    shelf: S,
) -> Result<CachedShelf<S>, StoreFault> {
    let mut store = CachedShelf::over(shelf);
    match store.fill(alloc) {
        Ok(()) => Ok(store),
        Err(_) => {
            store.close();
            Err(StoreFault::NotRead)
        }
    }
}

/// Returns copies of the rows, without the first `known` rows.
fn copied_after(
    alloc: Global,
    rows: &[AuditRow],
    known: usize,
) -> Result<Vec<AuditRow>, CaseFault> {
    let mut copies = Vec::new(alloc);
    for row in rows.iter().skip(known) {
        push(&mut copies, row.try_copy(alloc)?)?;
    }
    Ok(copies)
}
