//! A watcher that keeps the rows that it is told of.
ghost use Rattle.std.specs.Prelude.{◌≡◌, List, [], map};
ghost use Rattle.scim_shelf_watch.specs.Watched.{NumberedRow};
ghost use Rattle.case_watchers.specs.Watchers.{HasTold, told_row};

use scim_audit::AuditRow;
use scim_shelf::ShelfFault;
use scim_shelf_watch::Watcher;
use scim_text::{Failed, NoMemory, push};
use std::alloc::Global;

/// A row and its number, as a watcher was told.
pub struct ToldRow {
    /// The number of the row.
    pub number: u64,
    /// The row.
    pub row: AuditRow,
}

impl Drop for ToldRow {
    fn drop(self) {
        let ToldRow {
            number: _,
            row: _row,
        } = self;
    }
}

/// A watcher that allows each commit and keeps copies of the rows that were committed.
#[derive(Drop)]
pub struct RowWatcher {
    /// The rows that were committed, and behind them the rows of the commits that have begun.
    rows: Vec<ToldRow>,
    /// The number of rows that were committed.
    committed: usize,
}

impl RowWatcher {
    /// Returns a watcher that has been told of no row.
    pub fn new(alloc: Global) -> RowWatcher
        ensures { ⟦<RowWatcher as Watcher>⟧.told result [] [] }
    {
        RowWatcher {
            rows: Vec::new(alloc),
            committed: 0,
        }
    }

    /// Returns the rows that were committed, in order.
    pub fn rows(&self) -> &[ToldRow]
        ensures { (rows begun : List NumberedRow) → ⟦<RowWatcher as Watcher>⟧.told self.now rows begun
            → map told_row result.now ≡ rows }
    {
        let count = self.committed.min(self.rows.len());
        self.rows.as_slice().split_at(count).0
    }
}

impl Watcher for RowWatcher {
    ghost told = { HasTold };

    ghost allowed = { HasTold };

    fn allows(&mut self) -> bool {
        true
    }

    fn begins(&mut self, alloc: Global, number: u64, row: &AuditRow) -> Result<(), NoMemory> {
        let row = row.try_copy(alloc)?;
        push(&mut self.rows, ToldRow { number, row })
    }

    fn committed(&mut self) {
        self.committed = self.rows.len();
    }

    fn failed(&mut self, _fault: &Failed<ShelfFault>) {
        let _row = self.rows.pop();
    }

    fn lost(&mut self, _fault: &Failed<ShelfFault>) {
        self.rows.truncate(self.committed);
    }
}
