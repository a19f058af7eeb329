//! A shelf that tells a watcher what is committed to the shelf below it.
ghost use Rattle.std.specs.Prelude.{◌≡◌, ◌<◌, ◌+◌, ◌^◌, [], length, drop};
ghost use Rattle.std.specs.Borrow.{Lends, sem};
ghost use Rattle.scim_shelf.specs.Stores.{Store};
ghost use Rattle.scim_shelf.specs.Shelves.{Counts};
ghost use Rattle.scim_shelf_watch.specs.contracts.watched.WatchedShelf.{the_row};
ghost use Rattle.scim_shelf_watch.specs.Watched.{Represents, IsInRound, begun_rows, committed_rows, lower_of, watcher_of, rows_of, before_of, told_rows_of, with_lower, with_watcher};

use crate::watcher::Watcher;
use scim_audit::AuditRow;
use scim_cell::Id;
use scim_schema::Kind;
use scim_shelf::{Change, LeafText, Shelf, ShelfFault, Visitor};
use scim_text::Failed;
use scim_value::{Resource, UniqueName};
use std::alloc::Global;

/// A shelf that tells a watcher what is committed to another shelf, the shelf below.
///
/// It represents the same store as the shelf below. Reads go to the shelf below. A commit asks the watcher,
/// tells it that the commit begins, commits to the shelf below, and tells the watcher the result. In a round of the
/// shelf below the watcher is told the result when the round is settled. The watcher is told of each row that was
/// committed since the watching began: once, in order, and with its number, as long as there are fewer than 2^64
/// rows.
#[derive(Drop)]
pub struct WatchedShelf<S, W> {
    lower: S,
    watcher: W,
    /// The count of audit rows when the watching began.
    before: u64,
    /// The count of audit rows, with those of the round that is under way.
    rows: u64,
    /// The count of audit rows that the watcher was told to be committed.
    told_rows: u64,
    /// Whether a round of the shelf below is under way.
    in_round: bool,
    /// How often the shelf below failed with `Device`, or the watcher refused a commit; 2^64 - 1 at most.
    failures: u64,
}

impl<S: Shelf, W: Watcher> WatchedShelf<S, W> {
    /// Returns a shelf over the shelf `lower`, which has this count of audit rows. The watcher must not have
    /// been told of any rows yet.
    pub fn over(lower: S, watcher: W, rows: u64) -> WatchedShelf<S, W>
        ensures lower { lower_of result ≡ lower }
        ensures watcher { watcher_of result ≡ watcher }
        ensures rows { rows_of result ≡ rows }
        ensures before { before_of result ≡ rows }
        ensures failures { ⟦<WatchedShelf<S, W> as Shelf>⟧.failures result ≡ 0 }
        ensures stands { (store : Store) → S.stands lower store
            → (length store.audit < 2 ^ 64 → rows ≡ length store.audit) → W.told watcher [] []
            → ⟦<WatchedShelf<S, W> as Shelf>⟧.stands result store }
    {
        WatchedShelf {
            lower,
            watcher,
            before: rows,
            rows,
            told_rows: rows,
            in_round: false,
            failures: 0,
        }
    }

    /// Returns the shelf below. The watcher isn't told of commits made through this reference, so they count
    /// as writes by others.
    pub fn lower_mut(&mut self) -> &mut S
        ensures* writes_back { sem 𝓛
            (Lends (the_row S.row W.row) S.row self.entry result (λ lower. with_lower self.old lower)) }
        ensures shows { result.now ≡ lower_of self.old }
    {
        &mut self.lower
    }

    /// Returns the watcher. As long as there are fewer than 2^64 rows, it has been told of exactly the rows
    /// that were committed since the watching began, and of those of the round that is under way.
    pub fn watcher(&self) -> &W
        ensures value { result.now ≡ watcher_of self.now }
        ensures told { (store : Store) → ⟦<WatchedShelf<S, W> as Shelf>⟧.stands self.now store
            → length store.audit < 2 ^ 64
            → W.told result.now (committed_rows (before_of self.now) (told_rows_of self.now)
            store.audit) (begun_rows (told_rows_of self.now) store.audit) }
    {
        &self.watcher
    }

    /// Returns the watcher.
    pub fn watcher_mut(&mut self) -> &mut W
        ensures* writes_back { sem 𝓛
            (Lends (the_row S.row W.row) W.row self.entry result
            (λ watcher. with_watcher self.old watcher)) }
        ensures shows { result.now ≡ watcher_of self.old }
    {
        &mut self.watcher
    }

    /// Returns the count of audit rows, with those of the round that is under way.
    pub fn rows(&self) -> u64
        ensures value { result ≡ rows_of self.now }
        ensures count { (store : Store) → ⟦<WatchedShelf<S, W> as Shelf>⟧.stands self.now store
            → length store.audit < 2 ^ 64 → result ≡ length store.audit }
    {
        self.rows
    }
}

impl<S: Shelf, W: Watcher + Drop> WatchedShelf<S, W> {
    /// Returns the shelf below, which has all committed changes. The watcher is dropped.
    pub fn into_lower(self) -> S
        ensures { result ≡ lower_of self }
    {
        let WatchedShelf { lower, .. } = self;
        lower
    }
}

/// Returns the outcome of a call, and counts a failure of the device in `failures`.
fn counted<T>(
    failures: &mut u64,
    outcome: Result<T, Failed<ShelfFault>>,
) -> Result<T, Failed<ShelfFault>>
    ensures same { result ≡ outcome }
    ensures counts { Counts failures.old failures.new result }
{
    if let Err(Failed::Because(ShelfFault::Device)) = &outcome {
        *failures = failures.saturating_add(1);
    }
    outcome
}

impl<S: Shelf, W: Watcher> Shelf for WatchedShelf<S, W> {
    ghost stands = { λ shelf store. Represents S.stands W.told shelf store };

    ghost is_honest = { λ shelf. S.is_honest shelf.lower };

    ghost failures = { λ shelf. shelf.failures };

    ghost has_round = { λ shelf round. IsInRound S.has_round W.told shelf round };

    fn by_id(
        &mut self,
        alloc: Global,
        kind: Kind,
        id: Id,
    ) -> Result<Option<Resource>, Failed<ShelfFault>> {
        counted(&mut self.failures, self.lower.by_id(alloc, kind, id))
    }

    fn lend_by_id<V: Visitor>(
        &mut self,
        alloc: Global,
        kind: Kind,
        id: Id,
        visitor: &mut V,
    ) -> Result<(), Failed<ShelfFault>> {
        counted(
            &mut self.failures,
            self.lower.lend_by_id(alloc, kind, id, visitor),
        )
    }

    fn name_owner(
        &mut self,
        alloc: Global,
        name: &UniqueName,
    ) -> Result<Option<Resource>, Failed<ShelfFault>> {
        counted(&mut self.failures, self.lower.name_owner(alloc, name))
    }

    fn groups_with<V: Visitor>(
        &mut self,
        alloc: Global,
        value: &str,
        visitor: &mut V,
    ) -> Result<(), Failed<ShelfFault>> {
        counted(
            &mut self.failures,
            self.lower.groups_with(alloc, value, visitor),
        )
    }

    fn each<V: Visitor>(
        &mut self,
        alloc: Global,
        kind: Kind,
        visitor: &mut V,
    ) -> Result<(), Failed<ShelfFault>> {
        counted(&mut self.failures, self.lower.each(alloc, kind, visitor))
    }

    fn each_of<V: Visitor>(
        &mut self,
        alloc: Global,
        kind: Kind,
        texts: &[LeafText<'_>],
        visitor: &mut V,
    ) -> Result<(), Failed<ShelfFault>> {
        counted(
            &mut self.failures,
            self.lower.each_of(alloc, kind, texts, visitor),
        )
    }

    fn each_from<V: Visitor>(
        &mut self,
        alloc: Global,
        kind: Kind,
        skipped: usize,
        count: usize,
        visitor: &mut V,
    ) -> Result<usize, Failed<ShelfFault>> {
        counted(
            &mut self.failures,
            self.lower.each_from(alloc, kind, skipped, count, visitor),
        )
    }

    fn commit(
        &mut self,
        alloc: Global,
        change: Change,
        row: AuditRow,
    ) -> Result<(), Failed<ShelfFault>> {
        let number = self.rows.saturating_add(1);
        if !self.watcher.allows() {
            let refused = Err(Failed::Because(ShelfFault::Device));
            return counted(&mut self.failures, refused);
        }
        self.watcher.begins(alloc, number, &row)?;
        match counted(&mut self.failures, self.lower.commit(alloc, change, row)) {
            Ok(()) => {
                self.rows = number;
                if !self.in_round {
                    self.told_rows = number;
                    self.watcher.committed();
                }
                Ok(())
            }
            Err(fault) => {
                self.watcher.failed(&fault);
                Err(fault)
            }
        }
    }

    fn begin_round(&mut self, alloc: Global) -> bool {
        if self.in_round || !self.lower.begin_round(alloc) {
            return false;
        }
        self.in_round = true;
        true
    }

    fn settle(&mut self, alloc: Global) -> Result<(), Failed<ShelfFault>> {
        if !self.in_round {
            return Ok(());
        }
        self.in_round = false;
        match counted(&mut self.failures, self.lower.settle(alloc)) {
            Ok(()) => {
                self.told_rows = self.rows;
                self.watcher.committed();
                Ok(())
            }
            Err(fault) => {
                self.rows = self.told_rows;
                self.watcher.lost(&fault);
                Err(fault)
            }
        }
    }

    fn failures(&self) -> u64 {
        self.failures
    }
}
