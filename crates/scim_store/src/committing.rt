//! Commits changes with their audit rows.

ghost use Rattle.std.specs.Prelude.{◌≡◌, ◌<◌, ◌≤◌, ◌+◌, ◌↔◌, length, false, IfOk, OnOk, OnErr, IsTrue};
ghost use Rattle.std.specs.Option.{option_copied};
ghost use Rattle.sqlite.specs.State.{HasCleanDisk, Survives};
ghost use Rattle.sqlite.specs.Held.{state};
ghost use Rattle.sqlite.specs.Tree.{Trees};
ghost use Rattle.scim_value.specs.Resource.{HasBase};
ghost use Rattle.scim_shelf.specs.Stores.{Store, IsOld, after};
ghost use Rattle.scim_store_tables.specs.Audit.{last_number};
ghost use Rattle.scim_store_tables.specs.Steps.{DoesIn, Became, Undoes, Leaves};
ghost use Rattle.scim_store_tables.specs.Reading.{Spares};
ghost use Rattle.scim_store.specs.declared.committing.CommitFault.{CommitFault};
ghost use Rattle.scim_store_rows.specs.Finding.{StandsIn};
ghost use Rattle.scim_store.specs.Edits.{KeepsBelow};
ghost use Rattle.scim_shelf.specs.Commits.{committed, after_all};
ghost use Rattle.scim_store.specs.Commits.{AreDue};
ghost use Rattle.scim_store.specs.Committing.{HasStore, AreOf, IsDue, IsDueOver, Changes, Stays};

use crate::changes::edits_of;
use crate::transactions::write_rows;
use scim_audit::AuditRow;
use scim_cell::Atom;
use scim_schema::{Attribute, Leaf, SubAttribute};
use scim_shelf::{Change, Commit};
use scim_store_rows::{AuditTexts, columns_of, find_old};
use scim_text::NoMemory;
use scim_value::{Resource, location};
use sqlite::{Alter, Connection, Error, Transaction};
use std::alloc::Global;
use std::slice;

/// A reason why a change can't be committed.
#[derive(Clone, Copy, PartialEq, Eq)]
pub(crate) enum CommitFault {
    /// The database failed with this error.
    Database(Error),
    /// The resource to store has a location below another base URI.
    OtherBase,
    /// Memory ran out.
    NoMemory,
}

impl From<Error> for CommitFault {
    ghost use Rattle.std.specs.Prelude.{◌≡◌};
    ghost use Rattle.scim_store.specs.declared.committing.CommitFault.{CommitFault};

    ghost from_gives = { λ e f. f ≡ CommitFault.Database e };

    fn from(error: Error) -> CommitFault {
        CommitFault::Database(error)
    }
}

impl From<NoMemory> for CommitFault {
    ghost use Rattle.std.specs.Prelude.{◌≡◌};
    ghost use Rattle.scim_store.specs.declared.committing.CommitFault.{CommitFault};

    ghost from_gives = { λ _ f. f ≡ CommitFault.NoMemory };

    fn from(_: NoMemory) -> CommitFault {
        CommitFault::NoMemory
    }
}

/// Whether the location of the resource is below the base URI.
fn is_below(alloc: Global, base: &str, resource: &Resource) -> Result<bool, NoMemory>
    ensures { IfOk result (λ below. IsTrue below ↔ HasBase base.now resource.now) }
{
    let expected = location(alloc, base, resource.kind(), resource.id())?;
    match resource.get(Leaf::of(Attribute::Meta, SubAttribute::Location), 0) {
        Some(Atom::Text(found)) => Ok(found.as_str() == expected.as_str()),
        _ => Ok(false),
    }
}

/// Whether the location of the resource to store is below the base URI; true if there is no such resource.
fn keeps_below(alloc: Global, base: &str, change: &Change) -> Result<bool, NoMemory>
    ensures { IfOk result (λ below. IsTrue below ↔ KeepsBelow base.now change.now) }
{
    match change {
        Change::Keep(resource) => is_below(alloc, base, resource),
        _ => Ok(true),
    }
}

/// Returns the stored user or group that has the id of the change. `None` if there isn't one, or for
/// `Change::Nothing`.
fn find_old_of<S: Alter>(
    conn: &mut Connection<S>,
    alloc: Global,
    base: &str,
    change: &Change,
) -> Result<Option<Resource>, Error>
    ensures mode { conn.old.in_transaction ≡ false → conn.new.in_transaction ≡ false }
    ensures spares { Spares (state S.Store conn.old) (state S.Store conn.new) }
    ensures found { HasCleanDisk (state S.Store conn.new)
        → IfOk result (λ found. (store : Store) → StandsIn base.now (state S.Store conn.old) store
        → IsOld store.resources change.now found
        × Stays (state S.Store conn.old) (state S.Store conn.new)
        × ((state S.Store conn.new).now ≡ (state S.Store conn.old).now)) }
    ensures undone { HasCleanDisk (state S.Store conn.new)
        → OnErr result ((store : Store) → HasStore base.now (state S.Store conn.old) store
        → HasStore base.now (state S.Store conn.new) store) }
{
    match change {
        Change::Nothing => Ok(None),
        Change::Keep(resource) => find_old(conn, alloc, base, resource.id()),
        Change::Remove(_, id) => find_old(conn, alloc, base, *id),
    }
}

/// Makes a change and adds its audit row with this number, inside a transaction.
fn write_commit<S: Alter>(
    tx: &mut Transaction<'_, S>,
    alloc: Global,
    base: &str,
    commit: &Commit<'_>,
    number: u64,
) -> Result<(), CommitFault>
    requires { number ≤ last_number }
    ensures does { DoesIn S.Store tx.old tx.new result
        (Changes base.now (committed commit.now)
        (IsDueOver (option_copied commit.now.old) commit.now.change.now number)) }
{
    if !keeps_below(alloc, base, commit.change)? {
        return Err(CommitFault::OtherBase);
    }
    let edits = edits_of(alloc, commit.change, commit.old)?;
    let texts = AuditTexts::of(alloc, commit.row)?;
    let columns = columns_of(number, commit.row, &texts);
    write_rows(tx, &edits, &columns)?;
    Ok(())
}

/// Makes these changes and adds their audit rows, in order, inside a transaction. The audit has `rows` rows.
fn write_commits<S: Alter>(
    tx: &mut Transaction<'_, S>,
    alloc: Global,
    base: &str,
    commits: &[Commit<'_>],
    rows: u64,
) -> Result<(), CommitFault>
    requires { rows + length commits.now ≤ last_number }
    ensures does { DoesIn S.Store tx.old tx.new result
        (Changes base.now (after_all commits.now) (AreDue commits.now rows)) }
{
    let mut number = rows;
    for commit in commits {
        number += 1;
        write_commit(tx, alloc, base, commit, number)?;
    }
    Ok(())
}

/// Makes these changes and adds their audit rows, in order, in one transaction. The audit has `rows` rows.
fn write_all<S: Alter>(
    conn: &mut Connection<S>,
    alloc: Global,
    base: &str,
    commits: &[Commit<'_>],
    rows: u64,
) -> Result<(), CommitFault>
    requires idle { conn.old.in_transaction ≡ false }
    requires numbers { rows + length commits.now ≤ last_number }
    ensures idle { conn.new.in_transaction ≡ false }
    ensures made { HasCleanDisk (state S.Store conn.new)
        → OnOk result (Became (state S.Store conn.old) (state S.Store conn.new)
        (Changes base.now (after_all commits.now) (AreDue commits.now rows))) }
    ensures undone { HasCleanDisk (state S.Store conn.new)
        → OnErr result (Undoes (state S.Store conn.old) (state S.Store conn.new)) }
    ensures crash { Survives (state S.Store conn.old) (state S.Store conn.new)
        (Leaves (Changes base.now (after_all commits.now) (AreDue commits.now rows))
        (state S.Store conn.old).now) }
{
    let mut tx = conn.transaction();
    write_commits(&mut tx, alloc, base, commits, rows)?;
    tx.commit()?;
    Ok(())
}

/// Makes these changes and adds their audit rows, in order, in one transaction. The audit has `rows` rows. The
/// `old` of each commit must be the user or group that has the id of its change just before it is made, if any;
/// it is ignored for `Change::Nothing`.
///
/// For each `Change::Keep` the caller guarantees that, just before it is made, no resource with another id
/// shares a unique name with the new resource, and no resource of the other kind has the id of the new
/// resource.
///
/// Fails with `OtherBase` if a resource to store has a location below another base URI, with `NoMemory` if
/// memory runs out, or with the database's error, such as a constraint error if a number is in use. Then
/// nothing is changed and no row is added, or the connection is closed.
///
/// A crash during the call leaves the store as it was before, or with all changes and rows. A crash after a
/// successful call leaves the store with all of them, if the disk returns what was written.
pub(crate) fn commit_all<S: Alter>(
    conn: &mut Connection<S>,
    alloc: Global,
    base: &str,
    commits: &[Commit<'_>],
    rows: u64,
) -> Result<(), CommitFault>
    requires idle { conn.old.in_transaction ≡ false }
    requires numbers { rows + length commits.now ≤ last_number }
    ensures idle { conn.new.in_transaction ≡ false }
    ensures made { HasCleanDisk (state S.Store conn.new)
        → OnOk result ((store : Store) → HasStore base.now (state S.Store conn.old) store
        → AreDue commits.now rows store
        → HasStore base.now (state S.Store conn.new) (after_all commits.now store)) }
    ensures undone { HasCleanDisk (state S.Store conn.new)
        → OnErr result ((store : Store) → HasStore base.now (state S.Store conn.old) store
        → HasStore base.now (state S.Store conn.new) store) }

    // A crash leaves a state that a crash before the call could also leave, or the tables with all changes and
    // their audit rows.
    ensures crash { Survives (state S.Store conn.old) (state S.Store conn.new)
        (Leaves (Changes base.now (after_all commits.now) (AreDue commits.now rows))
        (state S.Store conn.old).now) }

    // After Ok, a crash leaves the tables with all changes and their audit rows.
    ensures durable { HasCleanDisk (state S.Store conn.new)
        → OnOk result ((store : Store) → HasStore base.now (state S.Store conn.old) store
        → AreDue commits.now rows store → (trees : Trees) → (state S.Store conn.new).may_leave trees
        → AreOf base.now (after_all commits.now store) trees) }
{
    write_all(conn, alloc, base, commits, rows)
}

/// Makes the change and adds its audit row, in one transaction. The audit has `rows` rows. `old` must be the
/// stored user or group that has the id of the change, if any. `old` is ignored for `Change::Nothing`.
///
/// The caller guarantees what [`commit_all`] asks of a single commit. Errors and crashes leave what they leave
/// there.
pub(crate) fn commit_over<S: Alter>(
    conn: &mut Connection<S>,
    alloc: Global,
    base: &str,
    old: Option<&Resource>,
    change: &Change,
    row: &AuditRow,
    rows: u64,
) -> Result<(), CommitFault>
    requires idle { conn.old.in_transaction ≡ false }
    requires number { rows < last_number }
    ensures idle { conn.new.in_transaction ≡ false }
    ensures made { HasCleanDisk (state S.Store conn.new)
        → OnOk result ((store : Store) → HasStore base.now (state S.Store conn.old) store
        → IsDueOver (option_copied old.entry) change.now (rows + 1) store
        → HasStore base.now (state S.Store conn.new) (after change.now row.now store)) }
    ensures undone { HasCleanDisk (state S.Store conn.new)
        → OnErr result ((store : Store) → HasStore base.now (state S.Store conn.old) store
        → HasStore base.now (state S.Store conn.new) store) }

    // A crash leaves a state that a crash before the call could also leave, or the tables with the change and
    // its audit row.
    ensures crash { Survives (state S.Store conn.old) (state S.Store conn.new)
        (Leaves (Changes base.now (after change.now row.now)
        (IsDueOver (option_copied old.entry) change.now (rows + 1))) (state S.Store conn.old).now) }

    // After Ok, a crash leaves the tables with the change and its audit row.
    ensures durable { HasCleanDisk (state S.Store conn.new)
        → OnOk result ((store : Store) → HasStore base.now (state S.Store conn.old) store
        → IsDueOver (option_copied old.entry) change.now (rows + 1) store → (trees : Trees)
        → (state S.Store conn.new).may_leave trees
        → AreOf base.now (after change.now row.now store) trees) }
{
    let commit = Commit { old, change, row };
    commit_all(conn, alloc, base, slice::from_ref(&commit), rows)
}

/// Commits a change as [`commit_over`] does, but reads the stored resource with the id of the change from the
/// database. Also fails with the database's error `DatabaseCorrupt` if the document of that resource isn't
/// valid.
pub(crate) fn commit_change<S: Alter>(
    conn: &mut Connection<S>,
    alloc: Global,
    base: &str,
    change: &Change,
    row: &AuditRow,
    rows: u64,
) -> Result<(), CommitFault>
    requires idle { conn.old.in_transaction ≡ false }
    requires number { rows < last_number }
    ensures idle { conn.new.in_transaction ≡ false }
    ensures made { HasCleanDisk (state S.Store conn.new)
        → OnOk result ((store : Store) → HasStore base.now (state S.Store conn.old) store
        → IsDue change.now (rows + 1) store
        → HasStore base.now (state S.Store conn.new) (after change.now row.now store)) }
    ensures undone { HasCleanDisk (state S.Store conn.new)
        → OnErr result ((store : Store) → HasStore base.now (state S.Store conn.old) store
        → HasStore base.now (state S.Store conn.new) store) }

    // A crash leaves a state that a crash before the call could also leave, or the tables with the change and
    // its audit row.
    ensures crash { Survives (state S.Store conn.old) (state S.Store conn.new)
        (Leaves (Changes base.now (after change.now row.now) (IsDue change.now (rows + 1)))
        (state S.Store conn.old).now) }

    // After Ok, a crash leaves the tables with the change and its audit row.
    ensures durable { HasCleanDisk (state S.Store conn.new)
        → OnOk result ((store : Store) → HasStore base.now (state S.Store conn.old) store
        → IsDue change.now (rows + 1) store → (trees : Trees) → (state S.Store conn.new).may_leave trees
        → AreOf base.now (after change.now row.now store) trees) }
{
    let old = find_old_of(conn, alloc, base, change)?;
    commit_over(conn, alloc, base, old.as_ref(), change, row, rows)
}
