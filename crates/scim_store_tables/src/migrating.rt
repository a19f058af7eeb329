//! Migrates the tables from version 1 to version 2.

ghost use Rattle.std.specs.Prelude.{◌≡◌, false, OnOk, OnErr};
ghost use Rattle.sqlite.specs.State.{HasCleanDisk, Survives};
ghost use Rattle.sqlite.specs.Held.{state};
ghost use Rattle.scim_store_tables.specs.Steps.{DoesIn, Became, Undoes, Leaves};
ghost use Rattle.scim_store_tables.specs.Migrating.{Migrates};
ghost use Rattle.scim_store_tables.specs.code.Migrating.{MayAddSecret, MaySetVersion};

use sqlite::{Alter, Connection, Error, Transaction};

/// Creates the table `secret` in a database with the tables of version 1.
fn add_secret<S: Alter>(tx: &mut Transaction<'_, S>) -> Result<usize, Error>
    ensures does { DoesIn S.Store tx.old tx.new result MayAddSecret }
{
    tx.execute(
        "CREATE TABLE secret (id TEXT PRIMARY KEY, door_code TEXT NOT NULL)",
        &[],
    )
}

/// Sets the version in `setting` to 2.
fn set_version<S: Alter>(tx: &mut Transaction<'_, S>) -> Result<usize, Error>
    ensures does { DoesIn S.Store tx.old tx.new result MaySetVersion }
{
    tx.execute("UPDATE setting SET number = 2 WHERE name = 'version'", &[])
}

/// Migrates the tables inside a transaction.
fn migrate_inside<S: Alter>(tx: &mut Transaction<'_, S>) -> Result<usize, Error>
    ensures does { DoesIn S.Store tx.old tx.new result Migrates }
{
    add_secret(tx)?;
    set_version(tx)
}

/// Migrates the tables of a database from version 1 to version 2, in one transaction: creates the table
/// `secret`, which has no rows, and sets the version in `setting` to 2. No other row is written. The database
/// must have the tables of version 1.
///
/// Fails with the database's error, for instance if the disk failed or if memory ran out. Then the tables are
/// those of version 1 as before the call, or the connection is closed.
pub fn migrate<S: Alter>(conn: &mut Connection<S>) -> Result<(), Error>
    requires { conn.old.in_transaction ≡ false }
    ensures idle { conn.new.in_transaction ≡ false }
    ensures migrated { HasCleanDisk (state S.Store conn.new)
        → OnOk result (Became (state S.Store conn.old) (state S.Store conn.new) Migrates) }
    ensures undone { HasCleanDisk (state S.Store conn.new)
        → OnErr result (Undoes (state S.Store conn.old) (state S.Store conn.new)) }

    // A crash leaves the migrated tables, or a state that a crash before the call could also leave.
    ensures crash { Survives (state S.Store conn.old) (state S.Store conn.new)
        (Leaves Migrates (state S.Store conn.old).now) }
{
    let mut tx = conn.transaction();
    migrate_inside(&mut tx)?;
    tx.commit()
}
