//! Creates the tables in an empty database.

ghost use Rattle.std.specs.Prelude.{◌≡◌, false, OnOk, OnErr};
ghost use Rattle.sqlite.specs.State.{HasCleanDisk, Survives};
ghost use Rattle.sqlite.specs.Held.{state};
ghost use Rattle.scim_store_tables.specs.Lists.{Are, no_rows};
ghost use Rattle.scim_store_tables.specs.Steps.{DoesIn, Makes, Became, Undoes, Leaves};
ghost use Rattle.scim_store_tables.specs.Opening.{MakesTables};
ghost use Rattle.scim_store_tables.specs.code.Opening as spec;
ghost use Rattle.scim_store_tables.specs.code.Opening.{IsBefore, IsBehind};
ghost use Rattle.scim_store_tables.specs.declared.queries.Table.TheVariants.{Setting, Taken, Secret};

use crate::queries::Table;
use sqlite::{Alter, Connection, Error, Transaction};

/// Returns the statement that creates a table.
fn creation(table: Table) -> &'static str
    ensures { result.now ≡ spec.creation table }
{
    match table {
        Table::Setting => "CREATE TABLE setting (name TEXT PRIMARY KEY, number INTEGER NOT NULL)",
        Table::Resource => {
            "CREATE TABLE resource (id TEXT PRIMARY KEY, kind INTEGER NOT NULL, document TEXT NOT NULL)"
        }
        Table::Taken => {
            "CREATE TABLE taken (attribute TEXT, folded TEXT, id TEXT, PRIMARY KEY (attribute, folded))"
        }
        Table::Member => {
            "CREATE TABLE member (value TEXT, group_id TEXT, PRIMARY KEY (value, group_id))"
        }
        Table::Audit => {
            "CREATE TABLE audit (number INTEGER PRIMARY KEY, moment INTEGER, client TEXT, op INTEGER, kind INTEGER, id TEXT, decided INTEGER, rule INTEGER, leaf TEXT, refusal INTEGER)"
        }
        Table::Secret => "CREATE TABLE secret (id TEXT PRIMARY KEY, door_code TEXT NOT NULL)",
    }
}

/// Creates a table. The tables that come before it in the schema must exist and have no rows.
fn create_table<S: Alter>(tx: &mut Transaction<'_, S>, table: Table) -> Result<usize, Error>
    ensures does { DoesIn S.Store tx.old tx.new result (Makes (IsBefore table) (IsBehind table)) }
{
    tx.execute(creation(table), &[])
}

/// Writes the version of the tables, 2, to `setting`.
fn insert_version<S: Alter>(tx: &mut Transaction<'_, S>) -> Result<usize, Error>
    ensures does { DoesIn S.Store tx.old tx.new result
        (Makes (IsBehind Secret) (λ db. Are db no_rows)) }
{
    tx.execute(
        "INSERT INTO setting (name, number) VALUES ('version', 2)",
        &[],
    )
}

/// Creates the first three tables: `setting`, `resource` and `taken`.
fn create_first<S: Alter>(tx: &mut Transaction<'_, S>) -> Result<usize, Error>
    ensures does { DoesIn S.Store tx.old tx.new result (Makes (IsBefore Setting) (IsBehind Taken)) }
{
    create_table(tx, Table::Setting)?;
    create_table(tx, Table::Resource)?;
    create_table(tx, Table::Taken)
}

/// Creates the last three tables: `member`, `audit` and `secret`.
fn create_last<S: Alter>(tx: &mut Transaction<'_, S>) -> Result<usize, Error>
    ensures does { DoesIn S.Store tx.old tx.new result (Makes (IsBehind Taken) (IsBehind Secret)) }
{
    create_table(tx, Table::Member)?;
    create_table(tx, Table::Audit)?;
    create_table(tx, Table::Secret)
}

/// Creates the six tables inside a transaction, in a database without tables, indexes and views, and writes
/// version 2 to `setting`.
///
/// Returns the number of rows written, as the database counts them. Fails with the database's error, for
/// instance if a table with one of these names exists, if the disk failed or if memory ran out. Then nothing
/// is committed, but the transaction may have been rolled back: the caller must drop it.
pub fn make_tables<S: Alter>(tx: &mut Transaction<'_, S>) -> Result<usize, Error>
    ensures does { DoesIn S.Store tx.old tx.new result MakesTables }
{
    create_first(tx)?;
    create_last(tx)?;
    insert_version(tx)
}

/// Creates the six tables in a database without tables, indexes and views, and writes version 2 to
/// `setting`, all in one transaction.
///
/// Fails with the database's error, for instance if a table with one of these names exists, if the disk
/// failed or if memory ran out. Then nothing is changed, or the connection is closed.
pub fn create_tables<S: Alter>(conn: &mut Connection<S>) -> Result<(), Error>
    requires { conn.old.in_transaction ≡ false }
    ensures idle { conn.new.in_transaction ≡ false }
    ensures made { HasCleanDisk (state S.Store conn.new)
        → OnOk result (Became (state S.Store conn.old) (state S.Store conn.new) MakesTables) }
    ensures undone { HasCleanDisk (state S.Store conn.new)
        → OnErr result (Undoes (state S.Store conn.old) (state S.Store conn.new)) }

    // A crash leaves the new tables, or a state that a crash before the call could also leave.
    ensures crash { Survives (state S.Store conn.old) (state S.Store conn.new)
        (Leaves MakesTables (state S.Store conn.old).now) }
{
    let mut tx = conn.transaction();
    make_tables(&mut tx)?;
    tx.commit()
}
