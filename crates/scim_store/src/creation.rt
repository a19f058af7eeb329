//! The creation of a new store.

ghost use Rattle.std.specs.Prelude.{◌≡◌, false, OnOk, OnErr};
ghost use Rattle.sqlite.specs.State.{HasCleanDisk, Survives};
ghost use Rattle.sqlite.specs.Held.{state};
ghost use Rattle.scim_store_tables.specs.Steps.{Became, Undoes, Leaves};
ghost use Rattle.scim_store.specs.Beginning.{Begins};

use scim_store_tables::create_tables;
use sqlite::{Alter, Connection, Error};

/// Creates the tables of a store in a database without tables, indexes and views, in one transaction. The
/// store has no resources and no audit rows.
///
/// Fails with the database's error, for instance if a table with one of these names exists, if the disk
/// failed or if memory ran out. Then nothing is changed, or the connection is closed.
pub(crate) fn begin_store<S: Alter>(conn: &mut Connection<S>) -> Result<(), Error>
    requires { conn.old.in_transaction ≡ false }
    ensures idle { conn.new.in_transaction ≡ false }
    ensures made { HasCleanDisk (state S.Store conn.new)
        → OnOk result (Became (state S.Store conn.old) (state S.Store conn.new) Begins) }
    ensures undone { HasCleanDisk (state S.Store conn.new)
        → OnErr result (Undoes (state S.Store conn.old) (state S.Store conn.new)) }

    // A crash leaves the new tables, or a state that a crash before the call could also leave.
    ensures crash { Survives (state S.Store conn.old) (state S.Store conn.new)
        (Leaves Begins (state S.Store conn.old).now) }
{
    create_tables(conn)
}
