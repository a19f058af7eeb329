//! Reads the resource that a change replaces or removes.

ghost use Rattle.std.specs.Prelude.{◌≡◌, false, filter, option_map, string_bytes, IfOk, OnOk};
ghost use Rattle.sqlite.specs.State.{HasCleanDisk, IsUnchanged};
ghost use Rattle.sqlite.specs.Held.{state};
ghost use Rattle.scim_shelf.specs.Stores.{Store};
ghost use Rattle.scim_store_tables.specs.Lists.{Lists, has_text};
ghost use Rattle.scim_store_tables.specs.Reading.{Rests, Spares, HasTables, Holds, Finds};
ghost use Rattle.scim_store_rows.specs.Finding.{StandsIn, FindsOld};

use crate::look_ups::{read_parts, text_of};
use scim_cell::Id;
use scim_store_tables::{ask, find_secret, first_text};
use scim_value::Resource;
use sqlite::{Alter, Connection, Error, params};
use std::alloc::Global;

/// Returns the document of the user or group with this id; `None` if there isn't one.
fn find_document<S: Alter>(conn: &mut Connection<S>, id: &str) -> Result<Option<String>, Error>
    ensures mode { conn.old.in_transaction ≡ false → conn.new.in_transaction ≡ false }
    ensures spares { Spares (state S.Store conn.old) (state S.Store conn.new) }
    ensures unchanged { HasCleanDisk (state S.Store conn.new) → HasTables (state S.Store conn.old)
        → OnOk result (IsUnchanged (state S.Store conn.old) (state S.Store conn.new)) }
    ensures found { HasCleanDisk (state S.Store conn.new)
        → IfOk result (λ found. (lists : Lists) → Holds (state S.Store conn.old) lists
        → Finds 2 (filter (has_text 0 id.now) lists.resources) (state S.Store conn.old)
        (state S.Store conn.new) (option_map string_bytes found)) }
    ensures rests { HasCleanDisk (state S.Store conn.new) → (lists : Lists)
        → Holds (state S.Store conn.old) lists
        → Rests (state S.Store conn.old) (state S.Store conn.new) }
{
    let rows = ask(
        conn,
        "SELECT document FROM resource WHERE id = ?1",
        params![id],
    )?;
    first_text(rows.as_slice())
}

/// Returns the user or group with the id; `None` if there isn't one. Its location is below the base URI.
///
/// Fails with the database's error, with `OutOfMemory` if memory runs out, or with `DatabaseCorrupt` if the
/// document or the door code isn't valid. Then the connection is closed, or its database is unchanged or as the last commit
/// left it.
pub fn find_old<S: Alter>(
    conn: &mut Connection<S>,
    alloc: Global,
    base: &str,
    id: Id,
) -> Result<Option<Resource>, Error>
    ensures mode { conn.old.in_transaction ≡ false → conn.new.in_transaction ≡ false }
    ensures spares { Spares (state S.Store conn.old) (state S.Store conn.new) }
    ensures found { HasCleanDisk (state S.Store conn.new)
        → IfOk result (λ found. (store : Store) → StandsIn base.now (state S.Store conn.old) store
        → FindsOld id store (state S.Store conn.old) (state S.Store conn.new) found) }
    ensures rests { HasCleanDisk (state S.Store conn.new) → (store : Store)
        → StandsIn base.now (state S.Store conn.old) store
        → Rests (state S.Store conn.old) (state S.Store conn.new) }
{
    let mut buffer = [0; Id::TEXT_LENGTH];
    let id = id.write(&mut buffer);
    let Some(document) = find_document(conn, id)? else {
        return Ok(None);
    };
    let code = find_secret(conn, id)?;
    let resource = read_parts(alloc, base, document.as_str(), text_of(code.as_ref()))?;
    Ok(Some(resource))
}
