//! Passes the resources of a kind to a visitor.

ghost use Rattle.std.specs.Prelude.{◌≡◌, ◌≢◌, ◌∷◌, [], false, IfOk, OnOk, IfErr};
ghost use Rattle.std.specs.List.{FoldsTo};
ghost use Rattle.std.specs.Option.{option_to_list};
ghost use Rattle.sqlite.specs.declared.error.Error.{Error};
ghost use Rattle.sqlite.specs.declared.error.ErrorCode.{ErrorCode};
ghost use Rattle.sqlite.specs.State.{HasCleanDisk};
ghost use Rattle.sqlite.specs.Held.{state};
ghost use Rattle.scim_cell.specs.Kinds.{of_kind};
ghost use Rattle.scim_shelf.specs.Stores.{Store};
ghost use Rattle.scim_shelf.specs.Shelves.{TookPrefix};
ghost use Rattle.scim_store_tables.specs.Reading.{Rests, Spares};
ghost use Rattle.scim_store_rows.specs.Stands.{Entry, resource_row};
ghost use Rattle.scim_store_rows.specs.code.Finding.{IsCoded, KnowsCodes};
ghost use Rattle.scim_store_rows.specs.Finding.{StandsIn, Shows};

use crate::audit_columns::kind_number;
use crate::door_codes::read_codes;
use crate::look_ups::{read_parts, text_of};
use scim_schema::Kind;
use scim_shelf::Visitor;
use scim_value::Resource;
use sqlite::{Alter, Connection, Error, ErrorCode, Row};
use std::alloc::Global;
use std::collections::BTreeMap;

/// Reads the resource of a row; `None` if the resource isn't of the kind. Fails with `DatabaseCorrupt` if the
/// document or the door code isn't valid, with the database's error if a column has the wrong type, and with
/// `OutOfMemory` if memory runs out.
fn read_row(
    alloc: Global,
    base: &str,
    kind: Kind,
    codes: &BTreeMap<String, String>,
    row: &Row,
) -> Result<Option<Resource>, Error>
    ensures { IfOk result (λ found. (e : Entry) → IsCoded base.now kind codes.now e
        → row.now ≡ resource_row e → option_to_list found ≡ of_kind kind (e.content ∷ [])) }
{
    let number: u32 = row.get(1)?;
    if number != kind_number(kind) {
        return Ok(None);
    }
    let id: String = row.get(0)?;
    let document: String = row.get(2)?;
    let code = text_of(codes.get(id.as_str()));
    let resource = read_parts(alloc, base, document.as_str(), code)?;
    Ok(Some(resource))
}

/// Passes the resource of a row to the visitor, if the resource is of the kind. Fails as `read_row` does, or
/// with `OutOfMemory` if the visitor can't allocate. After any other error the visitor is unchanged.
fn show_row<V: Visitor>(
    alloc: Global,
    base: &str,
    kind: Kind,
    codes: &BTreeMap<String, String>,
    row: &Row,
    visitor: &mut V,
) -> Result<(), Error>
    ensures shown { OnOk result ((e : Entry) → IsCoded base.now kind codes.now e
        → row.now ≡ resource_row e
        → FoldsTo V.Visitor.takes visitor.old (of_kind kind (e.content ∷ [])) visitor.new) }
    ensures untaken { IfErr result (λ e. e ≢ Error.SqliteFailure ErrorCode.OutOfMemory
        → visitor.new ≡ visitor.old) }
{
    let Some(resource) = read_row(alloc, base, kind, codes, row)? else {
        return Ok(());
    };
    match visitor.take(alloc, &resource) {
        Ok(()) => Ok(()),
        Err(_) => Err(Error::SqliteFailure(ErrorCode::OutOfMemory)),
    }
}

/// Passes the resources of the kind to the visitor, in order of id, each as soon as its row is read. `codes`
/// are their door codes, by the texts of their ids. Fails as [`walk`] does.
fn walk_rows<S: Alter, V: Visitor>(
    conn: &mut Connection<S>,
    alloc: Global,
    base: &str,
    kind: Kind,
    codes: &BTreeMap<String, String>,
    visitor: &mut V,
) -> Result<(), Error>
    ensures mode { conn.old.in_transaction ≡ false → conn.new.in_transaction ≡ false }
    ensures spares { Spares (state S.Store conn.old) (state S.Store conn.new) }
    ensures shown { OnOk result (HasCleanDisk (state S.Store conn.new) → (store : Store)
        → StandsIn base.now (state S.Store conn.old) store
        → KnowsCodes kind codes.now (state S.Store conn.old) store
        → Shows V.Visitor.takes kind store (state S.Store conn.old)
        (state S.Store conn.new) visitor.old visitor.new) }
    ensures prefix { HasCleanDisk (state S.Store conn.new)
        → IfErr result (λ e. e ≢ Error.SqliteFailure ErrorCode.OutOfMemory → (store : Store)
        → StandsIn base.now (state S.Store conn.old) store
        → KnowsCodes kind codes.now (state S.Store conn.old) store
        → TookPrefix V.Visitor.takes visitor.old (of_kind kind store.resources) visitor.new) }
    ensures rests { HasCleanDisk (state S.Store conn.new) → (store : Store)
        → StandsIn base.now (state S.Store conn.old) store
        → Rests (state S.Store conn.old) (state S.Store conn.new) }
{
    let mut rows = conn.query("SELECT id, kind, document FROM resource ORDER BY id", &[])?;
    'rows: for _ in 0..u64::MAX {
        rows.advance()?;
        let Some(row) = rows.get() else {
            return Ok(());
        };
        show_row(alloc, base, kind, codes, row, visitor)?;
    }
    // No query returns 2^64 - 1 rows.
    Err(Error::SqliteFailure(ErrorCode::OutOfMemory))
}

/// Passes the resources of the kind to the visitor, in order of id, each as soon as its row is read. Their
/// locations are below the base URI. For users, all door codes are in memory meanwhile.
///
/// Fails as [`crate::find_by_id`] does, or with `OutOfMemory` if the visitor can't allocate. After
/// `OutOfMemory` the visitor is unusable; after any other error the visitor has taken a prefix of these
/// resources.
pub fn walk<S: Alter, V: Visitor>(
    conn: &mut Connection<S>,
    alloc: Global,
    base: &str,
    kind: Kind,
    visitor: &mut V,
) -> Result<(), Error>
    ensures mode { conn.old.in_transaction ≡ false → conn.new.in_transaction ≡ false }
    ensures spares { Spares (state S.Store conn.old) (state S.Store conn.new) }
    ensures shown { OnOk result (HasCleanDisk (state S.Store conn.new) → (store : Store)
        → StandsIn base.now (state S.Store conn.old) store
        → Shows V.Visitor.takes kind store (state S.Store conn.old)
        (state S.Store conn.new) visitor.old visitor.new) }
    ensures prefix { HasCleanDisk (state S.Store conn.new)
        → IfErr result (λ e. e ≢ Error.SqliteFailure ErrorCode.OutOfMemory → (store : Store)
        → StandsIn base.now (state S.Store conn.old) store
        → TookPrefix V.Visitor.takes visitor.old (of_kind kind store.resources) visitor.new) }
    ensures rests { HasCleanDisk (state S.Store conn.new) → (store : Store)
        → StandsIn base.now (state S.Store conn.old) store
        → Rests (state S.Store conn.old) (state S.Store conn.new) }
{
    match kind {
        Kind::User => {
            let codes = read_codes(conn, alloc)?;
            walk_rows(conn, alloc, base, kind, &codes, visitor)
        }
        // Groups have no door codes.
        Kind::Group => walk_rows(conn, alloc, base, kind, &BTreeMap::new(alloc), visitor),
    }
}
