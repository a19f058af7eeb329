//! Finds resources in the tables by id, by unique name and by member value.

ghost use Rattle.std.specs.Prelude.{◌≡◌, ℕ, List, [], ◌∷◌, true, false, None, option_map, string_bytes, IfOk, OnOk, IfSome, IsTrue};
ghost use Rattle.std.specs.List.{list_any};
ghost use Rattle.sqlite.specs.State.{HasCleanDisk, IsUnchanged};
ghost use Rattle.sqlite.specs.Held.{state};
ghost use Rattle.scim_shelf.specs.Stores.{Store};
ghost use Rattle.scim_store_tables.specs.Reading.{Rests, Spares, HasTables};
ghost use Rattle.scim_schema.specs.declared.Kind.TheVariants.{User};
ghost use Rattle.scim_schema.specs.Units.{is_same_leaf};
ghost use Rattle.scim_schema.specs.UniqueLeaves.{unique_leaves};
ghost use Rattle.scim_cell.specs.Ids.{IsId, id_text};
ghost use Rattle.scim_value.specs.Uniqueness.{name_of};
ghost use Rattle.scim_json.specs.Kept.{IsKept};
ghost use Rattle.scim_store_rows.specs.Finding.{StandsIn, FindsById, FindsOwner, FindsGroups};
ghost use Rattle.scim_store_rows.specs.code.Finding.{FindsOwnerId, AreGroups};

use crate::audit_columns::kind_number;
use crate::door_codes::find_code;
use scim_cell::Id;
use scim_json::read_kept;
use scim_schema::{Kind, Leaf, unique_leaves};
use scim_store_tables::{find_owner, find_resource, read_groups};
use scim_text::Failed;
use scim_value::{Resource, UniqueName};
use sqlite::{Alter, Connection, Error, ErrorCode, Row};
use std::alloc::Global;

/// Returns the text of a string, if there is one.
pub(crate) fn text_of(string: Option<&String>) -> Option<&str>
    ensures { option_map (λ t. t.now) result ≡ option_map (λ s. string_bytes s.now) string.entry }
{
    match string {
        Some(string) => Some(string.as_str()),
        None => None,
    }
}

/// Reads a resource from its document and its door code, if any. Fails with `DatabaseCorrupt` if these aren't
/// the kept parts of a resource, and with `OutOfMemory` if memory runs out.
pub(crate) fn read_parts(
    alloc: Global,
    base: &str,
    document: &str,
    code: Option<&str>,
) -> Result<Resource, Error>
    ensures { IfOk result (IsKept base.now document.now (option_map (λ c. c.now) code.entry)) }
{
    match read_kept(alloc, base, document, code) {
        Ok(resource) => Ok(resource),
        Err(Failed::Because(_)) => Err(Error::SqliteFailure(ErrorCode::DatabaseCorrupt)),
        Err(Failed::NoMemory) => Err(Error::SqliteFailure(ErrorCode::OutOfMemory)),
    }
}

/// Returns the resource of this kind with this id; `None` if there isn't one (RFC 7644 section 3.4.1). Its
/// location is below the base URI.
///
/// Fails with the database's error, with `OutOfMemory` if memory runs out, or with `DatabaseCorrupt` if the
/// document or the door code isn't valid. Then the connection is closed, or its database is unchanged or as the last commit
/// left it.
pub fn find_by_id<S: Alter>(
    conn: &mut Connection<S>,
    alloc: Global,
    base: &str,
    kind: Kind,
    id: Id,
) -> Result<Option<Resource>, Error>
    ensures mode { conn.old.in_transaction ≡ false → conn.new.in_transaction ≡ false }
    ensures spares { Spares (state S.Store conn.old) (state S.Store conn.new) }
    ensures unchanged { HasCleanDisk (state S.Store conn.new) → HasTables (state S.Store conn.old)
        → OnOk result (IsUnchanged (state S.Store conn.old) (state S.Store conn.new)) }
    ensures found { HasCleanDisk (state S.Store conn.new)
        → IfOk result (λ found. (store : Store) → StandsIn base.now (state S.Store conn.old) store
        → FindsById kind id store (state S.Store conn.old) (state S.Store conn.new) found) }
    ensures rests { HasCleanDisk (state S.Store conn.new) → (store : Store)
        → StandsIn base.now (state S.Store conn.old) store
        → Rests (state S.Store conn.old) (state S.Store conn.new) }
{
    let mut buffer = [0; Id::TEXT_LENGTH];
    let id = id.write(&mut buffer);
    let Some(document) = find_resource(conn, id, kind_number(kind))? else {
        return Ok(None);
    };
    let code = find_code(conn, kind, id)?;
    let resource = read_parts(alloc, base, document.as_str(), text_of(code.as_ref()))?;
    Ok(Some(resource))
}

/// Reads an id from a text in the tables. Fails with `DatabaseCorrupt` if the text isn't an id.
fn read_id(text: &str) -> Result<Id, Error>
    ensures value { IfOk result (λ id. text.now ≡ id_text id) }
    ensures id { IfOk result IsId }
{
    match Id::read(text) {
        Some(id) => Ok(id),
        None => Err(Error::SqliteFailure(ErrorCode::DatabaseCorrupt)),
    }
}

/// Whether the values of users at this leaf must be unique.
fn is_unique(leaf: Leaf) -> bool
    ensures { result ≡ list_any (λ l. is_same_leaf l leaf) (unique_leaves User) }
{
    unique_leaves(Kind::User).contains(&leaf)
}

/// Reads the id of the owner that was found for a name at the leaf. Returns `None` if no owner was found, or
/// if values at the leaf needn't be unique, so that no resource has a unique name there. Fails with
/// `DatabaseCorrupt` if the text isn't an id.
fn read_owner(leaf: Leaf, owner: Option<String>) -> Result<Option<Id>, Error>
    ensures unique { list_any (λ l. is_same_leaf l leaf) (unique_leaves User) ≡ true
        → IfOk result (λ id. option_map id_text id ≡ option_map string_bytes owner) }
    ensures other { list_any (λ l. is_same_leaf l leaf) (unique_leaves User) ≡ false
        → IfOk result (λ id. id ≡ None) }
    ensures id { IfOk result (λ id. IfSome id IsId) }
{
    match owner {
        Some(owner) if is_unique(leaf) => Ok(Some(read_id(owner.as_str())?)),
        _ => Ok(None),
    }
}

/// Returns the id of the resource that has a unique name; `None` if no resource has it.
fn find_owner_id<S: Alter>(conn: &mut Connection<S>, name: &UniqueName) -> Result<Option<Id>, Error>
    ensures mode { conn.old.in_transaction ≡ false → conn.new.in_transaction ≡ false }
    ensures spares { Spares (state S.Store conn.old) (state S.Store conn.new) }
    ensures unchanged { HasCleanDisk (state S.Store conn.new) → HasTables (state S.Store conn.old)
        → OnOk result (IsUnchanged (state S.Store conn.old) (state S.Store conn.new)) }
    ensures id { IfOk result (λ found. IfSome found IsId) }
    ensures found { HasCleanDisk (state S.Store conn.new)
        → IfOk result (λ found. (base : List ℕ) (store : Store)
        → StandsIn base (state S.Store conn.old) store
        → FindsOwnerId (name_of name.now) store (state S.Store conn.old)
        (state S.Store conn.new) found) }
    ensures rests { HasCleanDisk (state S.Store conn.new) → (base : List ℕ) (store : Store)
        → StandsIn base (state S.Store conn.old) store
        → Rests (state S.Store conn.old) (state S.Store conn.new) }
{
    let owner = find_owner(conn, name.leaf.attribute.name(), name.text.as_str())?;
    read_owner(name.leaf, owner)
}

/// Returns the resource that has the unique name; `None` if no resource has it (RFC 7643 section 2.2,
/// uniqueness). Its location is below the base URI.
///
/// Fails as [`find_by_id`] does.
pub fn find_owner_of_name<S: Alter>(
    conn: &mut Connection<S>,
    alloc: Global,
    base: &str,
    name: &UniqueName,
) -> Result<Option<Resource>, Error>
    ensures mode { conn.old.in_transaction ≡ false → conn.new.in_transaction ≡ false }
    ensures spares { Spares (state S.Store conn.old) (state S.Store conn.new) }
    ensures found { HasCleanDisk (state S.Store conn.new)
        → IfOk result (λ found. (store : Store) → StandsIn base.now (state S.Store conn.old) store
        → FindsOwner (name_of name.now) store (state S.Store conn.old)
        (state S.Store conn.new) found) }
    ensures rests { HasCleanDisk (state S.Store conn.new) → (store : Store)
        → StandsIn base.now (state S.Store conn.old) store
        → Rests (state S.Store conn.old) (state S.Store conn.new) }
{
    match find_owner_id(conn, name)? {
        // Groups have no unique names, so the owner is a user.
        Some(id) => find_by_id(conn, alloc, base, Kind::User, id),
        None => Ok(None),
    }
}

/// Returns the group whose id is in the first column of a row. Fails as [`find_by_id`] does, and with
/// `DatabaseCorrupt` if there is no such group.
fn find_group<S: Alter>(
    conn: &mut Connection<S>,
    alloc: Global,
    base: &str,
    row: &Row,
) -> Result<Resource, Error>
    ensures mode { conn.old.in_transaction ≡ false → conn.new.in_transaction ≡ false }
    ensures spares { Spares (state S.Store conn.old) (state S.Store conn.new) }
    ensures unchanged { HasCleanDisk (state S.Store conn.new) → HasTables (state S.Store conn.old)
        → OnOk result (IsUnchanged (state S.Store conn.old) (state S.Store conn.new)) }
    ensures found { HasCleanDisk (state S.Store conn.new)
        → IfOk result (λ group. (store : Store) → StandsIn base.now (state S.Store conn.old) store
        → AreGroups store (row.now ∷ []) (state S.Store conn.old) (state S.Store conn.new) (group
        ∷ [])) }
    ensures rests { HasCleanDisk (state S.Store conn.new) → (store : Store)
        → StandsIn base.now (state S.Store conn.old) store
        → Rests (state S.Store conn.old) (state S.Store conn.new) }
{
    let text: String = row.get(0)?;
    let id = read_id(text.as_str())?;
    match find_by_id(conn, alloc, base, Kind::Group, id)? {
        Some(group) => Ok(group),
        None => Err(Error::SqliteFailure(ErrorCode::DatabaseCorrupt)),
    }
}

/// Returns the groups whose ids are in the first columns of the rows. Fails as [`find_group`] does.
fn find_groups<S: Alter>(
    conn: &mut Connection<S>,
    alloc: Global,
    base: &str,
    rows: &[Row],
) -> Result<Vec<Resource>, Error>
    ensures mode { conn.old.in_transaction ≡ false → conn.new.in_transaction ≡ false }
    ensures spares { Spares (state S.Store conn.old) (state S.Store conn.new) }
    ensures found { HasCleanDisk (state S.Store conn.new)
        → IfOk result (λ groups. (store : Store) → StandsIn base.now (state S.Store conn.old) store
        → IsTrue (state S.Store conn.old).is_open
        → AreGroups store rows.now (state S.Store conn.old) (state S.Store conn.new) groups.items) }
    ensures rests { HasCleanDisk (state S.Store conn.new) → (store : Store)
        → StandsIn base.now (state S.Store conn.old) store → IsTrue (state S.Store conn.old).is_open
        → Rests (state S.Store conn.old) (state S.Store conn.new) }
{
    let mut groups = Vec::new(alloc);
    for row in rows {
        let group = find_group(conn, alloc, base, row)?;
        if groups.push(group).is_err() {
            return Err(Error::SqliteFailure(ErrorCode::OutOfMemory));
        }
    }
    Ok(groups)
}

/// Returns the groups that list the value among their members, in order of id (RFC 7643 section 4.2). Their
/// locations are below the base URI.
///
/// Fails as [`find_by_id`] does, and with `DatabaseCorrupt` if a group in the table `member` is missing.
pub fn find_groups_with<S: Alter>(
    conn: &mut Connection<S>,
    alloc: Global,
    base: &str,
    value: &str,
) -> Result<Vec<Resource>, Error>
    ensures mode { conn.old.in_transaction ≡ false → conn.new.in_transaction ≡ false }
    ensures spares { Spares (state S.Store conn.old) (state S.Store conn.new) }
    ensures found { HasCleanDisk (state S.Store conn.new)
        → IfOk result (λ groups. (store : Store) → StandsIn base.now (state S.Store conn.old) store
        → FindsGroups value.now store (state S.Store conn.old)
        (state S.Store conn.new) groups.items) }
    ensures rests { HasCleanDisk (state S.Store conn.new) → (store : Store)
        → StandsIn base.now (state S.Store conn.old) store
        → Rests (state S.Store conn.old) (state S.Store conn.new) }
{
    let rows = read_groups(conn, value)?;
    find_groups(conn, alloc, base, rows.as_slice())
}
