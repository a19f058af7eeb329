//! The statements that write resources, unique names, members and door codes, each inside a transaction.
//!
//! Each function returns the number of rows written, as the database counts them. It fails with a constraint
//! error if the key of a row to insert is in use, or with the database's error if the disk failed or memory
//! ran out. Then nothing is committed, but the transaction may have been rolled back: the caller must drop
//! it.

ghost use Rattle.std.specs.Prelude.{◌≡◌, ◌∷◌, ◌++◌, length, filter, replicate};
ghost use Rattle.scim_store_tables.specs.Lists.{Lists, Are, without, has_text, has_texts, resource_values, name_values, member_values, secret_values};
ghost use Rattle.scim_store_tables.specs.Steps.{DoesIn, DoesBy};

use sqlite::{Alter, Error, Transaction, params};

/// Inserts the row of a resource. Fails with a constraint error if a row has this id, or with the database's
/// error.
pub fn insert_resource<S: Alter>(
    tx: &mut Transaction<'_, S>,
    id: &str,
    kind: u32,
    document: &str,
) -> Result<usize, Error>
    ensures does { DoesIn S.Store tx.old tx.new result
        (λ old new. (lists : Lists) → Are old lists
        → Are new (record lists {
          resources = resource_values id.now kind document.now ∷ lists.resources;
        })) }
{
    tx.execute(
        "INSERT INTO resource (id, kind, document) VALUES (?1, ?2, ?3)",
        params![id, kind, document],
    )
}

/// Sets the kind and the document of the resource with this id, if any. Returns how many rows have this id.
/// Fails with the database's error.
pub fn update_resource<S: Alter>(
    tx: &mut Transaction<'_, S>,
    id: &str,
    kind: u32,
    document: &str,
) -> Result<usize, Error>
    ensures does { DoesBy S.Store tx.old tx.new result
        (λ count old new. (lists : Lists) → Are old lists
        → (count ≡ length (filter (has_text 0 id.now) lists.resources))
        × Are new (record lists {
          resources = replicate count (resource_values id.now kind document.now)
              ++ without (has_text 0 id.now) lists.resources;
        })) }
{
    tx.execute(
        "UPDATE resource SET kind = ?2, document = ?3 WHERE id = ?1",
        params![id, kind, document],
    )
}

/// Deletes the row of the resource with this id, if any. Fails with the database's error.
pub fn delete_resource<S: Alter>(tx: &mut Transaction<'_, S>, id: &str) -> Result<usize, Error>
    ensures does { DoesIn S.Store tx.old tx.new result
        (λ old new. (lists : Lists) → Are old lists
        → Are new (record lists { resources = without (has_text 0 id.now) lists.resources })) }
{
    tx.execute("DELETE FROM resource WHERE id = ?1", params![id])
}

/// Inserts a unique name with the id of the resource that has it. Fails with a constraint error if a row has
/// this name, or with the database's error.
pub fn insert_name<S: Alter>(
    tx: &mut Transaction<'_, S>,
    attribute: &str,
    folded: &str,
    id: &str,
) -> Result<usize, Error>
    ensures does { DoesIn S.Store tx.old tx.new result
        (λ old new. (lists : Lists) → Are old lists
        → Are new (record lists {
          taken = name_values attribute.now folded.now id.now ∷ lists.taken;
        })) }
{
    tx.execute(
        "INSERT INTO taken (attribute, folded, id) VALUES (?1, ?2, ?3)",
        params![attribute, folded, id],
    )
}

/// Deletes the row of a unique name, if there is one. Fails with the database's error.
pub fn delete_name<S: Alter>(
    tx: &mut Transaction<'_, S>,
    attribute: &str,
    folded: &str,
) -> Result<usize, Error>
    ensures does { DoesIn S.Store tx.old tx.new result
        (λ old new. (lists : Lists) → Are old lists
        → Are new (record lists {
          taken = without (has_texts attribute.now folded.now) lists.taken;
        })) }
{
    tx.execute(
        "DELETE FROM taken WHERE attribute = ?1 AND folded = ?2",
        params![attribute, folded],
    )
}

/// Inserts a member of a group. Fails with a constraint error if a row has this value and group, or with the
/// database's error.
pub fn insert_member<S: Alter>(
    tx: &mut Transaction<'_, S>,
    value: &str,
    group_id: &str,
) -> Result<usize, Error>
    ensures does { DoesIn S.Store tx.old tx.new result
        (λ old new. (lists : Lists) → Are old lists
        → Are new (record lists { member = member_values value.now group_id.now ∷ lists.member })) }
{
    tx.execute(
        "INSERT INTO member (value, group_id) VALUES (?1, ?2)",
        params![value, group_id],
    )
}

/// Deletes the row of a member of a group, if there is one. Fails with the database's error.
pub fn delete_member<S: Alter>(
    tx: &mut Transaction<'_, S>,
    value: &str,
    group_id: &str,
) -> Result<usize, Error>
    ensures does { DoesIn S.Store tx.old tx.new result
        (λ old new. (lists : Lists) → Are old lists
        → Are new (record lists {
          member = without (has_texts value.now group_id.now) lists.member;
        })) }
{
    tx.execute(
        "DELETE FROM member WHERE value = ?1 AND group_id = ?2",
        params![value, group_id],
    )
}

/// Inserts the door code of a user. Fails with a constraint error if a row has this id, or with the
/// database's error.
pub fn insert_secret<S: Alter>(
    tx: &mut Transaction<'_, S>,
    id: &str,
    door_code: &str,
) -> Result<usize, Error>
    ensures does { DoesIn S.Store tx.old tx.new result
        (λ old new. (lists : Lists) → Are old lists
        → Are new (record lists { secret = secret_values id.now door_code.now ∷ lists.secret })) }
{
    tx.execute(
        "INSERT INTO secret (id, door_code) VALUES (?1, ?2)",
        params![id, door_code],
    )
}

/// Deletes the door code of the user with this id, if there is one. Fails with the database's error.
pub fn delete_secret<S: Alter>(tx: &mut Transaction<'_, S>, id: &str) -> Result<usize, Error>
    ensures does { DoesIn S.Store tx.old tx.new result
        (λ old new. (lists : Lists) → Are old lists
        → Are new (record lists { secret = without (has_text 0 id.now) lists.secret })) }
{
    tx.execute("DELETE FROM secret WHERE id = ?1", params![id])
}
