//! Writes a change and its audit row inside a transaction.

ghost use Rattle.std.specs.Prelude.{◌≡◌, ◌≤◌, ◌∷◌, ◌++◌};
ghost use Rattle.scim_store_tables.specs.Audit.{last_number, audit_values};
ghost use Rattle.scim_store_tables.specs.Lists.{Lists, Are, without, has_text, resource_values};
ghost use Rattle.scim_store_tables.specs.Steps.{DoesIn};
ghost use Rattle.scim_store.specs.Edits.{is_name, is_member, is_secret, rows_of_names, rows_of_members, rows_of_secret, rows_of_document, edited, edited_by, with_row, Writes};

use crate::edits::{Edits, SecretEdit};
use scim_cell::Text;
use scim_store_rows::kind_number;
use scim_store_tables::{
    AuditColumns, delete_member, delete_name, delete_resource, delete_secret, insert_audit,
    insert_member, insert_name, insert_resource, insert_secret, update_resource,
};
use scim_value::UniqueName;
use sqlite::{Alter, Error, ErrorCode, Transaction};

/// Deletes the rows of these unique names.
fn delete_names<S: Alter>(tx: &mut Transaction<'_, S>, names: &[UniqueName]) -> Result<(), Error>
    ensures does { DoesIn S.Store tx.old tx.new result
        (λ old new. (lists : Lists) → Are old lists
        → Are new (record lists { taken = without (is_name names.now) lists.taken })) }
{
    for name in names {
        delete_name(tx, name.leaf.attribute.name(), name.text.as_str())?;
    }
    Ok(())
}

/// Inserts a row for each of these unique names, with the id of the resource that has the names.
fn insert_names<S: Alter>(
    tx: &mut Transaction<'_, S>,
    id: &str,
    names: &[UniqueName],
) -> Result<(), Error>
    ensures does { DoesIn S.Store tx.old tx.new result
        (λ old new. (lists : Lists) → Are old lists
        → Are new (record lists { taken = rows_of_names id.now names.now ++ lists.taken })) }
{
    for name in names {
        insert_name(tx, name.leaf.attribute.name(), name.text.as_str(), id)?;
    }
    Ok(())
}

/// Deletes the rows of these members of a group.
fn delete_members<S: Alter>(
    tx: &mut Transaction<'_, S>,
    group_id: &str,
    values: &[Text],
) -> Result<(), Error>
    ensures does { DoesIn S.Store tx.old tx.new result
        (λ old new. (lists : Lists) → Are old lists
        → Are new (record lists {
          member = without (is_member group_id.now values.now) lists.member;
        })) }
{
    for value in values {
        delete_member(tx, value.as_str(), group_id)?;
    }
    Ok(())
}

/// Inserts a row for each of these members of a group.
fn insert_members<S: Alter>(
    tx: &mut Transaction<'_, S>,
    group_id: &str,
    values: &[Text],
) -> Result<(), Error>
    ensures does { DoesIn S.Store tx.old tx.new result
        (λ old new. (lists : Lists) → Are old lists
        → Are new (record lists {
          member = rows_of_members group_id.now values.now ++ lists.member;
        })) }
{
    for value in values {
        insert_member(tx, value.as_str(), group_id)?;
    }
    Ok(())
}

/// Deletes the row of the user's door code, if the edit removes it.
fn take_secret<S: Alter>(
    tx: &mut Transaction<'_, S>,
    id: &str,
    edit: &SecretEdit,
) -> Result<(), Error>
    ensures does { DoesIn S.Store tx.old tx.new result
        (λ old new. (lists : Lists) → Are old lists
        → Are new (record lists { secret = without (is_secret id.now edit.now) lists.secret })) }
{
    match edit {
        SecretEdit::Goes | SecretEdit::Becomes(_) => {
            delete_secret(tx, id)?;
            Ok(())
        }
        SecretEdit::Stays | SecretEdit::Comes(_) => Ok(()),
    }
}

/// Inserts a row with the user's new door code, if the edit adds one.
fn put_secret<S: Alter>(
    tx: &mut Transaction<'_, S>,
    id: &str,
    edit: &SecretEdit,
) -> Result<(), Error>
    ensures does { DoesIn S.Store tx.old tx.new result
        (λ old new. (lists : Lists) → Are old lists
        → Are new (record lists { secret = rows_of_secret id.now edit.now ++ lists.secret })) }
{
    match edit {
        SecretEdit::Comes(code) | SecretEdit::Becomes(code) => {
            insert_secret(tx, id, code.as_str())?;
            Ok(())
        }
        SecretEdit::Stays | SecretEdit::Goes => Ok(()),
    }
}

/// Deletes the row of the user's old door code and inserts one with the new door code, as the edit says.
fn write_secret<S: Alter>(
    tx: &mut Transaction<'_, S>,
    id: &str,
    edit: &SecretEdit,
) -> Result<(), Error>
    ensures does { DoesIn S.Store tx.old tx.new result
        (λ old new. (lists : Lists) → Are old lists → Are new (record lists {
          secret = rows_of_secret id.now edit.now ++ without (is_secret id.now edit.now) lists.secret;
        })) }
{
    take_secret(tx, id, edit)?;
    put_secret(tx, id, edit)
}

/// Inserts the row of the resource, if the edits have a document.
fn put_resource<S: Alter>(tx: &mut Transaction<'_, S>, edits: &Edits) -> Result<(), Error>
    ensures does { DoesIn S.Store tx.old tx.new result
        (λ old new. (lists : Lists) → Are old lists
        → Are new (record lists { resources = rows_of_document edits.now ++ lists.resources })) }
{
    match &edits.document {
        Some(document) => {
            insert_resource(
                tx,
                edits.id.as_str(),
                kind_number(edits.kind),
                document.as_str(),
            )?;
            Ok(())
        }
        None => Ok(()),
    }
}

/// Updates the row of the resource with the id, or inserts it if there isn't one. Fails with
/// `DatabaseCorrupt` if several rows have the id, or with the database's error.
fn replace_resource<S: Alter>(
    tx: &mut Transaction<'_, S>,
    id: &str,
    kind: u32,
    document: &str,
) -> Result<(), Error>
    ensures does { DoesIn S.Store tx.old tx.new result
        (λ old new. (lists : Lists) → Are old lists
        → Are new (record lists {
          resources = resource_values id.now kind document.now
              ∷ without (has_text 0 id.now) lists.resources;
        })) }
{
    // An update dirties fewer pages than a deletion and an insertion.
    match update_resource(tx, id, kind, document)? {
        0 => {
            insert_resource(tx, id, kind, document)?;
            Ok(())
        }
        1 => Ok(()),
        _ => Err(Error::SqliteFailure(ErrorCode::DatabaseCorrupt)),
    }
}

/// Writes the row of the resource if the edits have a document, and deletes the row otherwise.
fn edit_resource<S: Alter>(tx: &mut Transaction<'_, S>, edits: &Edits) -> Result<(), Error>
    ensures does { DoesIn S.Store tx.old tx.new result
        (λ old new. (lists : Lists) → Are old lists
        → Are new (record lists {
          resources = rows_of_document edits.now
              ++ without (has_text 0 edits.now.id) lists.resources;
        })) }
{
    match &edits.document {
        Some(document) => replace_resource(
            tx,
            edits.id.as_str(),
            kind_number(edits.kind),
            document.as_str(),
        ),
        None => {
            delete_resource(tx, edits.id.as_str())?;
            Ok(())
        }
    }
}

/// Deletes the rows of the names and members that the edits remove.
fn take_names_and_members<S: Alter>(tx: &mut Transaction<'_, S>, edits: &Edits) -> Result<(), Error>
    ensures does { DoesIn S.Store tx.old tx.new result
        (λ old new. (lists : Lists) → Are old lists → Are new (record lists {
          taken = without (is_name edits.now.names_gone.items) lists.taken;
          member = without (is_member edits.now.id edits.now.members_gone.items) lists.member;
        })) }
{
    delete_names(tx, edits.names_gone.as_slice())?;
    delete_members(tx, edits.id.as_str(), edits.members_gone.as_slice())
}

/// Inserts the rows of the names and members that the edits add.
fn put_names_and_members<S: Alter>(tx: &mut Transaction<'_, S>, edits: &Edits) -> Result<(), Error>
    ensures does { DoesIn S.Store tx.old tx.new result
        (λ old new. (lists : Lists) → Are old lists → Are new (record lists {
          taken = rows_of_names edits.now.id edits.now.names_come.items ++ lists.taken;
          member = rows_of_members edits.now.id edits.now.members_come.items ++ lists.member;
        })) }
{
    insert_names(tx, edits.id.as_str(), edits.names_come.as_slice())?;
    insert_members(tx, edits.id.as_str(), edits.members_come.as_slice())
}

/// Inserts all rows that the edits add. The resource must not be stored yet.
pub(crate) fn put_rows<S: Alter>(tx: &mut Transaction<'_, S>, edits: &Edits) -> Result<(), Error>
    ensures does { DoesIn S.Store tx.old tx.new result
        (λ old new. (lists : Lists) → Are old lists → Are new (record lists {
          resources = rows_of_document edits.now ++ lists.resources;
          taken = rows_of_names edits.now.id edits.now.names_come.items ++ lists.taken;
          member = rows_of_members edits.now.id edits.now.members_come.items ++ lists.member;
          secret = rows_of_secret edits.now.id edits.now.secret ++ lists.secret;
        })) }
{
    put_resource(tx, edits)?;
    put_secret(tx, edits.id.as_str(), &edits.secret)?;
    put_names_and_members(tx, edits)
}

/// Deletes the rows that the edits remove, and writes the rows that they add.
fn edit_rows<S: Alter>(tx: &mut Transaction<'_, S>, edits: &Edits) -> Result<(), Error>
    ensures does { DoesIn S.Store tx.old tx.new result
        (λ old new. (lists : Lists) → Are old lists → Are new (edited edits.now lists)) }
{
    take_names_and_members(tx, edits)?;
    edit_resource(tx, edits)?;
    write_secret(tx, edits.id.as_str(), &edits.secret)?;
    put_names_and_members(tx, edits)
}

/// Makes the edits, if any.
fn edit_if_any<S: Alter>(tx: &mut Transaction<'_, S>, edits: &Option<Edits>) -> Result<(), Error>
    ensures does { DoesIn S.Store tx.old tx.new result
        (λ old new. (lists : Lists) → Are old lists → Are new (edited_by edits.now lists)) }
{
    match edits {
        Some(edits) => edit_rows(tx, edits),
        None => Ok(()),
    }
}

/// Makes the edits of a change, if any, and adds its audit row. The row's number and moment must be at most
/// 2^63 - 1.
///
/// Fails with a constraint error if the key of a row to insert is in use, with `DatabaseCorrupt` if several
/// rows have the id of the resource, or with another error of the database if the disk failed or memory ran
/// out.
pub(crate) fn write_rows<S: Alter>(
    tx: &mut Transaction<'_, S>,
    edits: &Option<Edits>,
    columns: &AuditColumns<'_>,
) -> Result<(), Error>
    requires number { columns.now.number ≤ last_number }
    requires moment { columns.now.moment ≤ last_number }
    ensures does { DoesIn S.Store tx.old tx.new result (Writes edits.now columns.now) }
{
    edit_if_any(tx, edits)?;
    insert_audit(tx, columns)?;
    Ok(())
}
