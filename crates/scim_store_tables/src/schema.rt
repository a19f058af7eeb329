//! Tests whether a schema has exactly the tables of a version.

ghost use Rattle.std.specs.Prelude.{◌≡◌, ◌≢◌, ◌⊎◌, [], ◌∷◌, ◌++◌, false, true, IsTrue, None, Some, codes};
ghost use Rattle.scim_store_tables.specs.Tables.{column, table, setting_table, resource_table, taken_table, member_table, audit_table, secret_table, old_schema, store_schema};
ghost use Rattle.scim_store_tables.specs.code.Schema.{IsBare, index, setting_index, resource_index, taken_index, member_index, secret_index, last_columns, middle_columns, audit_columns, old_indexes, old_tables, store_indexes, store_tables};
ghost use Rattle.sqlite.specs.declared.types.Value.TheVariants.{Null};
ghost use Rattle.sqlite_schema.specs.declared.schema.Kind.TheVariants as kind;

use sqlite_items::Items;
use sqlite_schema::schema::{Column, Index, Kind, Schema, Table};
use sqlite_value::keys::{Collation, Order};
use sqlite_value::value::Value;

/// Whether a column has this name, kind and NOT NULL flag, the binary collation and no default, and isn't
/// strict.
fn is_column(it: &Column, name: &str, kind: Kind, not_null: bool) -> bool
    ensures yes { IsTrue result → it.now ≡ column name.now kind not_null }
    ensures no { result ≡ false → it.now ≢ column name.now kind not_null }
{
    let has_no_default = matches!(it.default, Value::Null);
    it.name.as_slice() == name.as_bytes()
        && it.kind == kind
        && !it.is_strict
        && it.not_null == not_null
        && has_no_default
        && it.collation == Collation::Binary
}

/// Whether a table has no CHECK constraint, no foreign key, no computed default and no AUTOINCREMENT.
fn is_bare(it: &Table) -> bool
    ensures yes { IsTrue result → IsBare it.now }
    ensures no { result ≡ false → ¬ IsBare it.now }
{
    it.checks.roots.is_empty()
        && it.references.is_empty()
        && it.computed.is_empty()
        && it.stamps.places.is_empty()
        && it.stamps.terms.roots.is_empty()
        && it.stamps.formats.is_empty()
        && !it.is_counted
}

/// Whether there is exactly one UNIQUE constraint, over the columns at `places`.
fn is_only(uniques: &[Items<usize>], places: &[usize]) -> bool
    ensures yes { IsTrue result → uniques.now ≡ places.now ∷ [] }
    ensures no { result ≡ false → uniques.now ≢ places.now ∷ [] }
{
    match uniques {
        [only] => only.as_slice() == places,
        _ => false,
    }
}

/// Whether there is exactly one index order, ascending in all columns.
fn is_plain(orders: &[Order]) -> bool
    ensures yes { IsTrue result → orders.now ≡ record { digits = 0 } ∷ [] }
    ensures no { result ≡ false → orders.now ≢ record { digits = 0 } ∷ [] }
{
    match orders {
        [only] => only.digits == 0,
        _ => false,
    }
}

/// Whether a table has this name, tree and primary key, and no other table constraint. The columns aren't
/// compared.
fn is_keyed(it: &Table, name: &str, tree: u32, primary: &[usize]) -> bool
    ensures yes { IsTrue result → it.now
        ≡ record (table name.now it.now.columns primary.now) { tree = tree } }
    ensures no { result ≡ false → it.now
        ≢ record (table name.now it.now.columns primary.now) { tree = tree } }
{
    it.name.as_slice() == name.as_bytes()
        && it.tree == tree
        && it.key.is_none()
        && it.primary.as_slice() == primary
        && is_only(it.uniques.as_slice(), primary)
        && is_plain(it.orders.as_slice())
        && is_bare(it)
}

fn is_setting(it: &Table) -> bool
    ensures yes { IsTrue result → it.now ≡ record setting_table { tree = 0 } }
    ensures no { result ≡ false → it.now ≢ record setting_table { tree = 0 } }
{
    match it.columns.as_slice() {
        [name, number] => {
            is_column(name, "name", Kind::Text, false)
                && is_column(number, "number", Kind::Integer, true)
                && is_keyed(it, "setting", 0, &[1])
        }
        _ => false,
    }
}

fn is_resource(it: &Table) -> bool
    ensures yes { IsTrue result → it.now ≡ record resource_table { tree = 2 } }
    ensures no { result ≡ false → it.now ≢ record resource_table { tree = 2 } }
{
    match it.columns.as_slice() {
        [id, kind, document] => {
            is_column(id, "id", Kind::Text, false)
                && is_column(kind, "kind", Kind::Integer, true)
                && is_column(document, "document", Kind::Text, true)
                && is_keyed(it, "resource", 2, &[1])
        }
        _ => false,
    }
}

fn is_taken(it: &Table) -> bool
    ensures yes { IsTrue result → it.now ≡ record taken_table { tree = 4 } }
    ensures no { result ≡ false → it.now ≢ record taken_table { tree = 4 } }
{
    match it.columns.as_slice() {
        [attribute, folded, id] => {
            is_column(attribute, "attribute", Kind::Text, false)
                && is_column(folded, "folded", Kind::Text, false)
                && is_column(id, "id", Kind::Text, false)
                && is_keyed(it, "taken", 4, &[1, 2])
        }
        _ => false,
    }
}

fn is_secret(it: &Table) -> bool
    ensures yes { IsTrue result → it.now ≡ record secret_table { tree = 9 } }
    ensures no { result ≡ false → it.now ≢ record secret_table { tree = 9 } }
{
    match it.columns.as_slice() {
        [id, code] => {
            is_column(id, "id", Kind::Text, false)
                && is_column(code, "door_code", Kind::Text, true)
                && is_keyed(it, "secret", 9, &[1])
        }
        _ => false,
    }
}

fn is_member(it: &Table) -> bool
    ensures yes { IsTrue result → it.now ≡ record member_table { tree = 6 } }
    ensures no { result ≡ false → it.now ≢ record member_table { tree = 6 } }
{
    match it.columns.as_slice() {
        [value, group] => {
            is_column(value, "value", Kind::Text, false)
                && is_column(group, "group_id", Kind::Text, false)
                && is_keyed(it, "member", 6, &[1, 2])
        }
        _ => false,
    }
}

/// Whether an index has this name and tree, and is unique and ascending over these columns of this table.
fn is_index(it: &Index, name: &str, tree: u32, table: u32, columns: &[usize]) -> bool
    ensures yes { IsTrue result → it.now ≡ index name.now tree table columns.now }
    ensures no { result ≡ false → it.now ≢ index name.now tree table columns.now }
{
    it.name.as_slice() == name.as_bytes()
        && it.tree == tree
        && it.table == table
        && it.columns.as_slice() == columns
        && it.order.digits == 0
        && it.is_unique
}

fn is_setting_index(it: &Index) -> bool
    ensures yes { IsTrue result → it.now ≡ setting_index }
    ensures no { result ≡ false → it.now ≢ setting_index }
{
    is_index(it, "sqlite_autoindex_setting_1", 1, 0, &[1])
}

fn is_resource_index(it: &Index) -> bool
    ensures yes { IsTrue result → it.now ≡ resource_index }
    ensures no { result ≡ false → it.now ≢ resource_index }
{
    is_index(it, "sqlite_autoindex_resource_1", 3, 2, &[1])
}

fn is_taken_index(it: &Index) -> bool
    ensures yes { IsTrue result → it.now ≡ taken_index }
    ensures no { result ≡ false → it.now ≢ taken_index }
{
    is_index(it, "sqlite_autoindex_taken_1", 5, 4, &[1, 2])
}

fn is_member_index(it: &Index) -> bool
    ensures yes { IsTrue result → it.now ≡ member_index }
    ensures no { result ≡ false → it.now ≢ member_index }
{
    is_index(it, "sqlite_autoindex_member_1", 7, 6, &[1, 2])
}

fn is_secret_index(it: &Index) -> bool
    ensures yes { IsTrue result → it.now ≡ secret_index }
    ensures no { result ≡ false → it.now ≢ secret_index }
{
    is_index(it, "sqlite_autoindex_secret_1", 10, 9, &[1])
}

/// Whether these are the indexes of version 1, in order.
fn are_old_indexes(all: &[Index]) -> bool
    ensures yes { IsTrue result → all.now ≡ old_indexes }
    ensures no { result ≡ false → all.now ≢ old_indexes }
{
    match all {
        [setting, resource, taken, member] => {
            is_setting_index(setting)
                && is_resource_index(resource)
                && is_taken_index(taken)
                && is_member_index(member)
        }
        _ => false,
    }
}

/// Whether these are the indexes of version 2, in order.
fn are_indexes(all: &[Index]) -> bool
    ensures yes { IsTrue result → all.now ≡ store_indexes }
    ensures no { result ≡ false → all.now ≢ store_indexes }
{
    match all {
        [setting, resource, taken, member, secret] => {
            is_setting_index(setting)
                && is_resource_index(resource)
                && is_taken_index(taken)
                && is_member_index(member)
                && is_secret_index(secret)
        }
        _ => false,
    }
}

/// Whether these are the last three columns of `audit`.
fn are_last(all: &[Column]) -> bool
    ensures yes { IsTrue result → all.now ≡ last_columns }
    ensures no { result ≡ false → all.now ≢ last_columns }
{
    match all {
        [rule, leaf, refusal] => {
            is_column(rule, "rule", Kind::Integer, false)
                && is_column(leaf, "leaf", Kind::Text, false)
                && is_column(refusal, "refusal", Kind::Integer, false)
        }
        _ => false,
    }
}

/// Whether these are the last six columns of `audit`.
fn are_middle(all: &[Column]) -> bool
    ensures yes { IsTrue result → all.now ≡ middle_columns }
    ensures no { result ≡ false → all.now ≢ middle_columns }
{
    match all {
        [what, id, decided, more @ ..] => {
            is_column(what, "kind", Kind::Integer, false)
                && is_column(id, "id", Kind::Text, false)
                && is_column(decided, "decided", Kind::Integer, false)
                && are_last(more)
        }
        _ => false,
    }
}

/// Whether these are the ten columns of `audit`.
fn are_audit_columns(all: &[Column]) -> bool
    ensures yes { IsTrue result → all.now ≡ audit_columns }
    ensures no { result ≡ false → all.now ≢ audit_columns }
{
    match all {
        [number, moment, client, op, more @ ..] => {
            is_column(number, "number", Kind::Integer, false)
                && is_column(moment, "moment", Kind::Integer, false)
                && is_column(client, "client", Kind::Text, false)
                && is_column(op, "op", Kind::Integer, false)
                && are_middle(more)
        }
        _ => false,
    }
}

/// Whether a table is `audit`. The columns aren't compared.
fn is_numbered(it: &Table) -> bool
    ensures yes { IsTrue result → it.now
        ≡ record audit_table { tree = 8; columns = it.now.columns } }
    ensures no { result ≡ false → it.now
        ≢ record audit_table { tree = 8; columns = it.now.columns } }
{
    it.name.as_slice() == b"audit".as_slice()
        && it.tree == 8
        && it.key == Some(0)
        && it.primary.as_slice() == [0].as_slice()
        && it.uniques.is_empty()
        && it.orders.is_empty()
        && is_bare(it)
}

fn is_audit(it: &Table) -> bool
    ensures yes { IsTrue result → it.now ≡ record audit_table { tree = 8 } }
    ensures no { result ≡ false → it.now ≢ record audit_table { tree = 8 } }
{
    are_audit_columns(it.columns.as_slice()) && is_numbered(it)
}

/// Whether these are the five tables of version 1, in order.
fn are_old_tables(all: &[Table]) -> bool
    ensures yes { IsTrue result → all.now ≡ old_tables }
    ensures no { result ≡ false → all.now ≢ old_tables }
{
    match all {
        [setting, resource, taken, member, audit] => {
            is_setting(setting)
                && is_resource(resource)
                && is_taken(taken)
                && is_member(member)
                && is_audit(audit)
        }
        _ => false,
    }
}

/// Whether these are the six tables of version 2, in order.
fn are_tables(all: &[Table]) -> bool
    ensures yes { IsTrue result → all.now ≡ store_tables }
    ensures no { result ≡ false → all.now ≢ store_tables }
{
    match all {
        [setting, resource, taken, member, audit, secret] => {
            is_setting(setting)
                && is_resource(resource)
                && is_taken(taken)
                && is_member(member)
                && is_audit(audit)
                && is_secret(secret)
        }
        _ => false,
    }
}

/// Whether a schema has exactly the five tables of version 1, in order, with the indexes of their keys.
pub fn is_old_schema(schema: &Schema) -> bool
    ensures yes { IsTrue result → schema.now ≡ old_schema }
    ensures no { result ≡ false → schema.now ≢ old_schema }
{
    if !are_old_tables(schema.tables.as_slice()) {
        return false;
    }
    if !are_old_indexes(schema.indexes.as_slice()) {
        return false;
    }
    schema.views.is_empty()
}

/// Whether a schema has exactly the six tables of version 2, in order, with the indexes of their keys.
pub fn is_store_schema(schema: &Schema) -> bool
    ensures yes { IsTrue result → schema.now ≡ store_schema }
    ensures no { result ≡ false → schema.now ≢ store_schema }
{
    if !are_tables(schema.tables.as_slice()) {
        return false;
    }
    if !are_indexes(schema.indexes.as_slice()) {
        return false;
    }
    schema.views.is_empty()
}
