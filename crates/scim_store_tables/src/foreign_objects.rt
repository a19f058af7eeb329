//! The first object of a schema that isn't one of the tables or their indexes.

ghost use Rattle.std.specs.Prelude.{◌≡◌, None, IfSome};
ghost use Rattle.std.specs.Option.{option_copied};
ghost use Rattle.sqlite_schema.specs.Names.{same_name};
ghost use Rattle.scim_store_tables.specs.Objects as spec;

use sqlite_schema::names::same_name;
use sqlite_schema::schema::{Index, Schema, Table, View};
use std::fmt;

/// An object of a schema that isn't one of the six tables or their indexes, with its name.
#[derive(Clone, Copy)]
pub enum ForeignObject<'a> {
    /// A table.
    Table(&'a [u8]),
    /// An index.
    Index(&'a [u8]),
    /// A view.
    View(&'a [u8]),
    /// A table, an index or a trigger whose SQL isn't supported.
    Other(&'a [u8]),
}

/// A sentence that names the object, on one line.
impl fmt::Display for ForeignObject<'_> {
    fn fmt<W: fmt::Write>(&self, f: &mut fmt::Formatter<W>) -> fmt::Result {
        let (kind, name) = match self {
            ForeignObject::Table(name) => ("table", *name),
            ForeignObject::Index(name) => ("index", *name),
            ForeignObject::View(name) => ("view", *name),
            ForeignObject::Other(name) => ("object", *name),
        };
        match str::from_utf8(name) {
            Ok(name) => write!(f, "the {kind} {name:?} isn't one of this server's"),
            Err(_) => write!(f, "a {kind} isn't one of this server's"),
        }
    }
}

/// Whether a name is this one, ignoring the case of ASCII letters.
fn is_name(name: &[u8], other: &str) -> bool
    ensures { result ≡ same_name name.now other.now }
{
    same_name(name, other.as_bytes())
}

/// Whether a table has the name of one of the six tables.
fn is_our_table(table: &Table) -> bool
    ensures { result ≡ spec.is_our_table table.now }
{
    let name = table.name.as_slice();
    is_name(name, "setting")
        || is_name(name, "resource")
        || is_name(name, "taken")
        || is_name(name, "member")
        || is_name(name, "audit")
        || is_name(name, "secret")
}

/// Whether an index has the name of an index of one of the six tables.
fn is_our_index(index: &Index) -> bool
    ensures { result ≡ spec.is_our_index index.now }
{
    let name = index.name.as_slice();
    is_name(name, "sqlite_autoindex_setting_1")
        || is_name(name, "sqlite_autoindex_resource_1")
        || is_name(name, "sqlite_autoindex_taken_1")
        || is_name(name, "sqlite_autoindex_member_1")
        || is_name(name, "sqlite_autoindex_secret_1")
}

/// Returns the first table that isn't one of the six, by its name.
fn foreign_table(tables: &[Table]) -> Option<&Table>
    ensures { option_copied result ≡ spec.foreign_table tables.now }
{
    tables.iter().find(|table| !is_our_table(table))
}

/// Returns the first index that isn't one of the six tables', by its name.
fn foreign_index(indexes: &[Index]) -> Option<&Index>
    ensures { option_copied result ≡ spec.foreign_index indexes.now }
{
    indexes.iter().find(|index| !is_our_index(index))
}

/// Returns the object for an entry of the schema's list of views, which also has the unsupported objects.
fn of_view(view: &View) -> ForeignObject<'_>
    ensures { spec.IsOfView view.now result }
{
    let name = view.name.as_slice();
    if view.foreign.is_none() {
        ForeignObject::View(name)
    } else {
        ForeignObject::Other(name)
    }
}

/// Returns the first table that isn't one of the six; if there is none, the first index that isn't one of
/// theirs; and if there is none either, the first view or unsupported object. Tables and indexes are compared
/// by name, ignoring the case of ASCII letters.
///
/// `None` means that the schema has no other names than the six tables and their indexes. It may still be a
/// schema of no version.
pub fn foreign_object(schema: &Schema) -> Option<ForeignObject<'_>>
    ensures none { result ≡ None → spec.HasOnlyOurs schema.now }
    ensures some { IfSome result (spec.IsForeignIn schema.now) }
{
    if let Some(table) = foreign_table(schema.tables.as_slice()) {
        return Some(ForeignObject::Table(table.name.as_slice()));
    }
    if let Some(index) = foreign_index(schema.indexes.as_slice()) {
        return Some(ForeignObject::Index(index.name.as_slice()));
    }
    match schema.views.as_slice() {
        [] => None,
        [view, ..] => Some(of_view(view)),
    }
}
