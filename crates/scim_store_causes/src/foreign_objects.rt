//! A copy of the first object of a schema that isn't one of the tables or their indexes.

ghost use Rattle.std.specs.Prelude.{IfOk};
ghost use Rattle.scim_store_causes.specs.Objects as spec;

use scim_store_tables::{ForeignObject, foreign_object};
use scim_text::NoMemory;
use sqlite_schema::schema::Schema;
use std::alloc::Global;
use std::fmt;

/// An object of a schema that isn't one of the six tables or their indexes, with a copy of its name.
pub enum OwnedObject {
    /// A table.
    Table(Vec<u8>),
    /// An index.
    Index(Vec<u8>),
    /// A view.
    View(Vec<u8>),
    /// A table, an index or a trigger whose SQL isn't supported.
    Other(Vec<u8>),
}

impl Drop for OwnedObject {
    fn drop(self) {
        match self {
            OwnedObject::Table(_name) => {}
            OwnedObject::Index(_name) => {}
            OwnedObject::View(_name) => {}
            OwnedObject::Other(_name) => {}
        }
    }
}

impl OwnedObject {
    /// Copies the kind and the name of an object.
    fn copy_of(alloc: Global, object: ForeignObject<'_>) -> Result<OwnedObject, NoMemory>
        ensures { IfOk result (spec.IsCopyOf object.entry) }
    {
        Ok(match object {
            ForeignObject::Table(name) => OwnedObject::Table(Vec::from_slice(alloc, name)?),
            ForeignObject::Index(name) => OwnedObject::Index(Vec::from_slice(alloc, name)?),
            ForeignObject::View(name) => OwnedObject::View(Vec::from_slice(alloc, name)?),
            ForeignObject::Other(name) => OwnedObject::Other(Vec::from_slice(alloc, name)?),
        })
    }

    /// Borrows the name.
    fn borrowed(&self) -> ForeignObject<'_> {
        match self {
            OwnedObject::Table(name) => ForeignObject::Table(name.as_slice()),
            OwnedObject::Index(name) => ForeignObject::Index(name.as_slice()),
            OwnedObject::View(name) => ForeignObject::View(name.as_slice()),
            OwnedObject::Other(name) => ForeignObject::Other(name.as_slice()),
        }
    }
}

/// A sentence that names the object, on one line.
impl fmt::Display for OwnedObject {
    fn fmt<W: fmt::Write>(&self, f: &mut fmt::Formatter<W>) -> fmt::Result {
        self.borrowed().fmt(f)
    }
}

/// Returns a copy of the first object of a schema that isn't one of the six tables or their indexes; `None` if there
/// isn't one.
pub(crate) fn foreign_copy(alloc: Global, schema: &Schema) -> Result<Option<OwnedObject>, NoMemory>
    ensures { IfOk result (spec.CopiesForeign schema.now) }
{
    match foreign_object(schema) {
        Some(object) => Ok(Some(OwnedObject::copy_of(alloc, object)?)),
        None => Ok(None),
    }
}
