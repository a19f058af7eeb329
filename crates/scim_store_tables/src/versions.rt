//! The versions of the tables.

ghost use Rattle.std.specs.Prelude.{◌≡◌, pos};
ghost use Rattle.scim_store_tables.specs.Lists as spec;

/// A version of the tables of a database file.
#[derive(Clone, Copy, PartialEq, Eq)]
pub enum Version {
    /// Version 1: the five tables other than `secret`. It is only read, and migrated to version 2.
    One,
    /// Version 2: the six tables.
    Two,
}

/// Returns the number of a version, which `setting` has.
pub(crate) fn version_number(version: Version) -> i64
    ensures { result ≡ pos (spec.version_number version) }
{
    match version {
        Version::One => 1,
        Version::Two => 2,
    }
}
