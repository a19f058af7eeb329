//! Laws of the texts that the commands write.
ghost use Rattle.scim_command_database.specs.Exports.{ExportsAreImported};

/// States that [`crate::export`] writes a users file of the store's resources, and that [`crate::import`]
/// creates a new store with the same resources from this file. Only the rows of the audit are lost.
pub fn exports_are_imported()
    ensures { ExportsAreImported }
{}
