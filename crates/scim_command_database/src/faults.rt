//! Converts errors of a database to errors of a command.
ghost use Rattle.std.specs.Prelude.{◌≡◌};
ghost use Rattle.scim_command_database.specs.Faults.{of_connecting, of_opening};

use scim_command::{DatabaseFault, RunFault};
use scim_store::OpenFault;
use sqlite::{Error, ErrorCode};

/// Returns the error of a command for a database that can't be opened as a store.
pub(crate) fn open_fault(fault: OpenFault) -> RunFault
    ensures { result ≡ of_opening fault }
{
    match fault {
        OpenFault::WrongVersion => RunFault::Database(DatabaseFault::WrongVersion),
        OpenFault::Damaged(id) => RunFault::Database(DatabaseFault::Damaged(id)),
        OpenFault::Store | OpenFault::Device => RunFault::Database(DatabaseFault::Unusable),
        OpenFault::NoMemory => RunFault::NoMemory,
    }
}

/// Returns the error of a command for a database connection that can't be opened: `NoMemory` if memory ran
/// out, and otherwise `Database`, as unusable.
pub fn unopened(error: Error) -> RunFault
    ensures { result ≡ of_connecting error }
{
    match error {
        Error::SqliteFailure(ErrorCode::OutOfMemory) => RunFault::NoMemory,
        _ => RunFault::Database(DatabaseFault::Unusable),
    }
}
