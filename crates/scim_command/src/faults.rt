//! The faults of commands.
use scim_cell::Id;
use scim_json::DamagedItem;
use scim_policy_file::{Cause, PolicyFault};
use scim_shelf::ShelfFault;
use scim_text::{Failed, NoMemory};
use std::error::Error;
use std::fmt;

/// The fault of a command. Each command documents the faults that it returns.
#[derive(Clone, Copy, Debug, PartialEq, Eq)]
pub enum RunFault {
    /// The policy file is invalid: the number of the invalid rule, from 1, or 0 for the whole file, and the
    /// cause.
    Policy { rule: u32, cause: Cause },
    /// The users file is invalid: the number, from 1, of an item that isn't a valid user or group or that
    /// repeats an id or a unique name; 0 if the file isn't a JSON list.
    Users(usize),
    /// The token file is invalid: the number of the first invalid line, from 1; 0 if the file isn't UTF-8.
    Tokens(usize),
    /// The token file of the administrators is invalid: the number of the first invalid line, from 1; 0 if the
    /// file isn't UTF-8.
    AdminTokens(usize),
    /// A token of an administrator is one of a client, too: the number of the first such line, from 1, of the
    /// administrators' token file.
    SharedToken(usize),
    /// The events file is invalid: the number of the first invalid line, from 1; 0 if the file isn't UTF-8.
    Events(usize),
    /// The input ended before the request did.
    InputEnded,
    /// The input can't be read.
    InputFailed,
    /// The command can't use the database.
    Database(DatabaseFault),
    /// No resource of the kind has the id.
    Absent,
    /// The output can't be written; a part of it may have been written.
    Output,
    /// An allocation failed.
    NoMemory,
}

/// The reason why a command can't use a database.
#[derive(Clone, Copy, Debug, PartialEq, Eq)]
pub enum DatabaseFault {
    /// The tables have another version.
    WrongVersion,
    /// The tables are damaged: the rows of this id don't form one valid resource. If there are several such
    /// ids, this is the smallest.
    Damaged(Id),
    /// The database belongs to another program, can't be read or written, or is damaged although the rows of
    /// each id form a valid resource.
    Unusable,
    /// `import` needs an empty database, and this one has a table, an index or a view.
    NotEmpty,
}

/// The text after `database: ` in the message of a fault.
impl fmt::Display for DatabaseFault {
    fn fmt<W: fmt::Write>(&self, f: &mut fmt::Formatter<W>) -> fmt::Result {
        match self {
            DatabaseFault::WrongVersion => f.write_str("wrong version"),
            DatabaseFault::Damaged(id) => {
                let mut buffer = [0; Id::TEXT_LENGTH];
                let id = id.write(&mut buffer);
                write!(f, "damaged {id}")
            }
            DatabaseFault::Unusable => f.write_str("cannot be used"),
            DatabaseFault::NotEmpty => f.write_str("not empty"),
        }
    }
}

/// Writes `what`, the name of a part of a file such as a line, and its number.
fn numbered<W: fmt::Write>(f: &mut fmt::Formatter<W>, what: &str, number: usize) -> fmt::Result {
    write!(f, "{what} {number}")
}

/// The message of a fault: one line for standard error.
impl fmt::Display for RunFault {
    fn fmt<W: fmt::Write>(&self, f: &mut fmt::Formatter<W>) -> fmt::Result {
        match self {
            RunFault::Policy { rule, cause } => write!(f, "policy: rule {rule}: {cause}"),
            RunFault::Users(number) => numbered(f, "users: item", *number),
            RunFault::Tokens(number) => numbered(f, "tokens: line", *number),
            RunFault::AdminTokens(number) => numbered(f, "admin tokens: line", *number),
            RunFault::SharedToken(number) => {
                write!(f, "admin tokens: line {number}: token of a client")
            }
            RunFault::Events(number) => numbered(f, "events: line", *number),
            RunFault::InputEnded | RunFault::InputFailed => f.write_str("input ended early"),
            RunFault::Database(fault) => write!(f, "database: {fault}"),
            RunFault::Absent => f.write_str("absent"),
            RunFault::Output => f.write_str("output cannot be written"),
            RunFault::NoMemory => f.write_str("out of memory"),
        }
    }
}

impl Error for RunFault {}

impl From<Failed<PolicyFault>> for RunFault {
    ghost use Rattle.std.specs.Prelude.{◌≡◌};
    ghost use Rattle.scim_command.specs.Faults.{of_policy};

    ghost from_gives = { λ e f. f ≡ of_policy e };

    fn from(fault: Failed<PolicyFault>) -> RunFault {
        match fault {
            Failed::Because(PolicyFault { rule, cause }) => RunFault::Policy { rule, cause },
            Failed::NoMemory => RunFault::NoMemory,
        }
    }
}

impl From<Failed<DamagedItem>> for RunFault {
    ghost use Rattle.std.specs.Prelude.{◌≡◌};
    ghost use Rattle.scim_command.specs.Faults.{of_document};

    ghost from_gives = { λ e f. f ≡ of_document e };

    fn from(fault: Failed<DamagedItem>) -> RunFault {
        match fault {
            Failed::Because(DamagedItem(number)) => RunFault::Users(number),
            Failed::NoMemory => RunFault::NoMemory,
        }
    }
}

impl From<Failed<ShelfFault>> for RunFault {
    ghost use Rattle.std.specs.Prelude.{◌≡◌};
    ghost use Rattle.scim_command.specs.Faults.{of_shelf};

    ghost from_gives = { λ e f. f ≡ of_shelf e };

    fn from(fault: Failed<ShelfFault>) -> RunFault {
        match fault {
            Failed::Because(_) => RunFault::Database(DatabaseFault::Unusable),
            Failed::NoMemory => RunFault::NoMemory,
        }
    }
}

impl From<NoMemory> for RunFault {
    ghost use Rattle.std.specs.Prelude.{◌≡◌};
    ghost use Rattle.scim_command.specs.declared.faults.RunFault.{RunFault};

    ghost from_gives = { λ _ f. f ≡ RunFault.NoMemory };

    fn from(_: NoMemory) -> RunFault {
        RunFault::NoMemory
    }
}
