//! The errors of the program's command line and commands.
ghost use Rattle.std.specs.Prelude.{◌≡◌};
ghost use Rattle.scim_command.specs.Faults.{IsOfArchive, IsOfOutputPath, IsOfPath, exit_status_of};

use crate::faults::RunFault;
use std::alloc::Global;
use std::fmt;

/// The error that ends the program. Its `Display` text is one line for the user.
pub enum CommandFault {
    /// An argument isn't UTF-8.
    NotText,
    /// The value of an option is invalid.
    BadOption,
    /// The file at this path can't be read.
    CannotRead(String),
    /// The file at this path can't be written.
    CannotWrite(String),
    /// The database can't be archived to the file at this path.
    CannotArchive(String, ArchiveCause),
    /// The server can't listen on the port.
    CannotListen,
    /// The server can no longer serve its connections, because the system's poll or clock failed.
    CannotServe,
    /// The database's files were removed, renamed or replaced while the server ran.
    FilesGone,
    /// The database was shut while the server ran, because a write to the disk failed.
    StoreShut,
    /// The system gives no random bytes.
    NoRandomBytes,
    /// The system gives no time that can be written as a moment.
    NoClock,
    /// The command failed.
    Run(RunFault),
}

/// The reason why a database can't be archived to a file.
#[derive(Clone, Copy, PartialEq, Eq)]
pub enum ArchiveCause {
    /// There is a file, a folder or a link with this name.
    Exists,
    /// The files can't be made, written or renamed.
    Files,
}

impl Drop for CommandFault {
    fn drop(self) {
        match self {
            CommandFault::CannotRead(_path)
            | CommandFault::CannotWrite(_path)
            | CommandFault::CannotArchive(_path, _) => (),
            CommandFault::NotText
            | CommandFault::BadOption
            | CommandFault::CannotListen
            | CommandFault::CannotServe
            | CommandFault::FilesGone
            | CommandFault::StoreShut
            | CommandFault::NoRandomBytes
            | CommandFault::NoClock
            | CommandFault::Run(_) => (),
        }
    }
}

impl CommandFault {
    /// Returns the error `CannotRead` for the file at this path, or `NoMemory` if the path can't be copied.
    pub fn cannot_read(alloc: Global, path: &str) -> CommandFault
        ensures { IsOfPath path.now result }
    {
        match String::from_str(alloc, path) {
            Ok(path) => CommandFault::CannotRead(path),
            Err(_) => CommandFault::Run(RunFault::NoMemory),
        }
    }

    /// Returns the error `CannotWrite` for the file at this path, or `NoMemory` if the path can't be copied.
    pub fn cannot_write(alloc: Global, path: &str) -> CommandFault
        ensures { IsOfOutputPath path.now result }
    {
        match String::from_str(alloc, path) {
            Ok(path) => CommandFault::CannotWrite(path),
            Err(_) => CommandFault::Run(RunFault::NoMemory),
        }
    }

    /// Returns the error `CannotArchive` for the file at this path, or `NoMemory` if the path can't be copied.
    pub fn cannot_archive(alloc: Global, path: &str, cause: ArchiveCause) -> CommandFault
        ensures { IsOfArchive path.now cause result }
    {
        match String::from_str(alloc, path) {
            Ok(path) => CommandFault::CannotArchive(path, cause),
            Err(_) => CommandFault::Run(RunFault::NoMemory),
        }
    }

    /// Returns the exit status: 2 for an error in the command line, and 1 for any other error.
    pub fn exit_status(&self) -> u8
        ensures { result ≡ exit_status_of self.now }
    {
        match self {
            CommandFault::NotText | CommandFault::BadOption => 2,
            CommandFault::CannotRead(_)
            | CommandFault::CannotWrite(_)
            | CommandFault::CannotArchive(_, _)
            | CommandFault::CannotListen
            | CommandFault::CannotServe
            | CommandFault::FilesGone
            | CommandFault::StoreShut
            | CommandFault::NoRandomBytes
            | CommandFault::NoClock
            | CommandFault::Run(_) => 1,
        }
    }
}

impl fmt::Display for CommandFault {
    fn fmt<W: fmt::Write>(&self, f: &mut fmt::Formatter<W>) -> fmt::Result {
        match self {
            CommandFault::NotText => f.write_str("an argument is not in UTF-8"),
            CommandFault::BadOption => f.write_str("bad option"),
            CommandFault::CannotRead(path) => write!(f, "cannot read {}", OneLine(path.as_str())),
            CommandFault::CannotWrite(path) => {
                write!(f, "cannot write {}", OneLine(path.as_str()))
            }
            CommandFault::CannotArchive(path, cause) => {
                let reason = cause.reason();
                write!(f, "cannot archive to {}{reason}", OneLine(path.as_str()))
            }
            CommandFault::CannotListen => f.write_str("cannot listen"),
            CommandFault::CannotServe => f.write_str("cannot serve"),
            CommandFault::FilesGone => f.write_str("the database's files are gone"),
            CommandFault::StoreShut => f.write_str("the database is shut after a failed write"),
            CommandFault::NoRandomBytes => f.write_str("no random bytes"),
            CommandFault::NoClock => f.write_str("no time"),
            CommandFault::Run(fault) => fmt::Display::fmt(fault, f),
        }
    }
}

impl ArchiveCause {
    /// What the message of the error says after the path.
    fn reason(self) -> &'static str {
        match self {
            ArchiveCause::Exists => ": it exists",
            ArchiveCause::Files => "",
        }
    }
}

/// A text printed on one line: control characters such as a line feed are escaped as in a Rust string.
#[derive(Clone, Copy)]
pub struct OneLine<'a>(pub &'a str);

impl fmt::Display for OneLine<'_> {
    fn fmt<W: fmt::Write>(&self, f: &mut fmt::Formatter<W>) -> fmt::Result {
        for character in self.0.chars() {
            if character.is_control() {
                write!(f, "{}", character.escape_default())?;
            } else {
                write!(f, "{character}")?;
            }
        }
        Ok(())
    }
}

impl From<RunFault> for CommandFault {
    ghost use Rattle.std.specs.Prelude.{◌≡◌};
    ghost use Rattle.scim_command.specs.declared.command_faults.CommandFault.{CommandFault};

    ghost from_gives = { λ e f. f ≡ CommandFault.Run e };

    fn from(fault: RunFault) -> CommandFault {
        CommandFault::Run(fault)
    }
}
