//! The options of the commands `export`, `import` and `archive`, and numbers as options.
ghost use Rattle.std.specs.Prelude.{◌≡◌, IfOk, IfErr, codes};
ghost use Rattle.scim_command.specs.EventFiles.{IsNumberText};
ghost use Rattle.scim_command.specs.Options.{AreOfArchive, AreOfImport, Has};
ghost use Rattle.scim_command.specs.declared.command_faults.CommandFault.{CommandFault};

use crate::command_faults::CommandFault;
use crate::event_lines::number_in;
use crate::options::text_of;
use clap::ArgMatches;

/// The options of `export`.
#[derive(Clone, Copy)]
pub struct ExportOptions<'a> {
    /// The path of the database.
    pub database: &'a str,
}

/// The options of `import`.
#[derive(Clone, Copy)]
pub struct ImportOptions<'a> {
    /// The path of the database.
    pub database: &'a str,
    /// The path of the users file.
    pub users: &'a str,
    /// Whether the users file is an export of another SCIM server.
    pub is_foreign: bool,
    /// Whether the database may have resources, to which those of the file are added.
    pub merges: bool,
}

/// The options of `archive`.
#[derive(Clone, Copy)]
pub struct ArchiveOptions<'a> {
    /// The path of the database.
    pub database: &'a str,
    /// The path of the archive.
    pub archive: &'a str,
}

impl<'a> ExportOptions<'a> {
    /// Reads the options of `export`.
    pub fn of(matches: &ArgMatches<'a>) -> Result<ExportOptions<'a>, CommandFault>
        ensures database { IfOk result (λ o. Has matches.now (codes "db") o.database.now) }
        ensures fault { IfErr result (λ f. f ≡ CommandFault.BadOption) }
    {
        Ok(ExportOptions {
            database: text_of(matches, "db")?,
        })
    }
}

impl<'a> ImportOptions<'a> {
    /// Reads the options of `import`.
    pub fn of(matches: &ArgMatches<'a>) -> Result<ImportOptions<'a>, CommandFault>
        ensures options { IfOk result (AreOfImport matches.now) }
        ensures fault { IfErr result (λ f. f ≡ CommandFault.BadOption) }
    {
        Ok(ImportOptions {
            database: text_of(matches, "db")?,
            users: text_of(matches, "users")?,
            is_foreign: matches.get_flag("foreign"),
            merges: matches.get_flag("merge"),
        })
    }
}

impl<'a> ArchiveOptions<'a> {
    /// Reads the options of `archive`.
    pub fn of(matches: &ArgMatches<'a>) -> Result<ArchiveOptions<'a>, CommandFault>
        ensures options { IfOk result (AreOfArchive matches.now) }
        ensures fault { IfErr result (λ f. f ≡ CommandFault.BadOption) }
    {
        Ok(ArchiveOptions {
            database: text_of(matches, "db")?,
            archive: text_of(matches, "to")?,
        })
    }
}

/// Parses a number in decimal digits. Fails with `BadOption` if the text isn't digits or the number exceeds
/// 64 bits.
pub(crate) fn number_of(text: &str) -> Result<u64, CommandFault>
    ensures number { IfOk result (IsNumberText text.now) }
    ensures fault { IfErr result (λ f. f ≡ CommandFault.BadOption) }
{
    match number_in(text) {
        Some(number) => Ok(number),
        None => Err(CommandFault::BadOption),
    }
}
