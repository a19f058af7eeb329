//! The options of the command `audit`.
ghost use Rattle.std.specs.Prelude.{◌≡◌, IfOk, IfErr, codes};
ghost use Rattle.std.specs.Option.{option_copied};
ghost use Rattle.scim_audit_listing.specs.RefusalNames.{NamesRefusal};
ghost use Rattle.scim_command.specs.EventFiles.{IsMomentText};
ghost use Rattle.scim_command.specs.Options.{AreOfAudit, IsAuditFilter, IsFormat, IsPortion, MayHaveSome, value_of};
ghost use Rattle.scim_command.specs.code.FileExits.{IsOfOptions};
ghost use Rattle.scim_command.specs.declared.command_faults.CommandFault.{CommandFault};

use crate::command_faults::CommandFault;
use crate::database_options::number_of;
use crate::option_defaults::DEFAULT_COUNT;
use crate::options::{moment_of, text_of};
use clap::ArgMatches;
use scim_audit_listing::{AuditFilter, LineFormat, Listing, Portion, refusal_named};
use scim_policy_file::is_client_name;
use scim_text::Moment;
use std::alloc::Global;

/// The options of `audit`.
#[derive(Clone, Copy)]
pub struct AuditOptions<'a> {
    /// The path of the database.
    pub database: &'a str,
    /// Which rows to print, and how.
    pub listing: Listing<'a>,
}

impl<'a> AuditOptions<'a> {
    /// Reads the options of `audit`.
    ///
    /// Fails with `BadOption` if a number isn't digits or exceeds 64 bits, if both `--count` and `--last` are
    /// given, if the client's name isn't valid, if the moment doesn't have the form in which the server prints
    /// moments, or if there is no such refusal.
    pub fn of(alloc: Global, matches: &ArgMatches<'a>) -> Result<AuditOptions<'a>, CommandFault>
        ensures options { IfOk result (AreOfAudit matches.now) }
        ensures fault { IfErr result IsOfOptions }
    {
        Ok(AuditOptions {
            database: text_of(matches, "db")?,
            listing: Listing {
                from: number_of(text_of(matches, "from")?)?,
                filter: filter_given(alloc, matches)?,
                portion: portion_given(matches)?,
                format: format_given(matches),
            },
        })
    }
}

/// Returns the conditions that the options give.
fn filter_given<'a>(
    alloc: Global,
    matches: &ArgMatches<'a>,
) -> Result<AuditFilter<'a>, CommandFault>
    ensures filter { IfOk result (IsAuditFilter matches.now) }
    ensures fault { IfErr result IsOfOptions }
{
    Ok(AuditFilter {
        client: client_given(matches)?,
        since: since_given(alloc, matches)?,
        refusal: refusal_given(matches)?,
    })
}

/// Returns the value of `--client`, if it is given. Fails with `BadOption` if it isn't a valid name.
fn client_given<'a>(matches: &ArgMatches<'a>) -> Result<Option<&'a str>, CommandFault>
    ensures client { IfOk result (λ client. option_copied client
        ≡ value_of matches.now (codes "client")) }
    ensures fault { IfErr result (λ f. f ≡ CommandFault.BadOption) }
{
    let client = matches.get_str("client");
    match client {
        Some(name) if !is_client_name(name) => Err(CommandFault::BadOption),
        _ => Ok(client),
    }
}

/// Returns the value of `--since`, if it is given. Fails with `BadOption` if it doesn't have the form in which
/// the server prints moments.
fn since_given(alloc: Global, matches: &ArgMatches<'_>) -> Result<Option<Moment>, CommandFault>
    ensures since { IfOk result (MayHaveSome matches.now (codes "since") IsMomentText) }
    ensures fault { IfErr result IsOfOptions }
{
    match matches.get_str("since") {
        Some(text) => Ok(Some(moment_of(alloc, text)?)),
        None => Ok(None),
    }
}

/// Returns the number of the refusal that `--refusal` names, if it is given. Fails with `BadOption` if it names
/// no refusal.
fn refusal_given(matches: &ArgMatches<'_>) -> Result<Option<u8>, CommandFault>
    ensures refusal { IfOk result (MayHaveSome matches.now (codes "refusal") NamesRefusal) }
    ensures fault { IfErr result (λ f. f ≡ CommandFault.BadOption) }
{
    match matches.get_str("refusal") {
        Some(text) => match refusal_named(text) {
            Some(number) => Ok(Some(number)),
            None => Err(CommandFault::BadOption),
        },
        None => Ok(None),
    }
}

/// Returns the portion of the rows that `--count` or `--last` asks for. Fails with `BadOption` if both are
/// given, or if a number isn't digits or exceeds 64 bits.
fn portion_given(matches: &ArgMatches<'_>) -> Result<Portion, CommandFault>
    ensures portion { IfOk result (IsPortion matches.now) }
    ensures fault { IfErr result (λ f. f ≡ CommandFault.BadOption) }
{
    match (matches.get_str("count"), matches.get_str("last")) {
        (None, None) => Ok(Portion::First(DEFAULT_COUNT)),
        (Some(count), None) => Ok(Portion::First(number_of(count)?)),
        (None, Some(last)) => Ok(Portion::Last(number_of(last)?)),
        (Some(_), Some(_)) => Err(CommandFault::BadOption),
    }
}

/// Returns the form of the lines that the options give.
fn format_given(matches: &ArgMatches<'_>) -> LineFormat
    ensures { IsFormat matches.now result }
{
    if matches.get_flag("json") {
        LineFormat::Json
    } else {
        LineFormat::Words
    }
}
