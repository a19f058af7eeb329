//! The options of the commands `once` and `check`, and helpers to read options.
ghost use Rattle.std.specs.Prelude.{◌≡◌, true, IfOk, IfErr, codes};
ghost use Rattle.scim_policy_file.specs.Paths as spec;
ghost use Rattle.scim_command.specs.declared.command_faults.CommandFault.{CommandFault};
ghost use Rattle.scim_command.specs.EventFiles.{IsMomentText};
ghost use Rattle.scim_command.specs.Options.{AreOfOnce, Has, IsBaseGiven, IsFlag, value_of};
ghost use Rattle.std.specs.Option.{option_copied};
ghost use Rattle.scim_command.specs.code.FileExits.{IsOfOptions};

use crate::command_faults::CommandFault;
use crate::faults::RunFault;
use clap::ArgMatches;
use scim_base_url::is_base_url;
use scim_cell::Id;
use scim_policy_file::is_client_name;
use scim_text::{Moment, read_printed_moment};
use std::alloc::Global;

/// The options of `once`.
#[derive(Clone, Copy)]
pub struct OnceOptions<'a> {
    /// The path of the policy file.
    pub policy: &'a str,
    /// The path of the users file.
    pub users: &'a str,
    /// The name of the client that sends the request.
    pub client: &'a str,
    /// The URL below which the resources have their locations.
    pub base: &'a str,
    /// The time of the request.
    pub at: Moment,
    /// The id for the resource that the request may create.
    pub first: Id,
}

/// The options of `check`.
#[derive(Clone, Copy)]
pub struct CheckOptions<'a> {
    /// The path of the policy file.
    pub policy: &'a str,
    /// The path of the token file; `None` if none is checked.
    pub tokens: Option<&'a str>,
    /// Whether to describe each rule, and to warn of mistakes.
    pub verbose: bool,
}

impl<'a> OnceOptions<'a> {
    /// Reads the options of `once`.
    ///
    /// Fails with `BadOption` if the client's name or the base URL isn't valid, or if the time or the id doesn't have
    /// the form in which the server prints times and ids.
    pub fn of(alloc: Global, matches: &ArgMatches<'a>) -> Result<OnceOptions<'a>, CommandFault>
        ensures options { IfOk result (AreOfOnce matches.now) }
        ensures fault { IfErr result IsOfOptions }
    {
        let client = client_of(matches)?;
        let Some(first) = Id::read(text_of(matches, "first")?) else {
            return Err(CommandFault::BadOption);
        };
        Ok(OnceOptions {
            policy: text_of(matches, "policy")?,
            users: text_of(matches, "users")?,
            client,
            base: base_of(alloc, matches)?,
            at: moment_of(alloc, text_of(matches, "at")?)?,
            first,
        })
    }
}

impl<'a> CheckOptions<'a> {
    /// Reads the options of `check`.
    pub fn of(matches: &ArgMatches<'a>) -> Result<CheckOptions<'a>, CommandFault>
        ensures policy { IfOk result (λ o. Has matches.now (codes "policy") o.policy.now) }
        ensures tokens { IfOk result (λ o. option_copied o.tokens
            ≡ value_of matches.now (codes "tokens")) }
        ensures verbose { IfOk result (λ o. IsFlag matches.now (codes "verbose") o.verbose) }
        ensures fault { IfErr result IsOfOptions }
    {
        Ok(CheckOptions {
            policy: text_of(matches, "policy")?,
            tokens: matches.get_str("tokens"),
            verbose: matches.get_flag("verbose"),
        })
    }
}

/// Returns the text of an option. Fails with `BadOption` if the option isn't given.
pub(crate) fn text_of<'a>(matches: &ArgMatches<'a>, name: &str) -> Result<&'a str, CommandFault>
    ensures value { IfOk result (λ text. Has matches.now name.now text.now) }
    ensures fault { IfErr result (λ f. f ≡ CommandFault.BadOption) }
{
    match matches.get_str(name) {
        Some(text) => Ok(text),
        None => Err(CommandFault::BadOption),
    }
}

/// Returns the value of `client`. Fails with `BadOption` if it isn't a valid name of a client.
pub(crate) fn client_of<'a>(matches: &ArgMatches<'a>) -> Result<&'a str, CommandFault>
    ensures value { IfOk result (λ client. Has matches.now (codes "client") client.now) }
    ensures name { IfOk result (λ client. spec.is_client_name client.now ≡ true) }
    ensures fault { IfErr result (λ f. f ≡ CommandFault.BadOption) }
{
    let client = text_of(matches, "client")?;
    if is_client_name(client) {
        Ok(client)
    } else {
        Err(CommandFault::BadOption)
    }
}

/// Returns the base URL of the resources. Fails with `BadOption` if the value of `base` isn't a base URL.
pub(crate) fn base_of<'a>(alloc: Global, matches: &ArgMatches<'a>) -> Result<&'a str, CommandFault>
    ensures base { IfOk result (λ base. IsBaseGiven matches.now base.now) }
    ensures fault { IfErr result IsOfOptions }
{
    let base = text_of(matches, "base")?;
    match is_base_url(alloc, base) {
        Ok(true) => Ok(base),
        Ok(false) => Err(CommandFault::BadOption),
        Err(_) => Err(CommandFault::Run(RunFault::NoMemory)),
    }
}

/// Parses a time. Fails with `BadOption` if the text doesn't have the form in which the server prints times.
pub(crate) fn moment_of(alloc: Global, text: &str) -> Result<Moment, CommandFault>
    ensures moment { IfOk result (IsMomentText text.now) }
    ensures fault { IfErr result IsOfOptions }
{
    match read_printed_moment(alloc, text) {
        Ok(Some(moment)) => Ok(moment),
        Ok(None) => Err(CommandFault::BadOption),
        Err(_) => Err(CommandFault::Run(RunFault::NoMemory)),
    }
}
