//! The options of the command `replay`.
ghost use Rattle.std.specs.Prelude.{IfOk, IfErr};
ghost use Rattle.scim_command.specs.Options.{AreOfReplay};
ghost use Rattle.scim_command.specs.code.FileExits.{IsOfOptions};

use crate::command_faults::CommandFault;
use crate::options::{base_of, text_of};
use clap::ArgMatches;
use std::alloc::Global;

/// The options of `replay`.
#[derive(Clone, Copy)]
pub struct ReplayOptions<'a> {
    /// The path of the policy file.
    pub policy: &'a str,
    /// The path of the token file.
    pub tokens: &'a str,
    /// The path of the users file.
    pub users: &'a str,
    /// The path of the events file.
    pub events: &'a str,
    /// The URL below which the resources have their locations.
    pub base: &'a str,
}

impl<'a> ReplayOptions<'a> {
    /// Reads the options of `replay`. Fails with `BadOption` if the base URL isn't valid.
    pub fn of(alloc: Global, matches: &ArgMatches<'a>) -> Result<ReplayOptions<'a>, CommandFault>
        ensures options { IfOk result (AreOfReplay matches.now) }
        ensures fault { IfErr result IsOfOptions }
    {
        Ok(ReplayOptions {
            policy: text_of(matches, "policy")?,
            tokens: text_of(matches, "tokens")?,
            users: text_of(matches, "users")?,
            events: text_of(matches, "events")?,
            base: base_of(alloc, matches)?,
        })
    }
}
