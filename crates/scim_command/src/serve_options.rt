//! The options of the command `serve`.
ghost use Rattle.std.specs.Prelude.{◌≡◌, IfOk, IfErr, codes};
ghost use Rattle.scim_command.specs.EventFiles.{IsNumberText};
ghost use Rattle.scim_command.specs.Options.{AreOfLimits, AreOfServe, MayHaveAdmin, MayHaveNumber};
ghost use Rattle.scim_command.specs.code.FileExits.{IsOfOptions};
ghost use Rattle.scim_command.specs.declared.command_faults.CommandFault.{CommandFault};

use crate::command_faults::CommandFault;
use crate::database_options::number_of;
use crate::options::{base_of, text_of};
use clap::ArgMatches;
use std::alloc::Global;

/// The options of `serve`.
#[derive(Clone, Copy)]
pub struct ServeOptions<'a> {
    /// The path of the policy file.
    pub policy: &'a str,
    /// The path of the token file.
    pub tokens: &'a str,
    /// The path of the database.
    pub database: &'a str,
    /// The port on 127.0.0.1 to listen on; 0 selects a free port.
    pub port: u16,
    /// The URL below which the resources have their locations.
    pub base: &'a str,
    /// The number of connections after which the server ends; if `None`, it runs until stopped.
    pub connections: Option<u64>,
    /// The limits of connections.
    pub limits: LimitOptions,
    /// Whether resources are also cached in memory.
    pub has_cache: bool,
    /// The options of the administrator; if `None`, no administrator is served.
    pub admin: Option<AdminOptions<'a>>,
    /// The path of the audit log; if `None`, none is written.
    pub audit_log: Option<&'a str>,
}

/// The options of `serve` for the limits of connections.
#[derive(Clone, Copy)]
pub struct LimitOptions {
    /// The seconds of silence after which a connection is closed.
    pub idle_seconds: u64,
    /// The seconds that a head may take.
    pub head_seconds: u64,
    /// The seconds that a message may take.
    pub message_seconds: u64,
    /// The bytes per second that a client must take of a long reply.
    pub reply_rate: u64,
    /// The MiB of unfinished messages and waiting replies that the server holds.
    pub memory: u64,
}

/// The options of `serve` for the administrator.
#[derive(Clone, Copy)]
pub struct AdminOptions<'a> {
    /// The port on 127.0.0.1 to listen on for administrators; 0 selects a free port.
    pub port: u16,
    /// The path of the administrators' token file.
    pub tokens: &'a str,
}

impl<'a> ServeOptions<'a> {
    /// Reads the options of `serve`. Fails with `BadOption` if a number isn't digits, exceeds 64 bits, or is
    /// a port above 65,535, if the base URL isn't valid, or if only one of `--admin-port` and `--admin-tokens` is
    /// given.
    pub fn of(alloc: Global, matches: &ArgMatches<'a>) -> Result<ServeOptions<'a>, CommandFault>
        ensures options { IfOk result (AreOfServe matches.now) }
        ensures fault { IfErr result IsOfOptions }
    {
        Ok(ServeOptions {
            policy: text_of(matches, "policy")?,
            tokens: text_of(matches, "tokens")?,
            database: text_of(matches, "db")?,
            port: port_of(text_of(matches, "port")?)?,
            base: base_of(alloc, matches)?,
            connections: connections_of(matches)?,
            limits: LimitOptions::of(matches)?,
            has_cache: !matches.get_flag("no-cache"),
            admin: AdminOptions::of(matches)?,
            audit_log: matches.get_str("audit-log"),
        })
    }
}

impl LimitOptions {
    /// Reads the options for the limits of connections. Fails with `BadOption` if a number isn't digits or
    /// exceeds 64 bits.
    fn of(matches: &ArgMatches<'_>) -> Result<LimitOptions, CommandFault>
        ensures options { IfOk result (AreOfLimits matches.now) }
        ensures fault { IfErr result (λ f. f ≡ CommandFault.BadOption) }
    {
        Ok(LimitOptions {
            idle_seconds: number_of(text_of(matches, "idle-seconds")?)?,
            head_seconds: number_of(text_of(matches, "head-seconds")?)?,
            message_seconds: number_of(text_of(matches, "message-seconds")?)?,
            reply_rate: number_of(text_of(matches, "reply-rate")?)?,
            memory: number_of(text_of(matches, "memory")?)?,
        })
    }
}

impl<'a> AdminOptions<'a> {
    /// Reads the options for the administrator, if given. Fails with `BadOption` if only one of them is given,
    /// or if the port isn't digits or exceeds 65,535.
    fn of(matches: &ArgMatches<'a>) -> Result<Option<AdminOptions<'a>>, CommandFault>
        ensures options { IfOk result (MayHaveAdmin matches.now) }
        ensures fault { IfErr result (λ f. f ≡ CommandFault.BadOption) }
    {
        match (
            matches.get_str("admin-port"),
            matches.get_str("admin-tokens"),
        ) {
            (Some(port), Some(tokens)) => Ok(Some(AdminOptions {
                port: port_of(port)?,
                tokens,
            })),
            (None, None) => Ok(None),
            _ => Err(CommandFault::BadOption),
        }
    }
}

/// Parses a port. Fails with `BadOption` if the text isn't digits or the number exceeds 65,535.
fn port_of(text: &str) -> Result<u16, CommandFault>
    ensures number { IfOk result (IsNumberText text.now) }
    ensures fault { IfErr result (λ f. f ≡ CommandFault.BadOption) }
{
    match u16::try_from(number_of(text)?) {
        Ok(port) => Ok(port),
        Err(_) => Err(CommandFault::BadOption),
    }
}

/// Returns the number of connections after which the server ends, if given. Fails with `BadOption` if the
/// text isn't digits or the number exceeds 64 bits.
fn connections_of(matches: &ArgMatches<'_>) -> Result<Option<u64>, CommandFault>
    ensures number { IfOk result (MayHaveNumber matches.now (codes "connections")) }
    ensures fault { IfErr result (λ f. f ≡ CommandFault.BadOption) }
{
    match matches.get_str("connections") {
        Some(text) => Ok(Some(number_of(text)?)),
        None => Ok(None),
    }
}
