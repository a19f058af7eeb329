//! Reads the files that a command's options name.
ghost use Rattle.std.specs.Prelude.{◌≡◌, ℕ, List, Ok, IfOk, IfErr};
ghost use Rattle.scim_policy_file.specs.File.{policy_of};
ghost use Rattle.scim_command.specs.Faults.{IsOfFile, IsOfPath, IsOfPolicyAt, IsOverFiles, of_no_text};
ghost use Rattle.scim_command.specs.code.Exits.{IsOfFiles};
ghost use Rattle.scim_command.specs.declared.command_faults.CommandFault.{CommandFault};

use crate::command_faults::CommandFault;
use crate::faults::RunFault;
use crate::options::OnceOptions;
use crate::run_once::Setting;
use scim_policy::Policy;
use scim_policy_file::{Cause, read_policy};
use std::fs;
use std::rt::Files;

/// The kind of a file that a command reads.
#[derive(Clone, Copy)]
pub enum FileKind {
    /// A policy file.
    Policy,
    /// A file of the clients' tokens.
    Tokens,
    /// A file of the administrators' tokens.
    AdminTokens,
    /// A users file, which contains resources.
    Users,
    /// An events file, which contains events of connections.
    Events,
}

/// Returns the error for a file of this kind that isn't UTF-8.
fn not_text(kind: FileKind) -> CommandFault
    ensures { result ≡ CommandFault.Run (of_no_text kind) }
{
    CommandFault::Run(match kind {
        FileKind::Policy => RunFault::Policy {
            rule: 0,
            cause: Cause::Json,
        },
        FileKind::Tokens => RunFault::Tokens(0),
        FileKind::AdminTokens => RunFault::AdminTokens(0),
        FileKind::Users => RunFault::Users(0),
        FileKind::Events => RunFault::Events(0),
    })
}

/// Returns the text of the file at a path.
///
/// Fails with `CannotRead` if the file can't be read. If the file isn't UTF-8, fails with the error for
/// `kind`, with the number 0, such as `Users(0)`.
pub fn read_file(
    rt: &(impl Files + AllocGlobal),
    kind: FileKind,
    path: &str,
) -> Result<String, CommandFault>
    ensures { IfErr result (IsOfFile kind path.now) }
{
    let Ok(bytes) = fs::read(rt, path) else {
        return Err(CommandFault::cannot_read(rt.alloc(), path));
    };
    match String::from_utf8(bytes) {
        Ok(text) => Ok(text),
        Err(_) => Err(not_text(kind)),
    }
}

/// Checks that a file exists. Fails with `CannotRead` if it doesn't or if the check fails.
pub fn find_file(rt: &(impl Files + AllocGlobal), path: &str) -> Result<(), CommandFault>
    ensures { IfErr result (IsOfPath path.now) }
{
    match fs::exists(rt, path) {
        Ok(true) => Ok(()),
        _ => Err(CommandFault::cannot_read(rt.alloc(), path)),
    }
}

/// Returns the policy in the file at a path.
///
/// Fails with `CannotRead` if the file can't be read, and with `Policy` if it isn't UTF-8 or isn't a valid
/// policy.
pub fn policy_at(rt: &(impl Files + AllocGlobal), path: &str) -> Result<Policy, CommandFault>
    ensures policy { IfOk result (λ policy. (text : List ℕ) × (policy_of text ≡ Ok policy)) }
    ensures fault { IfErr result (IsOfPolicyAt path.now) }
{
    let text = read_file(rt, FileKind::Policy, path)?;
    match read_policy(rt.alloc(), text.as_str()) {
        Ok(policy) => Ok(policy),
        Err(fault) => Err(CommandFault::Run(fault.into())),
    }
}

/// The texts of the files of `once`.
#[derive(Drop)]
pub(crate) struct OnceTexts {
    policy: String,
    users: String,
}

impl OnceTexts {
    /// Reads the files that the options name.
    ///
    /// Fails with the error of [`read_file`] if a file can't be read or isn't UTF-8. But if the users file
    /// can't be read or isn't UTF-8, and the policy is invalid, the error is `Policy`.
    pub(crate) fn read(
        rt: &(impl Files + AllocGlobal),
        options: &OnceOptions<'_>,
    ) -> Result<OnceTexts, CommandFault>
        ensures { IfErr result (IsOverFiles IsOfFiles) }
    {
        let policy = read_file(rt, FileKind::Policy, options.policy)?;
        match read_file(rt, FileKind::Users, options.users) {
            Ok(users) => Ok(OnceTexts { policy, users }),
            Err(fault) => match read_policy(rt.alloc(), policy.as_str()) {
                Ok(_) => Err(fault),
                Err(earlier) => Err(CommandFault::Run(earlier.into())),
            },
        }
    }

    /// Returns the input of `once` with these texts and options.
    pub(crate) fn setting<'a>(&'a self, options: &OnceOptions<'a>) -> Setting<'a>
        ensures client { result.client.now ≡ options.now.client.now }
        ensures base { result.base.now ≡ options.now.base.now }
        ensures arrival { (result.at ≡ options.now.at) × (result.first ≡ options.now.first) }
    {
        Setting {
            policy: self.policy.as_str(),
            users: self.users.as_str(),
            client: options.client,
            base: options.base,
            at: options.at,
            first: options.first,
        }
    }
}
