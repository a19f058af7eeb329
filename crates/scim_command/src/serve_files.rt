//! Reads the files that the options of `serve` name: at the start, and again while the server runs.
ghost use Rattle.std.specs.Prelude.{◌≡◌, IfOk, IfErr, is_some};
ghost use Rattle.scim_command.specs.Faults.{IsOfAdminTokensAt};
ghost use Rattle.scim_command.specs.ServeFiles.{AreOfAdminFile, AreOfServeFiles, IsOfServeFiles};

use crate::command_faults::CommandFault;
use crate::files::{FileKind, policy_at, read_file};
use crate::replaying::tokens_at;
use crate::serve_options::ServeOptions;
use crate::token_files::read_admin_tokens;
use scim_policy::Policy;
use scim_token::Tokens;
use std::rt::Files;

/// The contents of the files of `serve`.
#[derive(Drop)]
pub struct ServeFiles {
    pub policy: Policy,
    /// The tokens of the clients.
    pub tokens: Tokens,
    /// The tokens of the administrators, none of which a client has; `None` if no administrator is served.
    pub admin_tokens: Option<Tokens>,
}

/// Returns the contents of the files that the options name: the policy, the clients' tokens and the
/// administrators' tokens.
///
/// Fails with the first error in this order, for the policy file, the token file and the administrators' token
/// file in turn: `CannotRead` if the file can't be read, and `Policy`, `Tokens` or `AdminTokens` if it isn't
/// UTF-8 or isn't valid; and with `SharedToken` if a token is in both token files.
pub fn serve_files_at(
    rt: &(impl Files + AllocGlobal),
    options: &ServeOptions<'_>,
) -> Result<ServeFiles, CommandFault>
    ensures files { IfOk result AreOfServeFiles }
    ensures admin { IfOk result (λ files.
        is_some files.admin_tokens ≡ is_some options.now.admin) }
    ensures fault { IfErr result (IsOfServeFiles options.now) }
{
    let policy = policy_at(rt, options.policy)?;
    let tokens = tokens_at(rt, options.tokens)?;
    let admin_tokens = match options.admin {
        Some(admin) => Some(admin_tokens_at(rt, admin.tokens, &tokens)?),
        None => None,
    };
    Ok(ServeFiles {
        policy,
        tokens,
        admin_tokens,
    })
}

/// Returns the administrators' tokens in the file at a path, none of which is one of `clients`.
///
/// Fails with `CannotRead` if the file can't be read, with `AdminTokens` if it isn't UTF-8 or a line is invalid,
/// and with `SharedToken` if a token is one of `clients`.
fn admin_tokens_at(
    rt: &(impl Files + AllocGlobal),
    path: &str,
    clients: &Tokens,
) -> Result<Tokens, CommandFault>
    ensures tokens { IfOk result (AreOfAdminFile clients.now) }
    ensures fault { IfErr result (IsOfAdminTokensAt path.now) }
{
    let text = read_file(rt, FileKind::AdminTokens, path)?;
    match read_admin_tokens(rt.alloc(), text.as_str(), clients) {
        Ok(tokens) => Ok(tokens),
        Err(fault) => Err(CommandFault::Run(fault)),
    }
}
