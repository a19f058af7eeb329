//! Reads token files for a command.
ghost use Rattle.std.specs.Prelude.{◌≡◌, ℕ, List, None, Some, Ok, Err, IfOk, IfErr, OnOk};
ghost use Rattle.scim_token.specs.TokenFile.{Entry, entries_in, first_shared};
ghost use Rattle.scim_token.specs.Tokens.{Knows};
ghost use Rattle.scim_token.specs.declared.faults.LineFault.{LineFault};
ghost use Rattle.scim_command.specs.declared.faults.RunFault.{RunFault};
ghost use Rattle.scim_command.specs.code.ReplayExits.{IsOfAdminTokens, IsOfTokens};

use crate::faults::{DatabaseFault, RunFault};
use scim_text::Failed;
use scim_token::{TokenFault, Tokens};
use std::alloc::Global;

/// Reads the tokens of a file.
///
/// Fails with `Tokens`, which has the number of the first invalid line.
pub(crate) fn read_tokens(alloc: Global, text: &str) -> Result<Tokens, RunFault>
    ensures tokens { IfOk result (λ tokens. (entries : List Entry)
        × (entries_in text.now ≡ Ok entries) × Knows entries tokens) }
    ensures faulty { (n : ℕ) → result ≡ Err (RunFault.Tokens n) → (cause : LineFault)
        × (entries_in text.now ≡ Err (record { line = n; cause = cause })) }
    ensures fault { IfErr result IsOfTokens }
{
    match Tokens::read(alloc, text) {
        Ok(tokens) => Ok(tokens),
        Err(Failed::Because(TokenFault { line, .. })) => Err(RunFault::Tokens(line)),
        Err(Failed::NoMemory) => Err(RunFault::NoMemory),
    }
}

/// Reads the tokens of the administrators' file, none of which a client has.
///
/// Fails with `AdminTokens`, which has the number of the first invalid line, and with `SharedToken`, which has
/// the number of the first line whose token is one of `clients`.
pub(crate) fn read_admin_tokens(
    alloc: Global,
    text: &str,
    clients: &Tokens,
) -> Result<Tokens, RunFault>
    ensures tokens { IfOk result (λ tokens. (entries : List Entry)
        × (entries_in text.now ≡ Ok entries) × Knows entries tokens) }
    ensures apart { OnOk result ((known : List Entry) → Knows known clients.now
        → first_shared known text.now ≡ None) }
    ensures shared { (n : ℕ) → result ≡ Err (RunFault.SharedToken n) → (known : List Entry)
        → Knows known clients.now → first_shared known text.now ≡ Some n }
    ensures faulty { (n : ℕ) → result ≡ Err (RunFault.AdminTokens n) → (cause : LineFault)
        × (entries_in text.now ≡ Err (record { line = n; cause = cause })) }
    ensures fault { IfErr result IsOfAdminTokens }
{
    match Tokens::read(alloc, text) {
        Ok(tokens) => match clients.first_shared(text) {
            Some(line) => Err(RunFault::SharedToken(line)),
            None => Ok(tokens),
        },
        Err(Failed::Because(TokenFault { line, .. })) => Err(RunFault::AdminTokens(line)),
        Err(Failed::NoMemory) => Err(RunFault::NoMemory),
    }
}
