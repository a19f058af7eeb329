//! The command `token`: makes a token of a client.
ghost use Rattle.std.specs.Prelude.{◌≡◌, ◌≢◌, ℕ, true, List, Err, IfOk, IfErr, OnOk, codes, string_bytes};
ghost use Rattle.std.specs.Io.KnownBytes.{Appends};
ghost use Rattle.scim_policy_file.specs.Paths.{is_client_name};
ghost use Rattle.scim_wire.specs.Streams.{AppendsFront};
ghost use Rattle.scim_command.specs.NewTokens as spec;
ghost use Rattle.scim_command.specs.Options.{Has};
ghost use Rattle.scim_command.specs.declared.command_faults.CommandFault.{CommandFault};
ghost use Rattle.scim_command.specs.declared.faults.RunFault.{RunFault};

use crate::command_faults::CommandFault;
use crate::faults::RunFault;
use crate::options::client_of;
use crate::writing::write_or_fault;
use clap::ArgMatches;
use scim_new_token::{NewToken, TOKEN_BYTES};
use scim_text::NoMemory;
use std::alloc::Global;
use std::io::Write;
use std::random::RandomSource;

/// Runs `token`: writes a new token of random bytes, and on the next line its line for the token file.
///
/// Fails with `BadOption` if the client's name isn't valid, and with `NoRandomBytes` if the system gives none. Fails
/// with `Output` if a write fails; then a prefix of the text, which may be empty or all of it, has been written. After
/// any other error nothing is written.
pub fn print_new_token<W: Write>(
    rt: &(impl RandomSource + AllocGlobal),
    matches: &ArgMatches<'_>,
    writer: &mut W,
) -> Result<(), CommandFault>
    ensures written { OnOk result ((client text : List ℕ)
        × Has matches.now (codes "client") client × spec.IsTokenText client text
        × Appends (W.contents writer.old) (W.contents writer.new) text) }
    ensures output { result ≡ Err (CommandFault.Run RunFault.Output)
        → (client text : List ℕ)
        × Has matches.now (codes "client") client × spec.IsTokenText client text
        × AppendsFront (W.contents writer.old) (W.contents writer.new) text }
    ensures silent { IfErr result (λ f. f ≢ CommandFault.Run RunFault.Output
        → writer.new ≡ writer.old) }
    ensures faults { IfErr result spec.IsTokenFault }
{
    let client = client_of(matches)?;
    let mut bytes = [0; TOKEN_BYTES];
    if rt.fill_bytes(&mut bytes).is_err() {
        return Err(CommandFault::NoRandomBytes);
    }
    let Ok(text) = token_text(rt.alloc(), client, &bytes) else {
        return Err(CommandFault::Run(RunFault::NoMemory));
    };
    match write_or_fault(text.as_str(), writer) {
        Ok(()) => Ok(()),
        Err(fault) => Err(CommandFault::Run(fault)),
    }
}

/// Returns the token with these random bytes and, on the next line, its line for the token file.
fn token_text(alloc: Global, client: &str, bytes: &[u8; TOKEN_BYTES]) -> Result<String, NoMemory>
    requires { is_client_name client.now ≡ true }
    ensures { IfOk result (λ text. spec.IsTokenText client.now (string_bytes text)) }
{
    let new = NewToken::of(alloc, client, bytes)?;
    Ok(format!(in alloc; "{}\n{}\n", new.token, new.line)?)
}
