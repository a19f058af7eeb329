//! The commands `once` and `check` over the files that their options name.
ghost use Rattle.std.specs.Prelude.{◌≡◌, ◌≢◌, ℕ, List, Err, IfOk, IfErr, IfSome, OnOk, is_some};
ghost use Rattle.std.specs.Io.KnownBytes.{Appends};
ghost use Rattle.scim_wire.specs.Streams.{AppendsFront};
ghost use Rattle.scim_command.specs.Check.{IsCheckFault};
ghost use Rattle.scim_command.specs.CheckReports.{IsCheckReport};
ghost use Rattle.scim_command.specs.Faults.{IsOverFiles};
ghost use Rattle.scim_command.specs.Once.{Answers, IsOnceFault};
ghost use Rattle.scim_command.specs.Options.{IsSetting};
ghost use Rattle.scim_command.specs.declared.command_faults.CommandFault.{CommandFault};
ghost use Rattle.scim_command.specs.declared.faults.RunFault.{RunFault};
ghost use Rattle.scim_command.specs.declared.run_once.Setting.{Setting};

use crate::checks::check;
use crate::command_faults::CommandFault;
use crate::files::{FileKind, OnceTexts, read_file};
use crate::options::{CheckOptions, OnceOptions};
use crate::run_once::once;
use clap::ArgMatches;
use std::io::{Read, Write};
use std::rt::Files;

/// Runs `once`: answers one request of the reader.
///
/// Fails with the first error in this order: an invalid option, an unreadable or invalid policy file, an
/// unreadable users file, and the errors of [`once`].
pub fn once_over_files<R: Read, W: Write>(
    rt: &(impl Files + AllocGlobal),
    matches: &ArgMatches<'_>,
    reader: &mut R,
    writer: &mut W,
) -> Result<(), CommandFault>
    ensures answered { OnOk result (IfSome (R.remaining reader.old) (λ input.
        (setting : Setting) × (output : List ℕ) × IsSetting matches.now setting
        × Answers setting input output
        × Appends (W.contents writer.old) (W.contents writer.new) output)) }
    ensures output { result ≡ Err (CommandFault.Run RunFault.Output)
        → IfSome (R.remaining reader.old) (λ input.
        (setting : Setting) × (output : List ℕ) × IsSetting matches.now setting
        × Answers setting input output
        × AppendsFront (W.contents writer.old) (W.contents writer.new) output) }
    ensures silent { IfErr result (λ f. f ≢ CommandFault.Run RunFault.Output
        → writer.new ≡ writer.old) }
    ensures faults { IfErr result (IsOverFiles IsOnceFault) }
{
    let options = OnceOptions::of(rt.alloc(), matches)?;
    let texts = OnceTexts::read(rt, &options)?;
    match once(rt.alloc(), &texts.setting(&options), reader, writer) {
        Ok(()) => Ok(()),
        Err(fault) => Err(CommandFault::Run(fault)),
    }
}

/// Runs `check`: writes the report on a policy file and, if it is given, a token file.
///
/// Fails with the first error in this order: an invalid option, an unreadable policy file, an unreadable token file, and
/// the errors of [`check`].
pub fn check_over_files<W: Write>(
    rt: &(impl Files + AllocGlobal),
    matches: &ArgMatches<'_>,
    writer: &mut W,
) -> Result<(), CommandFault>
    ensures told { OnOk result ((text : List ℕ) × IsCheckReport matches.now text
        × Appends (W.contents writer.old) (W.contents writer.new) text) }
    ensures output { result ≡ Err (CommandFault.Run RunFault.Output)
        → (text : List ℕ) × IsCheckReport matches.now text
        × AppendsFront (W.contents writer.old) (W.contents writer.new) text }
    ensures silent { IfErr result (λ f. f ≢ CommandFault.Run RunFault.Output
        → writer.new ≡ writer.old) }
    ensures faults { IfErr result (IsOverFiles IsCheckFault) }
{
    let options = CheckOptions::of(matches)?;
    let policy = read_file(rt, FileKind::Policy, options.policy)?;
    let tokens = tokens_given(rt, options.tokens)?;
    let tokens = tokens.as_ref().map(|text| text.as_str());
    match check(rt.alloc(), policy.as_str(), tokens, options.verbose, writer) {
        Ok(()) => Ok(()),
        Err(fault) => Err(CommandFault::Run(fault)),
    }
}

/// Returns the text of the token file at a path, if one is given. Fails as [`read_file`] does.
fn tokens_given(
    rt: &(impl Files + AllocGlobal),
    path: Option<&str>,
) -> Result<Option<String>, CommandFault>
    ensures given { IfOk result (λ text. is_some text ≡ is_some path.entry) }
    ensures read { IfErr result (λ f. f ≢ CommandFault.Run RunFault.Output) }
    ensures faults { IfErr result (IsOverFiles IsCheckFault) }
{
    match path {
        Some(path) => Ok(Some(read_file(rt, FileKind::Tokens, path)?)),
        None => Ok(None),
    }
}
