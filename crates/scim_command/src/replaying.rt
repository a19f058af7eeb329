//! The command `replay` over the files that its options name.
ghost use Rattle.std.specs.Prelude.{◌≡◌, ◌≢◌, ℕ, List, Ok, Err, IfOk, IfErr, OnOk, codes};
ghost use Rattle.std.specs.Io.KnownBytes.{Appends};
ghost use Rattle.scim_token.specs.TokenFile.{Entry, entries_in};
ghost use Rattle.scim_token.specs.Tokens.{Knows};
ghost use Rattle.scim_wire.specs.Streams.{AppendsFront};
ghost use Rattle.scim_command.specs.Faults.{IsOfTokensAt, IsOverFiles};
ghost use Rattle.scim_command.specs.Options.{Has};
ghost use Rattle.scim_command.specs.Replays.{Replays, IsReplayFault};
ghost use Rattle.scim_command.specs.code.ReplayExits.{IsOfRecording};
ghost use Rattle.scim_command.specs.declared.command_faults.CommandFault.{CommandFault};
ghost use Rattle.scim_command.specs.declared.faults.RunFault.{RunFault};
ghost use Rattle.scim_command.specs.declared.replays.Recording.{Recording};

use crate::command_faults::CommandFault;
use crate::files::{FileKind, read_file};
use crate::replay_options::ReplayOptions;
use crate::replays::{Recording, first_fault, replay};
use crate::token_files::read_tokens;
use clap::ArgMatches;
use scim_token::Tokens;
use std::alloc::Global;
use std::io::Write;
use std::rt::Files;

/// The texts of the files of `replay`.
#[derive(Drop)]
struct Texts {
    policy: String,
    tokens: String,
    users: String,
    events: String,
}

impl Texts {
    /// Reads the files that the options name, one after another.
    ///
    /// If a file can't be read or isn't UTF-8, fails with this fault, unless an earlier file is invalid; then
    /// fails with the fault of the first invalid file.
    fn read(
        rt: &(impl Files + AllocGlobal),
        options: &ReplayOptions<'_>,
    ) -> Result<Texts, CommandFault>
        ensures { IfErr result (IsOverFiles IsOfRecording) }
    {
        let mut texts = Texts {
            policy: read_file(rt, FileKind::Policy, options.policy)?,
            tokens: String::new(rt.alloc()),
            users: String::new(rt.alloc()),
            events: String::new(rt.alloc()),
        };
        texts.tokens = match read_file(rt, FileKind::Tokens, options.tokens) {
            Ok(tokens) => tokens,
            Err(fault) => return Err(texts.first_fault(rt.alloc(), options.base, "[]", fault)),
        };
        texts.users = match read_file(rt, FileKind::Users, options.users) {
            Ok(users) => users,
            Err(fault) => return Err(texts.first_fault(rt.alloc(), options.base, "[]", fault)),
        };
        texts.events = match read_file(rt, FileKind::Events, options.events) {
            Ok(events) => events,
            Err(fault) => {
                let users = texts.users.as_str();
                return Err(texts.first_fault(rt.alloc(), options.base, users, fault));
            }
        };
        Ok(texts)
    }

    /// Returns the fault of the first invalid file among the policy, the tokens and `users`, or `fault` if
    /// all three are valid.
    fn first_fault(
        &self,
        alloc: Global,
        base: &str,
        users: &str,
        fault: CommandFault,
    ) -> CommandFault
        ensures { IsOverFiles IsOfRecording fault → IsOverFiles IsOfRecording result }
    {
        let recording = Recording {
            policy: self.policy.as_str(),
            tokens: self.tokens.as_str(),
            users,
            events: "",
            base,
        };
        match first_fault(alloc, &recording) {
            Some(earlier) => CommandFault::Run(earlier),
            None => fault,
        }
    }
}

/// Runs `replay`: answers the events of a file, and writes the outputs for each event.
///
/// Fails with the first error in this order: an invalid option; for the policy, token, users and events file
/// in turn, that the file can't be read, isn't UTF-8 or is invalid; and the other errors of [`replay`].
pub fn replay_over_files<W: Write>(
    rt: &(impl Files + AllocGlobal),
    matches: &ArgMatches<'_>,
    writer: &mut W,
) -> Result<(), CommandFault>
    ensures told { OnOk result ((recording : Recording) × (text : List ℕ)
        × Has matches.now (codes "base") recording.base.now × Replays recording text
        × Appends (W.contents writer.old) (W.contents writer.new) text) }
    ensures output { result ≡ Err (CommandFault.Run RunFault.Output)
        → (recording : Recording) × (text : List ℕ)
        × Has matches.now (codes "base") recording.base.now × Replays recording text
        × AppendsFront (W.contents writer.old) (W.contents writer.new) text }
    ensures silent { IfErr result (λ f. f ≢ CommandFault.Run RunFault.Output
        → writer.new ≡ writer.old) }
    ensures faults { IfErr result (IsOverFiles IsReplayFault) }
{
    let options = ReplayOptions::of(rt.alloc(), matches)?;
    let texts = Texts::read(rt, &options)?;
    let recording = Recording {
        policy: texts.policy.as_str(),
        tokens: texts.tokens.as_str(),
        users: texts.users.as_str(),
        events: texts.events.as_str(),
        base: options.base,
    };
    match replay(rt.alloc(), &recording, writer) {
        Ok(()) => Ok(()),
        Err(fault) => Err(CommandFault::Run(fault)),
    }
}

/// Returns the tokens in the file at a path.
///
/// Fails with `CannotRead` if the file can't be read, and with `Tokens` if it isn't UTF-8 or a line is
/// invalid.
pub fn tokens_at(rt: &(impl Files + AllocGlobal), path: &str) -> Result<Tokens, CommandFault>
    ensures tokens { IfOk result (λ tokens. (text : List ℕ) × (entries : List Entry)
        × (entries_in text ≡ Ok entries) × Knows entries tokens) }
    ensures fault { IfErr result (IsOfTokensAt path.now) }
{
    let text = read_file(rt, FileKind::Tokens, path)?;
    match read_tokens(rt.alloc(), text.as_str()) {
        Ok(tokens) => Ok(tokens),
        Err(fault) => Err(CommandFault::Run(fault)),
    }
}
