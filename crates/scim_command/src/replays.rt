//! The command `replay`: answers the events of a file with a hub over a users file in memory.
ghost use Rattle.std.specs.Prelude.{◌≡◌, ◌≢◌, ℕ, List, Ok, Err, IsOk, IfOk, IfErr, IfSome, OnOk, map, string_bytes};
ghost use Rattle.std.specs.Io.KnownBytes.{Appends};
ghost use Rattle.scim_json.specs.Documents.{IsDamagedAt};
ghost use Rattle.scim_policy_file.specs.File.{policy_of};
ghost use Rattle.scim_policy_file.specs.declared.faults.Cause.{Cause};
ghost use Rattle.scim_token.specs.TokenFile.{Entry, entries_in};
ghost use Rattle.scim_token.specs.Tokens.{Knows};
ghost use Rattle.scim_token.specs.declared.faults.LineFault.{LineFault};
ghost use Rattle.scim_wire.specs.Streams.{AppendsFront};
ghost use Rattle.scim_command.specs.declared.faults.RunFault.{RunFault};
ghost use Rattle.scim_hub.specs.Events.{HubState};
ghost use Rattle.scim_hub.specs.HubStates.{IsHubState, owned_event_of};
ghost use Rattle.scim_command.specs.EventFiles.{IsEventFile, IsFaultyAt, file_lines};
ghost use Rattle.scim_command.specs.Replays.{Replays, AreResultsOf, AreSound, IsReplayFault};
ghost use Rattle.scim_command.specs.code.ReplayExits.{IsHubOver, IsOfFiles, IsOfEvents, IsOfRecording};
ghost use Rattle.scim_hub.specs.HubSetting.{hub_base, hub_policy, hub_tokens};

use crate::borrowed_events::events_of;
use crate::event_files::{FaultyLine, read_events};
use crate::faults::{DatabaseFault, RunFault};
use crate::memory_services::service_over;
use crate::outputs::results_text;
use crate::token_files::read_tokens;
use crate::writing::write_or_fault;
use scim_hub::{Hub, OwnedEvent};
use scim_policy_file::read_policy;
use scim_route::Routes;
use scim_shelf::{MemoryShelf, Shelf};
use scim_text::{Failed, NoMemory};
use std::alloc::Global;
use std::io::Write;

/// The texts of the files of `replay`, and the base URL.
#[derive(Clone, Copy)]
pub struct Recording<'a> {
    /// The text of the policy file.
    pub policy: &'a str,
    /// The text of the token file.
    pub tokens: &'a str,
    /// The text of the users file, which contains users and groups.
    pub users: &'a str,
    /// The text of the events file.
    pub events: &'a str,
    /// The URL below which the resources have their locations, such as `http://127.0.0.1:8080`.
    pub base: &'a str,
}

/// Answers the events of a file one after another, and writes the results as lines: `write N HEX`, `close N`,
/// or `fault N` with the reason.
///
/// Fails with `Policy`, `Tokens`, `Users` or `Events` if a file is invalid; if several are, with the first of
/// these. After these errors and `NoMemory` nothing is written. Fails with `Output` if a write fails; then a
/// prefix of the lines' text, which may be empty or all of it, has been written.
pub fn replay<W: Write>(
    alloc: Global,
    recording: &Recording<'_>,
    writer: &mut W,
) -> Result<(), RunFault>
    ensures told { OnOk result ((text : List ℕ) × Replays recording.now text
        × Appends (W.contents writer.old) (W.contents writer.new) text) }
    ensures output { result ≡ Err RunFault.Output → (text : List ℕ) × Replays recording.now text
        × AppendsFront (W.contents writer.old) (W.contents writer.new) text }
    ensures policy { (rule : ℕ) (cause : Cause) → result ≡ Err (RunFault.Policy rule cause)
        → policy_of recording.now.policy.now ≡ Err (record { rule = rule; cause = cause }) }
    ensures tokens { (n : ℕ) → result ≡ Err (RunFault.Tokens n)
        → IsOk (policy_of recording.now.policy.now) × (cause : LineFault)
        × (entries_in recording.now.tokens.now ≡ Err (record { line = n; cause = cause })) }
    ensures users { (n : ℕ) → result ≡ Err (RunFault.Users n)
        → IsOk (policy_of recording.now.policy.now) × IsOk (entries_in recording.now.tokens.now)
        × IsDamagedAt recording.now.base.now recording.now.users.now n }
    ensures events { (n : ℕ) → result ≡ Err (RunFault.Events n)
        → AreSound recording.now × IsFaultyAt (file_lines recording.now.events.now) n }
    ensures silent { IfErr result (λ f. f ≢ RunFault.Output → writer.new ≡ writer.old) }
    ensures faults { IfErr result IsReplayFault }
{
    let text = replayed(alloc, recording)?;
    write_or_fault(text.as_str(), writer)
}

/// Returns the fault of the first invalid file among the policy, the tokens and the users; `NoMemory` if
/// memory runs out; `None` if all three are valid.
pub(crate) fn first_fault(alloc: Global, recording: &Recording<'_>) -> Option<RunFault>
    ensures { IfSome result IsOfFiles }
{
    hub_over(alloc, recording).err()
}

/// Returns the lines that [`replay`] writes. Fails with `Policy`, `Tokens`, `Users` or `Events` if a file is
/// invalid; if several are, with the first of these.
fn replayed(alloc: Global, recording: &Recording<'_>) -> Result<String, RunFault>
    ensures told { IfOk result (λ text. Replays recording.now (string_bytes text)) }
    ensures policy { (rule : ℕ) (cause : Cause) → result ≡ Err (RunFault.Policy rule cause)
        → policy_of recording.now.policy.now ≡ Err (record { rule = rule; cause = cause }) }
    ensures tokens { (n : ℕ) → result ≡ Err (RunFault.Tokens n)
        → IsOk (policy_of recording.now.policy.now) × (cause : LineFault)
        × (entries_in recording.now.tokens.now ≡ Err (record { line = n; cause = cause })) }
    ensures users { (n : ℕ) → result ≡ Err (RunFault.Users n)
        → IsOk (policy_of recording.now.policy.now) × IsOk (entries_in recording.now.tokens.now)
        × IsDamagedAt recording.now.base.now recording.now.users.now n }
    ensures events { (n : ℕ) → result ≡ Err (RunFault.Events n)
        → AreSound recording.now × IsFaultyAt (file_lines recording.now.events.now) n }
    ensures fault { IfErr result IsOfRecording }
{
    let mut hub = hub_over(alloc, recording)?;
    let events = owned_events_in(alloc, recording.events)?;
    Ok(answered(alloc, &mut hub, events.as_slice())?)
}

/// Returns a hub without connections, with the policy, the resources and the tokens of the files.
///
/// Fails with `Policy`, `Tokens` or `Users` if a file is invalid; if several are, with the first of these.
fn hub_over(alloc: Global, recording: &Recording<'_>) -> Result<Hub<MemoryShelf>, RunFault>
    ensures hub { IfOk result (IsHubOver ⟦<MemoryShelf as Shelf>⟧.stands recording.now) }
    ensures policy { (rule : ℕ) (cause : Cause) → result ≡ Err (RunFault.Policy rule cause)
        → policy_of recording.now.policy.now ≡ Err (record { rule = rule; cause = cause }) }
    ensures tokens { (n : ℕ) → result ≡ Err (RunFault.Tokens n)
        → IsOk (policy_of recording.now.policy.now) × (cause : LineFault)
        × (entries_in recording.now.tokens.now ≡ Err (record { line = n; cause = cause })) }
    ensures users { (n : ℕ) → result ≡ Err (RunFault.Users n)
        → IsOk (policy_of recording.now.policy.now) × IsOk (entries_in recording.now.tokens.now)
        × IsDamagedAt recording.now.base.now recording.now.users.now n }
    ensures fault { IfErr result IsOfFiles }
{
    let policy = read_policy(alloc, recording.policy)?;
    let tokens = read_tokens(alloc, recording.tokens)?;
    let service = service_over(alloc, policy, recording.users, recording.base)?;
    let routes = Routes::new(alloc)?;
    Ok(Hub::new(alloc, routes, service, tokens))
}

/// Returns the events of a file. Fails with `Events` if a line is invalid.
fn owned_events_in(alloc: Global, text: &str) -> Result<Vec<OwnedEvent>, RunFault>
    ensures events { IfOk result (λ events.
        IsEventFile text.now (map owned_event_of events.items)) }
    ensures faulty { (n : ℕ) → result ≡ Err (RunFault.Events n)
        → IsFaultyAt (file_lines text.now) n }
    ensures fault { IfErr result IsOfEvents }
{
    match read_events(alloc, text) {
        Ok(events) => Ok(events),
        Err(Failed::Because(FaultyLine(line))) => Err(RunFault::Events(line)),
        Err(Failed::NoMemory) => Err(RunFault::NoMemory),
    }
}

/// Passes the events to the hub, and returns the lines for their results.
fn answered(
    alloc: Global,
    hub: &mut Hub<MemoryShelf>,
    owned: &[OwnedEvent],
) -> Result<String, NoMemory>
    ensures { (entries : List Entry) (state : HubState) → Knows entries (hub_tokens hub.old)
        → IsHubState ⟦<MemoryShelf as Shelf>⟧.stands hub.old state
        → IfOk result (λ text.
        AreResultsOf (hub_policy hub.old) (hub_base hub.old) entries state
        (map owned_event_of owned.now) (string_bytes text)) }
{
    let events = events_of(alloc, owned)?;
    let results = hub.run(alloc, events.as_slice())?;
    results_text(alloc, events.as_slice(), results.as_slice())
}
