//! The command `once`: answers one request over a users file in memory.
ghost use Rattle.std.specs.Prelude.{◌≡◌, ◌≢◌, ℕ, false, List, Ok, Err, IsOk, IfOk, IfErr, IfSome, OnOk, OnErr};
ghost use Rattle.std.specs.Io.KnownBytes.{Appends};
ghost use Rattle.scim_json.specs.Documents.{IsDamagedAt};
ghost use Rattle.scim_policy_file.specs.File.{policy_of};
ghost use Rattle.scim_policy_file.specs.declared.faults.Cause.{Cause};
ghost use Rattle.scim_shelf.specs.Stores.{Store, IsStore};
ghost use Rattle.scim_wire.specs.Replies.{whole_form};
ghost use Rattle.scim_wire.specs.Streams.{AppendsFront};
ghost use Rattle.scim_command.specs.declared.faults.RunFault.{RunFault};
ghost use Rattle.scim_audit.specs.declared.refusals.Refusal.{Refusal};
ghost use Rattle.uuid.specs.Parts.{zero_bytes};
ghost use Rattle.scim_exchange.specs.Replies as replies;
ghost use Rattle.scim_command.specs.Inputs.{IsUnended};
ghost use Rattle.scim_command.specs.code.Exits.{IsOfFiles, IsOfInput, text_or_store};
ghost use Rattle.scim_command.specs.Once.{Answers, AreSound, IsStoreOf, IsAnswer, IsOnceFault};
ghost use Rattle.scim_service.specs.Setting.{service_base, service_policy, service_shelf};

use crate::answers::{refusal_text, reply_text};
use crate::faults::RunFault;
use crate::inputs::{InputFault, read_first};
use crate::memory_services::service_over;
use crate::writing::write_or_fault;
use scim_audit::Refusal;
use scim_cell::{Id, id_of};
use scim_exchange::Arrival;
use scim_policy_file::read_policy;
use scim_route::Routes;
use scim_service::Service;
use scim_shelf::{MemoryShelf, Shelf};
use scim_text::{Failed, Moment, NoMemory};
use scim_wire::ReplyForm;
use std::alloc::Global;
use std::io::{Read, Write};
use uuid::Uuid;

/// The input of `once` other than the request: the texts of the files, the client, the base URL, the time of
/// the request and the id for a new resource.
#[derive(Clone, Copy)]
pub struct Setting<'a> {
    /// The text of the policy file.
    pub policy: &'a str,
    /// The text of the users file, which contains users and groups.
    pub users: &'a str,
    /// The name of the client that sends the request.
    pub client: &'a str,
    /// The URL below which the resources have their locations, such as `http://127.0.0.1:8080`.
    pub base: &'a str,
    /// The time of the request.
    pub at: Moment,
    /// The id of the resource that the request creates, if it creates one.
    pub first: Id,
}

impl<'a> Setting<'a> {
    /// Returns a setting with these texts, the time 1970-01-01T00:00:00Z and the nil id.
    pub fn new(policy: &'a str, users: &'a str, client: &'a str, base: &'a str) -> Setting<'a>
        ensures texts { (result.policy.now ≡ policy.now) × (result.users.now ≡ users.now)
            × (result.client.now ≡ client.now) × (result.base.now ≡ base.now) }
        ensures at { result.at ≡ 0 }
        ensures first { result.first ≡ zero_bytes }
    {
        Setting {
            policy,
            users,
            client,
            base,
            at: first_moment(),
            first: id_of(Uuid::nil()),
        }
    }
}

/// Returns 1970-01-01T00:00:00Z.
fn first_moment() -> Moment
    ensures { result ≡ 0 }
{
    Moment::new(0).unwrap()
}

/// Reads one message and writes its reply, and nothing else.
///
/// The message counts as sent by the client, whatever token it has, and is answered by
/// [`scim_exchange::answer`]. Bytes that aren't a message are answered by a refusal with `Connection: close`.
/// No 100 (Continue) is written. If memory runs out while the message is read or answered, the reply has
/// status 500 and a body.
///
/// Errors:
///
/// - `Policy`: the policy file is invalid.
/// - `Users`: the policy file is valid, but the users file is invalid.
/// - `InputEnded`: the input ends before the message does.
/// - `InputFailed`: a read fails.
/// - `NoMemory`: memory runs out before the message is read.
/// - `Output`: a write fails; a prefix of the reply, which may be empty or the whole reply, has been written.
///
/// After any error except `Output` nothing is written.
pub fn once<R: Read, W: Write>(
    alloc: Global,
    setting: &Setting<'_>,
    reader: &mut R,
    writer: &mut W,
) -> Result<(), RunFault>
    ensures answered { OnOk result (IfSome (R.remaining reader.old) (λ input. (output : List ℕ)
        × Answers setting.now input output
        × Appends (W.contents writer.old) (W.contents writer.new) output)) }
    ensures policy { (rule : ℕ) (cause : Cause) → result ≡ Err (RunFault.Policy rule cause)
        → policy_of setting.now.policy.now ≡ Err (record { rule = rule; cause = cause }) }
    ensures users { (n : ℕ) → result ≡ Err (RunFault.Users n)
        → IsOk (policy_of setting.now.policy.now)
        × IsDamagedAt setting.now.base.now setting.now.users.now n }
    ensures ended { result ≡ Err RunFault.InputEnded
        → AreSound setting.now
        × IfSome (R.remaining reader.old) IsUnended }
    ensures failed { result ≡ Err RunFault.InputFailed
        → AreSound setting.now }
    ensures output { result ≡ Err RunFault.Output
        → AreSound setting.now
        × IfSome (R.remaining reader.old) (λ input. (output : List ℕ)
        × Answers setting.now input output
        × AppendsFront (W.contents writer.old) (W.contents writer.new) output) }
    ensures silent { IfErr result (λ f. f ≢ RunFault.Output → writer.new ≡ writer.old) }
    ensures faults { IfErr result IsOnceFault }
{
    let store = refusal_text(alloc, Refusal::Store, ReplyForm::whole(false))?;
    let routes = Routes::new(alloc)?;
    let mut service = service_by(alloc, setting)?;
    let arrival = Arrival {
        client: Some(setting.client),
        moment: setting.at,
        fresh: setting.first,
    };
    let reply = reply_to(alloc, &routes, &mut service, &arrival, reader)?;
    write_reply(reply, store.as_str(), writer)
}

/// Returns a service with the policy and the resources of the files.
///
/// Fails with `Policy` if the policy file is invalid. Otherwise fails with `Users` if the users file is
/// invalid.
fn service_by(alloc: Global, setting: &Setting<'_>) -> Result<Service<MemoryShelf>, RunFault>
    ensures service { IfOk result (λ service. (store : Store)
        × IsStoreOf setting.now.base.now setting.now.users.now store
        × ⟦<MemoryShelf as Shelf>⟧.stands (service_shelf service) store
        × (policy_of setting.now.policy.now ≡ Ok (service_policy service))
        × ((service_base service) ≡ setting.now.base.now)) }
    ensures policy { (rule : ℕ) (cause : Cause) → result ≡ Err (RunFault.Policy rule cause)
        → policy_of setting.now.policy.now ≡ Err (record { rule = rule; cause = cause }) }
    ensures users { (n : ℕ) → result ≡ Err (RunFault.Users n)
        → IsOk (policy_of setting.now.policy.now)
        × IsDamagedAt setting.now.base.now setting.now.users.now n }
    ensures fault { IfErr result IsOfFiles }
{
    let policy = read_policy(alloc, setting.policy)?;
    service_over(alloc, policy, setting.users, setting.base)
}

/// Returns the reply to the first message of the reader. `Ok(Err(NoMemory))` means that memory ran out, and
/// the caller must reply with status 500.
///
/// Fails with `InputEnded` if the input ends before the message does, and with `InputFailed` if a read fails.
fn reply_to<R: Read>(
    alloc: Global,
    routes: &Routes,
    service: &mut Service<MemoryShelf>,
    arrival: &Arrival<'_>,
    reader: &mut R,
) -> Result<Result<String, NoMemory>, RunFault>
    ensures answer { (store : Store) → ⟦<MemoryShelf as Shelf>⟧.stands
        (service_shelf service.old) store
        → IsStore (service_base service.old) store
        → IfOk result (λ reply. IfSome (R.remaining reader.old) (λ input.
        IsAnswer (service_policy service.old) (service_base service.old) arrival.now store input
        (text_or_store reply))) }
    ensures ended { result ≡ Err RunFault.InputEnded → IfSome (R.remaining reader.old) IsUnended }
    ensures fault { IfErr result IsOfInput }
{
    match read_first(alloc, reader) {
        Ok(Ok(message)) => Ok(reply_text(alloc, routes, service, arrival, &message)),
        Ok(Err(refusal)) => Ok(refusal_text(alloc, refusal, ReplyForm::whole(true))),
        Err(Failed::NoMemory) => Ok(Err(NoMemory)),
        Err(Failed::Because(InputFault::Ended)) => Err(RunFault::InputEnded),
        Err(Failed::Because(InputFault::ReadFailed)) => Err(RunFault::InputFailed),
    }
}

/// Writes the reply, or, if memory ran out, `store`, which is the text of the refusal [`Refusal::Store`].
///
/// Fails with `Output` if a write fails; then a prefix of the text has been written, and nothing else.
fn write_reply<W: Write>(
    reply: Result<String, NoMemory>,
    store: &str,
    writer: &mut W,
) -> Result<(), RunFault>
    ensures whole { store.now ≡ replies.refusal_text Refusal.Store (whole_form false)
        → OnOk result (Appends (W.contents writer.old) (W.contents writer.new)
        (text_or_store reply)) }
    ensures front { store.now ≡ replies.refusal_text Refusal.Store (whole_form false)
        → OnErr result (AppendsFront (W.contents writer.old) (W.contents writer.new)
        (text_or_store reply)) }
    ensures fault { IfErr result (λ f. f ≡ RunFault.Output) }
{
    match reply {
        Ok(text) => write_or_fault(text.as_str(), writer),
        Err(NoMemory) => write_or_fault(store, writer),
    }
}
