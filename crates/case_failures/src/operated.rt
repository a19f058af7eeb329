//! Runs a server with an operator over scripted connections.
ghost use Rattle.std.specs.Prelude.{◌≡◌, IfSome, List};
ghost use Rattle.scim_token.specs.TokenFile.{Entry};
ghost use Rattle.scim_token.specs.Tokens.{Knows};
ghost use Rattle.scim_hub.specs.Events.{HubState};
ghost use Rattle.scim_hub.specs.HubSetting.{hub_base, hub_shelf, hub_tokens};
ghost use Rattle.scim_hub.specs.HubStates.{IsHubState};

use crate::served::hub;
use case_peers::{ScriptedEvent, ScriptedPeers};
use case_values::{Case, CaseFault, joined, texts};
use scim_hub::Hub;
use scim_policy_file::read_policy;
use scim_samples::POLICY;
use scim_serve::{AdminEventKind, Operator, Pause, Peers, Then, serve};
use scim_shelf::Shelf;
use scim_text::push;
use scim_token::Tokens;
use std::alloc::Global;
use std::str::from_utf8;

/// What the administrator asks for.
#[derive(Clone, Copy)]
enum Instruction {
    Nothing,
    Reload,
    Stop,
    End,
}

/// Returns what the administrator asks for. A pause that isn't an instruction asks for nothing.
fn instruction_in(pause: &Pause) -> Instruction {
    let Pause::Admin(event) = pause else {
        return Instruction::Nothing;
    };
    let AdminEventKind::Piece(bytes) = &event.kind else {
        return Instruction::Nothing;
    };
    match from_utf8(bytes.as_slice()) {
        Ok("reload") => Instruction::Reload,
        Ok("stop") => Instruction::Stop,
        Ok("end") => Instruction::End,
        _ => Instruction::Nothing,
    }
}

/// Returns the tokens of a token file; `None` if it is faulty or memory runs out.
fn tokens_in(alloc: Global, file: &str) -> Option<Tokens>
    ensures { IfSome result (λ tokens. (entries : List Entry) × Knows entries tokens) }
{
    match Tokens::read(alloc, file) {
        Ok(tokens) => Some(tokens),
        Err(_) => None,
    }
}

/// An operator that does as the administrator asks, and tells it what was done.
#[derive(Drop)]
struct Obedient<'t> {
    /// The policy file and the token file that a reload reads.
    policy: &'t str,
    tokens: &'t str,
    has_ended: bool,
}

impl Obedient<'_> {
    /// Replaces the hub's policy and tokens by those of the files, and returns whether it did. If a file is
    /// faulty or memory runs out, the hub is unchanged.
    fn reload<S: Shelf>(&self, alloc: Global, hub: &mut Hub<S>) -> bool
        ensures base { hub_base hub.new ≡ hub_base hub.old }
        ensures shelf { hub_shelf hub.new ≡ hub_shelf hub.old }
        ensures state { (state : HubState) → IsHubState S.stands hub.old state
            → IsHubState S.stands hub.new state }
        ensures tokens { (entries : List Entry) → Knows entries (hub_tokens hub.old)
            → (next : List Entry) × Knows next (hub_tokens hub.new) }
    {
        let (Ok(policy), Some(tokens)) = (
            read_policy(alloc, self.policy),
            tokens_in(alloc, self.tokens),
        ) else {
            return false;
        };
        hub.reload(policy, tokens);
        true
    }
}

impl<S: Shelf> Operator<S> for Obedient<'_> {
    ghost has_ended = { λ operator. operator.has_ended };

    fn handle<P: Peers>(
        &mut self,
        alloc: Global,
        peers: &mut P,
        hub: &mut Hub<S>,
        pause: Pause,
    ) -> Then {
        let instruction = instruction_in(&pause);
        let told = match instruction {
            Instruction::Nothing => "nothing ",
            Instruction::Reload => {
                if self.reload(alloc, hub) {
                    "reloaded "
                } else {
                    "refused "
                }
            }
            Instruction::Stop => {
                peers.stop();
                "stopped "
            }
            Instruction::End => "ended ",
        };
        let _taken = peers.write_to_admin(0, told.as_bytes());
        self.has_ended = matches!(instruction, Instruction::End);
        if self.has_ended {
            Then::End
        } else {
            Then::GoOn
        }
    }
}

/// Returns the event of a script that a text stands for: `tick`, what the administrator sends after `admin `,
/// or the bytes that arrive on connection 0.
fn event_in(text: &str) -> ScriptedEvent<'_> {
    if text == "tick" {
        return ScriptedEvent::Ticks;
    }
    match text.strip_prefix("admin ") {
        Some(sent) => ScriptedEvent::Administers(sent),
        None => ScriptedEvent::Sends(0, text),
    }
}

/// Returns the events of the case: connection 0 joins, and then what `script` lists.
fn script_of<'c>(case: &'c Case<'_>) -> Result<Vec<ScriptedEvent<'c>>, CaseFault> {
    let mut script = Vec::new(case.alloc);
    push(&mut script, ScriptedEvent::Joins(0))?;
    let listed = texts(case, "script")?;
    for text in listed.as_slice() {
        push(&mut script, event_in(*text))?;
    }
    Ok(script)
}

/// Returns what a client's connection has taken when a server over the events `script` ends, and then what the
/// administrator was told. A reload reads the policy file `policy` and the token file `tokens`.
pub(crate) fn operated_call(case: &Case<'_>) -> Result<String, CaseFault> {
    let script = script_of(case)?;
    let mut peers = ScriptedPeers::new(case.alloc, 1_000_000, script.as_slice())?;
    let mut operator = Obedient {
        policy: case.text_or("policy", POLICY),
        tokens: case.text_or("tokens", ""),
        has_ended: false,
    };
    let Some(mut hub) = hub(case.alloc) else {
        return Err(CaseFault::NoMemory);
    };
    if serve(case.alloc, &mut peers, &mut hub, &mut operator).is_err() {
        return joined(case.alloc, &["fault"]);
    }
    match (
        from_utf8(peers.first.taken.as_slice()),
        from_utf8(peers.admin.taken.as_slice()),
    ) {
        (Ok(client), Ok(admin)) => joined(case.alloc, &[client, admin]),
        _ => joined(case.alloc, &["not UTF-8"]),
    }
}
