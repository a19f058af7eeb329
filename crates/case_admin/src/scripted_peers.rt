//! Connections in memory whose events are the turns of a case.
ghost use Rattle.std.specs.Prelude.{◌≤◌, length};

use crate::outputs::Outputs;
use crate::turns::{Turn, client_event};
use case_values::CaseFault;
use scim_hub::{OwnedEvent, OwnedEventKind, Pace, Stamp};
use scim_serve::{AdminEvent, AdminEventKind, Figures, Note, PeerEvent, Peers, PeersFault};
use std::alloc::Global;
use std::collections::VecDeque;

/// The connections of clients and of the administrator. Those of clients take each reply whole.
#[derive(Drop)]
pub(crate) struct ScriptedPeers {
    turns: VecDeque<Turn>,
    /// What the connections report before the next turn, unless that turn comes first.
    reports: VecDeque<PeerEvent>,
    /// Whether the next turn comes before `reports`.
    is_held: bool,
    is_stopped: bool,
    /// How many bytes a connection of the administrator takes at a call, at most.
    step: usize,
    /// Whether the replies to clients are outputs.
    shows_clients: bool,
    outputs: Outputs,
}

impl ScriptedPeers {
    /// Returns connections with these turns. A connection of the administrator takes at most `step` bytes at a
    /// call. The replies to clients are outputs if `shows_clients` is true.
    pub(crate) fn new(
        alloc: Global,
        turns: VecDeque<Turn>,
        step: usize,
        shows_clients: bool,
    ) -> ScriptedPeers {
        ScriptedPeers {
            turns,
            reports: VecDeque::new(alloc),
            is_held: false,
            is_stopped: false,
            step,
            shows_clients,
            outputs: Outputs::new(alloc),
        }
    }

    /// Returns the outputs.
    pub(crate) fn into_outputs(self) -> Outputs {
        let ScriptedPeers { outputs, .. } = self;
        outputs
    }

    /// Returns the next report.
    fn report(&mut self) -> Option<PeerEvent> {
        if self.is_held {
            return None;
        }
        self.reports.pop_front()
    }

    /// Returns the event of the next turn; `None` after `stop`, or if all turns were returned.
    fn turn(&mut self) -> Option<PeerEvent> {
        self.is_held = false;
        if self.is_stopped {
            return None;
        }
        let Turn { event, holds } = self.turns.pop_front()?;
        self.is_held = holds;
        Some(event)
    }

    /// Has an event of a connection of the administrator reported. If memory runs out, the event is lost and
    /// the case fails.
    fn will_report(&mut self, connection: u64, kind: AdminEventKind) {
        let event = PeerEvent::Admin(AdminEvent { connection, kind });
        let _kept = self.reports.push_back(event);
    }

    /// Notes the bytes that a connection of the administrator takes.
    fn take(&mut self, connection: u64, bytes: &[u8]) -> Result<(), CaseFault> {
        if bytes.is_empty() {
            Ok(())
        } else {
            self.outputs.write(connection, bytes)
        }
    }
}

impl Pace for ScriptedPeers {
    fn goes_on(&self) -> bool {
        true
    }
}

impl Peers for ScriptedPeers {
    ghost use Rattle.std.specs.Prelude.{false, []};

    ghost is_known = { false };

    ghost seen = { λ _. [] };

    ghost written = { λ _ _. [] };

    ghost takes_all = { λ _ _. false };

    ghost is_closed = { λ _ _. false };

    ghost is_over = { λ _. false };

    fn next(&mut self, _alloc: Global) -> Result<Option<PeerEvent>, PeersFault> {
        if let Some(event) = self.report() {
            return Ok(Some(event));
        }
        if let Some(event) = self.turn() {
            return Ok(Some(event));
        }
        Ok(self.report())
    }

    fn next_ready(&mut self, _alloc: Global) -> Option<OwnedEvent> {
        None
    }

    fn write(&mut self, connection: u64, bytes: &[u8]) -> usize {
        if self.shows_clients {
            // If the output is lost, the case fails.
            let _noted = self.outputs.write(connection, bytes);
        }
        bytes.len()
    }

    fn close(&mut self, connection: u64) {
        let left = client_event(connection, Stamp::unused(), OwnedEventKind::Left);
        let _kept = self.reports.push_back(left);
    }

    fn write_to_admin(&mut self, connection: u64, bytes: &[u8]) -> usize {
        let count = bytes.len().min(self.step);
        let _noted = self.take(connection, &bytes[..count]);
        self.will_report(connection, AdminEventKind::Ready);
        count
    }

    fn close_admin(&mut self, connection: u64) {
        let _noted = self.outputs.close(connection);
        self.will_report(connection, AdminEventKind::Left);
    }

    fn stop(&mut self) {
        self.is_stopped = true;
        let _noted = self.outputs.push("stop", "");
    }

    fn note(&mut self, _note: Note) {}

    fn figures(&self) -> Figures {
        Figures {
            clients: 1,
            admins: 2,
            accepted: 3,
            bytes_waiting: 4,
            late_heads: 5,
            late_messages: 6,
            late_replies: 7,
            gave_way: 8,
            over_memory: 9,
            refused_tokens: 0,
        }
    }
}
