//! What the operator is told of connections, each kind of line at most once a minute.
use crate::counts::Counts;
use crate::log_pace::{Log, Pace};
use crate::refused_tokens::RefusedTokens;
use std::alloc::Global;
use std::time::Duration;

/// What the operator is told of connections.
#[derive(Drop)]
pub(crate) struct OperatorLog {
    pub(crate) counts: Counts,
    pub(crate) refused: RefusedTokens,
    // The counts that were logged last, and when.
    logged: Counts,
    closed: Pace,
    // Whether memory ran out for a connection since the last line that says so.
    lacks_memory: bool,
    memory: Pace,
}

impl OperatorLog {
    /// Returns zeros; nothing was logged.
    pub(crate) fn new(alloc: Global) -> OperatorLog {
        OperatorLog {
            counts: Counts::new(),
            refused: RefusedTokens::new(alloc),
            logged: Counts::new(),
            closed: Pace::new(),
            lacks_memory: false,
            memory: Pace::new(),
        }
    }

    /// Notes that memory ran out for a connection, which was closed.
    pub(crate) fn note_no_memory(&mut self) {
        self.lacks_memory = true;
    }

    /// Logs what has changed: how many connections were closed, the refused tokens by address, and whether memory
    /// ran out.
    pub(crate) fn log<R: Log>(&mut self, rt: &R, now: Duration) {
        if self.counts != self.logged && self.closed.begins_line(now) {
            rt.log(format_args!("connections closed: {}", self.counts));
            self.logged = self.counts;
        }
        if self.lacks_memory && self.memory.begins_line(now) {
            rt.log("out of memory: a connection was closed");
            self.lacks_memory = false;
        }
        self.refused.log(rt, now);
    }
}
