//! How many connections were closed, and why.
use crate::connection::Late;
use std::fmt;

/// The number of connections that the server closed for each reason, since it began. Connections that were
/// closed because they were silent aren't counted.
#[derive(Clone, Copy, PartialEq, Eq)]
pub struct Counts {
    /// Connections whose head took too long.
    pub late_heads: u64,
    /// Connections whose message took too long.
    pub late_messages: u64,
    /// Connections that took a reply too slowly.
    pub late_replies: u64,
    /// Idle connections that gave way to new ones.
    pub gave_way: u64,
    /// Connections for which the server held most when it held too much.
    pub over_memory: u64,
}

impl Counts {
    /// Returns zeros.
    pub(crate) fn new() -> Counts {
        Counts {
            late_heads: 0,
            late_messages: 0,
            late_replies: 0,
            gave_way: 0,
            over_memory: 0,
        }
    }

    /// Counts a connection that was closed because it was late.
    pub(crate) fn add_late(&mut self, late: Late) {
        match late {
            Late::Idle => (),
            Late::Head => self.late_heads = self.late_heads.saturating_add(1),
            Late::Message => self.late_messages = self.late_messages.saturating_add(1),
            Late::Reply => self.late_replies = self.late_replies.saturating_add(1),
        }
    }

    /// Counts an idle connection that gave way to a new one.
    pub(crate) fn add_gave_way(&mut self) {
        self.gave_way = self.gave_way.saturating_add(1);
    }

    /// Counts a connection that was closed because the server held too much.
    pub(crate) fn add_over_memory(&mut self) {
        self.over_memory = self.over_memory.saturating_add(1);
    }
}

impl fmt::Display for Counts {
    fn fmt<W: fmt::Write>(&self, f: &mut fmt::Formatter<W>) -> fmt::Result {
        write!(
            f,
            "{} late heads, {} late messages, {} late replies, {} gave way, {} over memory",
            self.late_heads, self.late_messages, self.late_replies, self.gave_way, self.over_memory
        )
    }
}
