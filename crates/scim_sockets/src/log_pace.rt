//! How lines for the operator are printed, and how often.
ghost use Rattle.std.specs.Prelude.{IsTrue};
ghost use Rattle.scim_sockets.specs.LogPace.{BeginsLine};

use crate::time_limits::LOG;
use std::fmt;
use std::time::Duration;

/// A runtime that prints lines for the operator.
pub trait Log {
    /// Prints a line, if it can be printed. The line names the program first.
    fn log<L: fmt::Display + Drop>(&self, line: L);
}

impl Log for HostRuntime {
    fn log<L: fmt::Display + Drop>(&self, line: L) {
        let _printed = eprintln!(self; "scimd: {line}");
    }
}

/// When the last line of a kind was logged.
#[derive(Clone, Copy)]
pub(crate) struct Pace {
    last: Option<Duration>,
}

impl Pace {
    /// Returns the pace of lines of which none was logged.
    pub(crate) fn new() -> Pace {
        Pace { last: None }
    }

    /// Returns whether a line may be logged now: none was logged before, or the last one a minute ago or more.
    /// If so, notes that it is logged.
    pub(crate) fn begins_line(&mut self, now: Duration) -> bool
        ensures { IsTrue result → BeginsLine now self.old self.new }
    {
        let is_early = match self.last {
            Some(last) => now.saturating_sub(last) < Duration::from_secs(LOG),
            None => false,
        };
        if !is_early {
            self.last = Some(now);
        }
        !is_early
    }
}
