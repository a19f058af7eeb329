//! How many messages were refused because no client has their token, by the addresses that they came from.
ghost use Rattle.std.specs.Prelude.{◌≡◌, ◌+◌, ◌-◌, ◌^◌, min};

use crate::log_pace::{Log, Pace};
use std::alloc::Global;
use std::collections::BTreeMap;
use std::net::IpAddr;
use std::time::Duration;

/// The maximum number of addresses that are counted one by one.
const MOST_ADDRESSES: usize = 1024;

/// A count, and what was logged of it.
#[derive(Clone, Copy)]
struct Tally {
    count: u64,
    // The count that was logged last.
    logged: u64,
    pace: Pace,
}

impl Tally {
    /// Returns a count of 0.
    fn new() -> Tally {
        Tally {
            count: 0,
            logged: 0,
            pace: Pace::new(),
        }
    }

    /// Adds to the count.
    fn add(&mut self, count: u64)
        ensures { self.new.count ≡ min (self.old.count + count) (2 ^ 64 - 1) }
    {
        self.count = self.count.saturating_add(count);
    }

    /// Whether a line is due: the count has changed since the last line, which was logged a minute ago or more.
    /// If so, the line counts as logged.
    fn begins_line(&mut self, now: Duration) -> bool {
        let begins = self.count != self.logged && self.pace.begins_line(now);
        if begins {
            self.logged = self.count;
        }
        begins
    }
}

/// The refused messages, by the addresses that they came from.
#[derive(Drop)]
pub(crate) struct RefusedTokens {
    by_address: BTreeMap<IpAddr, Tally>,
    // Those of other addresses.
    others: Tally,
    total: u64,
}

impl RefusedTokens {
    /// Returns zeros.
    pub(crate) fn new(alloc: Global) -> RefusedTokens {
        RefusedTokens {
            by_address: BTreeMap::new(alloc),
            others: Tally::new(),
            total: 0,
        }
    }

    /// Returns the number of all refused messages.
    pub(crate) fn total(&self) -> u64
        ensures { result ≡ self.now.total }
    {
        self.total
    }

    /// Counts messages that came from an address; `None` if it isn't known.
    pub(crate) fn add(&mut self, address: Option<IpAddr>, count: u64)
        ensures { self.new.total ≡ min (self.old.total + count) (2 ^ 64 - 1) }
    {
        self.total = self.total.saturating_add(count);
        if let Some(address) = address
            && self.enter(address)
            && let Some(tally) = self.by_address.get_mut(&address)
        {
            tally.add(count);
        } else {
            self.others.add(count);
        }
    }

    /// Returns whether an address is counted by itself. Adds it if fewer than 1,024 addresses are, and memory
    /// suffices.
    fn enter(&mut self, address: IpAddr) -> bool
        ensures { self.new.total ≡ self.old.total }
    {
        self.by_address.contains_key(&address)
            || self.by_address.len() < MOST_ADDRESSES
                && self.by_address.insert(address, Tally::new()).is_ok()
    }

    /// Logs the counts that have changed, each at most once a minute.
    pub(crate) fn log<R: Log>(&mut self, rt: &R, now: Duration)
        ensures { self.new.total ≡ self.old.total }
    {
        for (address, tally) in &mut self.by_address {
            if tally.begins_line(now) {
                let (count, total) = (tally.count, self.total);
                rt.log(format_args!("refused tokens: {count} from {address} ({total} in all)"));
            }
        }
        if self.others.begins_line(now) {
            let (count, total) = (self.others.count, self.total);
            rt.log(format_args!("refused tokens: {count} from other addresses ({total} in all)"));
        }
    }
}
