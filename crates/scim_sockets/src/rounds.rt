//! Rounds: the pieces that are answered together, and how long and how large a round may be.
ghost use Rattle.std.specs.Prelude.{◌≡◌, ◌<◌, ◌≤◌, IsTrue, false};

use std::time::{Clock, Duration, Instant};

/// The time in milliseconds from the first event of a round during which it takes further ones. So whoever
/// comes while a round is answered waits for little longer than this.
const ROUND: u64 = 20;

/// The maximum number of events per round.
const MOST: u32 = 64;

/// The time in milliseconds that a round may take at most if all of its events are as dear as those of a round
/// were lately.
const LONGEST: u64 = 500;

/// The time in seconds for which a dear round is remembered.
const MEMORY: u64 = 60;

/// The round that is answered now.
#[derive(Clone, Copy)]
pub(crate) struct Round {
    // When the first event was returned, or the last reply was written since; `None` if the clock failed then.
    began: Option<Instant>,
    // The number of events that were returned for the round.
    count: u32,
    // The maximum number of events of the round, unless its time is over earlier.
    most: u32,
    // Whether the round takes further events at all.
    takes_more: bool,
    // Whether the system may be polled for the round once more.
    may_poll: bool,
    // What each event of the dearest round of late took of the processor, and when that was.
    dearest: Duration,
    dear_at: Duration,
    ghost few: { most ≤ 64 },
}

impl Round {
    /// Returns a round that takes no events before the next one has begun.
    pub(crate) fn new() -> Round {
        Round {
            began: None,
            count: 0,
            most: 1,
            takes_more: false,
            may_poll: false,
            dearest: Duration::from_secs(0),
            dear_at: Duration::from_secs(0),
        }
    }

    /// Begins the next round, whose first event is returned now. It takes further ones if that is a piece.
    pub(crate) fn begin<R: Clock>(&mut self, rt: &R, is_piece: bool) {
        self.began = Instant::now(rt).ok();
        self.count = 1;
        self.takes_more = is_piece;
        self.may_poll = is_piece;
    }

    /// Notes that a reply is written. What the round has left is another round, whose time begins now.
    pub(crate) fn note_reply<R: Clock>(&mut self, rt: &R) {
        self.began = Instant::now(rt).ok();
    }

    /// Notes that one more event is returned for the round.
    pub(crate) fn add(&mut self) {
        self.count = self.count.saturating_add(1);
    }

    /// Ends the round, for which the processor worked this long, and sets how large the next one may be.
    ///
    /// It is as large as fits into the time of a round if its events cost as much as those of the last one, and
    /// grows to at most twice the size of the last one. So dear requests are answered one by one, as they would
    /// be without rounds, and their clients don't delay the others. The time of the disk doesn't count: a round
    /// takes the less of it for each event, the larger it is.
    ///
    /// Within a minute after a dear round it is only as large as lets others wait for half a second if all of
    /// its events are as dear. So a client that sends cheap requests and many dear ones in turn delays the
    /// others by more than that once a minute.
    pub(crate) fn end(&mut self, worked: Duration, now: Duration) {
        if self.takes_more {
            let part = worked / self.count.max(1);
            if part >= self.dearest
                || now.saturating_sub(self.dear_at) > Duration::from_secs(MEMORY)
            {
                self.dearest = part;
                self.dear_at = now;
            }
            let most = self.most.max(self.count.saturating_mul(2));
            self.most = most
                .min(fitting(Duration::from_millis(ROUND), part))
                .min(fitting(Duration::from_millis(LONGEST), self.dearest))
                .clamp(1, MOST);
        }
        self.began = None;
        self.count = 0;
        self.takes_more = false;
        self.may_poll = false;
    }

    /// Whether the round may take one more event, by its time: less than 20 milliseconds have passed since its
    /// first event was returned, or since a reply was written, if it takes what the round before has left.
    /// False if the clock fails.
    pub(crate) fn goes_on<R: Clock>(&self, rt: &R) -> bool {
        match (self.began, Instant::now(rt)) {
            (Some(began), Ok(now)) => now.duration_since(began) < Duration::from_millis(ROUND),
            _ => false,
        }
    }

    /// Whether the round may take one more event, by its size.
    pub(crate) fn has_room(&self) -> bool
        ensures { IsTrue result → self.now.count < self.now.most }
    {
        self.takes_more && self.count < self.most
    }

    /// Whether the system may be polled for the round now: at most once a round.
    pub(crate) fn begins_poll(&mut self) -> bool
        ensures may { result ≡ self.old.may_poll }
        ensures once { self.new.may_poll ≡ false }
    {
        let begins = self.may_poll;
        self.may_poll = false;
        begins
    }
}

/// Returns how many events fit into a time if each costs this much.
fn fitting(time: Duration, part: Duration) -> u32 {
    u32::try_from(time.as_micros() / part.as_micros().max(1)).unwrap_or(u32::MAX)
}
