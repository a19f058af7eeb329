//! How long the server waits for connections, and how much it holds for them.
use std::time::Duration;

/// The maximum time in milliseconds that a poll waits when no work is queued.
pub(crate) const WAIT: u64 = 250;

/// The maximum time in milliseconds that a poll waits after the server was told to stop.
pub(crate) const LAST_WAIT: u64 = 10;

/// The time in seconds after the server was told to stop during which requests that come are still read.
pub(crate) const LAST_READS: u64 = 5;

/// The time in seconds after the server was told to stop after which all connections are ended. The last of them
/// has left within 30 seconds.
pub(crate) const LAST_REPLIES: u64 = 29;

/// The time in seconds between two searches for late connections.
pub(crate) const WATCH: u64 = 1;

/// The least time in seconds between two lines of the same kind for the operator.
pub(crate) const LOG: u64 = 60;

/// The most seconds that count between two looks at the clock. More pass only if the process was stopped, the
/// machine slept, or a request took long: a client isn't charged for that.
pub(crate) const LONGEST_STEP: u64 = 1;

/// The time in milliseconds of a turn after which the system is polled before the next turn.
pub(crate) const LONG_TURN: u64 = 1;

/// The most time in milliseconds without the processor that a turn costs.
pub(crate) const LONGEST_PAUSE: u64 = 5;

/// The time in seconds that a client has to close its side after the server has shut the connection.
pub(crate) const LINGER: u64 = 2;

/// The time in seconds from the beginning of a reply during which its client may take it as slowly as it likes.
const GRACE: u64 = 60;

/// The limits of time for a connection, and of memory for all.
#[derive(Clone, Copy)]
pub struct Limits {
    /// The time for which a connection may neither send a byte of a message nor take one of a pending reply.
    pub idle: Duration,
    /// The time from the first byte of a message to the end of its head.
    pub head: Duration,
    /// The time from the first byte of a message to its end.
    pub message: Duration,
    /// The bytes per second that a client must take of a reply on average, after the first minute.
    pub rate: u64,
    /// The bytes of memory for the unfinished messages and pending replies of all connections together. The
    /// bytes of a message count twice, since its buffer grows by doubling. When all take more, the connection
    /// that takes most is closed.
    pub memory: u64,
}

impl Limits {
    /// Returns the default limits of a connection: a minute of silence, half a minute for a head, two minutes for
    /// a message, and 1,024 bytes per second of a reply. All connections together have 256 MiB.
    pub fn usual() -> Limits {
        Limits {
            idle: Duration::from_secs(60),
            head: Duration::from_secs(30),
            message: Duration::from_secs(120),
            rate: 1024,
            memory: 256 << 20,
        }
    }

    /// Whether a reply moves on too slowly, of which `count` bytes were taken in the time since it began.
    pub(crate) fn is_slow(&self, since: Duration, count: u64) -> bool {
        let seconds = since.as_secs();
        seconds > GRACE && count / seconds < self.rate
    }
}
