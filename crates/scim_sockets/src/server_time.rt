//! The time that counts for the limits of connections, and what turns cost.
use crate::time_limits::{LONGEST_PAUSE, LONGEST_STEP};
use scim_serve::PeersFault;
use std::time::{Clock, CpuClock, Duration, Instant};

/// The readings of the clocks, and the time that counts for the limits of connections.
#[derive(Drop)]
pub(crate) struct ServerTime {
    // The last reading of the clock.
    clock: Instant,
    // The processor's time that was used until the last turn ended.
    used: Duration,
    // The processor's time that the last turn took.
    worked: Duration,
    // The time that counts for the limits.
    now: Duration,
}

impl ServerTime {
    /// Starts at 0. Fails if a clock fails.
    pub(crate) fn start<R: Clock + CpuClock>(rt: &R) -> Result<ServerTime, PeersFault> {
        let (Ok(clock), Ok(used)) = (Instant::now(rt), rt.thread_cpu_time()) else {
            return Err(PeersFault);
        };
        Ok(ServerTime {
            clock,
            used,
            worked: Duration::from_secs(0),
            now: Duration::from_secs(0),
        })
    }

    /// Returns the time that counts for the limits.
    pub(crate) fn now(&self) -> Duration {
        self.now
    }

    /// Returns the last reading of the clock.
    pub(crate) fn clock(&self) -> Instant {
        self.clock
    }

    /// Returns the processor's time that the last turn took.
    pub(crate) fn worked(&self) -> Duration {
        self.worked
    }

    /// Reads the clock, and adds the time that has passed to the time that counts, but at most one second.
    /// Returns the time that has passed since the last look.
    pub(crate) fn look<R: Clock>(&mut self, rt: &R) -> Result<Duration, PeersFault> {
        let Ok(clock) = Instant::now(rt) else {
            return Err(PeersFault);
        };
        let passed = clock.duration_since(self.clock);
        self.clock = clock;
        self.now = self
            .now
            .saturating_add(passed.min(Duration::from_secs(LONGEST_STEP)));
        Ok(passed)
    }

    /// Returns what a turn costs during which this time passed: the processor's time that was used since the
    /// last turn ended, and at most five milliseconds more, for waits for the disk. In the rest of the time
    /// other programs may have had the processor.
    pub(crate) fn cost_of<R: CpuClock>(
        &mut self,
        rt: &R,
        passed: Duration,
    ) -> Result<Duration, PeersFault> {
        let Ok(used) = rt.thread_cpu_time() else {
            return Err(PeersFault);
        };
        self.worked = used.saturating_sub(self.used);
        self.used = used;
        Ok(passed.min(
            self.worked
                .saturating_add(Duration::from_millis(LONGEST_PAUSE)),
        ))
    }
}
