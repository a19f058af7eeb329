//! The stamps of events: the current time and a random id.
ghost use Rattle.std.specs.Prelude.{◌≡◌, ◌≤◌, ◌/◌, min, IfOk};
ghost use Rattle.std.specs.Time.{system_time_nanos};
ghost use Rattle.scim_text.specs.Moments.{last_moment};
ghost use Rattle.uuid.specs.Uuid.{version_num};

use scim_cell::id_of;
use scim_hub::{NoStamp, Stamp};
use scim_text::Moment;
use std::io;
use std::random::RandomSource;
use std::time::{Clock, SystemTime, UNIX_EPOCH};
use uuid::{Builder, Uuid};

/// Returns a random UUID (RFC 9562 section 5.4).
fn fresh(rt: &impl RandomSource) -> io::Result<Uuid>
    ensures { IfOk result (λ uuid. version_num uuid ≡ 4) }
{
    let mut bytes = [0u8; 16];
    rt.fill_bytes(&mut bytes)?;
    Ok(Builder::from_random_bytes(bytes).into_uuid())
}

/// Returns the moment this many seconds after 1970-01-01T00:00:00Z, but at most `Moment::LAST`.
fn moment_at(seconds: u64) -> Moment
    ensures { result ≡ min seconds last_moment }
{
    let seconds = seconds.min(Moment::LAST as u64);
    match Moment::new(seconds as i64) {
        Some(moment) => moment,
        None => unreachable!(),
    }
}

/// Returns a time in whole seconds.
fn moment_of(time: SystemTime) -> Moment
    ensures { result ≡ min (system_time_nanos time / 1_000_000_000) last_moment }
{
    match time.duration_since(UNIX_EPOCH) {
        Ok(since) => moment_at(since.as_secs()),
        Err(_) => moment_at(0),
    }
}

/// Returns the stamp of an event that occurred at a time, with the UUID as the id.
fn stamp_of(time: SystemTime, uuid: Uuid) -> Stamp
    ensures moment { result.moment ≡ min (system_time_nanos time / 1_000_000_000) last_moment }
    ensures first { result.first ≡ uuid }
{
    Stamp {
        moment: moment_of(time),
        first: id_of(uuid),
    }
}

/// Returns a stamp for an event that occurs now, with a random id. Fails with [`NoStamp`] if the clock or the
/// random source fails.
pub(crate) fn stamp_now<R: Clock + RandomSource>(rt: &R) -> Result<Stamp, NoStamp>
    ensures { IfOk result (λ stamp. (stamp.moment ≤ last_moment)
        × (version_num stamp.first ≡ 4)) }
{
    let (Ok(time), Ok(uuid)) = (SystemTime::now(rt), fresh(rt)) else {
        return Err(NoStamp);
    };
    Ok(stamp_of(time, uuid))
}
