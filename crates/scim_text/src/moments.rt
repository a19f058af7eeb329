//! Moments in whole seconds, and their texts.
ghost use Rattle.std.specs.Prelude.{◌≡◌, ◌≤◌, ◌<◌, ◌/◌, ◌%◌, ◌↔◌, ℕ, false, Some, IsSome, IfSome, IfOk, pos, ◌++◌, ◌≤ℤ◌, string_bytes};
ghost use Rattle.jiff.specs.Words.{epoch_day, iso_datetime_text};
ghost use Rattle.scim_text.specs.Spelling.{date_text, clock_text};
ghost use Rattle.scim_text.specs.Moments.{last_moment, date_of_day, clock_at, moment_text, moment_of};
ghost use Rattle.scim_text.specs.Readings.{Spells};

use crate::memory::NoMemory;
use crate::moment_readings::read_moment;
use jiff::civil::{DateTime, datetime};
use jiff_core::civil::Date;
use std::alloc::Global;
use std::marker::Model;

/// A second from 1970-01-01T00:00:00Z to 9999-12-31T23:59:59Z, as in `meta.created` and
/// `meta.lastModified` (RFC 7643 section 3.1). A day has 86,400 seconds.
#[derive(Clone, Copy, PartialEq, Eq, PartialOrd, Ord)]
pub struct Moment {
    seconds: u64,
}

impl Model for Moment {
    ghost use Rattle.std.specs.Prelude.{ℕ, ◌≤◌};
    ghost use Rattle.scim_text.specs.Moments.{last_moment};

    ghost Value = { ℕ };

    ghost view = { λ m. m.seconds };

    ghost invariant = { λ m. m.seconds ≤ last_moment };

    ghost inverse = { λ n. record { seconds = n } };
}

impl Moment {
    /// The last moment, 9999-12-31T23:59:59Z, in seconds since 1970-01-01T00:00:00Z.
    pub const LAST: i64 = 253_402_300_799;

    /// Returns the moment `seconds` after 1970-01-01T00:00:00Z, or `None` if the number is negative
    /// or above [`Moment::LAST`].
    pub fn new(seconds: i64) -> Option<Moment>
        ensures in_range { IsSome result ↔ (pos 0 ≤ℤ seconds × (seconds ≤ℤ pos last_moment)) }
        ensures value { IfSome result (λ moment. pos moment ≡ seconds) }
    {
        if (0..=Self::LAST).contains(&seconds) {
            Some(Moment {
                seconds: seconds as u64,
            })
        } else {
            None
        }
    }

    /// The seconds since 1970-01-01T00:00:00Z.
    pub fn seconds(self) -> u64
        ensures value { result ≡ self }
        ensures bound { result ≤ last_moment }
    {
        self.seconds
    }
}

/// The date of the day with this number: 1970-01-01 is day 0, and 9999-12-31 is day 2,932,896.
fn date_of(day: u64) -> Date
    requires { day ≤ 2932896 }
    ensures { epoch_day result ≡ pos day }
{
    match Date::from_unix_epoch_day(day as i64) {
        Ok(date) => date,
        Err(_) => unreachable!(),
    }
}

/// The date and time in UTC, `seconds` after 1970-01-01T00:00:00Z.
fn civil(seconds: u64) -> DateTime
    requires { seconds ≤ last_moment }
    ensures { iso_datetime_text result
        ≡ date_text (date_of_day (seconds / 86400)) ++ clock_text (clock_at (seconds % 86400)) }
{
    let date = date_of(seconds / 86_400);
    let clock = seconds % 86_400;
    datetime(
        date.year,
        date.month as i8,
        date.day as i8,
        (clock / 3600) as i8,
        (clock / 60 % 60) as i8,
        (clock % 60) as i8,
        0,
    )
}

/// Prints a moment, such as `2024-01-01T00:00:00Z`: in UTC, in whole seconds (RFC 7643 section 2.3.5).
/// [`crate::read_moment`] and [`read_printed_moment`] read the text back.
#[tactic(auto, unfolding(crate::specs::Moments::moment_text))]
pub fn print_moment(alloc: Global, moment: Moment) -> Result<String, NoMemory>
    ensures { IfOk result (λ text. string_bytes text ≡ moment_text moment) }
{
    let shown = civil(moment.seconds());
    Ok(format!(in alloc; "{shown}Z")?)
}

/// Returns the moment that the text denotes, in any zone. Returns `None` if the text isn't a date
/// and time, has a fraction other than zero, or denotes a moment out of range.
fn moment_meant(text: &str) -> Option<Moment>
    ensures found { IfSome result (λ n.
        Spells text.now (record { second = pos n; later = false })) }
    ensures complete { (n : ℕ) → n ≤ last_moment
        → Spells text.now (record { second = pos n; later = false })
        → result ≡ Some n }
{
    let reading = read_moment(text).ok()?;
    if reading.later {
        return None;
    }
    Moment::new(reading.second)
}

/// Reads a moment in exactly the form of [`print_moment`]. Returns `None` for any other text,
/// even if it denotes a moment in another form, such as with an offset or a fraction.
pub fn read_printed_moment(alloc: Global, text: &str) -> Result<Option<Moment>, NoMemory>
    ensures { IfOk result (λ found. found ≡ moment_of text.now) }
{
    let Some(moment) = moment_meant(text) else {
        return Ok(None);
    };
    let printed = print_moment(alloc, moment)?;
    Ok((printed.as_str() == text).then_some(moment))
}
