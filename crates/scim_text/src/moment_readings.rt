//! Reads the text of a moment. Each private function reads one part of the text. In its contract,
//! `found` states that a returned part is in the text; `complete` states that the function returns a
//! part if the text contains one.
ghost use Rattle.std.specs.Prelude.{◌≡◌, length, take_while, drop, ◌≤◌, ◌<◌, ◌+◌, ◌*◌, ◌↔◌, ◌++◌, ◌∷◌, ℕ, List, IsOk, IfOk, IsSome, IfSome, IsSomeAnd, SomeIff, pos, string_bytes};
ghost use Rattle.std.specs.Char.{is_ascii_digit};
ghost use Rattle.std.specs.List.{prefix_len};
ghost use Rattle.std.specs.Result.{result_ok};
ghost use Rattle.jiff_core.specs.Calendar.{IsEpochDay, IsWithin};
ghost use Rattle.scim_text.specs.Spelling.{CivilDate, Clock, Zone, two_digits, date_text, clock_text, zone_text, IsDate, IsClock, IsZone, IsOffset, IsFraction, fraction_text, offset_text};
ghost use Rattle.scim_text.specs.Readings.{day_number, clock_seconds, zone_seconds, offset_seconds, is_above_zero, IsMomentForm, Spells};
ghost use Rattle.scim_text.specs.MomentIn.{moment_in};

use jiff_core::civil::Date;
use thiserror::Error;

/// The instant that the text of a moment denotes. Readings are ordered by second. Within a second, a
/// reading without a fraction comes before a reading with a fraction.
#[derive(Clone, Copy, PartialEq, Eq, PartialOrd, Ord)]
pub struct Reading {
    /// The whole seconds since 1970-01-01T00:00:00Z, negative before it.
    pub second: i64,
    /// Whether the text has a fraction of a second greater than zero.
    pub later: bool,
}

/// The text isn't a date and time of the form that [`read_moment`] describes, or names a date or
/// time that doesn't exist.
#[derive(Clone, Copy, Debug, PartialEq, Eq, Error)]
#[error("not a date and time of the form YYYY-MM-DDThh:mm:ssZ")]
pub struct BadMoment;

/// Reads two digits as a number of at most `last`. Returns the number and the rest of the text.
fn number(text: &[u8], last: u8) -> Option<(u8, &[u8])>
    requires { last < 100 }
    ensures found { IfSome result (λ p. (p.0 ≤ last) × (text.now ≡ two_digits p.0 ++ p.1.now)) }
    ensures complete { (n : ℕ) (rest : List ℕ) → n ≤ last → text.now ≡ two_digits n ++ rest
        → IsSomeAnd result (λ p. (p.0 ≡ n) × (p.1.now ≡ rest)) }
{
    let [tens, units, rest @ ..] = text else {
        return None;
    };
    if !tens.is_ascii_digit() || !units.is_ascii_digit() {
        return None;
    }
    let number = (tens - b'0') * 10 + (units - b'0');
    if number > last {
        return None;
    }
    Some((number, rest))
}

/// Returns the text after its first byte, or `None` if the first byte isn't `mark`.
fn after(text: &[u8], mark: u8) -> Option<&[u8]>
    ensures found { IfSome result (λ rest. text.now ≡ mark ∷ rest.now) }
    ensures complete { (rest : List ℕ) → text.now ≡ mark ∷ rest → IsSome result }
{
    match text {
        [first, rest @ ..] if *first == mark => Some(rest),
        _ => None,
    }
}

/// Reads `mark`, then two digits as a number of at most `last`. Returns the number and the rest of the
/// text.
fn number_after(text: &[u8], mark: u8, last: u8) -> Option<(u8, &[u8])>
    requires { last < 100 }
    ensures found { IfSome result (λ p. (p.0 ≤ last)
        × (text.now ≡ mark ∷ two_digits p.0 ++ p.1.now)) }
    ensures complete { (n : ℕ) (rest : List ℕ) → n ≤ last → text.now ≡ mark ∷ two_digits n ++ rest
        → IsSomeAnd result (λ p. (p.0 ≡ n) × (p.1.now ≡ rest)) }
{
    number(after(text, mark)?, last)
}

/// Returns the number of days from 1970-01-01 to this date, negative for an earlier date. Returns `None`
/// if the date doesn't exist in the calendar or `year` is 0.
fn day_number(year: u16, month: u8, day: u8) -> Option<i64>
    requires year { year < 10000 }
    requires month { month < 100 }
    requires day { day < 100 }
    ensures range { IfSome result IsEpochDay }
    ensures value { let date : CivilDate = record { year = year; month = month; day = day } in
        SomeIff result (IsDate date) (day_number date) }
{
    if year == 0 {
        return None;
    }
    match Date::new(year as i16, month as i8, day as i8) {
        Ok(date) => Some(i64::from(date.to_unix_epoch_day())),
        Err(_) => None,
    }
}

/// Reads a date. Returns the number of days since 1970-01-01 and the rest of the text.
fn date(text: &[u8]) -> Option<(i64, &[u8])>
    ensures found { IfSome result (λ p. (d : CivilDate) × IsDate d × (p.0 ≡ day_number d)
        × (text.now ≡ date_text d ++ p.1.now)) }
    ensures range { IfSome result (λ p. IsEpochDay p.0) }
    ensures complete { (d : CivilDate) (rest : List ℕ) → IsDate d → text.now ≡ date_text d ++ rest
        → IsSomeAnd result (λ p. (p.0 ≡ day_number d) × (p.1.now ≡ rest)) }
{
    let (century, rest) = number(text, 99)?;
    let (years, rest) = number(rest, 99)?;
    let (month, rest) = number_after(rest, b'-', 12)?;
    let (day, rest) = number_after(rest, b'-', 31)?;
    let year = u16::from(century) * 100 + u16::from(years);
    Some((day_number(year, month, day)?, rest))
}

/// Reads `T` and a time of day. Returns the seconds since midnight and the rest of the text.
fn clock(text: &[u8]) -> Option<(u32, &[u8])>
    ensures found { IfSome result (λ p. (c : Clock) × IsClock c × (p.0 ≡ clock_seconds c)
        × (text.now ≡ clock_text c ++ p.1.now)) }
    ensures bound { IfSome result (λ p. p.0 < 86400) }
    ensures complete { (c : Clock) (rest : List ℕ) → IsClock c → text.now ≡ clock_text c ++ rest
        → IsSomeAnd result (λ p. (p.0 ≡ clock_seconds c) × (p.1.now ≡ rest)) }
{
    let (hour, rest) = number_after(text, b'T', 23)?;
    let (minute, rest) = number_after(rest, b':', 59)?;
    let (second, rest) = number_after(rest, b':', 59)?;
    Some((
        u32::from(hour) * 3600 + u32::from(minute) * 60 + u32::from(second),
        rest,
    ))
}

/// Reads the whole text as hours and minutes, such as `05:30`. Returns the total in seconds.
fn offset(text: &[u8]) -> Option<u32>
    ensures found { IfSome result (λ o. (h m : ℕ) × IsOffset h m × (o ≡ offset_seconds h m)
        × (text.now ≡ offset_text h m)) }
    ensures bound { IfSome result (λ o. o < 86400) }
    ensures complete { (h m : ℕ) → IsOffset h m → text.now ≡ offset_text h m → IsSome result }
{
    let (hours, rest) = number(text, 23)?;
    let (minutes, rest) = number_after(rest, b':', 59)?;
    if !rest.is_empty() {
        return None;
    }
    Some(u32::from(hours) * 3600 + u32::from(minutes) * 60)
}

/// Reads the whole text as a zone, such as `Z` or `+05:30`. Returns the offset of the zone from UTC in
/// seconds, negative if the zone is behind UTC.
fn zone(text: &[u8]) -> Option<i64>
    ensures found { IfSome result (λ o. (z : Zone) × IsZone z × (o ≡ zone_seconds z)
        × (text.now ≡ zone_text z)) }
    ensures range { IfSome result (IsWithin 86399) }
    ensures complete { (z : Zone) → IsZone z → text.now ≡ zone_text z → IsSome result }
{
    if let Some(rest) = after(text, b'+') {
        let ahead = offset(rest)?;
        return Some(i64::from(ahead));
    }
    if let Some(rest) = after(text, b'-') {
        let behind = offset(rest)?;
        return Some(-i64::from(behind));
    }
    match text {
        [] | [b'Z'] => Some(0),
        _ => None,
    }
}

/// The length of the longest prefix of digits.
fn digit_count(text: &[u8]) -> usize
    ensures value { result ≡ prefix_len is_ascii_digit text.now }
    ensures within { result ≤ length text.now }
{
    text.iter().take_while(|byte| byte.is_ascii_digit()).count()
}

/// Splits the text into its longest prefix of digits and the rest of the text.
fn digits(text: &[u8]) -> (&[u8], &[u8])
    ensures digits { result.0.now ≡ take_while is_ascii_digit text.now }
    ensures rest { result.1.now ≡ drop (prefix_len is_ascii_digit text.now) text.now }
{
    text.split_at(digit_count(text))
}

/// Reads an optional fraction: a point and at least one digit. Returns whether the fraction is greater
/// than zero, and the rest of the text. Returns `None` if no digit follows the point.
fn fraction(text: &[u8]) -> Option<(bool, &[u8])>
    ensures found { IfSome result (λ p. (f : List ℕ) × IsFraction f × (p.0 ≡ is_above_zero f)
        × (text.now ≡ fraction_text f ++ p.1.now)) }
    ensures complete { (f : List ℕ) (z : Zone) → IsFraction f
        → text.now ≡ fraction_text f ++ zone_text z
        → IsSomeAnd result (λ p. p.1.now ≡ zone_text z) }
{
    let Some(written) = after(text, b'.') else {
        return Some((false, text));
    };
    let (digits, rest) = digits(written);
    if digits.is_empty() {
        return None;
    }
    Some((is_above_zero(digits), rest))
}

/// Whether one of the digits isn't `0`.
fn is_above_zero(digits: &[u8]) -> bool
    ensures { result ≡ is_above_zero digits.now }
{
    digits.iter().any(|digit| *digit != b'0')
}

/// Reads the whole text as a date, a time of day, a fraction and a zone.
fn read_bytes(text: &[u8]) -> Option<Reading>
    ensures found { IfSome result (Spells text.now) }
    ensures complete { IsMomentForm text.now → IsSome result }
{
    let (day, rest) = date(text)?;
    let (clock, rest) = clock(rest)?;
    let (later, rest) = fraction(rest)?;
    let ahead = zone(rest)?;
    Some(Reading {
        second: day * 86_400 + i64::from(clock) - ahead,
        later,
    })
}

/// Reads the text of a moment, such as `2024-02-29T23:59:59.5+05:30` (RFC 7643 section 2.3.5, RFC 3339
/// section 5.6). The text is year, month and day, `T`, hours, minutes and seconds; then, optionally, `.`
/// with one or more digits; then the zone. The zone is `Z`, or the hours and minutes by which the
/// clock is ahead of UTC (`+`) or behind UTC (`-`). A text without a zone is in UTC.
///
/// Years go from 0001 to 9999, and the day must exist in the calendar. Hours go up to 23, minutes
/// and seconds up to 59, also in the zone. `T` and `Z` are capital letters, and the text has
/// nothing before or after.
///
/// Fails with [`BadMoment`] for any other text.
#[tactic(auto, using(crate::proofs::MomentInLemmas::is_moment_in))]
pub fn read_moment(text: &str) -> Result<Reading, BadMoment>
    ensures form { IsOk result ↔ IsMomentForm text.now }
    ensures value { IfOk result (Spells text.now) }
    ensures shown { result_ok result ≡ moment_in text.now }
{
    read_bytes(text.as_bytes()).ok_or(BadMoment)
}
