//! The lines of the rows of an audit that a listing shows.
ghost use Rattle.std.specs.Prelude.{◌≡◌, ◌≤◌, ◌+◌, ◌^◌, ◌++◌, ◌∷◌, [], ℕ, length, min, take, drop, IfOk, OnOk, string_bytes};
ghost use Rattle.scim_audit_listing.specs.Listings as spec;

use crate::filters::AuditFilter;
use crate::json_rows::print_json_row;
use scim_audit::{AuditRow, print_row};
use scim_text::NoMemory;
use std::alloc::Global;

/// The form of the lines.
#[derive(Clone, Copy, PartialEq, Eq)]
pub enum LineFormat {
    /// Ten words, as [`scim_audit::print_row`] prints them.
    Words,
    /// A JSON object, as [`print_json_row`] prints it.
    Json,
}

/// How many of the rows that fit are listed. Fewer are listed if there aren't that many.
#[derive(Clone, Copy, PartialEq, Eq)]
pub enum Portion {
    /// The first ones, this many.
    First(u64),
    /// The last ones, this many.
    Last(u64),
}

/// Which rows of an audit are listed, and how. They are listed in the order of their numbers.
#[derive(Clone, Copy)]
pub struct Listing<'a> {
    /// The number of the first row that may be listed. Rows are numbered from 1, and 0 counts as 1.
    pub from: u64,
    /// The conditions that each row fits.
    pub filter: AuditFilter<'a>,
    /// How many of these rows are listed.
    pub portion: Portion,
    /// The form of the lines.
    pub format: LineFormat,
}

/// Returns the line of text for an audit row, without a line feed.
pub fn print_line(
    alloc: Global,
    format: LineFormat,
    number: u64,
    row: &AuditRow,
) -> Result<String, NoMemory>
    ensures { IfOk result (λ text. string_bytes text ≡ spec.line_text format number row.now) }
{
    match format {
        LineFormat::Words => print_row(alloc, number, row),
        LineFormat::Json => print_json_row(alloc, number, row),
    }
}

/// Appends the line of an audit row and a line feed if the row fits, and returns how many lines these are. On an
/// error `text` may have the line.
fn add_if_fits(
    text: &mut String,
    alloc: Global,
    filter: &AuditFilter<'_>,
    format: LineFormat,
    number: u64,
    row: &AuditRow,
) -> Result<u64, NoMemory>
    ensures lines { OnOk result (string_bytes text.new ≡ string_bytes text.old
        ++ spec.lines format (spec.fitting_rows filter.now number (row.now ∷ []))) }
    ensures count { IfOk result (λ added. (n : ℕ)
        → added ≡ length (spec.fitting_rows filter.now n (row.now ∷ []))) }
    ensures single { IfOk result (λ added. added ≤ 1) }
{
    if !filter.fits(row) {
        return Ok(0);
    }
    let line = print_line(alloc, format, number, row)?;
    text.push_str(line.as_str())?;
    text.push_str("\n")?;
    Ok(1)
}

/// Appends the lines of the first `most` rows that fit, each with a line feed, and returns how many these are.
/// `rows` are numbered from `first` on.
///
/// The row numbers must fit in 64 bits. On an error `text` may have some of the lines.
pub fn add_lines(
    text: &mut String,
    alloc: Global,
    filter: &AuditFilter<'_>,
    format: LineFormat,
    first: u64,
    rows: &[AuditRow],
    most: u64,
) -> Result<u64, NoMemory>
    ensures lines { first + length rows.now ≤ 2 ^ 64 → OnOk result (string_bytes text.new
        ≡ string_bytes text.old
        ++ spec.lines format (take most (spec.fitting_rows filter.now first rows.now))) }
    ensures count { IfOk result (λ added.
        added ≡ min most (length (spec.fitting_rows filter.now first rows.now))) }
{
    let mut added = 0;
    for (index, row) in rows.iter().enumerate() {
        if added == most {
            return Ok(added);
        }
        let number = first.saturating_add(index as u64);
        added += add_if_fits(text, alloc, filter, format, number, row)?;
    }
    Ok(added)
}

/// Returns the index in `rows` from which the last `wanted` rows that fit follow, and how many these are. The
/// index is 0 if fewer rows fit.
pub fn start_of_last(filter: &AuditFilter<'_>, rows: &[AuditRow], wanted: u64) -> (usize, u64)
    ensures within { result.0 ≤ length rows.now }
    ensures start { (first : ℕ)
        → spec.fitting_rows filter.now (first + result.0) (drop result.0 rows.now)
        ≡ spec.take_last wanted (spec.fitting_rows filter.now first rows.now) }
    ensures count { (first : ℕ)
        → result.1 ≡ min wanted (length (spec.fitting_rows filter.now first rows.now)) }
{
    let mut found = 0;
    for index in (0..rows.len()).rev() {
        if found == wanted {
            return (index + 1, found);
        }
        if filter.fits(&rows[index]) {
            found += 1;
        }
    }
    (0, found)
}
