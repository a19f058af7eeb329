//! Which rows of the audit a listing shows.
ghost use Rattle.std.specs.Prelude.{◌≡◌};
ghost use Rattle.std.specs.Option.{option_copied};
ghost use Rattle.scim_audit_listing.specs.Filters as spec;

use scim_audit::{AuditRow, Refusal};
use scim_text::Moment;

/// The rows of the audit to list: those that satisfy each of the conditions that are given.
#[derive(Clone, Copy)]
pub struct AuditFilter<'a> {
    /// The exact name of the client.
    pub client: Option<&'a str>,
    /// The earliest moment; a row of this very moment fits.
    pub since: Option<Moment>,
    /// The number of the refusal, as [`Refusal::number`] gives it.
    pub refusal: Option<u8>,
}

impl AuditFilter<'_> {
    /// Whether a row satisfies each condition.
    pub fn fits(&self, row: &AuditRow) -> bool
        ensures { result ≡ spec.fits self.now row.now }
    {
        is_of_client(self.client, row)
            && is_since(self.since, row.moment)
            && has_refusal(self.refusal, row.refusal)
    }
}

/// Whether the row is of this client, if one is given.
fn is_of_client(client: Option<&str>, row: &AuditRow) -> bool
    ensures { result ≡ spec.is_of_client (option_copied client.entry) row.now.client }
{
    match client {
        Some(name) => name == row.client.as_str(),
        None => true,
    }
}

/// Whether the moment is not before `since`, if that is given.
fn is_since(since: Option<Moment>, moment: Moment) -> bool
    ensures { result ≡ spec.is_since since moment }
{
    match since {
        Some(since) => since <= moment,
        None => true,
    }
}

/// Whether there is a refusal with this number, if a number is given.
fn has_refusal(number: Option<u8>, refusal: Option<Refusal>) -> bool
    ensures { result ≡ spec.has_refusal number refusal }
{
    match (number, refusal) {
        (None, _) => true,
        (Some(number), Some(refusal)) => refusal.number() == number,
        (Some(_), None) => false,
    }
}
