//! Which rows of the audit the administrator asks for.
ghost use Rattle.std.specs.Prelude.{◌≡◌};
ghost use Rattle.std.specs.Option.{option_copied};
ghost use Rattle.scim_admin_text.specs.Listings.{Lists};

use scim_audit_listing::{AuditFilter, LineFormat, Listing, Portion};
use scim_cell::Text;
use scim_text::Moment;

/// Which rows of the audit are asked for, and in which form.
#[derive(Drop)]
pub struct AuditQuery {
    /// The number of the first row that may be listed.
    pub from: u64,
    /// How many of the rows are listed.
    pub portion: Portion,
    /// The client whose rows are listed; `None` for all clients.
    pub client: Option<Text>,
    /// The moment of the oldest row that may be listed.
    pub since: Option<Moment>,
    /// The number of the refusal that a listed row has; `None` for rows with and without a refusal.
    pub refusal: Option<u8>,
    /// The form of the rows.
    pub format: LineFormat,
}

/// Returns the text of a name, if there is one.
fn name_of(name: &Option<Text>) -> Option<&str>
    ensures { option_copied result ≡ name.now }
{
    match name {
        Some(name) => Some(name.as_str()),
        None => None,
    }
}

impl AuditQuery {
    /// Returns the listing that is asked for.
    pub fn listing(&self) -> Listing<'_>
        ensures { Lists self.now result }
    {
        Listing {
            from: self.from,
            filter: AuditFilter {
                client: name_of(&self.client),
                since: self.since,
                refusal: self.refusal,
            },
            portion: self.portion,
            format: self.format,
        }
    }
}
