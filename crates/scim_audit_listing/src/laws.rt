//! Lemmas about listings.
ghost use Rattle.scim_audit_listing.specs.Listings.{PlainListingsAreConsecutive};

/// Lemma: a listing without conditions has the lines of consecutive rows: of at most `count` rows from number
/// `from` on.
pub fn plain_listings_are_consecutive()
    ensures { PlainListingsAreConsecutive }
{}
