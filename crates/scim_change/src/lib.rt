//! Creates a resource from a draft (RFC 7644 section 3.3), and replaces a resource by a draft (RFC 7644
//! section 3.5.1).
#![tactic(auto)]

mod agreement;
mod creating;
mod laws;
mod replacing;

pub use agreement::agrees;
pub use creating::create;
pub use laws::replacing_rests_on_its_units;
pub use replacing::{Changed, MissingRequired, modified_at, replace};
