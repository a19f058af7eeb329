//! The endpoints of SCIM: finds the endpoint that a request's method and target name (RFC 7644
//! section 3.2), and reads the parameters of a query string (RFC 7644 section 3.4.2).
#![tactic(auto)]

mod endpoints;
mod query_parameters;
mod request_targets;
mod route_table;
mod routes;

pub use endpoints::DiscoveryPage;
pub use query_parameters::Parameters;
pub use route_table::Routes;
pub use routes::{Form, Found, Route};
