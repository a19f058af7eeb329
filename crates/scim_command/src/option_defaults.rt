//! The default values of options.

/// The default of `--base`: the URL below which the resources have their locations.
pub const DEFAULT_BASE: &str = "http://127.0.0.1:8080";

/// The default of `serve --port`: the port to listen on.
pub(crate) const DEFAULT_PORT: &str = "8080";

/// The default of `once --at`: the time of the request.
pub(crate) const DEFAULT_AT: &str = "1970-01-01T00:00:00Z";

/// The default of `once --first`: the id for the resource that the request may create.
pub(crate) const DEFAULT_FIRST: &str = "00000000-0000-0000-0000-000000000000";

/// The default of `audit --from`: the number of the first row to print.
pub(crate) const DEFAULT_FROM: &str = "1";

/// The default of `audit --count`: the maximum number of rows to print.
pub(crate) const DEFAULT_COUNT: u64 = 100;
