//! The limits that the server sets.

/// The largest number of values of a multi-valued attribute.
pub const MOST_VALUES: usize = 10_000;

/// The largest length of a text value in bytes; `meta.location` is exempt.
pub const LONGEST_VALUE: usize = 65_536;

/// The largest length of a filter or a path in bytes, including the spaces around it.
pub const LONGEST_FILTER: usize = 4_096;

/// The largest number of operations in a PATCH request.
pub const MOST_OPERATIONS: usize = 1_000;

/// The largest number of rules in a policy.
pub const MOST_RULES: usize = 1_000;

/// The largest number of lines with a token in a token file.
pub const MOST_TOKENS: usize = 10_000;

/// The largest number of resources on a page of a list (`maxResults`, RFC 7643 section 5).
pub const MOST_SHOWN: usize = 200;

/// The largest number of resources on a page if the request has no `count` (RFC 7644 section 3.4.2.4).
pub const USUALLY_SHOWN: usize = 100;

/// The largest size of a request body in bytes.
pub const MAX_BODY: u64 = 1_048_576;
