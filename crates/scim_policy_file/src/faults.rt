//! Faults of policy files.
use thiserror::Error;

/// The cause of a fault in a policy file or in one of its rules.
#[derive(Clone, Copy, Debug, PartialEq, Eq, Error)]
pub enum Cause {
    /// The file isn't JSON.
    #[error("json")]
    Json,
    /// A value has the wrong type (for example, the version isn't an integer), a list is empty, or a key is
    /// missing or unknown.
    #[error("shape")]
    Shape,
    /// The version is an integer other than 1 and 2, of any size.
    #[error("version")]
    Version,
    /// There are more than 1,000 rules.
    #[error("too many rules")]
    TooManyRules,
    /// A client, an operation, a type or a path is invalid, or a target has a name that none of the rule's
    /// types has.
    #[error("name")]
    Name,
    /// A target isn't a filter on each of the rule's types.
    #[error("target")]
    Target,
    /// A target names `groups`, `password` or `meta`.
    #[error("target names groups, password or meta")]
    TargetNames,
    /// A path has a value filter, and the rule has another operation than read, or the filter is on `groups`.
    #[error("value filter")]
    ValueFilter,
    /// A target names `doorCode`.
    #[error("target names doorCode")]
    TargetNamesDoorCode,
}

/// The reason why a policy file is refused. `rule` is the number of the faulty rule, from 1, or 0 if the file
/// itself is faulty.
#[derive(Clone, Copy, Debug, PartialEq, Eq, Error)]
#[error("rule {rule}: {cause}")]
pub struct PolicyFault {
    pub rule: u32,
    pub cause: Cause,
}
