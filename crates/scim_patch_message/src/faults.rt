//! The faults for which a PATCH message is refused.
use thiserror::Error;

/// The reason why a PATCH message is refused (RFC 7644 section 3.12).
/// If a message has several faults, the one that comes first in this enum is reported.
#[derive(Clone, Copy, Debug, PartialEq, Eq, Error)]
pub enum PatchFault {
    /// The message isn't a JSON object with a non-empty list of operations, an operation isn't an object with
    /// a known `op`, or two keys of one object spell the same name differently (invalidSyntax).
    #[error("not a JSON object with a list of operations whose keys are each a name of its own")]
    Syntax,
    /// A path isn't valid, or names an attribute that the kind lacks (invalidPath).
    #[error("a path is none, or names nothing")]
    Path,
    /// A value is missing, of another type, over a limit or an empty `userName`, or the message has over
    /// 1,000 operations (invalidValue).
    #[error("a value is missing, of another type, or over a limit")]
    Value,
}
