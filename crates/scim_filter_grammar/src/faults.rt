//! Faults of filters and tokens.
use thiserror::Error;

/// Why a filter can't be read.
#[derive(Clone, Copy, Debug, PartialEq, Eq, Error)]
pub enum FilterFault {
    /// The text isn't a filter.
    ///
    /// From `read_tokens`, the number is the byte where an unclosed string begins. From `read_filter`, it
    /// hints at where reading stopped; it is only guaranteed to be at most the length of the text.
    #[error("the text is no filter, about byte {0}")]
    Syntax(usize),
    /// A comparison doesn't suit the type of its attribute, or a value path is on an attribute without
    /// sub-attributes.
    #[error("a value is not of the type of its attribute")]
    WrongType,
    /// More than 32 brackets are open at one place.
    #[error("the filter has more than 32 open brackets")]
    TooDeep,
    /// The text has more than 4,096 bytes.
    #[error("the filter has more than 4096 bytes")]
    TooLong,
}

/// Why a function for a rule of the grammar failed.
#[derive(Clone, Copy)]
pub(crate) enum ReadError {
    /// The unread bytes don't begin with what the rule requires. The number is how many bytes are unread.
    Syntax(usize),
    /// More than 32 brackets are open.
    TooDeep,
}
