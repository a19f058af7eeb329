//! Faults of paths.
use thiserror::Error;

/// Why a path can't be read.
#[derive(Clone, Copy, Debug, PartialEq, Eq, Error)]
pub enum PathFault {
    /// The text isn't a path, has more than 4,096 bytes or more than 32 open brackets, has a comparison that
    /// doesn't suit its attribute's type, or has a filter after anything but a multi-valued attribute.
    #[error("the text is no path")]
    Syntax,
    /// The kind doesn't have the attribute or sub-attribute.
    #[error("the path names an attribute that is not known")]
    Unknown,
}
