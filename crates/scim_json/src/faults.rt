//! The errors of reading stored documents and users files.
use std::error::Error as StdError;
use std::fmt;
use thiserror::Error;

/// The text isn't the stored document of a resource below the base.
#[derive(Clone, Copy, Debug, PartialEq, Eq, Error)]
#[error("not the stored document of a resource")]
pub struct Damaged;

/// The number of a damaged item in a users file, from 1: the item isn't the stored document of a
/// resource below the base, or repeats the id or a unique name of an earlier item. The number is 0 if
/// the text isn't a JSON list.
#[derive(Clone, Copy, Debug, PartialEq, Eq)]
pub struct DamagedItem(pub usize);

// Not derived, because there are two different messages.
impl fmt::Display for DamagedItem {
    fn fmt<W: fmt::Write>(&self, f: &mut fmt::Formatter<W>) -> fmt::Result {
        match self {
            DamagedItem(0) => write!(f, "not a JSON list"),
            DamagedItem(number) => write!(
                f,
                "item {number} is not the stored document of a resource, or repeats an id or a name"
            ),
        }
    }
}

impl StdError for DamagedItem {}
