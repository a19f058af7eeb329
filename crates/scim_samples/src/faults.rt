//! The error of the functions that make samples.
use scim_text::{Failed, NoMemory};
use scim_value::Invalid;
use std::alloc::{AllocError, AllocFailed};
use thiserror::Error;

/// Why a sample can't be made.
#[derive(Clone, Copy, Debug, PartialEq, Eq, Error)]
pub enum SampleFault {
    /// The text isn't a cell.
    #[error("not a cell: it is ATTRIBUTE=VALUE, ATTRIBUTE.SUB=VALUE or ATTRIBUTE[POSITION].SUB=VALUE")]
    NotACell,
    /// No kind has the attribute, or neither the attribute nor `name` has the sub-attribute.
    #[error("no such attribute or sub-attribute")]
    NoSuchLeaf,
    /// The text isn't an id.
    #[error("not an id")]
    NotAnId,
    /// The cells don't form a valid part or resource.
    #[error("not the cells of such a part or resource")]
    Invalid,
    /// Memory ran out.
    #[error("out of memory")]
    NoMemory,
}

impl From<NoMemory> for SampleFault {
    fn from(_: NoMemory) -> SampleFault {
        SampleFault::NoMemory
    }
}

impl From<AllocError> for SampleFault {
    fn from(_: AllocError) -> SampleFault {
        SampleFault::NoMemory
    }
}

impl<T: Drop> From<AllocFailed<T>> for SampleFault {
    fn from(_: AllocFailed<T>) -> SampleFault {
        SampleFault::NoMemory
    }
}

impl From<Invalid> for SampleFault {
    fn from(_: Invalid) -> SampleFault {
        SampleFault::Invalid
    }
}

impl From<Failed<Invalid>> for SampleFault {
    fn from(fault: Failed<Invalid>) -> SampleFault {
        match fault {
            Failed::Because(Invalid) => SampleFault::Invalid,
            Failed::NoMemory => SampleFault::NoMemory,
        }
    }
}
