//! The error of a case that has no result.
use scim_samples::SampleFault;
use scim_text::NoMemory;
use std::alloc::{AllocError, AllocFailed};
use thiserror::Error;

/// Why a case has no result. The text of this error is reported in place of the result.
#[derive(Clone, Copy, Debug, Error)]
pub enum CaseFault {
    /// The line isn't a JSON object.
    #[error("the line is no JSON object")]
    NoObject,
    /// There is no call with the name in the case.
    #[error("there is no such call")]
    NoSuchCall,
    /// An argument of the call is missing or has the wrong type.
    #[error("the argument {0} is missing or of a wrong type")]
    Missing(&'static str),
    /// A sample of the case can't be made.
    #[error("{0}")]
    Sample(SampleFault),
    /// Memory ran out.
    #[error("out of memory")]
    NoMemory,
}

impl From<NoMemory> for CaseFault {
    fn from(_: NoMemory) -> CaseFault {
        CaseFault::NoMemory
    }
}

impl From<AllocError> for CaseFault {
    fn from(_: AllocError) -> CaseFault {
        CaseFault::NoMemory
    }
}

impl<T: Drop> From<AllocFailed<T>> for CaseFault {
    fn from(_: AllocFailed<T>) -> CaseFault {
        CaseFault::NoMemory
    }
}

impl From<SampleFault> for CaseFault {
    fn from(fault: SampleFault) -> CaseFault {
        match fault {
            SampleFault::NoMemory => CaseFault::NoMemory,
            _ => CaseFault::Sample(fault),
        }
    }
}
