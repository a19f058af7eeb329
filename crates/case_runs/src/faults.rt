//! The error of a run of the cases.
use scim_text::NoMemory;
use std::alloc::{AllocError, AllocFailed};
use std::io;
use thiserror::Error;

/// Why a run of the cases ends early.
#[derive(Debug, Drop, Error)]
pub enum FolderFault {
    /// The command line doesn't name a folder.
    #[error("give a folder of cases")]
    NoFolder,
    /// A folder or a file can't be read, or the output can't be written.
    #[error("{0}")]
    Failed(io::Error),
    /// Memory ran out.
    #[error("out of memory")]
    NoMemory,
}

impl From<io::Error> for FolderFault {
    fn from(error: io::Error) -> FolderFault {
        FolderFault::Failed(error)
    }
}

impl From<NoMemory> for FolderFault {
    fn from(_: NoMemory) -> FolderFault {
        FolderFault::NoMemory
    }
}

impl From<AllocError> for FolderFault {
    fn from(_: AllocError) -> FolderFault {
        FolderFault::NoMemory
    }
}

impl<T: Drop> From<AllocFailed<T>> for FolderFault {
    fn from(_: AllocFailed<T>) -> FolderFault {
        FolderFault::NoMemory
    }
}
