//! The error of a case that uses a store.
use case_values::{CaseFault, shown};
use std::alloc::{AllocError, Global};
use thiserror::Error;

/// Why a case that uses a store has no result. The text of this error is reported in place of the result.
#[derive(Clone, Copy, Debug, Error)]
pub enum StoreFault {
    /// The case is invalid, or memory ran out.
    #[error("{0}")]
    Case(CaseFault),
    /// The users can't be imported into a database.
    #[error("the database can't be filled")]
    NotFilled,
    /// A statement of the case fails.
    #[error("a statement can't be run")]
    NotRun,
    /// A database can't be opened.
    #[error("the database can't be opened")]
    NotOpened,
    /// The store can't be read.
    #[error("the store can't be read")]
    NotRead,
    /// A watcher of the store was told something else than what was committed.
    #[error("the watcher was told other rows")]
    NotTold,
    /// The changes of a round can't be committed.
    #[error("the round can't be settled")]
    NotSettled,
}

impl From<CaseFault> for StoreFault {
    fn from(fault: CaseFault) -> StoreFault {
        StoreFault::Case(fault)
    }
}

impl From<AllocError> for StoreFault {
    fn from(_: AllocError) -> StoreFault {
        StoreFault::Case(CaseFault::NoMemory)
    }
}

/// Returns the result, or the text of the error if it isn't `Case`. Fails with the inner error if it is
/// `Case`.
pub fn told_or_fault(alloc: Global, told: Result<String, StoreFault>) -> Result<String, CaseFault> {
    match told {
        Ok(text) => Ok(text),
        Err(StoreFault::Case(fault)) => Err(fault),
        Err(fault) => shown(alloc, &fault),
    }
}
