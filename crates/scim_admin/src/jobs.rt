//! The bodies that are sent in pieces.
ghost use Rattle.std.specs.Prelude.{◌≡◌, ◌++◌, [], true, false, IfOk, OnOk, string_bytes};
ghost use Rattle.scim_shelf_cache.specs.Caches.{HasKeyed};
ghost use Rattle.scim_shelf.specs.Shelves.{Answers};
ghost use Rattle.scim_shelf.specs.Stores.{Store};
ghost use Rattle.scim_admin_streams.specs.Shelves.{KeepsShelf};
ghost use Rattle.scim_admin.specs.Jobs as spec;

use scim_admin_streams::{AuditJob, ExportFault, ExportJob, OpenShelf};
use scim_admin_text::{add_chunk, last_chunk};
use scim_shelf::ShelfFault;
use scim_text::{Failed, NoMemory};
use std::alloc::Global;

/// What is sent.
#[derive(Drop)]
enum Work {
    /// Rows of the audit.
    Audit(AuditJob),
    /// All resources. The number is that of the commits that had changed a resource when the export began.
    Export(ExportJob, u64),
}

/// A body that is sent in pieces.
#[derive(Drop)]
pub(crate) struct Job {
    work: Work,
    /// Whether the pieces are chunks. Otherwise the body ends with the connection.
    is_chunked: bool,
}

/// Why a body isn't sent to its end.
#[derive(Clone, Copy, Debug, PartialEq, Eq)]
pub(crate) enum Cut {
    /// A resource was changed while all resources were exported.
    Changed,
    /// The store can't be read.
    Device,
    /// An allocation failed.
    NoMemory,
}

impl Cut {
    /// Returns the line for the operator.
    pub(crate) fn line(self) -> &'static str {
        match self {
            Cut::Changed =>
                "a reply to the administrator is cut: a resource was changed during the export",
            Cut::Device => "a reply to the administrator is cut: the database can't be read",
            Cut::NoMemory => "a reply to the administrator is cut: out of memory",
        }
    }
}

impl From<NoMemory> for Cut {
    fn from(_: NoMemory) -> Cut {
        Cut::NoMemory
    }
}

impl From<Failed<ShelfFault>> for Cut {
    fn from(fault: Failed<ShelfFault>) -> Cut {
        match fault {
            Failed::Because(_) => Cut::Device,
            Failed::NoMemory => Cut::NoMemory,
        }
    }
}

impl From<ExportFault> for Cut {
    fn from(fault: ExportFault) -> Cut {
        match fault {
            ExportFault::Changed => Cut::Changed,
            ExportFault::Device => Cut::Device,
            ExportFault::NoMemory => Cut::NoMemory,
        }
    }
}

impl Work {
    /// Whether all is done.
    fn is_done(&self) -> bool
        ensures value { result ≡ spec.is_at_end self.now }
        ensures end { result ≡ true → (store : Store) → spec.rest_at self.now store ≡ [] }
    {
        match self {
            Work::Audit(job) => job.is_done(),
            Work::Export(job, _) => job.is_done(),
        }
    }

    /// Does the next part, and returns its text. After an error the work can't be carried on.
    fn next<S: OpenShelf>(&mut self, alloc: Global, shelf: &mut S) -> Result<String, Cut>
        ensures keeps { KeepsShelf S.stands S.is_honest S.has_round shelf.old shelf.new }
        ensures piece { IfOk result (Answers (HasKeyed S.stands) S.is_honest shelf.old shelf.new
            (λ store text. spec.IsOver self.old store → spec.rest_at self.old store
            ≡ string_bytes text ++ spec.rest_at self.new store)) }
        ensures over { (store : Store) → spec.IsOver self.old store → spec.IsOver self.new store }
        ensures shorter { OnOk result (spec.is_at_end self.old ≡ false
            → spec.IsShorter self.old self.new) }
    {
        match self {
            Work::Audit(job) => Ok(job.next(alloc, shelf)?),
            Work::Export(job, _) => Ok(job.next(alloc, shelf)?),
        }
    }
}

impl Job {
    /// Returns the job that lists rows of the audit.
    pub(crate) fn audit(job: AuditJob, is_chunked: bool) -> Job
        ensures work { result.work ≡ Work.Audit job }
        ensures framing { result.is_chunked ≡ is_chunked }
    {
        Job {
            work: Work::Audit(job),
            is_chunked,
        }
    }

    /// Returns the job that exports all resources. It began after `changes` commits that changed a resource.
    pub(crate) fn export(job: ExportJob, changes: u64, is_chunked: bool) -> Job
        ensures work { result.work ≡ Work.Export job changes }
        ensures framing { result.is_chunked ≡ is_chunked }
    {
        Job {
            work: Work::Export(job, changes),
            is_chunked,
        }
    }

    /// Whether all resources are exported.
    pub(crate) fn is_export(&self) -> bool {
        matches!(self.work, Work::Export(_, _))
    }

    /// Whether the whole body is sent.
    pub(crate) fn is_done(&self) -> bool
        ensures value { result ≡ spec.is_done self.now }
        ensures end { result ≡ true → (store : Store) → spec.rest_of self.now store ≡ [] }
    {
        self.work.is_done()
    }

    /// Whether the connection ends with the body.
    pub(crate) fn closes(&self) -> bool {
        !self.is_chunked
    }

    /// Whether a commit changed a resource since an export began. There were `changes` such commits.
    fn is_outdated(&self, changes: u64) -> bool {
        match &self.work {
            Work::Audit(_) => false,
            Work::Export(_, then) => *then != changes,
        }
    }

    /// Does the next part of the job, and returns what is to be written. It may be nothing, if the job isn't
    /// done. There were `changes` commits that changed a resource. After an error the job can't be carried on.
    pub(crate) fn next<S: OpenShelf>(
        &mut self,
        alloc: Global,
        shelf: &mut S,
        changes: u64,
    ) -> Result<String, Cut>
        ensures keeps { KeepsShelf S.stands S.is_honest S.has_round shelf.old shelf.new }
        ensures piece { IfOk result (Answers (HasKeyed S.stands) S.is_honest shelf.old shelf.new
            (λ store text. spec.IsOver self.old.work store
            → spec.SendsPiece self.old self.new store (string_bytes text))) }
        ensures goes_on { OnOk result (spec.GoesOn self.old self.new) }
    {
        if self.is_outdated(changes) {
            return Err(Cut::Changed);
        }
        let piece = self.work.next(alloc, shelf)?;
        Ok(framed(alloc, piece, self.is_chunked, self.is_done())?)
    }
}

/// Returns a piece as it is written. If it is the last one of a body in chunks, the end of the body follows.
fn framed(alloc: Global, piece: String, is_chunked: bool, is_last: bool) -> Result<String, NoMemory>
    ensures { IfOk result (λ text. string_bytes text
        ≡ spec.framed is_chunked is_last (string_bytes piece)) }
{
    if !is_chunked {
        return Ok(piece);
    }
    let mut text = String::new(alloc);
    add_chunk(alloc, &mut text, piece.as_str())?;
    if is_last {
        text.push_str(last_chunk())?;
    }
    Ok(text)
}
