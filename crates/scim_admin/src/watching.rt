//! What the administrator's port keeps of the commits to the store.
ghost use Rattle.std.specs.Prelude.{IfOk};
ghost use Rattle.scim_admin.specs.Reloads.{HasKnownTokens};

use crate::hosts::{Host, Setting};
use crate::request_counts::RequestCounts;
use scim_audit::{AuditRow, Decided, print_row};
use scim_schema::Op;
use scim_shelf::ShelfFault;
use scim_shelf_watch::Watcher;
use scim_text::{Failed, NoMemory, push};
use std::alloc::Global;

/// A commit that has begun.
#[derive(Drop)]
struct Begun {
    /// The line of the row in the log of the audit.
    line: String,
    /// The name of the client.
    client: String,
    op: Op,
    decided: Decided,
    /// When the commit began.
    nanos: u64,
}

/// How many commits there were, and how long they took. Each number is 2^64 - 1 at most.
#[derive(Clone, Copy)]
pub(crate) struct CommitFigures {
    /// The number of commits that succeeded. Those of a round count each.
    pub(crate) done: u64,
    /// The number of commits that failed.
    pub(crate) failed: u64,
    /// The nanoseconds that all commits took, each from its beginning until its outcome was known.
    pub(crate) nanos: u64,
    /// The number of commits that changed a resource.
    pub(crate) changes: u64,
    /// The number of commits that failed because the device failed.
    pub(crate) device_faults: u64,
}

/// A watcher of the store that counts requests by client, operation and decision, measures commits, writes
/// each row to the log of the audit, and lets no commit begin once the database's files are gone.
///
/// Not proved: what the counts are, and that each row is written to the log. The host isn't described by
/// contracts.
pub struct ServerWatch<H> {
    host: H,
    counts: RequestCounts,
    commits: CommitFigures,
    /// The commits that have begun, in order.
    begun: Vec<Begun>,
    started: u64,
    is_gone: bool,
}

impl<H: Drop> Drop for ServerWatch<H> {
    fn drop(self) {
        let ServerWatch {
            host: _host,
            counts: _counts,
            commits: _,
            begun: _begun,
            started: _,
            is_gone: _,
        } = self;
    }
}

impl<H: Host> ServerWatch<H> {
    /// Returns a watcher that has been told of no commit. The server starts now.
    pub fn new(alloc: Global, host: H) -> ServerWatch<H> {
        let mut host = host;
        let started = host.nanos();
        ServerWatch {
            host,
            counts: RequestCounts::new(alloc),
            commits: CommitFigures {
                done: 0,
                failed: 0,
                nanos: 0,
                changes: 0,
                device_faults: 0,
            },
            begun: Vec::new(alloc),
            started,
            is_gone: false,
        }
    }

    /// Returns the host.
    pub fn host_mut(&mut self) -> &mut H {
        &mut self.host
    }

    /// Returns the nanoseconds since the start.
    pub(crate) fn uptime(&mut self) -> u64 {
        self.host.nanos().saturating_sub(self.started)
    }

    /// Returns how many requests there were.
    pub(crate) fn counts(&self) -> &RequestCounts {
        &self.counts
    }

    /// Returns how many commits there were, and how long they took.
    pub(crate) fn commits(&self) -> CommitFigures {
        self.commits
    }

    /// Whether the files of the database are gone. Once they were, no commit begins.
    pub(crate) fn are_files_gone(&mut self) -> bool {
        if !self.host.has_files() {
            self.is_gone = true;
        }
        self.is_gone
    }

    /// Whether the files of the database were gone when they were last looked for.
    pub(crate) fn is_gone(&self) -> bool {
        self.is_gone
    }

    /// Writes a line for the operator.
    pub(crate) fn log(&mut self, line: &str) {
        self.host.log(line);
    }

    /// Asks the host to read the policy and the token files again.
    pub(crate) fn reload(&mut self, alloc: Global) -> Result<Setting, String>
        ensures known { IfOk result HasKnownTokens }
        ensures given { IfOk result (λ s. (host : H) × H.gives host s) }
    {
        self.host.reload(alloc)
    }
}

impl CommitFigures {
    /// Adds the time since the commit began.
    fn measure(&mut self, begun: &Begun, now: u64) {
        self.nanos = self.nanos.saturating_add(now.saturating_sub(begun.nanos));
    }

    /// Counts a commit that succeeded.
    fn note_success(&mut self, begun: &Begun, now: u64) {
        self.measure(begun, now);
        self.done = self.done.saturating_add(1);
        if changes(begun.op, begun.decided) {
            self.changes = self.changes.saturating_add(1);
        }
    }

    /// Counts a commit that failed with this fault.
    fn note_fault(&mut self, begun: &Begun, now: u64, fault: &Failed<ShelfFault>) {
        self.measure(begun, now);
        self.failed = self.failed.saturating_add(1);
        if matches!(fault, Failed::Because(ShelfFault::Device)) {
            self.device_faults = self.device_faults.saturating_add(1);
        }
    }
}

/// Whether a request with this operation and decision changes a resource.
fn changes(op: Op, decided: Decided) -> bool {
    op != Op::Read && decided == Decided::Allow
}

/// Returns what is kept of a commit that begins now.
fn begun_at(alloc: Global, nanos: u64, number: u64, row: &AuditRow) -> Result<Begun, NoMemory> {
    let line = print_row(alloc, number, row)?;
    let client = String::from_str(alloc, row.client.as_str())?;
    Ok(Begun {
        line,
        client,
        op: row.op,
        decided: row.decided,
        nanos,
    })
}

impl<H: Host> Watcher for ServerWatch<H> {
    ghost use Rattle.std.specs.Prelude.{⊤};

    ghost told = { λ _ _ _. ⊤ };

    ghost allowed = { λ _ _ _. ⊤ };

    fn allows(&mut self) -> bool {
        !self.is_gone
    }

    fn begins(&mut self, alloc: Global, number: u64, row: &AuditRow) -> Result<(), NoMemory> {
        let nanos = self.host.nanos();
        let begun = begun_at(alloc, nanos, number, row)?;
        self.counts.prepare(row.client.as_str())?;
        push(&mut self.begun, begun)
    }

    fn committed(&mut self) {
        let now = self.host.nanos();
        for begun in self.begun.as_slice() {
            self.host.append(begun.line.as_str());
            self.counts
                .count(begun.client.as_str(), begun.op, begun.decided);
            self.commits.note_success(begun, now);
        }
        self.begun.clear();
    }

    fn failed(&mut self, fault: &Failed<ShelfFault>) {
        let now = self.host.nanos();
        if let Some(begun) = self.begun.pop() {
            self.commits.note_fault(&begun, now, fault);
        }
    }

    fn lost(&mut self, fault: &Failed<ShelfFault>) {
        let now = self.host.nanos();
        for begun in self.begun.as_slice() {
            self.commits.note_fault(begun, now, fault);
        }
        self.begun.clear();
    }
}
