//! The connections of the administrator.
ghost use Rattle.std.specs.Prelude.{◌≡◌, ◌≤◌, ℕ, IsTrue, None, Some, drop, string_bytes, if◌then◌else◌};
ghost use Rattle.scim_serve.specs.Peers.{KeepsClients};
ghost use Rattle.scim_admin.specs.Connections as spec;
ghost use Rattle.scim_admin.specs.Jobs.{is_done};

use crate::jobs::Job;
use crate::replies::Reply;
use scim_serve::Peers;
use scim_text::NoMemory;
use scim_wire::{Item, Wire};
use std::alloc::Global;
use std::collections::VecDeque;

/// A connection of the administrator.
///
/// A reply is written to its end before the next request is looked at.
#[derive(Drop)]
pub(crate) struct AdminConnection {
    wire: Wire,
    /// What was read of the stream and isn't answered yet.
    items: VecDeque<Item>,
    /// What is being written. The connection has taken the first `taken` bytes.
    pending: String,
    taken: usize,
    /// What sends the rest of the reply.
    job: Option<Job>,
    /// Whether the connection is to be closed after the reply.
    is_closing: bool,
}

/// What a connection needs next.
#[derive(Drop)]
pub(crate) enum Need {
    /// Nothing, until more is read.
    Nothing,
    /// To be offered the bytes that are pending.
    Offer,
    /// To be closed.
    Close,
    /// The next piece of the reply's body.
    Piece(Job),
    /// The answer to this.
    Answer(Item),
}

impl AdminConnection {
    /// Returns a connection that has just been opened.
    pub(crate) fn new(alloc: Global) -> AdminConnection {
        AdminConnection {
            wire: Wire::new(alloc),
            items: VecDeque::new(alloc),
            pending: String::new(alloc),
            taken: 0,
            job: None,
            is_closing: false,
        }
    }

    /// Reads the next piece of the stream. After an error the connection can't be read further.
    pub(crate) fn read(&mut self, alloc: Global, piece: &[u8]) -> Result<(), NoMemory> {
        for item in self.wire.feed(alloc, piece)? {
            self.items.push_back(item)?;
        }
        Ok(())
    }

    /// Whether the connection exports all resources.
    pub(crate) fn is_exporting(&self) -> bool {
        match &self.job {
            Some(job) => job.is_export(),
            None => false,
        }
    }

    /// Returns what the connection needs next, and takes it out of the connection.
    pub(crate) fn next(&mut self) -> Need
        ensures next { spec.IsNext self.old result }
        ensures pending { spec.pending_of self.new ≡ spec.pending_of self.old }
        ensures closing { spec.closes_after self.new ≡ spec.closes_after self.old }
    {
        if self.taken < self.pending.len() {
            return Need::Offer;
        }
        if let Some(job) = self.job.take() {
            return Need::Piece(job);
        }
        if self.is_closing {
            return Need::Close;
        }
        match self.items.pop_front() {
            Some(item) => Need::Answer(item),
            None => Need::Nothing,
        }
    }

    /// Replaces what is to be written, of which nothing may be pending.
    fn write(&mut self, text: String)
        ensures { spec.Writes (string_bytes text) (spec.job_of self.old)
            (spec.closes_after self.old) self.new }
    {
        self.pending = text;
        self.taken = 0;
    }

    /// Begins to write a reply.
    pub(crate) fn begin(&mut self, reply: Reply)
        ensures { spec.Writes (string_bytes reply.text) reply.job reply.closes self.new }
    {
        let Reply { text, job, closes } = reply;
        self.write(text);
        self.job = job;
        self.is_closing = closes;
    }

    /// Begins to write a piece of a reply's body, and keeps the job if it isn't done.
    pub(crate) fn carry_on(&mut self, text: String, job: Job)
        ensures { spec.Writes (string_bytes text) (if is_done job then None else Some job)
            (spec.closes_after self.old) self.new }
    {
        self.write(text);
        self.job = if job.is_done() { None } else { Some(job) };
    }

    /// Offers what is to be written, which may be nothing. `peers` reports when the connection may take more.
    pub(crate) fn offer<P: Peers>(&mut self, peers: &mut P, number: u64)
        ensures clients { IsTrue P.is_known → KeepsClients P.seen P.written P.takes_all
            P.is_closed peers.old peers.new }
        ensures taken { (count : ℕ)
            × (spec.pending_of self.new ≡ drop count (spec.pending_of self.old)) }
        ensures rest { spec.job_of self.new ≡ spec.job_of self.old }
        ensures closing { spec.closes_after self.new ≡ spec.closes_after self.old }
    {
        let rest = self.pending.as_bytes().get(self.taken..).unwrap_or(&[]);
        let count = peers.write_to_admin(number, rest);
        self.taken = self.taken.saturating_add(count);
    }
}
