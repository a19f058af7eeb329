//! Lists the rows of an audit piece by piece.
ghost use Rattle.std.specs.Prelude.{◌≤◌};

use crate::open_shelves::OpenShelf;
use scim_admin_text::AuditQuery;
use scim_audit_listing::{Portion, add_lines, start_of_last};
use scim_shelf::ShelfFault;
use scim_text::Failed;
use std::alloc::Global;

/// How many rows are read at a time, at most. Their lines have at most some 60,000 bytes.
const ROWS: u64 = 160;

/// What is left to do of a listing.
#[derive(Clone, Copy)]
enum Phase {
    /// To find, before the place at which the job stands, the first of the last rows that are listed; this many
    /// of them are before that place.
    Search(u64),
    /// To list at most this many rows from the place on at which the job stands.
    List(u64),
}

/// A listing of the rows that an audit had when the listing began, piece by piece.
#[derive(Drop)]
pub struct AuditJob {
    query: AuditQuery,
    phase: Phase,
    /// How many rows of the audit are before the first one that may be listed.
    skipped: u64,
    /// How many rows are before the place at which the job stands.
    at: u64,
    /// How many rows the audit had when the listing began.
    count: u64,
    ghost within: { at ≤ count },
}

impl AuditJob {
    ghost use Rattle.std.specs.Prelude.{◌≡◌, [], List, length, true};
    ghost use Rattle.scim_audit.specs.declared.audit_rows.AuditRow.{AuditRow};
    ghost use Rattle.scim_audit_listing.specs.Listings.{listed};
    ghost use Rattle.scim_admin_streams.specs.AuditJobs as spec;

    /// Returns the listing of the first `count` rows of an audit.
    pub fn new(query: AuditQuery, count: u64) -> AuditJob
        ensures text { (audit : List AuditRow) → length audit ≡ count
            → spec.rest_of result audit ≡ listed (spec.listing_of query) audit }
        ensures rows { (audit : List AuditRow) → length audit ≡ count → spec.HasRows audit result }
    {
        let skipped = query.from.saturating_sub(1);
        match query.portion {
            Portion::First(most) => AuditJob {
                query,
                phase: Phase::List(most),
                skipped,
                at: skipped.min(count),
                count,
            },
            Portion::Last(wanted) => AuditJob {
                query,
                phase: Phase::Search(wanted),
                skipped,
                at: count,
                count,
            },
        }
    }

    /// Whether all rows are listed.
    pub fn is_done(&self) -> bool
        ensures value { result ≡ spec.is_done self.now }
        ensures end { result ≡ true → (audit : List AuditRow) → spec.rest_of self.now audit ≡ [] }
    {
        match self.phase {
            Phase::Search(_) => false,
            Phase::List(most) => most == 0 || self.at >= self.count,
        }
    }

    /// Does the next part of the job, and returns the text that follows that of all earlier parts; it may be
    /// empty. A job that isn't done has less to do then.
    ///
    /// Fails with `Device` if the rows can't be read. After an error the job is as it was.
    pub fn next<S: OpenShelf>(
        &mut self,
        alloc: Global,
        shelf: &mut S,
    ) -> Result<String, Failed<ShelfFault>>
        ensures { spec.GoesOn S.stands S.is_honest S.has_round shelf.old shelf.new self.old self.new result }
    {
        match self.phase {
            Phase::Search(wanted) => self.search(alloc, shelf, wanted),
            Phase::List(most) => self.list(alloc, shelf, most),
        }
    }

    /// Lemma: rows that are added to the audit after the listing began change nothing of its text.
    pub fn later_rows_change_nothing(&self)
        ensures { spec.LaterRowsChangeNothing self.now }
    {
        let _job = self;
    }

    /// Looks for the first of the last rows in the block of rows before the place of the job. `wanted` more rows
    /// are to be found.
    fn search<S: OpenShelf>(
        &mut self,
        alloc: Global,
        shelf: &mut S,
        wanted: u64,
    ) -> Result<String, Failed<ShelfFault>>
        requires { self.old.phase ≡ Phase.Search wanted }
        ensures { spec.GoesOn S.stands S.is_honest S.has_round shelf.old shelf.new self.old self.new result }
    {
        if self.at <= self.skipped {
            self.phase = Phase::List(self.count);
            return Ok(String::new(alloc));
        }
        let first = self.at.saturating_sub(ROWS).max(self.skipped);
        let rows = shelf.rows_from(alloc, first + 1, self.at - first)?;
        let listing = self.query.listing();
        let (start, found) = start_of_last(&listing.filter, rows.as_slice(), wanted);
        if found == wanted {
            self.at = first.saturating_add(start as u64).min(self.count);
            self.phase = Phase::List(self.count);
            return Ok(String::new(alloc));
        }
        self.at = first;
        self.phase = Phase::Search(wanted.saturating_sub(found));
        Ok(String::new(alloc))
    }

    /// Lists the block of rows from the place of the job on, and at most `most` of them.
    fn list<S: OpenShelf>(
        &mut self,
        alloc: Global,
        shelf: &mut S,
        most: u64,
    ) -> Result<String, Failed<ShelfFault>>
        requires { self.old.phase ≡ Phase.List most }
        ensures { spec.GoesOn S.stands S.is_honest S.has_round shelf.old shelf.new self.old self.new result }
    {
        let mut text = String::new(alloc);
        if self.at >= self.count {
            return Ok(text);
        }
        let count = (self.count - self.at).min(ROWS);
        let first = self.at + 1;
        let rows = shelf.rows_from(alloc, first, count)?;
        let listing = self.query.listing();
        let (filter, format) = (&listing.filter, listing.format);
        let added = add_lines(
            &mut text,
            alloc,
            filter,
            format,
            first,
            rows.as_slice(),
            most,
        )?;
        self.at += count;
        self.phase = Phase::List(most.saturating_sub(added));
        Ok(text)
    }
}
