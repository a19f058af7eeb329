//! Builds a page from parts that come one after another, as a store is walked.
ghost use Rattle.std.specs.Prelude.{◌≡◌, ◌≤◌, ◌++◌, ◌∷◌, List, [], IfOk, OnOk, OnErr, length, take, insert};
ghost use Rattle.scim_value.specs.Changes.{restricted_part};
ghost use Rattle.scim_query.specs.Pages.{IsPage};
ghost use Rattle.scim_query.specs.Pagers as spec;
ghost use Rattle.scim_query.specs.code.Kept as code;

use crate::kept_parts::{KeptPart, parts_from, place_of, put_in_place};
use crate::queries::{Page, Query, first_position};
use crate::sort_keys::{key_by, key_where};
use scim_cell::RowTest;
use scim_text::NoMemory;
use scim_value::Part;
use std::alloc::Global;

/// Computes the page of a query from parts that come one after another.
///
/// The list isn't held in memory. The pager counts the matching parts and holds only parts that can still be
/// on the page or, with a sort key, before it. It holds at most `count` parts without a sort key, and at most
/// `start - 1 + count` with one. A part passed by value isn't copied, and a borrowed part is copied only if
/// it is held.
#[derive(Drop)]
pub struct Pager<'q> {
    alloc: Global,
    query: &'q Query,
    /// The number of matching parts so far.
    total: usize,
    /// With a sort key, the first matching parts so far, in the query's order; without one, the parts so far
    /// that are on the page.
    held: Vec<KeptPart>,
}

impl<'q> Pager<'q> {
    /// Returns a pager without parts, without allocating.
    pub fn new(alloc: Global, query: &'q Query) -> Pager<'q>
        ensures query { spec.query_of result ≡ query.entry }
        ensures taken { spec.HasTaken [] result }
    {
        Pager {
            alloc,
            query,
            total: 0,
            held: Vec::new(alloc),
        }
    }

    /// Takes the next part. Returns whether the part is now held. If the query has no sort key, parts must come in
    /// ascending order of id.
    /// Fails with `NoMemory` also if the number of matches overflows `usize`. On an error the pager is
    /// unchanged.
    pub fn push(&mut self, part: Part) -> Result<bool, NoMemory>
        ensures query { spec.query_of self.new ≡ spec.query_of self.old }
        ensures taken { OnOk result ((parts : List _) → spec.HasTaken parts self.old
            → spec.HasTaken (parts ++ part ∷ []) self.new) }
        ensures refused { OnErr result (spec.IsUnchanged self.old self.new) }
    {
        if !self.query.matches(self.alloc, &part)? {
            return Ok(false);
        }
        let key = key_by(self.alloc, self.query.sort_by, &part)?;
        let held = self.held.as_slice();
        let Some(place) = place_of(held, self.query, self.total, &key, part.id()) else {
            self.pass()?;
            return Ok(false);
        };
        self.hold(place, KeptPart { key, part })?;
        Ok(true)
    }

    /// Like [`Pager::push`], for the part restricted to the fields that the test admits. If the part matches, its
    /// sort key is copied; if it is then held, its admitted fields are copied too. Fails with `NoMemory` also if
    /// the number of matches overflows `usize`. On an error the pager is unchanged.
    pub fn push_where<T: RowTest>(&mut self, part: &Part, test: &T) -> Result<bool, NoMemory>
        ensures query { spec.query_of self.new ≡ spec.query_of self.old }
        ensures taken { OnOk result ((parts : List _) → spec.HasTaken parts self.old
            → spec.HasTaken (parts ++ restricted_part (T.keeps test.now) part.now ∷ []) self.new) }
        ensures refused { OnErr result (spec.IsUnchanged self.old self.new) }
    {
        if !self.query.matches_where(self.alloc, part, test)? {
            return Ok(false);
        }
        let key = key_where(self.alloc, self.query.sort_by, part, test)?;
        let held = self.held.as_slice();
        match place_of(held, self.query, self.total, &key, part.id()) {
            Some(place) => {
                let part = part.restrict(self.alloc, test)?;
                self.hold(place, KeptPart { key, part })?;
                Ok(true)
            }
            None => {
                self.pass()?;
                Ok(false)
            }
        }
    }

    /// Counts a matching part and inserts it at `place` among the held parts. Fails with `NoMemory` also if
    /// the number of matches overflows `usize`. On an error the pager is unchanged.
    fn hold(&mut self, place: usize, part: KeptPart) -> Result<(), NoMemory>
        requires { place ≤ length self.old.held.items }
        ensures query { spec.query_of self.new ≡ spec.query_of self.old }
        ensures counted { OnOk result (code.HasCounted
            (take (spec.most_held (spec.query_of self.old).now)
            (insert self.old.held.items place part))
            self.old self.new) }
        ensures refused { OnErr result (spec.IsUnchanged self.old self.new) }
    {
        let Some(total) = self.total.checked_add(1) else {
            return Err(NoMemory);
        };
        put_in_place(&mut self.held, self.query, place, part)?;
        self.total = total;
        Ok(())
    }

    /// Counts a matching part that isn't held.
    /// Fails with `NoMemory` if the number of matches overflows `usize`; the pager is then unchanged.
    fn pass(&mut self) -> Result<(), NoMemory>
        ensures query { spec.query_of self.new ≡ spec.query_of self.old }
        ensures counted { OnOk result (code.HasCounted self.old.held.items self.old self.new) }
        ensures refused { OnErr result (spec.IsUnchanged self.old self.new) }
    {
        let Some(total) = self.total.checked_add(1) else {
            return Err(NoMemory);
        };
        self.total = total;
        Ok(())
    }

    /// Returns the number of held parts.
    pub fn held(&self) -> usize
        ensures held { result ≡ length self.now.held.items }
        ensures most { (parts : List _) → spec.HasTaken parts self.now
            → result ≤ spec.most_held (spec.query_of self.now).now }
    {
        self.held.len()
    }

    /// Returns the page that [`crate::queries::search`] returns for the list of all parts taken.
    pub fn end(self) -> Result<Page, NoMemory>
        ensures { IfOk result (λ page. (parts : List _) → spec.HasTaken parts self.entry
            → spec.ComeInOrder (spec.query_of self.entry).now parts
            → IsPage parts (spec.query_of self.entry).now page) }
    {
        let Pager {
            alloc,
            query,
            total,
            held,
        } = self;
        let first = if query.sort_by.is_some() {
            query.start.saturating_sub(1)
        } else {
            0
        };
        let items = parts_from(alloc, held, first)?;
        Ok(Page {
            total,
            start: first_position(query.start),
            items,
        })
    }
}
