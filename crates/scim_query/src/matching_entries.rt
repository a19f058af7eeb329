//! The matching parts, each with its sort key.
ghost use Rattle.std.specs.Prelude.{◌≡◌, ◌-◌, ◌++◌, ◌∷◌, [], IfOk, OnOk, All, take, drop};
ghost use Rattle.std.specs.List.Sorted.{IsPermutation, IsSorted, IsStable};
ghost use Rattle.scim_value.specs.Changes.{restricted_part};
ghost use Rattle.scim_query.specs.Order.{rank_cmp};
ghost use Rattle.scim_query.specs.code.Entries as spec;
ghost use Rattle.scim_query.specs.Pages.{is_match, matching};

use crate::queries::Query;
use crate::sort_keys::{compare_ranks, key_by};
use scim_cell::{Atom, RowTest};
use scim_filter::{holds, holds_where};
use scim_text::{NoMemory, push};
use scim_value::Part;
use std::alloc::Global;
use std::cmp::Ordering;

/// A part with its sort key, which is computed once.
#[derive(Drop)]
pub(crate) struct Entry<'a> {
    key: Option<Atom>,
    part: &'a Part,
}

impl Query {
    /// Whether the filter matches the part. True if there is no filter.
    pub fn matches(&self, alloc: Global, part: &Part) -> Result<bool, NoMemory>
        ensures { IfOk result (λ b. b ≡ is_match self.now.filter part.now) }
    {
        match &self.filter {
            None => Ok(true),
            Some(filter) => holds(alloc, filter, part),
        }
    }

    /// Like [`Query::matches`], for the part restricted to the fields that the test admits. The part isn't copied.
    pub fn matches_where<T: RowTest>(
        &self,
        alloc: Global,
        part: &Part,
        test: &T,
    ) -> Result<bool, NoMemory>
        ensures { IfOk result (λ b. b
            ≡ is_match self.now.filter (restricted_part (T.keeps test.now) part.now)) }
    {
        // This call lets the proof use that the part is valid, so the restricted part has exactly the
        // restricted rows.
        let _ = part.rows();
        match &self.filter {
            None => Ok(true),
            Some(filter) => holds_where(alloc, filter, part, test),
        }
    }
}

/// Appends an entry for the part, if it matches.
fn push_matching<'a>(
    alloc: Global,
    query: &Query,
    part: &'a Part,
    entries: &mut Vec<Entry<'a>>,
) -> Result<(), NoMemory>
    ensures members { OnOk result (spec.parts_of entries.new.items
        ≡ spec.parts_of entries.old.items ++ matching query.now.filter (part.now ∷ [])) }
    ensures keys { OnOk result (All (spec.HasKey query.now.sort_by) entries.old.items
        → All (spec.HasKey query.now.sort_by) entries.new.items) }
{
    if query.matches(alloc, part)? {
        let key = key_by(alloc, query.sort_by, part)?;
        push(entries, Entry { key, part })?;
    }
    Ok(())
}

/// Returns an entry for each matching part, in the order of the list.
pub(crate) fn matching_entries<'a>(
    alloc: Global,
    parts: &'a [Part],
    query: &Query,
) -> Result<Vec<Entry<'a>>, NoMemory>
    ensures members { IfOk result (λ v. spec.parts_of v.items
        ≡ matching query.now.filter parts.now) }
    ensures keys { IfOk result (λ v. All (spec.HasKey query.now.sort_by) v.items) }
{
    let mut entries = Vec::new(alloc);
    for part in parts {
        push_matching(alloc, query, part, &mut entries)?;
    }
    Ok(entries)
}

/// Compares two entries by key in the given direction, then by ascending id.
fn compare(descending: bool, a: &Entry<'_>, b: &Entry<'_>) -> Ordering
    ensures { result ≡ rank_cmp descending (spec.entry_rank a.now) (spec.entry_rank b.now) }
{
    compare_ranks(descending, &a.key, a.part.id(), &b.key, b.part.id())
}

/// Sorts the entries by key in the given direction, then by ascending id; equal entries keep their order.
pub(crate) fn sort_entries(entries: &mut Vec<Entry<'_>>, descending: bool) -> Result<(), NoMemory>
    ensures members { IsPermutation entries.old.items entries.new.items }
    ensures in_order { OnOk result (IsSorted (spec.entry_cmp descending) entries.new.items) }
    ensures stable { OnOk result (IsStable
        (spec.entry_cmp descending) entries.old.items entries.new.items) }
{
    entries.sort_by(|a, b| compare(descending, a, b))?;
    Ok(())
}

/// Returns at most `count` items from position `start` on. Positions are counted from 1, and 0 counts as 1.
pub fn slice_of<T>(items: &[T], start: usize, count: usize) -> &[T]
    ensures { result.now ≡ take count (drop (start - 1) items.now) }
{
    let first = start.saturating_sub(1).min(items.len());
    let (_, rest) = items.split_at(first);
    rest.split_at(count.min(rest.len())).0
}

/// Copies the part of each entry.
pub(crate) fn copy_parts(alloc: Global, entries: &[Entry<'_>]) -> Result<Vec<Part>, NoMemory>
    ensures { IfOk result (λ v. v.items ≡ spec.parts_of entries.now) }
{
    let mut copies = Vec::with_capacity(alloc, entries.len())?;
    for entry in entries {
        push(&mut copies, entry.part.try_copy(alloc)?)?;
    }
    Ok(copies)
}
