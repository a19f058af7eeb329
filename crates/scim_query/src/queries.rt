//! Queries of a list of parts, and the pages that they return.
ghost use Rattle.std.specs.Prelude.{◌≡◌, IfOk};
ghost use Rattle.scim_query.specs.Pages as spec;

use crate::matching_entries::{copy_parts, matching_entries, slice_of, sort_entries};
use scim_filter_grammar::Filter;
use scim_schema::Leaf;
use scim_text::NoMemory;
use scim_value::Part;
use scim_view::Wanted;
use std::alloc::Global;

/// A query of a list of parts (RFC 7644 section 3.4.2).
pub struct Query {
    /// The filter that parts must match; `None` matches all parts.
    pub filter: Option<Filter>,
    /// The leaf to sort by, as [`crate::sort_by::read_sort_by`] returns it; `None` sorts by id.
    pub sort_by: Option<Leaf>,
    /// Whether the sort order is descending.
    pub descending: bool,
    /// The position of the first item of the page, counted from 1; 0 counts as 1.
    pub start: usize,
    /// The maximum number of items on the page.
    pub count: usize,
    /// The attributes that the reply shows of each item. [`search`] ignores it.
    pub wanted: Wanted,
}

impl Drop for Query {
    fn drop(self) {
        let Query {
            filter: _filter,
            sort_by: _sort_by,
            descending: _descending,
            start: _start,
            count: _count,
            wanted: _wanted,
        } = self;
    }
}

/// The page of a list of parts that a query returns.
#[derive(Drop)]
pub struct Page {
    /// The number of matching parts in the whole list.
    pub total: usize,
    /// The requested position of the first item, counted from 1, even if the page is empty.
    pub start: usize,
    /// Copies of the parts of the page.
    pub items: Vec<Part>,
}

/// Returns the position at which a page starts: 0 counts as 1.
pub(crate) fn first_position(start: usize) -> usize
    ensures { result ≡ spec.first_position start }
{
    start.max(1)
}

/// Returns the query's page of a list of parts.
/// The page has at most `count` of the matching parts in order, from position `start` on.
///
/// Parts are ordered by their atom at the sort leaf. For a multi-valued attribute, this is the atom of the
/// first value marked as primary, or else of the first value. Texts are case-folded unless the leaf is
/// caseExact, false comes before true, and a part without an atom there comes last. Descending order is the
/// reverse. Parts with equal keys are ordered by ascending id.
///
/// Only the parts of the page are copied.
pub fn search(alloc: Global, parts: &[Part], query: &Query) -> Result<Page, NoMemory>
    ensures { IfOk result (λ page. spec.IsPage parts.now query.now page) }
{
    let mut entries = matching_entries(alloc, parts, query)?;
    sort_entries(&mut entries, query.descending)?;
    let sorted = entries.as_slice();
    let items = copy_parts(alloc, slice_of(sorted, query.start, query.count))?;
    Ok(Page {
        total: sorted.len(),
        start: first_position(query.start),
        items,
    })
}
