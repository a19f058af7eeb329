//! The parts that a pager holds, each with its sort key.
ghost use Rattle.std.specs.Prelude.{◌≡◌, ◌+◌, ◌-◌, ◌^◌, ◌≤◌, ◌++◌, ◌∷◌, [], List, IfOk, IfSome, OnOk, OnErr, length, map, take, drop, insert, min};
ghost use Rattle.std.specs.List.Sorted.{IsSorted};
ghost use Rattle.std.specs.Ordering.{is_lt};
ghost use Rattle.scim_query.specs.Pagers as spec;
ghost use Rattle.scim_query.specs.Order.{rank_cmp};
ghost use Rattle.scim_query.specs.Arranged.{placed};
ghost use Rattle.scim_query.specs.code.Kept as code;

use crate::queries::Query;
use crate::sort_keys::compare_ranks;
use scim_cell::{Atom, Id};
use scim_text::NoMemory;
use scim_value::Part;
use std::alloc::Global;

/// A held part with its sort key, which is computed once.
#[derive(Drop)]
pub(crate) struct KeptPart {
    pub(crate) key: Option<Atom>,
    pub(crate) part: Part,
}

/// Whether a part with this key and id comes before the held part `other`.
fn comes_before(descending: bool, key: &Option<Atom>, id: Id, other: &KeptPart) -> bool
    ensures { result ≡ is_lt (rank_cmp descending (key.now, id) (code.kept_rank other.now)) }
{
    compare_ranks(descending, key, id, &other.key, other.part.id()).is_lt()
}

/// Returns the maximum number of parts that a pager holds for the query, capped at `usize::MAX`.
fn room_of(query: &Query) -> usize
    ensures { result ≡ min (spec.most_held query.now) (2 ^ 64 - 1) }
{
    let count = query.count;
    if query.sort_by.is_some() {
        query.start.saturating_sub(1).saturating_add(count)
    } else {
        count
    }
}

/// Returns where to insert a part with this key and id among the held parts, which are in order.
/// `None` if the part comes after the end of the page.
fn place_in_order(held: &[KeptPart], query: &Query, key: &Option<Atom>, id: Id) -> Option<usize>
    ensures inside { IfSome result (λ place. place ≤ length held.now) }
    ensures place { (part : _) → code.kept_rank part ≡ (key.now, id)
        → IsSorted (code.kept_cmp query.now.descending) held.now
        → take (spec.most_held query.now) (code.held_with result part held.now)
        ≡ take (spec.most_held query.now)
        (placed (code.comes_before query.now.descending) part held.now) }
{
    let place = held.partition_point(|other| !comes_before(query.descending, key, id, other));
    if place < room_of(query) {
        Some(place)
    } else {
        None
    }
}

/// Returns where to append a matching part to the held parts, which are the parts of the page.
/// `before` is the number of parts that matched before it. `None` if the part isn't on the page.
fn place_on_page(held: &[KeptPart], query: &Query, before: usize) -> Option<usize>
    ensures inside { IfSome result (λ place. place ≤ length held.now) }
    ensures place { (found : List KeptPart) (part : _) → before ≡ length found
        → held.now ≡ take query.now.count (drop (query.now.start - 1) found)
        → take query.now.count (code.held_with result part held.now)
        ≡ take query.now.count (drop (query.now.start - 1) (found ++ part ∷ [])) }
{
    if query.start.saturating_sub(1) <= before && held.len() < query.count {
        Some(held.len())
    } else {
        None
    }
}

/// Returns where to insert a matching part with this key and id among the held parts.
/// `before` is the number of parts that matched before it. `None` if the part is neither on the page nor
/// before it.
pub(crate) fn place_of(
    held: &[KeptPart],
    query: &Query,
    before: usize,
    key: &Option<Atom>,
    id: Id,
) -> Option<usize>
    ensures inside { IfSome result (λ place. place ≤ length held.now) }
    ensures place { code.IsPlace query.now before held.now (key.now, id) result }
{
    if query.sort_by.is_some() {
        place_in_order(held, query, key, id)
    } else {
        place_on_page(held, query, before)
    }
}

/// Inserts a part at `place` among the held parts, and drops the parts beyond the maximum.
/// After `NoMemory` the held parts are unchanged.
pub(crate) fn put_in_place(
    held: &mut Vec<KeptPart>,
    query: &Query,
    place: usize,
    part: KeptPart,
) -> Result<(), NoMemory>
    requires { place ≤ length held.old.items }
    ensures held { OnOk result (held.new.items
        ≡ take (spec.most_held query.now) (insert held.old.items place part)) }
    ensures refused { OnErr result (held.new.items ≡ held.old.items) }
{
    held.insert(place, part)?;
    held.truncate(room_of(query));
    Ok(())
}

/// Returns the parts from index `first` on, counted from 0, without their keys.
pub(crate) fn parts_from(
    alloc: Global,
    held: Vec<KeptPart>,
    first: usize,
) -> Result<Vec<Part>, NoMemory>
    ensures { IfOk result (λ v. v.items ≡ map (λ k. k.part) (drop first held.items)) }
{
    Ok(
        held.into_iter()
            .skip(first)
            .map(|kept| kept.part)
            .collect(alloc)?,
    )
}
