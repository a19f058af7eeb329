//! The order and the page of a search (RFC 7644 sections 3.4.2.3 and 3.4.2.4).
ghost use Rattle.std.specs.Prelude.{◌≡◌, option_and_then};
ghost use Rattle.std.specs.Option.{option_copied};
ghost use Rattle.scim_query.specs.SortKeys.{sort_leaf};
ghost use Rattle.scim_exchange.specs.Arrangements as spec;

use scim_audit::Refusal;
use scim_query::read_sort_by;
use scim_schema::{Kind, Leaf, MOST_SHOWN, USUALLY_SHOWN};
use scim_text::same_name;

/// The sort order, the 1-based start position and the page size of a search.
#[derive(Clone, Copy)]
pub(crate) struct Arrangement {
    pub(crate) sort_by: Option<Leaf>,
    pub(crate) descending: bool,
    pub(crate) start: usize,
    pub(crate) count: usize,
}

/// Whether `sortOrder` is `descending`, in any ASCII case; false for `None`. Fails with `MessageValue` if it
/// is neither `ascending` nor `descending`.
fn is_descending(sort_order: Option<&str>) -> Result<bool, Refusal>
    ensures { result ≡ spec.is_descending (option_copied sort_order.entry) }
{
    let Some(text) = sort_order else {
        return Ok(false);
    };
    if same_name(text, "descending") {
        return Ok(true);
    }
    if same_name(text, "ascending") {
        return Ok(false);
    }
    Err(Refusal::MessageValue)
}

/// Returns the 1-based position of the first resource on the page: `start_index`, but at least 1, and 1 for
/// `None`.
fn first_shown(start_index: Option<i64>) -> usize
    ensures { result ≡ spec.first_shown start_index }
{
    match start_index {
        Some(position) => { if position < 1 { 1 } else { position as usize } }
        None => 1,
    }
}

/// Returns the page size: `count` clamped to the range 0 to 200, and 100 for `None`.
fn most_shown(count: Option<i64>) -> usize
    ensures { result ≡ spec.most_shown count }
{
    match count {
        Some(most) => most.clamp(0, MOST_SHOWN as i64) as usize,
        None => USUALLY_SHOWN,
    }
}

/// Returns the sorting and paging that the parameters of a search select. Fails with `MessageValue` if
/// `sort_order` is neither `ascending` nor `descending`.
pub(crate) fn arranged(
    kind: Kind,
    sort_by: Option<&str>,
    sort_order: Option<&str>,
    start_index: Option<i64>,
    count: Option<i64>,
) -> Result<Arrangement, Refusal>
    ensures { result ≡ spec.arranged kind (option_copied sort_by.entry)
        (option_copied sort_order.entry) start_index count }
{
    let descending = is_descending(sort_order)?;
    Ok(Arrangement {
        sort_by: leaf_to_sort_by(kind, sort_by),
        descending,
        start: first_shown(start_index),
        count: most_shown(count),
    })
}

/// Returns the leaf that `sortBy` names; `None` if it names no leaf of the kind.
fn leaf_to_sort_by(kind: Kind, sort_by: Option<&str>) -> Option<Leaf>
    ensures { result ≡ option_and_then (sort_leaf kind) (option_copied sort_by.entry) }
{
    read_sort_by(kind, sort_by?)
}
