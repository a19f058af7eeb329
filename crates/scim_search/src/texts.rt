//! Texts that a query requires at indexed leaves, by which the possible matches are found.
ghost use Rattle.std.specs.Prelude.{IfOk, IfSome};
ghost use Rattle.scim_shelf.specs.Stores.{has_some_text};
ghost use Rattle.scim_search.specs.Lookups.{OnlyThose};
ghost use Rattle.scim_search.specs.Walks.{AreCompared};

use scim_filter_texts::{NeededText, compared_text};
use scim_query::Query;
use scim_schema::{Kind, indexed_leaves};
use scim_shelf::LeafText;
use scim_text::{NoMemory, push};
use std::alloc::Global;

/// Returns the texts as comparisons at their leaves use them, in the same order.
fn compared_texts<'a>(
    alloc: Global,
    needed: &[NeededText<'a>],
) -> Result<Vec<LeafText<'a>>, NoMemory>
    ensures { IfOk result (λ texts. AreCompared needed.now texts.items) }
{
    let mut texts = Vec::new(alloc);
    for own in needed {
        let text = compared_text(own.leaf, own.text);
        push(
            &mut texts,
            LeafText {
                leaf: own.leaf,
                text,
            },
        )?;
    }
    Ok(texts)
}

/// Returns texts of which every match of the kind must have one, each at an indexed leaf;
/// `None` if the query requires no such texts.
pub(crate) fn searched_texts(
    alloc: Global,
    kind: Kind,
    query: &Query,
) -> Result<Option<Vec<LeafText<'_>>>, NoMemory>
    ensures { IfOk result (λ o. IfSome o (λ texts.
        OnlyThose kind query.now.filter (has_some_text texts.items))) }
{
    match query.needed_texts(alloc, indexed_leaves(kind))? {
        Some(needed) => Ok(Some(compared_texts(alloc, needed.as_slice())?)),
        None => Ok(None),
    }
}
