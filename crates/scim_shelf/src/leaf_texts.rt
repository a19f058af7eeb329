//! Texts at leaves, by which resources are looked up.
ghost use Rattle.std.specs.Prelude.{◌≡◌, IfOk};
ghost use Rattle.scim_cell.specs.Rows.{atom_in};
ghost use Rattle.scim_shelf.specs.IndexedTexts as indexed;
ghost use Rattle.scim_shelf.specs.Stores as spec;
ghost use Rattle.scim_shelf.specs.Stores.{is_compared};

use crate::indexed_texts::{compared, is_indexed, text_at};
use scim_cell::Row;
use scim_schema::{Kind, Leaf, unit_of};
use scim_text::NoMemory;
use scim_value::Resource;
use std::alloc::Global;

/// A text at a leaf, as comparisons use it: folded unless the leaf is caseExact (RFC 7643 section 2.2).
#[derive(Clone, Copy)]
pub struct LeafText<'t> {
    pub leaf: Leaf,
    pub text: &'t str,
}

/// Whether a value has the text at the leaf, as comparisons use it.
fn has_compared(alloc: Global, leaf: Leaf, text: &str, value: &Row) -> Result<bool, NoMemory>
    ensures { IfOk result (λ has. has ≡ is_compared leaf text.now (atom_in leaf value.now.fields)) }
{
    match text_at(leaf, value) {
        Some(own) => Ok(compared(alloc, leaf, own)?.as_str() == text),
        None => Ok(false),
    }
}

/// Whether a value of the resource has the text at the leaf, as comparisons use it.
fn has_text(alloc: Global, leaf: Leaf, text: &str, resource: &Resource) -> Result<bool, NoMemory>
    ensures { IfOk result (λ has. has ≡ spec.has_text leaf text.now resource.now) }
{
    for value in resource.part().values(unit_of(leaf)) {
        if has_compared(alloc, leaf, text, value)? {
            return Ok(true);
        }
    }
    Ok(false)
}

/// Whether the resource has one of the texts at its leaf.
pub(crate) fn has_some_text(
    alloc: Global,
    texts: &[LeafText<'_>],
    resource: &Resource,
) -> Result<bool, NoMemory>
    ensures { IfOk result (λ has. has ≡ spec.has_some_text texts.now resource.now) }
{
    for own in texts {
        if has_text(alloc, own.leaf, own.text, resource)? {
            return Ok(true);
        }
    }
    Ok(false)
}

/// Whether one of the texts is at a leaf whose texts aren't indexed for the kind.
pub(crate) fn has_unindexed(kind: Kind, texts: &[LeafText<'_>]) -> bool
    ensures { result ≡ indexed.has_unindexed kind texts.now }
{
    for own in texts {
        if !is_indexed(kind, own.leaf) {
            return true;
        }
    }
    false
}
