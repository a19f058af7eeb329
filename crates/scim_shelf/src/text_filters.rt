//! A visitor that passes on the resources that have one of several texts.
ghost use Rattle.std.specs.Prelude.{◌≡◌};
ghost use Rattle.scim_shelf.specs.TextFilters.{PassesOn};

use crate::leaf_texts::{LeafText, has_some_text};
use crate::shelf::Visitor;
use scim_text::NoMemory;
use scim_value::Resource;
use std::alloc::Global;

/// A visitor that passes the resources that have one of the texts on to another visitor.
#[derive(Drop)]
pub(crate) struct TextFilter<'t, 'v, V> {
    texts: &'t [LeafText<'t>],
    visitor: &'v mut V,
}

impl<'t, 'v, V: Visitor> TextFilter<'t, 'v, V> {
    /// Returns a filter that passes on to `visitor`.
    pub(crate) fn new(texts: &'t [LeafText<'t>], visitor: &'v mut V) -> TextFilter<'t, 'v, V>
        ensures same_reference { result.visitor.ghost_name ≡ visitor.entry.ghost_name }
        ensures visitor { result.visitor.now ≡ visitor.old }
        ensures texts { result.texts.now ≡ texts.now }
    {
        TextFilter { texts, visitor }
    }
}

impl<'t, 'v, V: Visitor> Visitor for TextFilter<'t, 'v, V> {
    ghost takes = { PassesOn V.takes };

    fn take(&mut self, alloc: Global, resource: &Resource) -> Result<(), NoMemory> {
        if has_some_text(alloc, self.texts, resource)? {
            self.visitor.take(alloc, resource)?;
        }
        Ok(())
    }
}
