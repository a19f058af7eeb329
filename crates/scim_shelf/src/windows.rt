//! A visitor that passes on the resources of a window.
ghost use Rattle.std.specs.Prelude.{◌≡◌, ◌≤◌, ◌+◌, IsTrue, ◌↔◌};
ghost use Rattle.scim_shelf.specs.Windows.{PassesWindow};

use crate::shelf::Visitor;
use scim_text::NoMemory;
use scim_value::Resource;
use std::alloc::Global;

/// A visitor that counts the resources that it is shown, skips the first `skipped`, and passes the next `count` on
/// to another visitor.
#[derive(Drop)]
pub(crate) struct Window<'v, V> {
    skipped: usize,
    count: usize,
    /// The number of resources shown so far.
    shown: usize,
    visitor: &'v mut V,
}

impl<'v, V: Visitor> Window<'v, V> {
    /// Returns a window that passes on to `visitor`, and was shown nothing.
    pub(crate) fn new(skipped: usize, count: usize, visitor: &'v mut V) -> Window<'v, V>
        ensures same_reference { result.visitor.ghost_name ≡ visitor.entry.ghost_name }
        ensures visitor { result.visitor.now ≡ visitor.old }
        ensures skipped { result.skipped ≡ skipped }
        ensures count { result.count ≡ count }
        ensures shown { result.shown ≡ 0 }
    {
        Window {
            skipped,
            count,
            shown: 0,
            visitor,
        }
    }

    /// Returns the number of resources shown so far.
    pub(crate) fn shown(&self) -> usize
        ensures { result ≡ self.now.shown }
    {
        self.shown
    }

    /// Whether the window ends before the next resource.
    fn is_past(&self) -> bool
        ensures { IsTrue result ↔ (self.now.skipped + self.now.count ≤ self.now.shown) }
    {
        self.shown >= self.skipped && self.shown - self.skipped >= self.count
    }
}

impl<'v, V: Visitor> Visitor for Window<'v, V> {
    ghost takes = { PassesWindow V.takes };

    fn take(&mut self, alloc: Global, resource: &Resource) -> Result<(), NoMemory> {
        let shown = self.shown.checked_add(1).ok_or(NoMemory)?;
        if self.shown >= self.skipped && !self.is_past() {
            self.visitor.take(alloc, resource)?;
        }
        self.shown = shown;
        Ok(())
    }
}
