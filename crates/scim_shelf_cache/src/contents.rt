//! Copies of all resources of a shelf, for a cache.
ghost use Rattle.std.specs.Prelude.{[], List};
ghost use Rattle.scim_cell.specs.Content.{Content};
ghost use Rattle.scim_shelf.specs.Stores.{HasPlace, keep};
ghost use Rattle.scim_shelf_cache.specs.Caches.{AreThose, HasCached, IsWhole};

use scim_shelf::{Collection, Visitor};
use scim_text::NoMemory;
use scim_value::Resource;
use std::alloc::Global;

/// A visitor that copies each resource for a cache; see [`crate::CachedShelf::with_contents`]. If memory runs
/// out, it drops its copies and copies nothing more, so that taking a resource never fails.
#[derive(Drop)]
pub struct CacheContents {
    /// The copies; `None` if it copies nothing.
    pub(crate) resources: Option<Collection>,
}

impl CacheContents {
    /// Returns a visitor that has copied no resource yet.
    pub fn new(alloc: Global) -> CacheContents
        ensures cached { HasCached [] result }
        ensures whole { IsWhole result }
    {
        CacheContents {
            resources: Some(Collection::new(alloc)),
        }
    }

    /// Returns a visitor that copies nothing, for a shelf without a cache.
    pub fn none() -> CacheContents
        ensures { (cs : List Content) → HasCached cs result }
    {
        CacheContents { resources: None }
    }
}

impl Visitor for CacheContents {
    ghost use Rattle.scim_shelf_cache.specs.Caches.{Caches};

    ghost takes = { Caches };

    fn take(&mut self, alloc: Global, resource: &Resource) -> Result<(), NoMemory> {
        self.resources = with_copy(alloc, self.resources.take(), resource);
        Ok(())
    }
}

/// Returns the collection with a copy of the resource; `None` if there was no collection or memory ran out.
fn with_copy(
    alloc: Global,
    resources: Option<Collection>,
    resource: &Resource,
) -> Option<Collection>
    ensures { (cs : List Content) → AreThose cs resources → HasPlace cs resource.now
        → AreThose (keep resource.now cs) result }
{
    let mut resources = resources?;
    let Ok(copy) = resource.try_copy(alloc) else {
        return None;
    };
    match resources.keep(alloc, copy) {
        Ok(()) => Some(resources),
        Err(_) => None,
    }
}
