//! A cache of patterns for one request, by resource id.
ghost use Rattle.std.specs.Prelude.{◌≡◌, List, Some, IfSome, OnOk};
ghost use Rattle.std.specs.HashMap.{get};
ghost use Rattle.std.specs.Option.{option_copied};
ghost use Rattle.scim_schema.specs.declared.Kind.{Kind as SpecKind};
ghost use Rattle.scim_cell.specs.Content.{Content};
ghost use Rattle.scim_cell.specs.Equality.{is_same_id};
ghost use Rattle.scim_view.specs.View.{Viewer as SpecViewer};
ghost use Rattle.scim_search.specs.PatternCache as spec;

use scim_cell::Id;
use scim_policy::Patterns;
use scim_text::NoMemory;
use std::alloc::Global;
use std::collections::HashMap;

/// The maximum number of resources whose patterns are cached. Without this limit, a search in which each
/// resource sorts before all earlier ones would cache the patterns on every resource.
const MOST_KEPT: usize = 4_096;

/// A cache of the patterns of reading resources of one kind, by id.
/// With this cache, a request needn't evaluate the targets of the rules on the same resource twice.
#[derive(Drop)]
pub(crate) struct PatternCache<'p> {
    by_id: HashMap<Id, Patterns<'p>>,
}

impl<'p> PatternCache<'p> {
    /// Returns an empty cache, without allocating.
    pub(crate) fn new(alloc: Global) -> PatternCache<'p>
        ensures { (v : SpecViewer) (kind : SpecKind) (cs : List Content)
            → spec.Recalls v kind cs result }
    {
        PatternCache {
            by_id: HashMap::new(alloc),
        }
    }

    /// Returns the cached patterns on the resource with this id; `None` if there aren't any.
    pub(crate) fn of(&self, id: Id) -> Option<&Patterns<'p>>
        ensures value { option_copied result ≡ get is_same_id self.now.by_id id }
        ensures recalls { (v : SpecViewer) (kind : SpecKind) (cs : List Content)
            → spec.Recalls v kind cs self.now
            → IfSome result (λ patterns. spec.AreOn v kind cs id patterns.now) }
    {
        self.by_id.get(&id)
    }

    /// Caches the patterns on the resource with this id.
    /// If the patterns on 4,096 resources are cached already, the cache is cleared first.
    pub(crate) fn keep(&mut self, id: Id, patterns: Patterns<'p>) -> Result<(), NoMemory>
        ensures kept { OnOk result (get is_same_id self.new.by_id id ≡ Some patterns.entry) }
        ensures recalls { OnOk result ((v : SpecViewer) (kind : SpecKind) (cs : List Content)
            → spec.AreOn v kind cs id patterns.entry
            → spec.Recalls v kind cs self.old → spec.Recalls v kind cs self.new) }
    {
        if self.by_id.len() >= MOST_KEPT {
            self.by_id.clear();
        }
        self.by_id.insert(id, patterns)?;
        Ok(())
    }
}
