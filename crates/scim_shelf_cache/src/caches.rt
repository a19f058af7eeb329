//! A shelf that caches the resources of the shelf below it in memory.
ghost use Rattle.std.specs.Prelude.{◌≡◌, [], List, None, true, false, IsTrue, IsSome, ◌↔◌, IfSome, IfOk, IfErr, OnOk, OnErr, length};
ghost use Rattle.std.specs.Option.{option_copied};
ghost use Rattle.std.specs.Borrow.{Lends, sem};
ghost use Rattle.scim_shelf_cache.specs.contracts.caches.CachedShelf.{the_row};
ghost use Rattle.scim_cell.specs.Content.{Content};
ghost use Rattle.scim_shelf.specs.Stores.{Store, CanKeep, changed};
ghost use Rattle.scim_shelf.specs.Shelves.{OnlyReads};
ghost use Rattle.scim_shelf.specs.Collections.{IsCollection};
ghost use Rattle.scim_shelf_cache.specs.declared.caches.Cache.{Cache};
ghost use Rattle.scim_shelf_cache.specs.Caches.{AreThose, HasCached, HasKeyed, HoldsInCache, IsCached, IsFilled, IsInRound, IsWhole, KeepsCache, collection_in, commits_in, is_ahead, is_in_round, lower_of, with_lower};

use crate::contents::CacheContents;
use crate::rounds::{RoundCommit, commit_ahead, commits_of};
use scim_audit::AuditRow;
use scim_cell::Id;
use scim_schema::Kind;
use scim_shelf::{
    BatchShelf, Change, Collection, LeafText, Shelf, ShelfFault, Visitor, collection_of,
};
use scim_text::Failed;
use scim_value::{Resource, UniqueName};
use std::alloc::Global;
use std::mem;

/// The cache of a shelf.
pub(crate) enum Cache {
    /// Reads go to the shelf below.
    Empty,
    /// The resources of the shelf below.
    Filled(Collection),
    /// The resources after the commits of the round under way, which the shelf below doesn't have yet.
    Ahead(Collection, Vec<RoundCommit>),
}

impl Drop for Cache {
    fn drop(self) {
        match self {
            Cache::Empty => (),
            Cache::Filled(_resources) => (),
            Cache::Ahead(_resources, _commits) => (),
        }
    }
}

impl Cache {
    /// Returns the cache of the resources that `contents` has copied; an empty one if it has no copies.
    fn of(contents: CacheContents) -> Cache
        ensures resources { collection_in result ≡ contents.resources }
        ensures none { commits_in result ≡ [] }
    {
        match contents.resources {
            Some(resources) => Cache::Filled(resources),
            None => Cache::Empty,
        }
    }

    /// Returns the resources in the cache; `None` if it isn't filled.
    fn collection(&self) -> Option<&Collection>
        ensures resources { (cs : List Content) → AreThose cs (collection_in self.now)
            → IfSome result (λ resources. IsCollection cs resources.now) }
        ensures filled { IsSome result ↔ IsSome (collection_in self.now) }
        ensures none { result ≡ None → commits_in self.now ≡ [] }
    {
        match self {
            Cache::Empty => None,
            Cache::Filled(resources) => Some(resources),
            Cache::Ahead(resources, _) => Some(resources),
        }
    }

    /// Returns the resources of a filled cache outside a round, or any other cache as it is.
    fn into_filled(self) -> Result<Collection, Cache>
        ensures ok { IfOk result (λ resources. self ≡ Cache.Filled resources) }
        ensures err { IfErr result (λ cache. (cache ≡ self)
            × (is_ahead self ≡ false → self ≡ Cache.Empty)) }
    {
        match self {
            Cache::Filled(resources) => Ok(resources),
            cache => Err(cache),
        }
    }

    /// Returns the resources and the commits of the round that is under way, or any other cache as it is.
    fn into_ahead(self) -> Result<(Collection, Vec<RoundCommit>), Cache>
        ensures ok { IfOk result (λ parts. self ≡ Cache.Ahead parts.0 parts.1) }
        ensures err { IfErr result (λ cache. (cache ≡ self) × (is_ahead self ≡ false)
            × (commits_in self ≡ [])) }
    {
        match self {
            Cache::Ahead(resources, commits) => Ok((resources, commits)),
            cache => Err(cache),
        }
    }

    /// Takes the resources out of a filled cache outside a round, which is empty then. Returns `None`, and changes
    /// nothing, if there are none or a round is under way.
    fn take_filled(&mut self) -> Option<Collection>
        ensures some { IfSome result (λ resources. (self.old ≡ Cache.Filled resources)
            × (self.new ≡ Cache.Empty)) }
        ensures none { result ≡ None → (self.new ≡ self.old)
            × (is_ahead self.old ≡ false → self.old ≡ Cache.Empty) }
    {
        match mem::replace(self, Cache::Empty).into_filled() {
            Ok(resources) => Some(resources),
            Err(cache) => {
                *self = cache;
                None
            }
        }
    }

    /// Takes the resources and the commits of the round that is under way out of the cache, which is empty then.
    /// Returns `None`, and changes nothing, if no round is under way.
    fn take_ahead(&mut self) -> Option<(Collection, Vec<RoundCommit>)>
        ensures some { IfSome result (λ parts. (self.old ≡ Cache.Ahead parts.0 parts.1)
            × (self.new ≡ Cache.Empty)) }
        ensures none { result ≡ None → (self.new ≡ self.old) × (is_ahead self.old ≡ false)
            × (commits_in self.old ≡ []) }
    {
        match mem::replace(self, Cache::Empty).into_ahead() {
            Ok(parts) => Some(parts),
            Err(cache) => {
                *self = cache;
                None
            }
        }
    }

    /// Whether a round is under way.
    fn is_ahead(&self) -> bool
        ensures { result ≡ is_ahead self.now }
    {
        matches!(self, Cache::Ahead(_, _))
    }
}

/// A shelf that caches the resources of another shelf, the shelf below, in memory.
///
/// Until the cache is filled, reads go to the shelf below; afterwards the cache serves them. A commit goes to the
/// shelf below first and then updates the cache. If that update can't allocate, the commit remains, but the cache
/// is dropped, and reads go to the shelf below until the cache is filled again. A commit lends its change to the
/// shelf below, and then moves it into the cache. Audit rows are only in the shelf below.
///
/// In a round a commit updates the cache alone; `settle` hands the commits of the round to the shelf below, which
/// commits them together. If that fails, the cache is dropped, and so are they. A round needs a filled cache.
///
/// The cache misses what others write to the shelf below: it is correct only while nobody else writes there.
#[derive(Drop)]
pub struct CachedShelf<S> {
    cache: Cache,
    lower: S,
}

impl<S: BatchShelf> CachedShelf<S> {
    /// Returns a shelf over the shelf `lower`, with a cache that isn't filled yet.
    pub fn over(lower: S) -> CachedShelf<S>
        ensures lower { lower_of result ≡ lower }
        ensures stands { (store : Store) → S.stands lower store
            → ⟦<CachedShelf<S> as Shelf>⟧.stands result store }
    {
        CachedShelf {
            cache: Cache::Empty,
            lower,
        }
    }

    /// Returns a shelf over the shelf `lower`, with a cache of the resources that `contents` has copied. These
    /// must be all resources of `lower`. If `contents` has no copies, the cache isn't filled.
    pub fn with_contents(lower: S, contents: CacheContents) -> CachedShelf<S>
        ensures lower { lower_of result ≡ lower }
        ensures filled { IsFilled result ↔ IsWhole contents }
        ensures stands { (store : Store) → S.stands lower store
            → (S.is_honest lower → HasCached store.resources contents)
            → ⟦<CachedShelf<S> as Shelf>⟧.stands result store }
    {
        CachedShelf {
            cache: Cache::of(contents),
            lower,
        }
    }

    /// Reads all resources of the shelf below into the cache, in place of what the cache held. No two of them
    /// may have the same id or share a unique name (RFC 7643 sections 2.2 and 3.1). After Ok the cache is
    /// correct again, even if others had written to the shelf below.
    ///
    /// Fails with `Device` if the shelf below does, or with `NoMemory`; also with `NoMemory` in a round. On any error the cache is unchanged:
    /// if it wasn't filled, reads still go to the shelf below, so the caller may continue after `NoMemory`.
    pub fn fill(&mut self, alloc: Global) -> Result<(), Failed<ShelfFault>>
        ensures filled { OnOk result (IsFilled self.new) }
        ensures anew { OnOk result ((store : Store) → HasKeyed S.stands (lower_of self.old) store
            → HasKeyed ⟦<CachedShelf<S> as Shelf>⟧.stands self.new store) }
        ensures kept { OnErr result (KeepsCache self.old self.new) }
        ensures lower { OnlyReads S.stands S.is_honest S.failures S.has_round
            (lower_of self.old) (lower_of self.new) result }
        ensures read { OnlyReads (HasKeyed ⟦<CachedShelf<S> as Shelf>⟧.stands)
            ⟦<CachedShelf<S> as Shelf>⟧.is_honest ⟦<CachedShelf<S> as Shelf>⟧.failures ⟦<CachedShelf<S> as Shelf>⟧.has_round
            self.old self.new result }
    {
        if self.cache.is_ahead() {
            return Err(Failed::NoMemory);
        }
        let resources = collection_of(alloc, &mut self.lower)?;
        self.cache = Cache::Filled(resources);
        Ok(())
    }

    /// Whether the cache is filled.
    pub fn is_filled(&self) -> bool
        ensures { IsTrue result ↔ IsFilled self.now }
    {
        self.cache.collection().is_some()
    }

    /// Returns the number of resources in the cache; `None` if it isn't filled.
    pub fn cached(&self) -> Option<usize>
        ensures filled { IsSome result ↔ IsFilled self.now }
        ensures count { (cs : List Content) → HoldsInCache cs self.now
            → IfSome result (λ n. n ≡ length cs) }
    {
        match self.cache.collection() {
            Some(resources) => Some(resources.len()),
            None => None,
        }
    }

    /// Whether a round is under way. Then the shelf below doesn't have its commits yet.
    pub fn is_in_round(&self) -> bool
        ensures { result ≡ is_in_round self.now }
    {
        self.cache.is_ahead()
    }

    /// Returns the shelf below, for access to data that isn't cached, such as audit rows. A change made
    /// through this reference doesn't update the cache: it counts as a write by others.
    pub fn lower_mut(&mut self) -> &mut S
        ensures* writes_back { sem 𝓛
            (Lends (the_row S.row) S.row self.entry result (λ lower. with_lower self.old lower)) }
        ensures shows { result.now ≡ lower_of self.old }
    {
        &mut self.lower
    }

    /// Returns the shelf below, which has all committed changes.
    pub fn into_lower(self) -> S
        ensures { result ≡ lower_of self }
    {
        let CachedShelf { lower, .. } = self;
        lower
    }
}

/// Returns the cache after a change of its resources; an empty one if memory ran out.
fn follow(alloc: Global, resources: Collection, change: Change) -> Cache
    ensures resources { (store : Store) → IsCollection store.resources resources
        → CanKeep store change
        → AreThose (changed change store.resources) (collection_in result) }
    ensures none { commits_in result ≡ [] }
    ensures settled { is_ahead result ≡ false }
{
    let mut resources = resources;
    match resources.make(alloc, change) {
        Ok(()) => Cache::Filled(resources),
        Err(_) => Cache::Empty,
    }
}

impl<S: BatchShelf> Shelf for CachedShelf<S> {
    ghost stands = { λ shelf store. IsCached S.stands S.is_honest shelf store };

    ghost is_honest = { λ shelf. S.is_honest shelf.lower };

    ghost failures = { λ shelf. S.failures shelf.lower };

    ghost has_round = { λ shelf round. IsInRound S.stands S.has_round shelf round };

    fn by_id(
        &mut self,
        alloc: Global,
        kind: Kind,
        id: Id,
    ) -> Result<Option<Resource>, Failed<ShelfFault>> {
        match self.cache.collection() {
            Some(resources) => Ok(resources.resource_at(alloc, kind, id)?),
            None => self.lower.by_id(alloc, kind, id),
        }
    }

    fn lend_by_id<V: Visitor>(
        &mut self,
        alloc: Global,
        kind: Kind,
        id: Id,
        visitor: &mut V,
    ) -> Result<(), Failed<ShelfFault>> {
        match self.cache.collection() {
            Some(resources) => Ok(resources.show_at(alloc, kind, id, visitor)?),
            None => self.lower.lend_by_id(alloc, kind, id, visitor),
        }
    }

    fn name_owner(
        &mut self,
        alloc: Global,
        name: &UniqueName,
    ) -> Result<Option<Resource>, Failed<ShelfFault>> {
        match self.cache.collection() {
            Some(resources) => Ok(resources.name_owner(alloc, name)?),
            None => self.lower.name_owner(alloc, name),
        }
    }

    fn groups_with<V: Visitor>(
        &mut self,
        alloc: Global,
        value: &str,
        visitor: &mut V,
    ) -> Result<(), Failed<ShelfFault>> {
        match self.cache.collection() {
            Some(resources) => Ok(resources.show_groups_with(alloc, value, visitor)?),
            None => self.lower.groups_with(alloc, value, visitor),
        }
    }

    fn each<V: Visitor>(
        &mut self,
        alloc: Global,
        kind: Kind,
        visitor: &mut V,
    ) -> Result<(), Failed<ShelfFault>> {
        match self.cache.collection() {
            Some(resources) => Ok(resources.show(alloc, kind, visitor)?),
            None => self.lower.each(alloc, kind, visitor),
        }
    }

    fn each_of<V: Visitor>(
        &mut self,
        alloc: Global,
        kind: Kind,
        texts: &[LeafText<'_>],
        visitor: &mut V,
    ) -> Result<(), Failed<ShelfFault>> {
        match self.cache.collection() {
            Some(resources) => Ok(resources.show_of(alloc, kind, texts, visitor)?),
            None => self.lower.each_of(alloc, kind, texts, visitor),
        }
    }

    fn each_from<V: Visitor>(
        &mut self,
        alloc: Global,
        kind: Kind,
        skipped: usize,
        count: usize,
        visitor: &mut V,
    ) -> Result<usize, Failed<ShelfFault>> {
        match self.cache.collection() {
            Some(resources) => Ok(resources.show_from(alloc, kind, skipped, count, visitor)?),
            None => self.lower.each_from(alloc, kind, skipped, count, visitor),
        }
    }

    fn commit(
        &mut self,
        alloc: Global,
        change: Change,
        row: AuditRow,
    ) -> Result<(), Failed<ShelfFault>> {
        if let Some((resources, commits)) = self.cache.take_ahead() {
            let (mut resources, mut commits) = (resources, commits);
            let done = commit_ahead(alloc, &mut resources, &mut commits, change, row);
            self.cache = Cache::Ahead(resources, commits);
            done?;
            return Ok(());
        }
        let Some(resources) = self.cache.take_filled() else {
            return self.lower.commit(alloc, change, row);
        };
        let old = resources.old_of(&change);
        match self.lower.commit_over(alloc, old, &change, &row) {
            Ok(()) => {
                self.cache = follow(alloc, resources, change);
                Ok(())
            }
            Err(fault) => {
                self.cache = Cache::Filled(resources);
                Err(fault)
            }
        }
    }

    fn begin_round(&mut self, alloc: Global) -> bool {
        let Some(resources) = self.cache.take_filled() else {
            return false;
        };
        self.cache = Cache::Ahead(resources, Vec::new(alloc));
        true
    }

    fn settle(&mut self, alloc: Global) -> Result<(), Failed<ShelfFault>> {
        let Some((resources, own)) = self.cache.take_ahead() else {
            return Ok(());
        };
        let commits = commits_of(alloc, own.as_slice())?;
        self.lower.commit_all(alloc, commits.as_slice())?;
        self.cache = Cache::Filled(resources);
        Ok(())
    }

    fn failures(&self) -> u64 {
        self.lower.failures()
    }
}
