//! The resources of a store in memory, indexed by id, by unique name and by text.
ghost use Rattle.std.specs.Prelude.{◌≡◌, ◌&&◌, ◌||◌, not, ℕ, List, [], true, cond, IfOk, OnOk, OnErr, map, find, filter, AllPairs, length};
ghost use Rattle.std.specs.Ordering.{nat_cmp};
ghost use Rattle.std.specs.Cmp.Lexicographic.{slice_cmp};
ghost use Rattle.std.specs.BTreeMap.{insert_entry};
ghost use Rattle.std.specs.BTreeSet.{contains};
ghost use Rattle.std.specs.List.{FoldsTo};
ghost use Rattle.std.specs.List.Sorted.{IsPermutation};
ghost use Rattle.std.specs.Option.{option_copied};
ghost use Rattle.scim_cell.specs.Content.{Content};
ghost use Rattle.scim_cell.specs.Kinds.{of_kind};
ghost use Rattle.scim_value.specs.declared.uniqueness.UniqueName.{UniqueName};
ghost use Rattle.scim_value.specs.Uniqueness.{name_of, AreApart};
ghost use Rattle.scim_shelf.specs.Stores.{Store, HasPlace, CanKeep, IsOld, is_at, has_name, is_group_with, with_some_text, those_at, has_text_in, changed, keep, without};
ghost use Rattle.scim_shelf.specs.Collections.{IsCollection};
ghost use Rattle.scim_shelf.specs.Shelves.{TookWindow};
ghost use Rattle.scim_shelf.specs.Indexed.{has_id, has_in, only_of, names_of, before};
ghost use Rattle.scim_shelf.specs.Owners.{is_among};
ghost use Rattle.scim_shelf.specs.KindIds.{HasSameIds, IsInserted};
ghost use Rattle.scim_shelf.specs.IndexedTexts.{is_under, is_under_at, is_under_at_in, is_under_in, is_under_some, is_under_some_in};
ghost use Rattle.scim_shelf.specs.TextIndex.{is_same, is_noted, IsUnnoted, HasSameNotes};

use crate::changes::Change;
use crate::indexed_texts::{indexed_values, texts_beyond, texts_indexed, values_beyond};
use crate::kind_ids::KindIds;
use crate::leaf_texts::{LeafText, has_unindexed};
use crate::owners::Owners;
use crate::shelf::Visitor;
use crate::text_filters::TextFilter;
use crate::text_index::{Holders, TextIndex};
use scim_cell::{Id, Row};
use scim_schema::{Attribute, Kind, Leaf, SubAttribute, indexed_leaves};
use scim_text::NoMemory;
use scim_value::{Resource, UniqueName, unique_names};
use std::alloc::Global;
use std::collections::{BTreeMap, BTreeSet};

/// The resources of a store in memory, indexed by id, by unique name, and by the texts at the leaves of
/// [`indexed_leaves`], members' values among them.
///
/// A look-up by id searches a tree. A look-up by unique name or by text finds the ids in a tree of names or of
/// texts and then searches the tree of resources for each id, without reading the values of any resource. A page
/// of the resources of a kind is found by their ids: it reads none before it. Making a change reads only the stored
/// resource that has the id of the change.
pub struct Collection {
    by_id: BTreeMap<Id, Resource>,
    owners: Owners,
    texts: TextIndex,
    kinds: KindIds,
}

impl Drop for Collection {
    fn drop(self) {
        let Collection {
            by_id: _by_id,
            owners: _owners,
            texts: _texts,
            kinds: _kinds,
        } = self;
    }
}

/// Returns a copy of the resource; `None` if there is no resource.
fn copy_of(alloc: Global, found: Option<&Resource>) -> Result<Option<Resource>, NoMemory>
    ensures { IfOk result (λ copy. copy ≡ option_copied found.entry) }
{
    match found {
        Some(resource) => Ok(Some(resource.try_copy(alloc)?)),
        None => Ok(None),
    }
}

/// Returns the resource if it is of the kind, and `None` otherwise.
fn if_of(kind: Kind, found: Option<&Resource>) -> Option<&Resource>
    ensures { option_copied result ≡ only_of kind (option_copied found.entry) }
{
    match found {
        Some(resource) if resource.kind() == kind => Some(resource),
        _ => None,
    }
}

impl Collection {
    /// Returns an empty collection.
    pub fn new(alloc: Global) -> Collection
        ensures { IsCollection [] result }
    {
        Collection {
            by_id: BTreeMap::new(alloc),
            owners: Owners::new(alloc),
            texts: TextIndex::new(alloc),
            kinds: KindIds::new(alloc),
        }
    }

    /// Returns the collection of these resources, which may come in any order.
    pub fn of(alloc: Global, resources: Vec<Resource>) -> Result<Collection, NoMemory>
        requires { AllPairs AreApart resources.items }
        ensures { IfOk result (λ collection. (cs : List Content) × IsPermutation resources.items cs
            × IsCollection cs collection) }
    {
        let mut collection = Collection::new(alloc);
        let mut left = resources;
        'resources: while let Some(resource) = left.pop() {
            collection.keep(alloc, resource)?;
        }
        Ok(collection)
    }

    /// Returns a copy of the resource of this kind with this id; `None` if there isn't one (RFC 7644 section
    /// 3.4.1).
    pub fn resource_at(
        &self,
        alloc: Global,
        kind: Kind,
        id: Id,
    ) -> Result<Option<Resource>, NoMemory>
        ensures { IfOk result (λ found. (cs : List Content) → IsCollection cs self.now
            → found ≡ find (is_at kind id) cs) }
    {
        copy_of(alloc, if_of(kind, self.with_id(id)))
    }

    /// Returns a copy of the resource that has the unique name; `None` if no resource has it (RFC 7643
    /// section 2.2, uniqueness).
    pub fn name_owner(&self, alloc: Global, name: &UniqueName) -> Result<Option<Resource>, NoMemory>
        ensures { IfOk result (λ found. (cs : List Content) → IsCollection cs self.now
            → found ≡ find (has_name (name_of name.now)) cs) }
    {
        copy_of(alloc, self.named(name))
    }

    /// Returns the user or group with the id; `None` if there isn't one.
    fn with_id(&self, id: Id) -> Option<&Resource>
        ensures { (cs : List Content) → IsCollection cs self.now
            → option_copied result ≡ find (has_id id) cs }
    {
        self.by_id.get(&id)
    }

    /// Returns the stored user or group that has the id of the change; `None` if the id is unused or the
    /// change is `Nothing`.
    pub fn old_of(&self, change: &Change) -> Option<&Resource>
        ensures { (cs : List Content) → IsCollection cs self.now
            → IsOld cs change.now (option_copied result) }
    {
        match change {
            Change::Nothing => None,
            Change::Keep(resource) => self.with_id(resource.id()),
            Change::Remove(_, id) => self.with_id(*id),
        }
    }

    /// Returns the resource that has the unique name; `None` if no resource has it.
    fn named(&self, name: &UniqueName) -> Option<&Resource>
        ensures { (cs : List Content) → IsCollection cs self.now
            → option_copied result ≡ find (has_name (name_of name.now)) cs }
    {
        let id = self.owners.of(name)?;
        self.with_id(id)
    }

    /// Returns the unique names of the resource with the id; an empty list if there is no such resource.
    fn names_at(&self, alloc: Global, id: Id) -> Result<Vec<UniqueName>, NoMemory>
        ensures { IfOk result (λ names. (cs : List Content) → IsCollection cs self.now
            → map name_of names.items ≡ names_of (find (has_id id) cs)) }
    {
        match self.with_id(id) {
            Some(resource) => unique_names(alloc, resource),
            None => Ok(Vec::new(alloc)),
        }
    }

    /// Returns the unique names of the resource with the id that aren't among `names`.
    fn names_gone(
        &self,
        alloc: Global,
        id: Id,
        names: &[UniqueName],
    ) -> Result<Vec<UniqueName>, NoMemory>
        ensures { IfOk result (λ gone. (cs : List Content) → IsCollection cs self.now
            → (q : UniqueName) → is_among q gone.items
            ≡ (has_in (name_of q) (find (has_id id) cs) && not (is_among q names.now))) }
    {
        let mut gone = self.names_at(alloc, id)?;
        gone.retain(|name| !names.contains(name));
        Ok(gone)
    }

    /// Returns the texts under which the stored resource with the id of `new` is indexed, but `new` isn't. Their
    /// index entries are removed when `new` is stored.
    fn texts_gone(&self, alloc: Global, new: &Resource) -> Result<Vec<UniqueName>, NoMemory>
        ensures { IfOk result (λ gone. (cs : List Content) → IsCollection cs self.now
            → (q : UniqueName) → is_among q gone.items
            ≡ (is_under_in q (find (has_id new.now.id) cs) && not (is_under q new.now))) }
    {
        match self.with_id(new.id()) {
            Some(old) => texts_beyond(alloc, old, new),
            None => Ok(Vec::new(alloc)),
        }
    }

    /// Returns the texts under which `new` is indexed, but the stored resource of the same id isn't. Their index
    /// entries are added before `new` is stored.
    fn texts_come(&self, alloc: Global, new: &Resource) -> Result<Vec<UniqueName>, NoMemory>
        ensures { IfOk result (λ come. (cs : List Content) → IsCollection cs self.now
            → (q : UniqueName) → is_among q come.items
            ≡ (is_under q new.now && not (is_under_in q (find (has_id new.now.id) cs)))) }
    {
        let mut come = Vec::new(alloc);
        for leaf in indexed_leaves(new.kind()) {
            let values = self.values_to_note(*leaf, new);
            self.texts
                .push_unnoted(alloc, *leaf, values, new.id(), &mut come)?;
        }
        Ok(come)
    }

    /// Returns the indexed values of `new` at the leaf between the prefix and the suffix that `new` shares with the
    /// stored resource of the same id. The texts in these are already indexed. Returns all indexed values if there
    /// is no stored resource.
    fn values_to_note<'a>(&self, leaf: Leaf, new: &'a Resource) -> &'a [Row]
        ensures { (cs : List Content) → IsCollection cs self.now → (t : List ℕ)
            → (has_text_in leaf t result.now || is_under_at_in leaf t (find (has_id new.now.id) cs))
            ≡ (is_under_at leaf t new.now || is_under_at_in leaf t (find (has_id new.now.id) cs)) }
    {
        match self.with_id(new.id()) {
            Some(old) => values_beyond(leaf, old, new),
            None => indexed_values(leaf, new),
        }
    }

    /// Makes the change. For `Keep` the caller guarantees that no resource with another id shares a unique
    /// name with the new resource, and that no resource of the other kind has the id of the new resource.
    ///
    /// On an error nothing is changed.
    pub fn make(&mut self, alloc: Global, change: Change) -> Result<(), NoMemory>
        ensures ok { OnOk result ((store : Store) → IsCollection store.resources self.old
            → CanKeep store change
            → IsCollection (changed change store.resources) self.new) }
        ensures err { OnErr result ((cs : List Content) → IsCollection cs self.old
            → IsCollection cs self.new) }
    {
        match change {
            Change::Nothing => Ok(()),
            Change::Keep(resource) => self.keep(alloc, resource),
            Change::Remove(_, id) => self.remove(alloc, id),
        }
    }

    /// Stores a resource. A stored resource with the same id is replaced. After an error every look-up
    /// returns what it returned before the call.
    pub fn keep(&mut self, alloc: Global, resource: Resource) -> Result<(), NoMemory>
        ensures ok { OnOk result ((cs : List Content) → IsCollection cs self.old
            → HasPlace cs resource
            → IsCollection (keep resource cs) self.new) }
        ensures err { OnErr result ((cs : List Content) → IsCollection cs self.old
            → IsCollection cs self.new) }
    {
        let id = resource.id();
        let names = unique_names(alloc, &resource)?;
        let names_gone = self.names_gone(alloc, id, names.as_slice())?;
        let names_come = self.owners.unowned(names);
        let gone = self.texts_gone(alloc, &resource)?;
        let come = self.texts_come(alloc, &resource)?;
        self.owners.note(alloc, names_come.as_slice(), id)?;
        if let Err(refused) = self.insert(alloc, resource, come.as_slice()) {
            self.owners.forget(names_come.as_slice());
            return Err(refused);
        }
        self.owners.forget(names_gone.as_slice());
        self.texts.forget(gone.as_slice(), id);
        Ok(())
    }

    /// Stores the resource by its id, and adds the id to those of the kind, and to the index of texts under the
    /// texts `come`. A stored resource with the same id is replaced.
    ///
    /// On an error nothing is changed, provided that the id was indexed under none of these texts before.
    fn insert(
        &mut self,
        alloc: Global,
        resource: Resource,
        come: &[UniqueName],
    ) -> Result<(), NoMemory>
        ensures owners { self.new.owners ≡ self.old.owners }
        ensures resources { OnOk result (self.new.by_id.entries
            ≡ insert_entry (slice_cmp nat_cmp) self.old.by_id.entries resource.id resource) }
        ensures kinds { OnOk result (IsInserted resource.kind resource.id
            self.old.kinds self.new.kinds) }
        ensures noted { OnOk result ((q : UniqueName) (i : List ℕ)
            → is_noted self.new.texts q i
            ≡ cond (is_among q come.now && is_same resource.id i) true
            (is_noted self.old.texts q i)) }
        ensures err_resources { OnErr result (self.new.by_id.entries ≡ self.old.by_id.entries) }
        ensures err_kinds { OnErr result (HasSameIds self.old.kinds self.new.kinds) }
        ensures err_noted { OnErr result (IsUnnoted self.old.texts come.now resource.id
            → HasSameNotes self.old.texts self.new.texts) }
    {
        let kind = resource.kind();
        let id = resource.id();
        let added = self.kinds.insert(kind, id)?;
        if let Err(refused) = self.insert_noted(alloc, resource, come) {
            self.kinds.take_back(kind, id, added);
            return Err(refused);
        }
        Ok(())
    }

    /// Stores the resource by its id, and adds the id to the index of texts under the texts `come`. A stored
    /// resource with the same id is replaced.
    ///
    /// On an error nothing is changed, provided that the id was indexed under none of these texts before.
    fn insert_noted(
        &mut self,
        alloc: Global,
        resource: Resource,
        come: &[UniqueName],
    ) -> Result<(), NoMemory>
        ensures owners { self.new.owners ≡ self.old.owners }
        ensures kinds { self.new.kinds ≡ self.old.kinds }
        ensures resources { OnOk result (self.new.by_id.entries
            ≡ insert_entry (slice_cmp nat_cmp) self.old.by_id.entries resource.id resource) }
        ensures noted { OnOk result ((q : UniqueName) (i : List ℕ)
            → is_noted self.new.texts q i
            ≡ cond (is_among q come.now && is_same resource.id i) true
            (is_noted self.old.texts q i)) }
        ensures err_resources { OnErr result (self.new.by_id.entries ≡ self.old.by_id.entries) }
        ensures err_noted { OnErr result (IsUnnoted self.old.texts come.now resource.id
            → HasSameNotes self.old.texts self.new.texts) }
    {
        let id = resource.id();
        self.texts.note(alloc, come, id)?;
        match self.by_id.insert(id, resource) {
            Ok(_) => Ok(()),
            Err(_) => {
                self.texts.forget(come, id);
                Err(NoMemory)
            }
        }
    }

    /// Returns the texts under which the resource with the id is indexed; an empty list if there is no such
    /// resource.
    fn texts_at(&self, alloc: Global, id: Id) -> Result<Vec<UniqueName>, NoMemory>
        ensures { IfOk result (λ texts. (cs : List Content) → IsCollection cs self.now
            → (q : UniqueName) → is_among q texts.items ≡ is_under_in q (find (has_id id) cs)) }
    {
        match self.with_id(id) {
            Some(resource) => texts_indexed(alloc, resource),
            None => Ok(Vec::new(alloc)),
        }
    }

    /// Removes the user or group with the id, if there is one. On an error nothing is changed.
    fn remove(&mut self, alloc: Global, id: Id) -> Result<(), NoMemory>
        ensures ok { OnOk result ((cs : List Content) → IsCollection cs self.old
            → IsCollection (without id cs) self.new) }
        ensures err { OnErr result ((cs : List Content) → IsCollection cs self.old
            → IsCollection cs self.new) }
    {
        let names = self.names_at(alloc, id)?;
        let texts = self.texts_at(alloc, id)?;
        self.owners.forget(names.as_slice());
        self.texts.forget(texts.as_slice(), id);
        self.by_id.remove(&id);
        self.kinds.remove(id);
        Ok(())
    }

    /// Returns the number of resources.
    pub fn len(&self) -> usize
        ensures { (cs : List Content) → IsCollection cs self.now → result ≡ length cs }
    {
        self.by_id.len()
    }

    /// Passes the resources of the kind to the visitor, in order of id. After an error the visitor is
    /// unusable.
    pub fn show<V: Visitor>(
        &self,
        alloc: Global,
        kind: Kind,
        visitor: &mut V,
    ) -> Result<(), NoMemory>
        ensures { OnOk result ((cs : List Content) → IsCollection cs self.now
            → FoldsTo V.takes visitor.old (of_kind kind cs) visitor.new) }
    {
        for resource in self.by_id.values() {
            if resource.kind() == kind {
                visitor.take(alloc, resource)?;
            }
        }
        Ok(())
    }

    /// Passes at most `count` resources of the kind to the visitor, in order of id, after the first `skipped`, and
    /// returns the number of all resources of the kind. Reads no other resource, and goes no further than the ids
    /// of that window.
    ///
    /// After an error the visitor is unusable.
    pub fn show_from<V: Visitor>(
        &self,
        alloc: Global,
        kind: Kind,
        skipped: usize,
        count: usize,
        visitor: &mut V,
    ) -> Result<usize, NoMemory>
        ensures { IfOk result (λ total. (cs : List Content) → IsCollection cs self.now
            → TookWindow V.takes visitor.old skipped count (of_kind kind cs) visitor.new total) }
    {
        let ids = self.kinds.of(kind);
        let total = ids.len();
        if count == 0 || skipped >= total {
            return Ok(total);
        }
        for id in ids.iter().skip(skipped).take(count) {
            self.show_one(alloc, kind, *id, visitor)?;
        }
        Ok(total)
    }

    /// Passes the resource of the kind with the id to the visitor, if there is one (RFC 7644 section 3.4.1). After an
    /// error the visitor is unusable.
    pub fn show_at<V: Visitor>(
        &self,
        alloc: Global,
        kind: Kind,
        id: Id,
        visitor: &mut V,
    ) -> Result<(), NoMemory>
        ensures { OnOk result ((cs : List Content) → IsCollection cs self.now
            → FoldsTo V.takes visitor.old (those_at kind id cs) visitor.new) }
    {
        match if_of(kind, self.with_id(id)) {
            Some(resource) => visitor.take(alloc, resource),
            None => Ok(()),
        }
    }

    /// Passes the groups that list the value among their members to the visitor, in order of id (RFC 7643
    /// section 4.2). Neither copies a group nor reads its members.
    ///
    /// After an error the visitor is unusable.
    pub fn show_groups_with<V: Visitor>(
        &self,
        alloc: Global,
        value: &str,
        visitor: &mut V,
    ) -> Result<(), NoMemory>
        ensures { OnOk result ((cs : List Content) → IsCollection cs self.now
            → FoldsTo V.takes visitor.old (filter (is_group_with value.now) cs) visitor.new) }
    {
        let leaf = Leaf::of(Attribute::Members, SubAttribute::Value);
        self.show_indexed(alloc, Kind::Group, leaf, value, visitor)
    }

    /// Passes the resources of the kind that have one of the texts at its leaf to the visitor, in order of id, each
    /// once. Reads no other resource if each leaf is indexed for the kind, and all resources, once, otherwise.
    ///
    /// After an error the visitor is unusable.
    pub fn show_of<V: Visitor>(
        &self,
        alloc: Global,
        kind: Kind,
        texts: &[LeafText<'_>],
        visitor: &mut V,
    ) -> Result<(), NoMemory>
        ensures { OnOk result ((cs : List Content) → IsCollection cs self.now
            → FoldsTo V.takes visitor.old (with_some_text kind texts.now cs) visitor.new) }
    {
        if has_unindexed(kind, texts) {
            let mut filter = TextFilter::new(texts, visitor);
            return self.show(alloc, kind, &mut filter);
        }
        self.show_under(alloc, kind, texts, visitor)
    }

    /// Passes the resources of the kind that are indexed under one of the texts to the visitor, in order of id, each
    /// once. After an error the visitor is unusable.
    fn show_under<V: Visitor>(
        &self,
        alloc: Global,
        kind: Kind,
        texts: &[LeafText<'_>],
        visitor: &mut V,
    ) -> Result<(), NoMemory>
        ensures { OnOk result ((cs : List Content) → IsCollection cs self.now
            → FoldsTo V.takes visitor.old
            (filter (is_under_some texts.now) (of_kind kind cs)) visitor.new) }
    {
        if let [one] = texts {
            return self.show_indexed(alloc, kind, one.leaf, one.text, visitor);
        }
        let ids = self.ids_under(alloc, texts)?;
        self.show_several(alloc, kind, &ids, visitor)
    }

    /// Returns the ids of the resources that are indexed under one of the texts.
    fn ids_under(&self, alloc: Global, texts: &[LeafText<'_>]) -> Result<BTreeSet<Id>, NoMemory>
        ensures { IfOk result (λ ids. (cs : List Content) → IsCollection cs self.now
            → (i : List ℕ) → contains (slice_cmp nat_cmp) ids i
            ≡ is_under_some_in texts.now (find (has_id i) cs)) }
    {
        let mut ids = BTreeSet::new(alloc);
        for own in texts {
            self.add_ids_under(alloc, own, &mut ids)?;
        }
        Ok(ids)
    }

    /// Adds to `ids` the ids of the resources that are indexed under the text at the leaf.
    fn add_ids_under(
        &self,
        alloc: Global,
        own: &LeafText<'_>,
        ids: &mut BTreeSet<Id>,
    ) -> Result<(), NoMemory>
        ensures { OnOk result ((cs : List Content) → IsCollection cs self.now
            → (i : List ℕ) → contains (slice_cmp nat_cmp) ids.new i
            ≡ (contains (slice_cmp nat_cmp) ids.old i
            || is_under_at_in own.now.leaf own.now.text.now (find (has_id i) cs))) }
    {
        let text = String::from_str(alloc, own.text)?;
        let leaf = own.leaf;
        match self.texts.of(&UniqueName { leaf, text }) {
            Some(holders) => holders.add_to(ids),
            None => Ok(()),
        }
    }

    /// Passes the resources of the kind that are indexed under the text at the leaf to the visitor, in order of
    /// id. After an error the visitor is unusable.
    fn show_indexed<V: Visitor>(
        &self,
        alloc: Global,
        kind: Kind,
        leaf: Leaf,
        text: &str,
        visitor: &mut V,
    ) -> Result<(), NoMemory>
        ensures { OnOk result ((cs : List Content) → IsCollection cs self.now
            → FoldsTo V.takes visitor.old
            (filter (is_under_at leaf text.now) (of_kind kind cs)) visitor.new) }
    {
        let text = String::from_str(alloc, text)?;
        match self.texts.of(&UniqueName { leaf, text }) {
            Some(Holders::One(id)) => self.show_one(alloc, kind, *id, visitor),
            Some(Holders::Several(ids)) => self.show_several(alloc, kind, ids, visitor),
            None => Ok(()),
        }
    }

    /// Passes the resource with the id to the visitor, if there is one and it is of the kind. After an error the
    /// visitor is unusable.
    fn show_one<V: Visitor>(
        &self,
        alloc: Global,
        kind: Kind,
        id: Id,
        visitor: &mut V,
    ) -> Result<(), NoMemory>
        ensures { OnOk result ((cs : List Content) → IsCollection cs self.now
            → FoldsTo V.takes visitor.old
            (of_kind kind (before (find (has_id id) cs) [])) visitor.new) }
    {
        match self.with_id(id) {
            Some(resource) if resource.kind() == kind => visitor.take(alloc, resource),
            _ => Ok(()),
        }
    }

    /// Passes the resources of the kind with these ids to the visitor, in order of id. After an error the visitor
    /// is unusable.
    fn show_several<V: Visitor>(
        &self,
        alloc: Global,
        kind: Kind,
        ids: &BTreeSet<Id>,
        visitor: &mut V,
    ) -> Result<(), NoMemory>
        ensures { OnOk result ((cs : List Content) → IsCollection cs self.now
            → FoldsTo V.takes visitor.old
            (of_kind kind (filter (λ c. contains (slice_cmp nat_cmp) ids.now c.id) cs))
            visitor.new) }
    {
        for id in ids {
            self.show_one(alloc, kind, *id, visitor)?;
        }
        Ok(())
    }
}
