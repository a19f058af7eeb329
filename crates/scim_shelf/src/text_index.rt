//! An index of resources by the texts that they have.
ghost use Rattle.std.specs.Prelude.{◌≡◌, ◌&&◌, ◌||◌, not, ℕ, List, true, false, cond, string_bytes, IfOk, OnOk, OnErr};
ghost use Rattle.std.specs.Ordering.{nat_cmp};
ghost use Rattle.std.specs.BTreeSet.{contains};
ghost use Rattle.std.specs.Cmp.Lexicographic.{slice_cmp};
ghost use Rattle.std.specs.Option.{option_copied};
ghost use Rattle.scim_schema.specs.Units.{is_same_leaf};
ghost use Rattle.scim_value.specs.declared.uniqueness.UniqueName.{UniqueName as SpecName};
ghost use Rattle.scim_shelf.specs.Stores.{has_text_in};
ghost use Rattle.scim_shelf.specs.Owners.{is_alike, is_among};
ghost use Rattle.scim_shelf.specs.TextIndex.{is_same, is_holder, holders_at, is_noted, IsUnnoted, HasSameNotes};

use crate::indexed_texts::{compared, text_at};
use crate::owners::copy_of;
use scim_cell::{Id, Row};
use scim_schema::Leaf;
use scim_text::{NoMemory, push};
use scim_value::UniqueName;
use std::alloc::Global;
use std::collections::{BTreeMap, BTreeSet};

/// The ids of the resources that are indexed under one text. Usually there is only one id.
#[derive(Drop)]
pub(crate) enum Holders {
    /// One id, which needs no allocation of its own.
    One(Id),
    /// A set of ids, which may be large.
    Several(BTreeSet<Id>),
}

/// Returns the set of these two ids.
fn both(alloc: Global, one: Id, other: Id) -> Result<BTreeSet<Id>, NoMemory>
    ensures { IfOk result (λ ids. (i : List ℕ)
        → contains (slice_cmp nat_cmp) ids i ≡ cond (is_same one i) true (is_same other i)) }
{
    let mut ids = BTreeSet::new(alloc);
    ids.insert(other)?;
    ids.insert(one)?;
    Ok(ids)
}

/// Adds the ids of the set `others` to `ids`.
fn add_all(others: &BTreeSet<Id>, ids: &mut BTreeSet<Id>) -> Result<(), NoMemory>
    ensures { OnOk result ((i : List ℕ) → contains (slice_cmp nat_cmp) ids.new i
        ≡ cond (contains (slice_cmp nat_cmp) others.now i) true
        (contains (slice_cmp nat_cmp) ids.old i)) }
{
    for id in others {
        ids.insert(*id)?;
    }
    Ok(())
}

impl Holders {
    /// Whether the id is in the set.
    fn has(&self, id: Id) -> bool
        ensures { result ≡ is_holder id self.now }
    {
        match self {
            Holders::One(other) => *other == id,
            Holders::Several(ids) => ids.contains(&id),
        }
    }

    /// Adds the id. On an error nothing is changed.
    fn add(&mut self, alloc: Global, id: Id) -> Result<(), NoMemory>
        ensures ok { OnOk result ((i : List ℕ)
            → is_holder i self.new ≡ cond (is_same id i) true (is_holder i self.old)) }
        ensures err { OnErr result ((i : List ℕ) → is_holder i self.new ≡ is_holder i self.old) }
    {
        match self {
            Holders::One(other) => {
                if *other != id {
                    *self = Holders::Several(both(alloc, id, *other)?);
                }
            }
            Holders::Several(ids) => {
                ids.insert(id)?;
            }
        }
        Ok(())
    }

    /// Adds the ids of the set to `ids`.
    pub(crate) fn add_to(&self, ids: &mut BTreeSet<Id>) -> Result<(), NoMemory>
        ensures { OnOk result ((i : List ℕ) → contains (slice_cmp nat_cmp) ids.new i
            ≡ cond (is_holder i self.now) true (contains (slice_cmp nat_cmp) ids.old i)) }
    {
        match self {
            Holders::One(id) => {
                ids.insert(*id)?;
                Ok(())
            }
            Holders::Several(others) => add_all(others, ids),
        }
    }

    /// Removes the id, and returns whether the set has no other id. If so, the id may still be in the set,
    /// and the caller must drop the set.
    fn drops_last(&mut self, id: Id) -> bool
        ensures last { result ≡ true → (i : List ℕ)
            → cond (is_same id i) false (is_holder i self.old) ≡ false }
        ensures left { result ≡ false → (i : List ℕ)
            → is_holder i self.new ≡ cond (is_same id i) false (is_holder i self.old) }
    {
        match self {
            Holders::One(other) => *other == id,
            Holders::Several(ids) => {
                ids.remove(&id);
                ids.is_empty()
            }
        }
    }
}

/// An index from texts to the ids of the resources that have them. A text is a [`UniqueName`]: the leaf, and the
/// text that comparisons use; it needn't be unique.
///
/// In a collection a resource is indexed under exactly the texts that it has at the leaves of
/// [`scim_schema::indexed_leaves`], so a look-up needn't read the resource. The map is ordered, so no choice of
/// texts makes a look-up slow. Several ids under one text are kept in a tree.
#[derive(Drop)]
pub(crate) struct TextIndex {
    by_text: BTreeMap<UniqueName, Holders>,
}

impl TextIndex {
    /// Returns an empty index.
    pub(crate) fn new(alloc: Global) -> TextIndex
        ensures { (q : SpecName) (i : List ℕ) → is_noted result q i ≡ false }
    {
        TextIndex {
            by_text: BTreeMap::new(alloc),
        }
    }

    /// Returns the ids that are indexed under a text; `None` if there aren't any.
    pub(crate) fn of(&self, text: &UniqueName) -> Option<&Holders>
        ensures { option_copied result ≡ holders_at self.now text.now }
    {
        self.by_text.get(text)
    }

    /// Adds the id under the text. On an error nothing is changed.
    fn note_one(&mut self, alloc: Global, text: &UniqueName, id: Id) -> Result<(), NoMemory>
        ensures ok { OnOk result ((q : SpecName) (i : List ℕ)
            → is_noted self.new q i ≡ cond (is_alike text.now q && is_same id i) true
            (is_noted self.old q i)) }
        ensures err { OnErr result (HasSameNotes self.old self.new) }
    {
        if let Some(holders) = self.by_text.get_mut(text) {
            return holders.add(alloc, id);
        }
        let text = copy_of(alloc, text)?;
        self.by_text.insert(text, Holders::One(id))?;
        Ok(())
    }

    /// Removes the id from under the text.
    fn forget_one(&mut self, text: &UniqueName, id: Id)
        ensures { (q : SpecName) (i : List ℕ) → is_noted self.new q i
            ≡ cond (is_alike text.now q && is_same id i) false (is_noted self.old q i) }
    {
        let Some(holders) = self.by_text.get_mut(text) else {
            return;
        };
        if holders.drops_last(id) {
            self.by_text.remove(text);
        }
    }

    /// Whether the id is indexed under the text.
    fn has(&self, text: &UniqueName, id: Id) -> bool
        ensures { result ≡ is_noted self.now text.now id }
    {
        match self.of(text) {
            Some(holders) => holders.has(id),
            None => false,
        }
    }

    /// Appends to `come` the texts of these values at the leaf under which the id isn't indexed.
    pub(crate) fn push_unnoted(
        &self,
        alloc: Global,
        leaf: Leaf,
        values: &[Row],
        id: Id,
        come: &mut Vec<UniqueName>,
    ) -> Result<(), NoMemory>
        ensures { OnOk result ((q : SpecName) → is_among q come.new.items
            ≡ (is_among q come.old.items || (is_same_leaf leaf q.leaf
            && (has_text_in leaf (string_bytes q.text) values.now
            && not (is_noted self.now q id))))) }
    {
        for value in values {
            if let Some(text) = text_at(leaf, value) {
                let text = compared(alloc, leaf, text)?;
                let name = UniqueName { leaf, text };
                if !self.has(&name, id) {
                    push(come, name)?;
                }
            }
        }
        Ok(())
    }

    /// Adds the id under each of these texts.
    ///
    /// On an error the index is unchanged, provided that the id wasn't indexed under any of these texts
    /// before.
    pub(crate) fn note(
        &mut self,
        alloc: Global,
        texts: &[UniqueName],
        id: Id,
    ) -> Result<(), NoMemory>
        ensures ok { OnOk result ((q : SpecName) (i : List ℕ)
            → is_noted self.new q i ≡ cond (is_among q texts.now && is_same id i) true
            (is_noted self.old q i)) }
        ensures err { OnErr result (IsUnnoted self.old texts.now id
            → HasSameNotes self.old self.new) }
    {
        let noted = self.note_each(alloc, texts, id);
        if noted.is_err() {
            self.forget(texts, id);
        }
        noted
    }

    /// Adds the id under each of these texts. On an error it may be under some of the texts.
    fn note_each(&mut self, alloc: Global, texts: &[UniqueName], id: Id) -> Result<(), NoMemory>
        ensures ok { OnOk result ((q : SpecName) (i : List ℕ)
            → is_noted self.new q i ≡ cond (is_among q texts.now && is_same id i) true
            (is_noted self.old q i)) }
        ensures others { (q : SpecName) (i : List ℕ)
            → (is_among q texts.now && is_same id i) ≡ false
            → is_noted self.new q i ≡ is_noted self.old q i }
    {
        for text in texts {
            self.note_one(alloc, text, id)?;
        }
        Ok(())
    }

    /// Removes the id from under each of these texts.
    pub(crate) fn forget(&mut self, texts: &[UniqueName], id: Id)
        ensures { (q : SpecName) (i : List ℕ) → is_noted self.new q i
            ≡ cond (is_among q texts.now && is_same id i) false (is_noted self.old q i) }
    {
        for text in texts {
            self.forget_one(text, id);
        }
    }
}
