//! An index of resources by unique name.
ghost use Rattle.std.specs.Prelude.{◌≡◌, ◌&&◌, OnOk, OnErr, IfOk, None, Some, false, cond, is_none};
ghost use Rattle.scim_value.specs.declared.uniqueness.UniqueName.{UniqueName};
ghost use Rattle.scim_value.specs.Uniqueness.{name_of};
ghost use Rattle.scim_shelf.specs.Owners.{owner, is_alike, is_among, AreUnowned, HasSameOwners};

use scim_cell::Id;
use scim_text::NoMemory;
use scim_value::UniqueName;
use std::alloc::Global;
use std::collections::BTreeMap;

/// An index from unique names to the ids of the resources that have them.
///
/// The map is ordered, so no choice of names makes a look-up slow.
#[derive(Drop)]
pub(crate) struct Owners {
    by_name: BTreeMap<UniqueName, Id>,
}

/// Returns a copy of the name.
pub(crate) fn copy_of(alloc: Global, name: &UniqueName) -> Result<UniqueName, NoMemory>
    ensures { IfOk result (λ copy. name_of copy ≡ name_of name.now) }
{
    let text = String::from_str(alloc, name.text.as_str())?;
    Ok(UniqueName {
        leaf: name.leaf,
        text,
    })
}

impl Owners {
    /// Returns an empty index.
    pub(crate) fn new(alloc: Global) -> Owners
        ensures { (q : UniqueName) → owner result q ≡ None }
    {
        Owners {
            by_name: BTreeMap::new(alloc),
        }
    }

    /// Returns the id of the resource that has the name; `None` if no resource has it.
    pub(crate) fn of(&self, name: &UniqueName) -> Option<Id>
        ensures { result ≡ owner self.now name.now }
    {
        self.by_name.get(name).copied()
    }

    /// Returns those of the names that no resource has.
    pub(crate) fn unowned(&self, names: Vec<UniqueName>) -> Vec<UniqueName>
        ensures { (q : UniqueName) → is_among q result.items
            ≡ (is_among q names.items && is_none (owner self.now q)) }
    {
        let mut left = names;
        left.retain(|name| self.of(name).is_none());
        left
    }

    /// Removes the name.
    fn forget_one(&mut self, name: &UniqueName)
        ensures { (q : UniqueName) → owner self.new q
            ≡ cond (is_alike name.now q) None (owner self.old q) }
    {
        self.by_name.remove(name);
    }

    /// Removes these names.
    pub(crate) fn forget(&mut self, names: &[UniqueName])
        ensures { (q : UniqueName) → owner self.new q
            ≡ cond (is_among q names.now) None (owner self.old q) }
    {
        for name in names {
            self.forget_one(name);
        }
    }

    /// Adds a copy of the name for the resource with this id. On an error nothing is changed.
    fn note_one(&mut self, alloc: Global, name: &UniqueName, id: Id) -> Result<(), NoMemory>
        ensures ok { OnOk result ((q : UniqueName) → owner self.new q
            ≡ cond (is_alike name.now q) (Some id) (owner self.old q)) }
        ensures err { OnErr result (HasSameOwners self.old self.new) }
    {
        let copy = copy_of(alloc, name)?;
        self.by_name.insert(copy, id)?;
        Ok(())
    }

    /// Adds copies of these names for the resource with this id. On an error some of the names may have been
    /// added.
    fn note_each(&mut self, alloc: Global, names: &[UniqueName], id: Id) -> Result<(), NoMemory>
        ensures ok { OnOk result ((q : UniqueName) → owner self.new q
            ≡ cond (is_among q names.now) (Some id) (owner self.old q)) }
        ensures others { (q : UniqueName) → is_among q names.now ≡ false
            → owner self.new q ≡ owner self.old q }
    {
        for name in names {
            self.note_one(alloc, name, id)?;
        }
        Ok(())
    }

    /// Adds copies of these names for the resource with this id.
    ///
    /// On an error the index is unchanged, provided that no resource had any of these names before.
    pub(crate) fn note(
        &mut self,
        alloc: Global,
        names: &[UniqueName],
        id: Id,
    ) -> Result<(), NoMemory>
        ensures ok { OnOk result ((q : UniqueName) → owner self.new q
            ≡ cond (is_among q names.now) (Some id) (owner self.old q)) }
        ensures err { OnErr result (AreUnowned self.old names.now
            → HasSameOwners self.old self.new) }
    {
        let noted = self.note_each(alloc, names, id);
        if noted.is_err() {
            self.forget(names);
        }
        noted
    }
}
