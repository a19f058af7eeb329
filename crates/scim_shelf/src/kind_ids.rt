//! The ids of the resources of each kind.
ghost use Rattle.std.specs.Prelude.{◌≡◌, [], not, IfOk, OnOk, OnErr};
ghost use Rattle.std.specs.Bool.{OnFalse};
ghost use Rattle.scim_schema.specs.declared.Kind.{Kind as SpecKind};
ghost use Rattle.scim_shelf.specs.KindIds.{ids, has_id, HasSameIds, IsInserted, IsRemoved, IsRemovedIf};

use scim_cell::Id;
use scim_schema::Kind;
use scim_text::NoMemory;
use std::alloc::Global;
use std::collections::BTreeSet;

/// The ids of the users, and the ids of the groups.
///
/// Each set is ordered, so a page of a list is found by its ids, without reading the resources before it.
#[derive(Drop)]
pub(crate) struct KindIds {
    users: BTreeSet<Id>,
    groups: BTreeSet<Id>,
}

impl KindIds {
    /// Returns no ids.
    pub(crate) fn new(alloc: Global) -> KindIds
        ensures { (k : SpecKind) → ids result k ≡ [] }
    {
        KindIds {
            users: BTreeSet::new(alloc),
            groups: BTreeSet::new(alloc),
        }
    }

    /// Returns the ids of the kind.
    pub(crate) fn of(&self, kind: Kind) -> &BTreeSet<Id>
        ensures { result.now.keys ≡ ids self.now kind }
    {
        match kind {
            Kind::User => &self.users,
            Kind::Group => &self.groups,
        }
    }

    /// Adds the id to those of the kind, and returns whether it is new. On an error nothing is changed.
    pub(crate) fn insert(&mut self, kind: Kind, id: Id) -> Result<bool, NoMemory>
        ensures added { IfOk result (λ added. added ≡ not (has_id self.old kind id)) }
        ensures inserted { OnOk result (IsInserted kind id self.old self.new) }
        ensures unchanged { IfOk result (λ added. OnFalse added (HasSameIds self.old self.new)) }
        ensures err { OnErr result (HasSameIds self.old self.new) }
    {
        match kind {
            Kind::User => Ok(self.users.insert(id)?),
            Kind::Group => Ok(self.groups.insert(id)?),
        }
    }

    /// Takes back an `insert` that returned `added`.
    pub(crate) fn take_back(&mut self, kind: Kind, id: Id, added: bool)
        ensures { IsRemovedIf added kind id self.old self.new }
    {
        if !added {
            return;
        }
        match kind {
            Kind::User => self.users.remove(&id),
            Kind::Group => self.groups.remove(&id),
        };
    }

    /// Removes the id, whatever its kind.
    pub(crate) fn remove(&mut self, id: Id)
        ensures { IsRemoved id self.old self.new }
    {
        self.users.remove(&id);
        self.groups.remove(&id);
    }
}
