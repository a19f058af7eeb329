//! Changes of the resources of a store.
ghost use Rattle.std.specs.Prelude.{◌≡◌, IfOk};

use scim_cell::Id;
use scim_schema::Kind;
use scim_text::NoMemory;
use scim_value::Resource;
use std::alloc::Global;

/// The change that one request makes to the resources of a store.
#[derive(Drop)]
pub enum Change {
    /// No change: the commit only adds its audit row.
    Nothing,
    /// Stores the resource. A stored resource with the same id is replaced.
    Keep(Resource),
    /// Removes the resource of this kind with this id.
    Remove(Kind, Id),
}

impl Change {
    /// Returns a copy. Only a copy of `Keep` allocates.
    pub fn try_copy(&self, alloc: Global) -> Result<Change, NoMemory>
        ensures { IfOk result (λ copy. copy ≡ self.now) }
    {
        match self {
            Change::Nothing => Ok(Change::Nothing),
            Change::Keep(resource) => Ok(Change::Keep(resource.try_copy(alloc)?)),
            Change::Remove(kind, id) => Ok(Change::Remove(*kind, *id)),
        }
    }
}
