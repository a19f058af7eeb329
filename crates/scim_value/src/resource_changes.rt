//! Resources with one cell changed.
ghost use Rattle.std.specs.Prelude.{◌≡◌, ◌≢◌, List, ℕ, IfOk, OnOk, Err};
ghost use Rattle.scim_schema.specs.declared.Attribute.TheVariants.{Meta};
ghost use Rattle.scim_schema.specs.declared.SubAttribute.TheVariants.{Location};
ghost use Rattle.scim_schema.specs.Units.{leaf_at};
ghost use Rattle.scim_text.specs.Failures.{OnFault};
ghost use Rattle.scim_value.specs.Changes.{with_cell, without_cell};
ghost use Rattle.scim_value.specs.Resource.{IsResource, HasBase};

use crate::faults::Invalid;
use crate::resources::Resource;
use scim_cell::Atom;
use scim_schema::Leaf;
use scim_text::Failed;
use std::alloc::Global;

impl Resource {
    /// Returns the resource with this cell added. The new cell replaces a cell at the same place, if any.
    /// `self` isn't changed. Unless the leaf is `meta.location`, the base of the location stays the same.
    ///
    /// Fails with `Invalid` if the result isn't a resource: the leaf doesn't belong to the kind, the atom
    /// doesn't have the type of the leaf, there is no value at the previous position, or the result breaks
    /// a rule for resources.
    pub fn with(
        &self,
        alloc: Global,
        leaf: Leaf,
        position: usize,
        atom: Atom,
    ) -> Result<Resource, Failed<Invalid>>
        ensures ok { IfOk result (λ r. r ≡ with_cell leaf position atom self.now) }
        ensures valid { OnOk result (IsResource (with_cell leaf position atom self.now)) }
        ensures invalid { OnFault result (¬ IsResource (with_cell leaf position atom self.now)) }
        ensures base { leaf ≢ leaf_at Meta Location → (base : List ℕ) → HasBase base self.now
            → IfOk result (HasBase base) }
    {
        let part = self.part().with(alloc, leaf, position, atom)?;
        Ok(Resource::of_part(part)?)
    }

    /// Returns the resource without the cell at a position of a leaf, if there is one. A value that
    /// loses its last cell is removed, and each later value moves down by one position. `self` isn't
    /// changed. Unless the leaf is `meta.location`, the base of the location stays the same.
    ///
    /// Fails with `Invalid` if the result isn't a resource, for example because the cell is required.
    pub fn without(
        &self,
        alloc: Global,
        leaf: Leaf,
        position: usize,
    ) -> Result<Resource, Failed<Invalid>>
        ensures ok { IfOk result (λ r. r ≡ without_cell leaf position self.now) }
        ensures valid { OnOk result (IsResource (without_cell leaf position self.now)) }
        ensures invalid { OnFault result (¬ IsResource (without_cell leaf position self.now)) }
        ensures base { leaf ≢ leaf_at Meta Location → (base : List ℕ) → HasBase base self.now
            → IfOk result (HasBase base) }
    {
        let part = self.part().without(alloc, leaf, position)?;
        Ok(Resource::of_part(part)?)
    }
}
