//! Resources: parts that meet all requirements of RFC 7643 sections 2 to 4.
ghost use Rattle.std.specs.Prelude.{◌≡◌, ◌↔◌, IfOk, IsOk};
ghost use Rattle.std.specs.Option.{option_copied};
ghost use Rattle.std.specs.FinMap.{get};
ghost use Rattle.scim_cell.specs.Place.{place_at};
ghost use Rattle.scim_cell.specs.Rows.{positions, rows};
ghost use Rattle.scim_value.specs.Positions.{HasPositions};
ghost use Rattle.scim_value.specs.Resource as spec;
ghost use Rattle.scim_value.specs.Resource.{IsResource, HasBase};

use crate::faults::Invalid;
use crate::parts::Part;
use crate::validity::{has_base, is_resource};
use scim_cell::{Atom, Id, Text};
use scim_schema::{Attribute, Kind, Leaf};
use scim_text::NoMemory;
use std::alloc::Global;
use std::marker::Model;

/// A complete resource: a part that meets all requirements of RFC 7643 sections 3.1, 4.1 and 4.2, within
/// the limits of this server. [`crate::is_resource`] checks whether a part is a resource.
///
/// In contracts, a resource is its part, which is always valid as a resource.
pub struct Resource {
    part: Part,
}

impl Drop for Resource {
    fn drop(self) {
        let Resource { part: _part } = self;
    }
}

/// Returns the URL of a resource below a base, such as
/// `http://127.0.0.1:8080/Users/2819c223-7f76-453a-919d-413861904646`. `meta.location` must equal this URL
/// (RFC 7643 section 3.1).
pub fn location(alloc: Global, base: &str, kind: Kind, id: Id) -> Result<Text, NoMemory>
    ensures { IfOk result (λ t. t ≡ spec.location base.now kind id) }
{
    let mut buffer = [0; Id::TEXT_LENGTH];
    let id = id.write(&mut buffer);
    let endpoint = kind.endpoint();
    Ok(Text::new(format!(in alloc; "{base}{endpoint}/{id}")?))
}

impl Model for Resource {
    ghost use Rattle.std.specs.Coded.{codes};
    ghost use Rattle.std.specs.FinMap as map;
    ghost use Rattle.scim_cell.specs.contracts.places.Place as place;
    ghost use Rattle.scim_cell.specs.Place.{place_cmp};
    ghost use Rattle.scim_cell.specs.contracts.atoms.Atom as atom;
    ghost use Rattle.scim_cell.specs.Content.{Content};
    ghost use Rattle.scim_value.specs.Resource.{IsResource};

    ghost Value = { Content };

    ghost coded = { Prim.hlevel (codes, map.code {R = place_cmp} place.the_row.coded atom.the_row.coded) };

    ghost view = { λ r. r.part };

    ghost invariant = { λ r. IsResource r.part };
}

impl Resource {
    /// Makes a resource from a part. The `meta.location` of the part must be below `base`, such as
    /// `http://127.0.0.1:8080`.
    ///
    /// Fails with `Invalid`, and drops the part, if the part isn't valid as a resource or its
    /// `meta.location` is below another base.
    pub fn of(part: Part, base: &str) -> Result<Resource, Invalid>
        ensures value { IfOk result (λ r. r ≡ part) }
        ensures valid { IsOk result ↔ (IsResource part × HasBase base.now part) }
    {
        if is_resource(&part) && has_base(&part, base) {
            Ok(Resource { part })
        } else {
            Err(Invalid)
        }
    }

    /// Makes a resource from a part. `meta.location` may be below any base. Fails with `Invalid` if the part
    /// isn't valid as a resource.
    pub(crate) fn of_part(part: Part) -> Result<Resource, Invalid>
        ensures value { IfOk result (λ r. r ≡ part) }
        ensures valid { IsOk result ↔ IsResource part }
    {
        if is_resource(&part) {
            Ok(Resource { part })
        } else {
            Err(Invalid)
        }
    }

    /// Makes a resource from a part without checking it. The part must be valid as a resource.
    pub fn of_whole(part: Part) -> Resource
        requires { IsResource part }
        ensures { result ≡ part }
    {
        Resource { part }
    }

    /// The part that has all cells of the resource.
    pub fn part(&self) -> &Part
        ensures value { result.now ≡ self.now }
        ensures valid { IsResource self.now }
    {
        &self.part
    }

    /// Converts the resource into its part.
    pub fn into_part(self) -> Part
        ensures value { result ≡ self }
        ensures valid { IsResource self }
    {
        let Resource { part } = self;
        part
    }

    /// The kind of the resource.
    pub fn kind(&self) -> Kind
        ensures { result ≡ self.now.kind }
    {
        self.part().kind()
    }

    /// The id of the resource.
    pub fn id(&self) -> Id
        ensures { result ≡ self.now.id }
    {
        self.part().id()
    }

    /// The atom at a position of a leaf, counted from 0, or `None` if there is no cell.
    pub fn get(&self, leaf: Leaf, position: usize) -> Option<&Atom>
        ensures { option_copied result ≡ get self.now.cells (place_at leaf position) }
    {
        self.part().get(leaf, position)
    }

    /// The number of values of a multi-valued attribute. For a single-valued attribute, 1 if it has a
    /// cell, otherwise 0.
    pub fn positions(&self, attribute: Attribute) -> usize
        ensures rows { result ≡ positions attribute (rows self.now) }
        ensures filled { HasPositions self.now attribute result }
    {
        self.part().positions(attribute)
    }

    /// Copies the resource.
    pub fn try_copy(&self, alloc: Global) -> Result<Resource, NoMemory>
        ensures { IfOk result (λ r. r ≡ self.now) }
    {
        let part = self.part().try_copy(alloc)?;
        Ok(Resource { part })
    }
}
