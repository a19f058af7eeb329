//! Splits a resource into the parts that are kept apart, and joins them: its stored document without
//! `doorCode`, and the text at `doorCode`.
ghost use Rattle.std.specs.Prelude.{◌≡◌, List, ℕ, IfOk, OnOk, option_map, string_bytes};
ghost use Rattle.scim_text.specs.Failures.{UnlessMemory, OnFault};
ghost use Rattle.scim_schema.specs.declared.Attribute.TheVariants.{DoorCode};
ghost use Rattle.scim_schema.specs.Units.{simple};
ghost use Rattle.scim_cell.specs.declared.atoms.Atom.TheVariants as atom;
ghost use Rattle.scim_value.specs.Changes.{with_cell};
ghost use Rattle.scim_value.specs.Resource.{IsResource, HasBase};
ghost use Rattle.scim_json.specs.Stored as spec;
ghost use Rattle.scim_json.specs.Kept.{door_code, without_door_code, IsKept, GivesKept};

use crate::faults::Damaged;
use crate::stored_documents::read_stored;
use crate::writing::stored_text;
use scim_cell::{Atom, Text};
use scim_schema::{Attribute, Leaf, Unit};
use scim_text::{Failed, NoMemory};
use scim_value::{Invalid, Resource};
use std::alloc::Global;

/// The text at `doorCode`, or `None` if there is none.
pub fn door_code_of(resource: &Resource) -> Option<&str>
    ensures code { option_map (λ t. t.now) result ≡ door_code resource.now }
    ensures valid { IsResource resource.now }
{
    match resource.part().get(Leaf::simple(Attribute::DoorCode), 0) {
        Some(Atom::Text(code)) => Some(code.as_str()),
        _ => None,
    }
}

/// Returns the kept parts of a resource: its stored text without `doorCode`, and the text at `doorCode`,
/// if any. Copies the resource only if it has a `doorCode`.
pub fn kept_parts(alloc: Global, resource: &Resource) -> Result<(String, Option<String>), NoMemory>
    ensures text { IfOk result (λ parts. string_bytes parts.0
        ≡ spec.stored_text (without_door_code resource.now)) }
    ensures code { IfOk result (λ parts. option_map string_bytes parts.1
        ≡ door_code resource.now) }
    ensures kept { IfOk result (λ parts. (base : List ℕ) → HasBase base resource.now
        → IsKept base (string_bytes parts.0) (option_map string_bytes parts.1) resource.now) }
{
    match door_code_of(resource) {
        None => Ok((stored_text(alloc, resource)?, None)),
        Some(code) => {
            let code = String::from_str(alloc, code)?;
            let rest = cut(alloc, resource)?;
            Ok((stored_text(alloc, &rest)?, Some(code)))
        }
    }
}

/// Returns a copy of the resource without `doorCode`.
fn cut(alloc: Global, resource: &Resource) -> Result<Resource, NoMemory>
    ensures rest { IfOk result (λ r. r ≡ without_door_code resource.now) }
    ensures valid { IsResource resource.now }
{
    let part = resource.part().try_copy(alloc)?;
    let rest = part.put(Unit::whole(Attribute::DoorCode), Vec::new(alloc))?;
    Ok(Resource::of_whole(rest))
}

/// Reads the resource of kept parts: a stored document without `doorCode`, and the text at `doorCode`, if
/// any. The document may be spelled as [`read_stored`] allows. `meta.location` is computed below `base`.
///
/// Fails with `Damaged` if these aren't the kept parts of a resource below the base: the document is
/// damaged or contains a `doorCode`, or the resource can't have this `doorCode`.
pub fn read_kept(
    alloc: Global,
    base: &str,
    text: &str,
    door_code: Option<&str>,
) -> Result<Resource, Failed<Damaged>>
    ensures { UnlessMemory (GivesKept base.now text.now
        (option_map (λ code. code.now) door_code.entry)) result }
{
    let rest = read_stored(alloc, base, text)?;
    if rest.get(Leaf::simple(Attribute::DoorCode), 0).is_some() {
        return Err(Failed::Because(Damaged));
    }
    match door_code {
        Some(code) => joined(alloc, &rest, code),
        None => Ok(rest),
    }
}

/// Returns the resource with this text at `doorCode`. Fails with `Damaged` if the result isn't a resource.
fn joined(alloc: Global, rest: &Resource, code: &str) -> Result<Resource, Failed<Damaged>>
    ensures ok { IfOk result
        (λ r. r ≡ with_cell (simple DoorCode) 0 (atom.Text code.now) rest.now) }
    ensures valid { OnOk result
        (IsResource (with_cell (simple DoorCode) 0 (atom.Text code.now) rest.now)) }
    ensures base { (base : List ℕ) → HasBase base rest.now → IfOk result (HasBase base) }
    ensures damaged { OnFault result
        (¬ IsResource (with_cell (simple DoorCode) 0 (atom.Text code.now) rest.now)) }
{
    let atom = Atom::Text(Text::copy_of(alloc, code)?);
    match rest.with(alloc, Leaf::simple(Attribute::DoorCode), 0, atom) {
        Ok(resource) => Ok(resource),
        Err(Failed::Because(Invalid)) => Err(Failed::Because(Damaged)),
        Err(Failed::NoMemory) => Err(Failed::NoMemory),
    }
}
