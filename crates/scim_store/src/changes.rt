//! Computes the edits of a change.

ghost use Rattle.std.specs.Prelude.{◌≡◌, ◌≢◌, ◌&&◌, not, ℕ, List, AllPairs, IfOk, Some, map, option_map, string_bytes};
ghost use Rattle.std.specs.Option.{option_copied};
ghost use Rattle.scim_cell.specs.Content.{Content};
ghost use Rattle.scim_value.specs.Members.{lists_value};
ghost use Rattle.scim_value.specs.Resource.{HasBase};
ghost use Rattle.scim_value.specs.Uniqueness.{name_of};
ghost use Rattle.scim_shelf.specs.Members.{is_in, is_value_of};
ghost use Rattle.scim_shelf.specs.Stores.{IsOld};
ghost use Rattle.scim_store_rows.specs.Stands.{is_among};
ghost use Rattle.scim_store.specs.Edits as spec;

use crate::edits::{Edits, SecretEdit};
use scim_cell::{Id, Row, Text};
use scim_json::{door_code_of, kept_parts};
use scim_schema::{Attribute, Kind, Leaf, SubAttribute, Unit};
use scim_shelf::{Change, member_values, remove_member_values, unshared_values};
use scim_text::{NoMemory, push};
use scim_value::{Resource, UniqueName, unique_names};
use std::alloc::Global;
use std::collections::BTreeSet;

/// Returns the unique names of the resource; an empty list if there is no resource.
fn names_in(alloc: Global, resource: Option<&Resource>) -> Result<Vec<UniqueName>, NoMemory>
    ensures { IfOk result (λ names. map name_of names.items
        ≡ spec.names_in (option_copied resource.entry)) }
{
    match resource {
        Some(resource) => unique_names(alloc, resource),
        None => Ok(Vec::new(alloc)),
    }
}

/// Returns the unique names of `resource` that `other` doesn't have. `None` counts as having no names.
fn names_beyond(
    alloc: Global,
    other: Option<&Resource>,
    resource: Option<&Resource>,
) -> Result<Vec<UniqueName>, NoMemory>
    ensures { IfOk result (λ names. map name_of names.items
        ≡ spec.names_beyond (spec.names_in (option_copied other.entry))
        (spec.names_in (option_copied resource.entry))) }
{
    let others = names_in(alloc, other)?;
    let mut names = names_in(alloc, resource)?;
    names.retain(|name| !others.contains(name));
    Ok(names)
}

/// Returns the set of the values that a resource lists among its members.
pub(crate) fn values_of(alloc: Global, resource: &Resource) -> Result<BTreeSet<&str>, NoMemory>
    ensures { IfOk result (λ values. (v : List ℕ) → is_in v values ≡ lists_value v resource.now) }
{
    member_values(
        alloc,
        resource.part().values(Unit::whole(Attribute::Members)),
    )
}

/// Returns the members that the resource lists; none if there is no resource.
fn members_in(resource: Option<&Resource>) -> &[Row]
    ensures { (v : List ℕ) → is_value_of v result.now
        ≡ spec.lists_in v (option_copied resource.entry) }
{
    match resource {
        Some(resource) => resource.part().values(Unit::whole(Attribute::Members)),
        None => &[],
    }
}

/// Returns copies of the texts of a set, each once.
fn copies_of(alloc: Global, texts: &BTreeSet<&str>) -> Result<Vec<Text>, NoMemory>
    ensures listed { IfOk result (λ copies. (v : List ℕ)
        → is_among v copies.items ≡ is_in v texts.now) }
    ensures once { IfOk result (λ copies. AllPairs (λ v w. v ≢ w) copies.items) }
{
    let mut copies = Vec::new(alloc);
    for text in texts {
        push(&mut copies, Text::copy_of(alloc, text)?)?;
    }
    Ok(copies)
}

/// Returns the values of `members` that no member of `others` has, each once. Makes a set only of the values of
/// the members between the prefix and the suffix that both lists share, and passes over `others` once.
fn values_after<'m>(
    alloc: Global,
    others: &'m [Row],
    members: &'m [Row],
) -> Result<Vec<Text>, NoMemory>
    ensures listed { IfOk result (λ values. (v : List ℕ) → is_among v values.items
        ≡ (is_value_of v members.now && not (is_value_of v others.now))) }
    ensures once { IfOk result (λ values. AllPairs (λ v w. v ≢ w) values.items) }
{
    let leaf = Leaf::of(Attribute::Members, SubAttribute::Value);
    let unshared = unshared_values(leaf, others, members);
    if unshared.is_empty() {
        return Ok(Vec::new(alloc));
    }
    let mut values = member_values(alloc, unshared)?;
    remove_member_values(others, &mut values);
    copies_of(alloc, &values)
}

/// Returns the door code of the resource; `None` if there is no resource or it has none.
fn code_in(resource: Option<&Resource>) -> Option<&str>
    ensures { option_map (λ code. code.now) result
        ≡ spec.code_in (option_copied resource.entry) }
{
    match resource {
        Some(resource) => door_code_of(resource),
        None => None,
    }
}

/// Returns the edit that turns the door code `old` into `new`. `None` is no door code.
fn secret_edit(old: Option<&str>, new: Option<String>) -> SecretEdit
    ensures { spec.TurnsCode (option_map (λ code. code.now) old.entry) (option_map string_bytes new)
        result }
{
    match new {
        None => match old {
            None => SecretEdit::Stays,
            Some(_) => SecretEdit::Goes,
        },
        Some(new) => match old {
            None => SecretEdit::Comes(new),
            Some(old) if old == new.as_str() => SecretEdit::Stays,
            Some(_) => SecretEdit::Becomes(new),
        },
    }
}

/// Returns the edits that replace the rows of the resource `old` by the rows of `new`, which has this document
/// and door code. Without `old`, they only add rows; without `new`, they only remove rows.
fn replacement<'r>(
    alloc: Global,
    id: Id,
    kind: Kind,
    document: Option<String>,
    door_code: Option<String>,
    old: Option<&'r Resource>,
    new: Option<&'r Resource>,
) -> Result<Edits, NoMemory>
    ensures kind { IfOk result (λ edits. edits.kind ≡ kind) }
    ensures document { IfOk result (λ edits. edits.document ≡ document) }
    ensures replaces { IfOk result (λ edits. (base : List ℕ)
        → option_map string_bytes door_code ≡ spec.code_in (option_copied new.entry)
        → spec.IsWritten base (option_copied new.entry) edits
        → spec.Replaces base id (option_copied old.entry) (option_copied new.entry) edits) }
{
    let old_members = members_in(old);
    let new_members = members_in(new);
    Ok(Edits {
        id: id.text(alloc)?,
        kind,
        document,
        names_gone: names_beyond(alloc, new, old)?,
        names_come: names_beyond(alloc, old, new)?,
        members_gone: values_after(alloc, new_members, old_members)?,
        members_come: values_after(alloc, old_members, new_members)?,
        secret: secret_edit(code_in(old), door_code),
    })
}

/// Returns the edits that store a resource. `old` must be the stored resource with the same id, if any.
pub(crate) fn edits_to_keep(
    alloc: Global,
    resource: &Resource,
    old: Option<&Resource>,
) -> Result<Edits, NoMemory>
    ensures { IfOk result (λ edits. (base : List ℕ) → HasBase base resource.now
        → spec.Replaces base resource.now.id (option_copied old.entry) (Some resource.now) edits) }
{
    let (document, door_code) = kept_parts(alloc, resource)?;
    let part = resource.part();
    replacement(
        alloc,
        part.id(),
        part.kind(),
        Some(document),
        door_code,
        old,
        Some(resource),
    )
}

/// Returns the edits of a change; `None` for `Change::Nothing`. `old` must be the stored user or group that
/// has the id of the change, if any.
pub(crate) fn edits_of(
    alloc: Global,
    change: &Change,
    old: Option<&Resource>,
) -> Result<Option<Edits>, NoMemory>
    ensures { IfOk result (λ edits. (base : List ℕ) (cs : List Content)
        → IsOld cs change.now (option_copied old.entry) → spec.KeepsBelow base change.now
        → spec.AreEdits base cs change.now edits) }
{
    match change {
        Change::Nothing => Ok(None),
        Change::Keep(resource) => {
            let edits = edits_to_keep(alloc, resource, old)?;
            Ok(Some(edits))
        }
        Change::Remove(kind, id) => {
            let edits = replacement(alloc, *id, *kind, None, None, old, None)?;
            Ok(Some(edits))
        }
    }
}
