//! Builds the values of a user's `groups` (RFC 7643 section 4.1.2).
ghost use Rattle.std.specs.Prelude.{◌≡◌, ◌∷◌, ◌++◌, [], codes, IfOk, OnOk};
ghost use Rattle.std.specs.Option.{option_copied};
ghost use Rattle.scim_cell.specs.Ids.{id_text};
ghost use Rattle.scim_value.specs.Resource.{location};
ghost use Rattle.scim_cell.specs.Rows.{restricted_row};
ghost use Rattle.scim_policy.specs.PatternTable.{last_decision};
ghost use Rattle.scim_view.specs.View.{may_be_seen};
ghost use Rattle.scim_view.specs.Groups as spec;
ghost use Rattle.scim_view.specs.code.Memberships.{shown_fields};

use crate::views::MayBeSeenPlainly;
use scim_cell::{Atom, Field, Id, Row, Text};
use scim_schema::{Attribute, Kind, Leaf, SubAttribute, Unit};
use scim_text::{NoMemory, push};
use scim_value::location;
use std::alloc::Global;

/// Returns the value of `groups` for the group `id`, with only the fields that the client may see. No value filter
/// covers `groups`, so the last rules of its leaves' patterns decide.
/// `display` is the group's name, if the client sees one.
pub(crate) fn membership(
    alloc: Global,
    shown: &MayBeSeenPlainly<'_>,
    base: &str,
    id: Id,
    display: Option<&Text>,
) -> Result<Row, NoMemory>
    ensures { IfOk result (λ r. r
        ≡ restricted_row (may_be_seen (λ r. last_decision shown.now.patterns.now) shown.now.kind)
        (spec.membership_of base.now id (option_copied display.entry))) }
{
    let mut fields = Vec::new(alloc);
    add_value(alloc, &mut fields, shown, id)?;
    add_reference(alloc, &mut fields, shown, base, id)?;
    add_display(alloc, &mut fields, shown, display)?;
    add_type(alloc, &mut fields, shown)?;
    Ok(Row::new(Unit::whole(Attribute::Groups), fields))
}

/// Appends `value`, the group's id, if the client may see it.
fn add_value(
    alloc: Global,
    fields: &mut Vec<Field>,
    shown: &MayBeSeenPlainly<'_>,
    id: Id,
) -> Result<(), NoMemory>
    ensures { OnOk result (fields.new.items ≡ fields.old.items
        ++ shown_fields (last_decision shown.now.patterns.now) shown.now.kind
        (spec.field SubAttribute.Value (id_text id) ∷ [])) }
{
    if shown.shows(Leaf::of(Attribute::Groups, SubAttribute::Value)) {
        add_field(fields, SubAttribute::Value, id.text(alloc)?)?;
    }
    Ok(())
}

/// Appends `$ref`, the group's location below `base`, if the client may see it.
fn add_reference(
    alloc: Global,
    fields: &mut Vec<Field>,
    shown: &MayBeSeenPlainly<'_>,
    base: &str,
    id: Id,
) -> Result<(), NoMemory>
    ensures { OnOk result (fields.new.items ≡ fields.old.items
        ++ shown_fields (last_decision shown.now.patterns.now) shown.now.kind
        (spec.field SubAttribute.Reference (location base.now Kind.Group id) ∷ [])) }
{
    if shown.shows(Leaf::of(Attribute::Groups, SubAttribute::Reference)) {
        let place = location(alloc, base, Kind::Group, id)?;
        add_field(fields, SubAttribute::Reference, place)?;
    }
    Ok(())
}

/// Appends `display`, if there is a name and the client may see it.
fn add_display(
    alloc: Global,
    fields: &mut Vec<Field>,
    shown: &MayBeSeenPlainly<'_>,
    display: Option<&Text>,
) -> Result<(), NoMemory>
    ensures { OnOk result (fields.new.items ≡ fields.old.items
        ++ shown_fields (last_decision shown.now.patterns.now) shown.now.kind
        (spec.display_field (option_copied display.entry))) }
{
    if let Some(name) = display {
        if shown.shows(Leaf::of(Attribute::Groups, SubAttribute::Display)) {
            add_field(fields, SubAttribute::Display, name.try_copy(alloc)?)?;
        }
    }
    Ok(())
}

/// Appends `type`, which is always "direct", if the client may see it.
fn add_type(
    alloc: Global,
    fields: &mut Vec<Field>,
    shown: &MayBeSeenPlainly<'_>,
) -> Result<(), NoMemory>
    ensures { OnOk result (fields.new.items ≡ fields.old.items
        ++ shown_fields (last_decision shown.now.patterns.now) shown.now.kind
        (spec.field SubAttribute.TypeName (codes "direct") ∷ [])) }
{
    if shown.shows(Leaf::of(Attribute::Groups, SubAttribute::TypeName)) {
        add_field(
            fields,
            SubAttribute::TypeName,
            Text::copy_of(alloc, "direct")?,
        )?;
    }
    Ok(())
}

/// Appends a field of `groups` with this text.
fn add_field(
    fields: &mut Vec<Field>,
    sub_attribute: SubAttribute,
    text: Text,
) -> Result<(), NoMemory>
    ensures { OnOk result (fields.new.items ≡ fields.old.items ++ spec.field sub_attribute text
        ∷ []) }
{
    let field = Field {
        leaf: Leaf::of(Attribute::Groups, sub_attribute),
        atom: Atom::Text(text),
    };
    push(fields, field)?;
    Ok(())
}
