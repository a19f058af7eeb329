//! The changes that no client may make, whatever the policy allows (RFC 7643 section 2.2).
ghost use Rattle.std.specs.Prelude.{◌≡◌, IfOk};
ghost use Rattle.scim_patch_steps.specs.Changes.{change_of};
ghost use Rattle.scim_filter_grammar.specs.Tree.{tree_of};
ghost use Rattle.std.specs.Prelude.{◌&&◌};
ghost use Rattle.scim_cell.specs.SameValues.{is_members};
ghost use Rattle.scim_patch_values.specs.Matches as matches;
ghost use Rattle.scim_patch_steps.specs.Steps as spec;

use crate::changes::StepChange;
use scim_cell::Row;
use scim_filter_grammar::Filter;
use scim_patch_values::is_any_match;
use scim_schema::{Attribute, Kind, Leaf, Mutability, Unit, characteristics_of, mutability_of};
use scim_text::NoMemory;
use std::alloc::Global;

/// Whether the leaf is immutable or readOnly, so that it can't be changed in an existing value.
fn is_unchangeable(kind: Kind, leaf: Leaf) -> bool
    ensures { result ≡ spec.is_unchangeable kind leaf }
{
    let mutability = characteristics_of(kind, leaf).mutability;
    mutability == Mutability::Immutable || mutability == Mutability::ReadOnly
}

/// Whether the unit is required on resources of the kind.
fn is_required(kind: Kind, unit: Unit) -> bool
    ensures { result ≡ spec.is_required kind unit }
{
    let leaf = Leaf {
        attribute: unit.attribute,
        sub_attribute: unit.sub_attribute,
    };
    characteristics_of(kind, leaf).required
}

/// Whether the unit is `members` and the filter matches one of the existing members, which are immutable (RFC
/// 7643 section 4.2).
fn changes_member(
    alloc: Global,
    unit: Unit,
    filter: &Filter,
    values: &[Row],
) -> Result<bool, NoMemory>
    ensures { IfOk result (λ b. b
        ≡ (is_members unit.attribute && matches.is_any_match (tree_of filter.now) values.now)) }
{
    if unit.attribute != Attribute::Members {
        return Ok(false);
    }
    is_any_match(alloc, filter, values)
}

/// Whether the change would clear a required unit, change an immutable or readOnly sub-attribute, or add
/// something to an existing member of a group.
fn is_barred(
    alloc: Global,
    kind: Kind,
    unit: Unit,
    change: &StepChange,
    values: &[Row],
) -> Result<bool, NoMemory>
    ensures { IfOk result (λ b. b ≡ spec.is_barred kind unit (change_of change.now) values.now) }
{
    match change {
        StepChange::Clear => Ok(is_required(kind, unit)),
        StepChange::KeepMatches(filter) | StepChange::AddToMatches(filter, _) => {
            changes_member(alloc, unit, filter, values)
        }
        StepChange::AddAtMatches(_, field)
        | StepChange::SetAtMatches(_, field)
        | StepChange::SetEverywhere(field) => Ok(is_unchangeable(kind, field.leaf)),
        StepChange::KeepSubAttribute(sub_attribute)
        | StepChange::ClearAtMatches(_, sub_attribute)
        | StepChange::ClearEverywhere(sub_attribute) => Ok(is_unchangeable(
            kind,
            Leaf::of(unit.attribute, *sub_attribute),
        )),
        StepChange::Keep
        | StepChange::Append(_)
        | StepChange::Replace(_)
        | StepChange::RemoveListed(_)
        | StepChange::ReplaceMatches(_, _)
        | StepChange::RemoveMatches(_) => Ok(false),
    }
}

/// Whether no client may make the change: the unit is readOnly, or the change would clear a required unit,
/// change an immutable or readOnly sub-attribute, or add something to an existing member of a group.
pub(crate) fn is_forbidden(
    alloc: Global,
    kind: Kind,
    unit: Unit,
    change: &StepChange,
    values: &[Row],
) -> Result<bool, NoMemory>
    ensures { IfOk result (λ b. b ≡ spec.is_forbidden kind unit (change_of change.now) values.now) }
{
    if mutability_of(kind, unit) == Mutability::ReadOnly {
        return Ok(true);
    }
    is_barred(alloc, kind, unit, change, values)
}
