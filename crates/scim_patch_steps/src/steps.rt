//! Computes the values of a unit after a step, or the fault for which the step is refused.
ghost use Rattle.std.specs.Prelude.{◌≡◌, IfOk};
ghost use Rattle.scim_text.specs.Failures.{UnlessMemory};
ghost use Rattle.scim_patch_steps.specs.Changes.{change_of};
ghost use Rattle.scim_patch_steps.specs.Steps as spec;
ghost use Rattle.scim_patch_steps.specs.Steps.{rows_answered};

use crate::changes::StepChange;
use crate::mutability::is_forbidden;
use crate::primary_values::settle;
use crate::step_effects::row;
use scim_cell::Row;
use scim_patch_values::given_primary;
use scim_schema::{Attribute, Kind, Unit};
use scim_text::{Failed, NoMemory};
use std::alloc::Global;
use thiserror::Error;

/// The reason why a step is refused (RFC 7644 section 3.12).
#[derive(Clone, Copy, Debug, PartialEq, Eq, Error)]
pub enum StepFault {
    /// The step would change a readOnly or immutable value, or clear a required attribute (mutability).
    #[error("what is readOnly, immutable or required can't be changed so")]
    Mutability,
    /// The path has no target: no value matches, and none can be made (noTarget).
    #[error("the path has no target")]
    NoTarget,
    /// The result would have two primary values, a member without `value`, or too many values, or the patch is
    /// too much work (invalidValue).
    #[error("the values would be wrong")]
    Value,
}

/// Whether the change sets or adds two different values that are marked as primary.
fn gives_two_primary(
    alloc: Global,
    attribute: Attribute,
    change: &StepChange,
) -> Result<bool, NoMemory>
    ensures { IfOk result (λ b. b ≡ spec.gives_two_primary attribute (change_of change.now)) }
{
    match change {
        StepChange::Append(given) | StepChange::Replace(given) => {
            Ok(given_primary(alloc, attribute, given.as_slice())?.len() > 1)
        }
        _ => Ok(false),
    }
}

/// Applies `change` to the `values` of a unit. Returns the values after the change (RFC 7644 section 3.5.2).
///
/// Fails with `Mutability` if the unit is readOnly, if a required unit would be cleared, if the path ends in
/// an immutable or readOnly sub-attribute, or if something would be added to an existing member. Otherwise
/// fails with `NoTarget` if the path has no target. Otherwise fails with `Value` if the step marks two values
/// as primary, or if afterwards a member has no `value` or there are over 10,000 values. On an error the
/// values are dropped.
///
/// If the step marks one value as primary, no other value is primary afterwards. The time is nearly linear in
/// the number of existing and given values.
pub(crate) fn values_after(
    alloc: Global,
    kind: Kind,
    unit: Unit,
    change: &StepChange,
    values: Vec<Row>,
) -> Result<Vec<Row>, Failed<StepFault>>
    ensures { UnlessMemory (λ r. rows_answered r
        ≡ spec.after kind unit (change_of change.now) values.items) result }
{
    if is_forbidden(alloc, kind, unit, change, values.as_slice())? {
        return Err(Failed::Because(StepFault::Mutability));
    }
    if gives_two_primary(alloc, unit.attribute, change)? {
        return Err(Failed::Because(StepFault::Value));
    }
    match row(alloc, unit, change, values)? {
        Some(positions) => settle(alloc, unit.attribute, positions),
        None => Err(Failed::Because(StepFault::NoTarget)),
    }
}
