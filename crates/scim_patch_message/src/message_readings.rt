//! The steps and faults read so far from a message.
ghost use Rattle.std.specs.Prelude.{◌≡◌, ◌∷◌, [], map, Ok, Err, OnOk, option_map};
ghost use Rattle.scim_body.specs.Bodies.{Given};
ghost use Rattle.scim_body.specs.Given.{units_given};
ghost use Rattle.scim_patch_steps.specs.Kept.{step_of};
ghost use Rattle.scim_patch_message.specs.PathSteps.{set_to};
ghost use Rattle.scim_patch_message.specs.Readings.{both, first_of};
ghost use Rattle.scim_patch_message.specs.code.Inside.{read_of};

use crate::faults::PatchFault;
use scim_body::UnitGiven;
use scim_patch_steps::{Step, StepChange};
use scim_schema::Unit;
use scim_text::{NoMemory, push};
use std::alloc::Global;

/// The steps read so far, and the fault of highest priority found so far.
#[derive(Drop)]
pub(crate) struct Reading {
    pub(crate) steps: Vec<Step>,
    pub(crate) fault: Option<PatchFault>,
}

impl PatchFault {
    /// Returns `self` or `other`, whichever has the higher priority: `Syntax` before `Path` before `Value`.
    fn or_before(self, other: PatchFault) -> PatchFault
        ensures { result ≡ first_of self other }
    {
        match (self, other) {
            (PatchFault::Syntax, _) | (_, PatchFault::Syntax) => PatchFault::Syntax,
            (PatchFault::Path, _) | (_, PatchFault::Path) => PatchFault::Path,
            (PatchFault::Value, PatchFault::Value) => PatchFault::Value,
        }
    }
}

impl Reading {
    /// Returns a reading without steps or faults.
    pub(crate) fn new(alloc: Global) -> Reading
        ensures { read_of result ≡ Ok [] }
    {
        Reading {
            steps: Vec::new(alloc),
            fault: None,
        }
    }

    /// Records a fault. Only the fault of highest priority is kept.
    pub(crate) fn refuse(&mut self, fault: PatchFault)
        ensures { read_of self.new ≡ both (read_of self.old) (Err fault) }
    {
        self.fault = match self.fault {
            None => Some(fault),
            Some(found) => Some(found.or_before(fault)),
        };
    }

    /// Appends a step that changes a unit.
    pub(crate) fn push(&mut self, unit: Unit, change: StepChange) -> Result<(), NoMemory>
        ensures { OnOk result (read_of self.new
            ≡ both (read_of self.old) (Ok (step_of (Step.Of unit change) ∷ []))) }
    {
        push(&mut self.steps, Step::Of(unit, change))?;
        Ok(())
    }

    /// Appends the step for a remove without a path, which is refused when the patch is applied.
    pub(crate) fn push_pathless(&mut self) -> Result<(), NoMemory>
        ensures { OnOk result (read_of self.new
            ≡ both (read_of self.old) (Ok (step_of Step.Pathless ∷ []))) }
    {
        push(&mut self.steps, Step::Pathless)?;
        Ok(())
    }

    /// Appends a step for each of the units, which sets the unit to the values given for it.
    pub(crate) fn set_units(&mut self, given: Vec<UnitGiven>) -> Result<(), NoMemory>
        ensures { OnOk result (read_of self.new
            ≡ both (read_of self.old) (Ok (map set_to (units_given given.items)))) }
    {
        for one in given {
            let UnitGiven { unit, values } = one;
            self.push(unit, StepChange::Replace(values))?;
        }
        Ok(())
    }
}
