//! Patches: lists of steps for resources of one kind.
ghost use Rattle.std.specs.Prelude.{◌≡◌, map};
ghost use Rattle.scim_patch_steps.specs.Patch as spec;
ghost use Rattle.scim_patch_steps.specs.Kept.{patch_of, step_of};

use crate::changes::StepChange;
use scim_schema::{Kind, Unit};
use std::marker::Model;

/// One step of a patch (RFC 7644 section 3.5.2).
#[derive(Drop)]
pub enum Step {
    /// A `remove` without a path, which fails with `NoTarget`.
    Pathless,
    /// A change of the values of a unit.
    Of(Unit, StepChange),
}

/// The steps of a patch in their order, for resources of one kind.
/// The invariant of a patch is that each step is valid for the kind: the kind has the step's unit, and a
/// client may give the step's values for that unit.
#[derive(Drop)]
pub struct Patch {
    kind: Kind,
    steps: Vec<Step>,
}

impl Model for Patch {
    ghost use Rattle.std.specs.Coded.{codes};
    ghost use Rattle.scim_patch_steps.specs.contracts.patches.Step as step;
    ghost use Rattle.scim_patch_steps.specs.Patch.{IsPatch};
    ghost use Rattle.scim_patch_steps.specs.Kept.{Kept, patch_of};
    ghost use Rattle.scim_patch_steps.specs.code.Inside.{kept_of};

    ghost Value = { Kept };

    ghost coded = { Prim.hlevel (codes, step.the_row.coded) };

    ghost view = { kept_of };

    ghost invariant = { λ p. IsPatch (patch_of (kept_of p)) };
}

impl Patch {
    /// Returns the patch of these steps.
    pub fn new(kind: Kind, steps: Vec<Step>) -> Patch
        requires { spec.IsPatch (record { kind = kind; steps = map step_of steps.items }) }
        ensures kind { result.kind ≡ kind }
        ensures steps { result.steps ≡ steps.items }
    {
        Patch { kind, steps }
    }

    /// Returns the kind of resource that the patch is for.
    pub fn kind(&self) -> Kind
        ensures { result ≡ self.now.kind }
    {
        self.kind
    }

    /// Returns the steps, in their order.
    pub fn steps(&self) -> &[Step]
        ensures steps { result.now ≡ self.now.steps }
        ensures valid { spec.IsPatch (patch_of self.now) }
    {
        self.steps.as_slice()
    }
}
