//! The steps of a PATCH and their application to a resource (RFC 7644 section 3.5.2).
#![tactic(auto)]

mod applying;
mod changes;
mod laws;
mod mutability;
mod patches;
mod primary_values;
mod step_effects;
mod steps;
mod touched_units;
mod unit_rows;
mod work;

pub use applying::apply;
pub use changes::StepChange;
pub use laws::patching_rests_on_its_units;
pub use patches::{Patch, Step};
pub use steps::StepFault;
pub use work::MOST_WORK;
