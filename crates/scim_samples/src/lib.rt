//! Sample values for the cases: cells as text, and sample users, groups and a policy. The server doesn't use
//! them.
#![tactic(auto)]

mod cells;
mod faults;
mod resources;
mod texts;

pub use cells::{atom_text, leaf_text, part_text, read_cells, read_leaf, row_text};
pub use faults::SampleFault;
pub use resources::{part, resource, sample, sample_groups, sample_users};
pub use texts::{ALICE, BASE, BOB, POLICY, STRASSE, TEAM, USERS};
