//! Parts and resources: their cells, changes to cells, and the rules and limits for resources (RFC 7643
//! sections 2 to 4).
#![tactic(auto)]

mod cell_checks;
mod equality;
mod faults;
mod laws;
mod part_changes;
mod part_of_cells;
mod parts;
mod resource_changes;
mod resources;
mod row_lists;
mod row_splits;
mod uniqueness;
mod validity;

pub use faults::Invalid;
pub use laws::{cells_are_listed, cells_stand_in_rows, parts_are_sound_rows, rows_determine_cells};
pub use parts::Part;
pub use resources::{Resource, location};
pub use row_lists::copy_rows;
pub use row_splits::values_among;
pub use uniqueness::{UniqueName, known_text, unique_names};
pub use validity::is_resource;
