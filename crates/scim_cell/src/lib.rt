//! Ids, atoms, and the cells and rows of atoms that make up parts and resources (RFC 7643 sections
//! 2 and 3.1).
#![tactic(auto)]

mod atoms;
mod cells;
mod distinct_values;
mod equality;
mod ids;
mod places;
mod row_checks;
mod rows;
mod same_value_keys;
mod same_values;

pub use atoms::{Atom, Text};
pub use cells::{Cell, has_type};
pub use distinct_values::with_values;
pub use ids::{Id, id_of, ids_ordered_as_texts, ids_read_back, uuid_of};
pub use places::{Place, compare_units, sub_attributes_by_place};
pub use row_checks::are_values;
pub use rows::{Field, Row, RowJudge, RowTest};
pub use same_values::{is_nameless, is_same_value};
