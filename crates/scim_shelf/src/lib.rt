//! The store of a service provider as a trait, `Shelf`, with an implementation in memory. A shelf finds resources by id, by unique name, by member and by the texts of some
//! leaves, and stores the audit rows (RFC 7643 sections 2.2, 3.1 and 4.2).
#![tactic(auto)]

mod changes;
mod collections;
mod commits;
mod copies;
mod faults;
mod indexed_texts;
mod kind_ids;
mod leaf_texts;
mod members;
mod memory;
mod owners;
mod shelf;
mod text_filters;
mod text_index;
mod windows;

pub use changes::Change;
pub use collections::Collection;
pub use commits::Commit;
pub use copies::{all_of, collection_of};
pub use faults::ShelfFault;
pub use indexed_texts::unshared_values;
pub use leaf_texts::LeafText;
pub use members::{member_values, remove_member_values};
pub use memory::MemoryShelf;
pub use shelf::{BatchShelf, Shelf, Visitor, show_all};
