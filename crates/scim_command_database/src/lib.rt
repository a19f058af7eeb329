//! The commands over a database: `explain`, `import`, `export`, `audit` and `archive`, generic in the storage and
//! the output.
//!
//! Cases: `crates/cases/data/database_commands.jsonl`.
#![tactic(auto)]

mod archiving;
mod auditing;
mod explaining;
mod exporting;
mod faults;
mod importing;
mod laws;
mod merging;
mod works;

pub use archiving::{archive, archive_databases};
pub use auditing::print_audit;
pub use explaining::{Question, explain, told};
pub use exporting::export;
pub use faults::unopened;
pub use importing::import;
pub use laws::exports_are_imported;
pub use merging::{MERGE_CLIENT, Merging, merge_users};
pub use works::{Auditing, DatabaseWork, Explaining, Importing, open_cached};
