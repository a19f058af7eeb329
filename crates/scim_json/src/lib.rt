//! The JSON of SCIM. Writes the JSON text of a part for clients, and writes and reads the JSON text of a
//! stored resource (RFC 7643 sections 2.3, 3 and 8, RFC 7644 section 3).
#![tactic(auto)]

mod atoms;
mod fast_path;
mod faults;
mod kept_resources;
mod laws;
mod list_responses;
mod stored_documents;
mod users_files;
mod writing;

pub use atoms::atom_of;
pub use faults::{Damaged, DamagedItem};
pub use kept_resources::{door_code_of, kept_parts, read_kept};
pub use laws::{
    documents_are_apart, documents_read_back, kept_parts_determine, kept_parts_read_back,
    parts_are_shown_whole, stored_resources_read_back,
};
pub use list_responses::to_list_json;
pub use stored_documents::read_stored;
pub use users_files::{DocumentReader, check_documents, read_documents};
pub use writing::{has_extension, stored_text, to_json};
