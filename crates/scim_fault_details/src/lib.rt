//! Says more about the fault of a file than the program's fixed line for it: the place and the word.
//!
//! Each function reads the text of a faulty file again, and returns one line of text without a line feed, in
//! which control characters are escaped. It returns `None` if it can't name a reason with certainty.
//!
//! Cases: `crates/cases/data/fault_details.jsonl`.
#![tactic(auto)]

mod document_checks;
mod document_details;
mod earlier_items;
mod filter_names;
mod json_lists;
mod json_places;
mod nearest;
mod one_line;
mod path_details;
mod policy_details;
mod rule_words;
mod shape_details;
mod target_details;
mod token_details;
mod unknown_names;
mod users_details;
mod value_checks;
mod value_places;

pub use one_line::OneLine;
pub use policy_details::policy_detail;
pub use token_details::tokens_detail;
pub use users_details::users_detail;
