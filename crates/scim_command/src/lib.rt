//! Implements the commands `once`, `check` and `replay`, given the texts of their files, a reader and a
//! writer. Also defines the command line, the options and the error messages of all commands.
#![tactic(auto)]

mod answers;
mod audit_options;
mod borrowed_events;
mod checks;
mod command_faults;
mod command_line;
mod database_options;
mod event_files;
mod event_lines;
mod explain_options;
mod faults;
mod file_commands;
mod files;
mod inputs;
mod memory_services;
mod new_tokens;
mod option_defaults;
mod option_details;
mod options;
mod outputs;
mod replay_options;
mod replaying;
mod replays;
mod run_once;
mod serve_files;
mod serve_options;
mod token_files;
mod writing;

pub use audit_options::AuditOptions;
pub use borrowed_events::events_of;
pub use checks::check;
pub use command_faults::{ArchiveCause, CommandFault, OneLine};
pub use command_line::{CommandName, VERSION, command};
pub use database_options::{ArchiveOptions, ExportOptions, ImportOptions};
pub use event_files::{FaultyLine, read_events};
pub use explain_options::ExplainOptions;
pub use faults::{DatabaseFault, RunFault};
pub use file_commands::{check_over_files, once_over_files};
pub use files::{FileKind, find_file, policy_at, read_file};
pub use memory_services::service_over;
pub use new_tokens::print_new_token;
pub use option_defaults::DEFAULT_BASE;
pub use option_details::{OptionDetail, ValueForm, option_detail};
pub use options::{CheckOptions, OnceOptions};
pub use replay_options::ReplayOptions;
pub use replaying::{replay_over_files, tokens_at};
pub use replays::{Recording, replay};
pub use run_once::{Setting, once};
pub use serve_files::{ServeFiles, serve_files_at};
pub use serve_options::{AdminOptions, LimitOptions, ServeOptions};
pub use writing::write_or_fault;
