//! A log of whole lines over a writer that may take a part of what it is offered, or fail.
#![tactic(auto)]

mod line_logs;

pub use line_logs::LineLog;
