//! Compares names and folds texts without regard to case (RFC 7643 section 2.1), and prints and reads
//! moments as the `dateTime` of RFC 7643 section 2.3.5.
#![tactic(auto)]

mod laws;
mod memory;
mod moment_readings;
mod moments;
mod names;

pub use laws::{
    moment_in_is_spelled, one_reading, printed_moments_are_ordered, printed_moments_are_read,
    printed_reads_back, readings_are_ordered,
};
pub use memory::{Failed, NoMemory, push};
pub use moment_readings::{BadMoment, Reading, read_moment};
pub use moments::{Moment, print_moment, read_printed_moment};
pub use names::{fold, same_name};
