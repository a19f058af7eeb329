//! Lemmas about the texts of moments.
ghost use Rattle.scim_text.specs.Moments.{PrintedIsRead};
ghost use Rattle.scim_text.specs.MomentIn.{MomentInIsSpelled};
ghost use Rattle.scim_text.specs.Readings.{HasOneReading, PrintedReadsBack, OrdersReadings, ReadingsAreOrdered, PrintedInOrder};

use crate::moment_readings::Reading;

/// Lemma: a text denotes at most one instant. So [`crate::read_moment`] returns the only possible
/// reading of the text.
pub fn one_reading()
    ensures { HasOneReading }
{}

/// Lemma: the printed text of a moment denotes that moment, without a fraction. So
/// [`crate::read_moment`] reads back what [`crate::print_moment`] prints.
pub fn printed_reads_back()
    ensures { PrintedReadsBack }
{}

/// Lemma: no two moments have the same text. So [`crate::read_printed_moment`] reads back what
/// [`crate::print_moment`] prints.
pub fn printed_moments_are_read()
    ensures { PrintedIsRead }
{}

/// Lemma: `moment_in`, the function that contracts use for the reading of a text, agrees with the
/// relation `Spells`. It returns a reading exactly if the text denotes that reading.
pub fn moment_in_is_spelled()
    ensures { MomentInIsSpelled }
{}

/// Lemma: the derived order compares readings by second. Within a second, a reading without a fraction
/// comes before a reading with one. This order is total, and only equal readings compare as equal.
pub fn readings_are_ordered()
    ensures order { OrdersReadings ⟦<Reading as Ord>⟧.cmp }
    ensures total { ReadingsAreOrdered }
{}

/// Lemma: the readings of the printed texts of two moments are in the same order as the moments.
pub fn printed_moments_are_ordered()
    ensures { PrintedInOrder }
{}
