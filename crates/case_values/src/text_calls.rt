//! The calls of `scim_text`.
use crate::arguments::{order, said, shown, truth};
use crate::case::Case;
use crate::faults::CaseFault;
use crate::tables::named;
use scim_text::{Moment, fold, print_moment, read_moment, read_printed_moment, same_name};

/// A call of `scim_text`.
#[derive(Clone, Copy)]
enum TextCall {
    SameName,
    Fold,
    PrintMoment,
    ReadMoment,
    ReadPrintedMoment,
    OrderOfReadings,
}

static CALLS: [(&str, TextCall); 6] = [
    ("same_name", TextCall::SameName),
    ("fold", TextCall::Fold),
    ("print_moment", TextCall::PrintMoment),
    ("read_moment", TextCall::ReadMoment),
    ("read_printed_moment", TextCall::ReadPrintedMoment),
    ("order_of_readings", TextCall::OrderOfReadings),
];

/// Returns the result of the case's call, or `None` if it isn't a call of `scim_text`.
pub fn answer(case: &Case<'_>, call: &str) -> Option<Result<String, CaseFault>> {
    let call = named(&CALLS, call)?;
    Some(match call {
        TextCall::SameName => same_name_call(case),
        TextCall::Fold => fold_call(case),
        TextCall::PrintMoment => print_moment_call(case),
        TextCall::ReadMoment => read_moment_call(case),
        TextCall::ReadPrintedMoment => read_printed_moment_call(case),
        TextCall::OrderOfReadings => order_call(case),
    })
}

fn same_name_call(case: &Case<'_>) -> Result<String, CaseFault> {
    truth(
        case.alloc,
        same_name(case.text("text")?, case.text("other")?),
    )
}

fn fold_call(case: &Case<'_>) -> Result<String, CaseFault> {
    Ok(fold(case.alloc, case.text("text")?)?)
}

/// Returns the text of the moment that the argument `second` gives in seconds since 1970, or `none` if there
/// is no such moment.
fn print_moment_call(case: &Case<'_>) -> Result<String, CaseFault> {
    match Moment::new(case.number("second")?) {
        Some(moment) => Ok(print_moment(case.alloc, moment)?),
        None => said(case.alloc, "none"),
    }
}

/// Returns the second of a timestamp, followed by ` later` if the timestamp is later than this second.
/// Returns `BadMoment` if the timestamp is invalid.
fn read_moment_call(case: &Case<'_>) -> Result<String, CaseFault> {
    let Ok(reading) = read_moment(case.text("text")?) else {
        return said(case.alloc, "BadMoment");
    };
    let mut text = shown(case.alloc, &reading.second)?;
    if reading.later {
        text.push_str(" later")?;
    }
    Ok(text)
}

fn read_printed_moment_call(case: &Case<'_>) -> Result<String, CaseFault> {
    match read_printed_moment(case.alloc, case.text("text")?)? {
        Some(moment) => shown(case.alloc, &moment.seconds()),
        None => said(case.alloc, "none"),
    }
}

/// Returns the order of two timestamps, or `BadMoment` if one is invalid.
fn order_call(case: &Case<'_>) -> Result<String, CaseFault> {
    let first = read_moment(case.text("text")?);
    let second = read_moment(case.text("other")?);
    let (Ok(first), Ok(second)) = (first, second) else {
        return said(case.alloc, "BadMoment");
    };
    order(case.alloc, first.cmp(&second))
}
