//! Runs the cases in the files of a folder.
use crate::arguments::arguments_of;
use crate::expected::expected;
use crate::faults::FolderFault;
use crate::folder::{case_files, read};
use crate::tally::{Outcome, Place, Tally};
use case_values::{Case, CaseFault, shown};
use serde_json::Value;
use std::alloc::Global;
use std::io::Print;
use std::rt::Files;

/// Runs the calls that cases name.
pub trait Calls {
    /// Returns the result of the case's call as text.
    fn answer(&self, case: &Case<'_>) -> Result<String, CaseFault>;
}

/// Runs the cases in the files of a folder. Prints each case whose result differs from the expected one. Then
/// prints the number of cases, and the number of cases with the expected result.
pub fn go_through<R: Print + Files + AllocGlobal + Clone + Drop>(
    rt: &R,
    alloc: Global,
    folder: &str,
    calls: &impl Calls,
) -> Result<Tally, FolderFault> {
    let tally = tally_of(rt, alloc, folder, calls)?;
    tally.print(rt)?;
    Ok(tally)
}

fn tally_of<R: Print + Files + AllocGlobal + Clone + Drop>(
    rt: &R,
    alloc: Global,
    folder: &str,
    calls: &impl Calls,
) -> Result<Tally, FolderFault> {
    let names = case_files(rt, alloc, folder)?;
    take_files(rt, alloc, folder, names.as_slice(), calls)
}

fn take_files(
    rt: &(impl Print + Files + AllocGlobal),
    alloc: Global,
    folder: &str,
    names: &[String],
    calls: &impl Calls,
) -> Result<Tally, FolderFault> {
    let mut tally = Tally::new();
    for name in names {
        take_named(rt, alloc, folder, name.as_str(), calls, &mut tally)?;
    }
    Ok(tally)
}

/// Runs the cases in the file with this name in the folder.
fn take_named(
    rt: &(impl Print + Files + AllocGlobal),
    alloc: Global,
    folder: &str,
    name: &str,
    calls: &impl Calls,
    tally: &mut Tally,
) -> Result<(), FolderFault> {
    let text = read(rt, alloc, folder, name)?;
    take_file(rt, alloc, name, text.as_str(), calls, tally)
}

/// Runs the cases in a file: the items of a JSON list if its name ends in `.json`, otherwise its lines.
fn take_file(
    rt: &impl Print,
    alloc: Global,
    file: &str,
    text: &str,
    calls: &impl Calls,
    tally: &mut Tally,
) -> Result<(), FolderFault> {
    if file.ends_with(".json") {
        take_list(rt, alloc, file, text, calls, tally)
    } else {
        take_lines(rt, alloc, file, text, calls, tally)
    }
}

/// Runs the cases in a JSON list, numbered from 1. Counts a text that isn't a JSON list as one case with an
/// unexpected result.
fn take_list(
    rt: &impl Print,
    alloc: Global,
    file: &str,
    text: &str,
    calls: &impl Calls,
    tally: &mut Tally,
) -> Result<(), FolderFault> {
    let Ok(Value::Array(values)) = Value::from_str(alloc, text) else {
        let place = Place { file, line: 1 };
        return take_no_json(rt, alloc, &place, "a JSON list", file, tally);
    };
    for (index, value) in values.iter().enumerate() {
        let line = index.saturating_add(1);
        take_value(rt, alloc, &Place { file, line }, value, calls, tally)?;
    }
    Ok(())
}

/// Runs the cases in the lines of a file. Skips empty lines and lines that begin with `#`.
fn take_lines(
    rt: &impl Print,
    alloc: Global,
    file: &str,
    text: &str,
    calls: &impl Calls,
    tally: &mut Tally,
) -> Result<(), FolderFault> {
    for (index, line) in text.lines().enumerate() {
        if !line.is_empty() && !line.starts_with('#') {
            let place = Place {
                file,
                line: index.saturating_add(1),
            };
            take_line(rt, alloc, &place, line, calls, tally)?;
        }
    }
    Ok(())
}

fn take_line(
    rt: &impl Print,
    alloc: Global,
    place: &Place<'_>,
    line: &str,
    calls: &impl Calls,
    tally: &mut Tally,
) -> Result<(), FolderFault> {
    match Value::from_str(alloc, line) {
        Ok(value) => take_value(rt, alloc, place, &value, calls, tally),
        Err(_) => take_no_json(rt, alloc, place, "a JSON object", line, tally),
    }
}

/// Counts a text that isn't a JSON list or a JSON value as a case with an unexpected result.
fn take_no_json(
    rt: &impl Print,
    alloc: Global,
    place: &Place<'_>,
    expected: &str,
    found: &str,
    tally: &mut Tally,
) -> Result<(), FolderFault> {
    let case = Case::of(alloc, &[]);
    tally.take(rt, place, &case, &Outcome { expected, found })
}

/// Runs the case in a JSON value.
fn take_value(
    rt: &impl Print,
    alloc: Global,
    place: &Place<'_>,
    value: &Value,
    calls: &impl Calls,
    tally: &mut Tally,
) -> Result<(), FolderFault> {
    let arguments = arguments_of(alloc, value)?;
    let case = Case::of(alloc, arguments.as_slice());
    take_case(rt, place, &case, calls, tally)
}

/// Runs a case and compares its result with the expected one.
fn take_case(
    rt: &impl Print,
    place: &Place<'_>,
    case: &Case<'_>,
    calls: &impl Calls,
    tally: &mut Tally,
) -> Result<(), FolderFault> {
    let expected = told(case, expected(case))?;
    let found = told(case, calls.answer(case))?;
    let outcome = Outcome {
        expected: expected.as_str(),
        found: found.as_str(),
    };
    tally.take(rt, place, case, &outcome)
}

/// Returns the result, or `no answer: ` and the text of the error.
fn told(case: &Case<'_>, found: Result<String, CaseFault>) -> Result<String, FolderFault> {
    match found {
        Ok(found) => Ok(found),
        Err(fault) => {
            let mut text = String::from_str(case.alloc, "no answer: ")?;
            text.write(fault)?;
            Ok(text)
        }
    }
}
