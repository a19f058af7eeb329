//! Counts the cases, and the cases with the expected result.
use crate::faults::FolderFault;
use case_values::Case;
use std::io::Print;
use std::process::ExitCode;

/// The number of cases, and the number of cases with the expected result.
#[derive(Clone, Copy)]
pub struct Tally {
    cases: u64,
    as_written: u64,
}

/// The place of a case: its file, and the number of its line or list item, counted from 1.
#[derive(Clone, Copy)]
pub struct Place<'a> {
    pub file: &'a str,
    pub line: usize,
}

/// The expected and the actual result of a case.
#[derive(Clone, Copy)]
pub struct Outcome<'a> {
    pub expected: &'a str,
    pub found: &'a str,
}

impl Tally {
    /// Returns a tally of no cases.
    pub fn new() -> Tally {
        Tally {
            cases: 0,
            as_written: 0,
        }
    }

    /// Counts a case, and prints it if its result differs from the expected one.
    pub fn take(
        &mut self,
        rt: &impl Print,
        place: &Place<'_>,
        case: &Case<'_>,
        outcome: &Outcome<'_>,
    ) -> Result<(), FolderFault> {
        self.cases = self.cases.saturating_add(1);
        if outcome.expected == outcome.found {
            self.as_written = self.as_written.saturating_add(1);
            return Ok(());
        }
        print_place(rt, place, case)?;
        print_outcome(rt, case, outcome)
    }

    /// Prints the number of cases, and the number of cases with the expected result.
    pub(crate) fn print(self, rt: &impl Print) -> Result<(), FolderFault> {
        println!(rt; "{} cases, {} as written", self.cases, self.as_written)?;
        Ok(())
    }

    /// Returns the exit status: 0 if every result is as expected, 1 if a result isn't, and 2 if there are no
    /// cases.
    pub fn exit_code(self) -> ExitCode {
        if self.cases == 0 {
            ExitCode::from(2)
        } else if self.cases == self.as_written {
            ExitCode::SUCCESS
        } else {
            ExitCode::FAILURE
        }
    }
}

/// Prints the place of a case and its call. If the case has no `call`, prints its `shows` or its `name`.
fn print_place(rt: &impl Print, place: &Place<'_>, case: &Case<'_>) -> Result<(), FolderFault> {
    let name = case.text_or("call", case.text_or("shows", case.text_or("name", "")));
    println!(rt; "{} line {}: {name}", place.file, place.line)?;
    Ok(())
}

/// Prints the expected and the actual result of a case, and its argument `since` if that isn't empty.
fn print_outcome(
    rt: &impl Print,
    case: &Case<'_>,
    outcome: &Outcome<'_>,
) -> Result<(), FolderFault> {
    print_line(rt, "  expected ", outcome.expected)?;
    print_line(rt, "  found    ", outcome.found)?;
    let since = case.text_or("since", "");
    if !since.is_empty() {
        print_line(rt, "  since    ", since)?;
    }
    Ok(())
}

/// Prints a text after its label.
fn print_line(rt: &impl Print, what: &str, text: &str) -> Result<(), FolderFault> {
    println!(rt; "{what}{text}")?;
    Ok(())
}
