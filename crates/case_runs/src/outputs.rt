//! The expected outputs of a case of events.
use crate::requests::{message_text, push_lines};
use case_values::{Argument, Case, CaseFault, Form, push_all, said, shown};

/// Returns the lines of the list `outputs`, followed by the lines of the list `audit`.
///
/// An output is a line in the format of `replay`, a list of lines in this format, or an object. The object
/// has the number of a connection in `to`, and the head and the body of the reply written to this connection
/// in `reply` and `gives`.
pub(crate) fn outputs_text(case: &Case<'_>) -> Result<String, CaseFault> {
    let mut text = String::new(case.alloc);
    for value in case.list("outputs") {
        let lines = output_lines(case, value)?;
        text.push_str(lines.as_str())?;
    }
    push_lines(case, "audit", ";", &mut text)?;
    Ok(text)
}

/// Returns the lines of one output.
fn output_lines(case: &Case<'_>, output: &Argument) -> Result<String, CaseFault> {
    match output.form {
        Form::Text => with_end(case, output.text.as_str()),
        Form::List => lines_of(case, case.items(output)),
        _ => write_line(&case.inner(output)),
    }
}

fn with_end(case: &Case<'_>, line: &str) -> Result<String, CaseFault> {
    let mut text = said(case.alloc, line)?;
    text.push_str("\n")?;
    Ok(text)
}

fn lines_of(case: &Case<'_>, lines: &[Argument]) -> Result<String, CaseFault> {
    let mut text = String::new(case.alloc);
    for line in lines {
        push_all(&mut text, &[line.as_str().unwrap_or("no line"), "\n"])?;
    }
    Ok(text)
}

/// Returns the line that says that a reply is written to a connection.
fn write_line(output: &Case<'_>) -> Result<String, CaseFault> {
    let connection = shown(output.alloc, &output.count("to")?)?;
    let reply = message_text(output, "reply", "gives", false)?;
    let digits = hex::encode(output.alloc, reply.as_str())?;
    let mut text = String::new(output.alloc);
    push_all(
        &mut text,
        &["write ", connection.as_str(), " ", digits.as_str(), "\n"],
    )?;
    Ok(text)
}
