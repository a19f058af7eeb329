//! Prints the results of events as lines.
ghost use Rattle.std.specs.Prelude.{◌≡◌, ◌++◌, IfOk, OnOk, map, length, string_bytes};
ghost use Rattle.std.specs.List.{flat_map};
ghost use Rattle.scim_hub.specs.HubStates.{output_of, done, event_of};
ghost use Rattle.scim_command.specs.Outputs as spec;

use scim_hub::{Event, HubFault, Output};
use scim_text::NoMemory;
use std::alloc::Global;

/// Returns the words that describe the error of an event.
fn fault_words(fault: HubFault) -> &'static str
    ensures { result.now ≡ spec.fault_words fault }
{
    match fault {
        HubFault::AlreadyJoined => "already joined",
        HubFault::Unknown => "unknown",
        HubFault::Closed => "closed",
        HubFault::NoMemory => "out of memory",
    }
}

/// Returns the line that describes an output.
fn output_line(alloc: Global, output: &Output) -> Result<String, NoMemory>
    ensures { IfOk result (λ line. string_bytes line ≡ spec.deed_line (output_of output.now)) }
{
    match output {
        Output::Write(connection, text) => {
            let digits = hex::encode(alloc, text.as_str())?;
            Ok(format!(in alloc; "write {connection} {digits}\n")?)
        }
        Output::Shut(connection) => Ok(format!(in alloc; "close {connection}\n")?),
    }
}

/// Returns the lines that describe the outputs, in order.
fn output_lines(alloc: Global, outputs: &[Output]) -> Result<String, NoMemory>
    ensures { IfOk result (λ text. string_bytes text
        ≡ flat_map spec.deed_line (map output_of outputs.now)) }
{
    let mut text = String::new(alloc);
    for output in outputs {
        let line = output_line(alloc, output)?;
        text.push_str(line.as_str())?;
    }
    Ok(text)
}

/// Returns the lines for the result of an event of a connection.
fn result_lines(
    alloc: Global,
    connection: u64,
    answer: &Result<Vec<Output>, HubFault>,
) -> Result<String, NoMemory>
    ensures { IfOk result (λ text. string_bytes text
        ≡ spec.result_lines connection (done answer.now)) }
{
    match answer {
        Ok(outputs) => output_lines(alloc, outputs.as_slice()),
        Err(fault) => {
            let words = fault_words(*fault);
            Ok(format!(in alloc; "fault {connection} {words}\n")?)
        }
    }
}

/// Returns the lines for the results of events, in order.
///
/// A line is `write N HEX` for a text written to connection N, `close N` if connection N is shut, and
/// `fault N` followed by the reason if an event of connection N failed. `events` and `results` should have
/// the same length; further entries of the longer list are ignored.
pub(crate) fn results_text(
    alloc: Global,
    events: &[Event<'_>],
    results: &[Result<Vec<Output>, HubFault>],
) -> Result<String, NoMemory>
    ensures { length events.now ≡ length results.now
        → IfOk result (λ text. string_bytes text
        ≡ spec.results_text (map event_of events.now) (map done results.now)) }
{
    let mut text = String::new(alloc);
    for index in 0..events.len().min(results.len()) {
        let lines = result_lines(alloc, events[index].connection, &results[index])?;
        text.push_str(lines.as_str())?;
    }
    Ok(text)
}
