//! Writes the texts of outputs.
ghost use Rattle.std.specs.Prelude.{◌≡◌, count_by, map};
ghost use Rattle.std.specs.List.{list_any, flat_map};
ghost use Rattle.scim_hub.specs.HubStates.{output_of};
ghost use Rattle.scim_hub.specs.Streams as spec;
ghost use Rattle.scim_hub.specs.Streams.{text_in};
ghost use Rattle.scim_hub.specs.code.Servings.{IsWrittenOut};

use crate::answering::CONTINUE;
use crate::events::Output;
use crate::io_faults::IoFault;
use scim_wire::write_text;
use std::io::Write;

/// Writes the text of an output, if any. Fails with `Write` if a write fails; then a prefix of the text has
/// been written.
fn write_output<W: Write>(output: &Output, writer: &mut W) -> Result<(), IoFault>
    ensures { IsWrittenOut (W.contents writer.old) (W.contents writer.new)
        (text_in (output_of output.now)) result }
{
    match output {
        Output::Write(_, text) => match write_text(text.as_str(), writer) {
            Ok(()) => Ok(()),
            Err(_) => Err(IoFault::Write),
        },
        Output::Shut(_) => Ok(()),
    }
}

/// Writes the texts of the outputs, in order.
///
/// Fails with `Write` if a write fails; then a prefix of the concatenated texts has been written.
pub(crate) fn write_outputs<W: Write>(outputs: &[Output], writer: &mut W) -> Result<(), IoFault>
    ensures { IsWrittenOut (W.contents writer.old) (W.contents writer.new)
        (flat_map text_in (map output_of outputs.now)) result }
{
    for output in outputs {
        write_output(output, writer)?;
    }
    Ok(())
}

/// Whether the output writes a reply, that is, a text other than 100 (Continue).
#[tactic(auto, unfolding(crate::specs::Answering::continue_text))]
fn is_reply(output: &Output) -> bool
    ensures { result ≡ spec.is_reply (output_of output.now) }
{
    match output {
        Output::Write(_, text) => text.as_str() != CONTINUE,
        Output::Shut(_) => false,
    }
}

/// Whether the output shuts the connection.
fn is_shutting(output: &Output) -> bool
    ensures { result ≡ spec.is_shutting (output_of output.now) }
{
    match output {
        Output::Write(_, _) => false,
        Output::Shut(_) => true,
    }
}

/// Returns the number of replies in the outputs.
pub(crate) fn reply_count(outputs: &[Output]) -> usize
    ensures { result ≡ count_by (λ o. spec.is_reply (output_of o)) outputs.now }
{
    outputs.iter().filter(|output| is_reply(output)).count()
}

/// Whether any output shuts the connection.
pub(crate) fn is_any_shutting(outputs: &[Output]) -> bool
    ensures { result ≡ list_any (λ o. spec.is_shutting (output_of o)) outputs.now }
{
    outputs.iter().any(|output| is_shutting(output))
}
