//! Writes the output of a command.
ghost use Rattle.std.specs.Prelude.{◌≡◌, IfErr, OnOk, OnErr};
ghost use Rattle.std.specs.Io.KnownBytes.{Appends};
ghost use Rattle.scim_wire.specs.Streams.{AppendsFront};
ghost use Rattle.scim_command.specs.declared.faults.RunFault.{RunFault};

use crate::faults::RunFault;
use scim_wire::write_text;
use std::io::Write;

/// Writes the text. Fails with `Output` if a write fails; then a prefix of the text has been written, and
/// nothing else.
pub fn write_or_fault<W: Write>(text: &str, writer: &mut W) -> Result<(), RunFault>
    ensures whole { OnOk result (Appends (W.contents writer.old) (W.contents writer.new) text.now) }
    ensures front { OnErr result (AppendsFront (W.contents writer.old)
        (W.contents writer.new) text.now) }
    ensures fault { IfErr result (λ f. f ≡ RunFault.Output) }
{
    match write_text(text, writer) {
        Ok(()) => Ok(()),
        Err(_) => Err(RunFault::Output),
    }
}
