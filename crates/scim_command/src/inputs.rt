//! Reads the first message of an input.
ghost use Rattle.std.specs.Prelude.{◌≡◌, [], Err, IfOk, IfSome, IfNone, All};
ghost use Rattle.scim_text.specs.declared.memory.Failed.{Failed};
ghost use Rattle.scim_wire.specs.Wires.{StandsFor};
ghost use Rattle.scim_command.specs.declared.inputs.InputFault.{InputFault};
ghost use Rattle.scim_command.specs.Inputs.{IsContinue, IsFirstOf, OpensWith, IsUnended};

use scim_audit::Refusal;
use scim_text::Failed;
use scim_wire::{Item, Message, Wire};
use std::alloc::Global;
use std::io::Read;

/// The reason why no message or refusal could be read from an input.
#[derive(Clone, Copy)]
pub(crate) enum InputFault {
    /// The input ended before the message did.
    Ended,
    /// A read failed.
    ReadFailed,
}

/// Returns the first message or refusal among the items; `None` if there is none. [`Item::Continue`] is
/// ignored.
fn first_of(items: Vec<Item>) -> Option<Result<Message, Refusal>>
    ensures first { IfSome result (IsFirstOf items.items) }
    ensures none { IfNone result (All IsContinue items.items) }
{
    for item in items {
        match item {
            Item::Continue => {}
            Item::Whole(message) => return Some(Ok(message)),
            Item::Refused(refusal) => return Some(Err(refusal)),
        }
    }
    None
}

/// Reads the first message of an input, or the refusal of bytes that aren't a message.
///
/// Reads in blocks, so bytes after the message may be consumed and dropped. Fails with `Ended` if the input
/// ends before the message does, and with `ReadFailed` if a read fails.
pub(crate) fn read_first<R: Read>(
    alloc: Global,
    reader: &mut R,
) -> Result<Result<Message, Refusal>, Failed<InputFault>>
    ensures first { IfOk result (λ first.
        IfSome (R.remaining reader.old) (λ input. OpensWith input first)) }
    ensures ended { result ≡ Err (Failed.Because InputFault.Ended)
        → IfSome (R.remaining reader.old) IsUnended }
{
    let mut wire = Wire::new(alloc);
    first_through(alloc, &mut wire, reader)
}

/// Reads the first message of an input, or the refusal of bytes that aren't a message, through a wire that
/// has read no bytes. Fails with the errors of [`read_first`].
///
/// The wire is borrowed so that this function doesn't drop it at each of its exits, which keeps the proof
/// short.
fn first_through<R: Read>(
    alloc: Global,
    wire: &mut Wire,
    reader: &mut R,
) -> Result<Result<Message, Refusal>, Failed<InputFault>>
    requires { StandsFor wire.old [] [] }
    ensures first { IfOk result (λ first.
        IfSome (R.remaining reader.old) (λ input. OpensWith input first)) }
    ensures ended { result ≡ Err (Failed.Because InputFault.Ended)
        → IfSome (R.remaining reader.old) IsUnended }
{
    let mut block = [0; 8192];
    for _ in 0..u64::MAX {
        let Ok(count) = reader.read(&mut block) else {
            return Err(Failed::Because(InputFault::ReadFailed));
        };
        if count == 0 {
            return Err(Failed::Because(InputFault::Ended));
        }
        let items = wire.feed(alloc, &block[..count])?;
        if let Some(first) = first_of(items) {
            return Ok(first);
        }
    }
    Err(Failed::Because(InputFault::ReadFailed))
}
