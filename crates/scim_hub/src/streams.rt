//! Serves one stream with a hub.
ghost use Rattle.std.specs.Prelude.{◌≡◌, ◌≢◌, List, []};
ghost use Rattle.scim_token.specs.TokenFile.{Entry};
ghost use Rattle.scim_token.specs.Tokens.{Knows};
ghost use Rattle.scim_hub.specs.Events.{HubState};
ghost use Rattle.scim_hub.specs.HubStates.{IsHubState};
ghost use Rattle.scim_hub.specs.Streams.{IsStreamServed, IsVisit};
ghost use Rattle.scim_hub.specs.code.Servings.{IsPieceServed};
ghost use Rattle.scim_hub.specs.HubSetting.{hub_base, hub_policy, hub_shelf, hub_tokens, KeepsHubSetting};

use crate::events::{Event, EventKind, Stamp};
use crate::hubs::Hub;
use crate::io_faults::IoFault;
use crate::stamps::Stamps;
use crate::writing::{is_any_shutting, reply_count, write_outputs};
use scim_shelf::Shelf;
use std::alloc::Global;
use std::io::{Read, Write};

/// The maximum number of reads of a stream.
const MOST_READS: u64 = 1_000_000;

/// The result of serving a stream.
#[derive(Clone, Copy, PartialEq, Eq)]
pub struct Served {
    /// The number of replies written, without 100 (Continue).
    pub replies: u64,
}

/// The result of serving a piece.
#[derive(Clone, Copy)]
struct Written {
    replies: usize,
    /// Whether the connection is shut after the piece.
    shut: bool,
}

/// Handles the next piece of a connection's stream, and writes the outputs.
///
/// Fails with `Stamp` if no stamp is available; the hub hasn't handled the piece then. Fails with `Hub` if
/// the hub fails. Fails with `Write` if a write fails; then a prefix of the outputs' text has been written.
fn serve_piece<W: Write, S: Shelf, T: Stamps>(
    alloc: Global,
    piece: &[u8],
    writer: &mut W,
    hub: &mut Hub<S>,
    connection: u64,
    stamps: &mut T,
) -> Result<Written, IoFault>
    ensures keeps { KeepsHubSetting hub.old hub.new }
    ensures served { (entries : List Entry) (state : HubState) → Knows entries (hub_tokens hub.old)
        → IsHubState S.stands hub.old state → S.is_honest (hub_shelf hub.new) → piece.now ≢ []
        → (next : HubState) × IsHubState S.stands hub.new next
        × IsPieceServed (hub_policy hub.old) (hub_base hub.old) entries connection state next
        piece.now
        (T.given stamps.old) (T.given stamps.new) (W.contents writer.old)
        (W.contents writer.new) result }
    ensures honest { S.is_honest (hub_shelf hub.new) → S.is_honest (hub_shelf hub.old) }
{
    let stamp = stamps.next()?;
    let event = Event {
        connection,
        stamp,
        kind: EventKind::Piece(piece),
    };
    let outputs = hub.event(alloc, &event)?;
    write_outputs(outputs.as_slice(), writer)?;
    Ok(Written {
        replies: reply_count(outputs.as_slice()),
        shut: is_any_shutting(outputs.as_slice()),
    })
}

/// Reads the stream of a connection in pieces and serves each, until the stream ends or the connection is
/// shut.
///
/// Fails with `Read` if a read fails, and with `Turns` after a million reads that returned bytes. If
/// [`serve_piece`] fails, returns its error.
fn serve_pieces<R: Read, W: Write, S: Shelf, T: Stamps>(
    alloc: Global,
    reader: &mut R,
    writer: &mut W,
    hub: &mut Hub<S>,
    connection: u64,
    stamps: &mut T,
) -> Result<Served, IoFault>
    ensures keeps { KeepsHubSetting hub.old hub.new }
    ensures served { (entries : List Entry) (state : HubState) → Knows entries (hub_tokens hub.old)
        → IsHubState S.stands hub.old state → S.is_honest (hub_shelf hub.new)
        → (next : HubState) × IsHubState S.stands hub.new next
        × IsStreamServed (hub_policy hub.old) (hub_base hub.old) entries connection state next
        (R.remaining reader.old) (R.remaining reader.new)
        (T.given stamps.old) (T.given stamps.new) (W.contents writer.old)
        (W.contents writer.new) result }
    ensures honest { S.is_honest (hub_shelf hub.new) → S.is_honest (hub_shelf hub.old) }
{
    let mut replies: u64 = 0;
    let mut block = [0; 8192];
    for _ in 0..MOST_READS {
        let Ok(count) = reader.read(&mut block) else {
            return Err(IoFault::Read);
        };
        if count == 0 {
            return Ok(Served { replies });
        }
        let written = serve_piece(alloc, &block[..count], writer, hub, connection, stamps)?;
        replies = replies.saturating_add(written.replies as u64);
        if written.shut {
            return Ok(Served { replies });
        }
    }
    Err(IoFault::Turns)
}

/// Serves one stream with a hub: the connection joins, each piece of its stream is answered at once, and the
/// connection leaves.
///
/// Stops when the stream ends, right after the piece that shuts the connection, or at an error. Doesn't flush
/// the writer.
///
/// Errors:
///
/// - `Hub`: [`Hub::event`] failed. If the connection couldn't join, nothing was read or written.
/// - `Read`, `Write`: a read or a write failed; an interrupted read counts as failed.
/// - `Stamp`: no stamp was available for a piece, which is lost.
/// - `Turns`: a million reads returned bytes.
///
/// If an error occurs after the connection joined, the connection has left. After `Hub` or `Stamp` the
/// replies to all pieces before the failed one have been written, after `Read` or `Turns` the replies to all
/// pieces, and after `Write` a prefix of the replies' text.
pub fn serve_stream<R: Read, W: Write, S: Shelf, T: Stamps>(
    alloc: Global,
    reader: &mut R,
    writer: &mut W,
    hub: &mut Hub<S>,
    connection: u64,
    stamps: &mut T,
) -> Result<Served, IoFault>
    ensures keeps { KeepsHubSetting hub.old hub.new }
    ensures visit { (entries : List Entry) (state : HubState) → Knows entries (hub_tokens hub.old)
        → IsHubState S.stands hub.old state → S.is_honest (hub_shelf hub.new)
        → (next : HubState) × IsHubState S.stands hub.new next
        × IsVisit (hub_policy hub.old) (hub_base hub.old) entries connection state next
        (R.remaining reader.old) (R.remaining reader.new)
        (T.given stamps.old) (T.given stamps.new) (W.contents writer.old)
        (W.contents writer.new) result }
    ensures honest { S.is_honest (hub_shelf hub.new) → S.is_honest (hub_shelf hub.old) }
{
    let joining = Event {
        connection,
        stamp: Stamp::unused(),
        kind: EventKind::Joined,
    };
    hub.event(alloc, &joining)?;
    let served = serve_pieces(alloc, reader, writer, hub, connection, stamps);
    let leaving = Event {
        connection,
        stamp: Stamp::unused(),
        kind: EventKind::Left,
    };
    // The connection has joined, so this doesn't fail.
    let _left = hub.event(alloc, &leaving);
    served
}
