//! A connection over a socket, with the state of its reading and writing.
ghost use Rattle.std.specs.Prelude.{◌≡◌, ◌<◌, ◌≤◌, ◌+◌, ◌-◌, ◌*◌, ◌^◌, ◌⊎◌, None, IsTrue, length, false};
ghost use Rattle.scim_sockets.specs.Connections.{IsAsked, IsAtRest, IsBehind, TakesNothing, IsUnread, FitsIn, CountsPiece, IsQuiet, StaysBehind, ContinuesReply, clipped, owed_after, weight_of};

use crate::held_bytes::Held;
use crate::pieces::{Part, Scan};
use crate::time_limits::{LINGER, Limits};
use mio::net::TcpStream;
use std::alloc::Global;
use std::io::{ErrorKind, Read, Write};
use std::net::{IpAddr, Shutdown};
use std::time::Duration;

/// The interim reply 100 (Continue), after which the message in hand goes on.
const CONTINUE: &[u8] = b"HTTP/1.1 100 Continue\r\n\r\n";

/// The most bytes of a message that were handed on before another piece of it may come in a round. A long
/// message may be a dear one, for which nobody else is to wait who would come before it otherwise.
const LONGEST_IN_ROUND: u32 = 8192;

/// How many of the bytes that were last offered to a connection it has taken.
#[derive(Clone, Copy, PartialEq, Eq)]
enum Taking {
    /// It has taken all bytes.
    All,
    /// It has taken a part of the bytes, or none, and can't take more now.
    Less,
    /// It has taken a part of the bytes, or none, and may take more now.
    More,
}

/// The result of a connection's turn, which is one unit of its work.
#[derive(Clone, Copy)]
pub(crate) enum Turn {
    /// There is no event to report.
    Nothing,
    /// This many bytes were read, which the connection holds.
    Read(usize),
    /// This many of the bytes that the connection held are handed on.
    Piece(usize),
    /// The connection may take more of the bytes that it was offered, or was asked to report its turn.
    Ready,
    /// The connection has ended.
    Left,
}

/// Why a connection is late.
#[derive(Clone, Copy)]
pub(crate) enum Late {
    /// It was silent, or was shut and not closed by its client.
    Idle,
    /// The head of its message took too long.
    Head,
    /// Its message took too long.
    Message,
    /// It takes a reply too slowly.
    Reply,
}

/// An accepted connection. It is kept until its end has been reported as [`Turn::Left`].
///
/// The system's reports are edge-triggered: it reports a socket as readable or writable once, and again only
/// after a call returned `WouldBlock`. Therefore the connection remembers a report until a call returns
/// `WouldBlock`.
///
/// A read may return the bytes of many requests. They are held, and handed on piece by piece, one each turn. A
/// piece completes the head of at most one request. Nothing is handed on or read before the connection has
/// taken all bytes that it was offered.
#[derive(Drop)]
pub(crate) struct Connection {
    // `None` after the connection has ended.
    stream: Option<TcpStream>,
    // The address of the client.
    address: IpAddr,
    taking: Taking,
    // Whether the next turn is reported as `Turn::Ready` even if the connection has taken all bytes.
    is_asked: bool,
    // Whether a read may return bytes.
    may_read: bool,
    // Whether the connection was shut: it takes no more bytes, and the bytes that it sends are dropped.
    is_shut: bool,
    // Whether the connection is in the queue of connections with work to do.
    is_waiting: bool,
    // The bytes that were read and aren't handed on yet.
    held: Held,
    // What the bytes that were handed on show of the message in hand.
    scan: Scan,
    // The time at which the message in hand began, if there is one.
    began: Duration,
    // The time at which the last reply was begun, and how many bytes were taken since.
    replied: Duration,
    taken: u64,
    // The time at which the connection last sent a byte of a message, took bytes, reported its turn as it was
    // asked to, was accepted, or was shut.
    last: Duration,
    // The number of bytes that were handed on since the last reply was begun.
    handed: u32,
    // The length of the reply that the connection hasn't taken whole; 0 if there is none.
    owed: u32,
    // The place of the client whose requests came last.
    client: usize,
}

/// Returns a number of bytes in 32 bits; the greatest if it doesn't fit.
fn capped(count: usize) -> u32
    ensures { result ≡ clipped count }
{
    u32::try_from(count).unwrap_or(u32::MAX)
}

/// Returns the weight of a connection with a message and a reply of these lengths.
fn weight_with(handed: u32, owed: u32) -> u64
    ensures weight { result ≡ 2 * handed + owed }
    ensures light { 2 * handed + owed ≤ 2 ^ 34 }
{
    2 * u64::from(handed) + u64::from(owed)
}

impl Connection {
    /// Returns a newly accepted connection of a client with this address.
    pub(crate) fn new(
        alloc: Global,
        stream: TcpStream,
        address: IpAddr,
        now: Duration,
    ) -> Connection
        ensures { weight_of result ≡ 0 }
    {
        // Replies are written whole, so the system needn't delay small packets.
        let _ = stream.set_nodelay(true);
        Connection {
            stream: Some(stream),
            address,
            taking: Taking::All,
            is_asked: false,
            may_read: true,
            is_shut: false,
            is_waiting: false,
            held: Held::new(alloc),
            scan: Scan::new(),
            began: now,
            replied: now,
            taken: 0,
            last: now,
            handed: 0,
            owed: 0,
            client: 0,
        }
    }

    /// Returns the weight of the connection: how many bytes the server may have allocated for its unfinished
    /// message and its reply. The buffer of a message grows by doubling, so it may be twice as long as what it
    /// holds; that of a reply is as long as the reply.
    ///
    /// Not counted are the bytes of the last read, and those of a message that began in the piece that ended
    /// the one before it.
    pub(crate) fn weight(&self) -> u64
        ensures weight { result ≡ weight_of self.now }
        ensures light { weight_of self.now ≤ 2 ^ 34 }
    {
        weight_with(self.handed, self.owed)
    }

    /// Returns how many bytes the connection was offered and hasn't taken yet.
    pub(crate) fn untaken(&self) -> u64
        ensures { result ≡ self.now.owed - self.now.taken }
    {
        u64::from(self.owed).saturating_sub(self.taken)
    }

    /// Returns the address of the client.
    pub(crate) fn address(&self) -> IpAddr
        ensures { result ≡ self.now.address }
    {
        self.address
    }

    /// Returns the place of the client whose requests came last; 0 at first.
    pub(crate) fn client(&self) -> usize {
        self.client
    }

    /// Whether the socket was dropped.
    pub(crate) fn has_ended(&self) -> bool {
        self.stream.is_none()
    }

    /// Sets the place of the client.
    pub(crate) fn set_client(&mut self, client: usize)
        ensures { weight_of self.new ≡ weight_of self.old }
    {
        self.client = client;
    }

    /// Records that the system has reported the socket as readable or writable.
    pub(crate) fn note(&mut self, can_read: bool, can_write: bool)
        ensures behind { IsBehind self.old → IsBehind self.new }
        ensures weight { weight_of self.new ≡ weight_of self.old }
    {
        self.may_read |= can_read;
        if can_write && self.taking == Taking::Less {
            self.taking = Taking::More;
        }
    }

    /// Asks the connection to report its next turn as [`Turn::Ready`], even if it has taken all bytes. A
    /// connection that takes no more bytes isn't asked.
    pub(crate) fn ask(&mut self)
        ensures asked { IsAsked self.new ⊎ TakesNothing self.new }
        ensures behind { IsBehind self.old → IsBehind self.new }
        ensures weight { weight_of self.new ≡ weight_of self.old }
    {
        if self.stream.is_some() && !self.is_shut {
            self.is_asked = true;
        }
    }

    /// Whether the next turn may hand on a piece for a round, or read: the connection hasn't ended, has taken
    /// all bytes that it was offered, wasn't asked to report its turn, and its message in hand isn't long.
    pub(crate) fn may_give_piece(&self) -> bool
        ensures behind { IsTrue result → IsBehind self.now → ⊥ }
        ensures asked { IsTrue result → IsAsked self.now → ⊥ }
    {
        self.stream.is_some()
            && self.taking == Taking::All
            && !self.is_asked
            && self.handed <= LONGEST_IN_ROUND
    }

    /// Returns whether the connection must be queued: whether it has work to do and isn't queued. If so,
    /// marks the connection as queued.
    pub(crate) fn begins_to_wait(&mut self) -> bool
        ensures taking { self.new.taking ≡ self.old.taking }
        ensures weight { weight_of self.new ≡ weight_of self.old }
    {
        let has_to_do = match self.taking {
            Taking::All => self.may_read || self.is_asked || !self.held.is_empty(),
            Taking::Less => false,
            Taking::More => true,
        };
        let begins = has_to_do && !self.is_waiting;
        self.is_waiting |= has_to_do;
        begins
    }

    /// Does the next work of the connection: reports its end, reports that it may take more bytes, hands on a
    /// piece of the bytes that it holds, or reads at most once. The piece, or what was read, is at the start of
    /// `buffer`.
    ///
    /// A connection that hasn't taken all offered bytes isn't read, and nothing that it holds is handed on. So
    /// a reply is begun only after the one before it was taken, and the end of the stream is seen only after
    /// the connection has taken its replies: a client that has closed its sending side gets them. The same
    /// holds for a connection that was asked to report its turn, until it has reported it.
    pub(crate) fn turn(&mut self, now: Duration, buffer: &mut [u8]) -> Turn
        ensures fits { FitsIn buffer.new result }
        ensures handed { CountsPiece self.old.handed self.new.handed result }
        ensures quiet { IsBehind self.old ⊎ IsAsked self.old
            → IsQuiet result × (buffer.new ≡ buffer.old) }
        ensures behind { IsBehind self.old → StaysBehind self.old self.new }
    {
        self.is_waiting = false;
        match self.taking {
            Taking::All if self.is_asked => {
                self.last = now;
                self.report_ready()
            }
            Taking::All => self.advance(now, buffer),
            Taking::Less => Turn::Nothing,
            Taking::More => {
                self.taking = Taking::Less;
                self.report_ready()
            }
        }
    }

    /// Reports that the connection may take bytes, as it was perhaps asked to.
    fn report_ready(&mut self) -> Turn
        ensures ready { result ≡ Turn.Ready }
        ensures reported { self.new ≡ record self.old { is_asked = false } }
    {
        self.is_asked = false;
        Turn::Ready
    }

    /// Hands on the next piece of the bytes that the connection holds, or reads if it holds none.
    fn advance(&mut self, now: Duration, buffer: &mut [u8]) -> Turn
        ensures fits { FitsIn buffer.new result }
        ensures handed { CountsPiece self.old.handed self.new.handed result }
    {
        if self.held.is_empty() {
            return self.read(buffer);
        }
        let part = self.scan.part();
        let count = self.held.give(&mut self.scan, buffer);
        self.note_piece(now, part, count);
        Turn::Piece(count)
    }

    /// Reads once. Ends the connection at the end of its stream, and if memory runs out.
    fn read(&mut self, buffer: &mut [u8]) -> Turn
        ensures fits { FitsIn buffer.new result }
        ensures handed { CountsPiece self.old.handed self.new.handed result }
    {
        let Some(stream) = &mut self.stream else {
            return Turn::Left;
        };
        match stream.read(buffer) {
            Ok(0) => {
                self.end();
                Turn::Left
            }
            Ok(_) if self.is_shut => Turn::Nothing,
            Ok(count) => {
                if self.held.hold(&buffer[..count]).is_err() {
                    self.end();
                    return Turn::Left;
                }
                Turn::Read(count)
            }
            Err(error) => self.read_failed(error.kind()),
        }
    }

    /// Notes that a piece of this many bytes was handed on, before which the stream was in `part` of a message.
    ///
    /// Empty lines between two messages are no sign of life, but they count: they may be the body of a message
    /// whose head came in the piece that ended the message before it.
    fn note_piece(&mut self, now: Duration, part: Part, count: usize)
        ensures { self.new.handed ≡ clipped (self.old.handed + count) }
    {
        if part == Part::Between {
            self.began = now;
        }
        if self.scan.part() != Part::Between {
            self.last = now;
        }
        self.handed = self.handed.saturating_add(capped(count));
    }

    /// Returns the result of a turn in which the read failed. Ends the connection unless the error is
    /// temporary.
    fn read_failed(&mut self, kind: ErrorKind) -> Turn
        ensures unread { IsUnread result }
        ensures handed { CountsPiece self.old.handed self.new.handed result }
    {
        match kind {
            ErrorKind::WouldBlock => {
                self.may_read = false;
                Turn::Nothing
            }
            ErrorKind::Interrupted => Turn::Nothing,
            _ => {
                self.end();
                Turn::Left
            }
        }
    }

    /// Offers bytes to the connection, and returns the length of the prefix that it took.
    pub(crate) fn write(&mut self, now: Duration, bytes: &[u8]) -> usize
        ensures count { result ≤ length bytes.now }
        ensures less { result < length bytes.now → IsBehind self.new ⊎ TakesNothing self.new }
        ensures owed { IsBehind self.new
            → self.new.owed ≡ owed_after self.old.taking self.old.owed (length bytes.now) }
        ensures whole { 0 < result → result ≡ length bytes.now → self.new.owed ≡ 0 }
        ensures continues { IsBehind self.old → ContinuesReply self.old self.new }
    {
        if self.is_shut || bytes.is_empty() {
            return 0;
        }
        let is_first = self.taking == Taking::All;
        let Some(stream) = &mut self.stream else {
            return 0;
        };
        let written = stream.write(bytes);
        if is_first {
            self.begin_reply(now, bytes);
        }
        match written {
            Ok(0) => {
                self.end();
                0
            }
            Ok(count) => {
                self.last = now;
                self.taken = self.taken.saturating_add(count as u64);
                if count == bytes.len() {
                    self.taking = Taking::All;
                    self.owed = 0;
                } else {
                    // The connection may take more bytes: only `WouldBlock` means that it can't.
                    self.taking = Taking::More;
                }
                count
            }
            Err(error) => {
                self.write_failed(error.kind());
                0
            }
        }
    }

    /// Notes that the server begins a reply. The message in hand ends with it, unless the reply is 100
    /// (Continue): then the time of the message counts anew, and its body goes on.
    fn begin_reply(&mut self, now: Duration, bytes: &[u8])
        ensures stream { self.new.stream ≡ self.old.stream }
        ensures shut { self.new.is_shut ≡ self.old.is_shut }
        ensures owed { self.new.owed ≡ clipped (length bytes.now) }
    {
        self.replied = now;
        self.taken = 0;
        self.owed = capped(bytes.len());
        if bytes.ends_with(CONTINUE) {
            self.scan.begin_body();
            self.began = now;
        } else {
            self.scan.end_message();
            self.handed = 0;
        }
    }

    /// Handles a failed write. Ends the connection unless the error is temporary.
    fn write_failed(&mut self, kind: ErrorKind)
        ensures less { IsBehind self.new ⊎ TakesNothing self.new }
        ensures owed { IsBehind self.new → self.new.owed ≡ self.old.owed }
        ensures continues { ContinuesReply self.old self.new }
    {
        match kind {
            ErrorKind::WouldBlock => self.taking = Taking::Less,
            ErrorKind::Interrupted => self.taking = Taking::More,
            _ => self.end(),
        }
    }

    /// Shuts the connection: the bytes that it has taken are sent, followed by the end of the stream. What it
    /// holds is dropped.
    ///
    /// The socket is dropped after the client has closed its side too, or after two seconds. Until then the
    /// bytes that the client sends are read and dropped. If the socket were dropped at once, such bytes would
    /// cause a reset, and the client could lose the reply (RFC 9112 section 9.6).
    pub(crate) fn shut(&mut self, now: Duration)
        ensures { TakesNothing self.new }
    {
        if self.is_shut {
            return;
        }
        let is_sent = match &self.stream {
            Some(stream) => stream.shutdown(Shutdown::Write).is_ok(),
            None => false,
        };
        if is_sent {
            self.drop_bytes();
            self.is_shut = true;
            self.is_asked = false;
            self.taking = Taking::All;
            self.may_read = true;
            self.last = now;
        } else {
            self.end();
        }
    }

    /// Drops the socket and what the connection holds. The next turn of the connection returns [`Turn::Left`].
    pub(crate) fn end(&mut self)
        ensures stream { self.new.stream ≡ None }
        ensures weight { weight_of self.new ≡ 0 }
        ensures taking { self.new.taking ≡ Taking.All }
        ensures continues { ContinuesReply self.old self.new }
    {
        self.stream = None;
        self.drop_bytes();
        self.is_asked = false;
        self.taking = Taking::All;
        self.may_read = true;
    }

    /// Drops what the connection holds. The message in hand and the reply are over.
    fn drop_bytes(&mut self)
        ensures stream { self.new.stream ≡ self.old.stream }
        ensures weight { weight_of self.new ≡ 0 }
        ensures continues { ContinuesReply self.old self.new }
    {
        self.held.clear();
        self.handed = 0;
        self.owed = 0;
    }

    /// Returns why the connection is late, if it is.
    pub(crate) fn lateness(&self, now: Duration, limits: &Limits) -> Option<Late> {
        if self.is_shut {
            let is_late = now.saturating_sub(self.last) > Duration::from_secs(LINGER);
            return is_late.then_some(Late::Idle);
        }
        if self.has_passed(now, self.last, limits.idle) {
            return Some(Late::Idle);
        }
        if self.taking == Taking::All {
            self.message_lateness(now, limits)
        } else {
            let since = now.saturating_sub(self.replied);
            (!self.is_waiting && limits.is_slow(since, self.taken)).then_some(Late::Reply)
        }
    }

    /// Returns why the message in hand is late, if it is. A message that waits in the socket, or is held until
    /// the reply before it was taken, hasn't begun.
    fn message_lateness(&self, now: Duration, limits: &Limits) -> Option<Late> {
        match self.scan.part() {
            Part::Between => None,
            Part::Head => self
                .has_passed(now, self.began, limits.head)
                .then_some(Late::Head),
            Part::Body => self
                .has_passed(now, self.began, limits.message)
                .then_some(Late::Message),
        }
    }

    /// Whether more than the limit has passed since a time; twice the limit if the connection is queued for a
    /// turn, since its bytes may not have been read.
    fn has_passed(&self, now: Duration, since: Duration, limit: Duration) -> bool {
        let passed = now.saturating_sub(since);
        if self.is_waiting {
            passed > limit.saturating_mul(2)
        } else {
            passed > limit
        }
    }

    /// Whether the connection is at rest: no message has begun, nothing is held, no reply is pending, and it
    /// wasn't asked to report its turn.
    fn is_at_rest(&self) -> bool
        ensures { IsTrue result → IsAtRest self.now }
    {
        self.taking == Taking::All
            && !self.is_asked
            && self.scan.part() == Part::Between
            && self.held.is_empty()
    }

    /// Returns the time since which the connection has been idle: it is at rest, and no work is queued. `None`
    /// if it isn't idle.
    pub(crate) fn idle_since(&self) -> Option<Duration> {
        (self.is_at_rest() && !self.is_waiting).then_some(self.last)
    }

    /// Whether the connection can be shut without loss when the server stops: it is at rest. If `may_wait` is
    /// true, no work is queued either: the bytes of another message may have come.
    pub(crate) fn can_stop(&self, may_wait: bool) -> bool
        ensures { IsTrue result → IsAtRest self.now }
    {
        self.is_at_rest() && !self.is_shut && !(may_wait && self.is_waiting)
    }
}
