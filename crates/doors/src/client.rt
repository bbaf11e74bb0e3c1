//! The streams of clients over TCP.

ghost use Rattle.std.specs.Prelude.{◌≡◌, true, false};
ghost use Rattle.std.specs.Io.{ReadsAtMost, WritesAtMost};

use crate::looking::{Look, peeked};
use std::alloc::Global;
use std::io::{ErrorKind, Read, Write};
use std::net::{Shutdown, TcpStream};
use std::os::fd::{AsRawFd, RawFd};
use std::sync::Arc;
use std::sync::atomic::{AtomicBool, AtomicUsize, Ordering};
use std::time::Duration;
use std::{io, rt};

/// How long one read of what a client sends, or one write to it, may wait, in seconds. One that waits longer fails.
pub const CLIENT_SECONDS: u64 = 30;

/// How many bytes at most are read and dropped when a connection is handed back.
pub const LINGER_BYTES: usize = 65_536;

/// How long bytes are read and dropped when a connection is handed back, in seconds.
pub const LINGER_SECONDS: u64 = 2;

// How many bytes one read drops at most.
const PIECE_BYTES: usize = 4096;

/// The stream of a client, which its reader and its writer share.
#[derive(Drop)]
pub struct Client {
    stream: TcpStream,
    // Whether a read or a write waits where it can't go on.
    waits: AtomicBool,
    // Whether the client may go on with a further request, and none of it was read.
    rests: AtomicBool,
    // How many bytes are still dropped of what it sends after its last reply, while others are served.
    lingers: AtomicUsize,
}

impl Client {
    /// A stream whose reads and writes wait.
    pub(crate) fn waiting(stream: TcpStream) -> Client {
        Client {
            stream,
            waits: AtomicBool::new(true),
            rests: AtomicBool::new(false),
            lingers: AtomicUsize::new(LINGER_BYTES),
        }
    }

    /// A stream whose reads and writes don't wait, of a client that takes turns with others; none where the system refuses that.
    pub(crate) fn ready(stream: TcpStream) -> Option<Client> {
        if stream.set_nonblocking(true).is_err() {
            return None;
        }
        Some(Client {
            stream,
            waits: AtomicBool::new(false),
            rests: AtomicBool::new(false),
            lingers: AtomicUsize::new(LINGER_BYTES),
        })
    }

    /// Lets no read or write wait too long, and none for more bytes before it sends. A stream that doesn't allow for it
    /// is left as it is.
    pub(crate) fn set_up(&self, longest: Duration) {
        let _ = self.stream.set_read_timeout(Some(longest));
        let _ = self.stream.set_write_timeout(Some(longest));
        let _ = self.stream.set_nodelay(true);
    }

    /// The number that the system knows it by.
    pub(crate) fn fd(&self) -> RawFd {
        self.stream.as_raw_fd()
    }

    /// What stands at the front of what the client sent. It doesn't wait.
    pub(crate) fn look(&self) -> Look {
        if self.set_waits(false).is_err() {
            return Look::Over;
        }
        peeked(&self.stream)
    }

    // Lets reads and writes wait, or not.
    fn set_waits(&self, waits: bool) -> io::Result<()> {
        if self.waits.load(Ordering::SeqCst) != waits {
            self.stream.set_nonblocking(!waits)?;
            self.waits.store(waits, Ordering::SeqCst);
        }
        Ok(())
    }

    // Whether this answer says that a call would have to wait, on a stream whose calls don't.
    fn has_to_wait(&self, answer: &io::Result<usize>) -> bool {
        match answer {
            Err(error) => {
                error.kind() == ErrorKind::WouldBlock && !self.waits.load(Ordering::SeqCst)
            }
            Ok(_) => false,
        }
    }

    // Reads, and waits where it has to.
    fn read(&self, into: &mut [u8]) -> io::Result<usize>
        ensures { ReadsAtMost result into.new }
    {
        let answer = (&self.stream).read(into);
        if self.has_to_wait(&answer) {
            self.set_waits(true)?;
            return (&self.stream).read(into);
        }
        answer
    }

    // Writes, and waits where it has to.
    fn write(&self, piece: &[u8]) -> io::Result<usize>
        ensures { WritesAtMost result piece.now }
    {
        let answer = (&self.stream).write(piece);
        if self.has_to_wait(&answer) {
            self.set_waits(true)?;
            return (&self.stream).write(piece);
        }
        answer
    }

    /// Whether the client may go on with a further request, and none of it was read.
    pub(crate) fn rests(&self) -> bool {
        self.rests.load(Ordering::SeqCst)
    }

    /// Begins a further turn, in which nothing was read.
    pub(crate) fn begin(&self) {
        self.rests.store(false, Ordering::SeqCst);
    }

    /// Says that no reply follows, and drops what the client still sends, so that closing the stream then doesn't take
    /// back the last reply: a stream that is closed with bytes unread is reset. It is closed by the caller.
    pub(crate) fn take_leave<R: rt::Clock>(&self, rt: &R) {
        if let Ok(now) = rt.monotonic() {
            self.take_leave_since(rt, now);
        }
    }

    /// The same in the time that is left of leaves which began then. Once it is over, what was sent so far is dropped and nothing waited for.
    pub(crate) fn take_leave_since<R: rt::Clock>(&self, rt: &R, begun: Duration) {
        if self.stream.shutdown(Shutdown::Write).is_err() {
            return;
        }
        let mut piece = [0u8; PIECE_BYTES];
        let mut left = LINGER_BYTES;
        for _ in 0..LINGER_BYTES {
            let most = left.min(PIECE_BYTES);
            match self.dropped(rt, begun, &mut piece[..most]) {
                Some(count) => left = left.saturating_sub(count),
                None => return,
            }
        }
    }

    // How many bytes one read dropped; none where the end was met, the time is over and nothing is there, or the read failed.
    fn dropped<R: rt::Clock>(&self, rt: &R, begun: Duration, piece: &mut [u8]) -> Option<usize> {
        let passed = rt.monotonic().ok()?.saturating_sub(begun);
        let left = Duration::from_secs(LINGER_SECONDS).saturating_sub(passed);
        self.set_waits(!left.is_zero()).ok()?;
        if !left.is_zero() {
            let _ = self.stream.set_read_timeout(Some(left));
        }
        match (&self.stream).read(piece) {
            Ok(0) => None,
            Ok(count) => Some(count),
            Err(error) if error.kind() == ErrorKind::Interrupted => Some(0),
            Err(_) => None,
        }
    }

    /// Begins to take leave without waiting: says that no reply follows, and drops what the client sent so far. Whether it may send more.
    pub(crate) fn begin_leave(&self) -> bool {
        self.stream.shutdown(Shutdown::Write).is_ok() && self.drain()
    }

    /// Drops what the client sent so far. Whether it may send more: not where it ended, nor where more came than is dropped of one client.
    pub(crate) fn drain(&self) -> bool {
        if self.set_waits(false).is_err() {
            return false;
        }
        let mut piece = [0u8; PIECE_BYTES];
        for _ in 0..LINGER_BYTES {
            match self.drop_piece(&mut piece) {
                Ok(0) => return false,
                Ok(_) => {}
                Err(error) if error.kind() == ErrorKind::Interrupted => {}
                Err(error) => return error.kind() == ErrorKind::WouldBlock,
            }
        }
        false
    }

    // Drops a piece of what the client sent. It gives how many bytes that were: none at the end, and where no more are dropped.
    fn drop_piece(&self, piece: &mut [u8]) -> io::Result<usize> {
        let left = self.lingers.load(Ordering::SeqCst);
        let most = left.min(piece.len());
        let count = (&self.stream).read(&mut piece[..most])?;
        self.lingers
            .store(left.saturating_sub(count), Ordering::SeqCst);
        Ok(count)
    }
}

/// Reads what a client sends.
#[derive(Drop)]
pub struct ClientReader {
    client: Arc<Client, Global>,
    /// In a turn, how many bytes of its request weren't read so far. Without a number the stream is read as it comes, to
    /// its end.
    left: Option<usize>,
}

impl ClientReader {
    /// Reads all that the client sends, or in a turn so much of its first request.
    pub(crate) fn new(client: Arc<Client, Global>, left: Option<usize>) -> ClientReader {
        ClientReader { client, left }
    }

    // Whether the request at hand was read whole. The turn is over then, and the client may go on in a further one.
    fn is_over(&self) -> bool {
        let is_over = self.left == Some(0);
        if is_over {
            self.client.rests.store(true, Ordering::SeqCst);
        }
        is_over
    }
}

impl Read for ClientReader {
    fn read(&mut self, buf: &mut [u8]) -> io::Result<usize>
        ensures { ReadsAtMost result buf.new }
    {
        if self.is_over() {
            return Ok(0);
        }
        let Some(left) = self.left else {
            return self.client.read(buf);
        };
        let most = left.min(buf.len());
        let count = self.client.read(&mut buf[..most])?;
        self.left = Some(left.saturating_sub(count));
        Ok(count)
    }
}

/// Writes to a client.
#[derive(Drop)]
pub struct ClientWriter {
    client: Arc<Client, Global>,
}

impl ClientWriter {
    /// Writes to this client.
    pub(crate) fn new(client: Arc<Client, Global>) -> ClientWriter {
        ClientWriter { client }
    }
}

impl Write for ClientWriter {
    fn write(&mut self, buf: &[u8]) -> io::Result<usize> {
        self.client.write(buf)
    }

    fn flush(&mut self) -> io::Result<()> {
        Ok(())
    }
}
