//! Taking the next client at a listener.

use std::io::ErrorKind;
use std::net::{TcpListener, TcpStream};
use std::thread::sleep;
use std::time::Duration;
use std::{io, rt};

/// How long an accept that failed for want of descriptors or memory waits before it tries again, in milliseconds.
pub const SHORTAGE_MILLISECONDS: u64 = 100;

// The system's numbers for want of descriptors (in the process, in the system) and of memory (for sockets).
const SHORTAGES: [i32; 3] = [23, 24, 105];

/// What an accept came to.
#[derive(Drop)]
pub(crate) enum Accepted {
    Client(TcpStream),
    /// No client waits.
    Nobody,
    /// The system lacks descriptors or memory. That passes.
    Shortage,
    /// The listener failed.
    Failed,
}

// Whether an accept failed since the system lacks what passes.
fn is_shortage(error: &io::Error) -> bool {
    let code = error.raw_os_error().unwrap_or(0);
    error.kind() == ErrorKind::OutOfMemory || SHORTAGES.contains(&code)
}

/// Accepts the next client that calls. One that hung up before it was accepted is passed over.
pub(crate) fn accept(listener: &TcpListener) -> Accepted {
    for _ in 0..u64::MAX {
        match listener.accept() {
            Ok((stream, _)) => return Accepted::Client(stream),
            Err(error) if error.kind() == ErrorKind::ConnectionAborted => {}
            Err(error) if error.kind() == ErrorKind::WouldBlock => return Accepted::Nobody,
            Err(error) if is_shortage(&error) => return Accepted::Shortage,
            Err(_) => return Accepted::Failed,
        }
    }
    Accepted::Failed
}

/// Waits until a shortage may have passed.
pub(crate) fn pause<R: rt::Clock>(rt: &R) {
    sleep(rt, Duration::from_millis(SHORTAGE_MILLISECONDS));
}
