//! Wires over TCP.

ghost use Rattle.std.specs.Prelude.{◌≡◌, None, is_some};

use crate::std_files::given;
use crate::std_sink::taken;
use crate::wire::{DialFault, Wire, WireFault};
use std::net::{Net, OpenStream, TcpStream};
use std::time::Duration;

/// How long one read or write of a wire may wait, in seconds. One that waits longer fails.
pub const TRANSFER_SECONDS: u64 = 30;

/// A wire over TCP to one address. It doesn't tell what goes over it.
#[derive(Drop)]
pub struct TcpWire<R: Net + Drop> {
    rt: R,
    address: String,
    stream: Option<R::Stream>,
    dial_faults: u64,
    faults: u64,
}

impl<R: Net + Drop> TcpWire<R> {
    /// A wire to this address, `HOST:PORT`, that was not dialled yet, over the network that `rt` reaches.
    pub fn new(rt: R, address: String) -> TcpWire<R>
        ensures rt { result.rt ≡ rt }
        ensures address { result.address ≡ address }
        ensures stream { result.stream ≡ None }
        ensures dial_faults { result.dial_faults ≡ 0 }
        ensures faults { result.faults ≡ 0 }
    {
        TcpWire {
            rt,
            address,
            stream: None,
            dial_faults: 0,
            faults: 0,
        }
    }
}

// Lets no read or write wait too long, and none for more bytes before it sends. A stream that doesn't allow
// for it is left as it is.
fn set_up<S: OpenStream>(stream: &S) {
    let longest = Some(Duration::from_secs(TRANSFER_SECONDS));
    let _ = stream.set_read_timeout(longest);
    let _ = stream.set_write_timeout(longest);
    let _ = stream.set_nodelay(true);
}

impl<R: Net + Drop> Wire for TcpWire<R> {
    ghost dialled = { λ wire. is_some wire.stream };

    ghost log = { λ _. None };

    ghost coming = { λ _. None };

    ghost dial_faults = { λ wire. wire.dial_faults };

    ghost faults = { λ wire. wire.faults };

    fn dial(&mut self) -> Result<(), DialFault> {
        self.stream = None;
        match TcpStream::connect(&self.rt, self.address.as_str()) {
            Ok(stream) => {
                set_up(&stream);
                self.stream = Some(stream);
                Ok(())
            }
            Err(_) => {
                self.dial_faults = self.dial_faults.saturating_add(1);
                Err(DialFault)
            }
        }
    }

    fn write(&mut self, piece: &[u8]) -> Result<usize, WireFault> {
        let sent = match self.stream.as_mut() {
            Some(stream) => taken(stream, piece),
            None => None,
        };
        match sent {
            Some(count) if 0 < count || piece.is_empty() => Ok(count),
            _ => {
                self.faults = self.faults.saturating_add(1);
                Err(WireFault)
            }
        }
    }

    fn read(&mut self, into: &mut [u8]) -> Result<usize, WireFault> {
        let read = match self.stream.as_mut() {
            Some(stream) => given(stream, into),
            None => None,
        };
        match read {
            Some(count) => Ok(count),
            None => {
                self.faults = self.faults.saturating_add(1);
                Err(WireFault)
            }
        }
    }

    fn hang_up(&mut self) {
        self.stream = None;
    }
}
