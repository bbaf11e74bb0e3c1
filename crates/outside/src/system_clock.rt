//! The clock of the system.

ghost use Rattle.std.specs.Prelude.{◌≡◌, None};

use crate::clock::Clock;
use std::rt;
use std::time::{SystemTime, UNIX_EPOCH};

/// The clock of the system, which `rt` reads. Where the system gives no time it gives its last reading again,
/// and 0 before its first.
#[derive(Drop)]
pub struct SystemClock<R: rt::Clock + Drop> {
    rt: R,
    last: u64,
}

impl<R: rt::Clock + Drop> SystemClock<R> {
    /// The clock that `rt` reads, before its first reading.
    pub fn new(rt: R) -> SystemClock<R>
        ensures rt { result.rt ≡ rt }
        ensures last { result.last ≡ 0 }
    {
        SystemClock { rt, last: 0 }
    }
}

impl<R: rt::Clock + Drop> Clock for SystemClock<R> {
    ghost readings = { λ _. None };

    fn seconds(&mut self) -> u64 {
        if let Ok(now) = SystemTime::now(&self.rt) {
            if let Ok(since) = now.duration_since(UNIX_EPOCH) {
                self.last = since.as_secs();
            }
        }
        self.last
    }
}
