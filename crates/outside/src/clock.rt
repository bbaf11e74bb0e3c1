//! Clocks, and the form of them in memory.

ghost use Rattle.std.specs.Prelude.{◌≡◌, ℕ, List, Option, Some};
ghost use Rattle.outside.specs.Ticks.{Tick};

/// A clock that is read. It has no faults.
pub trait Clock {
    /// The readings to come, where the object tells them.
    ghost readings: { Self → Option (List ℕ) };

    /// The seconds since the start of 1970. Where the readings are told it is the first of those to come, and
    /// 0 after the last.
    fn seconds(&mut self) -> u64
        ensures tick { Tick (readings self.old) result (readings self.new) };
}

/// A clock in memory. It tells its readings.
#[derive(Drop)]
pub struct ListClock {
    /// The readings to come.
    pub readings: Vec<u64>,
}

impl Clock for ListClock {
    ghost readings = { λ clock. Some clock.readings.items };

    fn seconds(&mut self) -> u64 {
        if self.readings.is_empty() {
            return 0;
        }
        self.readings.remove(0)
    }
}
