//! Which calls of a form in memory are to fail.

ghost use Rattle.std.specs.Prelude.{◌≡◌, ◌↔◌, [], IsTrue, Contains};
ghost use Rattle.outside.specs.Faults.{next_count};

use std::alloc::Global;

/// The calls that a form in memory was given so far, and those that are to fail, by their numbers from 0.
#[derive(Drop)]
pub struct Failures {
    /// The number of calls so far. It stops at the last value of a `u64`.
    pub calls: u64,
    /// The numbers of the calls that are to fail.
    pub failing: Vec<u64>,
}

impl Failures {
    /// No call so far, and none that is to fail.
    pub fn none(alloc: Global) -> Failures
        ensures calls { result.calls ≡ 0 }
        ensures failing { result.failing.items ≡ [] }
    {
        Failures::of(Vec::new(alloc))
    }

    /// No call so far, and these are to fail.
    pub fn of(failing: Vec<u64>) -> Failures
        ensures calls { result.calls ≡ 0 }
        ensures failing { result.failing ≡ failing }
    {
        Failures { calls: 0, failing }
    }

    /// Counts one more call, and says whether it is one that is to fail.
    pub fn next_fails(&mut self) -> bool
        ensures fails { IsTrue result ↔ Contains self.old.failing.items self.old.calls }
        ensures calls { self.new.calls ≡ next_count self.old.calls }
        ensures same { self.new.failing ≡ self.old.failing }
    {
        let fails = self.failing.contains(&self.calls);
        self.calls = self.calls.saturating_add(1);
        fails
    }
}
