//! Files that are filled up to a length.

ghost use Rattle.std.specs.Prelude.{◌≡◌, ◌+◌, ◌≤◌, IfOk, vec_len};

use outside::{FileFault, Files};
use std::alloc::Global;

/// Other files, and more: the name `FILE+N` stands for the file FILE, filled up with spaces to N bytes; and the read with one number
/// may fail.
#[derive(Drop)]
pub struct PaddedFiles<F: Files + Drop> {
    inner: F,
    /// How many reads there were.
    reads: u64,
    /// The number of the read that fails, counted from 1, or 0.
    failing: u64,
    faults: u64,
}

impl<F: Files + Drop> PaddedFiles<F> {
    /// These files, without a read so far. The read with this number fails, counted from 1, and none where it is 0.
    pub fn new(inner: F, failing: u64) -> PaddedFiles<F>
        ensures inner { result.inner ≡ inner }
        ensures failing { result.failing ≡ failing }
        ensures faults { result.faults ≡ 0 }
    {
        PaddedFiles {
            inner,
            reads: 0,
            failing,
            faults: 0,
        }
    }
}

// The name of a file, and the length that it is filled up to.
fn padded_name(name: &str) -> (&str, usize) {
    match name.split_once('+') {
        Some((name, length)) => (name, length.parse().unwrap_or(0)),
        None => (name, 0),
    }
}

// Fills up what was read of a file, to no more than one byte past the limit.
fn fill(read: &mut Vec<u8>, length: usize, limit: usize) -> Result<(), FileFault>
    requires { vec_len read.old ≤ limit + 1 }
    ensures { vec_len read.new ≤ limit + 1 }
{
    let length = length.min(limit.saturating_add(1));
    if read.len() < length && read.resize(length, b' ').is_err() {
        return Err(FileFault::Memory);
    }
    Ok(())
}

impl<F: Files + Drop> Files for PaddedFiles<F> {
    ghost use Rattle.std.specs.Prelude.{None};

    ghost content = { λ _ _. None };

    ghost faults = { λ files _. files.faults };

    fn read(&mut self, alloc: Global, name: &str, limit: usize) -> Result<Vec<u8>, FileFault> {
        self.reads = self.reads.saturating_add(1);
        let (name, length) = padded_name(name);
        let read = if self.reads == self.failing {
            Err(FileFault::Failed)
        } else {
            match self.inner.read(alloc, name, limit) {
                Ok(mut read) => match fill(&mut read, length, limit) {
                    Ok(()) => Ok(read),
                    Err(fault) => Err(fault),
                },
                Err(fault) => Err(fault),
            }
        };
        if let Err(FileFault::Failed) = &read {
            self.faults = self.faults.saturating_add(1);
        }
        read
    }
}
