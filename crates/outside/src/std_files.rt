//! The files of the system.

ghost use Rattle.std.specs.Prelude.{◌≡◌, ◌+◌, ◌≤◌, IfOk, IfSome, length, take, vec_len};
ghost use Rattle.outside.specs.Contents.{Gives};

use crate::files::{FileFault, Files};
use std::alloc::Global;
use std::io::{ErrorKind, Read};
use std::{fs, rt};

// How many bytes one call of the system is asked for at most.
const PIECE: usize = 4096;

/// The files of the system, which `rt` reaches. They do not tell what they hold, and have one count of
/// faults for all names.
#[derive(Drop)]
pub struct StdFiles<R: rt::Files + Drop> {
    rt: R,
    faults: u64,
}

impl<R: rt::Files + Drop> StdFiles<R> {
    /// The files that `rt` reaches, without a fault so far.
    pub fn new(rt: R) -> StdFiles<R>
        ensures rt { result.rt ≡ rt }
        ensures faults { result.faults ≡ 0 }
    {
        StdFiles { rt, faults: 0 }
    }
}

// What one call of the reader gave, tried again where it was interrupted; nothing where it failed.
pub(crate) fn given<R: Read>(from: &mut R, into: &mut [u8]) -> Option<usize>
    ensures within { IfSome result (λ count. count ≤ length into.new) }
    ensures bytes { IfSome result (λ count. Gives (R.remaining from.old) (R.remaining from.new) count into.new) }
{
    for _ in 0..u64::MAX {
        match from.read(into) {
            Ok(count) => return Some(count),
            Err(error) if error.kind() == ErrorKind::Interrupted => {}
            Err(_) => return None,
        }
    }
    None
}

// What the reader has left, and of more than `limit` + 1 bytes the first so many.
fn read_most<R: Read>(alloc: Global, from: &mut R, limit: usize) -> Result<Vec<u8>, FileFault>
    ensures bytes { IfOk result (λ read. IfSome (R.remaining from.old)
        (λ left. read.items ≡ take (limit + 1) left)) }
    ensures most { IfOk result (λ read. vec_len read ≤ limit + 1) }
{
    let mut all: Vec<u8> = Vec::new(alloc);
    let mut piece = [0u8; PIECE];
    while all.len() <= limit {
        let wanted = (limit - all.len()).min(PIECE - 1) + 1;
        let Some(count) = given(from, &mut piece[..wanted]) else {
            return Err(FileFault::Failed);
        };
        if count == 0 {
            break;
        }
        if all.extend_from_slice(&piece[..count]).is_err() {
            return Err(FileFault::Memory);
        }
    }
    Ok(all)
}

impl<R: rt::Files + Drop> Files for StdFiles<R> {
    ghost use Rattle.std.specs.Prelude.{None};

    ghost content = { λ _ _. None };

    ghost faults = { λ files _. files.faults };

    fn read(&mut self, alloc: Global, name: &str, limit: usize) -> Result<Vec<u8>, FileFault> {
        let read = match fs::open(&self.rt, name) {
            Ok(mut file) => read_most(alloc, &mut file, limit),
            Err(_) => Err(FileFault::Failed),
        };
        if let Err(FileFault::Failed) = &read {
            self.faults = self.faults.saturating_add(1);
        }
        read
    }
}
