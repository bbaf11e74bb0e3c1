//! A file of the system as a disk.

ghost use Rattle.std.specs.Prelude.{◌≡◌, ◌≤◌, IfSome, None, length, nat_lt};
ghost use Rattle.outside.specs.Faults.{Rose};
ghost use Rattle.journal_disk.specs.Images.{not_told};

use crate::disk::{Disk, DiskFault};
use std::fs::File;
use std::io::ErrorKind;
use std::os::unix::fs::FileExt;

/// A file of the system. It doesn't tell what it holds.
#[derive(Drop)]
pub struct StdDisk {
    file: File,
    faults: u64,
}

impl StdDisk {
    /// A disk over this file, which has to be open for reading and writing, without a fault so far.
    pub fn new(file: File) -> StdDisk
        ensures faults { result.faults ≡ 0 }
    {
        StdDisk { file, faults: 0 }
    }

    /// Whether a call has failed.
    pub fn has_failed(&self) -> bool
        ensures { result ≡ nat_lt 0 self.now.faults }
    {
        self.faults > 0
    }

    // Counts a fault.
    fn failed(&mut self) -> DiskFault
        ensures cause { Rose self.old.faults self.new.faults }
        ensures count { self.old.faults ≤ self.new.faults }
    {
        self.faults = self.faults.saturating_add(1);
        DiskFault
    }
}

// What one call of the system gave, tried again where it was interrupted; nothing where it failed.
fn given(file: &File, at: u64, into: &mut [u8]) -> Option<usize>
    ensures within { IfSome result (λ count. count ≤ length into.new) }
    ensures length { length into.new ≡ length into.old }
{
    for _ in 0..u64::MAX {
        match file.read_at(into, at) {
            Ok(count) => return Some(count),
            Err(error) if error.kind() == ErrorKind::Interrupted => {}
            Err(_) => return None,
        }
    }
    None
}

// Reads the bytes of a file from a place on, as many as there are and as fit; nothing where a call failed. The system may give fewer
// bytes than fit before the end, so it is asked until all are there or it gives none.
pub(crate) fn filled(file: &File, at: u64, into: &mut [u8]) -> Option<usize>
    ensures within { IfSome result (λ count. count ≤ length into.new) }
    ensures length { length into.new ≡ length into.old }
{
    let mut done = 0;
    while done < into.len() {
        match given(file, at.saturating_add(done as u64), &mut into[done..]) {
            Some(0) => return Some(done),
            Some(count) => done += count,
            None => return None,
        }
    }
    Some(done)
}

impl Disk for StdDisk {
    ghost reads = { λ _. None };

    ghost image = { λ _ _. ⊥ };

    ghost moment = { λ _. 0 };

    ghost image_since = { λ _ _ _. ⊥ };

    ghost faults = { λ disk. disk.faults };

    ghost now_is_since = { λ disk t c le image. image };

    ghost since_now = { λ disk c image. image };

    ghost reads_is_image = { λ disk told is. not_told told is };

    fn size(&mut self) -> Result<u64, DiskFault> {
        match self.file.metadata() {
            Ok(metadata) => Ok(metadata.len()),
            Err(_) => Err(self.failed()),
        }
    }

    fn read(&mut self, at: u64, into: &mut [u8]) -> Result<usize, DiskFault> {
        match filled(&self.file, at, into) {
            Some(count) => Ok(count),
            None => Err(self.failed()),
        }
    }

    fn write_at(&mut self, at: u64, piece: &[u8]) -> Result<(), DiskFault> {
        match self.file.write_all_at(piece, at) {
            Ok(()) => Ok(()),
            Err(_) => Err(self.failed()),
        }
    }

    fn sync(&mut self) -> Result<(), DiskFault> {
        match self.file.sync_all() {
            Ok(()) => Ok(()),
            Err(_) => Err(self.failed()),
        }
    }
}
