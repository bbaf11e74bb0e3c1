//! A disk in memory.

ghost use Rattle.std.proofs.Common.{inl, refl};
ghost use Rattle.std.specs.Prelude.{◌≡◌, ◌≤◌, ◌++◌, [], ◌∷◌, length, map, Some, IfOk, OnOk, OnErr};
ghost use Rattle.outside.specs.Faults.{Rose, next_count};
ghost use Rattle.journal_disk.specs.Images.{written_at};
ghost use Rattle.journal_disk.specs.Calls.{bytes_after, image_after_all, image_from, last_is_image, none_since_last, of_told, synced, wrote};
ghost use Rattle.journal_disk.specs.Recorded.{call_of};

use crate::disk::{Disk, DiskFault};
use outside::Failures;
use std::alloc::{AllocError, Global};

/// A call on a disk in memory that changed its images.
#[derive(Drop)]
pub enum DiskCall {
    /// A piece was written at a place.
    Wrote { at: u64, piece: Vec<u8> },
    /// What was written became safe.
    Synced,
}

/// A disk in memory. It keeps a record of its calls, which tells what a crash at each moment may leave.
#[derive(Drop)]
pub struct MemDisk {
    alloc: Global,
    // What it read as before all calls.
    first: Vec<u8>,
    // The calls that succeeded, but for those that only looked.
    calls: Vec<DiskCall>,
    // What it reads as.
    bytes: Vec<u8>,
    failures: Failures,
    faults: u64,
    ghost kept: { bytes.items ≡ bytes_after first.items (map call_of calls.items) },
}

// These bytes with a piece written at a place.
fn with_piece(alloc: Global, old: &[u8], at: usize, piece: &[u8]) -> Result<Vec<u8>, AllocError>
    requires inside { at ≤ length old.now }
    ensures { IfOk result (λ new. new.items ≡ written_at at piece.now old.now) }
{
    let mut new = Vec::from_slice(alloc, &old[..at])?;
    new.extend_from_slice(piece)?;
    if piece.len() < old.len() - at {
        new.extend_from_slice(&old[at + piece.len()..])?;
    }
    Ok(new)
}

impl MemDisk {
    /// A disk that reads as these bytes, which are durable, with these failures to come. A call fails too where there is
    /// no memory for its record.
    pub fn new(alloc: Global, bytes: &[u8], failures: Failures) -> Result<MemDisk, AllocError>
        ensures bytes { IfOk result (λ disk. disk.bytes.items ≡ bytes.now) }
        ensures first { IfOk result (λ disk. disk.first.items ≡ bytes.now) }
        ensures calls { IfOk result (λ disk. disk.calls.items ≡ []) }
        ensures failures { IfOk result (λ disk. disk.failures ≡ failures) }
        ensures faults { IfOk result (λ disk. disk.faults ≡ 0) }
    {
        let first = Vec::from_slice(alloc, bytes)?;
        let bytes = Vec::from_slice(alloc, bytes)?;
        Ok(MemDisk {
            alloc,
            first,
            calls: Vec::new(alloc),
            bytes,
            failures,
            faults: 0,
        })
    }

    /// What it reads as.
    pub fn bytes(&self) -> &[u8]
        ensures { result.now ≡ self.now.bytes.items }
    {
        &self.bytes
    }

    /// What it read as before all calls.
    pub fn first(&self) -> &[u8]
        ensures { result.now ≡ self.now.first.items }
    {
        &self.first
    }

    /// The writes and syncs that succeeded, in order.
    pub fn calls(&self) -> &[DiskCall]
        ensures { result.now ≡ self.now.calls.items }
    {
        &self.calls
    }

    /// The count of its faults.
    pub fn faults(&self) -> u64
        ensures { result ≡ self.now.faults }
    {
        self.faults
    }

    // Counts a fault.
    fn failed(&mut self) -> DiskFault
        ensures bytes { self.new.bytes ≡ self.old.bytes }
        ensures first { self.new.first ≡ self.old.first }
        ensures calls { self.new.calls ≡ self.old.calls }
        ensures failures { self.new.failures ≡ self.old.failures }
        ensures cause { Rose self.old.faults self.new.faults }
        ensures count { self.old.faults ≤ self.new.faults }
    {
        self.faults = self.faults.saturating_add(1);
        DiskFault
    }

    // Writes a piece and records it. For want of memory neither is done.
    fn record_write(&mut self, at: u64, piece: &[u8]) -> Result<(), AllocError>
        requires inside { at ≤ length self.old.bytes.items }
        ensures first { self.new.first ≡ self.old.first }
        ensures failures { self.new.failures ≡ self.old.failures }
        ensures faults { self.new.faults ≡ self.old.faults }
        ensures written { OnOk result (self.new.bytes.items ≡ written_at at piece.now self.old.bytes.items) }
        ensures recorded { OnOk result (map call_of self.new.calls.items
            ≡ map call_of self.old.calls.items ++ wrote at piece.now ∷ []) }
        ensures bytes { OnErr result (self.new.bytes.items ≡ self.old.bytes.items) }
        ensures calls { OnErr result (map call_of self.new.calls.items ≡ map call_of self.old.calls.items) }
    {
        let next = with_piece(self.alloc, &self.bytes, at as usize, piece)?;
        let piece = Vec::from_slice(self.alloc, piece)?;
        match self.calls.push(DiskCall::Wrote { at, piece }) {
            Err(_) => Err(AllocError),
            Ok(()) => {
                self.bytes = next;
                Ok(())
            }
        }
    }

    // Records a sync, but for want of memory.
    fn record_sync(&mut self) -> Result<(), AllocError>
        ensures first { self.new.first ≡ self.old.first }
        ensures failures { self.new.failures ≡ self.old.failures }
        ensures faults { self.new.faults ≡ self.old.faults }
        ensures bytes { self.new.bytes.items ≡ self.old.bytes.items }
        ensures recorded { OnOk result (map call_of self.new.calls.items
            ≡ map call_of self.old.calls.items ++ synced ∷ []) }
        ensures calls { OnErr result (map call_of self.new.calls.items ≡ map call_of self.old.calls.items) }
    {
        match self.calls.push(DiskCall::Synced) {
            Err(_) => Err(AllocError),
            Ok(()) => Ok(()),
        }
    }
}

impl Disk for MemDisk {
    ghost reads = { λ disk. Some disk.bytes.items };

    ghost image = { λ disk c. image_after_all disk.first.items (map call_of disk.calls.items) c };

    ghost moment = { λ disk. length (map call_of disk.calls.items) };

    ghost image_since = { λ disk t c. image_from disk.first.items (map call_of disk.calls.items) t c };

    ghost faults = { λ disk. disk.faults };

    ghost now_is_since = { λ disk t c le image. inl image };

    ghost since_now = { λ disk c image. none_since_last disk.first.items (map call_of disk.calls.items) c image };

    ghost reads_is_image = { λ disk told is. of_told (image_after_all disk.first.items (map call_of disk.calls.items)) disk.bytes.items (bytes_after disk.first.items (map call_of disk.calls.items)) told disk.kept is (last_is_image disk.first.items (λ x. x ≡ disk.first.items) (map call_of disk.calls.items) refl) };

    fn size(&mut self) -> Result<u64, DiskFault> {
        if self.failures.next_fails() {
            return Err(self.failed());
        }
        Ok(self.bytes.len() as u64)
    }

    fn read(&mut self, at: u64, into: &mut [u8]) -> Result<usize, DiskFault> {
        if self.failures.next_fails() {
            return Err(self.failed());
        }
        if at >= self.bytes.len() as u64 {
            return Ok(0);
        }
        let from = at as usize;
        let count = into.len().min(self.bytes.len() - from);
        into[..count].copy_from_slice(&self.bytes[from..from + count]);
        Ok(count)
    }

    fn write_at(&mut self, at: u64, piece: &[u8]) -> Result<(), DiskFault> {
        if self.failures.next_fails() {
            return Err(self.failed());
        }
        match self.record_write(at, piece) {
            Ok(()) => Ok(()),
            Err(_) => Err(self.failed()),
        }
    }

    fn sync(&mut self) -> Result<(), DiskFault> {
        if self.failures.next_fails() {
            return Err(self.failed());
        }
        match self.record_sync() {
            Ok(()) => Ok(()),
            Err(_) => Err(self.failed()),
        }
    }
}
