//! Disks in memory.

ghost use Rattle.std.specs.Prelude.{◌≡◌, ◌≤◌, ◌+◌, [], Option, Some, None, IfSome, IsTrue, option_map, is_some, cond, reverse, slice_get, vec_len, vec_capacity, true, false};
ghost use Rattle.outside.specs.Faults.{Rose};
ghost use Rattle.journal_disk.specs.Beginnings.{may_be_journal};
ghost use Rattle.journal_disk.specs.Shutting.{held_by, shut_with};

use crate::beginning::may_be_journal;
use crate::disk::DiskFault;
use crate::disks::Disks;
use crate::mem_disk::MemDisk;
use outside::Failures;
use std::alloc::Global;

/// A disk that was shut, and its name.
#[derive(Drop)]
pub struct ShutDisk {
    pub name: Vec<u8>,
    pub disk: MemDisk,
}

/// Disks in memory. Each has the same failures to come when it is opened.
#[derive(Drop)]
pub struct MemDisks {
    // What a disk reads as whose name was never shut.
    bytes: Vec<u8>,
    // The numbers of the calls that are to fail on each disk.
    failing: Vec<u64>,
    // The openings so far, and those that are to fail.
    failures: Failures,
    // The disks that were shut, in order, each with the record of its calls.
    shut: Vec<ShutDisk>,
    // The name of the disk that is open.
    at: Option<Vec<u8>>,
    // The count of openings that failed.
    faults: u64,
    ghost room: { vec_len shut + cond (is_some at) 1 0 ≤ vec_capacity shut },
}

impl MemDisks {
    /// No disk opened so far. Each name holds these bytes, and a disk that is opened fails in its calls of these numbers.
    pub fn new(alloc: Global, bytes: Vec<u8>, failing: Vec<u64>, failures: Failures) -> MemDisks
        ensures bytes { result.bytes ≡ bytes }
        ensures failing { result.failing ≡ failing }
        ensures failures { result.failures ≡ failures }
        ensures shut { result.shut.items ≡ [] }
        ensures at { result.at ≡ None }
        ensures faults { result.faults ≡ 0 }
    {
        MemDisks {
            bytes,
            failing,
            failures,
            shut: Vec::new(alloc),
            at: None,
            faults: 0,
        }
    }

    /// The disks that were shut, in order.
    pub fn shut_disks(&self) -> &[ShutDisk]
        ensures { result.now ≡ self.now.shut.items }
    {
        &self.shut
    }

    // What the disk of a name reads as.
    fn held(&self, name: &str) -> &[u8]
        ensures { result.now ≡ held_by self.now.bytes.items self.now.shut.items name.now }
    {
        match self
            .shut
            .iter()
            .rev()
            .find(|it| it.name.as_slice() == name.as_bytes())
        {
            Some(it) => it.disk.bytes(),
            None => &self.bytes,
        }
    }

    // The disk of a name, where that may be a journal's and memory suffices.
    fn disk_of(&self, alloc: Global, name: &str) -> Option<MemDisk>
        ensures bytes { IfSome result (λ disk. disk.bytes.items ≡ held_by self.now.bytes.items self.now.shut.items name.now) }
        ensures may_be { IfSome result (λ disk. may_be_journal disk.bytes.items ≡ true) }
        ensures faults { IfSome result (λ disk. disk.faults ≡ 0) }
    {
        let bytes = self.held(name);
        if !may_be_journal(bytes) {
            return None;
        }
        let Ok(failing) = Vec::from_slice(alloc, &self.failing) else {
            return None;
        };
        let Ok(disk) = MemDisk::new(alloc, bytes, Failures::of(failing)) else {
            return None;
        };
        Some(disk)
    }

    // Counts a fault.
    fn failed(&mut self) -> DiskFault
        ensures bytes { self.new.bytes ≡ self.old.bytes }
        ensures shut { self.new.shut ≡ self.old.shut }
        ensures at { self.new.at ≡ self.old.at }
        ensures count { self.old.faults ≤ self.new.faults }
        ensures cause { Rose self.old.faults self.new.faults }
    {
        self.faults = self.faults.saturating_add(1);
        DiskFault
    }

    // Makes the place for a disk of this name, if memory suffices.
    fn takes(&mut self, alloc: Global, name: &str) -> bool
        requires idle { self.old.at ≡ None }
        ensures at { IsTrue result → option_map (λ name. name.items) self.new.at ≡ Some name.now }
        ensures same { result ≡ false → self.new.at ≡ None }
        ensures bytes { self.new.bytes ≡ self.old.bytes }
        ensures shut { self.new.shut.items ≡ self.old.shut.items }
        ensures faults { self.new.faults ≡ self.old.faults }
    {
        if self.shut.reserve(1).is_err() {
            return false;
        }
        let Ok(name) = Vec::from_slice(alloc, name.as_bytes()) else {
            return false;
        };
        self.at = Some(name);
        true
    }
}

impl Disks for MemDisks {
    ghost use Rattle.std.specs.Prelude.{length, ◌-◌};

    type D = MemDisk;

    ghost holds = { λ disks name. Some (held_by disks.bytes.items disks.shut.items name) };

    ghost running = { λ disks. cond (is_some disks.at) 1 0 };

    ghost opened = { λ disks name. option_map (λ it. it.items) disks.at ≡ Some name };

    ghost last = { λ disks. option_map (λ it. shut_with (Some it.disk.bytes.items) it.disk.faults) (slice_get disks.shut.items (length disks.shut.items - 1)) };

    ghost faults = { λ disks. disks.faults };

    // For want of memory an opening fails too.
    fn open(&mut self, alloc: Global, name: &str) -> Result<MemDisk, DiskFault> {
        if self.failures.next_fails() {
            return Err(self.failed());
        }
        let Some(disk) = self.disk_of(alloc, name) else {
            return Err(self.failed());
        };
        if !self.takes(alloc, name) {
            return Err(self.failed());
        }
        Ok(disk)
    }

    fn shut(&mut self, disk: MemDisk) {
        if let Some(name) = self.at.take() {
            self.shut.push_reserved(ShutDisk { name, disk });
        }
    }
}
