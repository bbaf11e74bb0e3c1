//! The files of the system as disks.

ghost use Rattle.std.specs.Prelude.{◌≡◌, ◌≤◌, None, Some, Option};
ghost use Rattle.outside.specs.Faults.{Rose};

use crate::beginning::{FRONT, may_be_journal};
use crate::disk::DiskFault;
use crate::disks::Disks;
use crate::std_disk::{StdDisk, filled};
use std::alloc::Global;
use std::fs::{File, OpenOptions};
use std::os::fd::AsRawFd;
use std::path::Path;
use std::{io, rt};

/// The files of the system, which `rt` reaches. A file is locked while it is open, so that no two processes that heed
/// the lock write one journal.
#[derive(Drop)]
pub struct StdDisks<R: rt::Files + Drop> {
    rt: R,
    faults: u64,
    running: usize,
    // Whether a call on the latest disk that was shut had failed.
    last: Option<bool>,
}

// Syncs the folder of a file, so that the name of a new file outlives a crash.
fn sync_folder<R: rt::Files<File = File>>(rt: &R, name: &str) -> io::Result<()> {
    let folder = match Path::new(name).parent() {
        Some(folder) if !folder.as_str().is_empty() => folder.as_str(),
        _ => ".",
    };
    File::open(rt, folder)?.sync_all()
}

// Syncs a file and gives up the copies that the system has of its pages, so that what is read comes from the disk. After a sync that
// failed, the system may count as written what the disk lacks.
fn drop_copies(file: &File) -> io::Result<()> {
    file.sync_all()?;
    match libc::posix_fadvise(file.as_raw_fd(), 0, 0, libc::POSIX_FADV_DONTNEED) {
        0 => Ok(()),
        number => Err(io::Error::from_raw_os_error(number)),
    }
}

// Whether a file may be that of a journal, and was read.
fn is_journal(file: &File) -> bool {
    let mut front = [0; FRONT];
    match filled(file, 0, &mut front) {
        Some(count) => may_be_journal(&front[..count]),
        None => false,
    }
}

// Opens the file of a name, or makes it, and locks it.
fn open_locked<R: rt::Files<File = File>>(rt: &R, name: &str) -> io::Result<File> {
    let file = OpenOptions::new()
        .read(true)
        .write(true)
        .create(true)
        .open(rt, name)?;
    file.try_lock()?;
    drop_copies(&file)?;
    sync_folder(rt, name)?;
    if !is_journal(&file) {
        return Err(io::ErrorKind::InvalidData.into());
    }
    Ok(file)
}

impl<R: rt::Files<File = File> + Drop> StdDisks<R> {
    /// The files that `rt` reaches, without a fault so far, and none shut.
    pub fn new(rt: R) -> StdDisks<R>
        ensures rt { result.rt ≡ rt }
        ensures faults { result.faults ≡ 0 }
        ensures running { result.running ≡ 0 }
        ensures last { result.last ≡ None }
    {
        StdDisks {
            rt,
            faults: 0,
            running: 0,
            last: None,
        }
    }

    // Counts a fault.
    fn failed(&mut self) -> DiskFault
        ensures last { self.new.last ≡ self.old.last }
        ensures running { self.new.running ≡ self.old.running }
        ensures count { self.old.faults ≤ self.new.faults }
        ensures cause { Rose self.old.faults self.new.faults }
    {
        self.faults = self.faults.saturating_add(1);
        DiskFault
    }
}

impl<R: rt::Files<File = File> + Drop> Disks for StdDisks<R> {
    ghost use Rattle.std.specs.Prelude.{option_map};

    type D = StdDisk;

    ghost holds = { λ disks name. None };

    ghost running = { λ disks. disks.running };

    ghost opened = { λ disks name. Unit {0} };

    ghost last = { λ disks. option_map (λ failed. record { reads = None; failed = failed }) disks.last };

    ghost faults = { λ disks. disks.faults };

    // It fails too where another open file has the lock, and where the file or its folder can't be synced.
    fn open(&mut self, alloc: Global, name: &str) -> Result<StdDisk, DiskFault> {
        let _ = alloc;
        match open_locked(&self.rt, name) {
            Ok(file) => {
                self.running = 1;
                Ok(StdDisk::new(file))
            }
            Err(_) => Err(self.failed()),
        }
    }

    fn shut(&mut self, disk: StdDisk) {
        self.last = Some(disk.has_failed());
        self.running = 0;
    }
}
