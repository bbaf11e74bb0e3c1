//! A file as a journal needs it: what it reads as, and what a crash at any moment may leave of it.
//!
//! A write is safe only once a sync behind it has succeeded. Until then a crash may leave any bytes in the range that was
//! written: such a write is torn. What a crash may leave is an image of the disk. A disk in memory records its calls, and
//! so tells all of its images; a file of the system tells nothing.
#![tactic(auto)]

mod beginning;
mod disk;
mod disks;
mod mem_disk;
mod mem_disks;
mod std_disk;
mod std_disks;

pub use beginning::may_be_journal;
pub use disk::{Disk, DiskFault, write_through};
pub use disks::Disks;
pub use mem_disk::{DiskCall, MemDisk};
pub use mem_disks::{MemDisks, ShutDisk};
pub use std_disk::StdDisk;
pub use std_disks::StdDisks;
