//! Where disks come from.

ghost use Rattle.std.specs.Prelude.{◌≡◌, ◌≤◌, List, ℕ, Option, Some, IfOk, OnOk, OnErr, true};
ghost use Rattle.outside.specs.Faults.{Rose};
ghost use Rattle.journal_disk.specs.Beginnings.{may_be_journal};
ghost use Rattle.journal_disk.specs.Shutting.{Shut, shut_with};

use crate::disk::{Disk, DiskFault};
use std::alloc::Global;

/// Disks of journals by their names, of which one is open at a time: it is opened, and shut.
pub trait Disks {
    type D: Disk + Drop;

    /// What the disk of a name reads as when it is opened, where that is told.
    ghost holds: { Self → List ℕ → Option (List ℕ) };
    /// How many disks are open: 1 from an opening that succeeds up to the shutting.
    ghost running: { Self → ℕ };
    /// Whether the disk that was opened last is that of a name.
    ghost opened: { Self → List ℕ → Type 0 };
    /// How the latest disk that was shut was left, once one was.
    ghost last: { Self → Option Shut };
    /// The count of openings that failed, which never falls.
    ghost faults: { Self → ℕ };

    /// Opens the disk of this name, if it may be that of a journal. One that isn't there yet is made, and is empty. What
    /// another holds is left as it is.
    fn open(&mut self, alloc: Global, name: &str) -> Result<Self::D, DiskFault>
        requires idle { running self.old ≡ 0 }
        ensures told { IfOk result (λ disk. Self.D.reads disk ≡ holds self.old name.now) }
        ensures may_be { IfOk result (λ disk. (told : List ℕ) → Self.D.reads disk ≡ Some told → may_be_journal told ≡ true) }
        ensures fresh { IfOk result (λ disk. Self.D.faults disk ≡ 0) }
        ensures running { OnOk result (running self.new ≡ 1) }
        ensures named { OnOk result (opened self.new name.now) }
        ensures idle { OnErr result (running self.new ≡ 0) }
        ensures holds { holds self.new ≡ holds self.old }
        ensures last { last self.new ≡ last self.old }
        ensures count { faults self.old ≤ faults self.new }
        ensures cause { OnErr result (Rose (faults self.old) (faults self.new)) };

    /// Takes back the disk that it opened: its name holds from now on what it reads as, and the other names hold what they
    /// held. It takes no memory, and doesn't fail.
    fn shut(&mut self, disk: Self::D)
        requires running { running self.old ≡ 1 }
        ensures idle { running self.new ≡ 0 }
        ensures held { (name : List ℕ) → opened self.old name → holds self.new name ≡ Self.D.reads disk }
        ensures others { (name other : List ℕ) → opened self.old name → (other ≡ name → ⊥) → holds self.new other ≡ holds self.old other }
        ensures last { last self.new ≡ Some (shut_with (Self.D.reads disk) (Self.D.faults disk)) }
        ensures count { faults self.new ≡ faults self.old };
}
