//! A disk: a file that is read and written at any place, and synced.

ghost use Rattle.std.specs.Prelude.{◌≡◌, ◌≤◌, ◌-◌, List, ℕ, length, take, drop, min, IfOk, OnOk, OnErr, Option, Some, is_some};
ghost use Rattle.outside.specs.Faults.{Rose};
ghost use Rattle.journal_disk.specs.Images.{CrashesLeave, IsDurable, IsTorn, StepsBack, TimePasses, written_at, written_where_told};

use thiserror::Error;

/// That a call on a disk failed. The count of such faults rose.
#[derive(Clone, Copy, Debug, Drop, PartialEq, Eq, Error)]
#[error("the disk could not be read or written")]
pub struct DiskFault;

/// A file that is read and written at any place.
pub trait Disk {
    /// The bytes that it reads as, where the disk tells them.
    ghost reads: { Self → Option (List ℕ) };
    /// The images: what a crash now may leave. A disk that doesn't tell has none.
    ghost image: { Self → List ℕ → Type 0 };
    /// The moment, a number that never falls.
    ghost moment: { Self → ℕ };
    /// What a crash may have left at this moment or a later one, up to now.
    ghost image_since: { Self → ℕ → List ℕ → Type 0 };
    /// The count of faults, which never falls.
    ghost faults: { Self → ℕ };

    /// The number of its bytes.
    fn size(&mut self) -> Result<u64, DiskFault>
        ensures size { IfOk result (λ size. (told : List ℕ) → reads self.old ≡ Some told → size ≡ length told) }
        ensures same { reads self.new ≡ reads self.old }
        ensures images { (c : List ℕ) → image self.new c → image self.old c }
        ensures time { TimePasses (moment self.old) (moment self.new) (image_since self.old) (image_since self.new) (image self.new) }
        ensures count { faults self.old ≤ faults self.new }
        ensures cause { OnErr result (Rose (faults self.old) (faults self.new)) };

    /// Reads the bytes from the place `at` on into the front of `into`, as many as there are and as fit, and gives
    /// their number.
    fn read(&mut self, at: u64, into: &mut [u8]) -> Result<usize, DiskFault>
        ensures within { IfOk result (λ count. count ≤ length into.old) }
        ensures length { length into.new ≡ length into.old }
        ensures bytes { IfOk result (λ count. (told : List ℕ) → reads self.old ≡ Some told
            → take count into.new ≡ take (length into.old) (drop at told)) }
        ensures all { IfOk result (λ count. (told : List ℕ) → reads self.old ≡ Some told
            → count ≡ min (length into.old) (length told - at)) }
        ensures same { reads self.new ≡ reads self.old }
        ensures images { (c : List ℕ) → image self.new c → image self.old c }
        ensures time { TimePasses (moment self.old) (moment self.new) (image_since self.old) (image_since self.new) (image self.new) }
        ensures count { faults self.old ≤ faults self.new }
        ensures cause { OnErr result (Rose (faults self.old) (faults self.new)) };

    /// Writes a piece at a place, over what is there and past the end. A place past the end isn't written. Where it
    /// fails, what is read afterwards is one of the images.
    fn write_at(&mut self, at: u64, piece: &[u8]) -> Result<(), DiskFault>
        requires inside { (told : List ℕ) → reads self.old ≡ Some told → at ≤ length told }
        ensures written { OnOk result (reads self.new ≡ written_where_told at piece.now (reads self.old)) }
        ensures tells { is_some (reads self.new) ≡ is_some (reads self.old) }
        ensures images { StepsBack (IsTorn at (length piece.now)) (image self.old) (image self.new) }
        ensures time { TimePasses (moment self.old) (moment self.new) (image_since self.old) (image_since self.new) (image self.new) }
        ensures count { faults self.old ≤ faults self.new }
        ensures cause { OnErr result (Rose (faults self.old) (faults self.new)) };

    /// Waits until all that was written is safe: after it a crash leaves what is read.
    fn sync(&mut self) -> Result<(), DiskFault>
        ensures durable { OnOk result ((told : List ℕ) → reads self.old ≡ Some told → IsDurable told (image self.new)) }
        ensures same { OnOk result (reads self.new ≡ reads self.old) }
        ensures tells { is_some (reads self.new) ≡ is_some (reads self.old) }
        ensures images { (c : List ℕ) → image self.new c → image self.old c }
        ensures time { TimePasses (moment self.old) (moment self.new) (image_since self.old) (image_since self.new) (image self.new) }
        ensures count { faults self.old ≤ faults self.new }
        ensures cause { OnErr result (Rose (faults self.old) (faults self.new)) };

    /// Now is one of the moments from an earlier one on.
    ghost now_is_since: { (d : Self) (t : ℕ) (c : List ℕ) → t ≤ moment d → image d c → image_since d t c };
    /// From now on up to now there is no other moment.
    ghost since_now: { (d : Self) (c : List ℕ) → image_since d (moment d) c → image d c };
    /// What is read is one of the images.
    ghost reads_is_image: { (d : Self) (told : List ℕ) → reads d ≡ Some told → image d told };
}

/// Writes a piece at a place and syncs. A crash at any moment of it leaves what was durable before, with any bytes where
/// the piece goes; after it a crash leaves the whole piece.
pub fn write_through<D: Disk>(disk: &mut D, at: u64, piece: &[u8]) -> Result<(), DiskFault>
    requires inside { (told : List ℕ) → D.reads disk.old ≡ Some told → at ≤ length told }
    ensures written { OnOk result (D.reads disk.new ≡ written_where_told at piece.now (D.reads disk.old)) }
    ensures tells { is_some (D.reads disk.new) ≡ is_some (D.reads disk.old) }
    ensures durable { OnOk result ((told : List ℕ) → D.reads disk.old ≡ Some told
        → IsDurable (written_at at piece.now told) (D.image disk.new)) }
    ensures any_moment { (before : List ℕ) → IsDurable before (D.image disk.old)
        → CrashesLeave D.moment D.image_since disk.old disk.new (IsTorn at (length piece.now) before) }
    ensures count { D.faults disk.old ≤ D.faults disk.new }
    ensures cause { OnErr result (Rose (D.faults disk.old) (D.faults disk.new)) }
{
    disk.write_at(at, piece)?;
    disk.sync()
}
