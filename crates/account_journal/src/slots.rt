//! Slots of 64 bytes, each a gate and a body.
//!
//! A slot is present where its gate is 1 and the gate behind it is in the file too. A body is appended behind a gate that isn't
//! open, and is on the disk before the gate is opened; so no crash leaves an open gate before a body that isn't whole.

ghost use Rattle.std.specs.Prelude.{◌≡◌, ◌≤◌, ◌<◌, ◌+◌, ◌*◌, ◌++◌, [], ◌∷◌, List, ℕ, length, drop, IfOk, OnOk, OnErr, Some, is_some};
ghost use Rattle.outside.specs.Faults.{Rose};
ghost use Rattle.journal_disk.specs.Images.{IsDurable, IsTorn, TimePasses, CrashesLeave, written_at, written_where_told};
ghost use Rattle.account_journal.specs.Slots.{bodies, IsAtRest, HoldsOneMore, HoldsSlots, KeepsSlots, IsSlotRead, IsGateRead};

use journal_disk::{Disk, DiskFault, write_through};

/// How many slots a journal has at most.
pub const SLOTS: u64 = 4_194_304;

// A body, and the gate of the next slot, which isn't open.
fn with_closed_gate(body: &[u8; 63]) -> [u8; 64]
    ensures { result ≡ body.now ++ 0 ∷ [] }
{
    let mut piece = [0; 64];
    piece[..63].copy_from_slice(body);
    piece
}

// Writes the body of a slot behind its gate, which stays as it is, and a closed gate of the next slot behind it; then syncs.
fn stage<D: Disk>(disk: &mut D, slot: u64, body: &[u8; 63]) -> Result<(), DiskFault>
    requires below { slot < SLOTS }
    requires inside { (b : List ℕ) → D.reads disk.old ≡ Some b → 64 * slot + 1 ≤ length b }
    ensures written { OnOk result (D.reads disk.new ≡ written_where_told (64 * slot + 1) (body.now ++ 0 ∷ []) (D.reads disk.old)) }
    ensures durable { OnOk result ((b : List ℕ) → D.reads disk.old ≡ Some b
        → IsDurable (written_at (64 * slot + 1) (body.now ++ 0 ∷ []) b) (D.image disk.new)) }
    ensures any_moment { (b : List ℕ) → IsDurable b (D.image disk.old)
        → CrashesLeave D.moment D.image_since disk.old disk.new (IsTorn (64 * slot + 1) (length (body.now ++ 0 ∷ [])) b) }
    ensures tells { is_some (D.reads disk.new) ≡ is_some (D.reads disk.old) }
    ensures count { D.faults disk.old ≤ D.faults disk.new }
    ensures cause { OnErr result (Rose (D.faults disk.old) (D.faults disk.new)) }
{
    write_through(disk, 64 * slot + 1, &with_closed_gate(body))
}

// Opens the gate of a slot, and syncs.
fn open_gate<D: Disk>(disk: &mut D, slot: u64) -> Result<(), DiskFault>
    requires below { slot < SLOTS }
    requires inside { (b : List ℕ) → D.reads disk.old ≡ Some b → 64 * slot ≤ length b }
    ensures written { OnOk result (D.reads disk.new ≡ written_where_told (64 * slot) (1 ∷ []) (D.reads disk.old)) }
    ensures durable { OnOk result ((b : List ℕ) → D.reads disk.old ≡ Some b
        → IsDurable (written_at (64 * slot) (1 ∷ []) b) (D.image disk.new)) }
    ensures any_moment { (b : List ℕ) → IsDurable b (D.image disk.old)
        → CrashesLeave D.moment D.image_since disk.old disk.new (IsTorn (64 * slot) 1 b) }
    ensures tells { is_some (D.reads disk.new) ≡ is_some (D.reads disk.old) }
    ensures count { D.faults disk.old ≤ D.faults disk.new }
    ensures cause { OnErr result (Rose (D.faults disk.old) (D.faults disk.new)) }
{
    write_through(disk, 64 * slot, &[1])
}

/// Appends a slot behind the `used` ones: its body with a closed gate behind it, and a sync; then its gate, and a sync. A
/// crash at any moment of it leaves the slots from before, with the new one or without it.
pub(crate) fn append<D: Disk>(disk: &mut D, used: u64, body: &[u8; 63]) -> Result<(), DiskFault>
    requires below { used < SLOTS }
    requires rest { (b : List ℕ) → D.reads disk.old ≡ Some b → IsAtRest used b }
    ensures rest { OnOk result ((b : List ℕ) → D.reads disk.old ≡ Some b
        → HoldsOneMore (D.reads disk.new) (D.image disk.new) used b body.now) }
    ensures any_moment { (b : List ℕ) → KeepsSlots D.reads D.image D.moment D.image_since disk.old disk.new b body.now }
    ensures tells { is_some (D.reads disk.new) ≡ is_some (D.reads disk.old) }
    ensures count { D.faults disk.old ≤ D.faults disk.new }
    ensures cause { OnErr result (Rose (D.faults disk.old) (D.faults disk.new)) }
{
    stage(disk, used, body)?;
    open_gate(disk, used)?;
    Ok(())
}

/// The body of a slot, where the slot is present.
pub(crate) fn read_slot<D: Disk>(disk: &mut D, slot: u64) -> Result<Option<[u8; 63]>, DiskFault>
    requires below { slot ≤ SLOTS }
    ensures looked { IfOk result (λ found. (b : List ℕ) → D.reads disk.old ≡ Some b → IsSlotRead found (drop (64 * slot) b)) }
    ensures same { D.reads disk.new ≡ D.reads disk.old }
    ensures images { (c : List ℕ) → D.image disk.new c → D.image disk.old c }
    ensures time { TimePasses (D.moment disk.old) (D.moment disk.new) (D.image_since disk.old) (D.image_since disk.new) (D.image disk.new) }
    ensures count { D.faults disk.old ≤ D.faults disk.new }
    ensures cause { OnErr result (Rose (D.faults disk.old) (D.faults disk.new)) }
{
    let mut piece = [0; 65];
    let count = disk.read(64 * slot, &mut piece)?;
    if count < 65 || piece[0] != 1 {
        return Ok(None);
    }
    let mut body = [0; 63];
    body.copy_from_slice(&piece[1..64]);
    Ok(Some(body))
}

// Whether a slot's gate is in the file and isn't open.
fn has_shut_gate<D: Disk>(disk: &mut D, slot: u64) -> Result<bool, DiskFault>
    requires below { slot ≤ SLOTS }
    ensures gate { IfOk result (λ shut. (b : List ℕ) → D.reads disk.old ≡ Some b → IsGateRead shut (drop (64 * slot) b)) }
    ensures same { D.reads disk.new ≡ D.reads disk.old }
    ensures images { (c : List ℕ) → D.image disk.new c → D.image disk.old c }
    ensures time { TimePasses (D.moment disk.old) (D.moment disk.new) (D.image_since disk.old) (D.image_since disk.new) (D.image disk.new) }
    ensures count { D.faults disk.old ≤ D.faults disk.new }
    ensures cause { OnErr result (Rose (D.faults disk.old) (D.faults disk.new)) }
{
    let mut gate = [0; 1];
    let count = disk.read(64 * slot, &mut gate)?;
    if count == 0 || gate[0] == 1 {
        return Ok(false);
    }
    Ok(true)
}

/// Shuts the gate behind the present slots where it is open or not in the file, and syncs. A crash at any moment of it leaves
/// these slots.
pub(crate) fn shut_gate<D: Disk>(disk: &mut D, used: u64) -> Result<(), DiskFault>
    requires below { used ≤ SLOTS }
    requires all { (b : List ℕ) → D.reads disk.old ≡ Some b → length (bodies b) ≡ used }
    ensures rest { OnOk result ((b : List ℕ) → D.reads disk.old ≡ Some b → IsDurable b (D.image disk.old)
        → HoldsSlots (D.reads disk.new) (D.image disk.new) used (bodies b)) }
    ensures any_moment { (b : List ℕ) → D.reads disk.old ≡ Some b → IsDurable b (D.image disk.old)
        → CrashesLeave D.moment D.image_since disk.old disk.new (λ c. bodies c ≡ bodies b) }
    ensures tells { is_some (D.reads disk.new) ≡ is_some (D.reads disk.old) }
    ensures count { D.faults disk.old ≤ D.faults disk.new }
    ensures cause { OnErr result (Rose (D.faults disk.old) (D.faults disk.new)) }
{
    let shut = has_shut_gate(disk, used)?;
    if !shut {
        write_through(disk, 64 * used, &[0])?;
    }
    Ok(())
}
