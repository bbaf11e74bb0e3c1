//! The disks that rows have, in memory.

ghost use Rattle.std.specs.Prelude.{◌≡◌, IfOk};

use journal_disk::{Disks, MemDisks};
use outside::Failures;
use std::alloc::{AllocError, Global};

// What the disk of a row reads as when it is opened: with `+` in its mark what the row before left on its own, with `~` the same with
// another kind in slot 1, with `x` what no journal begins with, and else nothing.
fn bytes_for(alloc: Global, how: &str, left: &[u8]) -> Result<Vec<u8>, AllocError> {
    let mut bytes = Vec::new(alloc);
    if how.starts_with('+') || how.starts_with('~') {
        bytes.extend_from_slice(left)?;
    }
    if how == "x" {
        bytes.extend_from_slice(b"type Query { a: Int }")?;
    }
    if how.starts_with('~') && bytes.len() > 65 {
        bytes[65] = 7;
    }
    Ok(bytes)
}

/// The disks of a row with this mark. Behind `j`, and `+` or `~` there, stands the number of the call on a disk that fails, counted from 1,
/// or `!` where the first can't be opened, or `x` where it is no journal's.
pub(crate) fn disks_for(alloc: Global, mark: &str, left: &[u8]) -> Result<MemDisks, AllocError>
    ensures idle { IfOk result (λ disks. ⟦<MemDisks as Disks>⟧.running disks ≡ 0) }
{
    let how = mark.strip_prefix('j').unwrap_or("");
    let bytes = bytes_for(alloc, how, left)?;
    let call = how.trim_start_matches(|c| c == '+' || c == '~');
    let mut failing = Vec::new(alloc);
    let mut unopened = Vec::new(alloc);
    if call == "!" {
        unopened.push(0)?;
    }
    if let Ok(number) = call.parse::<u64>() {
        failing.push(number.saturating_sub(1))?;
    }
    Ok(MemDisks::new(alloc, bytes, failing, Failures::of(unopened)))
}

/// Adds how many bytes the latest disk that was shut has, and keeps them for the next row.
pub(crate) fn push_disk(
    alloc: Global,
    into: &mut Vec<u8>,
    disks: &MemDisks,
    left: &mut Vec<u8>,
) -> Result<(), AllocError> {
    let Some(last) = disks.shut_disks().last() else {
        return Ok(());
    };
    let disk = &last.disk;
    let size = disk.bytes().len();
    into.extend_from_slice(format!(in alloc; "@ {size}\n")?.as_bytes())?;
    *left = Vec::from_slice(alloc, disk.bytes())?;
    Ok(())
}
