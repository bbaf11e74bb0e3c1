//! What a crash leaves of a disk in memory.

use journal_disk::{DiskCall, MemDisk};
use std::alloc::{AllocError, Global};

/// How much comes through of each piece that was written since the last sync.
#[derive(Clone, Copy, Debug, PartialEq, Eq)]
pub(crate) enum Keep {
    None,
    Half,
    All,
}

// Puts the first bytes of a piece at a place, over what is there and past the end.
fn put(into: &mut Vec<u8>, at: u64, piece: &[u8], count: usize) -> Result<(), AllocError> {
    let mut place = at as usize;
    for byte in piece.iter().take(count) {
        if place < into.len() {
            into[place] = *byte;
        } else if into.push(*byte).is_err() {
            return Err(AllocError);
        }
        place = place.saturating_add(1);
    }
    Ok(())
}

fn kept_of(length: usize, keep: Keep) -> usize {
    match keep {
        Keep::None => 0,
        Keep::Half => length / 2,
        Keep::All => length,
    }
}

/// What a crash after the first `count` of the recorded calls leaves.
pub(crate) fn left(
    alloc: Global,
    disk: &MemDisk,
    count: usize,
    keep: Keep,
) -> Result<Vec<u8>, AllocError> {
    let mut left = Vec::from_slice(alloc, disk.first())?;
    let mut whole = Vec::from_slice(alloc, disk.first())?;
    for call in disk.calls().iter().take(count) {
        match call {
            DiskCall::Synced => left = Vec::from_slice(alloc, &whole)?,
            DiskCall::Wrote { at, piece } => {
                put(&mut whole, *at, piece, piece.len())?;
                put(&mut left, *at, piece, kept_of(piece.len(), keep))?;
            }
        }
    }
    Ok(left)
}
