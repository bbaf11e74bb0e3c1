//! Serving a door over a journal.

ghost use Rattle.std.specs.Prelude.{◌≡◌, ◌≤◌, false, IfOk, IfErr};
ghost use Rattle.gateway_workers.specs.PassedOn.{telling};
ghost use Rattle.gateway_workers.specs.Tours.{door_members, one_if};
ghost use Rattle.gateway_journal.specs.Kept.{IsKeptFor};
ghost use Rattle.gateway_journal.specs.DoorRuns.{disk_members, ServesDoor, LosesDoor};

use crate::kept::Kept;
use crate::worker::KeptWorker;
use crate::working::work;
use account_journal::Journal;
use doors::Door;
use gateway_workers::{CONNECTION_LIMIT, Gate, WorkDone};
use journal_disk::Disk;
use std::alloc::Global;
use std::sync::Wait;

// 1 where a door failed.
fn one_if(failed: bool) -> u32
    ensures { result ≡ one_if failed }
{
    if failed { 1 } else { 0 }
}

/// Serves the connections of a door, one after the other, over the accounts of a journal, and hands each back with the number of its
/// end, until the door gives none, fails, or has given so many.
///
/// Where a call on the disk fails, the connection in which it did is the last, and the disk is handed back.
pub fn serve_door<D: Door, J: Disk + Drop, R: Wait>(
    gate: &Gate,
    alloc: Global,
    rt: &R,
    journal: Journal<J>,
    door: D,
    connections: u32,
) -> (Result<Journal<J>, J>, D, WorkDone)
    requires kept { IsKeptFor J.reads journal gate.now }
    requires idle { journal.opened ≡ 0 }
    requires free { D.out door ≡ false }
    requires most { connections ≤ CONNECTION_LIMIT }
    ensures kept { IfOk result.0 (λ j. IsKeptFor J.reads j gate.now) }
    ensures idle { IfOk result.0 (λ j. j.opened ≡ 0) }
    ensures served { IfOk result.0 (λ j. ServesDoor (door_members D.Door) (disk_members J.Disk) gate.now connections journal j door result.1 result.2) }
    ensures lost { IfErr result.0 (λ disk. LosesDoor (door_members D.Door) (disk_members J.Disk) (telling D.W.Wire)
        gate.now connections journal disk door result.1 result.2) }
{
    let mut worker = KeptWorker {
        door,
        kept: Kept { journal },
        connections: 0,
        replies: 0,
        failed: false,
    };
    let stands = work(gate, alloc, rt, &mut worker, connections);
    let KeptWorker {
        door,
        kept,
        connections,
        replies,
        failed,
    } = worker;
    let done = WorkDone {
        connections: u64::from(connections),
        exchanges: replies,
        faults: one_if(failed),
    };
    if stands {
        (Ok(kept.journal), door, done)
    } else {
        (Err(kept.journal.into_disk()), door, done)
    }
}
