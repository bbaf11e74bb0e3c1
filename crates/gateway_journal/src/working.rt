//! What the one worker of a journal does.

ghost use Rattle.std.specs.Prelude.{◌≡◌, ◌*◌, ◌≤◌, ◌<◌, false};
ghost use Rattle.gateway_workers.specs.PassedOn.{telling};
ghost use Rattle.gateway_workers.specs.Tours.{door_members};
ghost use Rattle.gateway_journal.specs.Kept.{IsKeptFor};
ghost use Rattle.gateway_journal.specs.DoorRuns.{disk_members, TurnIs, Waits, Worked};

use crate::serving::serve_on;
use crate::worker::{KeptWorker, Turned};
use doors::{Door, DoorFault};
use gateway_workers::{CONNECTION_LIMIT, ConnectionEnd, Gate};
use journal_disk::Disk;
use std::alloc::Global;
use std::sync::Wait;

// Serves one connection of the door, if it gives one.
fn serve_one<D: Door, J: Disk + Drop, R: Wait>(
    gate: &Gate,
    alloc: Global,
    rt: &R,
    worker: &mut KeptWorker<D, J>,
) -> Turned
    requires kept { IsKeptFor J.reads worker.old.kept.journal gate.now }
    requires idle { worker.old.kept.journal.opened ≡ 0 }
    requires free { D.out worker.old.door ≡ false }
    requires few { worker.old.connections < 4294967295 }
    requires counted { worker.old.replies ≤ 1000 * worker.old.connections }
    ensures { TurnIs (door_members D.Door) (disk_members J.Disk) (telling D.W.Wire) gate.now worker.old worker.new result }
{
    match worker.door.accept() {
        Ok(Some(mut conn)) => match serve_on(gate, alloc, rt, &mut worker.kept, &mut conn) {
            Ok(served) => {
                worker.door.hand_back(conn, served.end.number());
                worker.connections += 1;
                worker.replies += u64::from(served.replies);
                Turned::One
            }
            Err(replies) => {
                worker.door.hand_back(conn, ConnectionEnd::Lost.number());
                worker.connections += 1;
                worker.replies += u64::from(replies);
                Turned::Lost
            }
        },
        Ok(None) => Turned::Over,
        Err(DoorFault) => {
            worker.failed = true;
            Turned::Failed
        }
    }
}

/// Serves the connections of a door until it gives none, fails, or has given so many, and tells that the accounts are still there; or
/// until a call on the disk fails.
pub(crate) fn work<D: Door, J: Disk + Drop, R: Wait>(
    gate: &Gate,
    alloc: Global,
    rt: &R,
    worker: &mut KeptWorker<D, J>,
    most: u32,
) -> bool
    requires waits { Waits (door_members D.Door) (disk_members J.Disk) gate.now worker.old }
    requires most { most ≤ CONNECTION_LIMIT }
    ensures { Worked (door_members D.Door) (disk_members J.Disk) (telling D.W.Wire) gate.now most worker.old worker.new result }
{
    'turns: while worker.connections < most {
        match serve_one(gate, alloc, rt, worker) {
            Turned::One => {}
            Turned::Over => return true,
            Turned::Failed => return true,
            Turned::Lost => return false,
        }
    }
    true
}
