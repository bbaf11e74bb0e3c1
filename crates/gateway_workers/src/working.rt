//! What one worker does.

ghost use Rattle.std.specs.Prelude.{◌≡◌, ◌*◌, ◌≤◌, ◌<◌, false};
ghost use Rattle.account_shared.specs.Views.{Belongs, IsIdle};
ghost use Rattle.gateway_connections.specs.Exchanges.{service_of};
ghost use Rattle.gateway_workers.specs.Tours.{door_members};
ghost use Rattle.gateway_workers.specs.Workers.{TurnIs, Waits, Worked};

use crate::worker::{Next, Worker};
use doors::{Door, DoorFault};
use gateway_connections::{Gate, serve_connection};
use std::alloc::Global;
use std::sync::Wait;

/// How many connections a worker serves at most.
pub const CONNECTION_LIMIT: u32 = 4_294_967_295;

// Serves one connection of the door, if it gives one.
fn serve_one<D: Door, R: Wait>(gate: &Gate, alloc: Global, rt: &R, worker: &mut Worker<D>) -> Next
    requires belong { Belongs worker.old.passes gate.now.accounts }
    requires idle { IsIdle worker.old.passes }
    requires free { D.out worker.old.door ≡ false }
    requires few { worker.old.connections < 4294967295 }
    requires counted { worker.old.replies ≤ 1000 * worker.old.connections }
    requires made { worker.old.passes.made ≤ 2000 * worker.old.connections }
    ensures { TurnIs (door_members D.Door) (service_of gate.now) gate.now.accounts worker.old worker.new result }
{
    match worker.door.accept() {
        Ok(Some(mut conn)) => {
            let served = serve_connection(gate, alloc, rt, &mut worker.passes, &mut conn);
            worker.door.hand_back(conn, served.end.number());
            worker.connections += 1;
            worker.replies += u64::from(served.replies);
            Next::One
        }
        Ok(None) => Next::Over,
        Err(DoorFault) => {
            worker.failed = true;
            Next::Failed
        }
    }
}

/// Serves the connections of a door until it gives none, fails, or has given so many.
pub(crate) fn work<D: Door, R: Wait>(
    gate: &Gate,
    alloc: Global,
    rt: &R,
    worker: &mut Worker<D>,
    most: u32,
)
    requires waits { Waits (door_members D.Door) gate.now.accounts worker.old }
    requires most { most ≤ CONNECTION_LIMIT }
    ensures { Worked (door_members D.Door) (service_of gate.now) gate.now.accounts most worker.old worker.new }
{
    'turns: while worker.connections < most {
        match serve_one(gate, alloc, rt, worker) {
            Next::One => {}
            Next::Over => return,
            Next::Failed => return,
        }
    }
}
