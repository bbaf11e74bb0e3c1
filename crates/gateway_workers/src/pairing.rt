//! Workers made of doors and passes, and taken apart again; and what they did, added up.

ghost use Rattle.std.specs.Prelude.{◌≡◌, ◌≤◌, [], All, length, vec_capacity};
ghost use Rattle.gateway_workers.specs.Tours.{one_if};
ghost use Rattle.gateway_workers.specs.Workers.{doors_of, passes_of, IsNewWorker, IsCounted, connections_in, answers_in, faults_in};

use crate::work_done::WorkDone;
use crate::worker::Worker;
use account_shared::Passes;

/// A worker for each door, with the passes of the same place.
pub(crate) fn pair<D: Drop>(
    doors: &mut Vec<D>,
    split: &mut Vec<Passes>,
    workers: &mut Vec<Worker<D>>,
)
    requires counts { length doors.old.items ≡ length split.old.items }
    requires none { workers.old.items ≡ [] }
    requires room { length doors.old.items ≤ vec_capacity workers.old }
    ensures doors { doors_of workers.new.items ≡ doors.old.items }
    ensures passes { passes_of workers.new.items ≡ split.old.items }
    ensures new { All IsNewWorker workers.new.items }
    ensures empty { (doors.new.items ≡ []) × (split.new.items ≡ []) }
    ensures rooms { (vec_capacity doors.new ≡ vec_capacity doors.old) × (vec_capacity split.new ≡ vec_capacity split.old) }
{
    'pairs: while !doors.is_empty() {
        let door = doors.remove(0);
        let passes = split.remove(0);
        workers.push_reserved(Worker {
            door,
            passes,
            connections: 0,
            replies: 0,
            failed: false,
        });
    }
}

/// The doors and the passes back, in their order.
pub(crate) fn part<D: Drop>(
    doors: &mut Vec<D>,
    split: &mut Vec<Passes>,
    workers: &mut Vec<Worker<D>>,
)
    requires none { (doors.old.items ≡ []) × (split.old.items ≡ []) }
    requires room { (length workers.old.items ≤ vec_capacity doors.old) × (length workers.old.items ≤ vec_capacity split.old) }
    ensures doors { doors.new.items ≡ doors_of workers.old.items }
    ensures passes { split.new.items ≡ passes_of workers.old.items }
{
    'parts: while !workers.is_empty() {
        let Worker {
            door,
            passes,
            connections: _,
            replies: _,
            failed: _,
        } = workers.remove(0);
        doors.push_reserved(door);
        split.push_reserved(passes);
    }
}

// 1 for a door that failed.
fn one_if(failed: bool) -> u32
    ensures one { result ≡ one_if failed }
    ensures most { result ≤ 1 }
{
    if failed { 1 } else { 0 }
}

/// What the workers did, added up.
pub(crate) fn added_up<D: Drop>(workers: &[Worker<D>]) -> WorkDone
    requires few { length workers.now ≤ 16 }
    requires counted { All IsCounted workers.now }
    ensures connections { result.connections ≡ connections_in workers.now }
    ensures exchanges { result.exchanges ≡ answers_in workers.now }
    ensures faults { result.faults ≡ faults_in workers.now }
{
    let mut sum = WorkDone {
        connections: 0,
        exchanges: 0,
        faults: 0,
    };
    'workers: for worker in workers {
        sum.connections += u64::from(worker.connections);
        sum.exchanges += worker.replies;
        sum.faults += one_if(worker.failed);
    }
    sum
}
