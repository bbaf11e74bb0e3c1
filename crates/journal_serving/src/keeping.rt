//! Serving over a journal: its disk is opened, one door is started, served and stopped, and the disk is shut.

ghost use Rattle.std.specs.Prelude.{◌≡◌, ◌≤◌, [], All, IfOk, length, Some, vec_capacity};
ghost use Rattle.client_files.specs.declared.client.TheConstants.{CLIENT_LIMIT};
ghost use Rattle.doors.specs.Starts.{IsNew};
ghost use Rattle.gateway_serving.specs.PassedOn.{door_members, CONNECTION_LIMIT};
ghost use Rattle.gateway_serving.specs.Telling.{doors_told, asked_of};
ghost use Rattle.gateway_journal.specs.PassedOn.{telling, limits_of, IsSettledWithin, IsCarriedWithin};
ghost use Rattle.account_journal.specs.Journals.{IsSound};
ghost use Rattle.gateway_journal.specs.Kept.{IsKeptFor};
ghost use Rattle.gateway_journal.specs.Served.{service_kept};
ghost use Rattle.gateway_journal.specs.DoorRuns.{disk_members};
ghost use Rattle.journal_serving.specs.Keeping.{disks_told, ComesTo, IsUnopened};
ghost use Rattle.journal_serving.specs.OverJournals.{WasKept, EndsOver};

use crate::ending::{KeptEnd, KeptFault};
use account_core::Account;
use account_journal::{Journal, OpenFault};
use doors::{Doors, StartFault};
use gateway_journal::{Gate, open_for, serve_door};
use gateway_serving::Serving;
use journal_disk::{Disk, DiskFault, Disks};
use std::alloc::Global;
use std::sync::Wait;

// Puts the account of each client behind the others.
fn put_accounts<J: Disk>(journal: &Journal<J>, into: &mut Vec<Account>)
    requires sound { IsSound journal.now }
    requires none { into.old.items ≡ [] }
    requires room { length journal.now.accounts.items ≤ vec_capacity into.old }
    requires few { length journal.now.limits.items ≤ CLIENT_LIMIT }
    ensures items { into.new.items ≡ journal.now.accounts.items }
    ensures settled { All IsSettledWithin into.new.items }
    ensures carried { All IsCarriedWithin into.new.items }
{
    'clients: for client in 0..journal.clients() {
        into.push_reserved(journal.account(client as u32));
    }
}

// Serves the one door that was started, and stops it. It gives the disk back.
fn serve_started<D: Doors, J: Disk + Drop, R: Wait>(
    gate: &Gate,
    alloc: Global,
    rt: &R,
    journal: Journal<J>,
    doors: &mut D,
    mut started: Vec<D::D>,
    serving: &Serving<'_>,
    mut accounts: Vec<Account>,
) -> (J, Result<KeptEnd, KeptFault>)
    requires kept { IsKeptFor J.reads journal gate.now }
    requires idle { journal.opened ≡ 0 }
    requires one { length started.items ≡ 1 }
    requires running { D.running doors.old ≡ 1 }
    requires new { All (IsNew (door_members D.D.Door) serving.now.connections) started.items }
    requires asked { D.asked doors.old ≡ Some (asked_of serving.now) }
    requires connections { serving.now.connections ≤ CONNECTION_LIMIT }
    requires none { accounts.items ≡ [] }
    requires room { length journal.accounts.items ≤ vec_capacity accounts }
    ensures idle { D.running doors.new ≡ 0 }
    ensures settled { IfOk result.1 (λ end. All IsSettledWithin end.accounts.items) }
    ensures carried { IfOk result.1 (λ end. All IsCarriedWithin end.accounts.items) }
    ensures ended { EndsOver (door_members D.D.Door) (disk_members J.Disk) (telling D.D.W.Wire) gate.now serving.now journal
        (doors_told D.Doors doors.old) (doors_told D.Doors doors.new) result.0 result.1 }
{
    let door = started.remove(0);
    let (back, door, done) = serve_door(gate, alloc, rt, journal, door, serving.connections);
    started.push_reserved(door);
    doors.stop(started);
    match back {
        Ok(journal) => {
            put_accounts(&journal, &mut accounts);
            (journal.close(), Ok(KeptEnd { done, accounts }))
        }
        Err(disk) => (disk, Err(KeptFault::Disk)),
    }
}

// Starts a door, and serves it over a journal. It gives the disk back.
fn serve_opened<D: Doors, J: Disk + Drop, R: Wait>(
    gate: &Gate,
    alloc: Global,
    rt: &R,
    journal: Journal<J>,
    doors: &mut D,
    serving: &Serving<'_>,
) -> (J, Result<KeptEnd, KeptFault>)
    requires kept { IsKeptFor J.reads journal gate.now }
    requires none { journal.opened ≡ 0 }
    requires idle { D.running doors.old ≡ 0 }
    requires workers { serving.now.workers ≡ 1 }
    requires connections { serving.now.connections ≤ CONNECTION_LIMIT }
    ensures idle { D.running doors.new ≡ 0 }
    ensures settled { IfOk result.1 (λ end. All IsSettledWithin end.accounts.items) }
    ensures carried { IfOk result.1 (λ end. All IsCarriedWithin end.accounts.items) }
    ensures kept { WasKept (door_members D.D.Door) (disk_members J.Disk) (telling D.D.W.Wire) gate.now serving.now journal
        (doors_told D.Doors doors.old) (doors_told D.Doors doors.new) result.0 result.1 }
{
    let Ok(accounts) = Vec::with_capacity(alloc, journal.clients()) else {
        return (journal.close(), Err(KeptFault::Memory));
    };
    let (listen, upstream) = (serving.listen, serving.upstream);
    match doors.start(
        alloc,
        listen,
        upstream,
        serving.workers,
        serving.connections,
    ) {
        Ok(started) => serve_started(gate, alloc, rt, journal, doors, started, serving, accounts),
        Err(StartFault::Failed) => (journal.close(), Err(KeptFault::NotStarted)),
        Err(StartFault::Memory) => (journal.close(), Err(KeptFault::Memory)),
    }
}

// Why a journal was not opened.
fn unopened(fault: OpenFault) -> KeptFault
    ensures { IsUnopened fault result }
{
    match fault {
        OpenFault::Failed => KeptFault::Disk,
        OpenFault::OtherClients => KeptFault::OtherClients,
        OpenFault::Damaged { slot } => KeptFault::Damaged { slot },
        OpenFault::Memory => KeptFault::Memory,
    }
}

/// Serves the clients of a gate over the journal of this name, for whom a mark stands: opens its disk and the journal, settles what
/// that leaves open at its bound, starts one door, serves it until it has given its connections or has failed, stops it, and shuts
/// the disk. The gate's own cells are not used.
///
/// A disk that was opened is shut whatever it comes to, and so are the doors. None is open before, and none after.
///
/// # Errors
///
/// `Disk` where the disk was not opened, or a call on it failed: then what is served last has no reply, and the journal has to be
/// opened again. `OtherClients` and `Damaged` where the journal is refused, and `NotStarted` where the doors were not started; then
/// nobody was served. `Memory` where there was not enough memory, all of which is taken before the first connection.
pub fn serve_journal<D: Doors, J: Disks, R: Wait>(
    alloc: Global,
    rt: &R,
    gate: &Gate,
    mark: [u8; 32],
    name: &str,
    disks: &mut J,
    doors: &mut D,
    serving: &Serving<'_>,
) -> Result<KeptEnd, KeptFault>
    requires idle { D.running doors.old ≡ 0 }
    requires disks_idle { J.running disks.old ≡ 0 }
    requires workers { serving.now.workers ≡ 1 }
    requires connections { serving.now.connections ≤ CONNECTION_LIMIT }
    ensures idle { D.running doors.new ≡ 0 }
    ensures disks_idle { J.running disks.new ≡ 0 }
    ensures settled { IfOk result (λ end. All IsSettledWithin end.accounts.items) }
    ensures carried { IfOk result (λ end. All IsCarriedWithin end.accounts.items) }
    ensures came_to { ComesTo (service_kept gate.now) (limits_of gate.now) serving.now mark name.now
        (disks_told J.Disks disks.old) (disks_told J.Disks disks.new)
        (doors_told D.Doors doors.old) (doors_told D.Doors doors.new) result }
{
    let Ok(disk) = disks.open(alloc, name) else {
        return Err(KeptFault::Disk);
    };
    match open_for(alloc, gate, disk, mark) {
        Ok(journal) => {
            let (disk, came_to) = serve_opened(gate, alloc, rt, journal, doors, serving);
            disks.shut(disk);
            came_to
        }
        Err((disk, fault)) => {
            disks.shut(disk);
            Err(unopened(fault))
        }
    }
}
