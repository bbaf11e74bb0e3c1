//! Connections that are served one after the other, over one journal.

ghost use Rattle.std.specs.Prelude.{◌≡◌, IfOk};
ghost use Rattle.account_journal.specs.Journals.{IsSound};
ghost use Rattle.gateway_journal.specs.Kept.{IsKeptFor};

use crate::case::{Change, Planned};
use crate::fault::RowFault;
use crate::gates::{Rules, gate_of};
use crate::in_turn::Run;
use crate::memory::{conn_of, failing, has_failed, push_conn, sent_of};
use account_core::Account;
use account_journal::Journal;
use account_shared::Passes;
use client_files::CLIENT_LIMIT;
use gateway_core::Gate;
use gateway_journal::{open_for, serve_kept};
use journal_disk::{Disk, MemDisk};
use outside::Failures;
use std::alloc::{AllocError, Global};
use std::sync::Wait;

/// What stands for the clients of each row.
const MARK: [u8; 32] = [7; 32];

// Writes an account. Costs are in millionths.
fn push_account(into: &mut String, key: &str, account: Account) -> Result<(), AllocError> {
    let window = account.window;
    let (types, fields) = (account.settled.types, account.settled.fields);
    let (held, held_fields) = (account.held.types, account.held.fields);
    write!(
        into,
        "{key} window {window} settled {types} {fields} held {held} {held_fields}\n"
    )
}

// Writes the account of each client.
fn push_accounts(
    into: &mut String,
    gate: &Gate,
    journal: &Journal<MemDisk>,
) -> Result<(), AllocError>
    requires sound { IsSound journal.now }
{
    let clients = gate.clients();
    for at in 0..clients.len().min(journal.clients()).min(CLIENT_LIMIT) {
        push_account(into, clients[at].key.as_str(), journal.account(at as u32))?;
    }
    Ok(())
}

// Writes what a disk holds: how many bytes, and the account of each client once it is opened again.
fn push_disk(
    alloc: Global,
    into: &mut String,
    gate: &Gate,
    disk: &MemDisk,
) -> Result<(), RowFault> {
    let bytes = disk.bytes().len();
    write!(into, "disk {bytes} bytes\n")?;
    let disk = MemDisk::new(alloc, disk.bytes(), Failures::none(alloc))?;
    match open_for(alloc, gate, disk, MARK) {
        Ok(journal) => Ok(push_accounts(into, gate, &journal)?),
        Err(_) => Err(RowFault::Wrong("the journal isn't opened again")),
    }
}

// Serves the connections over a journal, and gives its disk back.
fn serve_each<R: Wait>(
    gate: &Gate,
    alloc: Global,
    rt: &R,
    mut journal: Journal<MemDisk>,
    plans: &[Planned<'_>],
    each: u64,
    run: &mut Run,
) -> Result<MemDisk, RowFault>
    requires kept { IsKeptFor ⟦<MemDisk as Disk>⟧.reads journal gate.now }
    requires idle { journal.opened ≡ 0 }
{
    'plans: for plan in plans {
        let mut conn = conn_of(alloc, sent_of(plan, each), plan, each)?;
        let (back, served) = serve_kept(gate, alloc, rt, journal, &mut conn);
        let end = served.end.number();
        let replies = served.replies;
        write!(run.text, "end {end} replies {replies}\n")?;
        push_conn(&mut run.text, &conn)?;
        run.has_failed = run.has_failed || has_failed(&conn);
        match back {
            Ok(kept) => journal = kept,
            Err(disk) => return Ok(disk),
        }
    }
    Ok(journal.close())
}

// The number of the call on the disk that fails, which the first connection says.
fn disk_fails(plans: &[Planned<'_>], each: u64) -> u64 {
    match plans.first() {
        Some(plan) => plan.number_of(Change::Disk, each),
        None => 0,
    }
}

// Opens a journal on a disk, serves the connections over it, and gives the disk back.
fn serve_on<R: Wait>(
    gate: &Gate,
    alloc: Global,
    rt: &R,
    disk: MemDisk,
    plans: &[Planned<'_>],
    each: u64,
    run: &mut Run,
) -> Result<MemDisk, RowFault> {
    match open_for(alloc, gate, disk, MARK) {
        Ok(journal) => serve_each(gate, alloc, rt, journal, plans, each, run),
        Err((disk, _)) => {
            run.text.push_str("not opened\n")?;
            Ok(disk)
        }
    }
}

// Serves the connections over a disk, and writes what it holds then.
fn serve_and_tell<R: Wait>(
    gate: &Gate,
    alloc: Global,
    rt: &R,
    disk: MemDisk,
    plans: &[Planned<'_>],
    each: u64,
    run: &mut Run,
) -> Result<(), RowFault> {
    let disk = serve_on(gate, alloc, rt, disk, plans, each, run)?;
    run.has_failed = run.has_failed || disk.faults() > 0;
    push_disk(alloc, &mut run.text, gate, &disk)
}

// Lets go of a gate whose own accounts were not asked.
fn let_go(gate: Gate, passes: Passes) {}

/// Serves the connections of a row once, over a journal on a new disk, where each stands for this number.
pub(crate) fn run_kept<R: Wait>(
    alloc: Global,
    rt: &R,
    rules: Rules<'_>,
    plans: &[Planned<'_>],
    each: u64,
) -> Result<Run, RowFault> {
    let failures = failing(alloc, disk_fails(plans, each))?;
    let disk = MemDisk::new(alloc, b"", failures)?;
    let (gate, passes) = gate_of(alloc, rules)?;
    let mut run = Run {
        text: String::new(alloc),
        has_failed: false,
    };
    let came = serve_and_tell(&gate, alloc, rt, disk, plans, each, &mut run);
    let_go(gate, passes);
    came?;
    Ok(run)
}
