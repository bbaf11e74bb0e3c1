//! Rounds of reservations and settlements, each said once it is acknowledged.

ghost use Rattle.std.specs.Prelude.{◌≡◌, OnOk};
ghost use Rattle.account_journal.specs.Journals.{IsSound, Rests};

use account_core::Account;
use account_journal::{Journal, JournalFault, KeptReply, KeptTicket};
use cost_num::Cost;
use journal_disk::Disk;
use std::alloc::Global;
use std::io::{self, ErrorKind, Write};

/// How many rounds are made in a window.
const ROUNDS_IN_A_WINDOW: u64 = 64;

/// Of so many tickets one is dropped.
const DROPS_ONE_OF: u64 = 7;

fn failed() -> io::Error {
    io::Error::new(ErrorKind::Other, "the journal failed")
}

/// Says the account of each client.
pub(crate) fn say_accounts<D: Disk, W: Write>(
    alloc: Global,
    to: &mut W,
    journal: &Journal<D>,
) -> io::Result<()>
    requires sound { IsSound journal.now }
{
    for client in 0..u32::MAX {
        if client as usize >= journal.clients() {
            break;
        }
        let Account {
            window,
            settled,
            held,
            carried,
        } = journal.account(client);
        let (a, b) = (settled.types, settled.fields);
        let (c, d) = (held.types, held.fields);
        let (e, f) = (carried.types, carried.fields);
        let text = format!(in alloc; "account {client} {window} {a} {b} {c} {d} {e} {f}\n")?;
        to.write_all(text.as_bytes())?;
    }
    Ok(())
}

// Settles a ticket at half its bound, and says so.
fn settle<D: Disk, W: Write>(
    alloc: Global,
    to: &mut W,
    journal: &mut Journal<D>,
    ticket: KeptTicket,
) -> io::Result<()>
    requires sound { IsSound journal.old }
    requires rest { Rests D.reads journal.old }
    ensures sound { IsSound journal.new }
    ensures rest { OnOk result (Rests D.reads journal.new) }
{
    let measured = Cost {
        types: ticket.bound.types / 2,
        fields: ticket.bound.fields / 2,
    };
    if !journal.may_settle(&ticket, measured) {
        return Ok(());
    }
    let slot = ticket.slot;
    match journal.settle_mut(ticket, measured) {
        Err(JournalFault::Failed) => Err(failed()),
        Ok(()) => {
            let Cost { types, fields } = measured;
            let text = format!(in alloc; "settled {slot} {types} {fields}\n")?;
            to.write_all(text.as_bytes())
        }
    }
}

// Makes a round.
fn make_round<D: Disk, W: Write>(
    alloc: Global,
    to: &mut W,
    journal: &mut Journal<D>,
    client: u32,
    window: u64,
    round: u64,
) -> io::Result<()>
    requires sound { IsSound journal.old }
    requires rest { Rests D.reads journal.old }
    ensures sound { IsSound journal.new }
    ensures rest { OnOk result (Rests D.reads journal.new) }
{
    if client as usize >= journal.clients() {
        return Ok(());
    }
    let bound = Cost {
        types: 2_000_000 + round % 1_000,
        fields: 1_000_000 + round % 10,
    };
    match journal.reserve_mut(client, window, bound) {
        Err(JournalFault::Failed) => Err(failed()),
        Ok(KeptReply::Full) => to.write_all(b"full\n"),
        Ok(KeptReply::Short { left: _ }) => to.write_all(b"short\n"),
        Ok(KeptReply::Granted(ticket)) => {
            let (slot, window) = (ticket.slot, ticket.window);
            let Cost { types, fields } = bound;
            let text = format!(in alloc; "granted {slot} {client} {window} {types} {fields}\n")?;
            to.write_all(text.as_bytes())?;
            if round % DROPS_ONE_OF == DROPS_ONE_OF - 1 {
                return Ok(());
            }
            settle(alloc, to, journal, ticket)
        }
    }
}

/// Makes rounds, in turn for each of two clients, in windows that follow each other.
pub(crate) fn load<D: Disk, W: Write>(
    alloc: Global,
    to: &mut W,
    journal: &mut Journal<D>,
    rounds: u64,
) -> io::Result<()>
    requires sound { IsSound journal.old }
    requires rest { Rests D.reads journal.old }
    ensures sound { IsSound journal.new }
{
    for round in 0..rounds {
        let client = (round % 2) as u32;
        make_round(
            alloc,
            to,
            journal,
            client,
            round / ROUNDS_IN_A_WINDOW,
            round,
        )?;
    }
    Ok(())
}
