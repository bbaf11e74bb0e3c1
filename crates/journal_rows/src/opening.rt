//! Opening a journal, and what it comes to.

ghost use Rattle.std.specs.Prelude.{IfOk};
ghost use Rattle.account_journal.specs.Journals.{IsSound, Rests};

use crate::clients::limits;
use account_core::Account;
use account_journal::{Journal, OpenFault};
use cost_num::Cost;
use journal_disk::{Disk, MemDisk};
use outside::Failures;
use std::alloc::{AllocError, Global};

/// The byte that fills the mark of all rows, and another.
pub(crate) const MARK: u8 = 7;

pub(crate) const OTHER_MARK: u8 = 8;

/// Opens the journal on a disk, for the clients of all rows.
pub(crate) fn open(
    alloc: Global,
    disk: MemDisk,
    mark: u8,
) -> Result<Journal<MemDisk>, (MemDisk, OpenFault)>
    ensures sound { IfOk result (λ journal. IsSound journal) }
    ensures rest { IfOk result (λ journal. Rests ⟦<MemDisk as Disk>⟧.reads journal) }
{
    match limits(alloc) {
        Ok(limits) => Journal::open(alloc, disk, [mark; 32], limits),
        Err(_) => Err((disk, OpenFault::Memory)),
    }
}

/// Writes an account: its window, and what is settled, held and carried, in millionths.
pub(crate) fn write_account(into: &mut String, account: Account) -> Result<(), AllocError> {
    let Account {
        window,
        settled,
        held,
        carried,
    } = account;
    let (a, b) = (settled.types, settled.fields);
    let (c, d) = (held.types, held.fields);
    let (e, f) = (carried.types, carried.fields);
    write!(
        into,
        " window {window} settled {a} {b} held {c} {d} carried {e} {f}"
    )
}

/// Writes a fault.
pub(crate) fn write_fault(into: &mut String, fault: OpenFault) -> Result<(), AllocError> {
    match fault {
        OpenFault::Failed => into.push_str("Failed"),
        OpenFault::OtherClients => into.push_str("OtherClients"),
        OpenFault::Damaged { slot } => write!(into, "Damaged {slot}"),
        OpenFault::Memory => into.push_str("Memory"),
    }
}

// Writes the account of each client.
fn write_accounts(into: &mut String, journal: &Journal<MemDisk>) -> Result<(), AllocError>
    requires sound { IsSound journal.now }
{
    for client in 0..u32::MAX {
        if client as usize >= journal.clients() {
            break;
        }
        if client > 0 {
            into.push_str("; ")?;
        }
        write!(into, "{client}:")?;
        write_account(into, journal.account(client))?;
    }
    Ok(())
}

/// Writes the length of a journal's file and the account of each client.
pub(crate) fn write_journal(into: &mut String, journal: &Journal<MemDisk>) -> Result<(), AllocError>
    requires sound { IsSound journal.now }
{
    let bytes = journal.disk().bytes().len();
    write!(into, "{bytes} bytes; ")?;
    write_accounts(into, journal)
}

/// What the opening of a journal on a file comes to.
pub(crate) fn outcome_of(alloc: Global, file: &[u8], mark: u8) -> Result<String, AllocError> {
    let disk = MemDisk::new(alloc, file, Failures::none(alloc))?;
    let mut text = String::new(alloc);
    match open(alloc, disk, mark) {
        Ok(journal) => write_journal(&mut text, &journal)?,
        Err((_disk, fault)) => write_fault(&mut text, fault)?,
    }
    Ok(text)
}

/// The same without the length of the file.
pub(crate) fn accounts_of(alloc: Global, file: &[u8]) -> Result<String, AllocError> {
    let disk = MemDisk::new(alloc, file, Failures::none(alloc))?;
    let mut text = String::new(alloc);
    match open(alloc, disk, MARK) {
        Ok(journal) => write_accounts(&mut text, &journal)?,
        Err((_disk, fault)) => write_fault(&mut text, fault)?,
    }
    Ok(text)
}

fn is_within(cost: Cost, allowance: Cost) -> bool {
    cost.types <= allowance.types && cost.fields <= allowance.fields
}

// Whether an account without anything open keeps to the allowance of its client.
fn keeps(account: Account, allowance: Cost) -> bool {
    let most = Cost {
        types: allowance.types.saturating_add(account.carried.types),
        fields: allowance.fields.saturating_add(account.carried.fields),
    };
    is_within(account.settled, most)
        && is_within(
            account.held,
            Cost {
                types: 0,
                fields: 0,
            },
        )
        && is_within(account.carried, allowance)
}

// Whether each account keeps to the allowance of its client.
fn all_keep(alloc: Global, journal: &Journal<MemDisk>) -> Result<bool, AllocError>
    requires sound { IsSound journal.now }
{
    let limits = limits(alloc)?;
    for client in 0..u32::MAX {
        if client as usize >= journal.clients() {
            break;
        }
        if let Some(limit) = limits.get(client as usize) {
            if !keeps(journal.account(client), limit.allowance) {
                return Ok(false);
            }
        }
    }
    Ok(true)
}

/// The same in short: whether the accounts of a journal that opens keep to their allowances.
pub(crate) fn short_outcome_of(alloc: Global, file: &[u8]) -> Result<String, AllocError> {
    let disk = MemDisk::new(alloc, file, Failures::none(alloc))?;
    let mut text = String::new(alloc);
    match open(alloc, disk, MARK) {
        Ok(journal) => {
            text.push_str(if all_keep(alloc, &journal)? {
                "opens"
            } else {
                "opens past an allowance"
            })?;
        }
        Err((_disk, fault)) => write_fault(&mut text, fault)?,
    }
    Ok(text)
}
