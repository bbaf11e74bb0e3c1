//! The closing lines: what the accounts of clients came to, and what was done.

ghost use Rattle.std.specs.Prelude.{◌≡◌, ◌≤◌, ◌++◌, All, OnOk, IfOk, length, string_bytes};
ghost use Rattle.client_files.specs.declared.client.TheConstants.{CLIENT_LIMIT};
ghost use Rattle.gateway_serving.specs.PassedOn.{IsSettledWithin, IsCarriedWithin};
ghost use Rattle.gateway_run.specs.Serve.{done_text, closing_text, kept_closing_text};

use account_commands::{write_accounts, write_clients};
use client_files::Client;
use gateway_serving::ServeEnd;
use journal_serving::KeptEnd;
use std::alloc::{AllocError, Global};

// Adds how many connections were served, and how many replies were written whole.
fn write_done(connections: u64, exchanges: u64, into: &mut String) -> Result<(), AllocError>
    ensures { OnOk result (string_bytes into.new ≡ string_bytes into.old ++ done_text connections exchanges) }
{
    write!(into, "connections {connections} exchanges {exchanges}")
}

/// The closing lines of accounts in shared cells, without the last line end.
pub(crate) fn closing_lines(alloc: Global, end: &ServeEnd) -> Result<Vec<u8>, AllocError>
    requires few { length end.now.totals.clients.items.items ≤ CLIENT_LIMIT }
    ensures { IfOk result (λ lines. lines.items ≡ closing_text end.now) }
{
    let mut lines = String::new(alloc);
    write_clients(alloc, &end.totals, &mut lines)?;
    write_done(end.done.connections, end.done.exchanges, &mut lines)?;
    Ok(lines.into_bytes())
}

/// The closing lines of accounts in a journal, without the last line end.
pub(crate) fn kept_closing_lines(
    alloc: Global,
    clients: &[Client],
    end: &KeptEnd,
) -> Result<Vec<u8>, AllocError>
    requires settled { All IsSettledWithin end.now.accounts.items }
    requires carried { All IsCarriedWithin end.now.accounts.items }
    ensures { IfOk result (λ lines. lines.items ≡ kept_closing_text clients.now end.now) }
{
    let mut lines = String::new(alloc);
    write_accounts(alloc, clients, &end.accounts, &mut lines)?;
    write_done(end.done.connections, end.done.exchanges, &mut lines)?;
    Ok(lines.into_bytes())
}
