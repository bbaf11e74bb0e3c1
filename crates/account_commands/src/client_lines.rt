//! The lines of clients: what their accounts came to.

ghost use Rattle.std.specs.Prelude.{◌≡◌, ◌≤◌, ◌++◌, All, OnOk, IfOk, length, string_bytes};
ghost use Rattle.cost_num.specs.Within.{Within};
ghost use Rattle.client_files.specs.declared.client.TheConstants.{CLIENT_LIMIT};
ghost use Rattle.gateway_replay.specs.PassedOn.{greatest, IsSettledWithin, IsCarriedWithin};
ghost use Rattle.command_outcomes.specs.Texts.{line};
ghost use Rattle.account_commands.specs.Replay.{carried_text, client_text, client_lines, end_text, IsPrintable};

use crate::migrating::unended;
use crate::replay_end::ReplayEnd;
use account_core::Account;
use client_files::Client;
use cost_num::Cost;
use gateway_replay::{Replayed, Totals, write_cost};
use gql_base::Text;
use std::alloc::{AllocError, Global};

// Writes what is carried, of a client that carries.
fn write_carried(
    alloc: Global,
    carry: bool,
    carried: Cost,
    into: &mut String,
) -> Result<(), AllocError>
    requires { Within greatest carried }
    ensures { OnOk result (string_bytes into.new ≡ string_bytes into.old ++ carried_text carry carried) }
{
    if carry {
        write_cost(alloc, " carried ", carried, into)?;
    }
    Ok(())
}

// Writes the line of a client.
fn write_client(
    alloc: Global,
    client: &Client,
    account: Account,
    into: &mut String,
) -> Result<(), AllocError>
    requires settled { Within greatest account.settled }
    requires carried { Within greatest account.carried }
    ensures { OnOk result (string_bytes into.new ≡ string_bytes into.old ++ line (client_text client.now account)) }
{
    let window = account.window;
    into.push_str(client.key.as_str())?;
    write!(into, " window {window}")?;
    write_cost(alloc, " settled ", account.settled, into)?;
    write_carried(alloc, client.carry, account.carried, into)?;
    into.push('\n')
}

/// Writes the lines of clients whose accounts these are, in their order.
pub fn write_accounts(
    alloc: Global,
    clients: &[Client],
    accounts: &[Account],
    into: &mut String,
) -> Result<(), AllocError>
    requires settled { All IsSettledWithin accounts.now }
    requires carried { All IsCarriedWithin accounts.now }
    ensures { OnOk result (string_bytes into.new ≡ string_bytes into.old ++ client_lines clients.now accounts.now) }
{
    'clients: for at in 0..clients.len().min(accounts.len()) {
        write_client(alloc, &clients[at], accounts[at], into)?;
    }
    Ok(())
}

/// Writes the lines of all clients.
pub fn write_clients(alloc: Global, totals: &Totals, into: &mut String) -> Result<(), AllocError>
    requires few { length totals.now.clients.items.items ≤ CLIENT_LIMIT }
    ensures { OnOk result (string_bytes into.new ≡ string_bytes into.old ++ client_lines totals.now.clients.items.items totals.now.accounts) }
{
    let clients = totals.clients();
    'clients: for at in 0..clients.len() {
        write_client(alloc, &clients[at], totals.account(at as u32), into)?;
    }
    Ok(())
}

/// The lines of a replay and of its clients, without the last line end.
pub fn lines_of_end(alloc: Global, end: ReplayEnd) -> Result<Vec<u8>, AllocError>
    requires { IsPrintable end }
    ensures { IfOk result (λ output. line output.items ≡ end_text end) }
{
    let ReplayEnd { report, totals } = end;
    let Replayed { mut lines, .. } = report;
    write_clients(alloc, &totals, &mut lines)?;
    Ok(unended(Text::from(lines)))
}
