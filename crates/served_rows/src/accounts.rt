//! What clients' accounts came to.

ghost use Rattle.std.specs.Prelude.{◌≡◌, []};
ghost use Rattle.cost_num.specs.Within.{Within};
ghost use Rattle.account_shared.specs.Views.{Belongs, IsIdle};
ghost use Rattle.gateway_core.specs.Rules.{greatest};

use crate::fault::RowFault;
use account_core::Account;
use account_shared::Passes;
use client_files::CLIENT_LIMIT;
use gateway_core::{Gate, Totals, close, printed_cost};
use std::alloc::{AllocError, Global};
use std::sync::Wait;

// Writes the line of a client. What is held is in millionths.
fn push_account(
    alloc: Global,
    into: &mut String,
    key: &str,
    account: Account,
) -> Result<(), AllocError>
    requires { Within greatest account.settled }
{
    let window = account.window;
    let settled = printed_cost(alloc, account.settled)?;
    let settled = settled.as_str();
    let types = account.held.types;
    let fields = account.held.fields;
    write!(
        into,
        "{key} window {window} settled {settled} held {types} {fields}\n"
    )
}

// Writes the lines of all clients.
fn push_totals(alloc: Global, into: &mut String, totals: &Totals) -> Result<(), AllocError> {
    let clients = totals.clients();
    'clients: for at in 0..clients.len().min(CLIENT_LIMIT) {
        push_account(
            alloc,
            into,
            clients[at].key.as_str(),
            totals.account(at as u32),
        )?;
    }
    Ok(())
}

/// Closes the accounts, and writes the line of each client.
pub(crate) fn push_closed<R: Wait>(
    alloc: Global,
    rt: &R,
    into: &mut String,
    gate: Gate,
    passes: Passes,
) -> Result<(), AllocError>
    requires belong { Belongs passes gate.accounts }
    requires idle { IsIdle passes }
    requires first { (passes.label.name ≡ 0) × (passes.label.out ≡ []) }
{
    let totals = close(gate, rt, passes);
    push_totals(alloc, into, &totals)
}

/// Lets go of a gate at which nothing was served.
pub(crate) fn unserved(gate: Gate, passes: Passes, fault: RowFault) -> Result<String, RowFault> {
    Err(fault)
}
