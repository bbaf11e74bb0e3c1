//! Connections that are served one after the other, through the same passes.

ghost use Rattle.std.specs.Prelude.{◌≡◌, ◌≤◌, IfOk, OnOk};
ghost use Rattle.account_shared.specs.Views.{Belongs, IsIdle, first_label};

use crate::accounts::push_closed;
use crate::case::{Case, Planned};
use crate::fault::RowFault;
use crate::gates::{Rules, gate_of};
use crate::memory::{MemConn, conn_of, has_failed, push_conn, sent_of};
use account_shared::Passes;
use gateway_connections::{Served, serve_connection};
use gateway_core::Gate;
use std::alloc::Global;
use std::sync::Wait;

/// What serving the connections of a row once came to.
#[derive(Drop)]
pub(crate) struct Run {
    pub(crate) text: String,
    /// Whether a call failed.
    pub(crate) has_failed: bool,
}

/// How many calls at the accounts a row makes at most, before its last connection.
const CALLS: u64 = 1_000_000;

fn serve<R: Wait>(
    gate: &Gate,
    alloc: Global,
    rt: &R,
    passes: &mut Passes,
    conn: &mut MemConn,
) -> Result<Served, RowFault>
    requires belong { Belongs passes.old gate.now.accounts }
    requires idle { IsIdle passes.old }
    ensures belong { Belongs passes.new gate.now.accounts }
    ensures idle { IsIdle passes.new }
    ensures label { passes.new.label ≡ passes.old.label }
{
    if passes.made() > CALLS {
        return Err(RowFault::Wrong("too many requests"));
    }
    Ok(serve_connection(gate, alloc, rt, passes, conn))
}

fn serve_each<R: Wait>(
    gate: &Gate,
    alloc: Global,
    rt: &R,
    passes: &mut Passes,
    plans: &[Planned<'_>],
    each: u64,
    run: &mut Run,
) -> Result<(), RowFault>
    requires belong { Belongs passes.old gate.now.accounts }
    requires idle { IsIdle passes.old }
    ensures belong { Belongs passes.new gate.now.accounts }
    ensures idle { IsIdle passes.new }
    ensures label { passes.new.label ≡ passes.old.label }
{
    'plans: for plan in plans {
        let mut conn = conn_of(alloc, sent_of(plan, each), plan, each)?;
        let served = serve(gate, alloc, rt, passes, &mut conn)?;
        let end = served.end.number();
        let replies = served.replies;
        let text = &mut run.text;
        write!(text, "end {end} replies {replies}\n")?;
        push_conn(text, &conn)?;
        run.has_failed = run.has_failed || has_failed(&conn);
    }
    Ok(())
}

/// Serves the connections of a row once, where each stands for this number.
pub(crate) fn run_once<R: Wait>(
    alloc: Global,
    rt: &R,
    rules: Rules<'_>,
    plans: &[Planned<'_>],
    each: u64,
) -> Result<Run, RowFault> {
    let (gate, mut passes) = gate_of(alloc, rules)?;
    let mut run = Run {
        text: String::new(alloc),
        has_failed: false,
    };
    let came = serve_each(&gate, alloc, rt, &mut passes, plans, each, &mut run);
    push_closed(alloc, rt, &mut run.text, gate, passes)?;
    came?;
    Ok(run)
}
