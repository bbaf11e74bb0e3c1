//! Requests that are left open at the end.

ghost use Rattle.std.specs.Prelude.{◌≡◌, ◌≤◌, ◌<◌, ◌^◌, ◌∷◌, [], map, length, true};
ghost use Rattle.cost_num.specs.Within.{Within};
ghost use Rattle.account_shared.specs.Views.{Belongs};
ghost use Rattle.account_shared.specs.Gains.{Gains};
ghost use Rattle.gateway_core.specs.Rules.{greatest};
ghost use Rattle.gateway_core.specs.Grants.{IsOpenGrant};
ghost use Rattle.gateway_core.specs.Finishes.{settling};
ghost use Rattle.gateway_replay.specs.Turns.{abandoning};
ghost use Rattle.gateway_replay.specs.Lines.{line_for, line_of_abandoned};
ghost use Rattle.gateway_replay.specs.Stretches.{request_of, requests_of, JustOpen, HasCosts, HasRoom, AddsLine, AddsLines};

use crate::opened::Open;
use crate::replayed::Replayed;
use crate::told::Told;
use crate::writing::tell;
use account_shared::Passes;
use account_shared::laws::{gains_none, gains_then};
use cost_num::Cost;
use gateway_core::{Gate, Grant, Outcome, finish};
use std::alloc::Global;
use std::sync::Wait;

/// Settles a grant at its bound. What that is.
fn settle_at_bound<R: Wait>(
    gate: &Gate,
    alloc: Global,
    rt: &R,
    passes: &mut Passes,
    grant: Grant<'_>,
) -> Cost
    requires belong { Belongs passes.old gate.now.accounts }
    requires made { passes.old.made < 2 ^ 63 }
    requires open { IsOpenGrant passes.old grant }
    ensures belong { Belongs passes.new gate.now.accounts }
    ensures call { Gains passes.old passes.new (settling grant.entry.ticket grant.entry.ticket.bound ∷ []) }
    ensures bound { result ≡ grant.entry.ticket.bound }
    ensures within { Within greatest result }
{
    let finished = finish(gate, alloc, rt, passes, grant, Outcome::NoMemory);
    finished.bound
}

/// Tells this of the request of an id. Whether there was memory for its line.
fn tells(alloc: Global, id: &str, told: Told, report: &mut Replayed) -> bool
    requires costs { HasCosts told }
    requires room { HasRoom report.old }
    ensures { result ≡ true → AddsLine (line_for id.now told) report.old report.new }
{
    tell(alloc, id, &told, report).is_ok()
}

/// Settles an open request at its bound, and tells so, unless a line before found no memory. Whether no line did.
fn abandon<R: Wait>(
    gate: &Gate,
    alloc: Global,
    rt: &R,
    passes: &mut Passes,
    left: Open<'_, '_>,
    report: &mut Replayed,
    told: bool,
) -> bool
    requires belong { Belongs passes.old gate.now.accounts }
    requires made { passes.old.made < 2 ^ 63 }
    requires open { IsOpenGrant passes.old left.grant }
    requires room { told ≡ true → HasRoom report.old }
    ensures belong { Belongs passes.new gate.now.accounts }
    ensures call { Gains passes.old passes.new (abandoning (request_of left.entry) ∷ []) }
    ensures told { result ≡ true → told ≡ true }
    ensures line { result ≡ true → AddsLine (line_of_abandoned (request_of left.entry)) report.old report.new }
    ensures room { result ≡ true → HasRoom report.new }
{
    let Open { id, grant } = left;
    let bound = settle_at_bound(gate, alloc, rt, passes, grant);
    if !told {
        return false;
    }
    tells(alloc, id, Told::Abandoned { bound }, report)
}

/// Settles what is left open at its bound, in the order in which it began, with a line for each. Whether all lines found memory.
pub(crate) fn abandon_all<R: Wait>(
    gate: &Gate,
    alloc: Global,
    rt: &R,
    passes: &mut Passes,
    opens: Vec<Open<'_, '_>>,
    report: &mut Replayed,
    told: bool,
) -> bool
    requires belong { Belongs passes.old gate.now.accounts }
    requires made { passes.old.made < 2 ^ 62 }
    requires few { length opens.items ≤ 10000 }
    requires just { JustOpen passes.old (requests_of opens.items) }
    requires room { told ≡ true → HasRoom report.old }
    ensures belong { Belongs passes.new gate.now.accounts }
    ensures just { JustOpen passes.new [] }
    ensures calls { Gains passes.old passes.new (map abandoning (requests_of opens.entry.items)) }
    ensures told { result ≡ true → told ≡ true }
    ensures lines { result ≡ true → AddsLines (map line_of_abandoned (requests_of opens.entry.items)) report.old report.new }
{
    gains_none();
    gains_then();
    let mut told = told;
    let mut rest = opens.into_iter();
    while let Some(open) = rest.next() {
        told = abandon(gate, alloc, rt, passes, open, report, told);
    }
    rest.destroy_empty();
    told
}
