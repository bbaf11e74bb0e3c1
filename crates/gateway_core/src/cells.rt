//! The accounts as shared cells, each worker of which has passes to them. They are never lost, and never full.

ghost use Rattle.std.specs.Prelude.{◌≡◌, ◌⊎◌, ◌<◌, ◌^◌, ◌∷◌, []};
ghost use Rattle.cost_num.specs.Within.{Within};
ghost use Rattle.account_shared.specs.Views.{Belongs};
ghost use Rattle.account_shared.specs.Gains.{Gains};
ghost use Rattle.gateway_core.specs.Rules.{greatest};
ghost use Rattle.gateway_core.specs.Gates.{rules_of};
ghost use Rattle.gateway_core.specs.Grants.{IsOpenGrant};
ghost use Rattle.gateway_core.specs.Begins.{Begins, OpensIfBegun, IfDenied, HasCostsWithin, IfAnswered, IsGiven, TellsFull};
ghost use Rattle.gateway_core.specs.Finishes.{IsFinished, settling};

use crate::beginning::{Begun, begin_in};
use crate::finishing::{Finished, Outcome, finish_in};
use crate::gate::Gate;
use crate::grant::Grant;
use crate::ledger::{Ledger, Reserved};
use account_core::{Reply, Ticket};
use account_shared::Passes;
use cost_num::Cost;
use std::alloc::Global;
use std::convert::Infallible;
use std::sync::Wait;

impl Ledger for Passes {
    ghost use Rattle.std.specs.Prelude.{None};
    ghost use Rattle.account_shared.specs.Views.{Belongs, IsOpen, IsIdle};
    ghost use Rattle.account_shared.specs.Gains.{Gains};
    ghost use Rattle.gateway_core.specs.Cells.{none_gained, gained_then, settled_idle};

    type Lost = Infallible;

    ghost made = { λ p. p.made };

    ghost slots = { None };

    ghost gains = { λ p q calls. Gains p q calls };

    ghost belongs = { λ p gate. Belongs p gate.accounts };

    ghost opens = { λ p ticket. IsOpen p ticket.client ticket.seq ticket.window ticket.bound };

    ghost idle = { λ p. IsIdle p };

    ghost full = { λ p. ⊥ };

    ghost faults = { λ p. 0 };

    ghost loses = { λ p q client call. ⊥ };

    fn reserve<R: Wait>(
        &mut self,
        gate: &Gate,
        rt: &R,
        client: u32,
        window: u64,
        bound: Cost,
    ) -> Result<Reserved, Infallible> {
        match gate.accounts.reserve(rt, self, client, window, bound) {
            Reply::Granted(ticket) => Ok(Reserved::Granted(ticket)),
            Reply::Short { left } => Ok(Reserved::Short { left }),
        }
    }

    fn settle<R: Wait>(
        &mut self,
        gate: &Gate,
        rt: &R,
        ticket: Ticket,
        measured: Cost,
    ) -> Result<(), Infallible> {
        gate.accounts.settle(rt, self, ticket, measured);
        Ok(())
    }

    ghost gains_none = { λ p. none_gained p };

    ghost gains_then = { λ p q r these those one two. gained_then p q r these those one two };

    ghost counts = { λ p q calls gains. gains.made };

    ghost stays_idle = { λ p q calls gains settled idle. settled_idle p q calls gains settled idle };

    ghost fills = { λ p idle never. never };

    ghost has_room = { λ p idle never. never };
}

/// As `begin_in`, through passes to the gate's own cells.
pub fn begin<'g, R: Wait>(
    gate: &'g Gate,
    alloc: Global,
    rt: &R,
    passes: &mut Passes,
    key: &str,
    body: &[u8],
    moment: u64,
) -> Begun<'g>
    requires belong { Belongs passes.old gate.now.accounts }
    requires made { passes.old.made < 2 ^ 62 }
    ensures belong { Belongs passes.new gate.now.accounts }
    ensures open { OpensIfBegun (IsOpenGrant passes.new) result }
    ensures begun { Begins (rules_of gate.now) passes.old.made (Gains passes.old passes.new) key.now body.now moment result }
    ensures within { IfDenied result HasCostsWithin }
    ensures given { IfAnswered result IsGiven }
    ensures never_full { TellsFull ⊥ result }
{
    match begin_in(gate, alloc, rt, passes, key, body, moment) {
        Ok(begun) => begun,
    }
}

/// As `finish_in`, through passes to the gate's own cells. It always settles.
pub fn finish<R: Wait>(
    gate: &Gate,
    alloc: Global,
    rt: &R,
    passes: &mut Passes,
    grant: Grant,
    outcome: Outcome,
) -> Finished
    requires belong { Belongs passes.old gate.now.accounts }
    requires open { IsOpenGrant passes.old grant }
    requires made { passes.old.made < 2 ^ 63 }
    ensures belong { Belongs passes.new gate.now.accounts }
    ensures finished { IsFinished grant.entry outcome result }
    ensures bound { result.bound ≡ grant.entry.ticket.bound }
    ensures settled { Gains passes.old passes.new (settling grant.entry.ticket result.charged ∷ []) }
    ensures within { Within result.bound result.charged }
    ensures capped { Within greatest result.bound }
{
    match finish_in(gate, alloc, rt, passes, grant, outcome) {
        Ok(finished) => finished,
    }
}
