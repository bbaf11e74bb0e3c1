//! Taking a step.

ghost use Rattle.std.specs.Prelude.{◌≡◌, ◌<◌, ◌^◌};
ghost use Rattle.account_shared.specs.Views.{Belongs};
ghost use Rattle.replay_scripts.specs.Steps.{step_data, returned_data, begins, ends};
ghost use Rattle.gateway_core.specs.Gates.{rules_of};
ghost use Rattle.gateway_replay.specs.Stretches.{requests_of, IsTaken, IsOutcome, HasCosts, JustOpen};

use crate::opened::{Open, place_of};
use crate::told::Told;
use account_shared::Passes;
use account_shared::laws::gains_none;
use gateway_core::{Begun, Denial, Gate, Outcome, begin, finish};
use replay_scripts::{Returned, Step};
use std::alloc::Global;
use std::sync::Wait;
use upstream_link::{LinkFault, UpstreamReply};

/// Begins a request. Room for its grant is taken before, so that a grant is always kept.
fn begin_step<'g, 's, R: Wait>(
    gate: &'g Gate,
    alloc: Global,
    rt: &R,
    passes: &mut Passes,
    opens: &mut Vec<Open<'g, 's>>,
    id: &'s str,
    key: &str,
    moment: u64,
    body: &str,
) -> Told
    requires belong { Belongs passes.old gate.now.accounts }
    requires made { passes.old.made < 2 ^ 62 }
    ensures belong { Belongs passes.new gate.now.accounts }
    ensures costs { HasCosts result }
    ensures taken { IsTaken (rules_of gate.now) passes.old (requests_of opens.old.items) (begins id.now key.now moment body.now) result passes.new (requests_of opens.new.items) }
{
    gains_none();
    if opens.reserve(1).is_err() {
        return Told::Denied(Denial::Memory);
    }
    match begin(gate, alloc, rt, passes, key, body.as_bytes(), moment) {
        Begun::Granted(grant) => {
            let bound = grant.bound();
            opens.push_reserved(Open { id, grant });
            Told::Granted { bound }
        }
        Begun::Answered(answer) => Told::Answered(answer.finished),
        Begun::Denied(denial) => Told::Denied(denial),
    }
}

/// What is handed on of what the upstream made of a request.
fn outcome_of(alloc: Global, returned: Returned<'_>) -> Outcome
    ensures { IsOutcome (returned_data returned.entry) result }
{
    match returned {
        Returned::Reply(body) => match Vec::from_slice(alloc, body.as_bytes()) {
            Ok(body) => Outcome::Reply(UpstreamReply { status: 200, body }),
            Err(_) => Outcome::NoMemory,
        },
        Returned::Down => Outcome::Fault(LinkFault::Down),
        Returned::Failed => Outcome::Fault(LinkFault::Failed),
    }
}

/// Finishes the request of an id, where one is open.
fn end_step<'g, 's, R: Wait>(
    gate: &'g Gate,
    alloc: Global,
    rt: &R,
    passes: &mut Passes,
    opens: &mut Vec<Open<'g, 's>>,
    id: &str,
    returned: Returned<'_>,
) -> Told
    requires belong { Belongs passes.old gate.now.accounts }
    requires made { passes.old.made < 2 ^ 63 }
    requires just { JustOpen passes.old (requests_of opens.old.items) }
    ensures belong { Belongs passes.new gate.now.accounts }
    ensures costs { HasCosts result }
    ensures taken { IsTaken (rules_of gate.now) passes.old (requests_of opens.old.items) (ends id.now (returned_data returned.entry)) result passes.new (requests_of opens.new.items) }
{
    gains_none();
    let Some(place) = place_of(opens, id) else {
        return Told::NotOpen;
    };
    let outcome = outcome_of(alloc, returned);
    let Open { id: _, grant } = opens.remove(place);
    Told::Finished(finish(gate, alloc, rt, passes, grant, outcome))
}

/// Takes a step. What is told of what came of it.
pub(crate) fn take<'g, 's, R: Wait>(
    gate: &'g Gate,
    alloc: Global,
    rt: &R,
    passes: &mut Passes,
    opens: &mut Vec<Open<'g, 's>>,
    step: Step<'s>,
) -> Told
    requires belong { Belongs passes.old gate.now.accounts }
    requires made { passes.old.made < 2 ^ 62 }
    requires just { JustOpen passes.old (requests_of opens.old.items) }
    ensures belong { Belongs passes.new gate.now.accounts }
    ensures costs { HasCosts result }
    ensures taken { IsTaken (rules_of gate.now) passes.old (requests_of opens.old.items) (step_data step.entry) result passes.new (requests_of opens.new.items) }
{
    match step {
        Step::Begin {
            id,
            key,
            moment,
            body,
        } => begin_step(gate, alloc, rt, passes, opens, id, key, moment, body),
        Step::End { id, returned } => end_step(gate, alloc, rt, passes, opens, id, returned),
    }
}
