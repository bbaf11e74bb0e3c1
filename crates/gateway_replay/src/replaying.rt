//! Replaying a script.

ghost use Rattle.std.specs.Prelude.{◌≡◌, ◌+◌, ◌≤◌, ◌<◌, ◌^◌, [], length, true, false, IfOk, IfErr};
ghost use Rattle.account_shared.specs.Views.{Belongs, IsIdle};
ghost use Rattle.account_shared.specs.Gains.{Gains};
ghost use Rattle.replay_scripts.specs.Steps.{step_data};
ghost use Rattle.replay_scripts.specs.Answers.{steps_of};
ghost use Rattle.gateway_core.specs.Gates.{rules_of};
ghost use Rattle.gateway_replay.specs.Lines.{id_of};
ghost use Rattle.gateway_replay.specs.Replays.{Replays, Stops, Called};
ghost use Rattle.gateway_replay.specs.Stretches.{requests_of, JustOpen, HasRoom, TakesStep};

use crate::abandoning::abandon_all;
use crate::opened::Open;
use crate::replayed::{Replayed, no_lines};
use crate::step::take;
use crate::writing::tell;
use account_shared::Passes;
use account_shared::laws::{gains_none, gains_then};
use gateway_core::Gate;
use replay_scripts::{LINE_LIMIT, Script, Step};
use std::alloc::{AllocError, Global};
use std::sync::Wait;

/// The id that a step names.
fn id_of<'s>(step: Step<'s>) -> &'s str
    ensures { result.now ≡ id_of (step_data step.entry) }
{
    match step {
        Step::Begin {
            id,
            key: _,
            moment: _,
            body: _,
        } => id,
        Step::End { id, returned: _ } => id,
    }
}

/// Takes a step and tells what came of it, unless a line before found no memory. Whether no line did.
fn take_step<'g, 's, R: Wait>(
    gate: &'g Gate,
    alloc: Global,
    rt: &R,
    passes: &mut Passes,
    opens: &mut Vec<Open<'g, 's>>,
    step: &Step<'s>,
    report: &mut Replayed,
    told: bool,
) -> bool
    requires belong { Belongs passes.old gate.now.accounts }
    requires made { passes.old.made < 2 ^ 62 }
    requires just { JustOpen passes.old (requests_of opens.old.items) }
    requires room { told ≡ true → HasRoom report.old }
    ensures belong { Belongs passes.new gate.now.accounts }
    ensures just { JustOpen passes.new (requests_of opens.new.items) }
    ensures count { length opens.new.items ≤ length opens.old.items + 1 }
    ensures few { passes.new.made ≤ passes.old.made + 2 }
    ensures told { result ≡ true → told ≡ true }
    ensures step { told ≡ true → TakesStep (rules_of gate.now) passes.old (requests_of opens.old.items) (step_data step.now) report.old passes.new (requests_of opens.new.items) report.new result }
    ensures kept { told ≡ false → requests_of opens.new.items ≡ requests_of opens.old.items }
    ensures still { told ≡ false → Gains passes.old passes.new [] }
{
    gains_none();
    if !told {
        return false;
    }
    let id = id_of(*step);
    let line = take(gate, alloc, rt, passes, opens, *step);
    tell(alloc, id, &line, report).is_ok()
}

/// Replays a script: takes its steps one after the other, and then settles each request that is left open at its bound.
///
/// Where a step finds no memory, that shows as its status 500. Where a line finds none, no later step is taken, and what is
/// open is settled at its bound. It may wait for the steps of other workers.
///
/// # Errors
///
/// `AllocError` where there was not enough memory for a line.
pub fn replay<R: Wait>(
    gate: &Gate,
    alloc: Global,
    rt: &R,
    passes: &mut Passes,
    script: &Script<'_>,
) -> Result<Replayed, AllocError>
    requires belong { Belongs passes.old gate.now.accounts }
    requires made { passes.old.made < 2 ^ 61 }
    requires idle { IsIdle passes.old }
    requires few { length (steps_of script.now) ≤ LINE_LIMIT }
    ensures belong { Belongs passes.new gate.now.accounts }
    ensures label { passes.new.label ≡ passes.old.label }
    ensures idle { IsIdle passes.new }
    ensures called { Called passes.old passes.new }
    ensures replayed { IfOk result (λ report. Replays (rules_of gate.now) passes.old (steps_of script.now) report passes.new) }
    ensures stopped { IfErr result (λ e. Stops (rules_of gate.now) passes.old (steps_of script.now) passes.new) }
{
    gains_none();
    gains_then();
    let mut opens = Vec::new(alloc);
    let mut report = no_lines(alloc, script.steps.len());
    let mut told = true;
    for step in &script.steps {
        told = take_step(gate, alloc, rt, passes, &mut opens, step, &mut report, told);
    }
    if abandon_all(gate, alloc, rt, passes, opens, &mut report, told) {
        Ok(report)
    } else {
        Err(AllocError)
    }
}
