//! Replaying a script over fresh accounts, to their end.

ghost use Rattle.std.specs.Prelude.{◌≡◌, ◌≤◌, None, IfOk, IfErr, length};
ghost use Rattle.schema_model.specs.SchemaViews.{schema_data};
ghost use Rattle.cost_directives.specs.WeightViews.{weights_data};
ghost use Rattle.account_shared.specs.Views.{Belongs};
ghost use Rattle.client_files.specs.ClientFiles.{MayBeServed};
ghost use Rattle.replay_scripts.specs.Answers.{steps_of};
ghost use Rattle.gateway_replay.specs.PassedOn.{HasWeights, rules_of};
ghost use Rattle.gateway_replay.specs.Replays.{AreFresh};
ghost use Rattle.command_outcomes.specs.Reading.{IsText};
ghost use Rattle.account_commands.specs.RuleFiles.{rules_in};
ghost use Rattle.account_commands.specs.Replay.{EndsAs, IsReplayed, IsReplayRefusal, IfReplayRefused, IsPrintable};

use crate::gates::gate_by;
use crate::replay_inputs::{ReplayFault, ReplayInputs, replay_inputs_in};
use crate::replay_texts::ReplayTexts;
use account_shared::Passes;
use command_outcomes::SCHEMA_LIMIT;
use gateway_replay::{Gate, Replayed, Settings, Totals, close, replay, scripts_are_short};
use gql_base::Text;
use plan_model::laws::built_schemas_can_be_filled;
use replay_scripts::{LINE_LIMIT, Script};
use std::alloc::{AllocError, Global};
use std::sync::Wait;

/// What a replay came to, and the accounts after it.
#[derive(Drop)]
pub struct ReplayEnd {
    pub report: Replayed,
    pub totals: Totals,
}

// Replays a script through the first passes to fresh accounts, and closes them.
fn replay_fresh<Rt: Wait>(
    alloc: Global,
    rt: &Rt,
    gate: Gate,
    passes: Passes,
    script: &Script<'_>,
) -> Result<ReplayEnd, AllocError>
    requires belong { Belongs passes gate.accounts }
    requires fresh { AreFresh (rules_of gate) passes }
    requires few { length (steps_of script.now) ≤ LINE_LIMIT }
    ensures { IfOk result (EndsAs (rules_of gate) (steps_of script.now)) }
{
    let mut passes = passes;
    let report = replay(&gate, alloc, rt, &mut passes, script)?;
    let totals = close(gate, rt, passes);
    Ok(ReplayEnd { report, totals })
}

// Where requests are forwarded to: nowhere. Windows have this length.
fn settings_of(alloc: Global, window_seconds: u32) -> Settings
    ensures { result.window_seconds ≡ window_seconds }
{
    Settings {
        window_seconds,
        host: Text::from(String::new(alloc)),
        target: Text::from(String::new(alloc)),
        passed: Vec::new(alloc),
        hints: false,
    }
}

// Replays a script by its rules.
fn replay_by<Rt: Wait>(
    alloc: Global,
    rt: &Rt,
    inputs: ReplayInputs<'_>,
    work: Option<u32>,
) -> Result<ReplayEnd, AllocError>
    requires weighed { HasWeights (schema_data inputs.rules.weighed.schema) (weights_data inputs.rules.weighed.weights) }
    requires served { MayBeServed inputs.rules.clients.window_seconds inputs.rules.clients.clients.items }
    requires few { length (steps_of inputs.script) ≤ LINE_LIMIT }
    ensures { IfOk result (EndsAs (rules_in inputs.entry.rules inputs.entry.list None work) (steps_of inputs.entry.script)) }
{
    let ReplayInputs {
        rules,
        script,
        list,
    } = inputs;
    let settings = settings_of(alloc, rules.clients.window_seconds);
    let (gate, passes) = gate_by(alloc, rules, list, settings, None, work)?;
    replay_fresh(alloc, rt, gate, passes, &script)
}

/// Replays the script of these texts over fresh accounts, or says why they are refused. Each request takes at most so many steps, where a number
/// is given.
pub fn replay_texts<Rt: Wait>(
    alloc: Global,
    rt: &Rt,
    texts: &ReplayTexts,
    undeclared: u32,
    work: Option<u32>,
) -> Result<ReplayEnd, ReplayFault>
    requires text { IsText SCHEMA_LIMIT texts.now.rules.schema }
    ensures replayed { IfOk result (λ end. IsReplayed texts.now undeclared work (λ other. other ≡ end)) }
    ensures printable { IfOk result IsPrintable }
    ensures refused { IfErr result (λ fault. IfReplayRefused fault (IsReplayRefusal texts.now undeclared)) }
{
    built_schemas_can_be_filled();
    scripts_are_short();
    let inputs = match replay_inputs_in(alloc, texts, undeclared) {
        Ok(inputs) => inputs,
        Err(fault) => return Err(fault),
    };
    match replay_by(alloc, rt, inputs, work) {
        Ok(end) => Ok(end),
        Err(_) => Err(ReplayFault::Memory),
    }
}
