//! The command `exercise N`.

ghost use Rattle.std.specs.Prelude.{◌≡◌, IfOk, codes, string_bytes};
ghost use Rattle.cost_num.specs.Within.{Within};
ghost use Rattle.gateway_replay.specs.PassedOn.{greatest};
ghost use Rattle.command_outcomes.specs.Outcomes.{IsDone, IsRefusedAs};
ghost use Rattle.account_commands.specs.Replay.{IsPrintable, replay_refusal_text};
ghost use Rattle.account_commands.specs.Exercise.{exercise_texts, summary_text, ExerciseCameTo};

use crate::replay_end::replay_texts;
use crate::replay_inputs::{ReplayFault, ReplayRefusal, refused_replay};
use crate::replay_texts::ReplayTexts;
use crate::rule_texts::RuleTexts;
use command_outcomes::Outcome;
use command_words::UNDECLARED;
use cost_vectors::generated;
use gateway_replay::{Replayed, write_cost};
use gql_base::Text;
use std::alloc::{AllocError, Global};
use std::sync::Wait;

// The texts of an exercise with so many requests.
fn texts_of(alloc: Global, requests: u32) -> Result<ReplayTexts, AllocError>
    ensures { IfOk result (λ texts. texts ≡ exercise_texts requests) }
{
    let texts = generated(alloc, requests)?;
    Ok(ReplayTexts {
        rules: RuleTexts {
            schema: Text::from(texts.schema),
            clients: Text::from(texts.clients),
        },
        script: Text::from(texts.script),
        list: None,
    })
}

// What a report adds up to.
fn summary_of(alloc: Global, report: &Replayed) -> Result<String, AllocError>
    requires { Within greatest report.now.charged }
    ensures { IfOk result (λ text. string_bytes text ≡ summary_text report.now) }
{
    let steps = report.steps;
    let granted = report.granted;
    let short = report.short;
    let refused = report.refused;
    let mut text = format!(in alloc;
        "steps {steps} granted {granted} short {short} refused {refused}"
    )?;
    write_cost(alloc, " charged ", report.charged, &mut text)?;
    Ok(text)
}

// The outcome of a replay with this report.
fn summed_up(alloc: Global, report: &Replayed) -> Outcome
    requires { Within greatest report.now.charged }
    ensures { IsDone (summary_text report.now) result }
{
    match summary_of(alloc, report) {
        Ok(text) => Outcome::Done(text.into_bytes()),
        Err(_) => Outcome::Memory,
    }
}

// The outcome of texts that are refused.
fn refused(alloc: Global, refusal: ReplayRefusal) -> Outcome
    ensures { IsRefusedAs (replay_refusal_text (codes "schema") refusal) result }
{
    match Text::copy_of(alloc, "schema") {
        Ok(name) => refused_replay(alloc, &name, refusal),
        Err(_) => Outcome::Memory,
    }
}

/// Replays the texts of so many requests, and sums up what became of them.
pub fn exercise<Rt: Wait>(alloc: Global, rt: &Rt, requests: u32) -> Outcome
    ensures { ExerciseCameTo requests result }
{
    let texts = match texts_of(alloc, requests) {
        Ok(texts) => texts,
        Err(_) => return Outcome::Memory,
    };
    match replay_texts(alloc, rt, &texts, UNDECLARED, None) {
        Ok(end) => summed_up(alloc, &end.report),
        Err(ReplayFault::Refused(refusal)) => refused(alloc, refusal),
        Err(ReplayFault::Memory) => Outcome::Memory,
    }
}
