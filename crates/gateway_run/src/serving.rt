//! The command `serve SCHEMA CLIENTS --listen ADDR --upstream ADDR`.

ghost use Rattle.std.specs.Prelude.{◌≡◌, ◌≤◌, ◌<◌, IfOk, IfErr, length};
ghost use Rattle.schema_model.specs.SchemaViews.{schema_data};
ghost use Rattle.cost_directives.specs.WeightViews.{weights_data};
ghost use Rattle.client_files.specs.ClientFiles.{MayBeServed};
ghost use Rattle.client_files.specs.declared.client.TheConstants.{CLIENT_LIMIT};
ghost use Rattle.gateway_serving.specs.Decisions.{HasWeights};
ghost use Rattle.command_words.specs.declared.command.Command.TheVariants.{Serve};
ghost use Rattle.command_words.specs.Words.{ServesWithinLimits};
ghost use Rattle.account_commands.specs.PassedOn.{IsText, files_told};
ghost use Rattle.gateway_run.specs.Serve.{doors_call, disks_call, outside_call, IsServingOf, ServesTo, KeepsAs, ServesAs, IsTold, ServeOf, ServeCameTo};

use crate::closing::closing_lines;
use crate::keeping::kept_told;
use crate::serve_inputs::{
    InputsFault, ServeInputs, ServeTexts, read_serve, refused_serve, serve_inputs_in,
};
use account_commands::{Outcome, SCHEMA_LIMIT, gate_by};
use command_words::AskedServe;
use doors::Doors;
use gateway_serving::{ServeEnd, ServeFault, Serving, Settings};
use gql_base::Text;
use journal_disk::Disks;
use journal_serving::{mark_of, serve_journal};
use outside::Files;
use plan_model::laws::built_schemas_can_be_filled;
use std::alloc::{AllocError, Global};
use std::sync::Wait;
use std::thread::Threads;

// Copies of texts.
fn copies_of(alloc: Global, texts: &[Text]) -> Result<Vec<Text>, AllocError>
    ensures { IfOk result (λ copies. copies.items ≡ texts.now) }
{
    let mut copies = Vec::new(alloc);
    'texts: for text in texts {
        copies.push(Text::copy_of(alloc, text.as_str())?)?;
    }
    Ok(copies)
}

// How long windows are, where requests are forwarded to and with which fields, and whether hints are told.
fn settings_of(
    alloc: Global,
    asked: &AskedServe,
    window_seconds: u32,
) -> Result<Settings, AllocError>
    ensures window { IfOk result (λ settings. settings.window_seconds ≡ window_seconds) }
    ensures host { IfOk result (λ settings. settings.host ≡ asked.now.upstream) }
    ensures target { IfOk result (λ settings. settings.target ≡ asked.now.target) }
    ensures passed { IfOk result (λ settings. settings.passed.items ≡ asked.now.passed.items) }
    ensures hints { IfOk result (λ settings. settings.hints ≡ asked.now.hints) }
{
    Ok(Settings {
        window_seconds,
        host: Text::copy_of(alloc, asked.upstream.as_str())?,
        target: Text::copy_of(alloc, asked.target.as_str())?,
        passed: copies_of(alloc, &asked.passed)?,
        hints: asked.hints,
    })
}

// What the doors are started with.
fn serving_of<'a>(asked: &'a AskedServe) -> Serving<'a>
    ensures { IsServingOf asked.entry.now result }
{
    Serving {
        listen: asked.listen.as_str(),
        upstream: asked.upstream.as_str(),
        workers: asked.workers,
        connections: asked.connections,
    }
}

// Serves by these rules over the journal of this name.
fn keep_by<Rt: Threads + Wait + Sync, D: Doors, J: Disks>(
    alloc: Global,
    rt: &Rt,
    asked: &AskedServe,
    name: &Text,
    inputs: ServeInputs,
    doors: &mut D,
    disks: &mut J,
) -> Outcome
    requires limits { ServesWithinLimits (Serve asked.now) }
    requires one { asked.now.workers ≡ 1 }
    requires weighed { HasWeights (schema_data inputs.rules.weighed.schema) (weights_data inputs.rules.weighed.weights) }
    requires served { MayBeServed inputs.rules.clients.window_seconds inputs.rules.clients.clients.items }
    requires idle { D.running doors.old ≡ 0 }
    requires disks_idle { J.running disks.old ≡ 0 }
    ensures { KeepsAs asked.now name.now inputs (outside_call (doors_call D.Doors doors.old doors.new) (disks_call J.Disks disks.old disks.new)) result }
{
    let serving = serving_of(asked);
    let ServeInputs { rules, list } = inputs;
    let Ok(mark) = mark_of(alloc, &rules.clients) else {
        return Outcome::Memory;
    };
    let Ok(settings) = settings_of(alloc, asked, rules.clients.window_seconds) else {
        return Outcome::Memory;
    };
    let made = gate_by(
        alloc,
        rules,
        list,
        settings,
        asked.most_answer,
        asked.most_work,
    );
    let Ok((gate, _passes)) = made else {
        return Outcome::Memory;
    };
    let journal = name.as_str();
    let came_to = serve_journal(alloc, rt, &gate, mark, journal, disks, doors, &serving);
    kept_told(alloc, gate.clients(), came_to)
}

// Serves by these rules.
fn serve_by<Rt: Threads + Wait + Sync, D: Doors>(
    alloc: Global,
    rt: &Rt,
    asked: &AskedServe,
    inputs: ServeInputs,
    doors: &mut D,
) -> Result<ServeEnd, ServeFault>
    requires limits { ServesWithinLimits (Serve asked.now) }
    requires weighed { HasWeights (schema_data inputs.rules.weighed.schema) (weights_data inputs.rules.weighed.weights) }
    requires served { MayBeServed inputs.rules.clients.window_seconds inputs.rules.clients.clients.items }
    requires idle { D.running doors.old ≡ 0 }
    ensures { ServesTo asked.now inputs (doors_call D.Doors doors.old doors.new) result }
{
    let serving = serving_of(asked);
    let ServeInputs { rules, list } = inputs;
    let Ok(settings) = settings_of(alloc, asked, rules.clients.window_seconds) else {
        return Err(ServeFault::Memory);
    };
    let made = gate_by(
        alloc,
        rules,
        list,
        settings,
        asked.most_answer,
        asked.most_work,
    );
    let Ok((gate, passes)) = made else {
        return Err(ServeFault::Memory);
    };
    gateway_serving::serve(alloc, rt, gate, passes, doors, &serving)
}

// The outcome of what serving came to.
fn told(alloc: Global, came_to: Result<ServeEnd, ServeFault>) -> Outcome
    requires few { IfOk came_to (λ end. length end.totals.clients.items.items ≤ CLIENT_LIMIT) }
    ensures { IsTold came_to result }
{
    match came_to {
        Ok(end) => match closing_lines(alloc, &end) {
            Ok(lines) => Outcome::Served {
                lines,
                failed: end.done.faults > 0,
            },
            Err(_) => Outcome::Memory,
        },
        Err(ServeFault::NotStarted) => Outcome::NotStarted,
        Err(ServeFault::Memory) => Outcome::Memory,
    }
}

// Serves by these rules, over a journal where one is named.
fn serve_asked<Rt: Threads + Wait + Sync, D: Doors, J: Disks>(
    alloc: Global,
    rt: &Rt,
    asked: &AskedServe,
    inputs: ServeInputs,
    doors: &mut D,
    disks: &mut J,
) -> Outcome
    requires limits { ServesWithinLimits (Serve asked.now) }
    requires weighed { HasWeights (schema_data inputs.rules.weighed.schema) (weights_data inputs.rules.weighed.weights) }
    requires served { MayBeServed inputs.rules.clients.window_seconds inputs.rules.clients.clients.items }
    requires idle { D.running doors.old ≡ 0 }
    requires disks_idle { J.running disks.old ≡ 0 }
    ensures { ServesAs asked.now inputs (outside_call (doors_call D.Doors doors.old doors.new) (disks_call J.Disks disks.old disks.new)) result }
{
    match &asked.journal {
        None => told(alloc, serve_by(alloc, rt, asked, inputs, doors)),
        Some(name) => keep_by(alloc, rt, asked, name, inputs, doors, disks),
    }
}

// What the texts come to.
fn serve_of<Rt: Threads + Wait + Sync, D: Doors, J: Disks>(
    alloc: Global,
    rt: &Rt,
    asked: &AskedServe,
    texts: &ServeTexts,
    doors: &mut D,
    disks: &mut J,
) -> Outcome
    requires limits { ServesWithinLimits (Serve asked.now) }
    requires text { IsText SCHEMA_LIMIT texts.now.rules.schema }
    requires idle { D.running doors.old ≡ 0 }
    requires disks_idle { J.running disks.old ≡ 0 }
    ensures { ServeOf asked.now texts.now (outside_call (doors_call D.Doors doors.old doors.new) (disks_call J.Disks disks.old disks.new)) result }
{
    built_schemas_can_be_filled();
    match serve_inputs_in(alloc, texts, asked.undeclared) {
        Ok(inputs) => serve_asked(alloc, rt, asked, inputs, doors, disks),
        Err(InputsFault::Refused(refusal)) => refused_serve(alloc, &asked.schema, refusal),
        Err(InputsFault::Memory) => Outcome::Memory,
    }
}

/// Serves clients over HTTP, by the schema, the clients and the list of trusted documents of files, until each door has given all its connections or failed.
///
/// Where a journal is named, the clients' accounts are those of the journal, which outlive the program, and one worker serves.
///
/// It asks that no doors run, that there are 1 to 16 workers, one over a journal, and that each serves at most 4,294,967,295 connections. All doors that
/// were started are stopped at the end.
pub fn serve<Rt: Threads + Wait + Sync, F: Files, D: Doors, J: Disks>(
    alloc: Global,
    rt: &Rt,
    asked: &AskedServe,
    files: &mut F,
    doors: &mut D,
    disks: &mut J,
) -> Outcome
    requires limits { ServesWithinLimits (Serve asked.now) }
    requires idle { D.running doors.old ≡ 0 }
    requires disks_idle { J.running disks.old ≡ 0 }
    ensures { ServeCameTo asked.now (files_told (F.content files.old) (F.faults files.old) (F.faults files.new))
        (outside_call (doors_call D.Doors doors.old doors.new) (disks_call J.Disks disks.old disks.new)) result }
{
    match read_serve(alloc, asked, files) {
        Ok(texts) => serve_of(alloc, rt, asked, &texts, doors, disks),
        Err(outcome) => outcome,
    }
}
