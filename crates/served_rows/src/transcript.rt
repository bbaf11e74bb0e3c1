//! The transcript of a list.

use crate::beside::run_beside;
use crate::case::{Case, Form};
use crate::fault::RowFault;
use crate::gates::Rules;
use crate::reading::read_case;
use crate::series::run_in_turn;
use crate::texts::{Texts, is_note};
use crate::workers::run_by_workers;
use std::alloc::{AllocError, Global};
use std::sync::Wait;
use std::thread::Threads;

// Serves a row.
fn run<R: Threads + Wait + Sync>(
    alloc: Global,
    rt: &R,
    schema: &str,
    case: &Case<'_>,
) -> Result<String, RowFault> {
    let rules = Rules {
        schema,
        clients: case.clients,
        trusted: case.trusted,
        trusted_only: case.trusted_only,
        knows_schema: case.knows_schema,
        passed: case.passed,
        hints: case.hints,
        most_work: case.most_work,
    };
    let Some(door) = case.doors.first() else {
        return Err(RowFault::Wrong("no door was begun"));
    };
    match case.form {
        Form::InTurn | Form::Kept => run_in_turn(alloc, rt, case.form, rules, &door.connections),
        Form::ByWorkers => run_by_workers(alloc, rt, rules, &case.doors),
        Form::Beside => match door.connections.first() {
            Some(plan) => run_beside(alloc, rt, rules, plan, case.bytes),
            None => Err(RowFault::Wrong("no connection was begun")),
        },
    }
}

// What a line comes to: a row is served, and of a note there is nothing to do.
fn play_line<R: Threads + Wait + Sync>(
    alloc: Global,
    rt: &R,
    schema: &str,
    texts: &Texts,
    line: &str,
) -> Result<String, RowFault> {
    match line.strip_prefix("$ ") {
        Some(row) => run(alloc, rt, schema, &read_case(alloc, texts, row)?),
        None if is_note(line) => Ok(String::new(alloc)),
        None => Err(RowFault::Wrong("the line is no row and no note")),
    }
}

/// The transcript of a list of rows, which may name these texts: its lines, and behind each row what it came to. A line that is
/// wrong is told.
pub(crate) fn play<R: Threads + Wait + Sync>(
    alloc: Global,
    rt: &R,
    schema: &str,
    texts: &Texts,
    list: &str,
) -> Result<String, AllocError> {
    let mut transcript = String::new(alloc);
    for line in list.lines() {
        write!(transcript, "{line}\n")?;
        match play_line(alloc, rt, schema, texts, line) {
            Ok(outcome) => transcript.push_str(outcome.as_str())?,
            Err(fault) => write!(transcript, "! {fault}\n")?,
        }
    }
    Ok(transcript)
}
