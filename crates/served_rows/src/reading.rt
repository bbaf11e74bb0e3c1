//! Reading a row.

use crate::case::{Case, Change, Changed, Form, Number, Planned, PlannedDoor};
use crate::fault::RowFault;
use crate::texts::Texts;
use std::alloc::{AllocError, Global};

fn number_in(word: &str) -> Result<u64, RowFault> {
    match word.parse::<u64>() {
        Ok(number) => Ok(number),
        Err(_) => Err(RowFault::Wrong("a number is none")),
    }
}

// The number of steps that a word is.
fn steps_in(word: &str) -> Result<u32, RowFault> {
    match word.parse::<u32>() {
        Ok(number) => Ok(number),
        Err(_) => Err(RowFault::Wrong("a number is none")),
    }
}

// The form that the first word of a row names.
fn form_in(word: &str) -> Result<Form, RowFault> {
    match word {
        "in_turn" => Ok(Form::InTurn),
        "kept" => Ok(Form::Kept),
        "by_workers" => Ok(Form::ByWorkers),
        "beside" => Ok(Form::Beside),
        _ => Err(RowFault::Wrong("a row begins with in_turn, kept, by_workers or beside")),
    }
}

// The change that a word names.
fn change_in(word: &str) -> Result<Change, RowFault> {
    match word {
        "cut" => Ok(Change::Cut),
        "short" => Ok(Change::Short),
        "wire_cut" => Ok(Change::WireCut),
        "read_fails" => Ok(Change::Read),
        "dial_fails" => Ok(Change::Dial),
        "transfer_fails" => Ok(Change::Transfer),
        "write_fails" => Ok(Change::Write),
        "disk_fails" => Ok(Change::Disk),
        _ => Err(RowFault::Wrong("there is no such word")),
    }
}

// A connection on which this is sent.
fn sending(alloc: Global, sent: &str) -> Planned<'_> {
    Planned {
        sent,
        replies: Vec::new(alloc),
        readings: Vec::new(alloc),
        changes: Vec::new(alloc),
    }
}

// A door without a connection.
fn door_of<'a>(alloc: Global) -> PlannedDoor<'a> {
    PlannedDoor {
        connections: Vec::new(alloc),
        fails: 0,
    }
}

// Reads a word on the last connection of a door.
fn read_change<'a>(
    texts: &'a Texts,
    to: &mut Planned<'a>,
    key: &str,
    value: &str,
) -> Result<(), RowFault> {
    match key {
        "reply" => to.replies.insert(0, texts.find(value)?)?,
        "at" => to.readings.push(number_in(value)?)?,
        _ => {
            let change = change_in(key)?;
            let number = match value {
                "each" => Number::Each,
                _ => Number::Is(number_in(value)?),
            };
            to.changes.push(Changed { change, number })?;
        }
    }
    Ok(())
}

// Reads a word on the last door of a row.
fn read_on_door<'a>(
    alloc: Global,
    texts: &'a Texts,
    to: &mut PlannedDoor<'a>,
    key: &str,
    value: &str,
) -> Result<(), RowFault> {
    match key {
        "accept_fails" => to.fails = number_in(value)?,
        "send" => to.connections.push(sending(alloc, texts.find(value)?))?,
        _ => {
            let last = to
                .connections
                .last_mut()
                .ok_or(RowFault::Wrong("no connection was begun"))?;
            read_change(texts, last, key, value)?;
        }
    }
    Ok(())
}

// Reads a word.
fn read_word<'a>(
    alloc: Global,
    texts: &'a Texts,
    to: &mut Case<'a>,
    word: &str,
) -> Result<(), RowFault> {
    let (key, value) = word.split_once('=').unwrap_or((word, ""));
    match key {
        "clients" => to.clients = texts.find(value)?,
        "trusted" => to.trusted = Some(texts.find(value)?),
        "trusted_only" => to.trusted_only = true,
        "knows_schema" => to.knows_schema = true,
        "passes" => to.passed = texts.find(value)?,
        "hints" => to.hints = true,
        "most_work" => to.most_work = Some(steps_in(value)?),
        "bytes" => to.bytes = number_in(value)? as usize,
        "door" => to.doors.push(door_of(alloc))?,
        _ => {
            let last = to
                .doors
                .last_mut()
                .ok_or(RowFault::Wrong("no door was begun"))?;
            read_on_door(alloc, texts, last, key, value)?;
        }
    }
    Ok(())
}

/// The row of these words. Without a word `door` it has one door.
pub(crate) fn read_case<'a>(
    alloc: Global,
    texts: &'a Texts,
    row: &str,
) -> Result<Case<'a>, RowFault> {
    let mut words = row.split_whitespace();
    let form = form_in(words.next().unwrap_or(""))?;
    let trusted = None;
    let mut case = Case {
        form,
        clients: "",
        trusted,
        trusted_only: false,
        knows_schema: false,
        passed: "",
        hints: false,
        most_work: None,
        doors: Vec::new(alloc),
        bytes: 0,
    };
    if form != Form::ByWorkers {
        case.doors.push(door_of(alloc))?;
    }
    for word in words {
        read_word(alloc, texts, &mut case, word)?;
    }
    Ok(case)
}
