//! Reading a row.

use crate::fault::RowFault;
use crate::row::{Row, Step, Trial};
use cost_num::Cost;
use std::alloc::Global;

fn number_in(word: Option<&str>) -> Result<u64, RowFault> {
    match word.unwrap_or("").parse::<u64>() {
        Ok(number) => Ok(number),
        Err(_) => Err(RowFault::Wrong("a number is none")),
    }
}

// `CLIENT,WINDOW,TYPES,FIELDS`.
fn reserve_in(value: &str) -> Result<Step, RowFault> {
    let mut words = value.split(',');
    let client = number_in(words.next())?;
    let Ok(client) = u32::try_from(client) else {
        return Err(RowFault::Wrong("there is no such client"));
    };
    let window = number_in(words.next())?;
    let types = number_in(words.next())?;
    let fields = number_in(words.next())?;
    Ok(Step::Reserve {
        client,
        window,
        bound: Cost { types, fields },
    })
}

// `AGO,TYPES,FIELDS`.
fn settle_in(value: &str) -> Result<Step, RowFault> {
    let mut words = value.split(',');
    let ago = number_in(words.next())? as usize;
    let types = number_in(words.next())?;
    let fields = number_in(words.next())?;
    Ok(Step::Settle {
        ago,
        measured: Cost { types, fields },
    })
}

// `BYTE*COUNT`, added to a file.
fn push_bytes(into: &mut Vec<u8>, value: &str) -> Result<(), RowFault> {
    let mut words = value.split('*');
    let Ok(byte) = u8::try_from(number_in(words.next())?) else {
        return Err(RowFault::Wrong("a byte is none"));
    };
    let count = number_in(words.next())?;
    for _ in 0..count {
        into.push(byte)?;
    }
    Ok(())
}

fn trial_in(word: &str) -> Result<Trial, RowFault> {
    match word {
        "crashes" => Ok(Trial::Crashes),
        "failures" => Ok(Trial::Failures),
        "cuts" => Ok(Trial::Cuts),
        "bytes" => Ok(Trial::Bytes),
        "other_mark" => Ok(Trial::OtherMark),
        _ => Err(RowFault::Wrong("there is no such word")),
    }
}

fn read_word(to: &mut Row, word: &str) -> Result<(), RowFault> {
    let (key, value) = word.split_once('=').unwrap_or((word, ""));
    match key {
        "file" => push_bytes(&mut to.file, value)?,
        "open" => to.steps.push(Step::Open)?,
        "reserve" => to.steps.push(reserve_in(value)?)?,
        "settle" => to.steps.push(settle_in(value)?)?,
        _ => to.trial = trial_in(key)?,
    }
    Ok(())
}

/// The row of these words.
pub(crate) fn read_row(alloc: Global, words: &str) -> Result<Row, RowFault> {
    let mut row = Row {
        file: Vec::new(alloc),
        steps: Vec::new(alloc),
        trial: Trial::Nothing,
    };
    for word in words.split_whitespace() {
        read_word(&mut row, word)?;
    }
    Ok(row)
}
