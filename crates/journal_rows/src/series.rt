//! What is tried behind the steps of a row.

use crate::crashes::{Keep, left};
use crate::fault::RowFault;
use crate::groups::Groups;
use crate::opening::{MARK, OTHER_MARK, accounts_of, outcome_of, short_outcome_of};
use crate::row::{Row, Trial};
use crate::steps::{Played, play_steps};
use std::alloc::{AllocError, Global};

/// How many calls of a row may be made to fail.
const MOST_CALLS: usize = 256;

// A crash at each moment of the last step.
fn try_crashes(alloc: Global, into: &mut String, played: &Played) -> Result<(), AllocError> {
    let last = played.disk.calls().len();
    for (keep, what) in [
        (Keep::None, "none kept, calls"),
        (Keep::Half, "half kept, calls"),
        (Keep::All, "all kept, calls"),
    ] {
        let mut groups = Groups::new(alloc);
        for count in played.before_last..=last {
            let file = left(alloc, &played.disk, count, keep)?;
            groups.add(
                count.saturating_sub(played.before_last),
                outcome_of(alloc, &file, MARK)?,
            )?;
        }
        groups.write(into, what)?;
    }
    Ok(())
}

// Each call on the last disk failing in turn.
fn try_failures(alloc: Global, into: &mut String, row: &Row) -> Result<(), AllocError> {
    let mut groups = Groups::new(alloc);
    for number in 0..MOST_CALLS {
        let played = play_steps(alloc, &row.file, &row.steps, Some(number as u64))?;
        if played.disk.faults() == 0 {
            break;
        }
        let mut text = String::new(alloc);
        text.push_str(failed_in(played.text.as_str()))?;
        text.push_str("; again ")?;
        text.push_str(outcome_of(alloc, played.disk.bytes(), MARK)?.as_str())?;
        groups.add(number, text)?;
    }
    groups.write(into, "failing call")
}

// The step that failed.
fn failed_in(text: &str) -> &str {
    for line in text.lines() {
        if line.ends_with("Failed") {
            return line;
        }
    }
    "nothing failed"
}

fn try_cuts(alloc: Global, into: &mut String, file: &[u8]) -> Result<(), AllocError> {
    let mut groups = Groups::new(alloc);
    for length in 0..=file.len() {
        groups.add(length, accounts_of(alloc, &file[..length])?)?;
    }
    groups.write(into, "cut to")
}

// What each other value of a byte comes to: how many values to each outcome.
fn try_byte(alloc: Global, file: &[u8], place: usize) -> Result<String, AllocError> {
    let mut other = Vec::from_slice(alloc, file)?;
    let mut groups = Groups::new(alloc);
    for value in 0..=255 {
        if file.get(place) != Some(&value) {
            if let Some(byte) = other.get_mut(place) {
                *byte = value;
            }
            groups.add(value as usize, short_outcome_of(alloc, &other)?)?;
        }
    }
    let mut text = String::new(alloc);
    groups.write_in_line(&mut text)?;
    Ok(text)
}

fn try_bytes(alloc: Global, into: &mut String, file: &[u8]) -> Result<(), AllocError> {
    let mut groups = Groups::new(alloc);
    for place in 0..file.len() {
        groups.add(place, try_byte(alloc, file, place)?)?;
    }
    groups.write(into, "byte")
}

/// What a row comes to: a line for each step, and what was tried.
pub(crate) fn run(alloc: Global, row: &Row) -> Result<String, RowFault> {
    let played = play_steps(alloc, &row.file, &row.steps, None)?;
    let mut text = String::new(alloc);
    text.push_str(played.text.as_str())?;
    match row.trial {
        Trial::Nothing => {}
        Trial::Crashes => try_crashes(alloc, &mut text, &played)?,
        Trial::Failures => try_failures(alloc, &mut text, row)?,
        Trial::Cuts => try_cuts(alloc, &mut text, played.disk.bytes())?,
        Trial::Bytes => try_bytes(alloc, &mut text, played.disk.bytes())?,
        Trial::OtherMark => {
            let outcome = outcome_of(alloc, played.disk.bytes(), OTHER_MARK)?;
            write!(text, "another mark: {outcome}\n")?;
        }
    }
    Ok(text)
}
