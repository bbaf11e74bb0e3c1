//! The transcript of a list.

use crate::fault::RowFault;
use crate::reading::read_row;
use crate::series::run;
use std::alloc::{AllocError, Global};

fn is_note(line: &str) -> bool {
    line.is_empty() || line.starts_with('#')
}

fn play_line(alloc: Global, line: &str) -> Result<String, RowFault> {
    match line.strip_prefix("$ ") {
        Some(row) => run(alloc, &read_row(alloc, row)?),
        None if is_note(line) => Ok(String::new(alloc)),
        None => Err(RowFault::Wrong("the line is no row and no note")),
    }
}

/// The transcript of a list of rows: its lines, and behind each row what it came to. A line that is wrong is told.
pub(crate) fn play(alloc: Global, list: &str) -> Result<String, AllocError> {
    let mut transcript = String::new(alloc);
    for line in list.lines() {
        write!(transcript, "{line}\n")?;
        match play_line(alloc, line) {
            Ok(outcome) => transcript.push_str(outcome.as_str())?,
            Err(fault) => write!(transcript, "! {fault}\n")?,
        }
    }
    Ok(transcript)
}
