//! The transcript of a list of rows.

ghost use Rattle.std.specs.Prelude.{◌≡◌};

use crate::disks_of_rows::{disks_for, push_disk};
use crate::doors_of_rows::{Exchange, doors_for, push_heads};
use crate::padded_files::PaddedFiles;
use gateway_run::{WordsFault, end_without_command, run};
use gql_base::Text;
use outside::{Failures, MemSink, StdFiles};
use std::alloc::{AllocError, Global};
use std::io;
use std::sync::Wait;
use std::thread::Threads;

// The words of a command line.
fn words_of(alloc: Global, line: &str) -> Result<Vec<Text>, AllocError> {
    let mut words = Vec::new(alloc);
    for word in line.split_whitespace() {
        words.push(Text::copy_of(alloc, word)?)?;
    }
    Ok(words)
}

// Adds a text with a mark before each of its lines, and says where its last line has no end.
fn push_marked(into: &mut Vec<u8>, mark: &[u8], text: &[u8]) -> Result<(), AllocError> {
    let mut begins = true;
    for byte in text {
        if begins {
            into.extend_from_slice(mark)?;
        }
        into.push(*byte)?;
        begins = *byte == b'\n';
    }
    if !begins {
        into.extend_from_slice(b"\n\\ no line end\n")?;
    }
    Ok(())
}

// The mark that a row has before its words, and the words.
fn parts_of(row: &str) -> (&str, &str) {
    row.split_once(' ').unwrap_or(("", row))
}

// A stream of which the write of this number fails, counted from 1, or none.
fn stream(alloc: Global, failing: Option<u64>) -> Result<MemSink, AllocError> {
    let failures = match failing {
        Some(number) => Failures::of(Vec::from_slice(alloc, &[number.saturating_sub(1)])?),
        None => Failures::none(alloc),
    };
    Ok(MemSink::new(alloc, failures))
}

// The number of the read that fails in a row with this mark, or 0.
fn failing_read(mark: &str) -> u64 {
    match mark.strip_prefix('r') {
        Some(number) => number.parse().unwrap_or(0),
        None => 0,
    }
}

// Runs one row, and gives what it came to. What the row before left on its disk becomes what this one leaves.
fn outcome_of<W: Threads + Wait + Sync>(
    rt: &HostRuntime,
    workers: &W,
    exchange: &Exchange,
    row: &str,
    left: &mut Vec<u8>,
) -> io::Result<Vec<u8>> {
    let alloc = rt.alloc();
    let (mark, words) = parts_of(row);
    let failing = mark.parse().ok();
    let mut out = stream(alloc, failing)?;
    let mut err = stream(alloc, failing)?;
    let mut doors = doors_for(alloc, exchange, mark)?;
    let mut disks = disks_for(alloc, mark, left)?;
    let status = if words == "?" {
        end_without_command(WordsFault::Usage, &mut out, &mut err)
    } else {
        let mut files = PaddedFiles::new(StdFiles::new(rt.clone()?), failing_read(mark));
        run(
            workers,
            alloc,
            &words_of(alloc, words)?,
            &mut files,
            &mut doors,
            &mut disks,
            &mut out,
            &mut err,
        )
    };
    let mut text = Vec::new(alloc);
    push_marked(&mut text, b"> ", &out.written)?;
    push_marked(&mut text, b"! ", &err.written)?;
    text.extend_from_slice(format!(in alloc; "= {status}\n")?.as_bytes())?;
    if mark == "*" || mark.starts_with('j') {
        push_heads(&mut text, &doors)?;
    }
    push_disk(alloc, &mut text, &disks, left)?;
    Ok(text)
}

// Runs the rows of a list and writes their transcript.
pub(crate) fn play<W: Threads + Wait + Sync>(
    rt: &HostRuntime,
    workers: &W,
    exchange: &Exchange,
    list: &str,
) -> io::Result<()> {
    let mut to = rt.stdout();
    let mut left = Vec::new(rt.alloc());
    for line in list.lines() {
        to.write_all(line.as_bytes())?;
        to.write_all(b"\n")?;
        if let Some(row) = line.strip_prefix('$') {
            to.write_all(&outcome_of(rt, workers, exchange, row, &mut left)?)?;
        }
    }
    Ok(())
}
