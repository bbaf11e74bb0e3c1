//! Plays rows on journals in memory, and writes what each came to.
//!
//! The words are the names of lists of rows. `README.md` says how a list is written and how the transcript is read.
#![tactic(auto)]

mod clients;
mod crashes;
mod fault;
mod groups;
mod opening;
mod reading;
mod row;
mod series;
mod steps;
mod transcript;

use std::io::Write;
use std::{env, fs, io};
use transcript::play;

fn main(rt: HostRuntime) -> io::Result<()> {
    let alloc = rt.alloc();
    let mut to = rt.stdout();
    for name in env::args(&rt)?.skip(1) {
        let list = fs::read_to_string(&rt, name.as_str())?;
        to.write_all(play(alloc, list.as_str())?.as_bytes())?;
    }
    Ok(())
}
