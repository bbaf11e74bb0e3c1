//! Serves connections in memory by lists of rows, and writes what each came to.
//!
//! The words are the names of a schema file, of a list of texts, and of lists of rows. `README.md` says how the lists are
//! written and how the transcript is read.
#![tactic(auto)]

mod accounts;
mod beside;
mod case;
mod fault;
mod gates;
mod in_turn;
mod kept;
mod marked;
mod memory;
mod reading;
mod series;
mod texts;
mod transcript;
mod workers;

use std::io::{ErrorKind, Write};
use std::{env, fs, io};
use texts::Texts;
use transcript::play;

fn main(rt: HostRuntime) -> io::Result<()> {
    let mut words = env::args(&rt)?.skip(1);
    let (Some(schema), Some(texts)) = (words.next(), words.next()) else {
        return Err(io::Error::new(ErrorKind::InvalidInput, "the words are SCHEMA TEXTS ROWS.."));
    };
    let alloc = rt.alloc();
    let mut to = rt.stdout();
    let schema = fs::read_to_string(&rt, schema.as_str())?;
    let list = fs::read_to_string(&rt, texts.as_str())?;
    let mut texts = Texts::new(alloc);
    to.write_all(texts.read(alloc, list.as_str())?.as_bytes())?;
    for name in words {
        let list = fs::read_to_string(&rt, name.as_str())?;
        let text = play(alloc, &rt, schema.as_str(), &texts, list.as_str())?;
        to.write_all(text.as_bytes())?;
    }
    Ok(())
}
