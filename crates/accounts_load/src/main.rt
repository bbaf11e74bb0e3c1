//! Keeps grants and settlements in a file of accounts, and says each once it is kept.
//!
//! The words are the name of a file, how many seconds a window is long, and a number of rounds. The file is opened, and what it has is said; so many rounds are made, each a grant,
//! and all but each seventh settled. So a script can end the program at any moment, read the file, and see that what was said is in it. Where the file isn't opened, that is said,
//! and nothing else is done.
#![tactic(auto)]

mod loading;

use loading::work;
use sqlite::Wary;
use std::env;
use std::io::{self, ErrorKind, Write};
use store_trees::open;

fn wrong(message: &'static str) -> io::Error {
    io::Error::new(ErrorKind::InvalidInput, message)
}

fn main(rt: HostRuntime) -> io::Result<()> {
    let alloc = rt.alloc();
    let mut words = env::args(&rt)?.skip(1);
    let (Some(name), Some(seconds), Some(rounds)) = (words.next(), words.next(), words.next())
    else {
        return Err(wrong("the words are FILE SECONDS ROUNDS"));
    };
    let Ok(seconds) = seconds.as_str().parse::<u32>() else {
        return Err(wrong("SECONDS is no number"));
    };
    let Ok(rounds) = rounds.as_str().parse::<u64>() else {
        return Err(wrong("ROUNDS is no number"));
    };
    let mut to = rt.stdout();
    match open(&rt, name.as_str(), Wary, seconds) {
        Ok(opened) => work(alloc, &mut to, opened, rounds),
        Err(fault) => {
            let text = format!(in alloc; "refused: {fault}\n")?;
            to.write_all(text.as_bytes())
        }
    }
}
