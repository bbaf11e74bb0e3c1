//! Runs the program on rows, each a command line with its files, and writes what each one came to.
//!
//! The words of this program are the names of lists. In a list a line that begins with `$` is a row: the words behind
//! it, with spaces between them, are those of a command. A number right behind the `$` is that of the write which fails on
//! each stream, and behind an `r` there that of the read of a file which fails; a `!` there says that one of the two doors fails, a `*` that
//! there are four doors, and a `j` that there is one, whose accounts are in a journal; the word `?` alone stands for words that the system
//! didn't give. Every other line is a heading or a note.
//! The transcript has all lines of the list; below a row stand what it wrote on its output, each line behind `> `, and on its
//! error stream, behind `! `, and then its status, behind `= `. Where there are four doors, or one, the head of what was sent to the upstream on
//! each connection stands below that, behind `^ `, and the head of what was replied, behind `< `; and behind `@ ` how many bytes the disk of the journal has
//! when it is shut.
#![tactic(auto)]

mod disks_of_rows;
mod doors_of_rows;
mod padded_files;
mod transcript;

use doors_of_rows::Exchange;
use std::{env, fs, io};
use transcript::play;

fn main(rt: HostRuntime) -> io::Result<()> {
    let exchange = Exchange {
        request: fs::read_to_string(&rt, "serve/request.http")?,
        reply: fs::read_to_string(&rt, "serve/reply.http")?,
    };
    for name in env::args(&rt)?.skip(1) {
        let list = fs::read_to_string(&rt, name.as_str())?;
        play(&rt, &rt, &exchange, list.as_str())?;
    }
    Ok(())
}
