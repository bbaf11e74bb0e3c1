//! Prices one operation as often as it is told, so that the time of pricing can be measured.
//!
//! The words are the names of a schema file and of a document file, and a number. The schema is checked and the document read
//! once; then the operation is accepted so many times, and its last price is printed. What a run with a larger number takes
//! longer is the time of pricing alone.
#![tactic(auto)]

mod pricing;

use gql_base::Text;
use outside::{Files, StdFiles};
use pricing::{line_of, priced};
use std::alloc::Global;
use std::env;
use std::io::{self, ErrorKind, Write};

/// How many bytes a file may have.
const LIMIT: usize = 4_194_304;

fn wrong(message: &'static str) -> io::Error {
    io::Error::new(ErrorKind::InvalidInput, message)
}

fn text_in(alloc: Global, files: &mut StdFiles<HostRuntime>, name: &str) -> io::Result<Text> {
    let Ok(read) = files.read(alloc, name, LIMIT) else {
        return Err(wrong("a file can't be read"));
    };
    Text::from_utf8(read).map_err(|_| wrong("a file isn't UTF-8"))
}

fn main(rt: HostRuntime) -> io::Result<()> {
    let alloc = rt.alloc();
    let mut words = env::args(&rt)?.skip(1);
    let (Some(schema), Some(document), Some(times)) = (words.next(), words.next(), words.next())
    else {
        return Err(wrong("the words are SCHEMA DOCUMENT TIMES"));
    };
    let Ok(times) = times.as_str().parse::<u64>() else {
        return Err(wrong("TIMES is no number"));
    };
    let mut files = StdFiles::new(rt.clone()?);
    let schema = text_in(alloc, &mut files, schema.as_str())?;
    let document = text_in(alloc, &mut files, document.as_str())?;
    match priced(alloc, schema.as_str(), document.as_str(), times) {
        Ok(bound) => rt.stdout().write_all(line_of(alloc, bound)?.as_slice()),
        Err(message) => Err(wrong(message)),
    }
}
