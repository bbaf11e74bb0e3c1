//! The command `serve`, with its schema and its clients in memory.

use doors::TcpDoors;
use gateway_run::run;
use gql_base::Text;
use journal_disk::MemDisks;
use outside::{Failures, MemFile, MemFiles, MemSink};
use std::alloc::{AllocError, Global};
use std::io;
use std::net::TcpListener;
use std::sync::Wait;
use std::thread::Threads;

const SCHEMA: &[u8] = b"type Query { user: User } type User { id: ID! }";

const CLIENTS: &[u8] = b"clients 2\nwindow 86400\nalpha 1000 1000\n";

/// What the command came to.
#[derive(Drop)]
pub(crate) struct Served {
    pub(crate) status: u8,
    output: String,
}

impl Served {
    /// The closing lines behind the number of the client's window, which is that of the day.
    pub(crate) fn closing(&self) -> &str {
        match self.output.split_once(" settled ") {
            Some((_, closing)) => closing.trim_end(),
            None => self.output.as_str(),
        }
    }
}

fn file(alloc: Global, name: &str, content: &[u8]) -> Result<MemFile, AllocError> {
    Ok(MemFile {
        name: String::from_str(alloc, name)?,
        content: Vec::from_slice(alloc, content)?,
    })
}

/// The status of the command with these words, and what it wrote.
pub(crate) fn serve<W: Threads + Wait + Sync>(
    rt: &HostRuntime,
    workers: &W,
    line: &str,
) -> io::Result<Served> {
    let alloc = rt.alloc();
    let mut words = Vec::new(alloc);
    for word in line.split_whitespace() {
        words.push(Text::copy_of(alloc, word)?)?;
    }
    let mut files = Vec::new(alloc);
    files.push(file(alloc, "schema", SCHEMA)?)?;
    files.push(file(alloc, "clients", CLIENTS)?)?;
    let mut files = MemFiles::new(files, Failures::none(alloc));
    let mut doors = TcpDoors::new(rt.clone()?, alloc);
    let mut out = MemSink::new(alloc, Failures::none(alloc));
    let mut err = MemSink::new(alloc, Failures::none(alloc));
    let mut disks = MemDisks::new(
        alloc,
        Vec::new(alloc),
        Vec::new(alloc),
        Failures::none(alloc),
    );
    let status = run(
        workers, alloc, &words, &mut files, &mut doors, &mut disks, &mut out, &mut err,
    );
    let output = String::from_utf8(out.written).unwrap_or(String::new(alloc));
    Ok(Served { status, output })
}

/// An address at which nobody listens.
pub(crate) fn free_address(rt: &HostRuntime) -> io::Result<String> {
    let listener = TcpListener::bind(rt, "127.0.0.1:0")?;
    let address = listener.local_addr()?;
    Ok(format!(in rt.alloc(); "{address}")?)
}
