//! Runs the command `serve` over loopback, a hundred exchanges on one connection, and writes what they came to.
#![tactic(auto)]

mod exchanges;
mod serving;

use exchanges::{EXCHANGES, count_exchanges};
use serving::{free_address, serve};
use std::io;
use std::net::TcpListener;
use std::thread::join;
use std::time::{Duration, Instant};

/// How many seconds a hundred exchanges may take. Where a reply waits for an acknowledgement, each takes some 40 milliseconds.
const LIMIT: u64 = 3;

fn main(rt: HostRuntime) -> io::Result<()> {
    let begun = Instant::now(&rt)?;
    let listener = TcpListener::bind(&rt, "127.0.0.1:0")?;
    let upstream = listener.local_addr()?;
    let listen = free_address(&rt)?;
    let line = format!(in rt.alloc();
        "serve schema clients --listen {listen} --upstream {upstream} --workers 1 --connections 1"
    )?;
    let (served, counted) = join(
        &rt,
        || serve(&rt, &rt, line.as_str()),
        || count_exchanges(&rt, listen.as_str(), &listener),
    );
    let answered = counted?;
    let served = served?;
    let took = begun.elapsed(&rt)?;
    println!(rt; "status {}", served.status)?;
    println!(rt; "{} of {EXCHANGES} answers as they must be", answered)?;
    println!(rt; "{}", served.closing())?;
    let in_time = took < Duration::from_secs(LIMIT);
    println!(rt; "{}", if in_time { "in time" } else { "too slow" })?;
    Ok(())
}
