//! The gateway before a GraphQL server, and the command line tool: it prices operations, and serves them within budgets.
#![tactic(auto)]

mod ending;
mod entering;
mod words;

use ending::{end, end_for};
pub use gateway_run::run;
use outside::StdSink;
use std::env;
use std::process::ExitCode;
use words::words_of;

fn main(rt: HostRuntime) -> ExitCode {
    let alloc = rt.alloc();
    let mut out = StdSink::new(rt.stdout());
    let mut err = StdSink::new(rt.stderr());
    match words_of(alloc, env::args(&rt)) {
        Ok(words) => end(&rt, &rt, alloc, &words, &mut out, &mut err),
        Err(fault) => end_for(fault, &mut out, &mut err),
    }
}
