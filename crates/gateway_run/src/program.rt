//! The one call that does all of the program.

ghost use Rattle.std.specs.Prelude.{◌≡◌};
ghost use Rattle.command_words.specs.Words.{ServesWithinLimits};
ghost use Rattle.account_commands.specs.PassedOn.{IsDone};
ghost use Rattle.gateway_run.specs.Texts.{usage_text, version_text};
ghost use Rattle.gateway_run.specs.Endings.{stream_told, Ends};
ghost use Rattle.gateway_run.specs.Serve.{doors_call, disks_call, outside_call};
ghost use Rattle.gateway_run.specs.Program.{files_call, no_command, CommandCameTo, ComeTo, Runs};

use crate::finish::{finish, usage_text, version_text};
use crate::serving::serve;
use account_commands::{Outcome, check, exercise, migrate, replay};
use command_words::{Command, WordsFault, command_of};
use doors::Doors;
use gql_base::Text;
use journal_disk::Disks;
use operation_commands::{
    audit, explain, explain_schema, forward, introspect, meter, price, worst,
};
use outside::{Files, Sink};
use std::alloc::Global;
use std::sync::Wait;
use std::thread::Threads;

// The outcome of a command with this output.
fn done(alloc: Global, output: &[u8]) -> Outcome
    ensures { IsDone output.now result }
{
    match Vec::from_slice(alloc, output) {
        Ok(output) => Outcome::Done(output),
        Err(_) => Outcome::Memory,
    }
}

// The outcome of who asks how the program is used.
fn told_usage(alloc: Global) -> Outcome
    ensures { IsDone usage_text result }
{
    done(alloc, usage_text())
}

// The outcome of who asks which version it is.
fn told_version(alloc: Global) -> Outcome
    ensures { IsDone version_text result }
{
    done(alloc, version_text())
}

// Does a command, and gives what it came to.
fn outcome_of<Rt: Threads + Wait + Sync, F: Files, D: Doors, J: Disks>(
    alloc: Global,
    rt: &Rt,
    command: Command,
    files: &mut F,
    doors: &mut D,
    disks: &mut J,
) -> Outcome
    requires limits { ServesWithinLimits command }
    requires idle { D.running doors.old ≡ 0 }
    requires disks_idle { J.running disks.old ≡ 0 }
    ensures { CommandCameTo command (files_call F.Files files.old files.new)
        (outside_call (doors_call D.Doors doors.old doors.new) (disks_call J.Disks disks.old disks.new)) result }
{
    match command {
        Command::Help => told_usage(alloc),
        Command::Version => told_version(alloc),
        Command::Check { schema } => check(alloc, schema, files),
        Command::Price { asked } => price(alloc, &asked, files),
        Command::Explain { asked } => explain(alloc, &asked, files),
        Command::ExplainSchema { schema, undeclared } => {
            explain_schema(alloc, &schema, undeclared, files)
        }
        Command::Audit { asked } => audit(alloc, &asked, files),
        Command::Introspect { asked } => introspect(alloc, &asked, files),
        Command::Worst { asked, part } => worst(alloc, &asked, part, files),
        Command::Forward { asked } => forward(alloc, &asked, files),
        Command::Meter { asked, reply } => meter(alloc, &asked, &reply, files),
        Command::Replay { asked } => replay(alloc, rt, &asked, files),
        Command::Serve { asked } => serve(alloc, rt, &asked, files, doors, disks),
        Command::Exercise { requests } => exercise(alloc, rt, requests),
        Command::Migrate { clients } => migrate(alloc, &clients, files),
    }
}

// The outcome of words that were not read into a command.
fn no_outcome(fault: WordsFault) -> Outcome
    ensures { result ≡ no_command fault }
{
    match fault {
        WordsFault::Usage => Outcome::Usage,
        WordsFault::Memory => Outcome::Memory,
    }
}

// Does what words ask for, and gives what that came to.
fn answer_words<Rt: Threads + Wait + Sync, F: Files, D: Doors, J: Disks>(
    alloc: Global,
    rt: &Rt,
    words: &[Text],
    files: &mut F,
    doors: &mut D,
    disks: &mut J,
) -> Outcome
    requires idle { D.running doors.old ≡ 0 }
    requires disks_idle { J.running disks.old ≡ 0 }
    ensures { ComeTo words.now (files_call F.Files files.old files.new)
        (outside_call (doors_call D.Doors doors.old doors.new) (disks_call J.Disks disks.old disks.new)) result }
{
    match command_of(alloc, words) {
        Ok(command) => outcome_of(alloc, rt, command, files, doors, disks),
        Err(fault) => no_outcome(fault),
    }
}

/// Does what the words after the program's name say, and gives the status to end with. No doors run and no disk is open before, and
/// none after: a command that serves stops the doors that it started, and shuts the disk that it opened. It may wait for the steps of other workers.
pub fn run<Rt: Threads + Wait + Sync, F: Files, D: Doors, J: Disks, K: Sink, E: Sink>(
    rt: &Rt,
    alloc: Global,
    words: &[Text],
    files: &mut F,
    doors: &mut D,
    disks: &mut J,
    out: &mut K,
    err: &mut E,
) -> u8
    requires idle { D.running doors.old ≡ 0 }
    requires disks_idle { J.running disks.old ≡ 0 }
    ensures { Runs words.now result (files_call F.Files files.old files.new)
        (outside_call (doors_call D.Doors doors.old doors.new) (disks_call J.Disks disks.old disks.new))
        (stream_told K.Sink out.old out.new)
        (stream_told E.Sink err.old err.new) }
{
    let outcome = answer_words(alloc, rt, words, files, doors, disks);
    finish(outcome, out, err)
}

/// Ends without a command, and gives the status: that of a wrong use, or that of want of memory.
pub fn end_without_command<K: Sink, E: Sink>(fault: WordsFault, out: &mut K, err: &mut E) -> u8
    ensures { Ends (no_command fault) result (stream_told K.Sink out.old out.new)
        (stream_told E.Sink err.old err.new) }
{
    finish(no_outcome(fault), out, err)
}
