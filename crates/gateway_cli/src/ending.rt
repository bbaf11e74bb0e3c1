//! What the process ends with.

ghost use Rattle.std.specs.Prelude.{◌≡◌, ◌≤◌, option_map, string_bytes};
ghost use Rattle.std.specs.Duration.{as_nanos};
ghost use Rattle.std.specs.Process.{exit_status};
ghost use Rattle.gateway_run.specs.Endings.{stream_told, Ends};
ghost use Rattle.gateway_run.specs.Serve.{doors_call, disks_call, outside_call};
ghost use Rattle.gateway_run.specs.Program.{files_call, no_command, Runs};
ghost use Rattle.gateway_cli.specs.Entering.{AreDoorsFor, ComesToEnd};

use crate::entering::doors_for;
use doors::{Doors, TcpDoors};
use gateway_run::{
    DISK_FAILED, WordsFault, a_status_says_what_was_done, command_of, end_without_command, run,
};
use gql_base::Text;
use journal_disk::{Disks, StdDisks};
use outside::{Files, Sink, StdFiles};
use std::alloc::Global;
use std::process::ExitCode;
use std::sync::Wait;
use std::thread::Threads;

/// Ends without a command, since its words could not be had: with the status of that fault, and what was written of it.
pub(crate) fn end_for<K: Sink, E: Sink>(fault: WordsFault, out: &mut K, err: &mut E) -> ExitCode
    ensures ends { Ends (no_command fault) (exit_status result) (stream_told K.Sink out.old out.new)
        (stream_told E.Sink err.old err.new) }
    ensures known { exit_status result ≤ DISK_FAILED }
{
    ExitCode::from(end_without_command(fault, out, err))
}

// Does what words ask for, over doors that were made for them, and ends with the status of that run.
fn end_run<Rt: Threads + Wait + Sync, F: Files, J: Disks, K: Sink, E: Sink>(
    rt: &Rt,
    alloc: Global,
    words: &[Text],
    files: &mut F,
    doors: &mut TcpDoors<HostRuntime>,
    disks: &mut J,
    out: &mut K,
    err: &mut E,
) -> ExitCode
    requires idle { ⟦<TcpDoors<HostRuntime> as Doors>⟧.running doors.old ≡ 0 }
    requires disks_idle { J.running disks.old ≡ 0 }
    requires such { AreDoorsFor words.now doors.old.waiting (option_map string_bytes doors.old.stop_file) (as_nanos doors.old.patience) }
    ensures ran { Runs words.now (exit_status result) (files_call F.Files files.old files.new)
        (outside_call (doors_call ⟦<TcpDoors<HostRuntime> as Doors>⟧ doors.old doors.new) (disks_call J.Disks disks.old disks.new))
        (stream_told K.Sink out.old out.new)
        (stream_told E.Sink err.old err.new) }
    ensures known { exit_status result ≤ DISK_FAILED }
{
    a_status_says_what_was_done();
    ExitCode::from(run(rt, alloc, words, files, doors, disks, out, err))
}

/// Ends with the status of what words ask for. What they are run over is made here, over the system: its files and disks, and doors for
/// these words. Its workers are threads of `rt`.
pub(crate) fn end<Rt: Threads + Wait + Sync, K: Sink, E: Sink>(
    rt: &Rt,
    system: &HostRuntime,
    alloc: Global,
    words: &[Text],
    out: &mut K,
    err: &mut E,
) -> ExitCode
    ensures ends { ComesToEnd ⟦<StdFiles<HostRuntime> as Files>⟧ ⟦<TcpDoors<HostRuntime> as Doors>⟧ ⟦<StdDisks<HostRuntime> as Disks>⟧
        (λ texts doors. AreDoorsFor texts doors.waiting (option_map string_bytes doors.stop_file) (as_nanos doors.patience)) words.now (exit_status result)
        (stream_told K.Sink out.old out.new) (stream_told E.Sink err.old err.new) }
    ensures known { exit_status result ≤ DISK_FAILED }
{
    let Ok(for_files) = system.clone() else {
        return end_for(WordsFault::Memory, out, err);
    };
    let Ok(for_disks) = system.clone() else {
        return end_for(WordsFault::Memory, out, err);
    };
    let Ok(for_doors) = system.clone() else {
        return end_for(WordsFault::Memory, out, err);
    };
    let mut files = StdFiles::new(for_files);
    let mut disks = StdDisks::new(for_disks);
    let command = command_of(alloc, words);
    match doors_for(for_doors, alloc, &command) {
        Ok(mut doors) => end_run(
            rt, alloc, words, &mut files, &mut doors, &mut disks, out, err,
        ),
        Err(fault) => end_for(fault, out, err),
    }
}
