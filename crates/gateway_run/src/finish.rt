//! How the program ends: what is written of an outcome, and the status.

ghost use Rattle.std.specs.Prelude.{◌≡◌, ◌≤◌, ◌⊎◌, OnOk, OnErr};
ghost use Rattle.std.specs.Io.KnownBytes.{Appends};
ghost use Rattle.outside.specs.Faults.{Rose};
ghost use Rattle.outside.specs.Contents.{AppendsFront};
ghost use Rattle.account_commands.specs.PassedOn.{line, file_text};
ghost use Rattle.gateway_run.specs.Texts.{usage_text, version_text, door_text};
ghost use Rattle.gateway_run.specs.Endings.{stream_told, Writes, Mentions, EndsServed, audit_status, Ends};

use account_commands::{
    DONE, DOOR_FAILED, FILE_FAILED, NO_MEMORY, Outcome, REFUSED, STREAM_FAILED, USAGE,
};
use gql_base::Text;
use outside::{Sink, WriteFault, write_whole};

/// How the program is used.
#[tactic(auto, unfolding(crate::specs::Texts::usage_text))]
pub(crate) fn usage_text() -> &'static [u8]
    ensures { result.now ≡ usage_text }
{
    b"usage: tellcrock check SCHEMA
  prints how many types and fields a schema has, or which test it doesn't pass
usage: tellcrock price SCHEMA DOCUMENT [--variables FILE] [--operation NAME] [--unsized N] [--most-work N]
  prints the greatest type cost and the greatest field cost that a response can have
usage: tellcrock explain SCHEMA DOCUMENT [--variables FILE] [--operation NAME] [--unsized N] [--most-work N]
  prints what each node of an operation adds to its price, or why it is refused, where, and what helps
usage: tellcrock explain SCHEMA [--unsized N]
  prints what surprises in a schema where it is served, or why it is refused, where, and what helps
usage: tellcrock audit SCHEMA DOCUMENT.. [--variables-none] [--most TYPES FIELDS] [--unsized N] [--most-work N]
  prints what each operation of documents costs at most, or why it is refused, and whether all pass
usage: tellcrock introspect SCHEMA DOCUMENT [--variables FILE] [--operation NAME] [--most-work N]
  prints what the answer to an operation that asks for the schema costs, and the answer
usage: tellcrock worst SCHEMA DOCUMENT types|fields [--variables FILE] [--operation NAME] [--unsized N] [--most-work N]
  prints a response that costs as much as any
usage: tellcrock forward SCHEMA DOCUMENT [--variables FILE] [--operation NAME] [--unsized N] [--most-work N]
  prints the request that is sent on for an operation
usage: tellcrock meter SCHEMA DOCUMENT REPLY [--variables FILE] [--operation NAME] [--unsized N] [--most-work N]
  prints what a reply cost, and the answer for its client
usage: tellcrock replay SCHEMA CLIENTS SCRIPT [--trusted FILE [--trusted-only]] [--unsized N] [--most-work N]
  prints what becomes of each request of a script, and of the clients' accounts
usage: tellcrock serve SCHEMA CLIENTS --listen ADDR --upstream ADDR [--target PATH] [--workers N] [--connections N | --endless] [--idle N] [--stop FILE] [--journal FILE] [--trusted FILE [--trusted-only]] [--pass NAME].. [--hints] [--most-answer BYTES] [--unsized N] [--most-work N]
  serves clients over HTTP within their budgets, and forwards what they cover; prints the accounts at the end
usage: tellcrock exercise N
  prints a summary of a replay of N requests of one client
usage: tellcrock migrate CLIENTS
  prints a client file in the newest version of its format
usage: tellcrock --help
usage: tellcrock --version"
}

/// The program and its version.
pub(crate) fn version_text() -> &'static [u8]
    ensures { result.now ≡ version_text }
{
    b"tellcrock 1.0"
}

// What is said of doors that were not started, or of which one failed.
fn door_text() -> &'static [u8]
    ensures { result.now ≡ door_text }
{
    b"door"
}

// Writes a text and its line end.
fn write_line<K: Sink>(to: &mut K, text: &[u8]) -> Result<(), WriteFault>
    ensures whole { OnOk result (Appends (K.written to.old) (K.written to.new) (line text.now)) }
    ensures count { K.faults to.old ≤ K.faults to.new }
    ensures cause { OnErr result (Rose (K.faults to.old) (K.faults to.new)) }
    ensures front { OnErr result (AppendsFront (K.written to.old) (K.written to.new) (line text.now)) }
{
    write_whole(to, text)?;
    write_whole(to, b"\n")
}

// Writes a line, and gives the status, or `STREAM_FAILED` where the stream failed.
fn write_or_fail<K: Sink>(to: &mut K, text: &[u8], status: u8) -> u8
    ensures { Writes (line text.now) status result (stream_told K.Sink to.old to.new) }
{
    match write_line(to, text) {
        Ok(()) => status,
        Err(WriteFault) => STREAM_FAILED,
    }
}

// Writes `file ` and the name of a file, and a line end.
fn write_name<E: Sink>(to: &mut E, name: &[u8]) -> Result<(), WriteFault>
    ensures whole { OnOk result (Appends (E.written to.old) (E.written to.new) (line (file_text name.now))) }
    ensures cause { OnErr result (Rose (E.faults to.old) (E.faults to.new)) }
    ensures front { OnErr result (AppendsFront (E.written to.old) (E.written to.new) (line (file_text name.now))) }
{
    write_whole(to, b"file ")?;
    write_line(to, name)
}

// Names a file that was not read. The status stays where the stream fails.
fn mention_file<E: Sink>(err: &mut E, name: &[u8]) -> u8
    ensures { Mentions (line (file_text name.now)) FILE_FAILED result (stream_told E.Sink err.old err.new) }
{
    match write_name(err, name) {
        Ok(()) | Err(WriteFault) => FILE_FAILED,
    }
}

// Says how the program is used. The status stays where the stream fails.
fn mention_usage<E: Sink>(err: &mut E) -> u8
    ensures { Mentions (line usage_text) USAGE result (stream_told E.Sink err.old err.new) }
{
    match write_line(err, usage_text()) {
        Ok(()) | Err(WriteFault) => USAGE,
    }
}

// The status of an audit.
fn audit_status(passed: bool) -> u8
    ensures { result ≡ audit_status passed }
{
    if passed { DONE } else { REFUSED }
}

// Writes the closing lines, and then says so where a door failed.
fn write_served<K: Sink, E: Sink>(lines: &[u8], failed: bool, out: &mut K, err: &mut E) -> u8
    ensures { EndsServed lines.now failed result (stream_told K.Sink out.old out.new)
        (stream_told E.Sink err.old err.new) }
{
    if !failed {
        return write_or_fail(out, lines, DONE);
    }
    match write_line(out, lines) {
        Ok(()) => write_or_fail(err, door_text(), DOOR_FAILED),
        Err(WriteFault) => STREAM_FAILED,
    }
}

/// Writes what a command came to, and gives the status to end with.
pub fn finish<K: Sink, E: Sink>(outcome: Outcome, out: &mut K, err: &mut E) -> u8
    ensures { Ends outcome result (stream_told K.Sink out.old out.new)
        (stream_told E.Sink err.old err.new) }
{
    match outcome {
        Outcome::Done(output) => write_or_fail(out, output.as_slice(), DONE),
        Outcome::Refused(text) => write_or_fail(err, text.as_bytes(), REFUSED),
        Outcome::FileFailed(name) => mention_file(err, name.as_bytes()),
        Outcome::Faulty { status, text } => write_or_fail(err, text.as_bytes(), status),
        Outcome::Audited { lines, passed } => {
            write_or_fail(out, lines.as_slice(), audit_status(passed))
        }
        Outcome::Served { lines, failed } => write_served(lines.as_slice(), failed, out, err),
        Outcome::NotStarted => write_or_fail(err, door_text(), DOOR_FAILED),
        Outcome::Usage => mention_usage(err),
        Outcome::Memory => NO_MEMORY,
    }
}
