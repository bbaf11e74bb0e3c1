//! Serving over a journal, and what is told of it.

ghost use Rattle.std.specs.Prelude.{IfOk, All, codes};
ghost use Rattle.account_commands.specs.PassedOn.{IsRefusedAs, IsFaultyAs};
ghost use Rattle.gateway_serving.specs.PassedOn.{IsSettledWithin, IsCarriedWithin};
ghost use Rattle.gateway_run.specs.Serve.{damaged_text, IsKeptTold};

use crate::closing::kept_closing_lines;
use account_commands::{DISK_FAILED, Outcome};
use client_files::Client;
use gql_base::Text;
use journal_serving::{KeptEnd, KeptFault};
use std::alloc::Global;

/// What is said of a disk that was not opened, or on which a call failed.
pub const DISK_TEXT: &str = "disk";

// The outcome of a refusal with this text.
fn refused_as(alloc: Global, text: &str) -> Outcome
    ensures { IsRefusedAs text.now result }
{
    match Text::copy_of(alloc, text) {
        Ok(text) => Outcome::Refused(text),
        Err(_) => Outcome::Memory,
    }
}

// The outcome of a journal with a damaged slot.
fn damaged(alloc: Global, slot: u64) -> Outcome
    ensures { IsRefusedAs (damaged_text slot) result }
{
    match format!(in alloc; "journal 3 Damaged {slot}") {
        Ok(text) => Outcome::Refused(Text::from(text)),
        Err(_) => Outcome::Memory,
    }
}

// The outcome of a disk that failed.
fn disk_failed(alloc: Global) -> Outcome
    ensures { IsFaultyAs DISK_FAILED (codes "disk") result }
{
    match Text::copy_of(alloc, DISK_TEXT) {
        Ok(text) => Outcome::Faulty {
            status: DISK_FAILED,
            text,
        },
        Err(_) => Outcome::Memory,
    }
}

/// The outcome of what serving clients over a journal came to.
pub(crate) fn kept_told(
    alloc: Global,
    clients: &[Client],
    came_to: Result<KeptEnd, KeptFault>,
) -> Outcome
    requires settled { IfOk came_to (λ end. All IsSettledWithin end.accounts.items) }
    requires carried { IfOk came_to (λ end. All IsCarriedWithin end.accounts.items) }
    ensures { IsKeptTold clients.now came_to result }
{
    match came_to {
        Ok(end) => match kept_closing_lines(alloc, clients, &end) {
            Ok(lines) => Outcome::Served {
                lines,
                failed: end.done.faults > 0,
            },
            Err(_) => Outcome::Memory,
        },
        Err(KeptFault::Disk) => disk_failed(alloc),
        Err(KeptFault::OtherClients) => refused_as(alloc, "journal 2 OtherClients"),
        Err(KeptFault::Damaged { slot }) => damaged(alloc, slot),
        Err(KeptFault::NotStarted) => Outcome::NotStarted,
        Err(KeptFault::Memory) => Outcome::Memory,
    }
}
