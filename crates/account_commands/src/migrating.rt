//! The command `migrate CLIENTS`.

ghost use Rattle.std.specs.Prelude.{◌≡◌, List};
ghost use Rattle.client_files.specs.FaultTexts.{fault_text};
ghost use Rattle.command_outcomes.specs.Texts.{line};
ghost use Rattle.command_outcomes.specs.Outcomes.{files_told, IsRefusedAs};
ghost use Rattle.account_commands.specs.Migrate.{IsLine, MigrateOf, MigrateCameTo};

use client_files::{ClientsFault, fault_text, migrate_clients};
use command_outcomes::{CLIENTS_LIMIT, Outcome, read_text};
use gql_base::Text;
use outside::Files;
use std::alloc::Global;

/// The outcome of a text that is no client file.
pub fn refused_clients(alloc: Global, fault: ClientsFault) -> Outcome
    ensures { IsRefusedAs (fault_text fault) result }
{
    match fault_text(alloc, fault) {
        Ok(text) => Outcome::Refused(text),
        Err(_) => Outcome::Memory,
    }
}

/// A text without the line end that it ends with.
pub fn unended(text: Text) -> Vec<u8>
    requires { IsLine text }
    ensures { line result.items ≡ text }
{
    let mut bytes = text.into_bytes();
    bytes.pop();
    bytes
}

// What the text of a client file comes to.
fn migrate_text(alloc: Global, text: &str) -> Outcome
    ensures { MigrateOf text.now result }
{
    match migrate_clients(alloc, text) {
        Ok(file) => Outcome::Done(unended(file)),
        Err(ClientsFault::Memory) => Outcome::Memory,
        Err(fault) => refused_clients(alloc, fault),
    }
}

/// Writes the client file that a file holds in the newest version of its format.
pub fn migrate<F: Files>(alloc: Global, clients: &Text, files: &mut F) -> Outcome
    ensures { MigrateCameTo clients.now (files_told (F.content files.old) (F.faults files.old) (F.faults files.new)) result }
{
    match read_text(alloc, clients, CLIENTS_LIMIT, files) {
        Ok(text) => migrate_text(alloc, text.as_str()),
        Err(outcome) => outcome,
    }
}
