//! Files of version 2, and the migration of older files to them.

ghost use Rattle.std.specs.Prelude.{◌≡◌, ◌++◌, ◌≤◌, ℕ, List, IfOk, IfErr, OnOk, string_bytes};
ghost use Rattle.std.specs.List.{flat_map};
ghost use Rattle.cost_num.specs.CostText.{cost_text};
ghost use Rattle.client_files.specs.Lines.{lines_of, ended};
ghost use Rattle.client_files.specs.ClientFiles.{IsClientFile, MayBeNamed, MayBeServed};
ghost use Rattle.client_files.specs.Faults.{IsFirstFault, IsFault};
ghost use Rattle.client_files.specs.Readings.{GivesText, Tells};
ghost use Rattle.client_files.specs.Written.{client_line, client_file, Migrates};
ghost use Rattle.client_files.specs.declared.client.Client as client_type;
ghost use Rattle.client_files.specs.declared.fault.ClientsFault as fault_type;

use crate::client::{Client, Clients};
use crate::fault::ClientsFault;
use crate::reading::read_clients;
use cost_num::{CAP, Cost, cost_bytes};
use gql_base::Text;
use std::alloc::{AllocError, Global};

/// The file of version 2 for the window and the clients of a file, each allowance as a cost is printed, and each line
/// ended.
///
/// It refuses what `read_clients` refuses, with the same faults. The result is a file of the same window and the same
/// clients, and where it is migrated again it stays as it is.
pub fn migrate_clients(alloc: Global, text: &str) -> Result<Text, ClientsFault>
    ensures migrated { IfOk result (λ file. Migrates text.now file) }
    ensures same { IfOk result (λ file. (seconds : ℕ) (clients : List client_type.Client) → IsClientFile text.now seconds clients → IsClientFile file seconds clients) }
    ensures stays { IfOk result (λ file. (seconds : ℕ) (clients : List client_type.Client) → IsClientFile file seconds clients → client_file seconds clients ≡ file) }
    ensures fault { IfErr result (λ fault. IsFault text.now fault) }
    ensures only_file { (seconds : ℕ) (clients : List client_type.Client) → IsClientFile text.now seconds clients → GivesText (client_file seconds clients) result }
    ensures only_fault { (fault : fault_type.ClientsFault) → IsFirstFault (lines_of text.now) fault → Tells fault result }
{
    let clients = read_clients(alloc, text)?;
    Ok(client_file(alloc, &clients)?)
}

/// The file of version 2 that names these clients. It fails for want of memory alone.
pub fn client_file(alloc: Global, clients: &Clients) -> Result<Text, AllocError>
    requires { MayBeServed clients.now.window_seconds clients.now.clients.items }
    ensures written { IfOk result (λ file. file ≡ client_file clients.now.window_seconds clients.now.clients.items) }
    ensures read { IfOk result (λ file. IsClientFile file clients.now.window_seconds clients.now.clients.items) }
{
    let seconds = clients.window_seconds;
    let mut file = format!(in alloc; "clients 2\nwindow {seconds}\n")?;
    for client in &clients.clients {
        write_client(alloc, client, &mut file)?;
    }
    Ok(Text::from(file))
}

/// Writes the line of a client behind a text.
fn write_client(alloc: Global, client: &Client, file: &mut String) -> Result<(), AllocError>
    requires { MayBeNamed client.now }
    ensures { OnOk result (string_bytes file.new ≡ string_bytes file.old ++ ended (client_line client.now)) }
{
    let allowance = text_of_cost(alloc, client.allowance)?;
    file.push_str(client.key.as_str())?;
    file.push(' ')?;
    file.push_str(allowance.as_str())?;
    if client.carry {
        file.push_str(" carry")?;
    }
    file.push('\n')?;
    Ok(())
}

/// A cost as it is printed.
fn text_of_cost(alloc: Global, cost: Cost) -> Result<Text, AllocError>
    requires types_within { cost.types ≤ CAP }
    requires fields_within { cost.fields ≤ CAP }
    ensures { IfOk result (λ text. text ≡ cost_text cost) }
{
    let mut buffer = [0u8; 48];
    let length = cost_bytes(cost, &mut buffer);
    match std::str::from_utf8(&buffer[..length]) {
        Ok(text) => Text::copy_of(alloc, text),
        Err(_) => unreachable!(),
    }
}
