//! Reading a client file.

ghost use Rattle.std.specs.Prelude.{◌≡◌, ◌∷◌, ℕ, List, IfOk, IfErr, map};
ghost use Rattle.client_files.specs.Lines.{lines_of};
ghost use Rattle.client_files.specs.Headings.{version_line, IsWindowLine};
ghost use Rattle.client_files.specs.ClientFiles.{AreFileLines, IsClientFile, MayBeServed};
ghost use Rattle.client_files.specs.Faults.{IsFirstFault, IsFault, IsFaultOf};
ghost use Rattle.client_files.specs.Fronts.{IsFront, AreServed};
ghost use Rattle.client_files.specs.Readings.{Gives, Tells};
ghost use Rattle.client_files.specs.declared.client.Client as client_type;
ghost use Rattle.client_files.specs.declared.fault.ClientsFault as fault_type;

use crate::client::{CLIENT_LIMIT, Client, Clients};
use crate::client_line::client_in;
use crate::fault::ClientsFault;
use crate::heading::{Version, version_in, window_in};
use crate::line::{line_count, parts_of};
use gql_base::first_repeated;
use std::alloc::{AllocError, Global};

/// The number of the line that names the first client.
const FIRST_CLIENT_LINE: usize = 3;

/// Reads a client file.
///
/// Of a text that is none it tells the fault of the first line at fault, and on one line the first in the order of
/// `ClientsFault`. It takes time in proportion to the text, and for the keys of the at most 1,001 clients that it looks at
/// that of a search tree. Where there is no memory it may tell that.
pub fn read_clients(alloc: Global, text: &str) -> Result<Clients, ClientsFault>
    ensures file { IfOk result (λ read. IsClientFile text.now read.window_seconds read.clients.items) }
    ensures served { IfOk result (λ read. MayBeServed read.window_seconds read.clients.items) }
    ensures fault { IfErr result (λ fault. IsFault text.now fault) }
    ensures only_file { (seconds : ℕ) (clients : List client_type.Client) → IsClientFile text.now seconds clients → Gives seconds clients result }
    ensures only_fault { (fault : fault_type.ClientsFault) → IsFirstFault (lines_of text.now) fault → Tells fault result }
{
    let between_line_feeds = parts_of(alloc, text, '\n')?;
    let parts = between_line_feeds.as_slice();
    read_lines(alloc, &parts[..line_count(parts)])
}

/// Reads the lines of a client file.
fn read_lines(alloc: Global, lines: &[&str]) -> Result<Clients, ClientsFault>
    ensures file { IfOk result (λ read. AreFileLines (map (λ line. line.now) lines.now) read.window_seconds read.clients.items) }
    ensures fault { IfErr result (λ fault. IsFaultOf (map (λ line. line.now) lines.now) fault) }
{
    let Some((first, rest)) = lines.split_first() else {
        return Err(ClientsFault::NoClient);
    };
    let Some(version) = version_in(first) else {
        return Err(ClientsFault::BadLine { line: 1 });
    };
    let Some((second, further)) = rest.split_first() else {
        return Err(ClientsFault::NoClient);
    };
    let Some(window_seconds) = window_in(second) else {
        return Err(ClientsFault::BadLine { line: 2 });
    };
    let clients = served_clients(alloc, version, further)?;
    Ok(Clients {
        window_seconds,
        clients,
    })
}

/// The clients that lines name, where each line names one and a file may name them together.
fn served_clients(
    alloc: Global,
    version: Version,
    lines: &[&str],
) -> Result<Vec<Client>, ClientsFault>
    ensures served { IfOk result (λ clients. AreServed version (map (λ line. line.now) lines.now) clients.items) }
    ensures fault { IfErr result (λ fault. (second : List ℕ) (seconds : ℕ) → IsWindowLine second seconds → IsFaultOf (version_line version ∷ second ∷ map (λ line. line.now) lines.now) fault) }
{
    let clients = leading_clients(alloc, version, lines)?;
    if let Some(at) = first_repeated(alloc, &clients)? {
        return Err(ClientsFault::Repeated {
            line: FIRST_CLIENT_LINE + at,
        });
    }
    if clients.len() > CLIENT_LIMIT {
        return Err(ClientsFault::TooMany {
            line: FIRST_CLIENT_LINE + CLIENT_LIMIT,
        });
    }
    if clients.len() < lines.len() {
        return Err(ClientsFault::BadLine {
            line: FIRST_CLIENT_LINE + clients.len(),
        });
    }
    if clients.is_empty() {
        return Err(ClientsFault::NoClient);
    }
    Ok(clients)
}

/// The clients that the first of these lines name: up to a line that names none, and no more than one above the limit.
fn leading_clients(
    alloc: Global,
    version: Version,
    lines: &[&str],
) -> Result<Vec<Client>, AllocError>
    ensures { IfOk result (λ clients. IsFront version (map (λ line. line.now) lines.now) clients.items) }
{
    let mut clients = Vec::new(alloc);
    for line in lines {
        if clients.len() > CLIENT_LIMIT {
            return Ok(clients);
        }
        match client_in(alloc, version, line)? {
            Some(client) => clients.push(client)?,
            None => return Ok(clients),
        }
    }
    Ok(clients)
}
