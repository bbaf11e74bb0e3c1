//! What stands for clients in their journal.

ghost use Rattle.std.specs.Prelude.{◌≡◌, IfOk};
ghost use Rattle.sha2.specs.Sha256.{sha256};
ghost use Rattle.client_files.specs.ClientFiles.{MayBeServed};
ghost use Rattle.client_files.specs.Written.{client_file};

use client_files::{Clients, client_file};
use sha2::{Digest, Sha256};
use std::alloc::{AllocError, Global};

/// What stands for clients in their journal: the SHA-256 of the file, in the newest version of its format, that names them.
pub fn mark_of(alloc: Global, clients: &Clients) -> Result<[u8; 32], AllocError>
    requires { MayBeServed clients.now.window_seconds clients.now.clients.items }
    ensures { IfOk result (λ mark. mark ≡ sha256 (client_file clients.now.window_seconds clients.now.clients.items)) }
{
    let file = client_file(alloc, clients)?;
    Ok(Sha256::digest(file.as_bytes()))
}
