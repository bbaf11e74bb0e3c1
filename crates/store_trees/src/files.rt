//! A file of accounts: made where there is none, and opened where it is one of these accounts.

ghost use Rattle.std.specs.Prelude.{IfOk};
ghost use Rattle.sqlite_wal.specs.Files.{image_at};
ghost use Rattle.sqlite_store.specs.FileStore.{view, recovers, is_shielded};
ghost use Rattle.sqlite_trees.specs.Tree.{Trees};
ghost use Rattle.sqlite_trees.specs.View.{IsClean};
ghost use Rattle.store_trees.specs.Tables.{steps_found};
ghost use Rattle.store_trees.specs.Keeping.{HasFound};
ghost use Rattle.store_trees.specs.Opening.{IsFoundOrMade, Shows};
ghost use Rattle.store_trees.specs.Files.{WasIn};

use crate::fault::{OpenFault, sql_fault};
use crate::first_look::look;
use crate::keeping::TreeKeeper;
use crate::opening::{Found, opened};
use outside::StdFiles;
use sqlite::{Connection, FileFrom, FileStore, Start};
use std::rt::HostRuntime;

// The fault alone. The store is shut.
fn fault_alone<S: Drop>(refused: (OpenFault, S)) -> OpenFault {
    let (fault, _store) = refused;
    fault
}

// Looks at a file of the system, and at its log.
fn look_at(rt: &HostRuntime, path: &str) -> Result<(), OpenFault> {
    let log = format!(in rt.alloc(); "{path}-wal")?;
    let Ok(held) = rt.clone() else {
        return Err(OpenFault::CannotOpen);
    };
    let mut files = StdFiles::new(held);
    look(&mut files, rt.alloc(), path, log.as_str())
}

/// Opens a file of accounts whose windows have so many seconds, and makes it where there is none. Beside it the database has a log under the same name with `-wal`.
/// New files end each page in a sum of its bytes. Nothing else may write the files while the keeper lives, and the system refuses a second one.
///
/// # Errors
///
/// `OpenFault`, which says what the file is where it isn't one of these accounts. What was committed in it stays.
pub fn open<S: Start>(
    rt: &HostRuntime,
    path: &str,
    start: S,
    seconds: u32,
) -> Result<(TreeKeeper<FileStore<FileFrom<S>>>, Found), OpenFault>
    ensures found { IfOk result (λ it. IsClean (view it.0.store) → (was : Trees) × WasIn (image_at S.Start) was × IsFoundOrMade was (view it.0.store).trees seconds) }
    ensures shows { IfOk result (λ it. IsClean (view it.0.store) → Shows (view it.0.store).trees seconds it.1.accounts.items it.1.grants.items) }
    ensures left { IfOk result (λ it. IsClean (view it.0.store) → HasFound (view it.0.store) (recovers it.0.store) (steps_found it.1.accounts.items it.1.grants.items)) }
    ensures guarded { IfOk result (λ it. IsClean (view it.0.store) → is_shielded it.0.store) }
{
    look_at(rt, path)?;
    let conn = match Connection::open_from(rt, path, true, start) {
        Ok(conn) => conn,
        Err((error, _)) => return Err(sql_fault(error)),
    };
    match opened(rt.alloc(), conn.into_store(), seconds) {
        Ok(it) => Ok(it),
        Err(refused) => Err(fault_alone(refused)),
    }
}
