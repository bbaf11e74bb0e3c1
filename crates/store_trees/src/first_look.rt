//! A look at a file before it is opened as a database, so that what can't be one of accounts gets no log beside it.

ghost use Rattle.std.specs.Prelude.{◌≡◌, ◌⊎◌, ◌↔◌, ◌≤◌, ℕ, List, length, Ok, true, false, IfErr, IsTrue, OnOk};
ghost use Rattle.store_trees.specs.Files.{IsHeader, IsMarked, MayBeAccounts, RefusesHead, Begins, HasNothing, HasContent, PassesLook, RefusesFile};

use crate::fault::OpenFault;
use outside::{FileFault, Files};
use std::alloc::Global;

/// How many bytes the header of a SQLite database has.
const HEADER: usize = 100;

const MAGIC: [u8; 16] = *b"SQLite format 3\0";

/// The mark of accounts, as the header has it.
const MARK: [u8; 4] = *b"TCK1";

/// The user version has its place in the header.
const VERSION_AT: usize = 60;

fn is_header(head: &[u8]) -> bool
    ensures { IsTrue result ↔ IsHeader head.now }
{
    head.len() >= HEADER && &head[..MAGIC.len()] == MAGIC.as_slice()
}

fn is_marked(head: &[u8]) -> bool
    requires { 100 ≤ length head.now }
    ensures { IsTrue result ↔ IsMarked head.now }
{
    &head[VERSION_AT..VERSION_AT + MARK.len()] == MARK.as_slice()
}

// What the first bytes of a file tell that has no log beside it: all that was committed is in it then.
fn judge(head: &[u8]) -> Result<(), OpenFault>
    ensures fine { OnOk result (MayBeAccounts head.now) }
    ensures refused { IfErr result (RefusesHead head.now) }
{
    if head.is_empty() {
        return Ok(());
    }
    if !is_header(head) {
        return Err(OpenFault::NoDatabase);
    }
    if !is_marked(head) {
        return Err(OpenFault::Foreign);
    }
    Ok(())
}

// Whether a log has something in it. One that can't be read counts as none.
fn has_log<F: Files>(files: &mut F, alloc: Global, log: &str) -> Result<bool, OpenFault>
    ensures some { result ≡ Ok true → HasContent (F.content files.old log.now) }
    ensures none { result ≡ Ok false → HasNothing (F.content files.old log.now) (F.faults files.old log.now) (F.faults files.new log.now) }
    ensures memory { IfErr result (λ e. e ≡ OpenFault.OutOfMemory) }
    ensures same { F.content files.new ≡ F.content files.old }
    ensures count { (name : List ℕ) → F.faults files.old name ≤ F.faults files.new name }
{
    match files.read(alloc, log, 0) {
        Ok(found) => Ok(!found.is_empty()),
        Err(FileFault::Failed) => Ok(false),
        Err(FileFault::Memory) => Err(OpenFault::OutOfMemory),
    }
}

// Judges a file by its first bytes.
fn judge_file<F: Files>(files: &mut F, alloc: Global, path: &str) -> Result<(), OpenFault>
    ensures fine { OnOk result (PassesLook (F.content files.old path.now) (F.faults files.old path.now) (F.faults files.new path.now)) }
    ensures refused { IfErr result (λ e. (e ≡ OpenFault.OutOfMemory) ⊎ Begins (F.content files.old path.now) (λ head. RefusesHead head e)) }
    ensures count { (name : List ℕ) → F.faults files.old name ≤ F.faults files.new name }
{
    match files.read(alloc, path, HEADER - 1) {
        Ok(head) => {
            judge(&head)?;
            Ok(())
        }
        Err(FileFault::Failed) => Ok(()),
        Err(FileFault::Memory) => Err(OpenFault::OutOfMemory),
    }
}

/// Looks at the first bytes of the file `path`, beside which the file `log` may stand. Where that has something in it, nothing is told.
///
/// # Errors
///
/// `OpenFault::NoDatabase` where they aren't those of a SQLite database, `OpenFault::Foreign` where it hasn't the mark of accounts, and
/// `OpenFault::OutOfMemory`. A file that can't be read is left to whoever opens it.
pub fn look<F: Files>(files: &mut F, alloc: Global, path: &str, log: &str) -> Result<(), OpenFault>
    ensures fine { OnOk result (HasContent (F.content files.old log.now)
        ⊎ PassesLook (F.content files.old path.now) (F.faults files.old path.now) (F.faults files.new path.now)) }
    ensures refused { IfErr result (RefusesFile (F.content files.old log.now) (F.faults files.old log.now) (F.faults files.new log.now) (F.content files.old path.now)) }
{
    if has_log(files, alloc, log)? {
        return Ok(());
    }
    judge_file(files, alloc, path)?;
    Ok(())
}
