//! The files that commands read.

ghost use Rattle.std.specs.Prelude.{◌≡◌, ◌≤◌, ℕ, List, IfOk, IfErr, OnOk};
ghost use Rattle.outside.specs.Faults.{Rose, StayAll};
ghost use Rattle.command_outcomes.specs.Reading.{IsRead, IsText, IsTextOf, IsNoText, HasNoText};
ghost use Rattle.command_outcomes.specs.Outcomes.{files_told, IsStopped};

use crate::outcome::Outcome;
use crate::texts::refused_naming;
use gql_base::Text;
use outside::{FileFault, Files};
use std::alloc::Global;

/// Reads the file of a name, of a longer one the limit and one byte.
pub fn read_file<F: Files>(
    alloc: Global,
    name: Text,
    limit: usize,
    files: &mut F,
) -> Result<Vec<u8>, Outcome>
    ensures read { IfOk result (λ read. IsRead limit (F.content files.old name) read.items) }
    ensures same { F.content files.new ≡ F.content files.old }
    ensures count { (other : List ℕ) → F.faults files.old other ≤ F.faults files.new other }
    ensures still { OnOk result (StayAll (F.faults files.old) (F.faults files.new)) }
    ensures stopped { IfErr result (IsStopped (λ other. other ≡ name)
        (files_told (F.content files.old) (F.faults files.old) (F.faults files.new))) }
{
    match files.read(alloc, name.as_str(), limit) {
        Ok(read) => Ok(read),
        Err(FileFault::Failed) => Err(Outcome::FileFailed(name)),
        Err(FileFault::Memory) => Err(Outcome::Memory),
    }
}

// The text that the bytes of a file are.
fn text_in(alloc: Global, name: &Text, limit: usize, read: Vec<u8>) -> Result<Text, Outcome>
    ensures text { IfOk result (λ text. (text ≡ read.items) × IsText limit read.items) }
    ensures refused { IfErr result (IsNoText limit name.now read.items) }
{
    if read.len() > limit {
        return Err(refused_naming(alloc, "input 1 TooLarge", name));
    }
    match Text::from_utf8(read) {
        Ok(text) => Ok(text),
        Err(_) => Err(refused_naming(alloc, "input 2 NotText", name)),
    }
}

/// The text that a file holds.
pub fn read_text<F: Files>(
    alloc: Global,
    name: &Text,
    limit: usize,
    files: &mut F,
) -> Result<Text, Outcome>
    ensures held { IfOk result (IsTextOf limit (F.content files.old name.now)) }
    ensures same { F.content files.new ≡ F.content files.old }
    ensures count { (other : List ℕ) → F.faults files.old other ≤ F.faults files.new other }
    ensures still { OnOk result (StayAll (F.faults files.old) (F.faults files.new)) }
    ensures none { IfErr result (HasNoText limit name.now (files_told (F.content files.old) (F.faults files.old) (F.faults files.new))) }
{
    let Ok(own) = Text::copy_of(alloc, name.as_str()) else {
        return Err(Outcome::Memory);
    };
    match read_file(alloc, own, limit, files) {
        Ok(read) => text_in(alloc, name, limit, read),
        Err(outcome) => Err(outcome),
    }
}
