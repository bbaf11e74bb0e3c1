//! Files that are read whole, and the form of them in memory.

ghost use Rattle.std.specs.Prelude.{◌≡◌, ◌↔◌, ◌+◌, ◌≤◌, ℕ, List, Option, IfOk, OnOk, IfSome, IsErrOf, find, take, vec_len};
ghost use Rattle.std.specs.Option.{option_copied};
ghost use Rattle.outside.specs.Faults.{Rose, StayAll, ChangesAlone, next_count};
ghost use Rattle.outside.specs.Contents.{content_of, has_name, Fails};

use crate::failures::Failures;
use std::alloc::Global;
use thiserror::Error;

/// Why a file was not read.
#[derive(Clone, Copy, Debug, Drop, PartialEq, Eq, Error)]
pub enum FileFault {
    /// It could not be read. The count of its name's faults rose.
    #[error("the file could not be read")]
    Failed,
    /// There was no memory for its content.
    #[error("there was not enough memory for the file")]
    Memory,
}

/// Files by their names.
pub trait Files {
    /// The content of the file of a name, where the object tells it.
    ghost content: { Self → List ℕ → Option (List ℕ) };
    /// The count of faults of the file of a name, which never falls. One count may stand for several names.
    ghost faults: { Self → List ℕ → ℕ };

    /// The content of the file `name`, or its first `limit` + 1 bytes where it is longer.
    fn read(&mut self, alloc: Global, name: &str, limit: usize) -> Result<Vec<u8>, FileFault>
        ensures bytes { IfOk result (λ read. IfSome (content self.old name.now)
            (λ whole. read.items ≡ take (limit + 1) whole)) }
        ensures most { IfOk result (λ read. vec_len read ≤ limit + 1) }
        ensures same { content self.new ≡ content self.old }
        ensures count { (other : List ℕ) → faults self.old other ≤ faults self.new other }
        ensures cause { IsErrOf result FileFault.Failed → Rose (faults self.old name.now) (faults self.new name.now) }
        ensures alone { ChangesAlone name.now (faults self.old) (faults self.new) }
        ensures still { OnOk result (StayAll (faults self.old) (faults self.new)) }
        ensures memory { IsErrOf result FileFault.Memory → StayAll (faults self.old) (faults self.new) };
}

/// A file in memory.
#[derive(Drop)]
pub struct MemFile {
    pub name: String,
    pub content: Vec<u8>,
}

/// Files in memory. They tell what they hold, and have one count of faults for all names.
#[derive(Drop)]
pub struct MemFiles {
    pub files: Vec<MemFile>,
    /// The calls so far, and those that are to fail.
    pub failures: Failures,
    /// The count of faults: of calls that were to fail, and of names that no file has.
    pub faults: u64,
}

impl MemFiles {
    /// These files, without a fault so far, and with these failures to come.
    pub fn new(files: Vec<MemFile>, failures: Failures) -> MemFiles
        ensures files { result.files ≡ files }
        ensures failures { result.failures ≡ failures }
        ensures faults { result.faults ≡ 0 }
    {
        MemFiles {
            files,
            failures,
            faults: 0,
        }
    }

    // The content of the first file of this name.
    fn find(&self, name: &str) -> Option<&MemFile>
        ensures { option_copied result ≡ find (has_name name.now) self.now.files.items }
    {
        self.files.iter().find(|file| file.name.as_str() == name)
    }
}

// The first `limit` + 1 bytes of `content`, or all of it where it is shorter.
fn first_bytes(alloc: Global, content: &[u8], limit: usize) -> Result<Vec<u8>, FileFault>
    ensures bytes { IfOk result (λ read. read.items ≡ take (limit + 1) content.now) }
    ensures failed { ¬ IsErrOf result FileFault.Failed }
{
    let most = limit.saturating_add(1).min(content.len());
    match Vec::from_slice(alloc, &content[..most]) {
        Ok(read) => Ok(read),
        Err(_) => Err(FileFault::Memory),
    }
}

impl Files for MemFiles {
    ghost content = { λ files. content_of files.files.items };

    ghost faults = { λ files name. files.faults };

    // It fails exactly where this call was to fail, or no file has the name.
    fn read(&mut self, alloc: Global, name: &str, limit: usize) -> Result<Vec<u8>, FileFault>
        ensures bytes { IfOk result (λ read. IfSome (content_of self.old.files.items name.now)
            (λ whole. read.items ≡ take (limit + 1) whole)) }
        ensures most { IfOk result (λ read. vec_len read ≤ limit + 1) }
        ensures same { content_of self.new.files.items ≡ content_of self.old.files.items }
        ensures count { self.old.faults ≤ self.new.faults }
        ensures cause { IsErrOf result FileFault.Failed → Rose self.old.faults self.new.faults }
        ensures still { OnOk result (self.new.faults ≡ self.old.faults) }
        ensures memory { IsErrOf result FileFault.Memory → self.new.faults ≡ self.old.faults }
        ensures fails { IsErrOf result FileFault.Failed ↔ Fails self.old.failures.failing.items
            self.old.failures.calls (content_of self.old.files.items name.now) }
        ensures calls { self.new.failures.calls ≡ next_count self.old.failures.calls }
    {
        let fails = self.failures.next_fails();
        match self.find(name) {
            Some(file) if !fails => first_bytes(alloc, &file.content, limit),
            _ => {
                self.faults = self.faults.saturating_add(1);
                Err(FileFault::Failed)
            }
        }
    }
}
