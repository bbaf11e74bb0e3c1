//! On which files a journal is opened.

ghost use Rattle.std.specs.Prelude.{◌≡◌};
ghost use Rattle.journal_disk.specs.Beginnings.{may_be_journal};

/// How many bytes of a file tell whether it may be that of a journal: the most that its making leaves, and one more.
pub(crate) const FRONT: usize = 66;

/// Whether a file with these bytes may be that of a journal: it has an open gate at its front, or is empty, or its making was cut short.
pub fn may_be_journal(file: &[u8]) -> bool
    ensures { result ≡ may_be_journal file.now }
{
    match file.first() {
        None => true,
        Some(gate) => *gate == 1 || (*gate == 0 && file.len() <= 65),
    }
}
