//! What a command can come to, and the statuses that the program ends with.

ghost use Rattle.std.specs.Prelude.{◌≡◌};

use gql_base::Text;

/// The status of a command whose output was written whole.
pub const DONE: u8 = 0;
/// The status of a command whose input was refused.
pub const REFUSED: u8 = 1;
/// The status for words that no command takes.
pub const USAGE: u8 = 2;
/// The status of a command that could not read a file.
pub const FILE_FAILED: u8 = 3;
/// The status of a command that could not write a stream.
pub const STREAM_FAILED: u8 = 4;
/// The status of a command that found no memory.
pub const NO_MEMORY: u8 = 5;
/// The status of a reply with a list that is longer than its declared size.
pub const SIZE_BROKEN: u8 = 6;
/// The status of a reply that is no response to its operation.
pub const NOT_RESPONSE: u8 = 7;
/// The status of a command whose doors were not started, or one of them failed.
pub const DOOR_FAILED: u8 = 8;
/// The disk of a journal failed.
pub const DISK_FAILED: u8 = 9;

/// What a command came to, before anything of it is written. Its texts have no line end.
#[derive(Drop)]
pub enum Outcome {
    /// The command was done, and this is its output.
    Done(Vec<u8>),
    /// The input is refused, and the text says why.
    Refused(Text),
    /// The file of this name was not read. The count of its faults rose.
    FileFailed(Text),
    /// Something else is wrong, which has a status of its own.
    Faulty { status: u8, text: Text },
    /// An audit was done, and these are its lines. What it looked at passed whole, or not.
    Audited { lines: Vec<u8>, passed: bool },
    /// The doors were served, and these are the closing lines. A door may have failed meanwhile.
    Served { lines: Vec<u8>, failed: bool },
    /// The doors were not started. The count of their faults rose.
    NotStarted,
    /// The words are those of no command.
    Usage,
    /// There was no memory.
    Memory,
}

/// The numbers of the statuses. This function does nothing: its contract is the law.
pub fn each_status_has_its_number()
    ensures of_a_command { (DONE ≡ 0) × (REFUSED ≡ 1) × (USAGE ≡ 2) × (FILE_FAILED ≡ 3) × (STREAM_FAILED ≡ 4) × (NO_MEMORY ≡ 5) }
    ensures of_a_reply { (SIZE_BROKEN ≡ 6) × (NOT_RESPONSE ≡ 7) }
    ensures of_a_gateway { (DOOR_FAILED ≡ 8) × (DISK_FAILED ≡ 9) }
{}
