//! What each status says of a run. This function does nothing: its contract is the law.

ghost use Rattle.std.specs.Prelude.{◌≡◌, ◌≢◌, ◌≤◌, ◌⊎◌, ℕ};
ghost use Rattle.command_words.specs.Words.{IsNoCommand};
ghost use Rattle.account_commands.specs.PassedOn.{NoFileFailed};
ghost use Rattle.gateway_run.specs.Endings.{IsKept};
ghost use Rattle.gateway_run.specs.Program.{EveryRunWith, NamesFile, OneFailed, PrintsOutput, PrintsRefusal, PrintsFault, TellsDoor, IsSilent};

use account_commands::{
    DISK_FAILED, DONE, DOOR_FAILED, FILE_FAILED, NO_MEMORY, NOT_RESPONSE, REFUSED, SIZE_BROKEN,
    STREAM_FAILED, USAGE,
};

/// A status is one of those in the table. Words of no command end with the status of a wrong use, or with that of memory, and
/// nothing else is a wrong use; the status of a file names one of the command's files whose count of faults rose, and with every
/// other status no count of a file's faults changed; with the status of a stream nothing is written on a stream unless its own
/// count of faults rose, but for closing lines before the line of a door; with that of memory nothing is written; with that of
/// doors the line that says so, and closing lines where doors were started; and with every other status just the text of the
/// outcome was written, whole.
pub fn a_status_says_what_was_done()
    ensures known { (status : ℕ) → EveryRunWith status (λ words files outside out err. status ≤ DISK_FAILED) }
    ensures usage { EveryRunWith USAGE (λ words files outside out err. IsNoCommand words × IsKept out) }
    ensures other_words { (status : ℕ) → EveryRunWith status (λ words files outside out err. IsNoCommand words → (status ≡ USAGE) ⊎ (status ≡ NO_MEMORY)) }
    ensures file_failed { EveryRunWith FILE_FAILED (λ words files outside out err. NamesFile words files out err) }
    ensures all_read { (status : ℕ) → status ≢ FILE_FAILED → EveryRunWith status (λ words files outside out err. NoFileFailed files) }
    ensures stream_failed { EveryRunWith STREAM_FAILED (λ words files outside out err. OneFailed words files outside out err) }
    ensures done { EveryRunWith DONE (λ words files outside out err. PrintsOutput words files outside out err) }
    ensures refused { EveryRunWith REFUSED (λ words files outside out err. PrintsRefusal words files outside out err) }
    ensures faulty { (status : ℕ) → SIZE_BROKEN ≤ status → status ≤ NOT_RESPONSE → EveryRunWith status (λ words files outside out err. PrintsFault words status files outside out err) }
    ensures disk_failed { EveryRunWith DISK_FAILED (λ words files outside out err. PrintsFault words DISK_FAILED files outside out err) }
    ensures door_failed { EveryRunWith DOOR_FAILED (λ words files outside out err. TellsDoor words files outside out err) }
    ensures no_memory { EveryRunWith NO_MEMORY (λ words files outside out err. IsSilent out err) }
{}
