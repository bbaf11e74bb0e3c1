//! A row: steps on a journal, and what is tried behind them.

use cost_num::Cost;

/// A step on a journal.
#[derive(Clone, Copy, Debug)]
pub(crate) enum Step {
    /// The journal is opened. A journal that is open is given up before, as by a crash behind its last call.
    Open,
    /// A bound is reserved for a client in a window.
    Reserve {
        client: u32,
        window: u64,
        bound: Cost,
    },
    /// The ticket that was granted so many grants ago is settled.
    Settle {
        ago: usize,
        measured: Cost,
    },
}

/// What is tried behind the steps, or in their place.
#[derive(Clone, Copy, Debug, PartialEq, Eq)]
pub(crate) enum Trial {
    /// Nothing.
    Nothing,
    /// The journal is opened after a crash at each moment of the last step, with none, half and all of each piece that was
    /// not synced.
    Crashes,
    /// The steps are played with each call on the last disk failing in turn, and the journal is opened again.
    Failures,
    /// The journal is opened on the file cut behind each of its bytes.
    Cuts,
    /// The journal is opened on the file with each byte set to each other value.
    Bytes,
    /// The journal is opened with another mark.
    OtherMark,
}

/// A row.
#[derive(Drop)]
pub(crate) struct Row {
    /// The file before the first step.
    pub(crate) file: Vec<u8>,
    pub(crate) steps: Vec<Step>,
    pub(crate) trial: Trial,
}
