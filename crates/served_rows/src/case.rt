//! What rows ask for.

/// How a row is served.
#[derive(Clone, Copy, PartialEq, Eq, Drop)]
pub(crate) enum Form {
    /// Its connections one after the other, through the same passes.
    InTurn,
    /// Its connections one after the other, over the same journal.
    Kept,
    /// Its doors by workers.
    ByWorkers,
    /// Its one connection twice, at two doors, so that each waits for the other.
    Beside,
}

/// What a row changes of a connection, by a number.
#[derive(Clone, Copy, PartialEq, Eq, Drop)]
pub(crate) enum Change {
    /// The first read of the source ends after so many bytes.
    Cut,
    /// Only so many bytes come.
    Short,
    /// The first write of the wire ends after so many bytes.
    WireCut,
    /// The call of this number fails, counted from 1: a read of the source, a dial, a read or write of the wire, a write of
    /// the sink.
    Read,
    Dial,
    Transfer,
    Write,
    /// The call of this number on the journal's disk fails.
    Disk,
}

/// A number, or each in turn.
#[derive(Clone, Copy, PartialEq, Eq, Drop)]
pub(crate) enum Number {
    Is(u64),
    Each,
}

/// A change with its number.
#[derive(Clone, Copy, Drop)]
pub(crate) struct Changed {
    pub(crate) change: Change,
    pub(crate) number: Number,
}

/// A client's connection.
#[derive(Drop)]
pub(crate) struct Planned<'a> {
    /// What the client sends.
    pub(crate) sent: &'a str,
    /// What the upstream replies to the dials, the last one first.
    pub(crate) replies: Vec<&'a str>,
    /// The readings of the clock. It reads 0 after them.
    pub(crate) readings: Vec<u64>,
    pub(crate) changes: Vec<Changed>,
}

/// The numbers that each stands for, and whether they end behind the first run without a fault.
#[derive(Clone, Copy, Drop)]
pub(crate) struct Numbers {
    pub(crate) first: u64,
    pub(crate) last: u64,
    pub(crate) ends_without_fault: bool,
}

/// How many calls of a kind fail in turn at most.
const CALLS: u64 = 100;

impl Planned<'_> {
    /// Whether a row has this change.
    pub(crate) fn has(&self, change: Change) -> bool {
        self.changes.iter().any(|changed| changed.change == change)
    }

    /// The number of a change where each stands for this one, or 0.
    pub(crate) fn number_of(&self, change: Change, each: u64) -> u64 {
        for changed in &self.changes {
            if changed.change == change {
                return match changed.number {
                    Number::Is(number) => number,
                    Number::Each => each,
                };
            }
        }
        0
    }

    /// The numbers that each stands for, if it stands anywhere.
    pub(crate) fn numbers(&self) -> Option<Numbers> {
        let length = self.sent.len() as u64;
        for changed in &self.changes {
            if changed.number == Number::Each {
                return Some(numbers_of(changed.change, length));
            }
        }
        None
    }
}

// The numbers of a change to a connection on which so many bytes are sent.
fn numbers_of(change: Change, length: u64) -> Numbers {
    match change {
        Change::Cut => Numbers {
            first: 0,
            last: length.saturating_sub(1),
            ends_without_fault: false,
        },
        Change::Short => Numbers {
            first: 0,
            last: length,
            ends_without_fault: false,
        },
        _ => Numbers {
            first: 1,
            last: CALLS,
            ends_without_fault: true,
        },
    }
}

/// A door.
#[derive(Drop)]
pub(crate) struct PlannedDoor<'a> {
    pub(crate) connections: Vec<Planned<'a>>,
    /// The number of the `accept` that fails, counted from 1, or 0.
    pub(crate) fails: u64,
}

/// A row.
#[derive(Drop)]
pub(crate) struct Case<'a> {
    pub(crate) form: Form,
    /// The text of the client file.
    pub(crate) clients: &'a str,
    /// The text of the list of trusted documents, if there is one.
    pub(crate) trusted: Option<&'a str>,
    /// Whether only the documents of the list may be asked.
    pub(crate) trusted_only: bool,
    /// Whether the gate knows its schema.
    pub(crate) knows_schema: bool,
    /// The names of the fields that are passed on, with commas between them.
    pub(crate) passed: &'a str,
    /// Whether hints are told.
    pub(crate) hints: bool,
    /// How many steps the examination of a request may take, where that is said.
    pub(crate) most_work: Option<u32>,
    pub(crate) doors: Vec<PlannedDoor<'a>>,
    /// How many bytes the reply has for which two connections wait.
    pub(crate) bytes: usize,
}
