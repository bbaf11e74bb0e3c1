//! Playing the steps of a row.

ghost use Rattle.std.specs.Prelude.{IfOk};
ghost use Rattle.account_journal.specs.Journals.{IsSound, Rests};
ghost use Rattle.journal_rows.specs.Fit.{IsFit};

use crate::opening::{MARK, open, write_fault, write_journal};
use crate::row::Step;
use account_journal::{Journal, KeptReply, KeptTicket};
use cost_num::Cost;
use journal_disk::{Disk, MemDisk};
use outside::Failures;
use std::alloc::{AllocError, Global};

/// A disk, or the journal that is open on it.
#[derive(Drop)]
pub(crate) enum State {
    Shut(MemDisk),
    Open(Journal<MemDisk>),
}

impl State {
    fn disk(&self) -> &MemDisk {
        match self {
            State::Shut(disk) => disk,
            State::Open(journal) => journal.disk(),
        }
    }

    fn into_disk(self) -> MemDisk {
        match self {
            State::Shut(disk) => disk,
            State::Open(journal) => journal.into_disk(),
        }
    }
}

/// What steps came to: a line for each, the disk, and how many calls were recorded on it before the last step.
#[derive(Drop)]
pub(crate) struct Played {
    pub(crate) text: String,
    pub(crate) disk: MemDisk,
    pub(crate) before_last: usize,
}

// The lines so far, and the tickets that were granted.
#[derive(Drop)]
struct Desk {
    text: String,
    tickets: Vec<KeptTicket>,
}

fn take_reply(desk: &mut Desk, reply: KeptReply) -> Result<(), AllocError> {
    match reply {
        KeptReply::Granted(ticket) => {
            let slot = ticket.slot;
            let window = ticket.window;
            write!(desk.text, "granted in slot {slot}, window {window}")?;
            desk.tickets.push(ticket).map_err(|_| AllocError)
        }
        KeptReply::Short { left } => {
            let Cost { types, fields } = left;
            write!(desk.text, "short: {types} {fields} left")
        }
        KeptReply::Full => desk.text.push_str("full"),
    }
}

fn reserve(
    desk: &mut Desk,
    journal: Journal<MemDisk>,
    client: u32,
    window: u64,
    bound: Cost,
) -> Result<State, AllocError>
    requires sound { IsSound journal }
    requires rest { Rests ⟦<MemDisk as Disk>⟧.reads journal }
    ensures { IfOk result (λ state. IsFit ⟦<MemDisk as Disk>⟧.reads state) }
{
    if client as usize >= journal.clients() {
        desk.text.push_str("no such client")?;
        return Ok(State::Open(journal));
    }
    match journal.reserve(client, window, bound) {
        Ok((journal, reply)) => {
            take_reply(desk, reply)?;
            Ok(State::Open(journal))
        }
        Err((disk, _)) => {
            desk.text.push_str("Failed")?;
            Ok(State::Shut(disk))
        }
    }
}

// The ticket that was granted so many grants ago, taken out of the tickets.
fn ticket_from(desk: &mut Desk, ago: usize) -> Option<KeptTicket> {
    let count = desk.tickets.len();
    if ago >= count {
        return None;
    }
    Some(desk.tickets.remove(count - 1 - ago))
}

fn settle(
    desk: &mut Desk,
    journal: Journal<MemDisk>,
    ago: usize,
    measured: Cost,
) -> Result<State, AllocError>
    requires sound { IsSound journal }
    requires rest { Rests ⟦<MemDisk as Disk>⟧.reads journal }
    ensures { IfOk result (λ state. IsFit ⟦<MemDisk as Disk>⟧.reads state) }
{
    let Some(ticket) = ticket_from(desk, ago) else {
        desk.text.push_str("no such ticket")?;
        return Ok(State::Open(journal));
    };
    if !journal.may_settle(&ticket, measured) {
        desk.text.push_str("no such settlement")?;
        return Ok(State::Open(journal));
    }
    match journal.settle(ticket, measured) {
        Ok(journal) => {
            desk.text.push_str("settled")?;
            Ok(State::Open(journal))
        }
        Err((disk, _)) => {
            desk.text.push_str("Failed")?;
            Ok(State::Shut(disk))
        }
    }
}

// Opens the journal on a disk that reads as this one. Tickets from before are given up with their journal.
fn open_again(
    alloc: Global,
    desk: &mut Desk,
    state: State,
    failing: Option<u64>,
) -> Result<State, AllocError>
    ensures { IfOk result (λ state. IsFit ⟦<MemDisk as Disk>⟧.reads state) }
{
    desk.tickets.clear();
    let failing = match failing {
        Some(number) => Vec::from_slice(alloc, &[number])?,
        None => Vec::new(alloc),
    };
    let bytes = Vec::from_slice(alloc, state.into_disk().bytes())?;
    let disk = MemDisk::new(alloc, &bytes, Failures::of(failing))?;
    match open(alloc, disk, MARK) {
        Ok(journal) => {
            write_journal(&mut desk.text, &journal)?;
            Ok(State::Open(journal))
        }
        Err((disk, fault)) => {
            write_fault(&mut desk.text, fault)?;
            Ok(State::Shut(disk))
        }
    }
}

// Plays a step. On a disk without an open journal there is only the opening.
fn play_step(
    alloc: Global,
    desk: &mut Desk,
    state: State,
    step: Step,
    failing: Option<u64>,
) -> Result<State, AllocError>
    requires { IsFit ⟦<MemDisk as Disk>⟧.reads state }
    ensures { IfOk result (λ state. IsFit ⟦<MemDisk as Disk>⟧.reads state) }
{
    match step {
        Step::Open => open_again(alloc, desk, state, failing),
        Step::Reserve {
            client,
            window,
            bound,
        } => match state {
            State::Shut(disk) => Ok(State::Shut(disk)),
            State::Open(journal) => reserve(desk, journal, client, window, bound),
        },
        Step::Settle { ago, measured } => match state {
            State::Shut(disk) => Ok(State::Shut(disk)),
            State::Open(journal) => settle(desk, journal, ago, measured),
        },
    }
}

fn name_of(step: Step) -> &'static str {
    match step {
        Step::Open => "open: ",
        Step::Reserve { .. } => "reserve: ",
        Step::Settle { .. } => "settle: ",
    }
}

// How many of the steps are openings.
fn openings_in(steps: &[Step]) -> usize {
    let mut count: usize = 0;
    for step in steps {
        if let Step::Open = step {
            count = count.saturating_add(1);
        }
    }
    count
}

/// Plays steps on a disk with these bytes. On the disk of the last opening the call of a number may fail.
pub(crate) fn play_steps(
    alloc: Global,
    file: &[u8],
    steps: &[Step],
    failing: Option<u64>,
) -> Result<Played, AllocError> {
    let mut desk = Desk {
        text: String::new(alloc),
        tickets: Vec::new(alloc),
    };
    let mut state = State::Shut(MemDisk::new(alloc, file, Failures::none(alloc))?);
    let mut before_last = 0;
    for (at, step) in steps.iter().enumerate() {
        let last_opening = openings_in(steps.get(at..).unwrap_or(&[])) == 1;
        before_last = match step {
            Step::Open => 0,
            _ => state.disk().calls().len(),
        };
        desk.text.push_str(name_of(*step))?;
        state = play_step(
            alloc,
            &mut desk,
            state,
            *step,
            if last_opening { failing } else { None },
        )?;
        desk.text.push('\n')?;
    }
    Ok(Played {
        text: desk.text,
        disk: state.into_disk(),
        before_last,
    })
}
