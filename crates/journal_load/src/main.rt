//! Reserves and settles on a journal over a file of the system, and says each step once the journal has acknowledged it.
//!
//! The words are the name of a file and a number of rounds. The journal of the file is opened, and so many rounds are made; each
//! reserves a bound, and all but each seventh settle it. Behind them the journal is opened again. So a script can end the program at any moment, open the journal again, and
//! see that each step that was said is in the file.
#![tactic(auto)]

ghost use Rattle.std.specs.Prelude.{◌≡◌, IfOk, OnOk};
ghost use Rattle.account_journal.specs.Journals.{IsSound, Rests};

mod clients;
mod loading;

use account_journal::Journal;
use clients::limits;
use journal_disk::{Disk, Disks, StdDisk, StdDisks};
use loading::{load, say_accounts};
use std::alloc::Global;
use std::env;
use std::io::{self, ErrorKind};

/// The mark of the journals that this program opens.
const MARK: [u8; 32] = [7; 32];

fn wrong(message: &'static str) -> io::Error {
    io::Error::new(ErrorKind::InvalidInput, message)
}

// Opens the journal of a file.
fn opened(
    alloc: Global,
    disks: &mut StdDisks<HostRuntime>,
    name: &str,
) -> io::Result<Journal<StdDisk>>
    requires idle { ⟦<StdDisks<HostRuntime> as Disks>⟧.running disks.old ≡ 0 }
    ensures running { OnOk result (⟦<StdDisks<HostRuntime> as Disks>⟧.running disks.new ≡ 1) }
    ensures sound { IfOk result (λ journal. IsSound journal) }
    ensures rest { IfOk result (λ journal. Rests ⟦<StdDisk as Disk>⟧.reads journal) }
{
    let Ok(disk) = disks.open(alloc, name) else {
        return Err(wrong("the file can't be opened, is locked, or is no journal"));
    };
    match Journal::open(alloc, disk, MARK, limits(alloc)?) {
        Ok(journal) => Ok(journal),
        Err((disk, _)) => {
            disks.shut(disk);
            Err(wrong("the journal is refused"))
        }
    }
}

// Shuts the disk of a journal. A journal with open grants is given up; the next opening settles them.
fn shut(disks: &mut StdDisks<HostRuntime>, journal: Journal<StdDisk>)
    requires running { ⟦<StdDisks<HostRuntime> as Disks>⟧.running disks.old ≡ 1 }
    ensures idle { ⟦<StdDisks<HostRuntime> as Disks>⟧.running disks.new ≡ 0 }
{
    let disk = if journal.opened() == 0 {
        journal.close()
    } else {
        journal.into_disk()
    };
    disks.shut(disk);
}

fn main(rt: HostRuntime) -> io::Result<()> {
    let alloc = rt.alloc();
    let mut words = env::args(&rt)?.skip(1);
    let (Some(name), Some(rounds)) = (words.next(), words.next()) else {
        return Err(wrong("the words are FILE ROUNDS"));
    };
    let Ok(rounds) = rounds.as_str().parse::<u64>() else {
        return Err(wrong("ROUNDS is no number"));
    };
    let mut to = rt.stdout();
    let mut disks = StdDisks::new(rt.clone()?);
    let mut journal = opened(alloc, &mut disks, name.as_str())?;
    say_accounts(alloc, &mut to, &journal)?;
    load(alloc, &mut to, &mut journal, rounds)?;
    say_accounts(alloc, &mut to, &journal)?;
    shut(&mut disks, journal);
    if rounds > 0 {
        let journal = opened(alloc, &mut disks, name.as_str())?;
        say_accounts(alloc, &mut to, &journal)?;
        shut(&mut disks, journal);
    }
    Ok(())
}
