//! Opening a journal: its slots are read, and what they leave open is settled at its bound.

ghost use Rattle.std.specs.Prelude.{◌≡◌, ◌≤◌, ◌<◌, ◌+◌, ◌++◌, ◌⊎◌, [], ◌∷◌, List, ℕ, length, drop, get_or, map, IfOk, IfErr, Some, is_some};
ghost use Rattle.account_core.specs.Machine.{Entry};
ghost use Rattle.outside.specs.Faults.{Rose};
ghost use Rattle.journal_disk.specs.Images.{IsDurable, CrashesLeave};
ghost use Rattle.account_core.specs.Costs.{cost};
ghost use Rattle.account_core.specs.Numbers.{FitsCap};
ghost use Rattle.account_journal.specs.Slots.{bodies};
ghost use Rattle.account_journal.specs.Histories.{no_limit};
ghost use Rattle.account_journal.specs.Reading.{IsIntact, IsFaultOf, RoseIfFailed};
ghost use Rattle.account_journal.specs.Journals.{IsSound, IsTold, Rests};
ghost use Rattle.account_journal.specs.Recovery.{IsReady, IsReadyFor, IsReadyForAll, settlements, LeavesFirst, LeavesSettlements, bound_settlement, HasNoneOpen, IsRecoveredFrom, IsPartlyRecovered, FailsOrLeavesSince, CrashesLeaveSince};

use crate::journal::{Journal, JournalFault, KeptTicket};
use crate::reading::{OpenFault, OpenGrant, Reading, prepare};
use account_core::Limit;
use cost_num::CAP;
use journal_disk::{Disk, DiskFault};
use std::alloc::Global;

// Settles the first open grant at its bound.
fn settle_first<D: Disk>(
    journal: Journal<D>,
    first: OpenGrant,
) -> Result<Journal<D>, (D, JournalFault)>
    requires sound { IsSound journal }
    requires ready { IsReadyFor D.reads D.image journal first }
    ensures sound { IfOk result (λ j. IsSound j) }
    ensures limits { IfOk result (λ j. j.limits ≡ journal.limits) }
    ensures used { IfOk result (λ j. j.used ≡ journal.used + 1) }
    ensures tells { IfOk result (λ j. is_some (D.reads j.disk) ≡ is_some (D.reads journal.disk)) }
    ensures tells_err { IfErr result (λ e. is_some (D.reads e.0) ≡ is_some (D.reads journal.disk)) }
    ensures ready { IfOk result (λ j. (rest : List OpenGrant) (hs : List Entry) → IsReady D.reads D.image journal (first ∷ rest) hs
        → IsReady D.reads D.image j rest (hs ++ bound_settlement journal.used first ∷ [])) }
    ensures any_moment { IfOk result (λ j. (rest : List OpenGrant) (hs : List Entry)
        → LeavesFirst D.reads D.image D.moment D.image_since journal j.disk first rest hs) }
    ensures any_moment_err { IfErr result (λ e. (rest : List OpenGrant) (hs : List Entry)
        → LeavesFirst D.reads D.image D.moment D.image_since journal e.0 first rest hs) }
    ensures count { IfOk result (λ j. D.faults journal.disk ≤ D.faults j.disk) }
    ensures cause { IfErr result (λ e. Rose (D.faults journal.disk) (D.faults e.0)) }
{
    let OpenGrant {
        client,
        slot,
        window,
        bound,
    } = first;
    let ticket = KeptTicket {
        client,
        slot,
        window,
        bound,
    };
    match journal.settle(ticket, bound) {
        Err(e) => Err(e),
        Ok(next) => Ok(next),
    }
}

// Settles each open grant at its bound, in the order of their slots.
fn settle_all<D: Disk>(
    journal: Journal<D>,
    opens: &[OpenGrant],
) -> Result<Journal<D>, (D, JournalFault)>
    requires sound { IsSound journal }
    requires ready { IsReadyForAll D.reads D.image journal opens.now }
    ensures sound { IfOk result (λ j. IsSound j) }
    ensures limits { IfOk result (λ j. j.limits ≡ journal.limits) }
    ensures tells { IfOk result (λ j. is_some (D.reads j.disk) ≡ is_some (D.reads journal.disk)) }
    ensures tells_err { IfErr result (λ e. is_some (D.reads e.0) ≡ is_some (D.reads journal.disk)) }
    ensures all { IfOk result (λ j. (hs : List Entry) → IsReady D.reads D.image journal opens.now hs
        → IsReady D.reads D.image j [] (hs ++ settlements journal.used opens.now)) }
    ensures any_moment { IfOk result (λ j. (hs : List Entry) → LeavesSettlements D.reads D.image D.moment D.image_since journal j.disk opens.now hs) }
    ensures any_moment_err { IfErr result (λ e. (hs : List Entry) → LeavesSettlements D.reads D.image D.moment D.image_since journal e.0 opens.now hs) }
    ensures count { IfOk result (λ j. D.faults journal.disk ≤ D.faults j.disk) }
    ensures cause { IfErr result (λ e. Rose (D.faults journal.disk) (D.faults e.0)) }
{
    let mut now = journal;
    let mut at = 0;
    while at < opens.len() {
        match settle_first(now, opens[at]) {
            Err(e) => return Err(e),
            Ok(next) => now = next,
        }
        at += 1;
    }
    Ok(now)
}

// Opens the journal of a disk that was just synced.
fn open_synced<D: Disk>(
    alloc: Global,
    mut disk: D,
    mark: [u8; 32],
    limits: Vec<Limit>,
) -> Result<Journal<D>, (D, OpenFault)>
    requires limits_are { (k : ℕ) → k < length limits.items → FitsCap (cost CAP CAP) (get_or limits.items k no_limit) }
    requires durable { (b : List ℕ) → D.reads disk ≡ Some b → IsDurable b (D.image disk) }
    ensures sound { IfOk result (λ j. IsSound j) }
    ensures limits { IfOk result (λ j. j.limits ≡ limits) }
    ensures tells { IfOk result (λ j. is_some (D.reads j.disk) ≡ is_some (D.reads disk)) }
    ensures tells_err { IfErr result (λ e. is_some (D.reads e.0) ≡ is_some (D.reads disk)) }
    ensures closed { IfOk result (λ j. HasNoneOpen D.reads D.image j) }
    ensures intact { IfOk result (λ j. (b : List ℕ) → D.reads disk ≡ Some b → IsIntact limits.items mark (bodies b)) }
    ensures recovered { IfOk result (λ j. (b : List ℕ) → D.reads disk ≡ Some b → IsRecoveredFrom D.reads D.image j b) }
    ensures refused { IfErr result (λ e. (b : List ℕ) → D.reads disk ≡ Some b → IsFaultOf e.1 limits.items mark (bodies b)) }
    ensures any_moment { IfOk result (λ j. (b : List ℕ) → D.reads disk ≡ Some b → CrashesLeave D.moment D.image_since disk j.disk (IsPartlyRecovered b)) }
    ensures any_moment_err { IfErr result (λ e. (b : List ℕ) → D.reads disk ≡ Some b → CrashesLeave D.moment D.image_since disk e.0 (IsPartlyRecovered b)) }
    ensures count { IfOk result (λ j. D.faults disk ≤ D.faults j.disk) }
    ensures cause { IfErr result (λ e. RoseIfFailed e.1 (D.faults disk) (D.faults e.0)) }
{
    let reading = match prepare(alloc, &mut disk, &limits, &mark) {
        Err(fault) => return Err((disk, fault)),
        Ok(reading) => reading,
    };
    let Reading {
        accounts,
        used,
        opens,
    } = reading;
    let journal = Journal {
        disk,
        limits,
        accounts,
        used,
        opened: opens.len() as u64,
    };
    match settle_all(journal, &opens) {
        Err((disk, _)) => Err((disk, OpenFault::Failed)),
        Ok(journal) => Ok(journal),
    }
}

impl<D: Disk> Journal<D> {
    /// Opens the journal on a disk, for clients with these limits and a mark of 32 bytes that stands for them. A disk without
    /// a present slot becomes a new journal. Each grant that is open is settled at its bound, so that none is open afterwards
    /// and nothing is held. Where it is refused, the disk is handed back, and the slots that were present still are.
    /// It takes all the memory that the journal needs.
    pub fn open(
        alloc: Global,
        mut disk: D,
        mark: [u8; 32],
        limits: Vec<Limit>,
    ) -> Result<Journal<D>, (D, OpenFault)>
        requires limits_are { (k : ℕ) → k < length limits.items → FitsCap (cost CAP CAP) (get_or limits.items k no_limit) }
        ensures sound { IfOk result (λ j. IsSound j) }
        ensures limits { IfOk result (λ j. j.limits ≡ limits) }
        ensures rest { IfOk result (λ j. Rests D.reads j) }
        ensures none { IfOk result (λ j. j.opened ≡ 0) }
        ensures tells { IfOk result (λ j. is_some (D.reads j.disk) ≡ is_some (D.reads disk)) }
        ensures tells_err { IfErr result (λ e. is_some (D.reads e.0) ≡ is_some (D.reads disk)) }
        ensures closed { IfOk result (λ j. HasNoneOpen D.reads D.image j) }
        ensures intact { IfOk result (λ j. (b : List ℕ) → D.reads disk ≡ Some b → IsIntact limits.items mark (bodies b)) }
        ensures recovered { IfOk result (λ j. (b : List ℕ) → D.reads disk ≡ Some b → IsRecoveredFrom D.reads D.image j b) }
        ensures refused { IfErr result (λ e. (b : List ℕ) → D.reads disk ≡ Some b → IsFaultOf e.1 limits.items mark (bodies b)) }
        ensures any_moment { IfOk result (λ j. (b : List ℕ) → D.reads disk ≡ Some b
            → CrashesLeaveSince D.reads D.image D.moment D.image_since disk j.disk b (IsPartlyRecovered b)) }
        ensures any_moment_err { IfErr result (λ e. (b : List ℕ) → D.reads disk ≡ Some b
            → FailsOrLeavesSince D.reads D.image D.moment D.image_since disk e.0 e.1 b (IsPartlyRecovered b)) }
        ensures count { IfOk result (λ j. D.faults disk ≤ D.faults j.disk) }
        ensures cause { IfErr result (λ e. RoseIfFailed e.1 (D.faults disk) (D.faults e.0)) }
    {
        match disk.sync() {
            Err(DiskFault) => Err((disk, OpenFault::Failed)),
            Ok(()) => match open_synced(alloc, disk, mark, limits) {
                Err(refused) => Err(refused),
                Ok(journal) => Ok(journal),
            },
        }
    }
}
