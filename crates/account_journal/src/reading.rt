//! Reading a journal's slots, one after the other, each as a step of the budget machine.

ghost use Rattle.std.specs.Prelude.{◌≡◌, ◌≤◌, ◌<◌, ◌+◌, ◌++◌, ◌&&◌, ◌==◌, not, [], ◌∷◌, List, ℕ, length, map, get_or, true, IfOk, IfErr, IfSome, OnOk, None, Some, is_some, option_map};
ghost use Rattle.std.specs.List.{filter};
ghost use Rattle.cost_num.specs.Within.{Within};
ghost use Rattle.account_core.specs.declared.Limit as limit_type;
ghost use Rattle.account_core.specs.Costs.{cost};
ghost use Rattle.account_core.specs.Machine.{State, Entry, IsStep, grant, open_grant, entry, settlement, done, used_of};
ghost use Rattle.account_core.specs.Numbers.{FitsCap, KeepsLimit, StandsFor, StepsTo};
ghost use Rattle.account_core.specs.Sums.{open_grants};
ghost use Rattle.account_journal.specs.Records.{record_of};
ghost use Rattle.account_journal.specs.Recovery.{grant_view};
ghost use Rattle.account_journal.specs.Slots.{bodies, HoldsSlots};
ghost use Rattle.journal_disk.specs.Images.{IsDurable, TimePasses, CrashesLeave};
ghost use Rattle.account_journal.specs.Histories.{SettlesTo, no_limit, history_in, grant_entry, entries_of, settlement_if_open};
ghost use Rattle.account_journal.specs.Reading.{IsReading, HasEntries, IsGrantNext, IsSettlementNext, IsBodyNext, RefusesBody, HasSomeEntries, HasRead, IsPrepared, GoesOnOrEnds, IsFaultOf, IsOtherHeader, NeverAfter, RoseIfFailed, is_header, mark_in};

use crate::records::{SlotRecord, has_mark, header_bytes, is_header, record_of};
use crate::slots::{SLOTS, append, read_slot, shut_gate};
use account_core::{Account, Limit, Reply, Ticket, fresh};
use cost_num::{CAP, Cost, covers};
use journal_disk::{Disk, DiskFault};
use std::alloc::Global;
use thiserror::Error;

/// Why a journal was not opened.
#[derive(Clone, Copy, Debug, Drop, PartialEq, Eq, Error)]
pub enum OpenFault {
    /// A call on the disk failed. The count of its faults rose.
    #[error("the journal could not be read or written")]
    Failed,
    /// The header has another mark: the journal is of other clients.
    #[error("the journal is of other clients")]
    OtherClients,
    /// The first present slot that doesn't continue the history of those before it: it says no record, its record is no step
    /// of the machine, or its grant leaves too few slots free for the settlements of what is open then.
    #[error("slot {slot} of the journal is damaged")]
    Damaged { slot: u64 },
    /// There was no memory for the accounts or the open grants.
    #[error("there was not enough memory for the journal")]
    Memory,
}

/// A grant that is not settled yet.
#[derive(Clone, Copy, Debug, PartialEq, Eq)]
pub(crate) struct OpenGrant {
    pub(crate) client: u32,
    pub(crate) slot: u64,
    pub(crate) window: u64,
    pub(crate) bound: Cost,
}

/// What the slots that were read so far come to.
#[derive(Drop)]
pub(crate) struct Reading {
    pub(crate) accounts: Vec<Account>,
    pub(crate) used: u64,
    pub(crate) opens: Vec<OpenGrant>,
}

// The account after a grant in just this window, if the machine grants it there.
fn granted_account(
    limit: Limit,
    account: Account,
    client: u32,
    number: u64,
    window: u64,
    bound: Cost,
) -> Option<Account>
    requires cap { FitsCap (cost CAP CAP) limit }
    requires inside { KeepsLimit limit account }
    ensures inside { IfSome result (λ a. KeepsLimit limit a) }
    ensures step { IfSome result (λ a. (s : State) → StandsFor account s → StepsTo limit s (grant_entry client number window bound) a) }
    ensures none { result ≡ None → (s : State) → StandsFor account s → IsStep limit s (grant_entry client number window bound) → ⊥ }
{
    if window < account.window {
        return None;
    }
    let mut next = account;
    match next.reserve(limit, client, number, window, bound) {
        Reply::Short { left: _ } => None,
        Reply::Granted(ticket) => {
            let Ticket {
                client: _,
                seq: _,
                window: _,
                bound: _,
            } = ticket;
            Some(next)
        }
    }
}

// The account after the settlement of an open grant.
fn settled_account(limit: Limit, account: Account, of: OpenGrant, measured: Cost) -> Account
    requires cap { FitsCap (cost CAP CAP) limit }
    requires inside { KeepsLimit limit account }
    requires measured { Within of.bound measured }
    requires window { of.window ≤ account.window }
    requires held { of.window ≡ account.window → Within account.held of.bound }
    ensures inside { KeepsLimit limit result }
    ensures step { (l : limit_type.Limit) (number : ℕ) (s : State) → SettlesTo account (grant_view of) number measured result l s }
{
    let mut next = account;
    next.settle(
        Ticket {
            client: of.client,
            seq: of.slot,
            window: of.window,
            bound: of.bound,
        },
        measured,
    );
    next
}

// The open grant of a client and a slot.
fn find_open(opens: &[OpenGrant], client: u32, slot: u64) -> Option<OpenGrant>
    ensures found { option_map grant_view result ≡ open_grant client slot (map grant_view opens.now) }
    ensures own { IfSome result (λ o. (o.client ≡ client) × (o.slot ≡ slot)) }
{
    for open in opens {
        if open.client == client && open.slot == slot {
            return Some(*open);
        }
    }
    None
}

// Takes that one out of the open grants.
fn close(opens: &mut Vec<OpenGrant>, client: u32, slot: u64)
    ensures { opens.new.items ≡ filter (λ o. not ((o.client == client) && (o.slot == slot))) opens.old.items }
{
    opens.retain(|open| !(open.client == client && open.slot == slot));
}

impl Reading {
    // Before the first slot: each account is fresh, and nothing is open.
    fn new(alloc: Global, limits: &[Limit]) -> Result<Reading, OpenFault>
        requires limits_are { (k : ℕ) → k < length limits.now → FitsCap (cost CAP CAP) (get_or limits.now k no_limit) }
        ensures reading { IfOk result (λ r. IsReading limits.now r) }
        ensures lists { IfOk result (λ r. HasEntries limits.now r []) }
        ensures used { IfOk result (λ r. r.used ≡ 0) }
        ensures memory { IfErr result (λ f. f ≡ OpenFault.Memory) }
    {
        let Ok(accounts) = vec![in alloc; fresh(); limits.len()] else {
            return Err(OpenFault::Memory);
        };
        Ok(Reading {
            accounts,
            used: 0,
            opens: Vec::new(alloc),
        })
    }

    // Takes the first slot, which has to be the header with this mark.
    fn take_header(&mut self, mark: &[u8; 32], body: &[u8; 63]) -> Result<(), OpenFault>
        ensures header { OnOk result (is_header body.now ≡ true) }
        ensures mark { OnOk result (mark_in body.now ≡ mark.now) }
        ensures accounts { self.new.accounts ≡ self.old.accounts }
        ensures opens { self.new.opens ≡ self.old.opens }
        ensures used { OnOk result (self.new.used ≡ 1) }
        ensures refused { IfErr result (λ f. RefusesBody f 0 (is_header body.now ≡ true → ⊥) (IsOtherHeader mark.now body.now)) }
    {
        if !is_header(body) {
            return Err(OpenFault::Damaged { slot: 0 });
        }
        if !has_mark(body, mark) {
            return Err(OpenFault::OtherClients);
        }
        self.used = 1;
        Ok(())
    }

    // Takes a grant: a step of the machine in just its window, which leaves slots for all settlements.
    fn take_grant(
        &mut self,
        limits: &[Limit],
        client: u32,
        window: u64,
        bound: Cost,
    ) -> Result<(), OpenFault>
        requires reading { IsReading limits.now self.old }
        ensures reading { OnOk result (IsReading limits.now self.new) }
        ensures used { OnOk result (self.new.used ≡ self.old.used + 1) }
        ensures step { OnOk result ((hs : List Entry) → HasEntries limits.now self.old hs → IsGrantNext limits.now hs self.old.used client window bound) }
        ensures lists { OnOk result ((hs : List Entry) → HasEntries limits.now self.old hs
            → HasEntries limits.now self.new (hs ++ grant_entry client self.old.used window bound ∷ [])) }
        ensures refused { IfErr result (λ f. RefusesBody f self.old.used
            (NeverAfter limits.now self.old (λ hs. IsGrantNext limits.now hs self.old.used client window bound)) ⊥) }
    {
        let place = client as usize;
        let opened = self.opens.len() as u64;
        if place >= limits.len() || SLOTS - self.used < opened + 2 {
            return Err(OpenFault::Damaged { slot: self.used });
        }
        match granted_account(
            limits[place],
            self.accounts[place],
            client,
            self.used,
            window,
            bound,
        ) {
            None => Err(OpenFault::Damaged { slot: self.used }),
            Some(next) => match self.opens.push(OpenGrant {
                client,
                slot: self.used,
                window,
                bound,
            }) {
                Err(_) => Err(OpenFault::Memory),
                Ok(()) => {
                    self.accounts[place] = next;
                    self.used += 1;
                    Ok(())
                }
            },
        }
    }

    // Takes a settlement of a grant that is open, within its bound.
    fn take_settlement(
        &mut self,
        limits: &[Limit],
        client: u32,
        of: u64,
        measured: Cost,
    ) -> Result<(), OpenFault>
        requires reading { IsReading limits.now self.old }
        requires some { HasSomeEntries limits.now self.old }
        ensures reading { OnOk result (IsReading limits.now self.new) }
        ensures used { OnOk result (self.new.used ≡ self.old.used + 1) }
        ensures step { OnOk result ((hs : List Entry) → HasEntries limits.now self.old hs → IsSettlementNext limits.now hs self.old.used client of measured) }
        ensures lists { OnOk result ((hs : List Entry) → HasEntries limits.now self.old hs
            → HasEntries limits.now self.new (hs ++ settlement_if_open self.old.used measured (open_grant client of (open_grants hs)))) }
        ensures refused { IfErr result (λ f. RefusesBody f self.old.used
            (NeverAfter limits.now self.old (λ hs. IsSettlementNext limits.now hs self.old.used client of measured)) ⊥) }
    {
        let place = client as usize;
        if place >= limits.len() {
            return Err(OpenFault::Damaged { slot: self.used });
        }
        match find_open(&self.opens, client, of) {
            None => Err(OpenFault::Damaged { slot: self.used }),
            Some(open) => {
                if !covers(open.bound, measured) {
                    return Err(OpenFault::Damaged { slot: self.used });
                }
                self.accounts[place] = settled_account(
                    limits[place],
                    self.accounts[place],
                    OpenGrant {
                        client,
                        slot: of,
                        ..open
                    },
                    measured,
                );
                close(&mut self.opens, client, of);
                self.used += 1;
                Ok(())
            }
        }
    }

    // Takes the next present slot.
    fn take_body(
        &mut self,
        limits: &[Limit],
        mark: &[u8; 32],
        body: &[u8; 63],
    ) -> Result<(), OpenFault>
        requires reading { IsReading limits.now self.old }
        requires some { HasSomeEntries limits.now self.old }
        ensures reading { OnOk result (IsReading limits.now self.new) }
        ensures used { OnOk result (self.new.used ≡ self.old.used + 1) }
        ensures mark { OnOk result (self.old.used ≡ 0 → mark_in body.now ≡ mark.now) }
        ensures good { OnOk result ((hs : List Entry) → HasEntries limits.now self.old hs → IsBodyNext limits.now hs self.old.used body.now) }
        ensures lists { OnOk result ((hs : List Entry) → HasEntries limits.now self.old hs
            → HasEntries limits.now self.new (hs ++ entries_of hs self.old.used (record_of body.now))) }
        ensures refused { IfErr result (λ f. RefusesBody f self.old.used
            (NeverAfter limits.now self.old (λ hs. IsBodyNext limits.now hs self.old.used body.now)) (IsOtherHeader mark.now body.now)) }
    {
        if self.used == 0 {
            self.take_header(mark, body)?;
            return Ok(());
        }
        match record_of(body) {
            None => Err(OpenFault::Damaged { slot: self.used }),
            Some(
                SlotRecord::Grant {
                    client,
                    window,
                    bound,
                },
            ) => {
                self.take_grant(limits, client, window, bound)?;
                Ok(())
            }
            Some(
                SlotRecord::Settlement {
                    client,
                    slot,
                    measured,
                },
            ) => {
                self.take_settlement(limits, client, slot, measured)?;
                Ok(())
            }
        }
    }
}

// Reads the next slot and takes it, where it is present.
fn read_next<D: Disk>(
    disk: &mut D,
    reading: &mut Reading,
    limits: &[Limit],
    mark: &[u8; 32],
) -> Result<bool, OpenFault>
    requires reading { IsReading limits.now reading.old }
    requires read { HasRead (D.reads disk.old) limits.now mark.now reading.old }
    ensures reading { IfOk result (λ _. IsReading limits.now reading.new) }
    ensures read { IfOk result (λ _. HasRead (D.reads disk.old) limits.now mark.now reading.new) }
    ensures goes { IfOk result (λ took. GoesOnOrEnds took reading.old.used reading.new.used
        ((b : List ℕ) → D.reads disk.old ≡ Some b → length (bodies b) ≡ reading.new.used)) }
    ensures refused { IfErr result (λ f. (b : List ℕ) → D.reads disk.old ≡ Some b → IsFaultOf f limits.now mark.now (bodies b)) }
    ensures same { D.reads disk.new ≡ D.reads disk.old }
    ensures images { (c : List ℕ) → D.image disk.new c → D.image disk.old c }
    ensures time { TimePasses (D.moment disk.old) (D.moment disk.new) (D.image_since disk.old) (D.image_since disk.new) (D.image disk.new) }
    ensures count { D.faults disk.old ≤ D.faults disk.new }
    ensures cause { IfErr result (λ f. RoseIfFailed f (D.faults disk.old) (D.faults disk.new)) }
{
    match read_slot(disk, reading.used) {
        Err(DiskFault) => Err(OpenFault::Failed),
        Ok(None) => Ok(false),
        Ok(Some(body)) => match reading.take_body(limits, mark, &body) {
            Err(fault) => Err(fault),
            Ok(()) => Ok(true),
        },
    }
}

// Reads and takes all present slots.
fn read_slots<D: Disk>(
    alloc: Global,
    disk: &mut D,
    limits: &[Limit],
    mark: &[u8; 32],
) -> Result<Reading, OpenFault>
    requires limits_are { (k : ℕ) → k < length limits.now → FitsCap (cost CAP CAP) (get_or limits.now k no_limit) }
    ensures reading { IfOk result (λ r. IsReading limits.now r) }
    ensures read { IfOk result (λ r. HasRead (D.reads disk.old) limits.now mark.now r) }
    ensures all { IfOk result (λ r. (b : List ℕ) → D.reads disk.old ≡ Some b → length (bodies b) ≡ r.used) }
    ensures refused { IfErr result (λ f. (b : List ℕ) → D.reads disk.old ≡ Some b → IsFaultOf f limits.now mark.now (bodies b)) }
    ensures same { D.reads disk.new ≡ D.reads disk.old }
    ensures images { (c : List ℕ) → D.image disk.new c → D.image disk.old c }
    ensures any_moment { CrashesLeave D.moment D.image_since disk.old disk.new (D.image disk.old) }
    ensures count { D.faults disk.old ≤ D.faults disk.new }
    ensures cause { IfErr result (λ f. RoseIfFailed f (D.faults disk.old) (D.faults disk.new)) }
{
    let mut reading = Reading::new(alloc, limits)?;
    'slots: loop {
        match read_next(disk, &mut reading, limits, mark) {
            Err(fault) => return Err(fault),
            Ok(false) => return Ok(reading),
            Ok(true) => {}
        }
    }
}

// Reads and takes all present slots, and shuts the gate behind them.
fn read_and_shut<D: Disk>(
    alloc: Global,
    disk: &mut D,
    limits: &[Limit],
    mark: &[u8; 32],
) -> Result<Reading, OpenFault>
    requires limits_are { (k : ℕ) → k < length limits.now → FitsCap (cost CAP CAP) (get_or limits.now k no_limit) }
    requires durable { (b : List ℕ) → D.reads disk.old ≡ Some b → IsDurable b (D.image disk.old) }
    ensures reading { IfOk result (λ r. IsReading limits.now r) }
    ensures read { IfOk result (λ r. HasRead (D.reads disk.old) limits.now mark.now r) }
    ensures all { IfOk result (λ r. (b : List ℕ) → D.reads disk.old ≡ Some b → length (bodies b) ≡ r.used) }
    ensures rest { IfOk result (λ r. (b : List ℕ) → D.reads disk.old ≡ Some b → HoldsSlots (D.reads disk.new) (D.image disk.new) r.used (bodies b)) }
    ensures refused { IfErr result (λ f. (b : List ℕ) → D.reads disk.old ≡ Some b → IsFaultOf f limits.now mark.now (bodies b)) }
    ensures any_moment { (b : List ℕ) → D.reads disk.old ≡ Some b → CrashesLeave D.moment D.image_since disk.old disk.new (λ c. bodies c ≡ bodies b) }
    ensures tells { is_some (D.reads disk.new) ≡ is_some (D.reads disk.old) }
    ensures count { D.faults disk.old ≤ D.faults disk.new }
    ensures cause { IfErr result (λ f. RoseIfFailed f (D.faults disk.old) (D.faults disk.new)) }
{
    let reading = match read_slots(alloc, disk, limits, mark) {
        Err(fault) => return Err(fault),
        Ok(reading) => reading,
    };
    match shut_gate(disk, reading.used) {
        Err(DiskFault) => Err(OpenFault::Failed),
        Ok(()) => Ok(reading),
    }
}

/// Reads and takes all present slots, shuts the gate behind them, and appends the header where there is none.
pub(crate) fn prepare<D: Disk>(
    alloc: Global,
    disk: &mut D,
    limits: &[Limit],
    mark: &[u8; 32],
) -> Result<Reading, OpenFault>
    requires limits_are { (k : ℕ) → k < length limits.now → FitsCap (cost CAP CAP) (get_or limits.now k no_limit) }
    requires durable { (b : List ℕ) → D.reads disk.old ≡ Some b → IsDurable b (D.image disk.old) }
    ensures reading { IfOk result (λ r. IsReading limits.now r) }
    ensures prepared { IfOk result (λ r. IsPrepared (D.reads disk.old) (D.reads disk.new) (D.image disk.new) limits.now mark.now r) }
    ensures refused { IfErr result (λ f. (b : List ℕ) → D.reads disk.old ≡ Some b → IsFaultOf f limits.now mark.now (bodies b)) }
    ensures any_moment { (b : List ℕ) → D.reads disk.old ≡ Some b → CrashesLeave D.moment D.image_since disk.old disk.new (λ c. history_in c ≡ history_in b) }
    ensures tells { is_some (D.reads disk.new) ≡ is_some (D.reads disk.old) }
    ensures count { D.faults disk.old ≤ D.faults disk.new }
    ensures cause { IfErr result (λ f. RoseIfFailed f (D.faults disk.old) (D.faults disk.new)) }
{
    let mut reading = match read_and_shut(alloc, disk, limits, mark) {
        Err(fault) => return Err(fault),
        Ok(reading) => reading,
    };
    if reading.used != 0 {
        return Ok(reading);
    }
    match append(disk, 0, &header_bytes(mark)) {
        Err(DiskFault) => Err(OpenFault::Failed),
        Ok(()) => {
            reading.used = 1;
            Ok(reading)
        }
    }
}
