//! The journal: accounts each step of which is on the disk before it is acknowledged.

ghost use Rattle.std.specs.Prelude.{◌≡◌, ◌≤◌, ◌<◌, ◌+◌, ◌^◌, ◌++◌, [], ◌∷◌, List, ℕ, length, get_or, set, max, IfOk, IfErr, OnOk, OnErr, IsTrue, Some, is_some};
ghost use Rattle.outside.specs.Faults.{Rose};
ghost use Rattle.cost_num.specs.Within.{Within};
ghost use Rattle.account_core.specs.declared.Limit as limit_type;
ghost use Rattle.account_core.specs.Machine.{Entry, State, granted, short};
ghost use Rattle.account_core.specs.Numbers.{KeepsLimit, StandsFor, StepsTo, reservation_reply, reserved_account, settled_account};
ghost use Rattle.account_journal.specs.Records.{record_bytes};
ghost use Rattle.account_journal.specs.Slots.{IsAtRest, HoldsOneMore, KeepsSlots};
ghost use Rattle.account_journal.specs.Histories.{grant_entry, SettlesTo};
ghost use Rattle.account_journal.specs.Journals.{Follows, IsSound, KeepsHistory, Stores, limit_in, account_in, answer_in, entry_in, gained_by, IsAnswered, IsReserved, IsSettled, HasSameNumbers, HoldsReply, HoldsTicket, MaySettle, Rests, grant_of, ticket_settlement};

use crate::records::record_bytes;
use crate::slots::{SLOTS, append};
use account_core::{Account, Limit, Reply, Ticket};
use cost_num::{Cost, covers};
use journal_disk::{Disk, DiskFault};
use thiserror::Error;

/// The accounts of clients, and the disk that has their grants and settlements.
#[derive(Drop)]
pub struct Journal<D: Disk> {
    pub(crate) disk: D,
    // What each client may spend.
    pub(crate) limits: Vec<Limit>,
    // The account of each client.
    pub(crate) accounts: Vec<Account>,
    // How many slots are used, that of the header with them.
    pub(crate) used: u64,
    // How many grants are open. As many slots are kept free for their settlements.
    pub(crate) opened: u64,
}

/// A granted reservation. It can't be copied. Where it is dropped, its grant stays open until the journal is opened again,
/// which charges its bound.
#[derive(Debug, Drop)]
pub struct KeptTicket {
    /// The client, by its place among the clients.
    pub client: u32,
    /// The slot of the grant.
    pub slot: u64,
    /// The window in which the grant stands.
    pub window: u64,
    /// The most that may be settled for it.
    pub bound: Cost,
}

/// What a reservation is answered.
#[derive(Debug, Drop)]
pub enum KeptReply {
    /// The bound is held until the ticket is settled, and the grant is on the disk.
    Granted(KeptTicket),
    /// The bound is more than what the window has left, in one component at least.
    Short {
        /// What the window has left.
        left: Cost,
    },
    /// Too few slots are free for the grant, its settlement and those of the open grants.
    Full,
}

/// Why a call on a journal was given up. The journal has to be opened again.
#[derive(Clone, Copy, Debug, Drop, PartialEq, Eq, Error)]
pub enum JournalFault {
    /// A call on the disk failed. The count of its faults rose.
    #[error("the journal could not be written")]
    Failed,
}

impl<D: Disk> Journal<D> {
    // Appends a record and puts the account that its client has then.
    fn write(
        &mut self,
        client: u32,
        next: Account,
        kind: u8,
        number: u64,
        cost: Cost,
    ) -> Result<(), DiskFault>
        requires below { self.old.used < SLOTS }
        requires client { client < length self.old.accounts.items }
        requires rest { (b : List ℕ) → D.reads self.old.disk ≡ Some b → IsAtRest self.old.used b }
        ensures accounts { OnOk result (self.new.accounts.items ≡ set self.old.accounts.items client next) }
        ensures limits { self.new.limits ≡ self.old.limits }
        ensures used { OnOk result (self.new.used ≡ self.old.used + 1) }
        ensures opened { self.new.opened ≡ self.old.opened }
        ensures unchanged { OnErr result (HasSameNumbers self.old self.new) }
        ensures rest { OnOk result ((b : List ℕ) → D.reads self.old.disk ≡ Some b
            → HoldsOneMore (D.reads self.new.disk) (D.image self.new.disk) self.old.used b (record_bytes kind client number cost)) }
        ensures any_moment { (b : List ℕ) → KeepsSlots D.reads D.image D.moment D.image_since self.old.disk self.new.disk b (record_bytes kind client number cost) }
        ensures types { cost.types < 2 ^ 64 }
        ensures fields { cost.fields < 2 ^ 64 }
        ensures tells { is_some (D.reads self.new.disk) ≡ is_some (D.reads self.old.disk) }
        ensures count { D.faults self.old.disk ≤ D.faults self.new.disk }
        ensures cause { OnErr result (Rose (D.faults self.old.disk) (D.faults self.new.disk)) }
    {
        append(
            &mut self.disk,
            self.used,
            &record_bytes(kind, client, number, cost),
        )?;
        self.accounts[client as usize] = next;
        self.used += 1;
        Ok(())
    }

    // The window of a grant and its client's account after it; or what is left there.
    fn next_account(&self, client: u32, window: u64, bound: Cost) -> Result<(u64, Account), Cost>
        requires sound { IsSound self.now }
        requires client { client < length self.now.limits.items }
        ensures at { IfOk result (λ next. next.0 ≡ max window (account_in self.now client).window) }
        ensures step { IfOk result (λ next. (s : State) → StandsFor (account_in self.now client) s
            → StepsTo (limit_in self.now client) s (grant_entry client self.now.used next.0 bound) next.1) }
        ensures inside { IfOk result (λ next. KeepsLimit (limit_in self.now client) next.1) }
        ensures reply { IfOk result (λ next. reservation_reply (limit_in self.now client) (account_in self.now client) window bound ≡ granted next.0) }
        ensures account { IfOk result (λ next. next.1 ≡ reserved_account (limit_in self.now client) (account_in self.now client) window bound) }
        ensures short { IfErr result (λ left. reservation_reply (limit_in self.now client) (account_in self.now client) window bound ≡ short left) }
    {
        let mut next = self.accounts[client as usize];
        let at = window.max(next.window);
        match next.reserve(self.limits[client as usize], client, self.used, at, bound) {
            Reply::Short { left } => Err(left),
            Reply::Granted(ticket) => {
                let Ticket {
                    client: _,
                    seq: _,
                    window: _,
                    bound: _,
                } = ticket;
                Ok((at, next))
            }
        }
    }

    // The account of a ticket's client after its settlement.
    fn settled_account(&self, ticket: &KeptTicket, measured: Cost) -> Account
        requires sound { IsSound self.now }
        requires client { ticket.now.client < length self.now.limits.items }
        requires measured { Within ticket.now.bound measured }
        requires window { ticket.now.window ≤ (account_in self.now ticket.now.client).window }
        requires held { ticket.now.window ≡ (account_in self.now ticket.now.client).window
            → Within (account_in self.now ticket.now.client).held ticket.now.bound }
        ensures step { (limit : limit_type.Limit) (s : State)
            → SettlesTo (account_in self.now ticket.now.client) (grant_of ticket.now) self.now.used measured result limit s }
        ensures inside { KeepsLimit (limit_in self.now ticket.now.client) result }
        ensures account { result ≡ settled_account (account_in self.now ticket.now.client) ticket.now.window ticket.now.bound measured }
    {
        let mut next = self.accounts[ticket.client as usize];
        next.settle(
            Ticket {
                client: ticket.client,
                seq: ticket.slot,
                window: ticket.window,
                bound: ticket.bound,
            },
            measured,
        );
        next
    }

    /// Reserves a bound for a client in a window. `Granted` is answered once the grant is on the disk. Where it fails, the
    /// numbers are as before, and the disk has the grant or not: the journal has to be opened again.
    pub fn reserve_mut(
        &mut self,
        client: u32,
        window: u64,
        bound: Cost,
    ) -> Result<KeptReply, JournalFault>
        requires sound { IsSound self.old }
        requires client { client < length self.old.limits.items }
        requires rest { Rests D.reads self.old }
        ensures reply { IfOk result (λ reply. IsAnswered reply client self.old.used bound (answer_in self.old client window bound)) }
        ensures reserved { IfOk result (λ reply. IsReserved reply self.old self.new client window bound) }
        ensures unchanged { OnErr result (HasSameNumbers self.old self.new) }
        ensures sound { IsSound self.new }
        ensures limits { self.new.limits ≡ self.old.limits }
        ensures follows { IfOk result (λ reply. (hs : List Entry) → Follows self.old hs → Follows self.new (hs ++ gained_by reply)) }
        ensures holds { IfOk result (λ reply. (hs : List Entry) → Follows self.old hs → HoldsReply (hs ++ gained_by reply) reply) }
        ensures rest { IfOk result (λ reply. Rests D.reads self.new) }
        ensures stores { IfOk result (λ reply. (hs : List Entry) → Follows self.old hs → Stores D.reads D.image self.old hs
            → Stores D.reads D.image self.new (hs ++ gained_by reply)) }
        ensures any_moment { (hs : List Entry) → KeepsHistory D.reads D.image D.moment D.image_since self.old self.new.disk (entry_in self.old client window bound) hs }
        ensures tells { is_some (D.reads self.new.disk) ≡ is_some (D.reads self.old.disk) }
        ensures count { D.faults self.old.disk ≤ D.faults self.new.disk }
        ensures cause { OnErr result (Rose (D.faults self.old.disk) (D.faults self.new.disk)) }
    {
        if SLOTS - self.used < self.opened + 2 {
            return Ok(KeptReply::Full);
        }
        match self.next_account(client, window, bound) {
            Err(left) => Ok(KeptReply::Short { left }),
            Ok((at, next)) => {
                let slot = self.used;
                match self.write(client, next, 1, at, bound) {
                    Err(DiskFault) => Err(JournalFault::Failed),
                    Ok(()) => {
                        self.opened += 1;
                        Ok(KeptReply::Granted(KeptTicket {
                            client,
                            slot,
                            window: at,
                            bound,
                        }))
                    }
                }
            }
        }
    }

    /// Settles a granted reservation at its measured cost. `Ok` is answered once the settlement is on the disk. It is never
    /// full, since a slot was kept free. Where it fails, the numbers are as before, and the disk has the settlement or not.
    /// The ticket has to be an open one of this journal. That can't be seen by the numbers alone: of a ticket from before an
    /// opening a settlement may be written which a later opening finds to be damage.
    pub fn settle_mut(&mut self, ticket: KeptTicket, measured: Cost) -> Result<(), JournalFault>
        requires sound { IsSound self.old }
        requires rest { Rests D.reads self.old }
        requires may { MaySettle self.old ticket measured }
        ensures settled { OnOk result (IsSettled self.old self.new ticket measured) }
        ensures unchanged { OnErr result (HasSameNumbers self.old self.new) }
        ensures sound { IsSound self.new }
        ensures limits { self.new.limits ≡ self.old.limits }
        ensures follows { OnOk result ((hs : List Entry) → Follows self.old hs → HoldsTicket hs ticket
            → Follows self.new (hs ++ ticket_settlement self.old.used ticket measured ∷ [])) }
        ensures rest { OnOk result (Rests D.reads self.new) }
        ensures stores { OnOk result ((hs : List Entry) → HoldsTicket hs ticket → Stores D.reads D.image self.old hs
            → Stores D.reads D.image self.new (hs ++ ticket_settlement self.old.used ticket measured ∷ [])) }
        ensures any_moment { (hs : List Entry) → HoldsTicket hs ticket
            → KeepsHistory D.reads D.image D.moment D.image_since self.old self.new.disk (ticket_settlement self.old.used ticket measured) hs }
        ensures tells { is_some (D.reads self.new.disk) ≡ is_some (D.reads self.old.disk) }
        ensures count { D.faults self.old.disk ≤ D.faults self.new.disk }
        ensures cause { OnErr result (Rose (D.faults self.old.disk) (D.faults self.new.disk)) }
    {
        let next = self.settled_account(&ticket, measured);
        let KeptTicket { client, slot, .. } = ticket;
        match self.write(client, next, 2, slot, measured) {
            Err(DiskFault) => Err(JournalFault::Failed),
            Ok(()) => {
                self.opened -= 1;
                Ok(())
            }
        }
    }

    /// As `reserve_mut`, but where it fails it hands the disk back, which may be opened again.
    pub fn reserve(
        mut self,
        client: u32,
        window: u64,
        bound: Cost,
    ) -> Result<(Journal<D>, KeptReply), (D, JournalFault)>
        requires sound { IsSound self }
        requires client { client < length self.limits.items }
        requires rest { Rests D.reads self }
        ensures reply { IfOk result (λ r. IsAnswered r.1 client self.used bound (answer_in self client window bound)) }
        ensures reserved { IfOk result (λ r. IsReserved r.1 self r.0 client window bound) }
        ensures sound { IfOk result (λ r. IsSound r.0) }
        ensures limits { IfOk result (λ r. r.0.limits ≡ self.limits) }
        ensures follows { IfOk result (λ r. (hs : List Entry) → Follows self hs → Follows r.0 (hs ++ gained_by r.1)) }
        ensures holds { IfOk result (λ r. (hs : List Entry) → Follows self hs → HoldsReply (hs ++ gained_by r.1) r.1) }
        ensures rest { IfOk result (λ r. Rests D.reads r.0) }
        ensures stores { IfOk result (λ r. (hs : List Entry) → Follows self hs → Stores D.reads D.image self hs
            → Stores D.reads D.image r.0 (hs ++ gained_by r.1)) }
        ensures any_moment { IfOk result (λ r. (hs : List Entry) → KeepsHistory D.reads D.image D.moment D.image_since self r.0.disk (entry_in self client window bound) hs) }
        ensures any_moment_err { IfErr result (λ e. (hs : List Entry) → KeepsHistory D.reads D.image D.moment D.image_since self e.0 (entry_in self client window bound) hs) }
        ensures tells { IfOk result (λ r. is_some (D.reads r.0.disk) ≡ is_some (D.reads self.disk)) }
        ensures tells_err { IfErr result (λ e. is_some (D.reads e.0) ≡ is_some (D.reads self.disk)) }
        ensures count { IfOk result (λ r. D.faults self.disk ≤ D.faults r.0.disk) }
        ensures cause { IfErr result (λ e. Rose (D.faults self.disk) (D.faults e.0)) }
    {
        match self.reserve_mut(client, window, bound) {
            Ok(reply) => Ok((self, reply)),
            Err(fault) => Err((self.into_disk(), fault)),
        }
    }

    /// As `settle_mut`, but where it fails it hands the disk back, which may be opened again.
    pub fn settle(
        mut self,
        ticket: KeptTicket,
        measured: Cost,
    ) -> Result<Journal<D>, (D, JournalFault)>
        requires sound { IsSound self }
        requires rest { Rests D.reads self }
        requires may { MaySettle self ticket measured }
        ensures settled { IfOk result (λ j. IsSettled self j ticket measured) }
        ensures sound { IfOk result (λ j. IsSound j) }
        ensures limits { IfOk result (λ j. j.limits ≡ self.limits) }
        ensures follows { IfOk result (λ j. (hs : List Entry) → Follows self hs → HoldsTicket hs ticket
            → Follows j (hs ++ ticket_settlement self.used ticket measured ∷ [])) }
        ensures rest { IfOk result (λ j. Rests D.reads j) }
        ensures stores { IfOk result (λ j. (hs : List Entry) → HoldsTicket hs ticket → Stores D.reads D.image self hs
            → Stores D.reads D.image j (hs ++ ticket_settlement self.used ticket measured ∷ [])) }
        ensures any_moment { IfOk result (λ j. (hs : List Entry) → HoldsTicket hs ticket
            → KeepsHistory D.reads D.image D.moment D.image_since self j.disk (ticket_settlement self.used ticket measured) hs) }
        ensures any_moment_err { IfErr result (λ e. (hs : List Entry) → HoldsTicket hs ticket
            → KeepsHistory D.reads D.image D.moment D.image_since self e.0 (ticket_settlement self.used ticket measured) hs) }
        ensures tells { IfOk result (λ j. is_some (D.reads j.disk) ≡ is_some (D.reads self.disk)) }
        ensures tells_err { IfErr result (λ e. is_some (D.reads e.0) ≡ is_some (D.reads self.disk)) }
        ensures count { IfOk result (λ j. D.faults self.disk ≤ D.faults j.disk) }
        ensures cause { IfErr result (λ e. Rose (D.faults self.disk) (D.faults e.0)) }
    {
        match self.settle_mut(ticket, measured) {
            Ok(()) => Ok(self),
            Err(fault) => Err((self.into_disk(), fault)),
        }
    }

    /// Whether the numbers allow that a ticket is settled at a cost.
    pub fn may_settle(&self, ticket: &KeptTicket, measured: Cost) -> bool
        requires sound { IsSound self.now }
        ensures may { IsTrue result → MaySettle self.now ticket.now measured }
        ensures only { MaySettle self.now ticket.now measured → IsTrue result }
    {
        if self.opened == 0 || ticket.client as usize >= self.limits.len() {
            return false;
        }
        let account = self.account(ticket.client);
        if !covers(ticket.bound, measured) || account.window < ticket.window {
            return false;
        }
        account.window != ticket.window || covers(account.held, ticket.bound)
    }

    /// The account of a client.
    pub fn account(&self, client: u32) -> Account
        requires sound { IsSound self.now }
        requires client { client < length self.now.limits.items }
        ensures { result ≡ account_in self.now client }
    {
        self.accounts[client as usize]
    }

    /// How many clients there are.
    pub fn clients(&self) -> usize
        ensures { result ≡ length self.now.limits.items }
    {
        self.limits.len()
    }

    /// How many grants are open.
    pub fn opened(&self) -> u64
        ensures { result ≡ self.now.opened }
    {
        self.opened
    }

    /// The disk, to be looked at.
    pub fn disk(&self) -> &D
        ensures { result.now ≡ self.now.disk }
    {
        &self.disk
    }

    /// The disk of a journal that leaves nothing open.
    pub fn close(self) -> D
        requires none { self.opened ≡ 0 }
        ensures { result ≡ self.disk }
    {
        self.into_disk()
    }

    /// The disk of a journal whose call failed, or which is given up. What is open on it is charged its bound once it is opened
    /// again.
    pub fn into_disk(self) -> D
        ensures { result ≡ self.disk }
    {
        let Journal { disk, .. } = self;
        disk
    }
}
