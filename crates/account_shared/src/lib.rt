//! The accounts of all clients, shared by workers, and each worker's passes to them.
//!
//! Each client's account is one ruled cell. However the calls of the workers mix, one legal history
//! is made on it, and each reply is the machine's at one point of that history. A worker makes its
//! calls through its own passes, one to each cell. Contracts see in passes what is known of each
//! client: how much of its history was seen, and which entries there are the worker's own.
#![tactic(auto)]

ghost use Rattle.std.specs.Prelude.{◌≡◌, ◌+◌, ◌≤◌, ◌<◌, ◌^◌, ℕ, [], ◌∷◌, length, map, get_or, All, IfOk, OnOk, OnErr, vec_len, vec_capacity};
ghost use Rattle.cost_num.specs.Within.{Within};
ghost use Rattle.account_core.specs.declared.Account as account_type;
ghost use Rattle.account_core.specs.Costs.{cost};
ghost use Rattle.account_core.specs.Machine.{reservation, done, entry};
ghost use Rattle.account_core.specs.Numbers.{FitsCap, settlement_of, reply_of};
ghost use Rattle.account_cells.specs.Views.{no_view, first_view, after_split, split_off};
ghost use Rattle.account_cells.specs.Outcomes.{IsFor, IsNew, Owes, CallsOnce, HasTicketFor};
ghost use Rattle.account_shared.specs.Views.{Belongs, IsIdle, IsOpen, OpensIfGranted, IsKept, JoinsTo, ClosesTo, account_seen, client_at, first_label, label_after_split, label_split_off, label_after_join};
ghost use Rattle.account_shared.specs.Gains.{Gains, client_call};
ghost use Rattle.account_shared.specs.Inside.{IsSlot, IsFirst, IsIdleView, IsAlone, JoinsLane, JoinsReady, lane_cell, lane_view, slot_cell, slot_limit};

pub mod laws;

use account_cells::{AccountCell, AccountPass};
use account_core::{Account, Limit, Reply, Ticket};
use cost_num::{CAP, Cost};
use std::alloc::{AllocError, Global};
use std::marker::Model;
use std::sync::Wait;

/// One client's account with its limit.
#[derive(Drop)]
struct Slot {
    cell: AccountCell,
    limit: Limit,
}

/// A worker's pass to one client's account.
#[derive(Drop)]
struct Lane {
    pass: AccountPass,
}

/// An account for each client.
#[derive(Drop)]
pub struct Accounts {
    slots: Vec<Slot>,
    room: Vec<Account>,
}

impl Model for Accounts {
    ghost use Rattle.account_shared.specs.Views.{AccountsView};
    ghost use Rattle.account_shared.specs.Inside.{accounts_view, accounts_hold};

    ghost Value = { AccountsView };

    ghost view = { accounts_view };

    ghost invariant = { accounts_hold };
}

/// A worker's passes to all accounts, with the number of calls that were made through them.
#[derive(Drop)]
pub struct Passes {
    made: u64,
    lanes: Vec<Lane>,
}

impl Model for Passes {
    ghost use Rattle.account_shared.specs.Views.{PassesView};
    ghost use Rattle.account_shared.specs.Inside.{passes_view, passes_hold};

    ghost Value = { PassesView };

    ghost view = { passes_view };

    ghost invariant = { passes_hold };
}

/// The accounts of all clients after the last call.
#[derive(Drop)]
pub struct Totals {
    accounts: Vec<Account>,
}

impl Model for Totals {
    ghost use Rattle.account_shared.specs.Inside.{totals_view};
    ghost use Rattle.std.specs.Prelude.{List};
    ghost use Rattle.account_core.specs.declared.Account as account_type;

    ghost Value = { List account_type.Account };

    ghost view = { totals_view };
}

fn open_slot(alloc: Global, limit: Limit) -> Result<(Slot, Lane), AllocError>
    ensures { IfOk result (λ o. (o.0.limit ≡ limit) × (lane_cell o.1 ≡ slot_cell o.0) × (lane_view o.1 ≡ first_view limit)) }
{
    let (cell, pass) = account_cells::open(alloc, limit)?;
    Ok((Slot { cell, limit }, Lane { pass }))
}

fn open_all(
    alloc: Global,
    limits: &[Limit],
    slots: &mut Vec<Slot>,
    lanes: &mut Vec<Lane>,
) -> Result<(), AllocError>
    requires slots { slots.old.items ≡ [] }
    requires lanes { lanes.old.items ≡ [] }
    ensures limits { OnOk result (map slot_limit slots.new.items ≡ limits.now) }
    ensures cells { OnOk result (map lane_cell lanes.new.items ≡ map slot_cell slots.new.items) }
    ensures views { OnOk result (map lane_view lanes.new.items ≡ map first_view limits.now) }
{
    for limit in limits {
        let (slot, lane) = open_slot(alloc, *limit)?;
        slots.push(slot)?;
        lanes.push(lane)?;
    }
    Ok(())
}

fn split_lane(slot: &Slot, lane: &mut Lane) -> Lane
    requires cell { lane_cell lane.old ≡ slot_cell slot.now }
    requires first { IsFirst (lane_view lane.old) }
    ensures old { (lane_cell lane.new ≡ lane_cell lane.old) × (lane_view lane.new ≡ after_split (lane_view lane.old)) }
    ensures new { (lane_cell result ≡ lane_cell lane.old) × (lane_view result ≡ split_off (lane_view lane.old)) }
{
    Lane {
        pass: account_cells::split(&slot.cell, &mut lane.pass),
    }
}

fn split_lanes(slots: &[Slot], lanes: &mut Vec<Lane>, into: &mut Vec<Lane>)
    requires cells { map lane_cell lanes.old.items ≡ map slot_cell slots.now }
    requires first { All (λ l. IsFirst (lane_view l)) lanes.old.items }
    requires empty { into.old.items ≡ [] }
    requires room { vec_len lanes.old ≤ vec_capacity into.old }
    ensures cells { map lane_cell lanes.new.items ≡ map lane_cell lanes.old.items }
    ensures views { map lane_view lanes.new.items ≡ map (λ l. after_split (lane_view l)) lanes.old.items }
    ensures new_cells { map lane_cell into.new.items ≡ map lane_cell lanes.old.items }
    ensures new_views { map lane_view into.new.items ≡ map (λ l. split_off (lane_view l)) lanes.old.items }
{
    for at in 0..lanes.len() {
        let twin = split_lane(&slots[at], &mut lanes[at]);
        into.push_reserved(twin);
    }
}

fn join_lane<R: Wait>(rt: &R, slot: &Slot, lane: &mut Lane, other: &mut Lane)
    requires cell { lane_cell lane.old ≡ slot_cell slot.now }
    requires theirs { lane_cell other.old ≡ slot_cell slot.now }
    requires first { IsFirst (lane_view lane.old) }
    requires idle { IsIdleView (lane_view other.old) }
    ensures joined { JoinsLane (lane_view other.old) lane.old lane.new }
{
    account_cells::join(rt, &slot.cell, &mut lane.pass, &mut other.pass);
}

fn join_lanes<R: Wait>(rt: &R, slots: &[Slot], lanes: &mut Vec<Lane>, others: &mut Vec<Lane>)
    requires cells { map lane_cell lanes.old.items ≡ map slot_cell slots.now }
    requires theirs { map lane_cell others.old.items ≡ map slot_cell slots.now }
    requires first { All (λ l. IsFirst (lane_view l)) lanes.old.items }
    requires idle { All (λ l. IsIdleView (lane_view l)) others.old.items }
    ensures cells { map lane_cell lanes.new.items ≡ map lane_cell lanes.old.items }
    ensures joined { (k : ℕ) → k < length lanes.old.items → JoinsReady (get_or (map lane_view others.old.items) k no_view)
        (get_or (map lane_view lanes.old.items) k no_view) (get_or (map lane_view lanes.new.items) k no_view) }
{
    for at in 0..lanes.len() {
        join_lane(rt, &slots[at], &mut lanes[at], &mut others[at]);
    }
}

fn close_lane<R: Wait>(rt: &R, slot: &Slot, lane: &mut Lane) -> Account
    requires cell { lane_cell lane.old ≡ slot_cell slot.now }
    requires first { IsFirst (lane_view lane.old) }
    requires alone { IsAlone (lane_view lane.old) }
    ensures { ClosesTo (lane_view lane.old) result }
{
    account_cells::close(rt, &slot.cell, &mut lane.pass)
}

fn close_lanes<R: Wait>(rt: &R, slots: &[Slot], lanes: &mut Vec<Lane>, into: &mut Vec<Account>)
    requires cells { map lane_cell lanes.old.items ≡ map slot_cell slots.now }
    requires first { All (λ l. IsFirst (lane_view l)) lanes.old.items }
    requires alone { All (λ l. IsAlone (lane_view l)) lanes.old.items }
    requires empty { into.old.items ≡ [] }
    requires room { length lanes.old.items ≤ vec_capacity into.old }
    ensures accounts { into.new.items ≡ map (λ l. account_seen (lane_view l)) lanes.old.items }
    ensures closed { All (λ l. ClosesTo (lane_view l) (account_seen (lane_view l))) lanes.old.items }
{
    for at in 0..lanes.len() {
        let account = close_lane(rt, &slots[at], &mut lanes[at]);
        into.push_reserved(account);
    }
}

fn reserve_in<R: Wait>(
    rt: &R,
    slot: &Slot,
    lane: &mut Lane,
    client: u32,
    number: u64,
    window: u64,
    bound: Cost,
) -> Reply
    requires cell { lane_cell lane.old ≡ slot_cell slot.now }
    requires slot { IsSlot slot.now }
    requires ready { IsFor slot.now.limit (lane_view lane.old) }
    requires new { IsNew (lane_view lane.old) number }
    ensures cell { lane_cell lane.new ≡ lane_cell lane.old }
    ensures ticket { HasTicketFor client number bound result }
    ensures call { CallsOnce (lane_view lane.old) (entry (lane_view lane.old).name number (reservation window bound) (reply_of result)) (lane_view lane.new) }
{
    account_cells::reserve(
        rt,
        &slot.cell,
        &mut lane.pass,
        slot.limit,
        client,
        number,
        window,
        bound,
    )
}

fn settle_in<R: Wait>(
    rt: &R,
    slot: &Slot,
    lane: &mut Lane,
    number: u64,
    ticket: Ticket,
    measured: Cost,
)
    requires cell { lane_cell lane.old ≡ slot_cell slot.now }
    requires slot { IsSlot slot.now }
    requires ready { IsFor slot.now.limit (lane_view lane.old) }
    requires new { IsNew (lane_view lane.old) number }
    requires owes { Owes (lane_view lane.old) ticket.seq ticket.window ticket.bound }
    requires measured { Within ticket.bound measured }
    ensures cell { lane_cell lane.new ≡ lane_cell lane.old }
    ensures call { CallsOnce (lane_view lane.old) (entry (lane_view lane.old).name number (settlement_of ticket measured) done) (lane_view lane.new) }
{
    account_cells::settle(
        rt,
        &slot.cell,
        &mut lane.pass,
        slot.limit,
        number,
        ticket,
        measured,
    );
}

impl Accounts {
    /// Fresh accounts of as many clients as there are limits, and the first passes to them, through
    /// which nothing was seen.
    ///
    /// The room for the totals is taken here, so that closing takes no memory.
    pub fn make(alloc: Global, limits: Vec<Limit>) -> Result<(Accounts, Passes), AllocError>
        requires count { (1 ≤ vec_len limits) × (vec_len limits ≤ 1000) }
        requires limits { All (FitsCap (cost CAP CAP)) limits.items }
        ensures limits { IfOk result (λ m. m.0.limits ≡ limits.items) }
        ensures belong { IfOk result (λ m. Belongs m.1 m.0) }
        ensures clients { IfOk result (λ m. m.1.clients ≡ map first_view limits.items) }
        ensures first { IfOk result (λ m. (m.1.made ≡ 0) × (m.1.label ≡ first_label)) }
    {
        let count = limits.len();
        let mut slots = Vec::with_capacity(alloc, count)?;
        let mut lanes = Vec::with_capacity(alloc, count)?;
        let room = Vec::with_capacity(alloc, count)?;
        open_all(alloc, &limits, &mut slots, &mut lanes)?;
        Ok((Accounts { slots, room }, Passes { made: 0, lanes }))
    }

    /// Reserves a bound at a client's account, in a window or in the account's own if that is later.
    ///
    /// The reply is the machine's at one point of the client's one history, which begins with what
    /// was seen: it is short exactly where the account at that point doesn't cover the bound. It takes
    /// no memory, and may wait for the steps of other workers.
    pub fn reserve<R: Wait>(
        &self,
        rt: &R,
        passes: &mut Passes,
        client: u32,
        window: u64,
        bound: Cost,
    ) -> Reply
        requires belong { Belongs passes.old self.now }
        requires client { client < length self.now.limits }
        requires made { passes.old.made < 2 ^ 62 }
        ensures belong { Belongs passes.new self.now }
        ensures ticket { HasTicketFor client passes.old.made bound result }
        ensures granted { OpensIfGranted passes.new client result }
        ensures call { Gains passes.old passes.new (client_call client (reservation window bound) (reply_of result) ∷ []) }
    {
        let index = client as usize;
        let number = passes.made;
        let slot = &self.slots[index];
        let lane = &mut passes.lanes[index];
        let reply = reserve_in(rt, slot, lane, client, number, window, bound);
        passes.made = number + 1;
        reply
    }

    /// Settles a grant that was made through these passes, at its measured cost.
    ///
    /// It takes no memory, and may wait for the steps of other workers.
    pub fn settle<R: Wait>(&self, rt: &R, passes: &mut Passes, ticket: Ticket, measured: Cost)
        requires belong { Belongs passes.old self.now }
        requires made { passes.old.made < 2 ^ 63 }
        requires granted { IsOpen passes.old ticket.client ticket.seq ticket.window ticket.bound }
        requires measured { Within ticket.bound measured }
        ensures belong { Belongs passes.new self.now }
        ensures call { Gains passes.old passes.new (client_call ticket.client (settlement_of ticket measured) done ∷ []) }
    {
        let index = ticket.client as usize;
        let number = passes.made;
        let slot = &self.slots[index];
        let lane = &mut passes.lanes[index];
        settle_in(rt, slot, lane, number, ticket, measured);
        passes.made = number + 1;
    }

    /// Closes the accounts, where all passes that were split off have been joined and no grant is
    /// open. What the first passes have seen is the whole history of each client then.
    pub fn close<R: Wait>(self, rt: &R, mut passes: Passes) -> Totals
        requires belong { Belongs passes self }
        requires first { passes.label.name ≡ 0 }
        requires alone { passes.label.out ≡ [] }
        requires idle { IsIdle passes }
        ensures accounts { result ≡ map account_seen passes.clients }
        ensures closed { (k : ℕ) → k < length passes.clients → ClosesTo (client_at passes k) (account_seen (client_at passes k)) }
    {
        let Accounts { slots, mut room } = self;
        close_lanes(rt, &slots, &mut passes.lanes, &mut room);
        Totals { accounts: room }
    }
}

impl Totals {
    /// A client's account after the last call.
    pub fn account(&self, client: u32) -> Account
        requires { client < length self.now }
        ensures { (d : account_type.Account) → result ≡ get_or self.now client d }
    {
        self.accounts[client as usize]
    }
}

impl Passes {
    /// Splits passes off the first ones, under the next name. They have seen as much, and no call was
    /// made through them. All memory is taken before the first step.
    pub fn split(&mut self, alloc: Global, accounts: &Accounts) -> Result<Passes, AllocError>
        requires belong { Belongs self.old accounts.now }
        requires first { self.old.label.name ≡ 0 }
        ensures refused { OnErr result (self.new ≡ self.old) }
        ensures made { self.new.made ≡ self.old.made }
        ensures clients { OnOk result (self.new.clients ≡ map after_split self.old.clients) }
        ensures label { OnOk result (self.new.label ≡ label_after_split self.old.label) }
        ensures belong { Belongs self.new accounts.now }
        ensures new_clients { IfOk result (λ p. p.clients ≡ map split_off self.old.clients) }
        ensures new_label { IfOk result (λ p. (p.made ≡ 0) × (p.label ≡ label_split_off self.old.label)) }
        ensures new_belong { IfOk result (λ p. Belongs p accounts.now) }
    {
        let mut lanes = Vec::with_capacity(alloc, self.lanes.len())?;
        split_lanes(&accounts.slots, &mut self.lanes, &mut lanes);
        Ok(Passes { made: 0, lanes })
    }

    /// Joins passes that have no grant open to the first ones. For each client the longer of the two
    /// histories is seen then, and the shorter is a beginning of it. It takes no memory.
    pub fn join<R: Wait>(&mut self, rt: &R, accounts: &Accounts, mut other: Passes)
        requires belong { Belongs self.old accounts.now }
        requires theirs { Belongs other accounts.now }
        requires first { self.old.label.name ≡ 0 }
        requires idle { IsIdle other }
        ensures made { self.new.made ≡ self.old.made }
        ensures label { self.new.label ≡ label_after_join self.old.label other.label }
        ensures belong { Belongs self.new accounts.now }
        ensures joined { (k : ℕ) → k < length self.old.clients → JoinsTo (client_at other k) (client_at self.old k) (client_at self.new k) }
    {
        join_lanes(rt, &accounts.slots, &mut self.lanes, &mut other.lanes);
    }

    /// The number of calls that were made through these passes.
    pub fn made(&self) -> u64
        ensures count { result ≡ self.now.made }
        // Each client's history, as far as it was seen, is legal and keeps to the allowance.
        ensures kept { (client : ℕ) → client < length self.now.clients → IsKept (client_at self.now client) }
    {
        self.made
    }
}

fn shared<T: Send + Sync>() {}

fn sent<T: Send>() {}

/// Threads may share the accounts, and a thread may be sent its passes.
pub fn accounts_are_shared() {
    shared::<Accounts>();
    sent::<Passes>();
}
