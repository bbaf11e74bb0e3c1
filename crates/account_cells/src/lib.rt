//! The account of one client, shared by workers: seven words in one cell, which a step reads or
//! exchanges at once.
//!
//! However the steps of the workers mix, one legal history is made on the account, and the words are
//! the numbers of the state that it leads to. Each worker has a pass to the cell. What the holder of a
//! pass knows is a view: a beginning of the history that it has seen, and the entries of its own name
//! there. Contracts alone see views.
#![tactic(auto)]

ghost use Rattle.std.specs.Prelude.{◌≡◌, ℕ, List, [], true, false, IfOk};
ghost use Rattle.cost_num.specs.Within.{Within};
ghost use Rattle.crossbeam_utils.specs.Seq.{cell_view, IsSamePass};
ghost use Rattle.account_core.specs.Costs.{cost, nothing};
ghost use Rattle.account_core.specs.Machine.{reservation, settlement, granted, done, entry, account_of};
ghost use Rattle.account_core.specs.Numbers.{FitsCap, KeepsLimit, reservation_reply, reserved_account, settled_account, settlement_of, reply_of};
ghost use Rattle.account_core.specs.History.{IsLegal, StartsWith, state_after, entries_by};
ghost use Rattle.account_core.specs.Sums.{open_grants};
ghost use Rattle.account_cells.specs.Views.{unset_view, first_view, after_split, split_off, after_join, longer_of, shorter_of};
ghost use Rattle.account_cells.specs.Rule.{words_of, account_from};
ghost use Rattle.account_cells.specs.Outcomes.{IsFor, IsNew, Owes, KnowsCallers, Looked, Called, CallsOnce, LooksFor, SettlesLate, IsDecision, HasTicketFor};

mod outcomes;

use account_core::{Account, Limit, Reply, Ticket};
use cost_num::{CAP, Cost};
use crossbeam_utils::atomic::seq_cell::{Pass, RuledSeqCell};
use crossbeam_utils::rule::Protocol;
use outcomes::{
    CallOrLook, Calling, Closing, Comparing, HandingOver, Joining, Limiting, LookOrRefusal,
    LookOrSettlement, Reserving, SettingLimit, Settling, SplittingOff,
};
use std::alloc::{AllocError, Global};
use std::marker::{Brand, Model};
use std::sync::Wait;

/// What the holder of a pass knows of the account. No value of it is made.
pub struct View;

impl Model for View {
    ghost use Rattle.account_cells.specs.Views.{View as view_record, no_view};

    ghost Value = { view_record };

    ghost view = { λ _. no_view };
}

/// What every step on the cell keeps: the words are the numbers of one legal history.
pub struct AccountRule;

impl Protocol<[u64; 7], View> for AccountRule {
    ghost use Rattle.account_cells.specs.Rule.{KeepsRule};
    ghost use Rattle.account_cells.specs.Views.{unset_view};

    ghost holds = { KeepsRule };

    ghost first = { unset_view };
}

/// One account, as its window and the two components of what is settled, held and carried.
pub type AccountCell = RuledSeqCell<[u64; 7], View, AccountRule, 7>;

/// A pass to one account.
pub type AccountPass = Pass<[u64; 7], View>;

fn account_in(words: [u64; 7]) -> Account
    ensures { result ≡ account_from words }
{
    let [
        window,
        settled_types,
        settled_fields,
        held_types,
        held_fields,
        carried_types,
        carried_fields,
    ] = words;
    Account {
        window,
        settled: Cost {
            types: settled_types,
            fields: settled_fields,
        },
        held: Cost {
            types: held_types,
            fields: held_fields,
        },
        carried: Cost {
            types: carried_types,
            fields: carried_fields,
        },
    }
}

fn words_in(account: Account) -> [u64; 7]
    ensures { result ≡ words_of account }
{
    let Account {
        window,
        settled,
        held,
        carried,
    } = account;
    [
        window,
        settled.types,
        settled.fields,
        held.types,
        held.fields,
        carried.types,
        carried.fields,
    ]
}

fn set_limit<K: Limiting>(cell: &AccountCell, mut pass: AccountPass, limit: Limit) -> AccountPass
    requires cell { pass.table_id ≡ cell.now.table.shared.table_id }
    requires fresh { cell_view pass ≡ unset_view }
    requires picked { K.limit ≡ limit }
    ensures { (result.table_id ≡ pass.table_id) × (cell_view result ≡ first_view limit) }
{
    cell.split_pass::<SettingLimit<K>>(&mut pass)
}

/// A fresh account with a limit that no step changes, and the first pass to it.
pub fn open(alloc: Global, limit: Limit) -> Result<(AccountCell, AccountPass), AllocError>
    ensures { IfOk result (λ c. (c.1.table_id ≡ c.0.table.shared.table_id) × (cell_view c.1 ≡ first_view limit)) }
{
    let (cell, blank) = AccountCell::ruled(alloc, [0; 7])?;
    let first = set_limit::<Brand>(&cell, blank, limit);
    Ok((cell, first))
}

/// Splits a pass off the first one, under the next name. It has seen as much and made no calls.
pub fn split(cell: &AccountCell, pass: &mut AccountPass) -> AccountPass
    requires cell { pass.old.table_id ≡ cell.now.table.shared.table_id }
    requires first { ((cell_view pass.old).live ≡ true) × ((cell_view pass.old).name ≡ 0) }
    ensures same { IsSamePass pass.old pass.new × (cell_view pass.new ≡ after_split (cell_view pass.old)) }
    ensures new { (result.table_id ≡ pass.old.table_id) × (cell_view result ≡ split_off (cell_view pass.old)) }
{
    cell.split_pass::<SplittingOff>(pass)
}

/// Joins a pass to the first one, which then has seen the longer of their two histories.
pub fn join<R: Wait>(rt: &R, cell: &AccountCell, pass: &mut AccountPass, other: &mut AccountPass)
    requires cell { pass.old.table_id ≡ cell.now.table.shared.table_id }
    requires theirs { other.old.table_id ≡ cell.now.table.shared.table_id }
    requires first { ((cell_view pass.old).live ≡ true) × ((cell_view pass.old).name ≡ 0) }
    requires live { (cell_view other.old).live ≡ true }
    requires idle { open_grants (cell_view other.old).own ≡ [] }
    ensures cell { IsSamePass pass.old pass.new }
    ensures joined { cell_view pass.new ≡ after_join (cell_view pass.old) (cell_view other.old) }
    ensures known { KnowsCallers (cell_view pass.new) }
    ensures own { entries_by (cell_view pass.new).name (cell_view pass.new).seen ≡ (cell_view pass.new).own }
    // The shorter history is a beginning of the longer one.
    ensures nested { StartsWith (longer_of (cell_view pass.old).seen (cell_view other.old).seen) (shorter_of (cell_view pass.old).seen (cell_view other.old).seen) }
{
    let handed_over = cell.split_pass::<HandingOver>(other);
    cell.join_pass::<Joining>(pass, handed_over);
    let _ = cell.load_as::<Comparing, R>(rt, pass);
}

/// The account of the first pass where nobody else is out and no grant of its own is open. What it
/// has seen is the whole history then, and nothing is held.
pub fn close<R: Wait>(rt: &R, cell: &AccountCell, pass: &mut AccountPass) -> Account
    requires cell { pass.old.table_id ≡ cell.now.table.shared.table_id }
    requires first { ((cell_view pass.old).live ≡ true) × ((cell_view pass.old).name ≡ 0) }
    requires alone { (cell_view pass.old).out ≡ [] }
    requires idle { open_grants (cell_view pass.old).own ≡ [] }
    ensures legal { IsLegal (cell_view pass.old).limit (cell_view pass.old).seen }
    ensures account { result ≡ account_of (state_after (cell_view pass.old).limit (cell_view pass.old).seen) }
    ensures idle { result.held ≡ nothing }
{
    account_in(cell.load_as::<Closing, R>(rt, pass))
}

/// One look, which is the refusal where the account doesn't cover the bound.
fn look_or_refuse<K: Reserving, R: Wait>(
    rt: &R,
    cell: &AccountCell,
    pass: &mut AccountPass,
    number: u64,
    window: u64,
    bound: Cost,
) -> [u64; 7]
    requires cell { pass.old.table_id ≡ cell.now.table.shared.table_id }
    requires live { (cell_view pass.old).live ≡ true }
    requires new { IsNew (cell_view pass.old) number }
    requires picked { (K.number ≡ number) × (K.window ≡ window) × (K.bound ≡ bound) }
    ensures cell { IsSamePass pass.old pass.new }
    ensures seen { LooksFor number window bound (cell_view pass.old) result result (cell_view pass.new) }
{
    cell.load_as::<LookOrRefusal<K>, R>(rt, pass)
}

/// One exchange. It answers whether the words were those that were found; then the grant is made.
fn try_grant<K: Calling, R: Wait>(
    rt: &R,
    cell: &AccountCell,
    pass: &mut AccountPass,
    number: u64,
    window: u64,
    bound: Cost,
    at: u64,
    found: [u64; 7],
    next: [u64; 7],
) -> bool
    requires cell { pass.old.table_id ≡ cell.now.table.shared.table_id }
    requires live { (cell_view pass.old).live ≡ true }
    requires new { IsNew (cell_view pass.old) number }
    requires granted { reservation_reply (cell_view pass.old).limit (account_from found) window bound ≡ granted at }
    requires next { next ≡ words_of (reserved_account (cell_view pass.old).limit (account_from found) window bound) }
    requires picked { (K.number ≡ number) × (K.call ≡ reservation window bound) × (K.reply ≡ granted at) × (K.found ≡ found) }
    ensures cell { IsSamePass pass.old pass.new }
    ensures won { result ≡ true → Called (cell_view pass.old) (entry (cell_view pass.old).name number (reservation window bound) (granted at)) found (cell_view pass.new) }
    ensures lost { result ≡ false → (words : List ℕ) × Looked (cell_view pass.old) words (cell_view pass.new) }
{
    cell.compare_exchange_as::<CallOrLook<K>, R>(rt, pass, found, next)
        .is_ok()
}

/// One exchange. It answers whether the words were those that were found; then the settlement is made.
fn try_settle<K: Calling, R: Wait>(
    rt: &R,
    cell: &AccountCell,
    pass: &mut AccountPass,
    number: u64,
    of: u64,
    window: u64,
    bound: Cost,
    measured: Cost,
    found: [u64; 7],
    next: [u64; 7],
) -> bool
    requires cell { pass.old.table_id ≡ cell.now.table.shared.table_id }
    requires live { (cell_view pass.old).live ≡ true }
    requires new { IsNew (cell_view pass.old) number }
    requires owes { Owes (cell_view pass.old) of window bound }
    requires measured { Within bound measured }
    requires next { next ≡ words_of (settled_account (account_from found) window bound measured) }
    requires picked { (K.number ≡ number) × (K.call ≡ settlement of window bound measured) × (K.reply ≡ done) × (K.found ≡ found) }
    ensures cell { IsSamePass pass.old pass.new }
    ensures won { result ≡ true → Called (cell_view pass.old) (entry (cell_view pass.old).name number (settlement of window bound measured) done) found (cell_view pass.new) }
    ensures lost { result ≡ false → (words : List ℕ) × Looked (cell_view pass.old) words (cell_view pass.new) }
{
    cell.compare_exchange_as::<CallOrLook<K>, R>(rt, pass, found, next)
        .is_ok()
}

/// One look, which is the settlement where the grant's window is over.
fn look_or_settle<K: Settling, R: Wait>(
    rt: &R,
    cell: &AccountCell,
    pass: &mut AccountPass,
    number: u64,
    of: u64,
    window: u64,
    bound: Cost,
    measured: Cost,
) -> [u64; 7]
    requires cell { pass.old.table_id ≡ cell.now.table.shared.table_id }
    requires live { (cell_view pass.old).live ≡ true }
    requires new { IsNew (cell_view pass.old) number }
    requires owes { Owes (cell_view pass.old) of window bound }
    requires measured { Within bound measured }
    requires picked { (K.number ≡ number) × (K.of ≡ of) × (K.window ≡ window) × (K.bound ≡ bound) × (K.measured ≡ measured) }
    ensures cell { IsSamePass pass.old pass.new }
    ensures seen { SettlesLate number of window bound measured (cell_view pass.old) result result (cell_view pass.new) }
{
    cell.load_as::<LookOrSettlement<K>, R>(rt, pass)
}

/// What a reservation comes to on the words that were found.
#[derive(Clone, Copy)]
struct Decision {
    granted: bool,
    /// The window of the grant.
    at: u64,
    /// What is left where it isn't granted.
    left: Cost,
    /// The words after the grant.
    next: [u64; 7],
}

fn decide(limit: Limit, number: u64, window: u64, bound: Cost, found: [u64; 7]) -> Decision
    requires cap { FitsCap (cost CAP CAP) limit }
    requires inside { KeepsLimit limit (account_from found) }
    ensures { IsDecision limit window bound found result }
{
    let mut account = account_in(found);
    match account.reserve(limit, 0, number, window, bound) {
        Reply::Short { left } => Decision {
            granted: false,
            at: 0,
            left,
            next: found,
        },
        Reply::Granted(ticket) => {
            let Ticket {
                client: _,
                seq: _,
                window: at,
                bound: _,
            } = ticket;
            Decision {
                granted: true,
                at,
                left: bound,
                next: words_in(account),
            }
        }
    }
}

/// Reserves a bound under a number that is new to the pass. The reply is the account's at one point
/// of the history, which begins with what was seen; where another step comes first it looks again.
pub fn reserve<R: Wait>(
    rt: &R,
    cell: &AccountCell,
    pass: &mut AccountPass,
    limit: Limit,
    client: u32,
    number: u64,
    window: u64,
    bound: Cost,
) -> Reply
    requires cell { pass.old.table_id ≡ cell.now.table.shared.table_id }
    requires ready { IsFor limit (cell_view pass.old) }
    requires new { IsNew (cell_view pass.old) number }
    requires cap { FitsCap (cost CAP CAP) limit }
    ensures cell { IsSamePass pass.old pass.new }
    ensures ticket { HasTicketFor client number bound result }
    ensures call { CallsOnce (cell_view pass.old) (entry (cell_view pass.old).name number (reservation window bound) (reply_of result)) (cell_view pass.new) }
{
    for _ in rt.forever() {
        let found = look_or_refuse::<Brand, R>(rt, cell, pass, number, window, bound);
        let decision = decide(limit, number, window, bound, found);
        if !decision.granted {
            return Reply::Short {
                left: decision.left,
            };
        }
        let at = decision.at;
        if try_grant::<Brand, R>(
            rt,
            cell,
            pass,
            number,
            window,
            bound,
            at,
            found,
            decision.next,
        ) {
            return Reply::Granted(Ticket {
                client,
                seq: number,
                window: at,
                bound,
            });
        }
    }
    unreachable!()
}

/// Settles a grant of the pass at its measured cost, under a number that is new to the pass.
pub fn settle<R: Wait>(
    rt: &R,
    cell: &AccountCell,
    pass: &mut AccountPass,
    limit: Limit,
    number: u64,
    ticket: Ticket,
    measured: Cost,
)
    requires cell { pass.old.table_id ≡ cell.now.table.shared.table_id }
    requires ready { IsFor limit (cell_view pass.old) }
    requires new { IsNew (cell_view pass.old) number }
    requires cap { FitsCap (cost CAP CAP) limit }
    requires owes { Owes (cell_view pass.old) ticket.seq ticket.window ticket.bound }
    requires measured { Within ticket.bound measured }
    ensures cell { IsSamePass pass.old pass.new }
    ensures call { CallsOnce (cell_view pass.old) (entry (cell_view pass.old).name number (settlement_of ticket measured) done) (cell_view pass.new) }
{
    let Ticket {
        client,
        seq,
        window,
        bound,
    } = ticket;
    for _ in rt.forever() {
        let found = look_or_settle::<Brand, R>(
            rt, cell, pass, number, seq, window, bound, measured,
        );
        let mut account = account_in(found);
        if window != account.window {
            return;
        }
        let again = Ticket {
            client,
            seq,
            window,
            bound,
        };
        account.settle(again, measured);
        let next = words_in(account);
        if try_settle::<Brand, R>(
            rt, cell, pass, number, seq, window, bound, measured, found, next,
        ) {
            return;
        }
    }
    unreachable!()
}
