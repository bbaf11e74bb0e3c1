//! What the steps on a cell make of a view. None of these types has a value: a step picks one, and
//! its ghost members say what the step is for.

use crate::View;
use atomic_table::{Join, Split};
use crossbeam_utils::rule::Outcome;
use std::marker::{Brand, PhantomData};

/// What a look is for: a reservation that it may refuse.
pub trait Reserving {
    ghost use Rattle.std.specs.Prelude.{ℕ};
    ghost use Rattle.cost_num.specs.declared.Cost.{Cost};

    ghost number: { ℕ };

    ghost window: { ℕ };

    ghost bound: { Cost };
}

impl Reserving for Brand {
    ghost use Rattle.account_core.specs.Costs.{nothing};

    ghost number = { 0 };

    ghost window = { 0 };

    ghost bound = { nothing };
}

/// A look, which is a refusal where the account doesn't cover the bound.
pub struct LookOrRefusal<K>(PhantomData<K>);

impl<K: Reserving> Outcome<[u64; 7], View> for LookOrRefusal<K> {
    ghost use Rattle.account_cells.specs.Outcomes.{LooksFor};

    ghost then = { LooksFor K.number K.window K.bound };
}

/// What an exchange is for: a call with its reply, and the words that it is to find.
pub trait Calling {
    ghost use Rattle.std.specs.Prelude.{ℕ, List};
    ghost use Rattle.account_core.specs.Machine.{Call, CallReply};

    ghost number: { ℕ };

    ghost call: { Call };

    ghost reply: { CallReply };

    ghost found: { List ℕ };
}

impl Calling for Brand {
    ghost use Rattle.std.specs.Prelude.{[]};
    ghost use Rattle.account_core.specs.Costs.{nothing};
    ghost use Rattle.account_core.specs.Machine.{reservation, done};

    ghost number = { 0 };

    ghost call = { reservation 0 nothing };

    ghost reply = { done };

    ghost found = { [] };
}

/// An exchange, which is the call where it finds those words.
pub struct CallOrLook<K>(PhantomData<K>);

impl<K: Calling> Outcome<[u64; 7], View> for CallOrLook<K> {
    ghost use Rattle.account_cells.specs.Outcomes.{Exchanges};

    ghost then = { Exchanges K.call K.reply K.number K.found };
}

/// What a look is for: a settlement that it may make.
pub trait Settling {
    ghost use Rattle.std.specs.Prelude.{ℕ};
    ghost use Rattle.cost_num.specs.declared.Cost.{Cost};

    ghost number: { ℕ };

    ghost of: { ℕ };

    ghost window: { ℕ };

    ghost bound: { Cost };

    ghost measured: { Cost };
}

impl Settling for Brand {
    ghost use Rattle.account_core.specs.Costs.{nothing};

    ghost number = { 0 };

    ghost of = { 0 };

    ghost window = { 0 };

    ghost bound = { nothing };

    ghost measured = { nothing };
}

/// A look, which is a late settlement where the grant's window is over.
pub struct LookOrSettlement<K>(PhantomData<K>);

impl<K: Settling> Outcome<[u64; 7], View> for LookOrSettlement<K> {
    ghost use Rattle.account_cells.specs.Outcomes.{SettlesLate};

    ghost then = { SettlesLate K.number K.of K.window K.bound K.measured };
}

/// A look after a join, which compares the two histories.
pub struct Comparing;

impl Outcome<[u64; 7], View> for Comparing {
    ghost use Rattle.account_cells.specs.Outcomes.{ComparesShown};

    ghost then = { ComparesShown };
}

/// The last look.
pub struct Closing;

impl Outcome<[u64; 7], View> for Closing {
    ghost use Rattle.account_cells.specs.Outcomes.{SeesWhole};

    ghost then = { SeesWhole };
}

/// What the first split is for: the limit that it sets.
pub trait Limiting {
    ghost use Rattle.account_core.specs.declared.Limit.{Limit};

    ghost limit: { Limit };
}

impl Limiting for Brand {
    ghost use Rattle.account_cells.specs.Views.{no_limit};

    ghost limit = { no_limit };
}

/// The limit is set, and the first view is live.
pub struct SettingLimit<K>(PhantomData<K>);

impl<K: Limiting> Split<View> for SettingLimit<K> {
    ghost use Rattle.account_cells.specs.Views.{no_view, first_view};

    ghost left = { λ _. no_view };

    ghost right = { λ _. first_view K.limit };
}

/// The first view splits off one with the next name.
pub struct SplittingOff;

impl Split<View> for SplittingOff {
    ghost use Rattle.account_cells.specs.Views.{after_split, split_off};

    ghost left = { after_split };

    ghost right = { split_off };
}

/// A view goes over to another pass whole.
pub struct HandingOver;

impl Split<View> for HandingOver {
    ghost use Rattle.account_cells.specs.Views.{no_view};

    ghost left = { λ _. no_view };

    ghost right = { λ v. v };
}

/// The first view takes in another, which ends.
pub struct Joining;

impl Join<View> for Joining {
    ghost use Rattle.account_cells.specs.Views.{at_join, no_view};

    ghost both = { at_join };

    ghost spent = { no_view };
}
