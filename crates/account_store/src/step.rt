//! Rows, and the steps that change them.

ghost use Rattle.std.specs.Prelude.{◌≡◌, ◌++◌, ◌∷◌, [], OnOk, OnErr};
ghost use Rattle.account_store.specs.Steps.{row_of, opening_steps, closing_steps};

use account_core::Account;
use cost_num::Cost;
use std::alloc::AllocError;

/// What is kept of an account. What it holds isn't: that is the bounds of its window's open grants.
#[derive(Clone, Copy, Debug, PartialEq, Eq)]
pub struct AccountRow {
    /// The number of the window that the account has come to.
    pub window: u64,
    /// The measured costs that are settled in the window, in the units of `cost_num`.
    pub settled: Cost,
    /// What was carried into the window, in the same units.
    pub carried: Cost,
}

/// An open grant: a reservation that isn't settled.
#[derive(Clone, Copy, Debug, PartialEq, Eq)]
pub struct GrantRow {
    /// The client, by its number.
    pub client: u32,
    /// The number of the call that was granted.
    pub number: u64,
    /// The window in which it stands.
    pub window: u64,
    /// The most that may be settled for it.
    pub bound: Cost,
}

/// A change of one row.
#[derive(Clone, Copy, Debug, PartialEq, Eq)]
pub enum Step {
    /// The client's account has this row from now on.
    Accounted { client: u32, row: AccountRow },
    /// The grant is open.
    Opened { grant: GrantRow },
    /// The client's grant of this number isn't open any more.
    Closed { client: u32, number: u64 },
}

fn row_for(account: Account) -> AccountRow
    ensures { result ≡ row_of account }
{
    AccountRow {
        window: account.window,
        settled: account.settled,
        carried: account.carried,
    }
}

// Adds two steps, or none.
pub(crate) fn put_both(batch: &mut Vec<Step>, first: Step, second: Step) -> Result<(), AllocError>
    ensures both { OnOk result (batch.new.items ≡ batch.old.items ++ first ∷ second ∷ []) }
    ensures none { OnErr result (batch.new.items ≡ batch.old.items) }
{
    batch.extend_from_slice(&[first, second])
}

/// Adds the steps of a grant, behind which the client's account is this one. It fails for want of memory alone, and adds none then.
pub fn put_opening(
    batch: &mut Vec<Step>,
    client: u32,
    account: Account,
    number: u64,
    bound: Cost,
) -> Result<(), AllocError>
    ensures both { OnOk result (batch.new.items ≡ batch.old.items ++ opening_steps client account number bound) }
    ensures none { OnErr result (batch.new.items ≡ batch.old.items) }
{
    let grant = GrantRow {
        client,
        number,
        window: account.window,
        bound,
    };
    let row = row_for(account);
    put_both(
        batch,
        Step::Accounted { client, row },
        Step::Opened { grant },
    )
}

/// Adds the steps of a settlement of the client's grant of this number, behind which its account is this one. It fails for want of memory alone, and
/// adds none then.
pub fn put_closing(
    batch: &mut Vec<Step>,
    client: u32,
    account: Account,
    number: u64,
) -> Result<(), AllocError>
    ensures both { OnOk result (batch.new.items ≡ batch.old.items ++ closing_steps client account number) }
    ensures none { OnErr result (batch.new.items ≡ batch.old.items) }
{
    let row = row_for(account);
    put_both(
        batch,
        Step::Accounted { client, row },
        Step::Closed { client, number },
    )
}
