//! What an account comes to when its rows are read again.

ghost use Rattle.std.specs.Prelude.{◌≡◌, ◌∷◌, ◌++◌, [], map, IfOk};
ghost use Rattle.cost_num.specs.Within.{Within};
ghost use Rattle.account_core.specs.Costs.{cost, together, counted_in};
ghost use Rattle.account_core.specs.Machine.{held_in};
ghost use Rattle.account_store.specs.declared.step.Step.TheVariants.{Accounted, Closed};
ghost use Rattle.account_store.specs.Steps.{grant_of, charged_row, recovered_account, recovery_steps};

use crate::step::{AccountRow, GrantRow, Step, put_both};
use account_core::Account;
use cost_num::{CAP, Cost};
use std::alloc::AllocError;

// A cost with a grant's bound, where the grant stands in this window.
fn with_bound(sum: Cost, window: u64, grant: &GrantRow) -> Cost
    requires { Within (cost CAP CAP) (together sum (counted_in window grant.now.window grant.now.bound)) }
    ensures { result ≡ together sum (counted_in window grant.now.window grant.now.bound) }
{
    if grant.window != window {
        return sum;
    }
    Cost {
        types: sum.types + grant.bound.types,
        fields: sum.fields + grant.bound.fields,
    }
}

// A cost with the bounds of all grants that stand in this window.
fn with_bounds(settled: Cost, window: u64, grants: &[GrantRow]) -> Cost
    requires { Within (cost CAP CAP) (together settled (held_in window (map grant_of grants.now))) }
    ensures { result ≡ together settled (held_in window (map grant_of grants.now)) }
{
    let mut sum = settled;
    'grants: for grant in grants {
        sum = with_bound(sum, window, grant);
    }
    sum
}

/// A client's account once each of its open grants is settled at its bound, by its row and the rows of these grants. It holds nothing.
///
/// In what is kept the grants stay open until the steps that close them (`put_recovery`) are committed: till then another crash charges them again, from the row before.
///
/// It asks that what is settled and the bounds of the window's grants together are within the cap, as they are where they keep to a limit.
pub fn recovered(row: AccountRow, grants: &[GrantRow]) -> Account
    requires { Within (cost CAP CAP) (together row.settled (held_in row.window (map grant_of grants.now))) }
    ensures { result ≡ recovered_account row (map grant_of grants.now) }
{
    Account {
        window: row.window,
        settled: with_bounds(row.settled, row.window, grants),
        held: Cost {
            types: 0,
            fields: 0,
        },
        carried: row.carried,
    }
}

// Adds the steps that settle one grant at its bound, and gives the row behind them.
fn put_charged(
    batch: &mut Vec<Step>,
    row: AccountRow,
    grant: &GrantRow,
) -> Result<AccountRow, AllocError>
    requires { Within (cost CAP CAP) (together row.settled (counted_in row.window grant.now.window grant.now.bound)) }
    ensures row { IfOk result (λ left. left ≡ charged_row row (grant_of grant.now)) }
    ensures steps { IfOk result (λ left. batch.new.items ≡ batch.old.items ++ Accounted grant.now.client left ∷ Closed grant.now.client grant.now.number ∷ []) }
{
    let row = AccountRow {
        window: row.window,
        settled: with_bound(row.settled, row.window, grant),
        carried: row.carried,
    };
    let client = grant.client;
    let number = grant.number;
    put_both(
        batch,
        Step::Accounted { client, row },
        Step::Closed { client, number },
    )?;
    Ok(row)
}

/// Adds the steps that settle a client's open grants at their bounds, by its row and the rows of these grants, so that another crash doesn't charge them
/// again. It fails for want of memory alone.
///
/// It asks that what is settled and the bounds of the window's grants together are within the cap, as they are where they keep to a limit.
pub fn put_recovery(
    batch: &mut Vec<Step>,
    row: AccountRow,
    grants: &[GrantRow],
) -> Result<(), AllocError>
    requires { Within (cost CAP CAP) (together row.settled (held_in row.window (map grant_of grants.now))) }
    ensures { IfOk result (λ _. batch.new.items ≡ batch.old.items ++ recovery_steps row (map grant_of grants.now)) }
{
    let mut row = row;
    'grants: for grant in grants {
        row = put_charged(batch, row, grant)?;
    }
    Ok(())
}
