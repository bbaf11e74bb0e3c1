//! A row that is read under another limit than the one it was written under.

ghost use Rattle.std.specs.Prelude.{◌≡◌, false};
ghost use Rattle.cost_num.specs.Within.{Within};
ghost use Rattle.account_core.specs.Costs.{cost, smaller, nothing};
ghost use Rattle.account_core.specs.Numbers.{FitsCap, KeepsLimit};
ghost use Rattle.account_store.specs.Fitting.{account_in, fitted_carried, fitted_account, LeavesNoMore};

use crate::step::AccountRow;
use account_core::{Account, Limit};
use cost_num::{CAP, Cost};

const NOTHING: Cost = Cost {
    types: 0,
    fields: 0,
};

fn smaller(a: Cost, b: Cost) -> Cost
    ensures { result ≡ smaller a b }
{
    Cost {
        types: a.types.min(b.types),
        fields: a.fields.min(b.fields),
    }
}

fn carried_under(limit: Limit, carried: Cost) -> Cost
    ensures value { result ≡ fitted_carried limit carried }
    ensures within { Within limit.allowance result }
    ensures plain { limit.carry ≡ false → result ≡ nothing }
{
    if limit.carry {
        smaller(limit.allowance, carried)
    } else {
        NOTHING
    }
}

/// The account of a row under today's limit, with nothing held. It carries at most an allowance, or nothing under a limit without carry, and what is settled is
/// cut to an allowance and what is carried, each part by itself. So it has never more left than the row leaves under that limit, and a row that keeps
/// to the limit is taken as it is.
pub fn fitted(limit: Limit, row: AccountRow) -> Account
    requires cap { FitsCap (cost CAP CAP) limit }
    ensures value { result ≡ fitted_account limit row }
    ensures keeps { KeepsLimit limit result }
    ensures no_more { LeavesNoMore limit row result }
    ensures same { KeepsLimit limit (account_in row) → result ≡ account_in row }
{
    let carried = carried_under(limit, row.carried);
    let room = Cost {
        types: limit.allowance.types + carried.types,
        fields: limit.allowance.fields + carried.fields,
    };
    Account {
        window: row.window,
        settled: smaller(row.settled, room),
        held: NOTHING,
        carried,
    }
}
