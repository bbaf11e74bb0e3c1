//! The keeper in memory, and accounts that are read again.

ghost use Rattle.std.specs.Prelude.{◌≡◌};
ghost use Rattle.account_core.specs.Costs.{cost};

use crate::{
    AccountRow, Fate, GrantRow, Keeper, MemKeeper, Step, fitted, put_opening, put_recovery,
    recovered,
};
use account_core::{Account, Limit};
use cost_num::Cost;
use std::test::Fail;

fn cost(types: u64, fields: u64) -> Cost
    ensures { result ≡ cost types fields }
{
    Cost { types, fields }
}

/// A batch is kept whole or not at all, and a failed commit may have kept it.
#[test]
fn commits_fail_as_fated(rt: HostRuntime) -> Result<(), Fail> {
    let alloc = rt.alloc();
    let mut fates = Vec::new(alloc);
    fates.push(Fate::FailsAfter)?;
    fates.push(Fate::FailsBefore)?;
    let mut keeper = MemKeeper::new(alloc, fates);
    let account = Account {
        window: 3,
        settled: cost(1, 1),
        held: cost(2, 0),
        carried: cost(0, 0),
    };
    let mut batch = Vec::new(alloc);
    put_opening(&mut batch, 1, account, 7, cost(2, 0))?;
    assert!(rt; keeper.commit(&batch).is_err());
    assert!(rt; keeper.steps().is_empty());
    assert!(rt; keeper.commit(&batch).is_err());
    assert!(rt; keeper.steps().len() == 2);
    assert!(rt; keeper.commit(&batch).is_ok());
    assert!(rt; keeper.steps().len() == 4);
    Ok(())
}

/// Grants of the account's window are charged at their bounds; those of a window before it were charged there.
#[test]
fn open_grants_are_charged(rt: HostRuntime) -> Result<(), Fail> {
    let row = AccountRow {
        window: 3,
        settled: cost(1, 1),
        carried: cost(5, 5),
    };
    let here = GrantRow {
        client: 0,
        number: 1,
        window: 3,
        bound: cost(2, 3),
    };
    let before = GrantRow { window: 2, ..here };
    let account = recovered(row, &[here, before]);
    assert!(rt; account.window == 3);
    assert!(rt; account.settled == cost(3, 4));
    assert!(rt; account.held == cost(0, 0));
    assert!(rt; account.carried == cost(5, 5));
    Ok(())
}

/// The steps of a recovery settle each grant at its bound and close it, so that another one finds nothing to charge.
#[test]
fn recoveries_close_what_they_charge(rt: HostRuntime) -> Result<(), Fail> {
    let row = AccountRow {
        window: 3,
        settled: cost(1, 1),
        carried: cost(5, 5),
    };
    let first = GrantRow {
        client: 4,
        number: 1,
        window: 3,
        bound: cost(2, 3),
    };
    let second = GrantRow { number: 6, ..first };
    let mut batch = Vec::new(rt.alloc());
    put_recovery(&mut batch, row, &[first, second])?;
    assert!(rt; batch.len() == 4);
    assert!(rt;
        batch[1]
            == Step::Closed {
                client: 4,
                number: 1
            }
    );
    let charged = AccountRow {
        settled: cost(5, 7),
        ..row
    };
    assert!(rt;
        batch[2]
            == Step::Accounted {
                client: 4,
                row: charged
            }
    );
    assert!(rt;
        batch[3]
            == Step::Closed {
                client: 4,
                number: 6
            }
    );
    Ok(())
}

/// Under a lower limit nothing more is left than there was.
#[test]
fn a_lower_limit_cuts(rt: HostRuntime) -> Result<(), Fail> {
    let row = AccountRow {
        window: 3,
        settled: cost(9, 1),
        carried: cost(4, 4),
    };
    let limit = Limit {
        allowance: cost(5, 5),
        carry: false,
    };
    let account = fitted(limit, row);
    assert!(rt; account.settled == cost(5, 1));
    assert!(rt; account.carried == cost(0, 0));
    Ok(())
}
