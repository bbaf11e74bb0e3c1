//! A keeper over a database in memory.

use crate::{Found, OpenFault, TreeKeeper, key_sum, opened};
use account_store::{AccountRow, GrantRow, Keeper, Step};
use cost_num::Cost;
use sqlite::{Connection, MemStore};
use std::test::Fail;

const SECONDS: u32 = 60;

const ACCOUNT: AccountRow = AccountRow {
    window: 3,
    settled: Cost {
        types: 1,
        fields: 2,
    },
    carried: Cost {
        types: 3,
        fields: 4,
    },
};

const GRANT: GrantRow = GrantRow {
    client: 0,
    number: 7,
    window: 3,
    bound: Cost {
        types: 6,
        fields: 8,
    },
};

fn database(rt: &HostRuntime) -> Result<MemStore, Fail> {
    let conn = Connection::open_in_memory(rt.alloc())?;
    Ok(conn.into_store())
}

fn keeper(rt: &HostRuntime) -> Result<TreeKeeper<MemStore>, Fail> {
    match opened(rt.alloc(), database(rt)?, SECONDS) {
        Ok((keeper, _)) => Ok(keeper),
        Err((fault, _)) => Err(Fail::from(fault)),
    }
}

fn found(rt: &HostRuntime, keeper: TreeKeeper<MemStore>) -> Result<Found, Fail> {
    match opened(rt.alloc(), keeper.into_store(), SECONDS) {
        Ok((_, found)) => Ok(found),
        Err((fault, _)) => Err(Fail::from(fault)),
    }
}

/// What was committed is found again, in the order of its numbers, and a grant that was closed isn't there.
#[test]
fn commits_are_found_again(rt: HostRuntime) -> Result<(), Fail> {
    let mut keeper = keeper(&rt)?;
    keeper.number_clients(&[key_sum("reader")])?;
    let account = Step::Accounted {
        client: 0,
        row: ACCOUNT,
    };
    let first = Step::Opened { grant: GRANT };
    let second = Step::Opened {
        grant: GrantRow { number: 9, ..GRANT },
    };
    assert!(rt; keeper.commit(&[account, first, second]).is_ok());
    let closed = Step::Closed {
        client: 0,
        number: 7,
    };
    assert!(rt; keeper.commit(&[closed]).is_ok());
    let found = found(&rt, keeper)?;
    assert!(rt; found.accounts.len() == 1);
    assert!(rt; found.accounts[0] == (0, ACCOUNT));
    assert!(rt; found.grants.len() == 1);
    assert!(rt; found.grants[0] == GrantRow { number: 9, ..GRANT });
    Ok(())
}

/// An account of a client that the database doesn't have is no row of it.
#[test]
fn strangers_are_refused(rt: HostRuntime) -> Result<(), Fail> {
    let mut keeper = keeper(&rt)?;
    let account = Step::Accounted {
        client: 0,
        row: ACCOUNT,
    };
    assert!(rt; keeper.commit(&[account]).is_ok());
    let again = opened(rt.alloc(), keeper.into_store(), SECONDS);
    assert!(rt; matches!(again, Err((OpenFault::BadRow, _))));
    Ok(())
}

/// A batch with a number that the database can't have leaves nothing.
#[test]
fn batches_fail_whole(rt: HostRuntime) -> Result<(), Fail> {
    let mut keeper = keeper(&rt)?;
    let account = Step::Accounted {
        client: 0,
        row: ACCOUNT,
    };
    let far = Step::Opened {
        grant: GrantRow {
            window: u64::MAX,
            ..GRANT
        },
    };
    assert!(rt; keeper.commit(&[account, far]).is_err());
    let found = found(&rt, keeper)?;
    assert!(rt; found.accounts.is_empty());
    assert!(rt; found.grants.is_empty());
    Ok(())
}

/// Another length of windows and other tables are told.
#[test]
fn other_databases_are_told(rt: HostRuntime) -> Result<(), Fail> {
    let keeper = keeper(&rt)?;
    let other = opened(rt.alloc(), keeper.into_store(), 61);
    assert!(rt; matches!(other, Err((OpenFault::Window(60), _))));
    let mut conn = Connection::open_in_memory(rt.alloc())?;
    conn.execute_batch("CREATE TABLE note (id INTEGER PRIMARY KEY) STRICT")?;
    let foreign = opened(rt.alloc(), conn.into_store(), SECONDS);
    assert!(rt; matches!(foreign, Err((OpenFault::Foreign, _))));
    Ok(())
}
