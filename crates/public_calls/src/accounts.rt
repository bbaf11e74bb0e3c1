ghost use Rattle.std.specs.Prelude.{◌≡◌, ◌≤◌, ◌<◌, ◌+◌, ◌^◌, [], length, OnOk};
ghost use Rattle.account_shared.specs.Views.{Belongs, IsIdle, first_label};

use account_core::{Account, Limit, Reply};
use account_shared::{Accounts, Passes};
use cost_num::Cost;
use std::alloc::{AllocError, Global};
use std::sync::Wait;
use std::test::Fail;
use std::thread::{Threads, join};

const BOUND: Cost = Cost {
    types: 2_000,
    fields: 1_000,
};

const ONE: Cost = Cost {
    types: 1_000,
    fields: 1_000,
};

/// The same cost in both components.
fn even(amount: u64) -> Cost {
    Cost {
        types: amount,
        fields: amount,
    }
}

/// Reserves once, and settles at the bound where it is granted. What was left where it is short.
fn spend<R: Wait>(
    rt: &R,
    accounts: &Accounts,
    passes: &mut Passes,
    window: u64,
    bound: Cost,
) -> Option<Cost>
    requires belong { Belongs passes.old accounts.now }
    requires client { 0 < length accounts.now.limits }
    requires made { passes.old.made < 2 ^ 61 }
    requires idle { IsIdle passes.old }
    ensures belong { Belongs passes.new accounts.now }
    ensures made { passes.new.made ≤ passes.old.made + 2 }
    ensures label { passes.new.label ≡ passes.old.label }
    ensures idle { IsIdle passes.new }
{
    match accounts.reserve(rt, passes, 0, window, bound) {
        Reply::Granted(ticket) => {
            accounts.settle(rt, passes, ticket, bound);
            None
        }
        Reply::Short { left } => Some(left),
    }
}

/// How many of four reservations are granted, each in its window.
fn spend_four<R: Wait>(
    rt: &R,
    accounts: &Accounts,
    passes: &mut Passes,
    steps: [(u64, Cost); 4],
) -> u32
    requires belong { Belongs passes.old accounts.now }
    requires client { 0 < length accounts.now.limits }
    requires made { passes.old.made ≡ 0 }
    requires idle { IsIdle passes.old }
    ensures belong { Belongs passes.new accounts.now }
    ensures label { passes.new.label ≡ passes.old.label }
    ensures idle { IsIdle passes.new }
{
    let mut granted = 0u32;
    for at in 0..4usize {
        let (window, bound) = steps[at];
        if spend(rt, accounts, passes, window, bound).is_none() {
            granted = granted.saturating_add(1);
        }
    }
    granted
}

/// The same of passes that are given whole.
fn spend_four_of<R: Wait>(
    rt: &R,
    accounts: &Accounts,
    mut passes: Passes,
    steps: [(u64, Cost); 4],
) -> (u32, Passes)
    requires belong { Belongs passes accounts.now }
    requires client { 0 < length accounts.now.limits }
    requires made { passes.made ≡ 0 }
    requires idle { IsIdle passes }
    ensures belong { Belongs result.1 accounts.now }
    ensures label { result.1.label ≡ passes.label }
    ensures idle { IsIdle result.1 }
{
    let granted = spend_four(rt, accounts, &mut passes, steps);
    (granted, passes)
}

/// The first worker reserves in window 0. While that grant is open another is split off and spends;
/// then the first settles at less, and both are joined. What was left for the other where it is short.
fn spend_beside<R: Wait>(
    rt: &R,
    alloc: Global,
    accounts: &Accounts,
    first: &mut Passes,
    window: u64,
    bound: Cost,
) -> Result<Option<Cost>, AllocError>
    requires belong { Belongs first.old accounts.now }
    requires client { 0 < length accounts.now.limits }
    requires first { (first.old.made ≡ 0) × (first.old.label ≡ first_label) }
    requires idle { IsIdle first.old }
    ensures belong { Belongs first.new accounts.now }
    ensures label { OnOk result ((first.new.label.name ≡ 0) × (first.new.label.out ≡ [])) }
    ensures idle { OnOk result (IsIdle first.new) }
{
    match accounts.reserve(rt, first, 0, 0, BOUND) {
        Reply::Granted(early) => match first.split(alloc, accounts) {
            Ok(mut second) => {
                let left = spend(rt, accounts, &mut second, window, bound);
                accounts.settle(rt, first, early, ONE);
                first.join(rt, accounts, second);
                Ok(left)
            }
            Err(fault) => {
                accounts.settle(rt, first, early, ONE);
                Err(fault)
            }
        },
        Reply::Short { left } => Ok(Some(left)),
    }
}

/// The same on a fresh account. What was left, the calls of the first worker, and the account after all.
fn pair<R: Wait>(
    rt: &R,
    alloc: Global,
    window: u64,
    bound: Cost,
) -> Result<(Option<Cost>, u64, Account), AllocError> {
    let limit = Limit {
        allowance: Cost {
            types: 6_000,
            fields: 6_000,
        },
        carry: false,
    };
    let mut limits = Vec::with_capacity(alloc, 1)?;
    limits.push(limit)?;
    let (accounts, mut first) = Accounts::make(alloc, limits)?;
    let left = spend_beside(rt, alloc, &accounts, &mut first, window, bound)?;
    let made = first.made();
    let totals = accounts.close(rt, first);
    Ok((left, made, totals.account(0)))
}

#[test]
fn settles_beside_another_worker(rt: HostRuntime) -> Result<(), Fail> {
    let bound = Cost {
        types: 5_000,
        fields: 1_000,
    };
    let rest = Cost {
        types: 4_000,
        fields: 5_000,
    };
    // In the same window the other is short. In the next one it is granted, and the first settles late.
    for (window, left, settled) in [(0, Some(rest), ONE), (1, None, bound)] {
        let (found, made, account) = pair(&rt, rt.alloc(), window, bound)?;
        assert_eq!(rt; (found, made), (left, 2));
        assert_eq!(rt; (account.window, account.settled), (window, settled));
        assert_eq!(rt; account.held, even(0));
    }
    Ok(())
}

/// Two workers reserve four times each on an allowance for three. How many were granted, and the
/// account after all.
fn race<R: Threads + Wait + Sync>(rt: &R, alloc: Global) -> Result<(u32, Account), AllocError> {
    let limit = Limit {
        allowance: Cost {
            types: 6_000,
            fields: 6_000,
        },
        carry: false,
    };
    let mut limits = Vec::with_capacity(alloc, 1)?;
    limits.push(limit)?;
    let (accounts, mut first) = Accounts::make(alloc, limits)?;
    let second = first.split(alloc, &accounts)?;
    let shared = &accounts;
    let ((one, mut first), (two, second)) = join(
        rt,
        move || -> (u32, Passes)
            requires { Belongs first shared.now × (0 < length shared.now.limits) × (first.made ≡ 0) × IsIdle first }
            ensures { Belongs result.1 shared.entry.now × (result.1.label ≡ first.label) × IsIdle result.1 }
        { spend_four_of(rt, shared, first, [(0, BOUND); 4]) },
        move || -> (u32, Passes)
            requires { Belongs second shared.now × (0 < length shared.now.limits) × (second.made ≡ 0) × IsIdle second }
            ensures { Belongs result.1 shared.entry.now × (result.1.label ≡ second.label) × IsIdle result.1 }
        { spend_four_of(rt, shared, second, [(0, BOUND); 4]) },
    );
    first.join(rt, &accounts, second);
    let totals = accounts.close(rt, first);
    Ok((one.saturating_add(two), totals.account(0)))
}

#[test]
fn never_grants_more_than_the_allowance(rt: HostRuntime) -> Result<(), Fail> {
    for _ in 0..100u32 {
        let (granted, account) = race(&rt, rt.alloc())?;
        assert_eq!(rt; granted, 3);
        assert_eq!(rt;
            account.settled,
            Cost {
                types: 6_000,
                fields: 3_000
            }
        );
        assert_eq!(rt; account.held, even(0));
    }
    Ok(())
}
