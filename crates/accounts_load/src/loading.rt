//! Rounds of grants and settlements, each said once it is kept.

use account_store::{AccountRow, GrantRow, Keeper, Step};
use cost_num::Cost;
use sqlite::Alter;
use std::alloc::Global;
use std::io::{self, Write};
use store_trees::{Found, TreeKeeper, key_sum};

/// How many rounds are made in a window.
const ROUNDS_IN_A_WINDOW: u64 = 64;

/// Of so many grants one stays open.
const OPEN_ONE_OF: u64 = 7;

/// Numbers stay below this, so that twice a number is one too.
const MOST: u64 = 1_000_000_000_000;

// Says what was found: each account, and each open grant.
fn say_found<W: Write>(alloc: Global, to: &mut W, found: &Found) -> io::Result<()> {
    for account in &found.accounts {
        let (client, row) = account;
        let (window, types, fields) = (row.window, row.settled.types, row.settled.fields);
        let text = format!(in alloc; "account {client} {window} {types} {fields}\n")?;
        to.write_all(text.as_bytes())?;
    }
    for grant in &found.grants {
        let (number, client, window) = (grant.number, grant.client, grant.window);
        let (types, fields) = (grant.bound.types, grant.bound.fields);
        let text = format!(in alloc; "open {number} {client} {window} {types} {fields}\n")?;
        to.write_all(text.as_bytes())?;
    }
    Ok(())
}

// Says the numbers of the clients.
fn say_clients<W: Write>(alloc: Global, to: &mut W, numbers: &[u32]) -> io::Result<()> {
    for number in numbers {
        let text = format!(in alloc; "client {number}\n")?;
        to.write_all(text.as_bytes())?;
    }
    Ok(())
}

// A number past those of all grants and rounds that were found.
fn past_all(found: &Found) -> u64 {
    let mut past = 0u64;
    for account in &found.accounts {
        past = past.max(account.1.settled.types / 2);
    }
    for grant in &found.grants {
        past = past.max(grant.number);
    }
    past.min(MOST) + 1
}

// The account of a client behind the grant of a number, or behind its settlement.
fn row_behind(number: u64, is_settled: bool) -> AccountRow {
    let number = number.min(MOST);
    let types = if is_settled {
        2 * number + 1
    } else {
        2 * number
    };
    AccountRow {
        window: number / ROUNDS_IN_A_WINDOW,
        settled: Cost { types, fields: 7 },
        carried: Cost {
            types: 0,
            fields: 0,
        },
    }
}

// Keeps the steps of a grant, or of its settlement, and says so.
fn keep<K: Keeper, W: Write>(
    alloc: Global,
    to: &mut W,
    keeper: &mut K,
    batch: &[Step],
    said: &str,
    number: u64,
    client: u32,
) -> io::Result<bool> {
    if keeper.commit(batch).is_err() {
        to.write_all(b"failed: the accounts can't be kept\n")?;
        return Ok(false);
    }
    let text = format!(in alloc; "{said} {number} {client}\n")?;
    to.write_all(text.as_bytes())?;
    Ok(true)
}

// Makes a round, and says whether it was kept.
fn make_round<K: Keeper, W: Write>(
    alloc: Global,
    to: &mut W,
    keeper: &mut K,
    client: u32,
    number: u64,
) -> io::Result<bool> {
    let row = row_behind(number, false);
    let bound = Cost {
        types: 2_000_000 + number % 1_000,
        fields: 1_000_000,
    };
    let grant = GrantRow {
        client,
        number,
        window: row.window,
        bound,
    };
    let opening = [Step::Accounted { client, row }, Step::Opened { grant }];
    if !keep(alloc, to, keeper, &opening, "granted", number, client)? {
        return Ok(false);
    }
    if number % OPEN_ONE_OF == 0 {
        return Ok(true);
    }
    let row = row_behind(number, true);
    let closing = [
        Step::Accounted { client, row },
        Step::Closed { client, number },
    ];
    keep(alloc, to, keeper, &closing, "settled", number, client)
}

// Makes rounds from a number on, in turn for each client.
fn load<K: Keeper, W: Write>(
    alloc: Global,
    to: &mut W,
    keeper: &mut K,
    clients: &[u32],
    from: u64,
    rounds: u64,
) -> io::Result<()> {
    for round in 0..rounds {
        let number = from.saturating_add(round);
        let at = if number % 2 == 0 { 0 } else { 1 };
        let Some(client) = clients.get(at) else {
            return Ok(());
        };
        if !make_round(alloc, to, keeper, *client, number)? {
            return Ok(());
        }
    }
    Ok(())
}

/// Says what was found, gives two clients their numbers, and makes rounds.
pub(crate) fn work<S: Alter + Drop, W: Write>(
    alloc: Global,
    to: &mut W,
    opened: (TreeKeeper<S>, Found),
    rounds: u64,
) -> io::Result<()> {
    let (mut keeper, found) = opened;
    say_found(alloc, to, &found)?;
    let sums = [key_sum("reader"), key_sum("guest")];
    match keeper.number_clients(&sums) {
        Ok(numbers) => {
            say_clients(alloc, to, &numbers)?;
            load(alloc, to, &mut keeper, &numbers, past_all(&found), rounds)
        }
        Err(fault) => {
            let text = format!(in alloc; "failed: {fault}\n")?;
            to.write_all(text.as_bytes())
        }
    }
}
