//! Accounts and open grants as rows of the tables have them.

ghost use Rattle.std.specs.Prelude.{◌≡◌, ◌<◌, ◌^◌, ◌+◌, ◌↔◌, ℕ, pos, Some, IfSome, IsTrue, List, length};
ghost use Rattle.sqlite_value.specs.declared.value.Value.TheVariants.{Int, Null, Blob};
ghost use Rattle.sqlite_value.specs.Order.{column};
ghost use Rattle.cost_num.specs.declared.Cost.{Cost as CostType};
ghost use Rattle.account_store.specs.declared.step.AccountRow.{AccountRow as AccountType};
ghost use Rattle.account_store.specs.declared.step.GrantRow.{GrantRow as GrantType};
ghost use Rattle.account_store.specs.Steps.{grant_of};
ghost use Rattle.store_trees.specs.Clients.{client_entry, client_row};
ghost use Rattle.store_trees.specs.Tables.{meta_entry, meta_rows, account_entry, grant_entry};

use account_store::{AccountRow, GrantRow};
use cost_num::Cost;
use sqlite_value::order::is_same;
use sqlite_value::row::Row;
use sqlite_value::value::ValueRef;

/// A number in a column of a row, where there is one that isn't negative.
pub fn number_in(row: &Row, at: usize) -> Option<u64>
    ensures found { IfSome result (λ n. column row.now at ≡ Int (pos n)) }
    ensures all { (n : ℕ) → column row.now at ≡ Int (pos n) → result ≡ Some n }
{
    match row.get(at) {
        ValueRef::Int(n) => u64::try_from(n).ok(),
        _ => None,
    }
}

// Whether a row has so many columns, of which the second one is NULL.
fn has_form(row: &Row, columns: usize) -> bool
    ensures { IsTrue result ↔ ((length row.now ≡ columns) × (column row.now 1 ≡ Null)) }
{
    row.len() == columns && is_same(row.get(1), ValueRef::Null)
}

fn cost_in(row: &Row, at: usize) -> Option<Cost>
    requires { at < 100 }
    ensures found { IfSome result (λ c. (column row.now at ≡ Int (pos c.types)) × (column row.now (at + 1) ≡ Int (pos c.fields))) }
    ensures all { (c : CostType) → column row.now at ≡ Int (pos c.types) → column row.now (at + 1) ≡ Int (pos c.fields) → result ≡ Some c }
{
    Some(Cost {
        types: number_in(row, at)?,
        fields: number_in(row, at + 1)?,
    })
}

fn client_in(row: &Row, at: usize) -> Option<u32>
    ensures found { IfSome result (λ n. column row.now at ≡ Int (pos n)) }
    ensures all { (n : ℕ) → n < 2 ^ 32 → column row.now at ≡ Int (pos n) → result ≡ Some n }
{
    u32::try_from(number_in(row, at)?).ok()
}

/// The client and the account of a row.
#[tactic(auto, using(crate::proofs::Columns::seven_columns))]
pub fn account_in(row: &Row) -> Option<(u32, AccountRow)>
    ensures found { IfSome result (λ found. row.now ≡ account_entry found.0 found.1) }
    ensures all { (client : ℕ) (account : AccountType) → client < 2 ^ 32 → row.now ≡ account_entry client account → result ≡ Some (client, account) }
{
    if !has_form(row, 7) {
        return None;
    }
    let account = AccountRow {
        window: number_in(row, 2)?,
        settled: cost_in(row, 3)?,
        carried: cost_in(row, 5)?,
    };
    Some((client_in(row, 0)?, account))
}

/// The open grant of a row.
#[tactic(auto, using(crate::proofs::Columns::six_columns))]
pub fn grant_in(row: &Row) -> Option<GrantRow>
    ensures found { IfSome result (λ found. row.now ≡ grant_entry (grant_of found)) }
    ensures all { (grant : GrantType) → grant.client < 2 ^ 32 → row.now ≡ grant_entry (grant_of grant) → result ≡ Some grant }
{
    if !has_form(row, 6) {
        return None;
    }
    Some(GrantRow {
        client: client_in(row, 2)?,
        number: number_in(row, 0)?,
        window: number_in(row, 3)?,
        bound: cost_in(row, 4)?,
    })
}

// The sum in a column of a row.
fn sum_in(row: &Row, at: usize) -> Option<[u8; 32]>
    ensures found { IfSome result (λ sum. column row.now at ≡ Blob sum) }
    ensures all { (sum : List ℕ) → length sum ≡ 32 → column row.now at ≡ Blob sum → result ≡ Some sum }
{
    let ValueRef::Blob(bytes) = row.get(at) else {
        return None;
    };
    if bytes.len() != 32 {
        return None;
    }
    let mut sum = [0u8; 32];
    sum.copy_from_slice(bytes);
    Some(sum)
}

/// The client of a row: its number, and the sum of its key.
#[tactic(auto, using(crate::proofs::Columns::three_columns))]
pub fn client_row_in(row: &Row) -> Option<(u32, [u8; 32])>
    ensures found { IfSome result (λ client. row.now ≡ client_row client) }
    ensures all { (number : ℕ) (sum : List ℕ) → number < 2 ^ 32 → length sum ≡ 32 → row.now ≡ client_entry number sum → result ≡ Some (number, sum) }
{
    if !has_form(row, 3) {
        return None;
    }
    let number = client_in(row, 0)?;
    Some((number, sum_in(row, 2)?))
}

// The value of a row of `meta`, where it has this number.
fn meta_in(row: &Row, number: u64) -> Option<u64>
    ensures found { IfSome result (λ value. row.now ≡ meta_entry number value) }
    ensures all { (value : ℕ) → row.now ≡ meta_entry number value → result ≡ Some value }
{
    if !has_form(row, 3) || number_in(row, 0)? != number {
        return None;
    }
    number_in(row, 2)
}

/// The format and the length of a window, in seconds, of the rows of `meta`.
#[tactic(auto, using(crate::proofs::Columns::two_rows))]
pub fn meta_of(rows: &[Row]) -> Option<(u64, u64)>
    ensures found { IfSome result (λ meta. rows.now ≡ meta_rows meta.0 meta.1) }
    ensures all { (format seconds : ℕ) → rows.now ≡ meta_rows format seconds → result ≡ Some (format, seconds) }
{
    if rows.len() != 2 {
        return None;
    }
    Some((meta_in(&rows[0], 1)?, meta_in(&rows[1], 2)?))
}
