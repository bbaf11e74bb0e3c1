//! Rows as the tables have them.

ghost use Rattle.std.specs.Prelude.{◌≡◌, ◌<◌, ◌^◌, ◌↔◌, ◌++◌, ◌∷◌, [], length, pos, IsTrue, IsSome, IfSome, OnOk, IfErr};
ghost use Rattle.sqlite_value.specs.declared.value.Value.TheVariants.{Int, Null};
ghost use Rattle.account_store.specs.Steps.{grant_of};
ghost use Rattle.store_trees.specs.Clients.{client_entry};
ghost use Rattle.store_trees.specs.Keeping.{IsSmall, IsSmallAccount, IsSmallGrant};
ghost use Rattle.store_trees.specs.Tables.{meta_entry, account_entry, grant_entry};

use account_store::{AccountRow, GrantRow};
use sqlite_trees::error::StoreError;
use sqlite_value::row::Row;
use sqlite_value::value::ValueRef;

// Adds a number. The database keeps none above the greatest `i64`.
fn push_number(row: &mut Row, number: u64) -> Result<(), StoreError>
    requires { IsSmall number }
    ensures added { OnOk result (row.new ≡ row.old ++ Int (pos number) ∷ []) }
    ensures memory { IfErr result (λ e. e ≡ StoreError.OutOfMemory) }
{
    let Ok(number) = i64::try_from(number) else {
        return Err(StoreError::Unstorable);
    };
    row.push(ValueRef::Int(number))?;
    Ok(())
}

// Begins a row with its rowid, behind which the key's own column stands as NULL.
fn begin(row: &mut Row, number: u64) -> Result<(), StoreError>
    requires { IsSmall number }
    ensures begun { OnOk result (row.new ≡ Int (pos number) ∷ Null ∷ []) }
    ensures memory { IfErr result (λ e. e ≡ StoreError.OutOfMemory) }
{
    row.clear();
    push_number(row, number)?;
    row.push(ValueRef::Null)?;
    Ok(())
}

/// Writes a row of `meta` over a row.
pub fn write_meta(row: &mut Row, number: u64, value: u64) -> Result<(), StoreError>
    requires number { IsSmall number }
    requires value { IsSmall value }
    ensures written { OnOk result (row.new ≡ meta_entry number value) }
    ensures memory { IfErr result (λ e. e ≡ StoreError.OutOfMemory) }
{
    begin(row, number)?;
    push_number(row, value)
}

/// Writes the row of a client's account over a row.
pub fn write_account(row: &mut Row, client: u32, account: AccountRow) -> Result<(), StoreError>
    requires { IsSmallAccount account }
    ensures written { OnOk result (row.new ≡ account_entry client account) }
    ensures memory { IfErr result (λ e. e ≡ StoreError.OutOfMemory) }
{
    begin(row, u64::from(client))?;
    push_number(row, account.window)?;
    push_number(row, account.settled.types)?;
    push_number(row, account.settled.fields)?;
    push_number(row, account.carried.types)?;
    push_number(row, account.carried.fields)
}

/// Writes the row of a client over a row.
pub fn write_client(row: &mut Row, client: u32, sum: &[u8; 32]) -> Result<(), StoreError>
    ensures written { OnOk result (row.new ≡ client_entry client sum.now) }
    ensures number { client < 2 ^ 32 }
    ensures sum { length sum.now ≡ 32 }
    ensures memory { IfErr result (λ e. e ≡ StoreError.OutOfMemory) }
{
    begin(row, u64::from(client))?;
    row.push(ValueRef::Blob(sum.as_slice()))?;
    Ok(())
}

/// Writes the row of an open grant over a row.
pub fn write_grant(row: &mut Row, grant: GrantRow) -> Result<(), StoreError>
    requires { IsSmallGrant grant }
    ensures written { OnOk result (row.new ≡ grant_entry (grant_of grant)) }
    ensures memory { IfErr result (λ e. e ≡ StoreError.OutOfMemory) }
{
    begin(row, grant.number)?;
    push_number(row, u64::from(grant.client))?;
    push_number(row, grant.window)?;
    push_number(row, grant.bound.types)?;
    push_number(row, grant.bound.fields)
}

/// Whether the database can have a number.
fn is_small(number: u64) -> bool
    ensures { IsTrue result ↔ IsSmall number }
{
    number <= i64::MAX as u64
}

/// Whether the database can have the numbers of an account.
pub fn is_small_account(account: AccountRow) -> bool
    ensures { IsTrue result ↔ IsSmallAccount account }
{
    is_small(account.window)
        && is_small(account.settled.types)
        && is_small(account.settled.fields)
        && is_small(account.carried.types)
        && is_small(account.carried.fields)
}

/// Whether the database can have the numbers of an open grant.
pub fn is_small_grant(grant: GrantRow) -> bool
    ensures { IsTrue result ↔ IsSmallGrant grant }
{
    is_small(grant.number)
        && is_small(grant.window)
        && is_small(grant.bound.types)
        && is_small(grant.bound.fields)
}

/// A grant's rowid, where the database can have it.
pub fn rowid_of(number: u64) -> Option<i64>
    ensures found { IfSome result (λ id. id ≡ pos number) }
    ensures small { IsSmall number → IsSome result }
{
    i64::try_from(number).ok()
}
