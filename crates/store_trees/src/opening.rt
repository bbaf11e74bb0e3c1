//! A database that is opened: what it has is read, and nothing else may write it from then on.

ghost use Rattle.std.specs.Prelude.{◌≡◌, ◌≢◌, ◌⊎◌, ◌≤◌, nat_lt, false, [], Ok, IsTrue, IfOk, IfErr, OnOk, map, ⊤};
ghost use Rattle.std.specs.List.{list_all};
ghost use Rattle.sqlite_disk.specs.Disk.{MoreFaults};
ghost use Rattle.sqlite_trees.specs.Tree.{Trees};
ghost use Rattle.sqlite_trees.specs.Objects.{catalog_tree};
ghost use Rattle.sqlite_trees.specs.View.{doubt, IsClean, IsQuiet};
ghost use Rattle.sqlite_trees.specs.declared.store.Shape.TheVariants as shape;
ghost use Rattle.store_trees.specs.Tables.{meta_tree, client_tree, account_tree, grant_tree, account_row, grant_row, meta_rows, steps_found};
ghost use Rattle.store_trees.specs.Making.{AreListed, AreMade, HasShapes, HasFreeTrees};
ghost use Rattle.store_trees.specs.Keeping.{AreTables, Rests, OnlyReads, HasRows, HasFound};
ghost use Rattle.store_trees.specs.Opening.{are_below, AreOfClients, IsAtRest, IsFoundOrMade, Shows, MayMake, HasFailed, HasShut, FailsOn, AreAccounts, AreGrants, RefusesMeta, RefusesRows, Refuses, IsPrepared};

use crate::clients::read_next;
use crate::fault::{OpenFault, read_fault};
use crate::found::{account_in, grant_in, meta_of};
use crate::keeping::TreeKeeper;
use crate::making::{FORMAT, are_listed, make_tables};
use crate::places::{ACCOUNT, CLIENT, META, OPEN_GRANT};
use crate::reading::rows_of;
use account_store::{AccountRow, GrantRow};
use sqlite::Alter;
use sqlite_trees::store::Shape;
use sqlite_value::row::Row;
use std::alloc::{AllocError, Global};

/// What a database has of accounts and open grants.
#[derive(Drop)]
pub struct Found {
    /// Each account with its client's number, in the order of the numbers.
    pub accounts: Vec<(u32, AccountRow)>,
    /// The open grants, in the order of the numbers of their calls.
    pub grants: Vec<GrantRow>,
}

fn accounts_in(alloc: Global, rows: &[Row]) -> Result<Vec<(u32, AccountRow)>, OpenFault>
    ensures found { IfOk result (λ found. rows.now ≡ map account_row found.items) }
    ensures refused { IfErr result (FailsOn (AreAccounts rows.now) ⊥) }
{
    let mut found = Vec::new(alloc);
    'rows: for row in rows {
        let Some(account) = account_in(row) else {
            return Err(OpenFault::BadRow);
        };
        found.push(account)?;
    }
    Ok(found)
}

fn grants_in(alloc: Global, rows: &[Row]) -> Result<Vec<GrantRow>, OpenFault>
    ensures found { IfOk result (λ found. rows.now ≡ map grant_row found.items) }
    ensures refused { IfErr result (FailsOn (AreGrants rows.now) ⊥) }
{
    let mut found = Vec::new(alloc);
    'rows: for row in rows {
        let Some(grant) = grant_in(row) else {
            return Err(OpenFault::BadRow);
        };
        found.push(grant)?;
    }
    Ok(found)
}

// Whether the trees are tables.
fn has_tables<S: Alter>(store: &S) -> bool
    ensures rows { IsTrue result → ((S.Store.view store.now).shape account_tree ≡ shape.Table) × ((S.Store.view store.now).shape grant_tree ≡ shape.Table) }
    ensures others { IsTrue result → ((S.Store.view store.now).shape meta_tree ≡ shape.Table) × ((S.Store.view store.now).shape client_tree ≡ shape.Table) }
    ensures all { HasShapes (S.Store.view store.now) → IsTrue result }
{
    let rows = store.shape(ACCOUNT) == Shape::Table && store.shape(OPEN_GRANT) == Shape::Table;
    rows && store.shape(META) == Shape::Table && store.shape(CLIENT) == Shape::Table
}

// Refuses a database whose trees aren't tables.
fn has_shapes<S: Alter>(store: &S) -> Result<(), OpenFault>
    ensures has { OnOk result (HasShapes (S.Store.view store.now)) }
    ensures foreign { IfErr result (λ e. (e ≡ OpenFault.Foreign) × (¬ HasShapes (S.Store.view store.now))) }
{
    if !has_tables(store) {
        return Err(OpenFault::Foreign);
    }
    Ok(())
}

// Whether the trees of the tables are free.
fn is_free<S: Alter>(store: &S) -> bool
    ensures rows { IsTrue result → ((S.Store.view store.now).shape account_tree ≡ shape.Absent) × ((S.Store.view store.now).shape grant_tree ≡ shape.Absent) }
    ensures others { IsTrue result → ((S.Store.view store.now).shape meta_tree ≡ shape.Absent) × ((S.Store.view store.now).shape client_tree ≡ shape.Absent) }
    ensures all { HasFreeTrees (S.Store.view store.now) → IsTrue result }
{
    let rows = store.shape(ACCOUNT) == Shape::Absent && store.shape(OPEN_GRANT) == Shape::Absent;
    rows && store.shape(META) == Shape::Absent && store.shape(CLIENT) == Shape::Absent
}

// The database is of the format that is known here, and of windows of this length.
fn suits(rows: &[Row], seconds: u32) -> Result<(), OpenFault>
    ensures ok { OnOk result (rows.now ≡ meta_rows FORMAT seconds) }
    ensures refused { IfErr result (RefusesMeta rows.now seconds) }
{
    let (format, window) = meta_of(rows).ok_or(OpenFault::Foreign)?;
    if format != FORMAT {
        return Err(OpenFault::Format(format));
    }
    if window != u64::from(seconds) {
        return Err(OpenFault::Window(window));
    }
    Ok(())
}

// Rolls back what isn't committed. Whether the store is sound then.
fn come_to_rest<S: Alter>(store: &mut S) -> bool
    ensures rests { IsTrue result → IsClean (S.Store.view store.new) → IsAtRest (S.Store.view store.old) (S.Store.view store.new) }
    ensures closed { result ≡ false → IsClean (S.Store.view store.new) → IsTrue (S.Store.view store.old).is_open → MoreFaults (S.Store.faults store.old) (S.Store.faults store.new) }
    ensures quiet { IsQuiet S.Store.view S.Store.faults S.Store.recovers S.Store.is_shielded store.old store.new }
{
    store.rollback();
    !store.is_broken()
}

// What a database lists.
#[derive(Clone, Copy)]
enum Listing {
    Nothing,
    Ours,
    Others,
}

fn read_listing<S: Alter>(store: &S, alloc: Global) -> Result<Listing, AllocError>
    ensures nothing { IsClean (S.Store.view store.now) → result ≡ Ok Listing.Nothing → (S.Store.view store.now).trees catalog_tree ≡ [] }
    ensures ours { IsClean (S.Store.view store.now) → result ≡ Ok Listing.Ours → AreListed (S.Store.view store.now).trees }
    ensures others { IsClean (S.Store.view store.now) → result ≡ Ok Listing.Others
        → ((S.Store.view store.now).trees catalog_tree ≢ []) × (¬ AreListed (S.Store.view store.now).trees) }
{
    let objects = store.objects(alloc)?;
    if objects.is_empty() {
        return Ok(Listing::Nothing);
    }
    if are_listed(&objects) {
        return Ok(Listing::Ours);
    }
    Ok(Listing::Others)
}

// Makes the tables where the trees are free.
fn make_free<S: Alter>(store: &mut S, alloc: Global, seconds: u32) -> Result<(), OpenFault>
    requires numbered { IsClean (S.Store.view store.old) → IsTrue (S.Store.view store.old).is_numbered }
    requires nothing { IsClean (S.Store.view store.old) → (S.Store.view store.old).trees catalog_tree ≡ [] }
    requires sound { IsClean (S.Store.view store.old) → (S.Store.view store.old).is_broken ≡ false }
    ensures refused { IfErr result (λ e. IsClean (S.Store.view store.new)
        → ((e ≡ OpenFault.Damaged) × (¬ HasFreeTrees (S.Store.view store.old))) ⊎ FailsOn ⊤ (HasFailed S.Store.view S.Store.faults store.old store.new) e) }
    ensures made { OnOk result (IsClean (S.Store.view store.new) → AreMade (S.Store.view store.new).trees seconds) }
    ensures tables { OnOk result (AreTables (S.Store.view store.new)) }
    ensures rests { OnOk result (Rests (S.Store.view store.new)) }
    ensures sound { OnOk result (IsClean (S.Store.view store.new) → (S.Store.view store.new).is_broken ≡ false) }
    ensures clean { doubt (S.Store.view store.old).is_clean ≤ doubt (S.Store.view store.new).is_clean }
    ensures counts { S.Store.faults store.old ≤ S.Store.faults store.new }
    ensures shield { S.Store.is_shielded store.old → S.Store.is_shielded store.new }
    ensures crash { (db : Trees) → S.Store.recovers store.new db → (IsClean (S.Store.view store.old) × AreMade db seconds) ⊎ S.Store.recovers store.old db }
{
    if !is_free(store) {
        return Err(OpenFault::Damaged);
    }
    match make_tables(store, alloc, seconds) {
        Ok(()) => Ok(()),
        Err(error) => Err(read_fault(error)),
    }
}

fn read_meta<S: Alter>(store: &mut S, alloc: Global, seconds: u32) -> Result<(), OpenFault>
    requires table { AreTables (S.Store.view store.old) }
    ensures found { OnOk result (IsClean (S.Store.view store.new) → (S.Store.view store.old).trees meta_tree ≡ meta_rows FORMAT seconds) }
    ensures same { OnOk result (IsClean (S.Store.view store.new) → OnlyReads (S.Store.view store.old) (S.Store.view store.new)) }
    ensures tables { OnOk result (AreTables (S.Store.view store.new)) }
    ensures refused { IfErr result (λ e. IsClean (S.Store.view store.new) → RefusesRows (S.Store.view store.old).trees seconds (HasFailed S.Store.view S.Store.faults store.old store.new) e) }
    ensures quiet { IsQuiet S.Store.view S.Store.faults S.Store.recovers S.Store.is_shielded store.old store.new }
{
    let rows = rows_of(store, alloc, META)?;
    suits(&rows, seconds)?;
    Ok(())
}

fn read_accounts<S: Alter>(
    store: &mut S,
    alloc: Global,
) -> Result<Vec<(u32, AccountRow)>, OpenFault>
    requires table { AreTables (S.Store.view store.old) }
    ensures found { IfOk result (λ found. IsClean (S.Store.view store.new) → (S.Store.view store.old).trees account_tree ≡ map account_row found.items) }
    ensures same { OnOk result (IsClean (S.Store.view store.new) → OnlyReads (S.Store.view store.old) (S.Store.view store.new)) }
    ensures tables { OnOk result (AreTables (S.Store.view store.new)) }
    ensures refused { IfErr result (λ e. IsClean (S.Store.view store.new) → FailsOn (AreAccounts ((S.Store.view store.old).trees account_tree)) (HasFailed S.Store.view S.Store.faults store.old store.new) e) }
    ensures quiet { IsQuiet S.Store.view S.Store.faults S.Store.recovers S.Store.is_shielded store.old store.new }
{
    let rows = rows_of(store, alloc, ACCOUNT)?;
    let found = accounts_in(alloc, &rows)?;
    Ok(found)
}

fn read_grants<S: Alter>(store: &mut S, alloc: Global) -> Result<Vec<GrantRow>, OpenFault>
    requires table { AreTables (S.Store.view store.old) }
    ensures found { IfOk result (λ found. IsClean (S.Store.view store.new) → (S.Store.view store.old).trees grant_tree ≡ map grant_row found.items) }
    ensures same { OnOk result (IsClean (S.Store.view store.new) → OnlyReads (S.Store.view store.old) (S.Store.view store.new)) }
    ensures tables { OnOk result (AreTables (S.Store.view store.new)) }
    ensures refused { IfErr result (λ e. IsClean (S.Store.view store.new) → FailsOn (AreGrants ((S.Store.view store.old).trees grant_tree)) (HasFailed S.Store.view S.Store.faults store.old store.new) e) }
    ensures quiet { IsQuiet S.Store.view S.Store.faults S.Store.recovers S.Store.is_shielded store.old store.new }
{
    let rows = rows_of(store, alloc, OPEN_GRANT)?;
    let found = grants_in(alloc, &rows)?;
    Ok(found)
}

fn accounts_below(next: u64, accounts: &[(u32, AccountRow)]) -> bool
    ensures { result ≡ list_all (λ a. nat_lt a.0 next) accounts.now }
{
    accounts.iter().all(|account| u64::from(account.0) < next)
}

fn grants_below(next: u64, grants: &[GrantRow]) -> bool
    ensures { result ≡ list_all (λ g. nat_lt g.client next) grants.now }
{
    grants.iter().all(|grant| u64::from(grant.client) < next)
}

// Whether the clients of accounts and open grants have numbers below the next one.
fn are_below(next: u64, accounts: &[(u32, AccountRow)], grants: &[GrantRow]) -> bool
    ensures { result ≡ are_below next accounts.now grants.now }
{
    accounts_below(next, accounts) && grants_below(next, grants)
}

fn read_tables<S: Alter>(store: &mut S, alloc: Global, seconds: u32) -> Result<Found, OpenFault>
    requires tables { AreTables (S.Store.view store.old) }
    ensures tables { OnOk result (AreTables (S.Store.view store.new)) }
    ensures found { IfOk result (λ found. IsClean (S.Store.view store.new) → HasRows (S.Store.view store.new) found.accounts.items found.grants.items) }
    ensures meta { OnOk result (IsClean (S.Store.view store.new) → (S.Store.view store.new).trees meta_tree ≡ meta_rows FORMAT seconds) }
    ensures known { IfOk result (λ found. IsClean (S.Store.view store.new) → AreOfClients (S.Store.view store.new).trees found.accounts.items found.grants.items) }
    ensures same { OnOk result (IsClean (S.Store.view store.new) → OnlyReads (S.Store.view store.old) (S.Store.view store.new)) }
    ensures refused { IfErr result (λ e. IsClean (S.Store.view store.new) → RefusesRows (S.Store.view store.old).trees seconds (HasFailed S.Store.view S.Store.faults store.old store.new) e) }
    ensures quiet { IsQuiet S.Store.view S.Store.faults S.Store.recovers S.Store.is_shielded store.old store.new }
{
    read_meta(store, alloc, seconds)?;
    let accounts = read_accounts(store, alloc)?;
    let grants = read_grants(store, alloc)?;
    let next = read_next(store, alloc)?;
    if !are_below(next, &accounts, &grants) {
        return Err(OpenFault::BadRow);
    }
    Ok(Found { accounts, grants })
}

// Brings a store to rest, and sees to it that it has our tables: they are made where it lists nothing.
fn prepare<S: Alter>(store: &mut S, alloc: Global, seconds: u32) -> Result<(), OpenFault>
    requires numbered { IsClean (S.Store.view store.old) → IsTrue (S.Store.view store.old).is_numbered }
    ensures tables { OnOk result (AreTables (S.Store.view store.new)) }
    ensures rests { OnOk result (Rests (S.Store.view store.new)) }
    ensures sound { OnOk result (IsClean (S.Store.view store.new) → (S.Store.view store.new).is_broken ≡ false) }
    ensures listed { OnOk result (IsClean (S.Store.view store.new) → AreListed (S.Store.view store.new).trees) }
    ensures prepared { OnOk result (IsClean (S.Store.view store.new) → IsPrepared (S.Store.view store.old) (S.Store.view store.new) seconds) }
    ensures refused { IfErr result (λ e. IsClean (S.Store.view store.new) → Refuses (S.Store.view store.old) seconds (HasShut S.Store.view S.Store.faults store.old store.new) e) }
    ensures live { OnOk result (IsClean (S.Store.view store.new) → IsTrue (S.Store.view store.old).is_open) }
    ensures changes { MayMake S.Store.view S.Store.faults S.Store.recovers S.Store.is_shielded seconds store.old store.new }
{
    if !come_to_rest(store) {
        return Err(OpenFault::Disk);
    }
    match read_listing(store, alloc)? {
        Listing::Nothing => {
            make_free(store, alloc, seconds)?;
            Ok(())
        }
        Listing::Ours => {
            has_shapes(store)?;
            Ok(())
        }
        Listing::Others => Err(OpenFault::Foreign),
    }
}

/// Brings a store to rest, makes the tables where it lists nothing, and reads what they have.
///
/// # Errors
///
/// `OpenFault`, which says what the database is where it isn't one of these accounts with windows of so many seconds.
pub fn find<S: Alter>(store: &mut S, alloc: Global, seconds: u32) -> Result<Found, OpenFault>
    requires numbered { IsClean (S.Store.view store.old) → IsTrue (S.Store.view store.old).is_numbered }
    ensures tables { OnOk result (AreTables (S.Store.view store.new)) }
    ensures rests { OnOk result (Rests (S.Store.view store.new)) }
    ensures refused { IfErr result (λ e. IsClean (S.Store.view store.new) → Refuses (S.Store.view store.old) seconds (HasShut S.Store.view S.Store.faults store.old store.new) e) }
    ensures live { OnOk result (IsClean (S.Store.view store.new) → IsTrue (S.Store.view store.old).is_open) }
    ensures stands { OnOk result (IsClean (S.Store.view store.new) → IsFoundOrMade (S.Store.view store.old).committed (S.Store.view store.new).trees seconds) }
    ensures shows { IfOk result (λ found. IsClean (S.Store.view store.new) → Shows (S.Store.view store.new).trees seconds found.accounts.items found.grants.items) }
    ensures found { IfOk result (λ found. IsClean (S.Store.view store.new)
        → HasFound (S.Store.view store.new) (S.Store.recovers store.new) (steps_found found.accounts.items found.grants.items)) }
    ensures changes { MayMake S.Store.view S.Store.faults S.Store.recovers S.Store.is_shielded seconds store.old store.new }
{
    prepare(store, alloc, seconds)?;
    let found = read_tables(store, alloc, seconds)?;
    Ok(found)
}

/// Takes over a store: what isn't committed there is rolled back, the tables are made where it lists nothing, and what they have is read.
///
/// # Errors
///
/// `OpenFault`, which says what the database is where it isn't one of these accounts with windows of so many seconds. The store comes back with it.
pub fn opened<S: Alter + Drop>(
    alloc: Global,
    mut store: S,
    seconds: u32,
) -> Result<(TreeKeeper<S>, Found), (OpenFault, S)>
    requires numbered { IsClean (S.Store.view store) → IsTrue (S.Store.view store).is_numbered }
    ensures live { IfOk result (λ it. IsClean (S.Store.view it.0.store) → IsTrue (S.Store.view store).is_open) }
    ensures stands { IfOk result (λ it. IsClean (S.Store.view it.0.store) → IsFoundOrMade (S.Store.view store).committed (S.Store.view it.0.store).trees seconds) }
    ensures shows { IfOk result (λ it. IsClean (S.Store.view it.0.store) → Shows (S.Store.view it.0.store).trees seconds it.1.accounts.items it.1.grants.items) }
    ensures found { IfOk result (λ it. IsClean (S.Store.view it.0.store)
        → HasFound (S.Store.view it.0.store) (S.Store.recovers it.0.store) (steps_found it.1.accounts.items it.1.grants.items)) }
    ensures changes { IfOk result (λ it. MayMake S.Store.view S.Store.faults S.Store.recovers S.Store.is_shielded seconds store it.0.store) }
    ensures refused { IfErr result (λ e. IsClean (S.Store.view e.1) → Refuses (S.Store.view store) seconds (HasShut S.Store.view S.Store.faults store e.1) e.0) }
    ensures left { IfErr result (λ e. MayMake S.Store.view S.Store.faults S.Store.recovers S.Store.is_shielded seconds store e.1) }
{
    match find(&mut store, alloc, seconds) {
        Ok(found) => Ok((TreeKeeper::over(alloc, store), found)),
        Err(fault) => Err((fault, store)),
    }
}
