//! Clients' keys as numbers: a key keeps its number for good, and a new one gets the next.

ghost use Rattle.std.specs.Prelude.{◌≡◌, ◌⊎◌, ◌≤◌, ◌+◌, ◌<◌, ◌^◌, ◌++◌, ℕ, List, [], ◌∷◌, None, Some, length, IsTrue, IfOk, IfErr, OnOk, map};
ghost use Rattle.std.specs.BTreeMap as tree;
ghost use Rattle.std.specs.Cmp.Lexicographic.{slice_cmp};
ghost use Rattle.std.specs.Ordering.{nat_cmp};
ghost use Rattle.sha2.specs.Sha256.{sha256};
ghost use Rattle.sqlite_trees.specs.Tree.{Trees, put_row};
ghost use Rattle.sqlite_trees.specs.View.{doubt, IsClean, IsQuiet, KeepsSchema, SetsTree};
ghost use Rattle.sqlite_trees.specs.declared.store.Shape.TheVariants as shape;
ghost use Rattle.store_trees.specs.Tables.{client_tree};
ghost use Rattle.store_trees.specs.Keeping.{AreTables, Rests, OnlyReads};
ghost use Rattle.store_trees.specs.Clients.{client_row, number_of, AreKnown, AreClients, IsNextOf, HaveNumbers, IsNext, Grows, PutsClients, Enters, HaveEntered};
ghost use Rattle.store_trees.specs.Opening.{HasFailed, FailsOn, ClientsFail, NumbersFail};

use crate::entries::write_client;
use crate::fault::{OpenFault, read_fault};
use crate::found::client_row_in;
use crate::places::CLIENT;
use crate::reading::rows_of;
use sha2::{Digest, Sha256};
use sqlite::Alter;
use sqlite_trees::error::StoreError;
use sqlite_value::row::Row;
use std::alloc::Global;
use std::collections::BTreeMap;

/// The SHA-256 of a client's key, by which the database knows it.
pub fn key_sum(key: &str) -> [u8; 32]
    ensures { result ≡ sha256 key.now }
{
    Sha256::digest(key)
}

// The clients of the table, in the order of their numbers, and where each sum is among them.
#[derive(Drop)]
struct Known {
    clients: Vec<(u32, [u8; 32])>,
    index: BTreeMap<[u8; 32], u32>,
    next: u64,
}

impl Known {
    fn new(alloc: Global) -> Known
        ensures none { result.clients.items ≡ [] }
        ensures known { AreKnown result.clients.items result.next }
        ensures index { (sum : List ℕ) → tree.get (slice_cmp nat_cmp) result.index sum ≡ number_of result.clients.items sum }
    {
        Known {
            clients: Vec::new(alloc),
            index: BTreeMap::new(alloc),
            next: 0,
        }
    }

    // Adds a client behind the others, where its sum is new and its number past theirs.
    fn add(&mut self, number: u32, sum: [u8; 32]) -> Result<(), OpenFault>
        requires known { AreKnown self.old.clients.items self.old.next }
        requires index { (sum : List ℕ) → tree.get (slice_cmp nat_cmp) self.old.index sum ≡ number_of self.old.clients.items sum }
        ensures known { OnOk result (AreKnown self.new.clients.items self.new.next) }
        ensures index { OnOk result ((sum : List ℕ) → tree.get (slice_cmp nat_cmp) self.new.index sum ≡ number_of self.new.clients.items sum) }
        ensures added { OnOk result (self.new.clients.items ≡ self.old.clients.items ++ (number, sum) ∷ []) }
        ensures number { OnOk result (number_of self.new.clients.items sum ≡ Some number) }
        ensures next { OnOk result (self.new.next ≡ number + 1) }
        ensures refused { IfErr result (FailsOn ((self.old.next ≤ number) × (number_of self.old.clients.items sum ≡ None)) ⊥) }
    {
        if u64::from(number) < self.next {
            return Err(OpenFault::BadRow);
        }
        if self.index.contains_key(&sum) {
            return Err(OpenFault::BadRow);
        }
        self.clients.push((number, sum))?;
        self.index.insert(sum, number)?;
        self.next = u64::from(number) + 1;
        Ok(())
    }

    // The number of a client, which is added where its sum is new.
    fn number(&mut self, sum: [u8; 32]) -> Result<u32, OpenFault>
        requires known { AreKnown self.old.clients.items self.old.next }
        requires index { (sum : List ℕ) → tree.get (slice_cmp nat_cmp) self.old.index sum ≡ number_of self.old.clients.items sum }
        ensures known { OnOk result (AreKnown self.new.clients.items self.new.next) }
        ensures index { OnOk result ((sum : List ℕ) → tree.get (slice_cmp nat_cmp) self.new.index sum ≡ number_of self.new.clients.items sum) }
        ensures number { IfOk result (λ number. number_of self.new.clients.items sum ≡ Some number) }
        ensures grows { OnOk result (IsNext self.old.clients.items self.old.next sum self.new.clients.items self.new.next) }
        ensures refused { IfErr result (FailsOn (self.old.next < 2 ^ 32) ⊥) }
    {
        if let Some(number) = self.index.get(&sum) {
            return Ok(*number);
        }
        let Ok(number) = u32::try_from(self.next) else {
            return Err(OpenFault::BadRow);
        };
        self.add(number, sum)?;
        Ok(number)
    }

    // The numbers of clients, in their order.
    fn numbers(&mut self, alloc: Global, sums: &[[u8; 32]]) -> Result<Vec<u32>, OpenFault>
        requires known { AreKnown self.old.clients.items self.old.next }
        requires index { (sum : List ℕ) → tree.get (slice_cmp nat_cmp) self.old.index sum ≡ number_of self.old.clients.items sum }
        ensures known { OnOk result (AreKnown self.new.clients.items self.new.next) }
        ensures numbers { IfOk result (λ numbers. HaveNumbers self.new.clients.items sums.now numbers.items) }
        ensures grows { OnOk result (Grows self.old.clients.items self.old.next sums.now self.new.clients.items self.new.next) }
        ensures refused { IfErr result (FailsOn (self.old.next + length sums.now ≤ 2 ^ 32) ⊥) }
    {
        let mut numbers = Vec::new(alloc);
        'sums: for sum in sums {
            numbers.push(self.number(*sum)?)?;
        }
        Ok(numbers)
    }
}

// The clients of the rows of the table.
fn known_in(alloc: Global, rows: &[Row]) -> Result<Known, OpenFault>
    ensures rows { IfOk result (λ it. rows.now ≡ map client_row it.clients.items) }
    ensures known { IfOk result (λ it. AreKnown it.clients.items it.next) }
    ensures index { IfOk result (λ it. (sum : List ℕ) → tree.get (slice_cmp nat_cmp) it.index sum ≡ number_of it.clients.items sum) }
    ensures refused { IfErr result (FailsOn (AreClients rows.now) ⊥) }
{
    let mut known = Known::new(alloc);
    'rows: for row in rows {
        let Some(client) = client_row_in(row) else {
            return Err(OpenFault::BadRow);
        };
        let sum = client.1;
        known.add(client.0, sum)?;
    }
    Ok(known)
}

fn put_client<S: Alter>(
    store: &mut S,
    row: &mut Row,
    client: &(u32, [u8; 32]),
) -> Result<(), StoreError>
    requires table { IsClean (S.Store.view store.old) → (S.Store.view store.old).shape client_tree ≡ shape.Table }
    ensures ok { OnOk result (IsClean (S.Store.view store.new) → SetsTree (S.Store.view store.old) (S.Store.view store.new) client_tree (put_row (client_row client.now))) }
    ensures cause { IfErr result (ClientsFail S.Store.view S.Store.faults store.old store.new) }
    ensures schema { KeepsSchema (S.Store.view store.old) (S.Store.view store.new) }
    ensures quiet { IsQuiet S.Store.view S.Store.faults S.Store.recovers S.Store.is_shielded store.old store.new }
{
    write_client(row, client.0, &client.1)?;
    store.put(CLIENT, row)
}

fn put_clients<S: Alter>(
    store: &mut S,
    row: &mut Row,
    clients: &[(u32, [u8; 32])],
) -> Result<(), StoreError>
    requires tables { AreTables (S.Store.view store.old) }
    ensures tables { AreTables (S.Store.view store.new) }
    ensures ok { OnOk result (IsClean (S.Store.view store.new) → PutsClients (S.Store.view store.old) (S.Store.view store.new) clients.now) }
    ensures cause { IfErr result (ClientsFail S.Store.view S.Store.faults store.old store.new) }
    ensures quiet { IsQuiet S.Store.view S.Store.faults S.Store.recovers S.Store.is_shielded store.old store.new }
{
    'clients: for client in clients {
        put_client(store, row, client)?;
    }
    Ok(())
}

fn read_known<S: Alter>(store: &mut S, alloc: Global) -> Result<Known, OpenFault>
    requires tables { AreTables (S.Store.view store.old) }
    ensures rows { IfOk result (λ known. IsClean (S.Store.view store.new) → (S.Store.view store.old).trees client_tree ≡ map client_row known.clients.items) }
    ensures same { OnOk result (IsClean (S.Store.view store.new) → OnlyReads (S.Store.view store.old) (S.Store.view store.new)) }
    ensures known { IfOk result (λ known. AreKnown known.clients.items known.next) }
    ensures index { IfOk result (λ known. (sum : List ℕ) → tree.get (slice_cmp nat_cmp) known.index sum ≡ number_of known.clients.items sum) }
    ensures refused { IfErr result (λ e. IsClean (S.Store.view store.new)
        → FailsOn (AreClients ((S.Store.view store.old).trees client_tree)) (HasFailed S.Store.view S.Store.faults store.old store.new) e) }
    ensures tables { AreTables (S.Store.view store.new) }
    ensures quiet { IsQuiet S.Store.view S.Store.faults S.Store.recovers S.Store.is_shielded store.old store.new }
{
    let rows = rows_of(store, alloc, CLIENT)?;
    let known = known_in(alloc, &rows)?;
    Ok(known)
}

/// The number that the next client gets.
pub fn read_next<S: Alter>(store: &mut S, alloc: Global) -> Result<u64, OpenFault>
    requires tables { AreTables (S.Store.view store.old) }
    ensures next { IfOk result (λ next. IsClean (S.Store.view store.new) → IsNextOf ((S.Store.view store.old).trees client_tree) next) }
    ensures same { OnOk result (IsClean (S.Store.view store.new) → OnlyReads (S.Store.view store.old) (S.Store.view store.new)) }
    ensures refused { IfErr result (λ e. IsClean (S.Store.view store.new)
        → FailsOn (AreClients ((S.Store.view store.old).trees client_tree)) (HasFailed S.Store.view S.Store.faults store.old store.new) e) }
    ensures tables { AreTables (S.Store.view store.new) }
    ensures quiet { IsQuiet S.Store.view S.Store.faults S.Store.recovers S.Store.is_shielded store.old store.new }
{
    let known = read_known(store, alloc)?;
    Ok(known.next)
}

// Finds the numbers of clients, and puts the rows of the new ones in the transaction.
fn put_new<S: Alter>(
    store: &mut S,
    row: &mut Row,
    alloc: Global,
    sums: &[[u8; 32]],
) -> Result<Vec<u32>, OpenFault>
    requires tables { AreTables (S.Store.view store.old) }
    ensures tables { AreTables (S.Store.view store.new) }
    ensures ok { IfOk result (λ numbers. IsClean (S.Store.view store.new) → Enters (S.Store.view store.old).trees (S.Store.view store.new).trees sums.now numbers.items) }
    ensures refused { IfErr result (NumbersFail S.Store.view S.Store.faults store.old store.new (length sums.now)) }
    ensures sound { OnOk result (IsClean (S.Store.view store.new) → (S.Store.view store.new).is_broken ≡ (S.Store.view store.old).is_broken) }
    ensures quiet { IsQuiet S.Store.view S.Store.faults S.Store.recovers S.Store.is_shielded store.old store.new }
{
    let mut known = read_known(store, alloc)?;
    let before = known.clients.as_slice().len();
    let numbers = known.numbers(alloc, sums)?;
    let clients = known.clients.as_slice();
    match put_clients(store, row, &clients[before..]) {
        Ok(()) => Ok(numbers),
        Err(error) => Err(read_fault(error)),
    }
}

/// Finds the numbers of clients by the sums of their keys, in their order, and gives new ones to those that have none yet, all in one commit. Where it fails no number is given, and a
/// crash at any moment leaves all of the new ones or none.
pub fn enter<S: Alter>(
    store: &mut S,
    row: &mut Row,
    alloc: Global,
    sums: &[[u8; 32]],
) -> Result<Vec<u32>, OpenFault>
    requires tables { AreTables (S.Store.view store.old) }
    requires rests { Rests (S.Store.view store.old) }
    ensures tables { AreTables (S.Store.view store.new) }
    ensures rests { Rests (S.Store.view store.new) }
    ensures ok { IfOk result (λ numbers. IsClean (S.Store.view store.new) → Enters (S.Store.view store.old).trees (S.Store.view store.new).trees sums.now numbers.items) }
    ensures refused { IfErr result (NumbersFail S.Store.view S.Store.faults store.old store.new (length sums.now)) }
    ensures committed { OnOk result (IsClean (S.Store.view store.new) → IsTrue (S.Store.view store.new).is_open × ((S.Store.view store.new).committed ≡ (S.Store.view store.new).trees)) }
    ensures clean { doubt (S.Store.view store.old).is_clean ≤ doubt (S.Store.view store.new).is_clean }
    ensures crash { (db : Trees) → S.Store.recovers store.new db
        → (IsClean (S.Store.view store.old) × HaveEntered (S.Store.view store.old).trees db sums.now) ⊎ S.Store.recovers store.old db }
{
    match put_new(store, row, alloc, sums) {
        Ok(numbers) => {
            store.commit().map_err(read_fault)?;
            Ok(numbers)
        }
        Err(fault) => {
            store.rollback();
            Err(fault)
        }
    }
}
