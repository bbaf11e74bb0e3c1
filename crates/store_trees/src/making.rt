//! The tables as they are made, and whether a database has them and no others.

ghost use Rattle.std.specs.Prelude.{codes, ◌≡◌, ◌⊎◌, ◌<◌, ◌≤◌, ◌+◌, ◌↔◌, false, IsTrue, IfErr, OnOk};
ghost use Rattle.sqlite_value.specs.declared.value.Value.TheVariants.{Int, Text};
ghost use Rattle.sqlite_value.specs.Order.{column};
ghost use Rattle.sqlite_trees.specs.Tree.{Trees, put_row};
ghost use Rattle.sqlite_trees.specs.Objects.{object_row};
ghost use Rattle.sqlite_trees.specs.View.{doubt, IsClean, IsQuiet, SetsTree, KeepsSchema};
ghost use Rattle.sqlite_trees.specs.declared.store.Shape.TheVariants as shape;
ghost use Rattle.store_trees.specs.Tables.{meta_tree, meta_entry};
ghost use Rattle.store_trees.specs.Making.{table_name, table_text, catalog_row, listed, tables_listed, AreEmpty, AreMade, HasShapes, IsMaking};
ghost use Rattle.store_trees.specs.Keeping.{AreTables, Rests, IsSmall};
ghost use Rattle.store_trees.specs.Opening.{HasFailed, FailsFor};

use crate::entries::write_meta;
use crate::places::{ACCOUNT, CLIENT, META, OPEN_GRANT};
use sqlite::Alter;
use sqlite_trees::error::StoreError;
use sqlite_trees::schema::Object;
use sqlite_trees::store::Shape;
use sqlite_value::order::is_same;
use sqlite_value::row::Row;
use sqlite_value::value::ValueRef;
use std::alloc::Global;

/// The format of the tables that are made here.
pub const FORMAT: u64 = 1;

/// The user version of a database of accounts: `TCK1` in four bytes.
const MARK: u32 = 0x5443_4b31;

const META_TEXT: &str = "CREATE TABLE meta (id INTEGER PRIMARY KEY, value INTEGER NOT NULL) STRICT";

const CLIENT_TEXT: &str =
    "CREATE TABLE client (id INTEGER PRIMARY KEY, key_sha256 BLOB NOT NULL) STRICT";

const ACCOUNT_TEXT: &str =
    "CREATE TABLE account (id INTEGER PRIMARY KEY, window INTEGER NOT NULL, settled_types INTEGER NOT NULL, settled_fields INTEGER NOT NULL, carried_types INTEGER NOT NULL, carried_fields INTEGER NOT NULL) STRICT";

const GRANT_TEXT: &str =
    "CREATE TABLE open_grant (id INTEGER PRIMARY KEY, client INTEGER NOT NULL, window INTEGER NOT NULL, types INTEGER NOT NULL, fields INTEGER NOT NULL) STRICT";

// The name of a table by its tree.
fn table_name(tree: u32) -> &'static str
    ensures { result.now ≡ table_name tree }
{
    if tree == META {
        "meta"
    } else if tree == CLIENT {
        "client"
    } else if tree == ACCOUNT {
        "account"
    } else {
        "open_grant"
    }
}

// The text of a table by its tree.
fn table_text(tree: u32) -> &'static str
    ensures { result.now ≡ table_text tree }
{
    if tree == META {
        META_TEXT
    } else if tree == CLIENT {
        CLIENT_TEXT
    } else if tree == ACCOUNT {
        ACCOUNT_TEXT
    } else {
        GRANT_TEXT
    }
}

// Whether a row of the schema has this rowid and is a table of this name.
fn is_table_named(object: &Row, number: i64, name: &str) -> bool
    ensures { IsTrue result ↔ ((column object.now 0 ≡ Int number) × (column object.now 1 ≡ Text (codes "table"))
        × (column object.now 2 ≡ Text name.now) × (column object.now 3 ≡ Text name.now)) }
{
    let name = ValueRef::Text(name.as_bytes());
    is_same(object.get(0), ValueRef::Int(number))
        && is_same(object.get(1), ValueRef::Text(b"table"))
        && is_same(object.get(2), name)
        && is_same(object.get(3), name)
}

// Whether a row of the schema is that of our table of this tree.
#[tactic(auto, using(crate::proofs::Columns::five_columns))]
fn is_listed(object: &Row, tree: u32) -> bool
    requires { tree < 4 }
    ensures { IsTrue result ↔ (object.now ≡ listed tree) }
{
    object.len() == 5
        && is_table_named(object, i64::from(tree) + 1, table_name(tree))
        && is_same(object.get(4), ValueRef::Text(table_text(tree).as_bytes()))
}

/// Whether these rows of the schema are those of our tables, each at its place, and no others.
#[tactic(auto, using(crate::proofs::Columns::four_rows))]
pub fn are_listed(objects: &[Row]) -> bool
    ensures { IsTrue result ↔ (objects.now ≡ tables_listed) }
{
    objects.len() == 4
        && is_listed(&objects[0], META)
        && is_listed(&objects[1], CLIENT)
        && is_listed(&objects[2], ACCOUNT)
        && is_listed(&objects[3], OPEN_GRANT)
}

// A table as the store is told of it.
fn object_for(tree: u32) -> Object<'static>
    requires { tree < 4 }
    ensures row { object_row tree result ≡ catalog_row tree }
    ensures shape { result.shape ≡ shape.Table }
    ensures reals { result.reals ≡ 0 }
    ensures name { result.name.now ≡ table_name tree }
{
    let name = table_name(tree);
    Object {
        shape: Shape::Table,
        kind: "table",
        name,
        table: name,
        reals: 0,
        sql: Some(table_text(tree)),
    }
}

// Makes the table of a tree, behind those of the trees before it.
fn make_table<S: Alter>(store: &mut S, tree: u32) -> Result<(), StoreError>
    requires below { tree < 4 }
    requires making { IsClean (S.Store.view store.old) → IsMaking (S.Store.view store.old) tree }
    ensures making { OnOk result (IsClean (S.Store.view store.new) → IsMaking (S.Store.view store.new) (tree + 1)) }
    ensures cause { IfErr result (λ e. IsClean (S.Store.view store.new) → FailsFor (HasFailed S.Store.view S.Store.faults store.old store.new) e) }
    ensures quiet { IsQuiet S.Store.view S.Store.faults S.Store.recovers S.Store.is_shielded store.old store.new }
{
    store.create(tree, &object_for(tree))?;
    Ok(())
}

fn put_meta<S: Alter>(
    store: &mut S,
    row: &mut Row,
    number: u64,
    value: u64,
) -> Result<(), StoreError>
    requires number { IsSmall number }
    requires value { IsSmall value }
    requires table { IsClean (S.Store.view store.old) → (S.Store.view store.old).shape meta_tree ≡ shape.Table }
    requires plain { IsClean (S.Store.view store.old) → (S.Store.view store.old).reals meta_tree ≡ 0 }
    ensures ok { OnOk result (IsClean (S.Store.view store.new) → SetsTree (S.Store.view store.old) (S.Store.view store.new) meta_tree (put_row (meta_entry number value))) }
    ensures schema { KeepsSchema (S.Store.view store.old) (S.Store.view store.new) }
    ensures cause { IfErr result (λ e. IsClean (S.Store.view store.new) → FailsFor (HasFailed S.Store.view S.Store.faults store.old store.new) e) }
    ensures quiet { IsQuiet S.Store.view S.Store.faults S.Store.recovers S.Store.is_shielded store.old store.new }
{
    write_meta(row, number, value)?;
    store.put(META, row)
}

// Says of the tables, which have no rows yet, what they are.
fn say_meta<S: Alter>(store: &mut S, row: &mut Row, seconds: u32) -> Result<(), StoreError>
    requires making { IsClean (S.Store.view store.old) → IsMaking (S.Store.view store.old) 4 }
    ensures made { OnOk result (IsClean (S.Store.view store.new) → AreEmpty (S.Store.view store.new).trees seconds) }
    ensures shapes { OnOk result (IsClean (S.Store.view store.new) → HasShapes (S.Store.view store.new)) }
    ensures numbered { OnOk result (IsClean (S.Store.view store.new) → IsTrue (S.Store.view store.new).is_numbered) }
    ensures sound { OnOk result (IsClean (S.Store.view store.new) → (S.Store.view store.new).is_broken ≡ false) }
    ensures cause { IfErr result (λ e. IsClean (S.Store.view store.new) → FailsFor (HasFailed S.Store.view S.Store.faults store.old store.new) e) }
    ensures quiet { IsQuiet S.Store.view S.Store.faults S.Store.recovers S.Store.is_shielded store.old store.new }
{
    put_meta(store, row, 1, FORMAT)?;
    put_meta(store, row, 2, u64::from(seconds))
}

// Makes the tables in the transaction.
fn make_all<S: Alter>(store: &mut S, row: &mut Row, seconds: u32) -> Result<(), StoreError>
    requires blank { IsClean (S.Store.view store.old) → IsMaking (S.Store.view store.old) 0 }
    ensures made { OnOk result (IsClean (S.Store.view store.new) → AreMade (S.Store.view store.new).trees seconds) }
    ensures shapes { OnOk result (IsClean (S.Store.view store.new) → HasShapes (S.Store.view store.new)) }
    ensures numbered { OnOk result (IsClean (S.Store.view store.new) → IsTrue (S.Store.view store.new).is_numbered) }
    ensures sound { OnOk result (IsClean (S.Store.view store.new) → (S.Store.view store.new).is_broken ≡ false) }
    ensures cause { IfErr result (λ e. IsClean (S.Store.view store.new) → FailsFor (HasFailed S.Store.view S.Store.faults store.old store.new) e) }
    ensures quiet { IsQuiet S.Store.view S.Store.faults S.Store.recovers S.Store.is_shielded store.old store.new }
{
    make_table(store, META)?;
    make_table(store, CLIENT)?;
    make_table(store, ACCOUNT)?;
    make_table(store, OPEN_GRANT)?;
    say_meta(store, row, seconds)?;
    store.set_version(MARK)
}

/// Makes the tables in a database that lists nothing, all in one commit.
///
/// # Errors
///
/// `StoreError` where there is no memory, where the disk fails or is full. A crash at any moment leaves the tables whole, or what was there.
pub fn make_tables<S: Alter>(store: &mut S, alloc: Global, seconds: u32) -> Result<(), StoreError>
    requires blank { IsClean (S.Store.view store.old) → IsMaking (S.Store.view store.old) 0 }
    ensures made { OnOk result (IsClean (S.Store.view store.new) → AreMade (S.Store.view store.new).trees seconds) }
    ensures tables { OnOk result (AreTables (S.Store.view store.new)) }
    ensures rests { OnOk result (Rests (S.Store.view store.new)) }
    ensures sound { OnOk result (IsClean (S.Store.view store.new) → (S.Store.view store.new).is_broken ≡ false) }
    ensures cause { IfErr result (λ e. IsClean (S.Store.view store.new) → FailsFor (HasFailed S.Store.view S.Store.faults store.old store.new) e) }
    ensures clean { doubt (S.Store.view store.old).is_clean ≤ doubt (S.Store.view store.new).is_clean }
    ensures counts { S.Store.faults store.old ≤ S.Store.faults store.new }
    ensures shield { S.Store.is_shielded store.old → S.Store.is_shielded store.new }
    ensures crash { (db : Trees) → S.Store.recovers store.new db → (IsClean (S.Store.view store.old) × AreMade db seconds) ⊎ S.Store.recovers store.old db }
{
    let mut row = Row::new(alloc);
    make_all(store, &mut row, seconds)?;
    store.commit()?;
    Ok(())
}
