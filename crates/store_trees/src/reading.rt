//! The rows of a table, in their order.

ghost use Rattle.std.specs.Prelude.{◌≡◌, IfOk, IfErr, ⊤};
ghost use Rattle.sqlite_trees.specs.View.{IsClean, IsQuiet, KeepsSchema};
ghost use Rattle.sqlite_trees.specs.declared.store.Shape.TheVariants as shape;
ghost use Rattle.store_trees.specs.Keeping.{Reads};
ghost use Rattle.store_trees.specs.Opening.{HasFailed, FailsFor, FailsOn};

use crate::fault::{OpenFault, read_fault};
use sqlite::Alter;
use sqlite_trees::error::StoreError;
use sqlite_trees::store::Direction;
use sqlite_value::row::Row;
use std::alloc::Global;

/// All rows of a table.
pub fn read_all<S: Alter>(store: &mut S, alloc: Global, tree: u32) -> Result<Vec<Row>, StoreError>
    requires table { IsClean (S.Store.view store.old) → (S.Store.view store.old).shape tree ≡ shape.Table }
    ensures rows { IfOk result (λ rows. IsClean (S.Store.view store.new) → Reads (S.Store.view store.old) (S.Store.view store.new) tree rows.items) }
    ensures cause { IfErr result (λ e. IsClean (S.Store.view store.new) → FailsFor (HasFailed S.Store.view S.Store.faults store.old store.new) e) }
    ensures schema { KeepsSchema (S.Store.view store.old) (S.Store.view store.new) }
    ensures quiet { IsQuiet S.Store.view S.Store.faults S.Store.recovers S.Store.is_shielded store.old store.new }
{
    let mut rows = Vec::new(alloc);
    let mut row = Row::new(alloc);
    store.seek(0, tree, &row, Direction::Forward)?;
    'rows: for _ in 0..u64::MAX {
        if !store.next(0, &mut row)? {
            return Ok(rows);
        }
        rows.push(row.copy(alloc)?)?;
    }
    Err(StoreError::OutOfMemory)
}

/// All rows of a table that an opening reads.
pub fn rows_of<S: Alter>(store: &mut S, alloc: Global, tree: u32) -> Result<Vec<Row>, OpenFault>
    requires table { IsClean (S.Store.view store.old) → (S.Store.view store.old).shape tree ≡ shape.Table }
    ensures rows { IfOk result (λ rows. IsClean (S.Store.view store.new) → Reads (S.Store.view store.old) (S.Store.view store.new) tree rows.items) }
    ensures refused { IfErr result (λ e. IsClean (S.Store.view store.new) → FailsOn ⊤ (HasFailed S.Store.view S.Store.faults store.old store.new) e) }
    ensures schema { KeepsSchema (S.Store.view store.old) (S.Store.view store.new) }
    ensures quiet { IsQuiet S.Store.view S.Store.faults S.Store.recovers S.Store.is_shielded store.old store.new }
{
    match read_all(store, alloc, tree) {
        Ok(rows) => Ok(rows),
        Err(error) => Err(read_fault(error)),
    }
}
