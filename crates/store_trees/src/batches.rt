//! Steps as writes to the trees, and a batch of them as one commit.

ghost use Rattle.std.specs.Prelude.{◌≡◌, ◌⊎◌, ◌≤◌, IsTrue, IfErr, OnOk, OnErr, [], ◌∷◌, pos};
ghost use Rattle.sqlite_trees.specs.Tree.{Trees, put_row, without_rowid};
ghost use Rattle.sqlite_trees.specs.View.{doubt, IsClean, SetsTree, IsQuiet, KeepsSchema};
ghost use Rattle.sqlite_trees.specs.declared.store.Shape.TheVariants as shape;
ghost use Rattle.account_store.specs.declared.step.Step.TheVariants.{Accounted, Opened};
ghost use Rattle.account_store.specs.Steps.{grant_of};
ghost use Rattle.store_trees.specs.Tables.{account_tree, grant_tree, account_entry, grant_entry, entered_by};
ghost use Rattle.store_trees.specs.Keeping.{AreTables, Rests, Makes, HasCommitted, Stands, IsSmall};
ghost use Rattle.store_trees.specs.Opening.{HasFailed, KeepFails, StepFails, BatchFails};

use crate::entries::{is_small_account, is_small_grant, rowid_of, write_account, write_grant};
use crate::places::{ACCOUNT, OPEN_GRANT};
use account_store::{AccountRow, GrantRow, Step};
use sqlite::Alter;
use sqlite_trees::error::StoreError;
use sqlite_value::row::Row;

fn put_account<S: Alter>(
    store: &mut S,
    row: &mut Row,
    client: u32,
    account: AccountRow,
) -> Result<(), StoreError>
    requires table { IsClean (S.Store.view store.old) → (S.Store.view store.old).shape account_tree ≡ shape.Table }
    ensures ok { OnOk result (IsClean (S.Store.view store.new) → SetsTree (S.Store.view store.old) (S.Store.view store.new) account_tree (put_row (account_entry client account))) }
    ensures cause { IfErr result (StepFails S.Store.view S.Store.faults store.old store.new (Accounted client account)) }
    ensures schema { KeepsSchema (S.Store.view store.old) (S.Store.view store.new) }
    ensures stands { Stands (S.Store.view store.old) (S.Store.view store.new) }
    ensures quiet { IsQuiet S.Store.view S.Store.faults S.Store.recovers S.Store.is_shielded store.old store.new }
{
    if !is_small_account(account) {
        return Err(StoreError::Unstorable);
    }
    write_account(row, client, account)?;
    store.put(ACCOUNT, row)
}

fn put_grant<S: Alter>(store: &mut S, row: &mut Row, grant: GrantRow) -> Result<(), StoreError>
    requires table { IsClean (S.Store.view store.old) → (S.Store.view store.old).shape grant_tree ≡ shape.Table }
    ensures ok { OnOk result (IsClean (S.Store.view store.new) → SetsTree (S.Store.view store.old) (S.Store.view store.new) grant_tree (put_row (grant_entry (grant_of grant)))) }
    ensures cause { IfErr result (StepFails S.Store.view S.Store.faults store.old store.new (Opened grant)) }
    ensures schema { KeepsSchema (S.Store.view store.old) (S.Store.view store.new) }
    ensures stands { Stands (S.Store.view store.old) (S.Store.view store.new) }
    ensures quiet { IsQuiet S.Store.view S.Store.faults S.Store.recovers S.Store.is_shielded store.old store.new }
{
    if !is_small_grant(grant) {
        return Err(StoreError::Unstorable);
    }
    write_grant(row, grant)?;
    store.put(OPEN_GRANT, row)
}

fn delete_grant<S: Alter>(store: &mut S, number: u64) -> Result<(), StoreError>
    requires table { IsClean (S.Store.view store.old) → (S.Store.view store.old).shape grant_tree ≡ shape.Table }
    ensures ok { OnOk result (IsClean (S.Store.view store.new) → SetsTree (S.Store.view store.old) (S.Store.view store.new) grant_tree (without_rowid (pos number))) }
    ensures cause { IfErr result (λ e. IsClean (S.Store.view store.new) → KeepFails (HasFailed S.Store.view S.Store.faults store.old store.new) (¬ IsSmall number) e) }
    ensures schema { KeepsSchema (S.Store.view store.old) (S.Store.view store.new) }
    ensures stands { Stands (S.Store.view store.old) (S.Store.view store.new) }
    ensures quiet { IsQuiet S.Store.view S.Store.faults S.Store.recovers S.Store.is_shielded store.old store.new }
{
    let Some(id) = rowid_of(number) else {
        return Err(StoreError::Unstorable);
    };
    store.delete(OPEN_GRANT, id)
}

// Makes one step in the transaction.
fn make<S: Alter>(store: &mut S, row: &mut Row, step: Step) -> Result<(), StoreError>
    requires tables { AreTables (S.Store.view store.old) }
    ensures tables { AreTables (S.Store.view store.new) }
    ensures ok { OnOk result (IsClean (S.Store.view store.new) → Makes (S.Store.view store.old) (S.Store.view store.new) (step ∷ [])) }
    ensures schema { KeepsSchema (S.Store.view store.old) (S.Store.view store.new) }
    ensures cause { IfErr result (StepFails S.Store.view S.Store.faults store.old store.new step) }
    ensures stands { Stands (S.Store.view store.old) (S.Store.view store.new) }
    ensures quiet { IsQuiet S.Store.view S.Store.faults S.Store.recovers S.Store.is_shielded store.old store.new }
{
    match step {
        Step::Accounted {
            client,
            row: account,
        } => put_account(store, row, client, account),
        Step::Opened { grant } => put_grant(store, row, grant),
        Step::Closed { client: _, number } => delete_grant(store, number),
    }
}

fn make_all<S: Alter>(store: &mut S, row: &mut Row, steps: &[Step]) -> Result<(), StoreError>
    requires tables { AreTables (S.Store.view store.old) }
    ensures tables { AreTables (S.Store.view store.new) }
    ensures ok { OnOk result (IsClean (S.Store.view store.new) → Makes (S.Store.view store.old) (S.Store.view store.new) steps.now) }
    ensures cause { IfErr result (BatchFails S.Store.view S.Store.faults store.old store.new steps.now) }
    ensures stands { Stands (S.Store.view store.old) (S.Store.view store.new) }
    ensures quiet { IsQuiet S.Store.view S.Store.faults S.Store.recovers S.Store.is_shielded store.old store.new }
{
    'steps: for step in steps {
        make(store, row, *step)?;
    }
    Ok(())
}

/// Makes all steps one after the other and commits them at once. Where it fails none is made, and a crash at any moment leaves all of them or none.
pub fn commit_batch<S: Alter>(
    store: &mut S,
    row: &mut Row,
    steps: &[Step],
) -> Result<(), StoreError>
    requires tables { AreTables (S.Store.view store.old) }
    requires rests { Rests (S.Store.view store.old) }
    ensures ok { OnOk result (IsClean (S.Store.view store.new) → HasCommitted (S.Store.view store.old) (S.Store.view store.new) steps.now) }
    ensures cause { IfErr result (BatchFails S.Store.view S.Store.faults store.old store.new steps.now) }
    ensures err { OnErr result (IsClean (S.Store.view store.new) → IsTrue (S.Store.view store.new).is_open
        → (S.Store.view store.new).committed ≡ (S.Store.view store.old).committed) }
    ensures tables { AreTables (S.Store.view store.new) }
    ensures rests { Rests (S.Store.view store.new) }
    ensures open { OnOk result (IsClean (S.Store.view store.new) → IsTrue (S.Store.view store.new).is_open) }
    ensures clean { doubt (S.Store.view store.old).is_clean ≤ doubt (S.Store.view store.new).is_clean }
    ensures counts { S.Store.faults store.old ≤ S.Store.faults store.new }
    ensures shield { S.Store.is_shielded store.old → S.Store.is_shielded store.new }
    ensures crash { (db : Trees) → S.Store.recovers store.new db
        → (IsClean (S.Store.view store.old) × (db ≡ entered_by (S.Store.view store.old).trees steps.now)) ⊎ S.Store.recovers store.old db }
{
    let made = make_all(store, row, steps);
    match made {
        Ok(()) => store.commit(),
        Err(e) => {
            store.rollback();
            Err(e)
        }
    }
}
