//! A database as what keeps steps.

ghost use Rattle.std.specs.Prelude.{◌≡◌, ◌⊎◌, ◌≤◌, List, length, IsTrue, IfOk, IfErr, OnOk, OnErr};
ghost use Rattle.account_store.specs.declared.step.Step.{Step as StepType};
ghost use Rattle.account_store.specs.Numbers.{ComesTo};
ghost use Rattle.outside.specs.Faults.{Rose};
ghost use Rattle.sqlite_trees.specs.Tree.{Trees};
ghost use Rattle.sqlite_trees.specs.View.{doubt, IsClean};
ghost use Rattle.store_trees.specs.Tables.{entered_by};
ghost use Rattle.store_trees.specs.Clients.{Enters, HaveEntered};
ghost use Rattle.store_trees.specs.Opening.{BatchFault, NumbersFail};
ghost use Rattle.store_trees.specs.Keeping.{AreTables, Rests, HasCommitted};

use crate::batches::commit_batch;
use crate::clients::enter;
use crate::fault::{OpenFault, keeper_fault};
use account_store::{Keeper, KeeperFault, Step};
use sqlite::Alter;
use sqlite_value::row::Row;
use std::alloc::Global;

/// The accounts and open grants of a database.
#[derive(Drop)]
pub struct TreeKeeper<S: Alter + Drop> {
    store: S,
    row: Row,
    alloc: Global,
    faults: u64,
    ghost tables: { AreTables (S.Store.view store) },
    ghost rests: { Rests (S.Store.view store) },
}

impl<S: Alter + Drop> TreeKeeper<S> {
    // A keeper over a store that has the tables, and nothing pending.
    pub(crate) fn over(alloc: Global, store: S) -> TreeKeeper<S>
        requires tables { AreTables (S.Store.view store) }
        requires rests { Rests (S.Store.view store) }
        ensures store { result.store ≡ store }
        ensures faults { result.faults ≡ 0 }
    {
        TreeKeeper {
            store,
            row: Row::new(alloc),
            alloc,
            faults: 0,
        }
    }

    /// Gives the store back, with what was committed.
    pub fn into_store(self) -> S
        ensures store { result ≡ self.store }
        ensures numbered { IsClean (S.Store.view result) → IsTrue (S.Store.view result).is_numbered }
    {
        let TreeKeeper {
            store,
            row: _,
            alloc: _,
            faults: _,
        } = self;
        store
    }

    fn failed(&mut self)
        ensures store { self.new.store ≡ self.old.store }
        ensures rose { Rose self.old.faults self.new.faults }
    {
        self.faults = self.faults.saturating_add(1);
    }

    /// The numbers of clients by the sums of their keys (`key_sum`), in their order. A sum that the database hasn't gets the next number, and the new ones are one commit. The
    /// accounts and open grants stay what they are.
    ///
    /// # Errors
    ///
    /// `OpenFault` where there is no memory, where the disk fails, or where a row is none of a client. Whether the new ones were added is found when the database is opened again: all of them, or none.
    pub fn number_clients(&mut self, sums: &[[u8; 32]]) -> Result<Vec<u32>, OpenFault>
        ensures entered { IfOk result (λ numbers. IsClean (S.Store.view self.new.store)
            → Enters (S.Store.view self.old.store).trees (S.Store.view self.new.store).trees sums.now numbers.items) }
        ensures refused { IfErr result (NumbersFail S.Store.view S.Store.faults self.old.store self.new.store (length sums.now)) }
        ensures holds { OnOk result ((steps : List StepType) → ⟦<TreeKeeper<S> as Keeper>⟧.holds self.old steps → ⟦<TreeKeeper<S> as Keeper>⟧.holds self.new steps) }
        ensures finds { (before found : List StepType) → ⟦<TreeKeeper<S> as Keeper>⟧.holds self.old before → ⟦<TreeKeeper<S> as Keeper>⟧.finds self.new found
            → ⟦<TreeKeeper<S> as Keeper>⟧.finds self.old found ⊎ ComesTo found before }
        ensures left { (db : Trees) → S.Store.recovers self.new.store db
            → (IsClean (S.Store.view self.old.store) × HaveEntered (S.Store.view self.old.store).trees db sums.now) ⊎ S.Store.recovers self.old.store db }
        ensures faults { self.new.faults ≡ self.old.faults }
    {
        let alloc = self.alloc;
        enter(&mut self.store, &mut self.row, alloc, sums)
    }

    // Commits a batch, and counts where that failed.
    fn keep(&mut self, batch: &[Step]) -> Result<(), KeeperFault>
        ensures ok { OnOk result (IsClean (S.Store.view self.new.store) → HasCommitted (S.Store.view self.old.store) (S.Store.view self.new.store) batch.now) }
        ensures open { OnOk result (IsClean (S.Store.view self.new.store) → IsTrue (S.Store.view self.new.store).is_open) }
        ensures clean { doubt (S.Store.view self.old.store).is_clean ≤ doubt (S.Store.view self.new.store).is_clean }
        ensures crash { (db : Trees) → S.Store.recovers self.new.store db
            → (IsClean (S.Store.view self.old.store) × (db ≡ entered_by (S.Store.view self.old.store).trees batch.now)) ⊎ S.Store.recovers self.old.store db }
        ensures count { OnOk result (self.new.faults ≡ self.old.faults) }
        ensures cause { OnErr result (Rose self.old.faults self.new.faults) }
        ensures reason { IfErr result (BatchFault S.Store.view S.Store.faults self.old.store self.new.store batch.now) }
    {
        match commit_batch(&mut self.store, &mut self.row, batch) {
            Ok(()) => Ok(()),
            Err(error) => {
                self.failed();
                Err(keeper_fault(error))
            }
        }
    }
}

impl<S: Alter + Drop> Keeper for TreeKeeper<S> {
    ghost use Rattle.sqlite_trees.specs.Tree.{Trees, no_trees};
    ghost use Rattle.sqlite_trees.specs.View.{IsClean};
    ghost use Rattle.account_store.specs.Steps.{no_rows};
    ghost use Rattle.account_store.specs.Numbers.{AreNumbered};
    ghost use Rattle.store_trees.specs.Tables.{entered_by, AgreeOnRows};
    ghost use Rattle.store_trees.specs.Opening.{BatchFault};

    ghost holds = { λ keeper steps. IsClean (S.Store.view keeper.store) → AgreeOnRows (S.Store.view keeper.store).trees (entered_by no_trees steps) };

    ghost finds = { λ keeper found. IsClean (S.Store.view keeper.store) × AreNumbered no_rows found
        × (db : Trees) × S.Store.recovers keeper.store db × AgreeOnRows db (entered_by no_trees found) };

    ghost faults = { λ keeper. keeper.faults };

    ghost says = { λ old new batch fault. BatchFault S.Store.view S.Store.faults old.store new.store batch fault };

    fn commit(&mut self, batch: &[Step]) -> Result<(), KeeperFault> {
        self.keep(batch)?;
        Ok(())
    }
}
