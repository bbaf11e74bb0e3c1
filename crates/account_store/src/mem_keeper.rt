//! A keeper in memory, whose commits fail as planned.

ghost use Rattle.std.specs.Prelude.{◌≡◌, ◌≢◌, ◌⊎◌, ◌++◌, [], IfErr, OnOk, OnErr};
ghost use Rattle.outside.specs.Faults.{Rose};

use crate::keeper::{Keeper, KeeperFault};
use crate::step::Step;
use std::alloc::Global;

/// What becomes of a commit.
#[derive(Clone, Copy, Debug, PartialEq, Eq)]
pub enum Fate {
    /// The batch is kept.
    Keeps,
    /// It fails, and nothing of the batch is kept.
    FailsBefore,
    /// The batch is kept, and it fails.
    FailsAfter,
}

/// The steps that were kept, and the fates of commits to come.
#[derive(Drop)]
pub struct MemKeeper {
    steps: Vec<Step>,
    fates: Vec<Fate>,
    faults: u64,
}

impl MemKeeper {
    /// A keeper that has no steps, with the fates of its commits, the last of them first. Where none is left the batch is kept.
    pub fn new(alloc: Global, fates: Vec<Fate>) -> MemKeeper
        ensures empty { result.steps.items ≡ [] }
        ensures fates { result.fates ≡ fates }
        ensures faults { result.faults ≡ 0 }
    {
        MemKeeper {
            steps: Vec::new(alloc),
            fates,
            faults: 0,
        }
    }

    /// The steps that a crash leaves, in the order in which they were kept.
    pub fn steps(&self) -> &[Step]
        ensures { result.now ≡ self.now.steps.items }
    {
        &self.steps
    }

    fn failed(&mut self, fault: KeeperFault) -> KeeperFault
        ensures steps { self.new.steps ≡ self.old.steps }
        ensures rose { Rose self.old.faults self.new.faults }
        ensures same { result ≡ fault }
    {
        self.faults = self.faults.saturating_add(1);
        fault
    }

    // Keeps the batch whole or not at all, and fails as it is fated.
    fn keep(&mut self, batch: &[Step]) -> Result<(), KeeperFault>
        ensures kept { OnOk result (self.new.steps.items ≡ self.old.steps.items ++ batch.now) }
        ensures whole { (self.new.steps.items ≡ self.old.steps.items) ⊎ (self.new.steps.items ≡ self.old.steps.items ++ batch.now) }
        ensures count { OnOk result (self.new.faults ≡ self.old.faults) }
        ensures cause { OnErr result (Rose self.old.faults self.new.faults) }
        ensures reason { IfErr result (λ fault. (fault ≡ KeeperFault.Memory) ⊎ ((fault ≡ KeeperFault.Failed) × (self.old.fates.items ≢ []))) }
    {
        let fate = self.fates.pop().unwrap_or(Fate::Keeps);
        if fate == Fate::FailsBefore {
            return Err(self.failed(KeeperFault::Failed));
        }
        if self.steps.extend_from_slice(batch).is_err() {
            return Err(self.failed(KeeperFault::Memory));
        }
        if fate == Fate::FailsAfter {
            return Err(self.failed(KeeperFault::Failed));
        }
        Ok(())
    }
}

impl Keeper for MemKeeper {
    ghost use Rattle.std.specs.Prelude.{◌≡◌, ◌≢◌, ◌⊎◌, []};
    ghost use Rattle.account_store.specs.declared.keeper.KeeperFault.TheVariants.{Memory, Failed};

    ghost holds = { λ keeper steps. keeper.steps.items ≡ steps };

    ghost finds = { λ keeper found. found ≡ keeper.steps.items };

    ghost faults = { λ keeper. keeper.faults };

    ghost says = { λ old new batch fault. (fault ≡ Memory) ⊎ ((fault ≡ Failed) × (old.fates.items ≢ [])) };

    fn commit(&mut self, batch: &[Step]) -> Result<(), KeeperFault> {
        self.keep(batch)?;
        Ok(())
    }
}
