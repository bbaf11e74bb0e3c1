//! What keeps steps: each batch of them is kept whole or not at all.

ghost use Rattle.std.specs.Prelude.{◌≡◌, ◌⊎◌, ◌++◌, List, ℕ, IfErr, OnOk, OnErr};
ghost use Rattle.outside.specs.Faults.{Rose};
ghost use Rattle.account_store.specs.declared.step.Step.{Step as StepType};
ghost use Rattle.account_store.specs.declared.keeper.KeeperFault.{KeeperFault as Fault};
ghost use Rattle.account_store.specs.Numbers.{ComesTo};

use crate::step::Step;
use thiserror::Error;

/// Why a keeper failed. It is unknown then whether the batch is kept, and no further call may be made.
#[derive(Clone, Copy, Debug, Drop, PartialEq, Eq, Error)]
pub enum KeeperFault {
    /// There was no memory for the batch.
    #[error("there is not enough memory to keep the accounts")]
    Memory,
    /// What keeps them failed, or had failed before.
    #[error("the accounts can't be kept")]
    Failed,
    /// A step of the batch can't be kept, as where a number is too great.
    #[error("a step can't be kept")]
    Unkeepable,
}

/// What keeps steps, on a disk or in memory.
pub trait Keeper {
    /// What it has is what these steps leave, one after the other.
    ghost holds: { Self → List StepType → Type 0 };
    /// After a crash at this moment, what opens it again may find these steps, and finds no others.
    ghost finds: { Self → List StepType → Type 0 };
    /// How often it failed.
    ghost faults: { Self → ℕ };
    /// What a fault says of a commit of these steps, between what it was before and what it is then.
    ghost says: { Self → Self → List StepType → Fault → Type 0 };

    /// Keeps a batch of steps behind those before it. Once that is answered, what is found after a crash comes to the rows of all of them; a crash before leaves what
    /// it could leave without the batch, or all of it.
    ///
    /// # Errors
    ///
    /// `KeeperFault` where it failed. Whether the batch is kept is found when the keeper is opened again.
    fn commit(&mut self, batch: &[Step]) -> Result<(), KeeperFault>
        ensures holds { OnOk result ((before : List StepType) → holds self.old before → holds self.new (before ++ batch.now)) }
        ensures durable { OnOk result ((before found : List StepType) → holds self.old before → finds self.new found → ComesTo found (before ++ batch.now)) }
        ensures crash { (before found : List StepType) → holds self.old before → finds self.new found → finds self.old found ⊎ ComesTo found (before ++ batch.now) }
        ensures count { OnOk result (faults self.new ≡ faults self.old) }
        ensures cause { OnErr result (Rose (faults self.old) (faults self.new)) }
        ensures reason { IfErr result (says self.old self.new batch.now) };
}
