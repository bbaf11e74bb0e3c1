//! What holds of scripts. These functions do nothing: their contracts are the laws.

ghost use Rattle.std.specs.Prelude.{◌≡◌, ◌⊎◌, ℕ, List};
ghost use Rattle.replay_scripts.specs.Limits.{id_limit, line_limit};
ghost use Rattle.replay_scripts.specs.Steps.{StepData};
ghost use Rattle.replay_scripts.specs.Scripts.{IsScript};
ghost use Rattle.replay_scripts.specs.Faults.{HasFault};
ghost use Rattle.replay_scripts.specs.declared.fault.ScriptFault.{ScriptFault};

use crate::step::{ID_LIMIT, LINE_LIMIT, Returned, Script, Step};

/// A text is a script or has a fault, and not both. It is a script of one list of steps, and has one fault at most.
pub fn a_script_is_of_one_list_of_steps()
    ensures either { (text : List ℕ) → ((steps : List StepData) × IsScript text steps) ⊎ ((fault : ScriptFault) × HasFault text fault) }
    ensures no_fault { (text : List ℕ) (steps : List StepData) (fault : ScriptFault) → IsScript text steps → ¬ (HasFault text fault) }
    ensures one_script { (text : List ℕ) (a b : List StepData) → IsScript text a → IsScript text b → a ≡ b }
    ensures one_fault { (text : List ℕ) (a b : ScriptFault) → HasFault text a → HasFault text b → a ≡ b }
{}

/// The limits of the code are those of the definitions.
pub fn limits_are_told()
    ensures ids { ID_LIMIT ≡ id_limit }
    ensures lines { LINE_LIMIT ≡ line_limit }
{}

/// Threads may share scripts, and faults of them.
pub fn scripts_are_shared() {
    is_shared::<Script<'static>>();
    is_shared::<Step<'static>>();
    is_shared::<Returned<'static>>();
    is_shared::<crate::fault::ScriptFault>();
}

fn is_shared<T: Send + Sync>() {}
