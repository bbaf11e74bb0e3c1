//! What holds of the texts of all exercises. This function does nothing: its contract is the law.

ghost use Rattle.std.specs.Prelude.{◌≤◌, ℕ, List};
ghost use Rattle.client_files.specs.declared.client.Client as client_type;
ghost use Rattle.client_files.specs.ClientFiles.{IsClientFile};
ghost use Rattle.cost_vectors.specs.Texts.{clients_text};
ghost use Rattle.cost_vectors.specs.Script.{script_text};
ghost use Rattle.replay_scripts.specs.Steps.{StepData};
ghost use Rattle.replay_scripts.specs.Scripts.{IsScript};
ghost use Rattle.account_commands.specs.declared.replay_inputs.ReplayRefusal as refusal_type;
ghost use Rattle.account_commands.specs.Replay.{IsReplayRefusal};
ghost use Rattle.account_commands.specs.Exercise.{exercise_texts, IsOfItsSchema};

use client_files::laws::a_text_has_one_reading;
use command_words::{GREATEST_EXERCISE, UNDECLARED};
use replay_scripts::a_script_is_of_one_list_of_steps;

/// The client file of an exercise is one, and so is its script, for each number of requests that may be asked for. So an exercise
/// is refused for its schema alone, if at all.
pub fn an_exercise_is_refused_for_its_schema_alone()
    ensures clients { (seconds : ℕ) × (clients : List client_type.Client) × IsClientFile clients_text seconds clients }
    ensures script { (requests : ℕ) → requests ≤ GREATEST_EXERCISE → (steps : List StepData) × IsScript (script_text requests) steps }
    ensures schema_alone { (requests : ℕ) (refusal : refusal_type.ReplayRefusal) → requests ≤ GREATEST_EXERCISE
        → IsReplayRefusal (exercise_texts requests) UNDECLARED refusal → IsOfItsSchema refusal }
{
    a_text_has_one_reading();
    a_script_is_of_one_list_of_steps();
}
