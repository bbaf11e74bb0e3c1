//! What holds of the replays of all texts. These functions do nothing: their contracts are the laws.

ghost use Rattle.std.specs.Prelude.{◌≡◌, ℕ, List, Option, true, ⊤};
ghost use Rattle.account_commands.specs.declared.replay_texts.ReplayTexts as texts_type;
ghost use Rattle.account_commands.specs.declared.replay_inputs.ReplayRefusal as refusal_type;
ghost use Rattle.client_files.specs.declared.fault.ClientsFault.{ClientsFault};
ghost use Rattle.client_files.specs.FaultTexts.{fault_text as clients_text};
ghost use Rattle.gql_base.specs.printing.OneLine.{is_one_line};
ghost use Rattle.account_commands.specs.Replay.{IsReplayed, IsReplayRefusal, replay_refusal_text};

use client_files::laws::a_text_has_one_reading;
use command_outcomes::{a_schema_file_has_one_check, refusals_of_files_are_one_line};
use replay_scripts::a_script_is_of_one_list_of_steps;

/// Texts that are refused have no replay, and are refused in one way at most.
pub fn refused_texts_have_no_replay()
    ensures not_both { (texts : texts_type.ReplayTexts) (undeclared : ℕ) (work : Option ℕ) (refusal : refusal_type.ReplayRefusal) → IsReplayRefusal texts undeclared refusal → IsReplayed texts undeclared work (λ end. ⊤) → ⊥ }
    ensures one_refusal { (texts : texts_type.ReplayTexts) (undeclared : ℕ) (refusal other : refusal_type.ReplayRefusal) → IsReplayRefusal texts undeclared refusal → IsReplayRefusal texts undeclared other → refusal ≡ other }
{
    a_schema_file_has_one_check();
    a_text_has_one_reading();
    a_script_is_of_one_list_of_steps();
}

/// The text of why a replay is refused is one line, as is that of why a client file is: no line feed and no other control character
/// stands in it, whatever names it tells. So is that of rules, which is one of a replay.
pub fn refusals_of_replays_are_one_line()
    ensures replay { (name : List ℕ) (refusal : refusal_type.ReplayRefusal) → is_one_line (replay_refusal_text name refusal) ≡ true }
    ensures clients { (fault : ClientsFault) → is_one_line (clients_text fault) ≡ true }
{
    refusals_of_files_are_one_line();
}
