//! What holds of the exchanges that texts of `serve` come to. This function does nothing: its contract is the law.

ghost use Rattle.std.specs.Prelude.{ℕ, Option};
ghost use Rattle.command_words.specs.declared.command.AskedServe.{AskedServe};
ghost use Rattle.gateway_run.specs.declared.serve_inputs.ServeTexts.{ServeTexts};
ghost use Rattle.gateway_run.specs.declared.serve_inputs.ServeInputs.{ServeInputs};
ghost use Rattle.gateway_run.specs.ServeFiles.{HoldServe};
ghost use Rattle.gateway_run.specs.Serve.{service_over};
ghost use Rattle.gateway_run.specs.DueResponses.{GivesWhatIsDue, AnswersAlike};

use gateway_serving::{a_response_is_given_where_it_is_due, types_of_built_schemas_differ};

/// Where requests are decided by the rules that texts hold, over shared cells or a journal, a response that is due is given with 200 and
/// settled at its cost, or memory was wanting; and for one body and one reply of the upstream there are not both 200 and 502.
pub fn served_responses_are_those_due()
    ensures given { (slots : Option ℕ) (asked : AskedServe) (texts : ServeTexts) (inputs : ServeInputs) → HoldServe texts asked.undeclared inputs → GivesWhatIsDue (service_over slots asked inputs) }
    ensures alike { (slots : Option ℕ) (asked : AskedServe) (texts : ServeTexts) (inputs : ServeInputs) → HoldServe texts asked.undeclared inputs → AnswersAlike (service_over slots asked inputs) }
{
    types_of_built_schemas_differ();
    a_response_is_given_where_it_is_due();
}
