//! What holds of all responses to what is received.

ghost use Rattle.std.specs.Prelude.{◌≡◌, ℕ, List};
ghost use Rattle.plan_model.specs.Visits.{planned_well};
ghost use Rattle.sent_replies.specs.Interfaces.{KeepsInterfaces};
ghost use Rattle.acceptance.specs.Requests.{RequestData, Prepared, plan_answer};
ghost use Rattle.acceptance.specs.Forwarding.{IsFreeIn};
ghost use Rattle.received_requests.specs.Received.{IsReceived};
ghost use Rattle.received_requests.specs.Responses.{Executed, HasResponsesSent, CostsAsSent, AnswersOwnStripped, CostsAsStripped, HasEachStripped, ReadsAllStripped};

use crate::laws::{
    the_fragments_that_are_sent_are_reached, the_operation_that_is_sent_is_picked,
    the_values_of_variables_are_kept,
};
use crate::offsets::offsets_change_no_response;
use sent_documents::laws::replies_read_by_the_plan_of_the_request;
use stripped_responses::laws::responses_to_what_is_sent;

/// An operation of what is received can be executed: one is picked, has a type of its kind, and its variables have values.
pub fn what_is_received_is_executed()
    ensures { (r : RequestData) (p : Prepared r) (alias : List ℕ) (q : RequestData) → IsReceived r p alias q → Executed q }
{
    the_operation_that_is_sent_is_picked();
    the_values_of_variables_are_kept();
}

/// A response to what is executed of it is one to the rewritten operation with its rewritten fragments, and the other way round.
/// It costs the same at both.
pub fn responses_to_what_is_received()
    ensures fit { (r : RequestData) (p : Prepared r) (alias : List ℕ) (q : RequestData) → IsReceived r p alias q → HasResponsesSent r p alias q }
    ensures costs { (r : RequestData) (p : Prepared r) (alias : List ℕ) (q : RequestData) → IsReceived r p alias q → CostsAsSent r p alias q }
{
    the_operation_that_is_sent_is_picked();
    the_values_of_variables_are_kept();
    the_fragments_that_are_sent_are_reached();
    offsets_change_no_response();
}

/// A response to what is executed, without the names of types that were added, is one to the client's own operation that costs the
/// same, and each of these comes from one. Its JSON reads so by the plan of the client's own operation, where that is planned
/// well and the types of the schema keep their interfaces, as they do in each schema that a text says.
pub fn replies_to_what_is_received()
    ensures stripped { (r : RequestData) (p : Prepared r) (alias : List ℕ) (q : RequestData) → IsFreeIn r alias → IsReceived r p alias q → AnswersOwnStripped r p alias q }
    ensures costs { (r : RequestData) (p : Prepared r) (alias : List ℕ) (q : RequestData) → IsFreeIn r alias → IsReceived r p alias q → CostsAsStripped r p alias q }
    ensures each { (r : RequestData) (p : Prepared r) (alias : List ℕ) (q : RequestData) → IsFreeIn r alias → IsReceived r p alias q → HasEachStripped r p alias q }
    ensures reads { (r : RequestData) (p : Prepared r) (alias : List ℕ) (q : RequestData) → KeepsInterfaces r.schema → (plan_answer r p ≡ planned_well) → IsFreeIn r alias → IsReceived r p alias q → ReadsAllStripped r p alias q }
{
    responses_to_what_is_received();
    responses_to_what_is_sent();
    replies_read_by_the_plan_of_the_request();
}
