//! What holds of all requests. These functions do nothing: their contracts are the laws.

ghost use Rattle.std.specs.Prelude.{◌≡◌, ◌⊎◌, ◌<◌, ℕ, List, Some, true, false};
ghost use Rattle.serde_json.specs.Data.{Data, depth};
ghost use Rattle.serde_json.specs.Find.{get};
ghost use Rattle.serde_json.specs.Read.{read as read_text, max_depth};
ghost use Rattle.serde_json.specs.Written.{has_float};
ghost use Rattle.cost_num.specs.declared.Cost.{Cost as CostType};
ghost use Rattle.static_cost.specs.PassedOn.{Plan as PlanType};
ghost use Rattle.acceptance.specs.declared.fault.Refusal.{Refusal};
ghost use Rattle.acceptance.specs.Requests.{RequestData, IsOfSchema, Prepared, plan_tree};
ghost use Rattle.acceptance.specs.Bounds.{IsAffordable, IsAccepted};
ghost use Rattle.gql_base.specs.printing.OneLine.{is_one_line};
ghost use Rattle.acceptance.specs.Texts.{refusal_text};
ghost use Rattle.acceptance.specs.Refusals.{IsRefusedFor};
ghost use Rattle.acceptance.specs.AskAlike.{AskAlike};
ghost use Rattle.typename_rewrite.specs.ReadJson.{IsAsRead};
ghost use Rattle.acceptance.specs.Keys.{HasEachKeyOnce};
ghost use Rattle.acceptance.specs.Forwarding.{sent_body, IsGivenAsRead, IsSentText};
ghost use Rattle.schema_model.specs.SchemaData.{has_floats};

use plan_model::laws::{operations_planned_well, responses_of_a_plan};
use response_model::laws::{greatest_is_bound, one_bound};

/// A request whose operation has a bound within the cap isn't refused, and has one such bound; a request is refused in one way at most.
/// So a request that is accepted isn't refused, and is accepted with one bound.
pub fn a_request_has_one_verdict()
    ensures accepted_is_affordable { (r : RequestData) (plan : PlanType) (bound : CostType) → IsAccepted r plan bound → IsAffordable r bound }
    ensures affordable_or_refused { (r : RequestData) (bound : CostType) (refusal : Refusal) → IsAffordable r bound → IsRefusedFor r refusal → ⊥ }
    ensures one_affordable { (r : RequestData) (bound cost : CostType) → IsAffordable r bound → IsAffordable r cost → bound ≡ cost }
    ensures not_both { (r : RequestData) (plan : PlanType) (bound : CostType) (refusal : Refusal) → IsAccepted r plan bound → IsRefusedFor r refusal → ⊥ }
    ensures one_bound { (r : RequestData) (plan other : PlanType) (bound cost : CostType) → IsAccepted r plan bound → IsAccepted r other cost → bound ≡ cost }
    ensures one_refusal { (r : RequestData) (refusal other : Refusal) → IsRefusedFor r refusal → IsRefusedFor r other → refusal ≡ other }
{}

/// Of two requests that ask the same, where one is accepted, the other is, with the same plan and the same bound; where one
/// is refused, the other is, for the same reason. The same body is sent for both.
pub fn alike_requests_are_answered_alike()
    ensures accepted { (r q : RequestData) (plan : PlanType) (bound : CostType) → AskAlike r q → IsAccepted r plan bound → IsAccepted q plan bound }
    ensures refused { (r q : RequestData) (refusal : Refusal) → AskAlike r q → IsRefusedFor r refusal → IsRefusedFor q refusal }
    ensures one_plan { (r q : RequestData) (p : Prepared r) (other : Prepared q) → AskAlike r q → plan_tree r p ≡ plan_tree q other }
    ensures one_body { (r q : RequestData) (p : Prepared r) (other : Prepared q) (alias : List ℕ) → AskAlike r q → sent_body r p alias ≡ sent_body q other alias }
{}

/// So one of them isn't accepted where the other is refused, both are accepted with one bound, and both are refused in one way,
/// at most.
pub fn alike_requests_have_one_verdict()
    ensures not_both { (r q : RequestData) (plan : PlanType) (bound : CostType) (refusal : Refusal) → AskAlike r q → IsAccepted r plan bound → IsRefusedFor q refusal → ⊥ }
    ensures one_bound { (r q : RequestData) (plan other : PlanType) (bound cost : CostType) → AskAlike r q → IsAccepted r plan bound → IsAccepted q other cost → bound ≡ cost }
    ensures one_refusal { (r q : RequestData) (refusal other : Refusal) → AskAlike r q → IsRefusedFor r refusal → IsRefusedFor q other → refusal ≡ other }
{}

/// Each request is refused, or its operation has a bound within the cap, with which it is accepted if there is memory for its
/// plan. It asks that the weights are those of the schema, and that leaves of the schema can be filled.
pub fn a_request_has_a_verdict()
    ensures { (r : RequestData) → IsOfSchema r → ((refusal : Refusal) × IsRefusedFor r refusal) ⊎ ((bound : CostType) × IsAffordable r bound) }
{
    operations_planned_well();
    responses_of_a_plan();
    greatest_is_bound();
    one_bound();
}

/// The text of a refusal is one line: no line feed and no other control character stands in it, whatever names it tells.
pub fn refusal_texts_are_one_line()
    ensures { (refusal : Refusal) → is_one_line (refusal_text refusal) ≡ true }
{}

/// JSON that is read, and each member of it, has integers of 64 bits, and keys that ascend in each of its objects, so that each stands once: of equal
/// keys the last value stays. A member is nested less deep than the whole.
pub fn read_values_are_in_order()
    ensures whole { (text : List ℕ) (json : Data) → read_text text ≡ Some json → IsAsRead json }
    ensures member { (json value : Data) (key : List ℕ) → IsAsRead json → get key json ≡ Some value → IsAsRead value }
    ensures within { (text : List ℕ) (json value : Data) (key : List ℕ) → read_text text ≡ Some json → get key json ≡ Some value → depth value < max_depth }
    ensures once { (json : Data) → IsAsRead json → HasEachKeyOnce json }
{}

/// For a schema without floats a body that is sent holds none. The values of the declared variables are coerced, and no type takes a float; other
/// values that are given aren't sent. So one text is sent for one request under one alias.
pub fn sent_bodies_hold_no_float()
    ensures no_float { (r : RequestData) (p : Prepared r) (alias : List ℕ) → has_floats r.schema ≡ false → HasEachKeyOnce r.given → has_float (sent_body r p alias) ≡ false }
    ensures one_text { (r : RequestData) (p : Prepared r) (alias text other : List ℕ) → has_floats r.schema ≡ false → HasEachKeyOnce r.given → IsSentText r p alias text → IsSentText r p alias other → text ≡ other }
{}

/// Whatever the schema: all texts that are sent for one request under one alias are read as the same JSON, which is its body.
pub fn sent_texts_are_read_alike()
    ensures read { (r : RequestData) (p : Prepared r) (alias text : List ℕ) → IsGivenAsRead r.given → IsSentText r p alias text → read_text text ≡ Some (sent_body r p alias) }
    ensures alike { (r : RequestData) (p : Prepared r) (alias text other : List ℕ) → IsGivenAsRead r.given → IsSentText r p alias text → IsSentText r p alias other → read_text text ≡ read_text other }
{}
