//! What holds of all bodies, and of all replies to what is granted. These functions do nothing: their contracts are the laws.

ghost use Rattle.std.specs.Prelude.{◌≡◌, ℕ, List, true, false};
ghost use Rattle.account_core.specs.declared.Limit.{Limit as LimitType};
ghost use Rattle.account_core.specs.Costs.{is_within};
ghost use Rattle.account_core.specs.Machine.{Entry, HasRoom};
ghost use Rattle.account_core.specs.History.{state_after, IsLegal};
ghost use Rattle.response_meter.specs.declared.metered.Metered.{Metered};
ghost use Rattle.response_meter.specs.Metered.{AreMeasuredAlike};
ghost use Rattle.schema_model.specs.SchemaData.{has_floats};
ghost use Rattle.response_meter.specs.declared.fault.MeterFault.{MeterFault};
ghost use Rattle.cost_num.specs.declared.Cost.{Cost as CostType};
ghost use Rattle.gateway_core.specs.declared.beginning.Denial.{Denial as DenialType};
ghost use Rattle.gateway_core.specs.declared.finishing.Finished.{Finished as FinishedType};
ghost use Rattle.gateway_core.specs.declared.finishing.Outcome.{Outcome as OutcomeType};
ghost use Rattle.gateway_core.specs.declared.grant.Grant.{Grant as GrantType};
ghost use Rattle.gateway_core.specs.declared.promise.Promise.{Promise as PromiseType};
ghost use Rattle.gateway_core.specs.Rules.{Rules, HasWeights, most_of};
ghost use Rattle.gateway_core.specs.Requests.{IsPricedAt, IsPromisedFor};
ghost use Rattle.gateway_core.specs.Begins.{IsUnfit, IsVerdict, HasOneAnswer};
ghost use Rattle.gateway_core.specs.PlanBounds.{IsMeasuredBy};
ghost use Rattle.gateway_core.specs.Measures.{HasNamedTypes, IsMeasuredFor, IsFaultyFor, MeasuredIsAnswered};
ghost use Rattle.gateway_core.specs.Finishes.{HasReplyFault, IsConcluded, IsGrantedBy, AreAnsweredAlike};

use crate::own_answers::alike_local_requests_have_one_verdict;
use document_reader::{a_text_is_a_document_or_has_one_fault, a_text_is_one_document};
use local_introspection::{
    a_request_has_one_verdict, alike_requests_are_answered_alike, alike_requests_have_one_verdict,
};
use operation_class::laws::equal_trees_have_one_class;
use plan_model::laws::operations_planned_well;
use response_meter::laws::{answers_without_floats, fault_or_reading, named_tables, one_reply};
use response_model::laws::greatest_is_bound;
use trusted_documents::a_body_is_one_request_by_a_list;

/// By the rules of a gate a body has one price, or one answer of the gateway at one cost, or is unfit for one reason, and no two of
/// these; a promise for it is at its price. For want of memory or of steps nothing is said of a body. The weights are those of the schema, as
/// those of a gate are.
pub fn a_body_comes_to_one_thing()
    ensures promised { (rules : Rules) (body : List ℕ) (promise : PromiseType) → IsPromisedFor rules body promise → IsPricedAt rules body promise.bound }
    ensures one_price { (rules : Rules) (body : List ℕ) (bound cost : CostType) → HasWeights rules.schema rules.weights → IsPricedAt rules body bound → IsPricedAt rules body cost → bound ≡ cost }
    ensures not_both { (rules : Rules) (body : List ℕ) (bound : CostType) (denial : DenialType) → IsVerdict denial → IsPricedAt rules body bound → IsUnfit rules body denial → ⊥ }
    ensures one_reason { (rules : Rules) (body : List ℕ) (denial other : DenialType) → IsVerdict denial → IsVerdict other → IsUnfit rules body denial → IsUnfit rules body other → denial ≡ other }
    ensures local { (rules : Rules) (body : List ℕ) → HasOneAnswer rules body }
{
    a_body_is_one_request_by_a_list();
    a_text_is_one_document();
    a_text_is_a_document_or_has_one_fault();
    equal_trees_have_one_class();
    alike_local_requests_have_one_verdict();
    a_request_has_one_verdict();
    alike_requests_are_answered_alike();
    alike_requests_have_one_verdict();
    operations_planned_well();
    greatest_is_bound();
}

/// What a client may never have room for is short in every window, whatever its account has come to.
pub fn no_window_has_more_room()
    ensures { (limit : LimitType) (history : List Entry) (window : ℕ) (bound : CostType) → IsLegal limit history → HasRoom limit (state_after limit history) window bound → is_within (most_of limit) bound ≡ true }
{}

/// A reply to what is granted has one cost, or one first fault, and not both. So each outcome has one status and one charge, but for want of memory,
/// and answers that are texts of what the reply reads as; where the schema lets no floats in there is one answer. The types of the schema have different names, as those of a schema that is built have.
pub fn a_reply_has_one_answer()
    ensures one_cost { (rules : Rules) (g : GrantType) (reply : List ℕ) (a b : Metered) → IsGrantedBy rules g → IsMeasuredBy g.plan g.alias reply a → IsMeasuredBy g.plan g.alias reply b → AreMeasuredAlike reply a b }
    ensures one_measure { (rules : Rules) (g : GrantType) (reply : List ℕ) (a b : Metered) → has_floats rules.schema ≡ false → IsGrantedBy rules g → IsMeasuredBy g.plan g.alias reply a → IsMeasuredBy g.plan g.alias reply b → a ≡ b }
    ensures one_fault { (rules : Rules) (g : GrantType) (reply : List ℕ) (a b : MeterFault) → IsGrantedBy rules g → HasReplyFault g reply a → HasReplyFault g reply b → a ≡ b }
    ensures not_both { (rules : Rules) (g : GrantType) (reply : List ℕ) (a : Metered) (b : MeterFault) → IsGrantedBy rules g → IsMeasuredBy g.plan g.alias reply a → HasReplyFault g reply b → ⊥ }
    ensures alike { (rules : Rules) (g : GrantType) (outcome : OutcomeType) (a b : FinishedType) → IsGrantedBy rules g → IsConcluded g outcome a → IsConcluded g outcome b → AreAnsweredAlike outcome a b }
    ensures one_answer { (rules : Rules) (g : GrantType) (outcome : OutcomeType) (a b : FinishedType) → has_floats rules.schema ≡ false → IsGrantedBy rules g → IsConcluded g outcome a → IsConcluded g outcome b → a ≡ b }
{
    fault_or_reading();
    one_reply();
    named_tables();
    answers_without_floats();
}

/// A reply to the operation of a body has one cost, or one first fault, and not both, however often the body is read; it is measured in one way where
/// the schema lets no floats in. So what is granted for the body is answered with 200 and as it was measured, where the reply is, and settled at its cost;
/// or memory was wanting. The types of the schema have different names, as those of a schema that is built have.
pub fn a_reply_to_a_body_has_one_measure()
    ensures cost { (rules : Rules) (body reply : List ℕ) (a b : Metered) → HasNamedTypes rules → IsMeasuredFor rules body reply a → IsMeasuredFor rules body reply b → AreMeasuredAlike reply a b }
    ensures measure { (rules : Rules) (body reply : List ℕ) (a b : Metered) → has_floats rules.schema ≡ false → HasNamedTypes rules → IsMeasuredFor rules body reply a → IsMeasuredFor rules body reply b → a ≡ b }
    ensures fault { (rules : Rules) (body reply : List ℕ) (a b : MeterFault) → HasNamedTypes rules → IsFaultyFor rules body reply a → IsFaultyFor rules body reply b → a ≡ b }
    ensures not_both { (rules : Rules) (body reply : List ℕ) (a : Metered) (b : MeterFault) → HasNamedTypes rules → IsMeasuredFor rules body reply a → IsFaultyFor rules body reply b → ⊥ }
    ensures finished { (rules : Rules) → HasNamedTypes rules → MeasuredIsAnswered rules }
{
    a_body_is_one_request_by_a_list();
    a_text_is_one_document();
    alike_requests_are_answered_alike();
    fault_or_reading();
    one_reply();
    named_tables();
    answers_without_floats();
}
