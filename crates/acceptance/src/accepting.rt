//! The tests in their order.

ghost use Rattle.std.specs.Prelude.{◌≡◌, IfOk, IfErr, IsSome, Ok};
ghost use Rattle.schema_model.specs.SchemaViews.{schema_data};
ghost use Rattle.document_reader.specs.DocumentAnswers.{IsDocumentOf};
ghost use Rattle.document_reader.specs.Picking.{picked};
ghost use Rattle.document_rules.specs.Parts.{operation_at};
ghost use Rattle.document_rules.specs.Checking.{IsChecked};
ghost use Rattle.variable_coercion.specs.Calls.{variables_data};
ghost use Rattle.response_model.specs.Cost.{Part as PartOfCost};
ghost use Rattle.static_cost.specs.PassedOn.{IsWithinCap};
ghost use Rattle.acceptance.specs.Requests.{request_data, IsOfSchema, IsCheckFor, AreValues};
ghost use Rattle.acceptance.specs.Bounds.{IsPlanned, IsAccepted};
ghost use Rattle.acceptance.specs.Refusals.{IsRefusedFor, IsUnread, IfRefused, TellsRule, TellsVariable, TellsPlan};

use crate::fault::{AcceptFault, Refusal};
use crate::request::Request;
use cost_num::Cost;
use document_reader::{DocFault, Document, pick, read_document};
use document_rules::{Checked, RuleFault, check};
use merged_selections::{PlanFault, build_plan};
use plan_model::laws::{operations_planned_well, responses_of_a_plan};
use response_model::laws::{greatest_is_bound, one_bound};
use static_cost::{Plan, bound};
use std::alloc::Global;
use variable_coercion::{CoerceFault, Variables, coerce_variables, what_arguments_see};

/// The document that a text is, where floats are let in or aren't; or why it is refused.
pub fn read(alloc: Global, text: &str, floats: bool) -> Result<Document, AcceptFault>
    ensures found { IfOk result (IsDocumentOf floats text.now) }
    ensures refused { IfErr result (λ fault. IfRefused fault (IsUnread floats text.now)) }
{
    match read_document(alloc, text, floats) {
        Ok(document) => Ok(document),
        Err(DocFault::Memory) => Err(AcceptFault::Memory),
        Err(fault) => Err(AcceptFault::Refused(Refusal::Document(fault))),
    }
}

/// An operation that is accepted.
#[derive(Drop)]
pub struct Accepted<'s, 'r> {
    /// The operation as it was checked, with the fragments that it reaches.
    pub checked: Checked<'r>,
    pub plan: Plan<'s>,
    /// What a response costs at most, within the cap in both components.
    pub bound: Cost,
}

// The place of the operation that the request asks for.
fn place_of(request: &Request) -> Result<usize, AcceptFault>
    ensures picked { IfOk result (λ place. picked (request_data request.now).name (request_data request.now).document ≡ Ok place) }
    ensures there { IfOk result (λ place. IsSome (operation_at (request_data request.now).document place)) }
    ensures refused { IfErr result (λ fault. IfRefused fault (IsRefusedFor (request_data request.now))) }
{
    match pick(request.document, request.name) {
        Ok(place) => Ok(place),
        Err(fault) => Err(AcceptFault::Refused(Refusal::Pick(fault))),
    }
}

// Which rule is broken.
fn rule_fault(fault: RuleFault) -> AcceptFault
    ensures { TellsRule fault result }
{
    match fault {
        RuleFault::Memory => AcceptFault::Memory,
        fault => AcceptFault::Refused(Refusal::Rule(fault)),
    }
}

// Which variable is refused.
fn variable_fault(fault: CoerceFault) -> AcceptFault
    ensures { TellsVariable fault result }
{
    match fault {
        CoerceFault::Memory => AcceptFault::Memory,
        fault => AcceptFault::Refused(Refusal::Variable(fault)),
    }
}

// Why there is no plan.
fn plan_fault(fault: PlanFault) -> AcceptFault
    ensures { TellsPlan fault result }
{
    match fault {
        PlanFault::Memory => AcceptFault::Memory,
        fault => AcceptFault::Refused(Refusal::Plan(fault)),
    }
}

// The operation that the request asks for, where it breaks no rule.
fn checked<'r>(alloc: Global, request: &Request<'_, 'r>) -> Result<Checked<'r>, AcceptFault>
    ensures of { IfOk result (IsCheckFor (request_data request.now)) }
    ensures checked { IfOk result (IsChecked (schema_data request.now.schema.now)) }
    ensures refused { IfErr result (λ fault. IfRefused fault (IsRefusedFor (request_data request.now))) }
{
    let place = match place_of(request) {
        Ok(place) => place,
        Err(fault) => return Err(fault),
    };
    match check(alloc, request.work, request.schema, request.document, place) {
        Ok(checked) => Ok(checked),
        Err(fault) => Err(rule_fault(fault)),
    }
}

// The values of its variables.
fn valued(alloc: Global, request: &Request, checked: &Checked) -> Result<Variables, AcceptFault>
    requires of { IsCheckFor (request_data request.now) checked.now }
    ensures values { IfOk result (λ vs. AreValues (request_data request.now) checked.now.operation.now (variables_data vs)) }
    ensures refused { IfErr result (λ fault. IfRefused fault (IsRefusedFor (request_data request.now))) }
{
    match coerce_variables(
        alloc,
        request.work,
        request.schema,
        checked.operation(),
        request.given,
    ) {
        Ok(variables) => Ok(variables),
        Err(fault) => Err(variable_fault(fault)),
    }
}

// Its plan.
fn planned<'s>(
    alloc: Global,
    request: &Request<'s, '_>,
    checked: &Checked,
    variables: &Variables,
) -> Result<Plan<'s>, AcceptFault>
    requires of { IsCheckFor (request_data request.now) checked.now }
    requires checked { IsChecked (schema_data request.now.schema.now) checked.now }
    requires values { AreValues (request_data request.now) checked.now.operation.now (variables_data variables.now) }
    ensures planned { IfOk result (IsPlanned (request_data request.now)) }
    ensures schema { IfOk result (λ plan. plan.schema.now ≡ request.now.schema.now) }
    ensures weights { IfOk result (λ plan. plan.weights.now ≡ request.now.weights.now) }
    ensures refused { IfErr result (λ fault. IfRefused fault (IsRefusedFor (request_data request.now))) }
{
    what_arguments_see();
    match build_plan(
        alloc,
        request.work,
        request.schema,
        request.weights,
        checked,
        variables,
    ) {
        Ok(plan) => Ok(plan),
        Err(fault) => Err(plan_fault(fault)),
    }
}

// Its bound, where that is within the cap.
fn bounded(request: &Request, plan: &Plan) -> Result<Cost, Refusal>
    requires planned { IsPlanned (request_data request.now) plan.now }
    requires schema { plan.now.schema.now ≡ request.now.schema.now }
    requires of_schema { IsOfSchema (request_data request.now) }
    ensures bound { IfOk result (IsAccepted (request_data request.now) plan.now) }
    ensures counted { IfOk result (λ _. (part : PartOfCost) → IsWithinCap plan.now part) }
    ensures refused { IfErr result (IsRefusedFor (request_data request.now)) }
{
    operations_planned_well();
    responses_of_a_plan();
    greatest_is_bound();
    one_bound();
    match bound(plan) {
        Ok(bound) => Ok(bound),
        Err(fault) => Err(Refusal::Bound(fault)),
    }
}

/// The tests of a request in their order: that an operation is picked (GraphQL October 2021, 6.1), that it breaks no rule (5),
/// that its variables have values (6.1.2), that it can be planned (6.3.2), and that no response costs more than the cap (IBM
/// GraphQL Cost Directives Specification). That the document's text is one is tested by `read`.
///
/// It asks that the weights are those of the schema, and that the schema was built from a text.
pub fn accept<'s, 'r>(
    alloc: Global,
    request: &Request<'s, 'r>,
) -> Result<Accepted<'s, 'r>, AcceptFault>
    requires of_schema { IsOfSchema (request_data request.now) }
    ensures accepted { IfOk result (λ a. IsAccepted (request_data request.now) a.plan a.bound) }
    ensures checked { IfOk result (λ a. IsCheckFor (request_data request.now) a.checked) }
    ensures schema { IfOk result (λ a. a.plan.schema.now ≡ request.now.schema.now) }
    ensures weights { IfOk result (λ a. a.plan.weights.now ≡ request.now.weights.now) }
    ensures counted { IfOk result (λ a. (part : PartOfCost) → IsWithinCap a.plan part) }
    ensures refused { IfErr result (λ fault. IfRefused fault (IsRefusedFor (request_data request.now))) }
{
    let checked = match checked(alloc, request) {
        Ok(checked) => checked,
        Err(fault) => return Err(fault),
    };
    let variables = match valued(alloc, request, &checked) {
        Ok(variables) => variables,
        Err(fault) => return Err(fault),
    };
    let plan = match planned(alloc, request, &checked, &variables) {
        Ok(plan) => plan,
        Err(fault) => return Err(fault),
    };
    match bounded(request, &plan) {
        Ok(bound) => Ok(Accepted {
            checked,
            plan,
            bound,
        }),
        Err(refusal) => Err(AcceptFault::Refused(refusal)),
    }
}
