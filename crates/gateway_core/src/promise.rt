//! What is promised for an operation that the upstream answers.

ghost use Rattle.std.specs.Prelude.{◌≡◌, IfOk, IfErr};
ghost use Rattle.local_introspection.specs.PassedOn.{request_data, IsCheckFor, IsAccepted, IsRefusedFor, IsGivenAsRead};
ghost use Rattle.gateway_core.specs.Rules.{HasWeights};
ghost use Rattle.gateway_core.specs.PlanBounds.{Covers};
ghost use Rattle.gateway_core.specs.Requests.{IsPromised};
ghost use Rattle.gateway_core.specs.Begins.{TellsFault, IfRefusal};

use crate::beginning::Denial;
use cost_num::Cost;
use gql_base::Text;
use local_introspection::{
    AcceptFault, Accepted, Request, accept, read_values_are_in_order, sent_bodies_hold_no_float,
    sent_for,
};
use plan_model::laws::operations_planned_well;
use plan_table::Plan;
use response_model::laws::greatest_is_bound;
use std::alloc::Global;

/// An operation that may be forwarded.
#[derive(Drop)]
pub(crate) struct Promise<'g> {
    pub(crate) plan: Plan<'g>,
    /// What a response costs at most.
    pub(crate) bound: Cost,
    /// The response key under which the names of types are added.
    pub(crate) alias: Text,
    /// The body that is sent to the upstream.
    pub(crate) forward: Text,
}

// The fault of a stage, told as a denial.
pub(crate) fn denied(fault: AcceptFault) -> Denial
    ensures { TellsFault fault result }
{
    match fault {
        AcceptFault::Refused(refusal) => Denial::Refused(refusal),
        AcceptFault::Memory => Denial::Memory,
    }
}

// What is sent for a request that is accepted.
fn sent<'g>(
    alloc: Global,
    request: &Request<'g, '_>,
    accepted: Accepted<'g, '_>,
) -> Result<Promise<'g>, Denial>
    requires given { IsGivenAsRead (request_data request.now).given }
    requires accepted { IsAccepted (request_data request.now) accepted.plan accepted.bound }
    requires checked { IsCheckFor (request_data request.now) accepted.checked }
    requires schema { accepted.plan.schema.now ≡ request.now.schema.now }
    requires covered { Covers accepted.plan accepted.bound }
    ensures promised { IfOk result (IsPromised (request_data request.now)) }
    ensures covered { IfOk result (λ p. Covers p.plan p.bound) }
    ensures memory { IfErr result (λ denial. denial ≡ Denial.Memory) }
{
    read_values_are_in_order();
    sent_bodies_hold_no_float();
    match sent_for(alloc, request, &accepted.checked) {
        Ok(sent) => Ok(Promise {
            plan: accepted.plan,
            bound: accepted.bound,
            alias: sent.alias,
            forward: Text::from(sent.body),
        }),
        Err(_) => Err(Denial::Memory),
    }
}

/// What a request comes to.
pub(crate) fn promised<'g>(alloc: Global, request: &Request<'g, '_>) -> Result<Promise<'g>, Denial>
    requires weighed { HasWeights (request_data request.now).schema (request_data request.now).weights }
    requires given { IsGivenAsRead (request_data request.now).given }
    ensures promised { IfOk result (IsPromised (request_data request.now)) }
    ensures covered { IfOk result (λ p. Covers p.plan p.bound) }
    ensures refused { IfErr result (λ denial. IfRefusal denial (IsRefusedFor (request_data request.now))) }
{
    operations_planned_well();
    greatest_is_bound();
    match accept(alloc, request) {
        Ok(accepted) => sent(alloc, request, accepted),
        Err(fault) => Err(denied(fault)),
    }
}
