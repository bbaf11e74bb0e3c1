//! Operations that the gateway answers itself, by what it knows of its schema (GraphQL October 2021, 4).

ghost use Rattle.std.specs.Prelude.{◌≡◌, ◌≢◌, IfOk, IfErr};
ghost use Rattle.local_introspection.specs.PassedOn.{request_data, IsWithin};
ghost use Rattle.operation_class.specs.declared.classes.Class.TheVariants.{Local as LocalClass};
ghost use Rattle.operation_class.specs.Classes.{class_at};
ghost use Rattle.local_introspection.specs.declared.fault.LocalFault.{LocalFault as FaultType};
ghost use Rattle.local_introspection.specs.declared.fault.LocalFault.TheVariants.{Memory as NoLocalMemory};
ghost use Rattle.local_introspection.specs.declared.walk.Local.{Local as LocalType};
ghost use Rattle.local_introspection.specs.AskAlike.{AskAlike as LocalAlike};
ghost use Rattle.local_introspection.specs.LocalRequests.{LocalRequest};
ghost use Rattle.local_introspection.specs.LocalAnswers.{IsAnsweredWith, IsRefusedFor as IsNotAnsweredFor};
ghost use Rattle.gateway_core.specs.Gates.{rules_of};
ghost use Rattle.local_introspection.specs.AskedHere.{asked_at};
ghost use Rattle.local_introspection.specs.Counted.{answer_counted};
ghost use Rattle.gateway_core.specs.Examined.{IsOwn, IsOwnWithin, TellsLocal, IsNotOwn};

use crate::beginning::Denial;
use crate::gate::Gate;
use local_introspection::laws::{a_request_has_one_verdict, alike_requests_are_answered_alike};
use local_introspection::{Counted, Facts, LocalFault, Request, count};
use operation_class::{Route, route_of};
use std::alloc::{AllocError, Global};

/// Requests of the gateway's own schema that ask the same have one answer, or one refusal, and not both.
pub(crate) fn alike_local_requests_have_one_verdict()
    ensures one_answer { (r q : LocalRequest) (a b : LocalType) → LocalAlike r q → IsAnsweredWith r a → IsAnsweredWith q b → (a.text ≡ b.text) × (a.cost ≡ b.cost) }
    ensures one_refusal { (r q : LocalRequest) (f g : FaultType) → LocalAlike r q → f ≢ NoLocalMemory → g ≢ NoLocalMemory → IsNotAnsweredFor r f → IsNotAnsweredFor q g → f ≡ g }
    ensures not_both { (r q : LocalRequest) (a : LocalType) (f : FaultType) → LocalAlike r q → f ≢ NoLocalMemory → IsAnsweredWith r a → IsNotAnsweredFor q f → ⊥ }
{
    a_request_has_one_verdict();
    alike_requests_are_answered_alike();
}

// The answer to an operation that stands at this place, counted, or why there is none.
fn counted_at<'f>(
    alloc: Global,
    facts: &'f Facts,
    request: &Request,
    place: usize,
) -> Result<Counted<'f>, Denial>
    requires local { class_at (request_data request.now).document place ≡ LocalClass }
    ensures answered { IfOk result (λ counted. IsAnsweredWith (asked_at facts.now (request_data request.now) place) (answer_counted counted)) }
    ensures within { IfOk result (λ counted. IsWithin counted.cost) }
    ensures refused { IfErr result (TellsLocal (asked_at facts.now (request_data request.now) place)) }
{
    match count(
        alloc,
        request.work,
        facts,
        request.document,
        place,
        request.given,
    ) {
        Ok(counted) => Ok(counted),
        Err(LocalFault::Memory) => Err(Denial::Memory),
        Err(fault) => Err(Denial::NotLocal(fault)),
    }
}

/// What the gateway answers itself of what is asked, counted and not written yet; nothing, where the operation goes to the upstream, or
/// none is picked.
pub(crate) fn own_answer<'g>(
    gate: &'g Gate,
    alloc: Global,
    request: &Request,
) -> Result<Option<Counted<'g>>, Denial>
    ensures own { IfOk result (IsOwn (rules_of gate.now) (request_data request.now)) }
    ensures within { IfOk result IsOwnWithin }
    ensures refused { IfErr result (IsNotOwn (rules_of gate.now) (request_data request.now)) }
{
    let Some(facts) = &gate.facts else {
        return Ok(None);
    };
    match route_of(alloc, request.document, request.name) {
        Ok(Route::Upstream) => Ok(None),
        Ok(Route::Mixed { at }) => Err(Denial::NotLocal(LocalFault::Mixed { at })),
        Ok(Route::Local { place }) => match counted_at(alloc, facts, request, place) {
            Ok(counted) => Ok(Some(counted)),
            Err(denial) => Err(denial),
        },
        Err(AllocError) => Err(Denial::Memory),
    }
}
