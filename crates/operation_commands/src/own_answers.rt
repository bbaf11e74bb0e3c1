//! Operations that are answered from the schema itself (GraphQL October 2021, 4).

ghost use Rattle.std.specs.Prelude.{◌≡◌, Some, IfOk, IfErr};
ghost use Rattle.static_cost.specs.CostBound.{IsWithin};
ghost use Rattle.acceptance.specs.Requests.{request_data};
ghost use Rattle.operation_class.specs.declared.classes.Class.TheVariants.{Local as LocalClass};
ghost use Rattle.operation_class.specs.Classes.{class_at};
ghost use Rattle.operation_class.specs.Routes.{IsPicked, IsRoute};
ghost use Rattle.command_outcomes.specs.PassedOn.{IsAnsweredWith, answer_counted, asked_at};
ghost use Rattle.command_outcomes.specs.Reading.{IsText};
ghost use Rattle.command_outcomes.specs.Outcomes.{IsRefusedAs};
ghost use Rattle.operation_commands.specs.OwnAnswers.{IsPlaced, IsOwn, IsOwnWithin, IsOwnCost, IsCostWithin, CostsAt, IsNotOwn, TellsLocal, IfOwnRefused, IsAskedFault, own_text};

use crate::asked::AskedTexts;
use crate::asking::{AskedFault, AskedRefusal, refused_asked};
use acceptance::Request;
use command_outcomes::{
    Counted, Facts, Local, LocalFault, Outcome, SCHEMA_LIMIT, count, known_of, local_text,
    refused_as, write,
};
use command_words::Asked;
use cost_num::Cost;
use operation_class::{Route, route_of};
use std::alloc::{AllocError, Global};
use thiserror::Error;

/// Why an operation that may ask for the schema isn't done.
#[derive(Debug, Drop, Error)]
pub enum OwnRefusal {
    /// It is refused, as any operation may be.
    #[error("{0}")]
    Asked(AskedRefusal),
    /// It asks for the schema, and isn't answered.
    #[error("the operation isn't answered from the schema: {0}")]
    NotAnswered(LocalFault),
    /// It doesn't ask for the schema.
    #[error("the operation doesn't ask for the schema")]
    NotLocal,
}

/// Why an operation that may ask for the schema isn't done.
#[derive(Debug, Drop, Error)]
pub enum OwnFault {
    /// It is refused.
    #[error("{0}")]
    Refused(OwnRefusal),
    /// There was no memory.
    #[error("there was no memory for the operation")]
    Memory,
}

/// A fault that any operation may have.
pub(crate) fn asked_fault(fault: AskedFault) -> OwnFault
    ensures { IsAskedFault fault result }
{
    match fault {
        AskedFault::Refused(refusal) => OwnFault::Refused(OwnRefusal::Asked(refusal)),
        AskedFault::Memory => OwnFault::Memory,
    }
}

// The answer to an operation that stands at this place, counted, or why there is none.
fn counted_at<'f>(
    alloc: Global,
    facts: &'f Facts,
    request: &Request,
    place: usize,
) -> Result<Counted<'f>, OwnFault>
    requires local { class_at (request_data request.now).document place ≡ LocalClass }
    ensures answered { IfOk result (λ counted. IsAnsweredWith (asked_at facts.now (request_data request.now) place) (answer_counted counted)) }
    ensures within { IfOk result (λ counted. IsWithin counted.cost) }
    ensures refused { IfErr result (TellsLocal (asked_at facts.now (request_data request.now) place)) }
{
    match count(
        alloc,
        request.work,
        facts,
        request.document,
        place,
        request.given,
    ) {
        Ok(counted) => Ok(counted),
        Err(LocalFault::Memory) => Err(OwnFault::Memory),
        Err(fault) => Err(OwnFault::Refused(OwnRefusal::NotAnswered(fault))),
    }
}

// What the answer to an operation costs that stands at this place, or why there is none.
fn cost_at(alloc: Global, facts: &Facts, request: &Request, place: usize) -> Result<Cost, OwnFault>
    requires local { class_at (request_data request.now).document place ≡ LocalClass }
    ensures answered { IfOk result (CostsAt (asked_at facts.now (request_data request.now) place)) }
    ensures within { IfOk result IsWithin }
    ensures refused { IfErr result (TellsLocal (asked_at facts.now (request_data request.now) place)) }
{
    match counted_at(alloc, facts, request, place) {
        Ok(counted) => Ok(counted.cost),
        Err(fault) => Err(fault),
    }
}

// What is answered of an operation that stands at this place, or why it isn't.
fn answer_at(
    alloc: Global,
    facts: &Facts,
    request: &Request,
    place: usize,
) -> Result<Local, OwnFault>
    requires local { class_at (request_data request.now).document place ≡ LocalClass }
    ensures answered { IfOk result (IsAnsweredWith (asked_at facts.now (request_data request.now) place)) }
    ensures within { IfOk result (λ answer. IsWithin answer.cost) }
    ensures refused { IfErr result (TellsLocal (asked_at facts.now (request_data request.now) place)) }
{
    let counted = match counted_at(alloc, facts, request, place) {
        Ok(counted) => counted,
        Err(fault) => return Err(fault),
    };
    match write(alloc, &counted) {
        Ok(answer) => Ok(answer),
        Err(AllocError) => Err(OwnFault::Memory),
    }
}

// What the answer to an operation of this schema costs that stands at this place, or why there is none.
fn local_cost(
    alloc: Global,
    schema: &str,
    request: &Request,
    place: usize,
) -> Result<Cost, OwnFault>
    requires text { IsText SCHEMA_LIMIT schema.now }
    requires picked { IsPicked (request_data request.now).name (request_data request.now).document place LocalClass }
    ensures own { IfOk result (λ cost. IsOwnCost schema.now (request_data request.now) (Some cost)) }
    ensures within { IfOk result IsWithin }
    ensures refused { IfErr result (λ fault. IfOwnRefused fault (IsNotOwn schema.now (request_data request.now))) }
{
    match known_of(alloc, schema) {
        Ok(facts) => cost_at(alloc, &facts, request, place),
        Err(AllocError) => Err(OwnFault::Memory),
    }
}

// What is answered of an operation of this schema that stands at this place, or why it isn't.
fn local_answer(
    alloc: Global,
    schema: &str,
    request: &Request,
    place: usize,
) -> Result<Local, OwnFault>
    requires text { IsText SCHEMA_LIMIT schema.now }
    requires picked { IsPicked (request_data request.now).name (request_data request.now).document place LocalClass }
    ensures own { IfOk result (λ answer. IsOwn schema.now (request_data request.now) (Some answer)) }
    ensures within { IfOk result (λ answer. IsWithin answer.cost) }
    ensures refused { IfErr result (λ fault. IfOwnRefused fault (IsNotOwn schema.now (request_data request.now))) }
{
    match known_of(alloc, schema) {
        Ok(facts) => answer_at(alloc, &facts, request, place),
        Err(AllocError) => Err(OwnFault::Memory),
    }
}

// Why an operation of this schema isn't answered that has fields for the upstream too.
fn mixed_fault(alloc: Global, schema: &str, request: &Request, at: usize) -> OwnFault
    requires text { IsText SCHEMA_LIMIT schema.now }
    requires mixed { IsRoute (request_data request.now).name (request_data request.now).document (Route.Mixed at) }
    ensures { IfOwnRefused result (IsNotOwn schema.now (request_data request.now)) }
{
    let Ok(_facts) = known_of(alloc, schema) else {
        return OwnFault::Memory;
    };
    OwnFault::Refused(OwnRefusal::NotAnswered(LocalFault::Mixed { at }))
}

// The place of an operation that is answered from the schema; nothing, where it goes to the upstream, or none is picked.
fn own_place(
    alloc: Global,
    texts: &AskedTexts,
    request: &Request,
) -> Result<Option<usize>, OwnFault>
    requires text { IsText SCHEMA_LIMIT texts.now.schema }
    ensures placed { IfOk result (IsPlaced (request_data request.now)) }
    ensures refused { IfErr result (λ fault. IfOwnRefused fault (IsNotOwn texts.now.schema (request_data request.now))) }
{
    match route_of(alloc, request.document, request.name) {
        Ok(Route::Upstream) => Ok(None),
        Ok(Route::Mixed { at }) => Err(mixed_fault(alloc, texts.schema.as_str(), request, at)),
        Ok(Route::Local { place }) => Ok(Some(place)),
        Err(AllocError) => Err(OwnFault::Memory),
    }
}

/// What the answer to a request costs that is answered from the schema itself; nothing, where its operation goes to the upstream, or
/// none is picked. No answer is made for it.
pub(crate) fn own_cost(
    alloc: Global,
    texts: &AskedTexts,
    request: &Request,
) -> Result<Option<Cost>, OwnFault>
    requires text { IsText SCHEMA_LIMIT texts.now.schema }
    ensures own { IfOk result (IsOwnCost texts.now.schema (request_data request.now)) }
    ensures within { IfOk result IsCostWithin }
    ensures refused { IfErr result (λ fault. IfOwnRefused fault (IsNotOwn texts.now.schema (request_data request.now))) }
{
    match own_place(alloc, texts, request) {
        Ok(Some(place)) => match local_cost(alloc, texts.schema.as_str(), request, place) {
            Ok(cost) => Ok(Some(cost)),
            Err(fault) => Err(fault),
        },
        Ok(None) => Ok(None),
        Err(fault) => Err(fault),
    }
}

/// What is answered of a request from the schema itself; nothing, where its operation goes to the upstream, or none is picked.
pub(crate) fn own_answer(
    alloc: Global,
    texts: &AskedTexts,
    request: &Request,
) -> Result<Option<Local>, OwnFault>
    requires text { IsText SCHEMA_LIMIT texts.now.schema }
    ensures own { IfOk result (IsOwn texts.now.schema (request_data request.now)) }
    ensures within { IfOk result IsOwnWithin }
    ensures refused { IfErr result (λ fault. IfOwnRefused fault (IsNotOwn texts.now.schema (request_data request.now))) }
{
    match own_place(alloc, texts, request) {
        Ok(Some(place)) => match local_answer(alloc, texts.schema.as_str(), request, place) {
            Ok(answer) => Ok(Some(answer)),
            Err(fault) => Err(fault),
        },
        Ok(None) => Ok(None),
        Err(fault) => Err(fault),
    }
}

/// The outcome of an operation that is refused.
pub(crate) fn refused_own(alloc: Global, asked: &Asked, refusal: OwnRefusal) -> Outcome
    ensures { IsRefusedAs (own_text asked.now refusal) result }
{
    match refusal {
        OwnRefusal::Asked(refusal) => refused_asked(alloc, asked, refusal),
        OwnRefusal::NotAnswered(fault) => match local_text(alloc, &fault) {
            Ok(text) => Outcome::Refused(text),
            Err(_) => Outcome::Memory,
        },
        OwnRefusal::NotLocal => refused_as(alloc, "local 7 NotLocal"),
    }
}
