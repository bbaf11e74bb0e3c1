//! The command `price SCHEMA DOCUMENT`.

ghost use Rattle.std.specs.Prelude.{◌≡◌, ◌≤◌, IfOk, IfErr};
ghost use Rattle.cost_num.specs.CostText.{cost_text};
ghost use Rattle.response_model.specs.Cost.{Part as PartOfCost};
ghost use Rattle.plan_table.specs.TableBounds.{IsWithinCap};
ghost use Rattle.acceptance.specs.Bounds.{IsAccepted};
ghost use Rattle.acceptance.specs.Requests.{request_data, IsOfSchema, IsCheckFor};
ghost use Rattle.command_outcomes.specs.Reading.{IsText};
ghost use Rattle.command_outcomes.specs.Outcomes.{files_told, IsDone};
ghost use Rattle.operation_commands.specs.Asked.{HoldInputs, request_in, IsNoOperationOf, IsRefusalOf, IfAskedRefused};
ghost use Rattle.operation_commands.specs.OwnAnswers.{IfOwnRefused};
ghost use Rattle.operation_commands.specs.Price.{IsPricedAs, HasPrice, IsNoPriceOf, IsUnpricedAs, IsPriceRefusal, PriceOf, PriceCameTo};
ghost use Rattle.plan_table.specs.declared.table.Plan.{Plan};

use crate::asked::{AskedTexts, read_asked};
use crate::asking::{AskedFault, AskedRefusal, Inputs, inputs_in, request_of};
use crate::own_answers::{OwnFault, asked_fault, own_cost, refused_own};
use acceptance::{AcceptFault, Accepted, Request, accept, work_up_to};
use command_outcomes::{Outcome, SCHEMA_LIMIT, wanting};
use command_words::Asked;
use cost_num::{CAP, Cost, cost_bytes};
use counted_work::Work;
use outside::Files;
use plan_model::laws::built_schemas_can_be_filled;
use std::alloc::{AllocError, Global};
use std::cell::Cell;

/// The text of a cost.
pub fn text_of_cost(alloc: Global, cost: Cost) -> Result<Vec<u8>, AllocError>
    requires types_within { cost.types ≤ CAP }
    requires fields_within { cost.fields ≤ CAP }
    ensures { IfOk result (λ text. text.items ≡ cost_text cost) }
{
    let mut buffer = [0u8; 48];
    let length = cost_bytes(cost, &mut buffer);
    Vec::from_slice(alloc, &buffer[..length])
}

// The outcome of an operation that has this price.
fn priced(alloc: Global, cost: Cost) -> Outcome
    requires types_within { cost.types ≤ CAP }
    requires fields_within { cost.fields ≤ CAP }
    ensures { IsDone (cost_text cost) result }
{
    match text_of_cost(alloc, cost) {
        Ok(text) => Outcome::Done(text),
        Err(_) => Outcome::Memory,
    }
}

/// What is asked, where it is accepted.
pub(crate) fn accepted_request<'a>(
    alloc: Global,
    request: &Request<'a, 'a>,
) -> Result<Accepted<'a, 'a>, AskedFault>
    requires of_schema { IsOfSchema (request_data request.now) }
    ensures accepted { IfOk result (λ a. IsAccepted (request_data request.now) a.plan a.bound) }
    ensures checked { IfOk result (λ a. IsCheckFor (request_data request.now) a.checked) }
    ensures schema { IfOk result (λ a. a.plan.schema.now ≡ request.now.schema.now) }
    ensures counted { IfOk result (λ a. (part : PartOfCost) → IsWithinCap a.plan part) }
    ensures refused { IfErr result (λ fault. IfAskedRefused fault (IsNoOperationOf (request_data request.now))) }
{
    match accept(alloc, request) {
        Ok(accepted) => Ok(accepted),
        Err(AcceptFault::Refused(refusal)) => {
            Err(AskedFault::Refused(AskedRefusal::NoOperation(refusal)))
        }
        Err(AcceptFault::Memory) => Err(AskedFault::Memory),
    }
}

/// The operation of these inputs, where it is accepted.
pub fn accepted<'a>(
    alloc: Global,
    work: Work<'a>,
    asked: &'a Asked,
    texts: &AskedTexts,
    inputs: &'a Inputs,
) -> Result<Accepted<'a, 'a>, AskedFault>
    requires held { HoldInputs asked.now texts.now inputs.now }
    ensures accepted { IfOk result (λ a. IsAccepted (request_in asked.now inputs.now) a.plan a.bound) }
    ensures checked { IfOk result (λ a. IsCheckFor (request_in asked.now inputs.now) a.checked) }
    ensures schema { IfOk result (λ a. a.plan.schema.now ≡ inputs.now.weighed.schema) }
    ensures counted { IfOk result (λ a. (part : PartOfCost) → IsWithinCap a.plan part) }
    ensures refused { IfErr result (λ fault. IfAskedRefused fault (IsRefusalOf asked.now texts.now)) }
{
    built_schemas_can_be_filled();
    let request = request_of(asked, inputs, work);
    match accepted_request(alloc, &request) {
        Ok(accepted) => Ok(accepted),
        Err(fault) => Err(fault),
    }
}

// What an operation costs that goes to the upstream: its bound, where it is accepted.
fn upstream_price(alloc: Global, request: &Request) -> Result<Cost, OwnFault>
    requires of_schema { IsOfSchema (request_data request.now) }
    ensures bound { IfOk result (λ cost. (plan : Plan) × IsAccepted (request_data request.now) plan cost) }
    ensures types_within { IfOk result (λ cost. cost.types ≤ CAP) }
    ensures fields_within { IfOk result (λ cost. cost.fields ≤ CAP) }
    ensures refused { IfErr result (λ fault. IfOwnRefused fault (IsNoPriceOf (request_data request.now))) }
{
    match accepted_request(alloc, request) {
        Ok(accepted) => Ok(accepted.bound),
        Err(fault) => Err(asked_fault(fault)),
    }
}

/// What a request costs: its bound, or what it is answered for from the schema itself.
pub(crate) fn price_of(
    alloc: Global,
    texts: &AskedTexts,
    request: &Request,
) -> Result<Cost, OwnFault>
    requires text { IsText SCHEMA_LIMIT texts.now.schema }
    requires of_schema { IsOfSchema (request_data request.now) }
    ensures price { IfOk result (IsPricedAs texts.now (request_data request.now)) }
    ensures types_within { IfOk result (λ cost. cost.types ≤ CAP) }
    ensures fields_within { IfOk result (λ cost. cost.fields ≤ CAP) }
    ensures refused { IfErr result (λ fault. IfOwnRefused fault (IsUnpricedAs texts.now (request_data request.now))) }
{
    match own_cost(alloc, texts, request) {
        Ok(Some(cost)) => Ok(cost),
        Ok(None) => upstream_price(alloc, request),
        Err(fault) => Err(fault),
    }
}

// The price of the operation of these texts.
fn price_in(
    alloc: Global,
    work: Work<'_>,
    asked: &Asked,
    texts: &AskedTexts,
) -> Result<Cost, OwnFault>
    requires text { IsText SCHEMA_LIMIT texts.now.schema }
    ensures price { IfOk result (HasPrice asked.now texts.now) }
    ensures types_within { IfOk result (λ cost. cost.types ≤ CAP) }
    ensures fields_within { IfOk result (λ cost. cost.fields ≤ CAP) }
    ensures refused { IfErr result (λ fault. IfOwnRefused fault (IsPriceRefusal asked.now texts.now)) }
{
    built_schemas_can_be_filled();
    let inputs = match inputs_in(alloc, asked, texts) {
        Ok(inputs) => inputs,
        Err(fault) => return Err(asked_fault(fault)),
    };
    let request = request_of(asked, &inputs, work);
    match price_of(alloc, texts, &request) {
        Ok(cost) => Ok(cost),
        Err(fault) => Err(fault),
    }
}

// What the texts of an operation's files come to.
fn price_texts(alloc: Global, asked: &Asked, texts: &AskedTexts) -> Outcome
    requires text { IsText SCHEMA_LIMIT texts.now.schema }
    ensures { PriceOf asked.now texts.now result }
{
    let left = Cell::new(0u64);
    let work = work_up_to(asked.most_work, &left);
    match price_in(alloc, work, asked, texts) {
        Ok(cost) => priced(alloc, cost),
        Err(OwnFault::Refused(refusal)) => refused_own(alloc, asked, refusal),
        Err(OwnFault::Memory) => wanting(alloc, asked.most_work, work),
    }
}

/// Prices the operation that files hold.
pub fn price<F: Files>(alloc: Global, asked: &Asked, files: &mut F) -> Outcome
    ensures { PriceCameTo asked.now (files_told (F.content files.old) (F.faults files.old) (F.faults files.new)) result }
{
    match read_asked(alloc, asked, files) {
        Ok(texts) => price_texts(alloc, asked, &texts),
        Err(outcome) => outcome,
    }
}
