//! The command `explain SCHEMA DOCUMENT`.

ghost use Rattle.std.specs.Prelude.{◌≡◌, ◌≤◌, ◌++◌, IfOk, IfErr, Option, codes};
ghost use Rattle.acceptance.specs.Requests.{request_data, IsOfSchema};
ghost use Rattle.static_cost.specs.CostBound.{IsWithin};
ghost use Rattle.told_refusals.specs.Told.{Spot, spot_seen};
ghost use Rattle.command_outcomes.specs.Reading.{IsText};
ghost use Rattle.command_outcomes.specs.Outcomes.{files_told, IsDone};
ghost use Rattle.operation_commands.specs.Asked.{request_in};
ghost use Rattle.operation_commands.specs.OwnAnswers.{IfOwnRefused, own_text};
ghost use Rattle.operation_commands.specs.Price.{IsNoPriceOf, IsUnpricedAs, IsPriceRefusal};
ghost use Rattle.operation_commands.specs.Places.{IsSpotIn};
ghost use Rattle.operation_commands.specs.Explain.{own_price_text, TablesPlan, IsExplainedAs, IsExplained, IsRefusedTelling, TellsUnread, IsWantingTold, ExplainOf, ExplainCameTo};
ghost use Rattle.operation_commands.specs.Steps.{steps_text};

use crate::asked::{AskedTexts, read_asked};
use crate::asking::{inputs_in, request_of};
use crate::own_answers::{OwnFault, OwnRefusal, asked_fault, own_cost, refused_own};
use crate::places::place_of;
use crate::pricing::{accepted_request, text_of_cost};
use crate::steps::{push_steps, steps_taken};
use acceptance::{Request, work_up_to};
use command_outcomes::{Outcome, SCHEMA_LIMIT, wanting};
use command_words::Asked;
use cost_num::Cost;
use cost_tables::price_table;
use counted_work::Work;
use gql_base::Text;
use outside::Files;
use plan_model::laws::built_schemas_can_be_filled;
use static_cost::laws::bounds_of_operations;
use std::alloc::{AllocError, Global};
use std::cell::Cell;
use told_refusals::{Place, told_refusal};

// What is said of an operation that asks for the schema.
fn own_price(alloc: Global, cost: Cost) -> Result<Vec<u8>, AllocError>
    requires { IsWithin cost }
    ensures { IfOk result (λ text. text.items ≡ own_price_text cost) }
{
    let mut text = Vec::from_slice(alloc, b"answered from the schema: ")?;
    text.extend_from_slice(&text_of_cost(alloc, cost)?)?;
    Ok(text)
}

// The table of an operation that goes to the upstream.
fn upstream_table(alloc: Global, request: &Request) -> Result<Vec<u8>, OwnFault>
    requires of_schema { IsOfSchema (request_data request.now) }
    ensures table { IfOk result (λ text. TablesPlan (request_data request.now) text.items) }
    ensures refused { IfErr result (λ fault. IfOwnRefused fault (IsNoPriceOf (request_data request.now))) }
{
    bounds_of_operations();
    match accepted_request(alloc, request) {
        Ok(accepted) => match price_table(alloc, &accepted.plan, accepted.bound) {
            Ok(text) => Ok(text),
            Err(AllocError) => Err(OwnFault::Memory),
        },
        Err(fault) => Err(asked_fault(fault)),
    }
}

// What explains the price of a request.
fn explanation_of(alloc: Global, texts: &AskedTexts, request: &Request) -> Result<Vec<u8>, OwnFault>
    requires text { IsText SCHEMA_LIMIT texts.now.schema }
    requires of_schema { IsOfSchema (request_data request.now) }
    ensures explained { IfOk result (λ text. IsExplainedAs texts.now (request_data request.now) text.items) }
    ensures refused { IfErr result (λ fault. IfOwnRefused fault (IsUnpricedAs texts.now (request_data request.now))) }
{
    match own_cost(alloc, texts, request) {
        Ok(Some(cost)) => match own_price(alloc, cost) {
            Ok(text) => Ok(text),
            Err(AllocError) => Err(OwnFault::Memory),
        },
        Ok(None) => upstream_table(alloc, request),
        Err(fault) => Err(fault),
    }
}

// What explains the price of the operation of these texts.
fn explanation_in(
    alloc: Global,
    work: Work<'_>,
    asked: &Asked,
    texts: &AskedTexts,
) -> Result<Vec<u8>, OwnFault>
    requires text { IsText SCHEMA_LIMIT texts.now.schema }
    ensures explained { IfOk result (λ text. IsExplained asked.now texts.now text.items) }
    ensures refused { IfErr result (λ fault. IfOwnRefused fault (IsPriceRefusal asked.now texts.now)) }
{
    built_schemas_can_be_filled();
    let inputs = match inputs_in(alloc, asked, texts) {
        Ok(inputs) => inputs,
        Err(fault) => return Err(asked_fault(fault)),
    };
    let request = request_of(asked, &inputs, work);
    match explanation_of(alloc, texts, &request) {
        Ok(text) => Ok(text),
        Err(fault) => Err(fault),
    }
}

/// The outcome of a refusal with this line, and what is told of it.
pub(crate) fn refused_telling(alloc: Global, line: &Text, place: Option<Place<'_>>) -> Outcome
    ensures { IsRefusedTelling line.now (λ spot. spot ≡ spot_seen place.entry) result }
{
    match told_refusal(alloc, line.as_str(), place) {
        Ok(told) => Outcome::Refused(Text::from(told)),
        Err(AllocError) => Outcome::Memory,
    }
}

/// An outcome as it is told where files hold no texts.
pub(crate) fn told_unread(alloc: Global, outcome: Outcome) -> Outcome
    ensures { TellsUnread outcome result }
{
    match outcome {
        Outcome::Refused(line) => refused_telling(alloc, &line, None),
        other => other,
    }
}

// The outcome of an operation that has no price.
fn refused_explaining(
    alloc: Global,
    asked: &Asked,
    texts: &AskedTexts,
    refusal: OwnRefusal,
) -> Outcome
    ensures { IsRefusedTelling (own_text asked.now refusal) (IsSpotIn texts.now refusal) result }
{
    let Ok(place) = place_of(alloc, texts, &refusal) else {
        return Outcome::Memory;
    };
    match refused_own(alloc, asked, refusal) {
        Outcome::Refused(line) => refused_telling(alloc, &line, place),
        _ => Outcome::Memory,
    }
}

// The outcome of an operation whose price is explained so, which took these steps.
fn explained(alloc: Global, text: Vec<u8>, steps: Option<u64>) -> Outcome
    ensures { IsDone (text.items ++ steps_text (codes "\n") steps) result }
{
    let mut text = text;
    match push_steps(alloc, "\n", steps, &mut text) {
        Ok(()) => Outcome::Done(text),
        Err(AllocError) => Outcome::Memory,
    }
}

// The outcome of an operation for which there is no memory, or that takes more steps than it may.
fn told_wanting(alloc: Global, most: Option<u32>, work: Work<'_>) -> Outcome
    ensures { IsWantingTold most result }
{
    match wanting(alloc, most, work) {
        Outcome::Refused(line) => refused_telling(alloc, &line, None),
        _ => Outcome::Memory,
    }
}

// What the texts of an operation's files come to.
fn explain_texts(alloc: Global, asked: &Asked, texts: &AskedTexts) -> Outcome
    requires text { IsText SCHEMA_LIMIT texts.now.schema }
    ensures { ExplainOf asked.now texts.now result }
{
    let left = Cell::new(0u64);
    let work = work_up_to(asked.most_work, &left);
    match explanation_in(alloc, work, asked, texts) {
        Ok(text) => explained(alloc, text, steps_taken(asked.most_work, &left)),
        Err(OwnFault::Refused(refusal)) => refused_explaining(alloc, asked, texts, refusal),
        Err(OwnFault::Memory) => told_wanting(alloc, asked.most_work, work),
    }
}

/// Explains the price of the operation that files hold, node by node, or why it has none.
pub fn explain<F: Files>(alloc: Global, asked: &Asked, files: &mut F) -> Outcome
    ensures { ExplainCameTo asked.now (files_told (F.content files.old) (F.faults files.old) (F.faults files.new)) result }
{
    match read_asked(alloc, asked, files) {
        Ok(texts) => explain_texts(alloc, asked, &texts),
        Err(outcome) => told_unread(alloc, outcome),
    }
}
