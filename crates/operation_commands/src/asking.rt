//! What the texts of an operation's files hold.

ghost use Rattle.std.specs.Prelude.{◌≡◌, Some, IfOk, IfErr};
ghost use Rattle.serde_json.specs.View.{view};
ghost use Rattle.document_reader.specs.DocumentAnswers.{IsDocumentOf};
ghost use Rattle.acceptance.specs.Refusals.{IsUnread};
ghost use Rattle.acceptance.specs.Requests.{request_data};
ghost use Rattle.acceptance.specs.Texts;
ghost use Rattle.command_outcomes.specs.Reading.{IsText};
ghost use Rattle.command_outcomes.specs.Outcomes.{IsRefusedAs};
ghost use Rattle.command_outcomes.specs.Check.{HoldsWith, IsUnchecked};
ghost use Rattle.operation_commands.specs.Asked.{IsGiven, IsUngiven, IsNoSchemaOf, IsUnreadIn, HoldInputs, request_in, IsRefusalOf, IsNoInputsOf, IfAskedRefused, asked_text};

use crate::asked::AskedTexts;
use acceptance::{AcceptFault, Refusal, Request, read, refusal_text};
use command_outcomes::{
    CheckFault, Outcome, SCHEMA_LIMIT, SchemaRefusal, Weighed, refused_as, refused_schema,
    weighed_in,
};
use command_words::Asked;
use counted_work::Work;
use document_reader::Document;
use gql_base::Text;
use serde_json::{Map, Value};
use std::alloc::Global;
use thiserror::Error;

/// What an operation is asked of.
#[derive(Drop)]
pub struct Inputs {
    pub weighed: Weighed,
    pub document: Document,
    /// What is given for its variables.
    pub given: Value,
}

/// Why an operation of files is refused.
#[derive(Debug, Drop, Error)]
pub enum AskedRefusal {
    /// The schema's file holds none.
    #[error("the schema is refused: {0}")]
    NoSchema(SchemaRefusal),
    /// The file of variables is no JSON.
    #[error("the variables are no JSON")]
    NotJson,
    /// The file of variables is JSON and no object.
    #[error("the variables are no object")]
    BadVariables,
    /// The operation is refused.
    #[error("the operation is refused: {0}")]
    NoOperation(Refusal),
}

/// Why an operation of files isn't done.
#[derive(Debug, Drop, Error)]
pub enum AskedFault {
    /// It is refused.
    #[error("{0}")]
    Refused(AskedRefusal),
    /// There was no memory.
    #[error("there was no memory for the operation")]
    Memory,
}

// The schema of a text, with its weights.
fn schema_of(alloc: Global, text: &str, undeclared: u32) -> Result<Weighed, AskedFault>
    requires text { IsText SCHEMA_LIMIT text.now }
    ensures held { IfOk result (λ w. HoldsWith text.now undeclared w.schema w.weights) }
    ensures refused { IfErr result (λ fault. IfAskedRefused fault (IsNoSchemaOf text.now)) }
{
    match weighed_in(alloc, text, undeclared) {
        Ok(weighed) => Ok(weighed),
        Err(CheckFault::Refused(refusal)) => {
            Err(AskedFault::Refused(AskedRefusal::NoSchema(refusal)))
        }
        Err(CheckFault::Memory) => Err(AskedFault::Memory),
    }
}

// The object of JSON that a text is.
fn object_in(alloc: Global, text: &str) -> Result<Value, AskedFault>
    ensures given { IfOk result (λ v. IsGiven (Some text.now) (view v)) }
    ensures refused { IfErr result (λ fault. IfAskedRefused fault (IsUngiven (Some text.now))) }
{
    match Value::from_str(alloc, text) {
        Ok(value) => {
            if value.is_object() {
                Ok(value)
            } else {
                Err(AskedFault::Refused(AskedRefusal::BadVariables))
            }
        }
        Err(error) => {
            if error.is_memory() {
                Err(AskedFault::Memory)
            } else {
                Err(AskedFault::Refused(AskedRefusal::NotJson))
            }
        }
    }
}

// What is given for the variables.
fn given_in(alloc: Global, text: &Option<Text>) -> Result<Value, AskedFault>
    ensures given { IfOk result (λ v. IsGiven text.now (view v)) }
    ensures refused { IfErr result (λ fault. IfAskedRefused fault (IsUngiven text.now)) }
{
    match text {
        Some(text) => object_in(alloc, text.as_str()),
        None => Ok(Value::Object(Map::new(alloc))),
    }
}

/// The document of a text, where floats are let in or aren't.
pub(crate) fn document_in(alloc: Global, text: &str, floats: bool) -> Result<Document, AskedFault>
    ensures held { IfOk result (IsDocumentOf floats text.now) }
    ensures refused { IfErr result (λ fault. IfAskedRefused fault (IsUnreadIn floats text.now)) }
{
    match read(alloc, text, floats) {
        Ok(document) => Ok(document),
        Err(AcceptFault::Refused(refusal)) => {
            Err(AskedFault::Refused(AskedRefusal::NoOperation(refusal)))
        }
        Err(AcceptFault::Memory) => Err(AskedFault::Memory),
    }
}

/// What the texts of an operation's files hold, or why it is refused: the schema is looked at first, then the variables, and
/// then the document.
pub fn inputs_in(alloc: Global, asked: &Asked, texts: &AskedTexts) -> Result<Inputs, AskedFault>
    requires text { IsText SCHEMA_LIMIT texts.now.schema }
    ensures held { IfOk result (HoldInputs asked.now texts.now) }
    ensures no_inputs { IfErr result (λ fault. IfAskedRefused fault (IsNoInputsOf asked.now texts.now)) }
    ensures refused { IfErr result (λ fault. IfAskedRefused fault (IsRefusalOf asked.now texts.now)) }
{
    let weighed = match schema_of(alloc, texts.schema.as_str(), asked.undeclared) {
        Ok(weighed) => weighed,
        Err(fault) => return Err(fault),
    };
    let given = match given_in(alloc, &texts.variables) {
        Ok(given) => given,
        Err(fault) => return Err(fault),
    };
    match document_in(alloc, texts.document.as_str(), weighed.schema.has_floats()) {
        Ok(document) => Ok(Inputs {
            weighed,
            document,
            given,
        }),
        Err(fault) => Err(fault),
    }
}

/// What is asked, by steps that are counted.
pub fn request_of<'a>(asked: &'a Asked, inputs: &'a Inputs, work: Work<'a>) -> Request<'a, 'a>
    ensures data { request_data result ≡ request_in asked.now inputs.now }
    ensures schema { result.schema.now ≡ inputs.now.weighed.schema }
{
    let name = match &asked.operation {
        Some(name) => Some(name.as_str()),
        None => None,
    };
    Request {
        schema: &inputs.weighed.schema,
        weights: &inputs.weighed.weights,
        document: &inputs.document,
        name,
        given: &inputs.given,
        work,
    }
}

// The outcome of a refusal with this text.
fn refused_operation(alloc: Global, refusal: &Refusal) -> Outcome
    ensures { IsRefusedAs (Texts.refusal_text refusal.now) result }
{
    match refusal_text(alloc, refusal) {
        Ok(text) => Outcome::Refused(text),
        Err(_) => Outcome::Memory,
    }
}

/// The outcome of an operation that is refused.
pub fn refused_asked(alloc: Global, asked: &Asked, refusal: AskedRefusal) -> Outcome
    ensures { IsRefusedAs (asked_text asked.now refusal) result }
{
    match refusal {
        AskedRefusal::NoSchema(refusal) => refused_schema(alloc, &asked.schema, refusal),
        AskedRefusal::NotJson => refused_as(alloc, "body 1 NotJson"),
        AskedRefusal::BadVariables => refused_as(alloc, "body 5 BadVariables"),
        AskedRefusal::NoOperation(refusal) => refused_operation(alloc, &refusal),
    }
}
