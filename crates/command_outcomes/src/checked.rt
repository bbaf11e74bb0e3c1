//! The checked schema that a file holds, or why it holds none.

ghost use Rattle.std.specs.Prelude.{◌≡◌, IfOk, IfErr};
ghost use Rattle.schema_reader.specs.SchemaAnswers.{HasSchema};
ghost use Rattle.schema_reader.specs.Trees.{schema_trees};
ghost use Rattle.command_outcomes.specs.Reading.{IsText};
ghost use Rattle.command_outcomes.specs.Check.{HoldsDefinitions, HoldsChecked, HoldsWeighed, HoldsWith, IsUnchecked, IfUnchecked, TellsText, TellsTest, TellsDirective};

use crate::limits::SCHEMA_LIMIT;
use command_words::UNDECLARED;
use cost_directives::{DirectiveFault, Weights};
use gql_base::Text;
use schema_model::{Schema, SchemaFault};
use schema_reader::{SchemaText, SchemaTextFault, read_schema_text};
use std::alloc::Global;
use thiserror::Error;

/// A checked schema, and its weights.
#[derive(Drop)]
pub struct Weighed {
    pub schema: Schema,
    pub weights: Weights,
}

/// Why a schema file is refused.
#[derive(Debug, Drop, Error)]
pub enum SchemaRefusal {
    /// The file is longer than its limit.
    #[error("the schema file is longer than its limit")]
    TooLarge,
    /// The file is within its limit and not UTF-8.
    #[error("the schema file is not UTF-8")]
    NotText,
    /// The text is no schema text. The fault is not want of memory.
    #[error("the text is no schema text of GraphQL: {0}")]
    NoSchemaText(SchemaTextFault),
    /// The schema doesn't pass a test. The fault is not want of memory.
    #[error("the schema doesn't pass its tests: {0}")]
    Fails(SchemaFault),
    /// The cost directives of the schema don't pass a test. The fault is not want of memory.
    #[error("the cost directives of the schema don't pass their tests: {0}")]
    Misuses(DirectiveFault),
}

/// Why no schema was checked.
#[derive(Debug, Drop, Error)]
pub enum CheckFault {
    /// The file is refused.
    #[error("{0}")]
    Refused(SchemaRefusal),
    /// There was no memory.
    #[error("there was no memory for the schema")]
    Memory,
}

// The text that a schema file holds.
fn schema_text_of(read: Vec<u8>) -> Result<Text, SchemaRefusal>
    ensures text { IfOk result (λ text. (text ≡ read.items) × IsText SCHEMA_LIMIT read.items) }
    ensures refused { IfErr result (IsUnchecked read.items) }
{
    if read.len() > SCHEMA_LIMIT {
        return Err(SchemaRefusal::TooLarge);
    }
    match Text::from_utf8(read) {
        Ok(text) => Ok(text),
        Err(_) => Err(SchemaRefusal::NotText),
    }
}

// Why a text is no schema text.
fn text_fault(fault: SchemaTextFault) -> CheckFault
    ensures { TellsText fault result }
{
    match fault {
        SchemaTextFault::Memory => CheckFault::Memory,
        fault => CheckFault::Refused(SchemaRefusal::NoSchemaText(fault)),
    }
}

// Which test a schema doesn't pass.
fn test_fault(fault: SchemaFault) -> CheckFault
    ensures { TellsTest fault result }
{
    match fault {
        SchemaFault::Memory => CheckFault::Memory,
        fault => CheckFault::Refused(SchemaRefusal::Fails(fault)),
    }
}

// Which test the cost directives of a schema don't pass.
fn directive_fault(fault: DirectiveFault) -> CheckFault
    ensures { TellsDirective fault result }
{
    match fault {
        DirectiveFault::Memory => CheckFault::Memory,
        fault => CheckFault::Refused(SchemaRefusal::Misuses(fault)),
    }
}

// The definitions of a text.
fn definitions_in(alloc: Global, text: &str) -> Result<SchemaText, CheckFault>
    requires text { IsText SCHEMA_LIMIT text.now }
    ensures held { IfOk result (λ schema. HoldsDefinitions text.now (schema_trees schema)) }
    ensures refused { IfErr result (λ fault. IfUnchecked fault text.now) }
{
    match read_schema_text(alloc, text) {
        Ok(schema) => Ok(schema),
        Err(fault) => Err(text_fault(fault)),
    }
}

// The schema that the definitions of a text are.
fn schema_in(alloc: Global, text: &str) -> Result<Schema, CheckFault>
    requires text { IsText SCHEMA_LIMIT text.now }
    ensures held { IfOk result (HoldsChecked text.now) }
    ensures refused { IfErr result (λ fault. IfUnchecked fault text.now) }
{
    let definitions = match definitions_in(alloc, text) {
        Ok(definitions) => definitions,
        Err(fault) => return Err(fault),
    };
    match Schema::build(alloc, &definitions) {
        Ok(schema) => Ok(schema),
        Err(fault) => Err(test_fault(fault)),
    }
}

/// The schema that the definitions of a text are, with its weights, where lists that declare no size have this one.
pub fn weighed_in(alloc: Global, text: &str, undeclared: u32) -> Result<Weighed, CheckFault>
    requires text { IsText SCHEMA_LIMIT text.now }
    ensures held { IfOk result (λ w. HoldsWith text.now undeclared w.schema w.weights) }
    ensures refused { IfErr result (λ fault. IfUnchecked fault text.now) }
{
    let schema = match schema_in(alloc, text) {
        Ok(schema) => schema,
        Err(fault) => return Err(fault),
    };
    match Weights::build(alloc, &schema, undeclared) {
        Ok(weights) => Ok(Weighed { schema, weights }),
        Err(fault) => Err(directive_fault(fault)),
    }
}

/// The schema that the bytes of a schema file hold, where it and its cost directives pass every test.
pub fn checked_schema(alloc: Global, read: Vec<u8>) -> Result<Schema, CheckFault>
    ensures held { IfOk result (HoldsWeighed read.items) }
    ensures refused { IfErr result (λ fault. IfUnchecked fault read.items) }
{
    match schema_text_of(read) {
        Ok(text) => match weighed_in(alloc, text.as_str(), UNDECLARED) {
            Ok(weighed) => Ok(weighed.schema),
            Err(fault) => Err(fault),
        },
        Err(refusal) => Err(CheckFault::Refused(refusal)),
    }
}
