//! The command `explain SCHEMA`.

ghost use Rattle.std.specs.Prelude.{◌≡◌};
ghost use Rattle.told_refusals.specs.Told.{spot_seen};
ghost use Rattle.command_outcomes.specs.Reading.{IsText};
ghost use Rattle.command_outcomes.specs.Outcomes.{files_told, IsDone};
ghost use Rattle.command_outcomes.specs.SchemaTexts.{schema_refusal_text};
ghost use Rattle.schema_model.specs.SchemaViews.{schema_data};
ghost use Rattle.cost_directives.specs.WeightViews.{weights_data};
ghost use Rattle.schema_surprises.specs.Surprises.{report_text};
ghost use Rattle.operation_commands.specs.Places.{IsSchemaSpot};
ghost use Rattle.operation_commands.specs.Explain.{IsRefusedTelling};
ghost use Rattle.operation_commands.specs.ExplainSchema.{ExplainSchemaOf, ExplainSchemaCameTo};

use crate::explaining::{refused_telling, told_unread};
use crate::places::schema_place;
use command_outcomes::{
    CheckFault, Outcome, SCHEMA_LIMIT, SchemaRefusal, Weighed, read_text, refused_schema,
    weighed_in,
};
use gql_base::Text;
use outside::Files;
use schema_surprises::report;
use std::alloc::{AllocError, Global};

// What is told of a schema that is good.
fn told_schema(alloc: Global, weighed: &Weighed) -> Outcome
    ensures { IsDone (report_text (schema_data weighed.now.schema) (weights_data weighed.now.weights)) result }
{
    match report(alloc, &weighed.schema, &weighed.weights) {
        Ok(text) => Outcome::Done(text),
        Err(AllocError) => Outcome::Memory,
    }
}

// The outcome of a schema that is refused.
fn refused_explaining(alloc: Global, name: &Text, text: &Text, refusal: SchemaRefusal) -> Outcome
    ensures { IsRefusedTelling (schema_refusal_text name.now refusal) (IsSchemaSpot text.now refusal) result }
{
    let Ok(place) = schema_place(alloc, text, &refusal) else {
        return Outcome::Memory;
    };
    match refused_schema(alloc, name, refusal) {
        Outcome::Refused(line) => refused_telling(alloc, &line, place),
        _ => Outcome::Memory,
    }
}

// What a schema's text comes to.
fn explain_schema_text(alloc: Global, name: &Text, undeclared: u32, text: &Text) -> Outcome
    requires text { IsText SCHEMA_LIMIT text.now }
    ensures { ExplainSchemaOf name.now undeclared text.now result }
{
    match weighed_in(alloc, text.as_str(), undeclared) {
        Ok(weighed) => told_schema(alloc, &weighed),
        Err(CheckFault::Refused(refusal)) => refused_explaining(alloc, name, text, refusal),
        Err(CheckFault::Memory) => Outcome::Memory,
    }
}

/// Says what surprises in the schema that a file holds, or why it is refused, and where.
pub fn explain_schema<F: Files>(
    alloc: Global,
    name: &Text,
    undeclared: u32,
    files: &mut F,
) -> Outcome
    ensures { ExplainSchemaCameTo name.now undeclared (files_told (F.content files.old) (F.faults files.old) (F.faults files.new)) result }
{
    match read_text(alloc, name, SCHEMA_LIMIT, files) {
        Ok(text) => explain_schema_text(alloc, name, undeclared, &text),
        Err(outcome) => told_unread(alloc, outcome),
    }
}
