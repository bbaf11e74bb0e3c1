//! The command `check SCHEMA`.

ghost use Rattle.std.specs.Prelude.{◌≡◌, IfOk, string_bytes};
ghost use Rattle.command_outcomes.specs.Check.{CheckOf, CheckCameTo};
ghost use Rattle.command_outcomes.specs.SchemaTexts.{counts_text};
ghost use Rattle.command_outcomes.specs.Outcomes.{files_told, IsDone};

use crate::checked::{CheckFault, checked_schema};
use crate::inputs::read_file;
use crate::limits::SCHEMA_LIMIT;
use crate::outcome::Outcome;
use crate::schema_texts::refused_schema;
use gql_base::Text;
use local_introspection::placed;
use outside::Files;
use std::alloc::{AllocError, Global};

// How many types and fields a schema has.
fn counted(alloc: Global, types: usize, fields: usize) -> Result<String, AllocError>
    ensures { IfOk result (λ text. string_bytes text ≡ counts_text types fields) }
{
    let mut text = placed(alloc, "ok types", types)?;
    text.push_str(" fields")?;
    placed(alloc, text.as_str(), fields)
}

// The outcome of a schema with so many types and fields that passes every test.
fn passed(alloc: Global, types: usize, fields: usize) -> Outcome
    ensures { IsDone (counts_text types fields) result }
{
    match counted(alloc, types, fields) {
        Ok(text) => Outcome::Done(text.into_bytes()),
        Err(_) => Outcome::Memory,
    }
}

// What the bytes of a schema file come to.
fn check_bytes(alloc: Global, name: &Text, read: Vec<u8>) -> Outcome
    ensures { CheckOf name.now read.items result }
{
    match checked_schema(alloc, read) {
        Ok(schema) => {
            let (types, fields) = schema.counts();
            passed(alloc, types, fields)
        }
        Err(CheckFault::Refused(refusal)) => refused_schema(alloc, name, refusal),
        Err(CheckFault::Memory) => Outcome::Memory,
    }
}

/// Checks the schema that a file holds.
pub fn check<F: Files>(alloc: Global, schema: Text, files: &mut F) -> Outcome
    ensures { CheckCameTo schema (files_told (F.content files.old) (F.faults files.old) (F.faults files.new)) result }
{
    let name = match Text::copy_of(alloc, schema.as_str()) {
        Ok(name) => name,
        Err(_) => return Outcome::Memory,
    };
    match read_file(alloc, schema, SCHEMA_LIMIT, files) {
        Ok(read) => check_bytes(alloc, &name, read),
        Err(outcome) => outcome,
    }
}
