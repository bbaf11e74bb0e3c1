//! Reading a schema from its text.

ghost use Rattle.std.specs.Prelude.{◌≡◌, ◌<◌, ◌≤◌, List, [], length, map, IfOk, IfErr, false};
ghost use Rattle.gql_base.specs.ways.Reading.{next};
ghost use Rattle.gql_base.specs.ways.FirstFaults.{level_limit, IsWritten};
ghost use Rattle.gql_base.specs.ways.Sources.{ahead, Reads};
ghost use Rattle.gql_base.specs.ways.Halting.{fault_of_halt, fault_of_lexing};
ghost use Rattle.schema_reader.specs.Schemas.{DefinitionTree, IsSchema};
ghost use Rattle.schema_reader.specs.SchemaReading.{body_at, definition_at, begins_definition, definitions_at};
ghost use Rattle.schema_reader.specs.Trees.{named_tree, definition_tree, schema_trees};
ghost use Rattle.schema_reader.specs.SchemaAnswers.{LetsFloats, HasSchema, IsFaultAmong, IsSchemaFault, schema_fault, GivesSchema};

use crate::other_definitions::{directive_definition, schema_definition};
use crate::parts::description;
use crate::trees::{SchemaDef, SchemaText};
use crate::type_definitions::{NamedDef, type_definition};
use gql_base::{Halt, LEVEL_LIMIT, LexFault, Source, Text, lex, uses_directive};
use std::alloc::Global;
use thiserror::Error;

/// Why a text is no schema text.
#[derive(Clone, Copy, Debug, PartialEq, Eq, Error)]
pub enum SchemaTextFault {
    /// The text has no tokens.
    #[error("the text has no tokens: {0}")]
    Lex(LexFault),
    /// The first token with which no schema text goes on begins at `at`; there is none, and `at` is the text's length.
    #[error("no schema text goes on with what stands at byte {at}")]
    Unexpected { at: usize },
    /// A definition begins with `extend` at `at`.
    #[error("a definition begins with `extend` at byte {at}")]
    Extension { at: usize },
    /// The token at `at` opens a level above the limit.
    #[error("more than {LEVEL_LIMIT} levels are open at byte {at}")]
    TooDeep { at: usize },
    /// There was no memory for the schema.
    #[error("there was not enough memory for the schema")]
    Memory,
}

/// What stands after the description of a definition.
#[tactic(auto, unfolding(crate::specs::SchemaReading::body_at))]
fn body(alloc: Global, source: &Source, at: usize, levels: usize) -> Result<(NamedDef, usize), Halt>
    ensures read { Reads source.now (λ x. (named_tree x.0, x.1)) result (body_at levels (ahead source.now at)) }
    ensures within { IfOk result (λ x. (at < x.1) × (x.1 ≤ length source.now.tokens.now)) }
{
    if source.is_word(at, "schema") {
        return schema_definition(alloc, source, at, levels);
    }
    if source.is_word(at, "directive") {
        return directive_definition(alloc, source, at, levels);
    }
    type_definition(alloc, source, at, levels)
}

fn described(description: Option<Text>, of: NamedDef) -> SchemaDef
    ensures { definition_tree result ≡ (description, named_tree of) }
{
    SchemaDef {
        description,
        name: of.name,
        directives: of.directives,
        body: of.body,
    }
}

/// A definition with its description.
#[tactic(auto, unfolding(crate::specs::SchemaReading::definition_at))]
fn definition(
    alloc: Global,
    source: &Source,
    at: usize,
    levels: usize,
) -> Result<(SchemaDef, usize), Halt>
    ensures read { Reads source.now (λ x. (definition_tree x.0, x.1)) result (definition_at levels (ahead source.now at)) }
    ensures within { IfOk result (λ x. (at < x.1) × (x.1 ≤ length source.now.tokens.now)) }
{
    let (description, end) = description(alloc, source, at)?;
    let (body, end) = body(alloc, source, end, levels)?;
    Ok((described(description, body), end))
}

/// Whether there is a token with this number other than `extend`.
fn begins_definition(source: &Source, at: usize) -> bool
    ensures { result ≡ begins_definition (next (ahead source.now at)) }
{
    if source.is_there(at) {
        return !source.is_word(at, "extend");
    }
    false
}

/// The definitions up to the end or to `extend`, and the number of the token after them.
fn definitions(alloc: Global, source: &Source) -> Result<(Vec<SchemaDef>, usize), Halt>
    ensures read { Reads source.now (λ x. (map definition_tree x.0.items, x.1)) result (definitions_at level_limit (ahead source.now 0)) }
    ensures end { IfOk result (λ x. begins_definition (next (ahead source.now x.1)) ≡ false) }
{
    let mut definitions = Vec::new(alloc);
    let mut at = 0;
    'rest: while begins_definition(source, at) {
        let (definition, end) = definition(alloc, source, at, LEVEL_LIMIT)?;
        definitions.push(definition)?;
        at = end;
    }
    Ok((definitions, at))
}

/// The fault of reading that halted.
fn fault_of(source: &Source, halt: Halt) -> SchemaTextFault
    ensures { result ≡ schema_fault (fault_of_halt source.now halt) }
{
    match halt {
        Halt::Unexpected(place) => SchemaTextFault::Unexpected {
            at: source.offset(place),
        },
        Halt::TooDeep(place) => SchemaTextFault::TooDeep {
            at: source.offset(place),
        },
        Halt::Memory => SchemaTextFault::Memory,
    }
}

/// The fault of a text without tokens.
fn lexical(fault: LexFault) -> SchemaTextFault
    ensures { result ≡ schema_fault (fault_of_lexing fault) }
{
    match fault {
        LexFault::Memory => SchemaTextFault::Memory,
        other => SchemaTextFault::Lex(other),
    }
}

/// The schema text that the tokens are.
fn parse(alloc: Global, source: &Source) -> Result<SchemaText, SchemaTextFault>
    ensures found { IfOk result (λ s. IsWritten IsSchema level_limit (ahead source.now 0) (schema_trees s) []) }
    ensures only { (trees : List DefinitionTree) → IsWritten IsSchema level_limit (ahead source.now 0) trees [] → GivesSchema trees result }
    ensures fault { IfErr result (λ f. IsFaultAmong source.now.text.now source.now.tokens.now f) }
{
    match definitions(alloc, source) {
        Ok((definitions, end)) => {
            let at = source.offset(end);
            if source.is_there(end) {
                return Err(SchemaTextFault::Extension { at });
            }
            if definitions.is_empty() {
                return Err(SchemaTextFault::Unexpected { at });
            }
            Ok(SchemaText { definitions })
        }
        Err(halt) => Err(fault_of(source, halt)),
    }
}

/// Whether floats may stand in the text of a schema: where `@floats` is applied in it.
fn lets_floats(text: &str) -> bool
    ensures { LetsFloats text.now result }
{
    uses_directive(text, "floats")
}

/// The schema text that `text` is (GraphQL October 2021, 3). Floats may stand in it where it applies `@floats`. Where the text has no tokens, that is its fault. Otherwise
/// the fault is the first token with which no schema text goes on (an extension where a definition begins with
/// `extend`), or that opens a level above the limit: a list, an object or a list type.
pub fn read_schema_text(alloc: Global, text: &str) -> Result<SchemaText, SchemaTextFault>
    ensures found { IfOk result (λ s. HasSchema text.now (schema_trees s)) }
    ensures only { (trees : List DefinitionTree) → HasSchema text.now trees → GivesSchema trees result }
    ensures fault { IfErr result (λ f. IsSchemaFault text.now f) }
{
    match lex(alloc, text, lets_floats(text)) {
        Ok(tokens) => parse(
            alloc,
            &Source {
                text,
                tokens: tokens.as_slice(),
            },
        ),
        Err(fault) => Err(lexical(fault)),
    }
}
