//! Reading a document from its text.

ghost use Rattle.std.specs.Prelude.{◌≡◌, ◌≤◌, List, [], length, map, IfOk, IfErr, false};
ghost use Rattle.gql_base.specs.ways.Reading.{next, is_there};
ghost use Rattle.gql_base.specs.ways.Symbols.{symbols_from};
ghost use Rattle.gql_base.specs.ways.FirstFaults.{level_limit, IsWritten};
ghost use Rattle.gql_base.specs.ways.Sources.{ahead, Reads};
ghost use Rattle.gql_base.specs.ways.Halting.{fault_of_halt, fault_of_lexing};
ghost use Rattle.document_reader.specs.Documents.{DefinitionTree, IsDocument};
ghost use Rattle.document_reader.specs.DocumentReading.{document_at};
ghost use Rattle.document_reader.specs.Trees.{definition_tree};
ghost use Rattle.document_reader.specs.Places.{AllStandFrom};
ghost use Rattle.document_reader.specs.DocumentAnswers.{IsDocumentAmong, IsDocumentOf, IsFaultAmong, IsDocumentFault, told_of_document, GivesTrees, HasDocument};

use crate::definitions::definition;
use crate::trees::{Definition, Document};
use gql_base::{Halt, LEVEL_LIMIT, LexFault, Source, lex};
use std::alloc::Global;
use thiserror::Error;

/// Why a text is no document.
#[derive(Clone, Copy, Debug, PartialEq, Eq, Error)]
pub enum DocFault {
    /// The text has no tokens.
    #[error("the text has no tokens: {0}")]
    Lex(LexFault),
    /// The first token with which no document goes on begins at `at`; there is none, and `at` is the text's length.
    #[error("no document goes on with what stands at byte {at}")]
    Unexpected { at: usize },
    /// The token at `at` opens a level above the limit.
    #[error("more than {LEVEL_LIMIT} levels are open at byte {at}")]
    TooDeep { at: usize },
    /// There was no memory for the document.
    #[error("there was not enough memory for the document")]
    Memory,
}

/// All definitions of the tokens.
fn definitions(alloc: Global, source: &Source) -> Result<Vec<Definition>, Halt>
    ensures read { Reads source.now (λ v. (map definition_tree v.items, length source.now.tokens.now)) result (document_at level_limit (ahead source.now 0)) }
    ensures places { IfOk result (λ v. AllStandFrom source.now.text.now source.now.tokens.now 0 (length source.now.tokens.now) v.items) }
{
    let mut definitions = Vec::new(alloc);
    let (first, end) = definition(alloc, source, 0, LEVEL_LIMIT)?;
    definitions.push(first)?;
    let mut at = end;
    'rest: while source.is_there(at) {
        let (definition, end) = definition(alloc, source, at, LEVEL_LIMIT)?;
        definitions.push(definition)?;
        at = end;
    }
    Ok(definitions)
}

/// The fault of reading that halted.
fn fault_of(source: &Source, halt: Halt) -> DocFault
    ensures { told_of_document result ≡ fault_of_halt source.now halt }
{
    match halt {
        Halt::Unexpected(place) => DocFault::Unexpected {
            at: source.offset(place),
        },
        Halt::TooDeep(place) => DocFault::TooDeep {
            at: source.offset(place),
        },
        Halt::Memory => DocFault::Memory,
    }
}

/// The fault of a text without tokens.
fn lexical(fault: LexFault) -> DocFault
    ensures { told_of_document result ≡ fault_of_lexing fault }
{
    match fault {
        LexFault::Memory => DocFault::Memory,
        other => DocFault::Lex(other),
    }
}

/// The document that the tokens are.
fn parse(alloc: Global, source: &Source) -> Result<Document, DocFault>
    ensures found { IfOk result (λ d. IsDocumentAmong source.now.text.now source.now.tokens.now d) }
    ensures only { (trees : List DefinitionTree) → IsWritten IsDocument level_limit (symbols_from source.now.text.now source.now.tokens.now 0) trees [] → GivesTrees trees result }
    ensures fault { IfErr result (λ f. IsFaultAmong source.now.text.now source.now.tokens.now f) }
{
    match definitions(alloc, source) {
        Ok(definitions) => Ok(Document { definitions }),
        Err(halt) => Err(fault_of(source, halt)),
    }
}

/// The document that `text` is (GraphQL October 2021, 2.2), in which floats may stand where `floats` says so. Where the text has no
/// tokens, that is its fault. Otherwise
/// the fault is the first token with which no document goes on, or that opens a level above the limit: a selection
/// set, a list, an object or a list type.
pub fn read_document(alloc: Global, text: &str, floats: bool) -> Result<Document, DocFault>
    ensures found { IfOk result (λ d. IsDocumentOf floats text.now d) }
    ensures only { (trees : List DefinitionTree) → HasDocument floats text.now trees → GivesTrees trees result }
    ensures fault { IfErr result (λ f. IsDocumentFault floats text.now f) }
{
    match lex(alloc, text, floats) {
        Ok(tokens) => parse(
            alloc,
            &Source {
                text,
                tokens: tokens.as_slice(),
            },
        ),
        Err(fault) => Err(lexical(fault)),
    }
}
