//! The files of an operation: reading them, and what they hold.

ghost use Rattle.std.specs.Prelude.{◌≡◌, ◌≤◌, ℕ, List, IfOk, IfErr, OnOk};
ghost use Rattle.outside.specs.Faults.{StayAll};
ghost use Rattle.command_outcomes.specs.Reading.{IsTextOf};
ghost use Rattle.command_outcomes.specs.Outcomes.{files_told};
ghost use Rattle.operation_commands.specs.Asked.{HoldVariables, HasNoVariables, HaveNoOperation, HoldTexts, HaveNoTexts};

use command_outcomes::{DOCUMENT_LIMIT, Outcome, SCHEMA_LIMIT, VARIABLES_LIMIT, read_text};
use command_words::Asked;
use gql_base::Text;
use outside::Files;
use std::alloc::Global;

/// The texts of an operation's files.
#[derive(Drop)]
pub struct AskedTexts {
    pub schema: Text,
    pub document: Text,
    /// The values that are given for variables, where a file of them is named.
    pub variables: Option<Text>,
}

/// The text that the file of the variables holds, where one is named.
pub fn read_variables<F: Files>(
    alloc: Global,
    name: &Option<Text>,
    files: &mut F,
) -> Result<Option<Text>, Outcome>
    ensures held { IfOk result (HoldVariables name.now (F.content files.old)) }
    ensures same { F.content files.new ≡ F.content files.old }
    ensures count { (other : List ℕ) → F.faults files.old other ≤ F.faults files.new other }
    ensures still { OnOk result (StayAll (F.faults files.old) (F.faults files.new)) }
    ensures none { IfErr result (HasNoVariables name.now (files_told (F.content files.old) (F.faults files.old) (F.faults files.new))) }
{
    match name {
        Some(name) => match read_text(alloc, name, VARIABLES_LIMIT, files) {
            Ok(text) => Ok(Some(text)),
            Err(outcome) => Err(outcome),
        },
        None => Ok(None),
    }
}

/// The texts of a schema file and of a document file.
#[derive(Drop)]
pub struct OperationTexts {
    pub schema: Text,
    pub document: Text,
}

/// Reads the schema file, and then the document file.
pub fn read_operation<F: Files>(
    alloc: Global,
    asked: &Asked,
    files: &mut F,
) -> Result<OperationTexts, Outcome>
    ensures schema { IfOk result (λ texts. IsTextOf SCHEMA_LIMIT (F.content files.old asked.now.schema) texts.schema) }
    ensures document { IfOk result (λ texts. IsTextOf DOCUMENT_LIMIT (F.content files.old asked.now.document) texts.document) }
    ensures same { F.content files.new ≡ F.content files.old }
    ensures count { (other : List ℕ) → F.faults files.old other ≤ F.faults files.new other }
    ensures still { OnOk result (StayAll (F.faults files.old) (F.faults files.new)) }
    ensures none { IfErr result (HaveNoOperation asked.now (files_told (F.content files.old) (F.faults files.old) (F.faults files.new))) }
{
    let schema = match read_text(alloc, &asked.schema, SCHEMA_LIMIT, files) {
        Ok(schema) => schema,
        Err(outcome) => return Err(outcome),
    };
    match read_text(alloc, &asked.document, DOCUMENT_LIMIT, files) {
        Ok(document) => Ok(OperationTexts { schema, document }),
        Err(outcome) => Err(outcome),
    }
}

/// Reads the files of an operation, each whole before the next: the schema, the document, the variables.
pub fn read_asked<F: Files>(
    alloc: Global,
    asked: &Asked,
    files: &mut F,
) -> Result<AskedTexts, Outcome>
    ensures held { IfOk result (HoldTexts asked.now (F.content files.old)) }
    ensures still { OnOk result (StayAll (F.faults files.old) (F.faults files.new)) }
    ensures none { IfErr result (HaveNoTexts asked.now (files_told (F.content files.old) (F.faults files.old) (F.faults files.new))) }
{
    let OperationTexts { schema, document } = match read_operation(alloc, asked, files) {
        Ok(texts) => texts,
        Err(outcome) => return Err(outcome),
    };
    match read_variables(alloc, &asked.variables, files) {
        Ok(variables) => Ok(AskedTexts {
            schema,
            document,
            variables,
        }),
        Err(outcome) => Err(outcome),
    }
}
