//! The command `audit SCHEMA DOCUMENT..`.

ghost use Rattle.std.specs.Prelude.{◌≡◌, ◌≤◌, ℕ, List, Contains, length, map, option_map, IsSome, IfOk, IfErr, OnOk};
ghost use Rattle.outside.specs.Faults.{StayAll};
ghost use Rattle.acceptance.specs.Requests.{request_data};
ghost use Rattle.acceptance.specs.Texts.{naming};
ghost use Rattle.schema_model.specs.SchemaData.{has_floats};
ghost use Rattle.schema_model.specs.SchemaViews.{schema_data};
ghost use Rattle.document_reader.specs.DocumentAnswers.{IsDocumentOf};
ghost use Rattle.command_outcomes.specs.Reading.{IsText};
ghost use Rattle.command_outcomes.specs.Outcomes.{files_told, IsStopped};
ghost use Rattle.counted_work.specs.Counted.{work_text};
ghost use Rattle.operation_commands.specs.Asked.{HoldInputs, request_in};
ghost use Rattle.operation_commands.specs.OwnAnswers.{own_text};
ghost use Rattle.operation_commands.specs.Audit.{asked_alone, IsVerdict, TellsSteps, subject_of, operation_names, names_in, IsFinding, FindEach, IsWhole, AreFoundIn, AreFound, IsReady, Adds, inputs_of, AddsRead, AreRead, AuditOf, AuditCameTo};

use crate::asked::AskedTexts;
use crate::asking::{AskedFault, document_in};
use crate::findings::{Finding, Subject, Verdict, audited};
use crate::own_answers::{OwnFault, OwnRefusal, refused_own};
use crate::pricing::price_of;
use crate::steps::steps_taken;
use acceptance::{Request, work_up_to};
use command_outcomes::{
    CheckFault, DOCUMENT_LIMIT, Outcome, SCHEMA_LIMIT, Weighed, read_file, read_text,
    refused_naming, refused_schema, wanting, weighed_in,
};
use command_words::{Asked, AskedAudit};
use counted_work::Work;
use document_reader::{Definition, Document, Operation};
use gql_base::Text;
use outside::Files;
use plan_model::laws::built_schemas_can_be_filled;
use serde_json::{Map, Value};
use std::alloc::{AllocError, Global};
use std::cell::Cell;

/// What the documents of an audit are looked at by.
#[derive(Clone, Copy)]
pub struct Auditing<'a> {
    pub asked: &'a AskedAudit,
    pub weighed: &'a Weighed,
    /// Nothing is given for variables.
    pub given: &'a Value,
}

// ---- an operation

// How the price of an operation of a document alone is asked for.
fn asked_alone(
    alloc: Global,
    audit: &AskedAudit,
    document: &Text,
    operation: Option<&str>,
) -> Result<Asked, AllocError>
    ensures { IfOk result (λ asked. asked ≡ asked_alone audit.now document.now (option_map (λ name. name.now) operation.entry)) }
{
    let operation = match operation {
        Some(name) => Some(Text::copy_of(alloc, name)?),
        None => None,
    };
    Ok(Asked {
        schema: Text::copy_of(alloc, audit.schema.as_str())?,
        document: Text::copy_of(alloc, document.as_str())?,
        variables: None,
        operation,
        undeclared: audit.undeclared,
        most_work: audit.most_work,
    })
}

// What is asked of a document that was read.
fn request_alone<'a>(
    of: &Auditing<'a>,
    asked: &'a Asked,
    document: &'a Document,
    work: Work<'a>,
) -> Request<'a, 'a>
    ensures { request_data result ≡ request_in asked.now (inputs_of of.now document.now) }
{
    let name = match &asked.operation {
        Some(name) => Some(name.as_str()),
        None => None,
    };
    Request {
        schema: &of.weighed.schema,
        weights: &of.weighed.weights,
        document,
        name,
        given: of.given,
        work,
    }
}

// The text by which an operation is refused.
fn refusal_of(alloc: Global, asked: &Asked, refusal: OwnRefusal) -> Result<Verdict, AllocError>
    ensures { IfOk result (λ verdict. verdict ≡ Verdict.Refused (own_text asked.now refusal)) }
{
    match refused_own(alloc, asked, refusal) {
        Outcome::Refused(text) => Ok(Verdict::Refused(text)),
        _ => Err(AllocError),
    }
}

// The verdict on an operation for which there is no memory, or that takes more steps than it may.
fn wanting_verdict(alloc: Global, most: Option<u32>, work: Work<'_>) -> Result<Verdict, AllocError>
    ensures { IfOk result (λ verdict. IsSome most × (verdict ≡ Verdict.Refused work_text)) }
{
    match wanting(alloc, most, work) {
        Outcome::Refused(text) => Ok(Verdict::Refused(text)),
        _ => Err(AllocError),
    }
}

// The price of an operation of a document that was read, or why it has none.
fn verdict_of(
    alloc: Global,
    work: Work<'_>,
    of: &Auditing,
    texts: &AskedTexts,
    document: &Document,
    asked: &Asked,
) -> Result<Verdict, AllocError>
    requires text { IsText SCHEMA_LIMIT texts.now.schema }
    requires held { HoldInputs asked.now texts.now (inputs_of of.now document.now) }
    ensures verdict { IfOk result (IsVerdict asked.now texts.now) }
{
    built_schemas_can_be_filled();
    let request = request_alone(of, asked, document, work);
    match price_of(alloc, texts, &request) {
        Ok(cost) => Ok(Verdict::Priced(cost)),
        Err(OwnFault::Refused(refusal)) => refusal_of(alloc, asked, refusal),
        Err(OwnFault::Memory) => wanting_verdict(alloc, asked.most_work, work),
    }
}

// How many steps a verdict took, where they are counted.
fn steps_of(most: Option<u32>, left: &Cell<u64>, verdict: &Verdict) -> Option<u64>
    ensures { TellsSteps most verdict.now result }
{
    match verdict {
        Verdict::Priced(_) => steps_taken(most, left),
        Verdict::Refused(_) => None,
    }
}

// The name of an operation, if it has one.
fn name_of(operation: &Operation) -> Option<&str>
    ensures { option_map (λ name. name.now) result ≡ option_map (λ n. n.text) operation.now.name }
{
    match &operation.name {
        Some(name) => Some(name.text.as_str()),
        None => None,
    }
}

fn subject_of(alloc: Global, name: Option<&str>) -> Result<Subject, AllocError>
    ensures { IfOk result (λ subject. subject ≡ subject_of (option_map (λ name. name.now) name.entry)) }
{
    match name {
        Some(name) => Ok(Subject::Named(Text::copy_of(alloc, name)?)),
        None => Ok(Subject::Unnamed),
    }
}

// What is found of an operation.
fn finding_of(
    alloc: Global,
    of: &Auditing,
    texts: &AskedTexts,
    name: &Text,
    document: &Document,
    operation: &Operation,
) -> Result<Finding, AllocError>
    requires ready { IsReady of.now texts.now }
    requires document { IsDocumentOf (has_floats (schema_data of.now.weighed.now.schema)) texts.now.document document.now }
    ensures { IfOk result (IsFinding of.now.asked.now texts.now.schema name.now texts.now.document (option_map (λ n. n.text) operation.now.name)) }
{
    let asked = asked_alone(alloc, of.asked, name, name_of(operation))?;
    let left = Cell::new(0u64);
    let work = work_up_to(of.asked.most_work, &left);
    let verdict = verdict_of(alloc, work, of, texts, document, &asked)?;
    Ok(Finding {
        document: Text::copy_of(alloc, name.as_str())?,
        subject: subject_of(alloc, name_of(operation))?,
        steps: steps_of(of.asked.most_work, &left, &verdict),
        verdict,
    })
}

// ---- a document

// Looks at a definition of a document: at an operation.
fn find_operation(
    alloc: Global,
    of: &Auditing,
    texts: &AskedTexts,
    name: &Text,
    document: &Document,
    definition: &Definition,
    into: &mut Vec<Finding>,
) -> Result<(), AllocError>
    requires ready { IsReady of.now texts.now }
    requires document { IsDocumentOf (has_floats (schema_data of.now.weighed.now.schema)) texts.now.document document.now }
    ensures { OnOk result (Adds (FindEach of.now.asked.now texts.now name.now (operation_names definition.now)) into.old.items into.new.items) }
{
    match definition {
        Definition::Op(operation) => {
            into.push(finding_of(alloc, of, texts, name, document, operation)?)?;
            Ok(())
        }
        Definition::Frag(_) => Ok(()),
    }
}

// Looks at the operations of a document.
fn find_operations(
    alloc: Global,
    of: &Auditing,
    texts: &AskedTexts,
    name: &Text,
    document: &Document,
    into: &mut Vec<Finding>,
) -> Result<(), AllocError>
    requires ready { IsReady of.now texts.now }
    requires document { IsDocumentOf (has_floats (schema_data of.now.weighed.now.schema)) texts.now.document document.now }
    ensures { OnOk result (Adds (FindEach of.now.asked.now texts.now name.now (names_in document.now.definitions.items)) into.old.items into.new.items) }
{
    for at in 0..document.definitions.len() {
        find_operation(
            alloc,
            of,
            texts,
            name,
            document,
            &document.definitions[at],
            into,
        )?;
    }
    Ok(())
}

// Adds what is found of a document as a whole.
fn push_whole(
    alloc: Global,
    name: &Text,
    verdict: Verdict,
    into: &mut Vec<Finding>,
) -> Result<(), AllocError>
    ensures { OnOk result (Adds (IsWhole name.now verdict) into.old.items into.new.items) }
{
    let document = Text::copy_of(alloc, name.as_str())?;
    into.push(Finding {
        document,
        subject: Subject::Whole,
        verdict,
        steps: None,
    })?;
    Ok(())
}

// Looks at a text that is a document.
fn find_in_document(
    alloc: Global,
    of: &Auditing,
    texts: &AskedTexts,
    name: &Text,
    document: &Document,
    into: &mut Vec<Finding>,
) -> Result<(), AllocError>
    requires ready { IsReady of.now texts.now }
    requires document { IsDocumentOf (has_floats (schema_data of.now.weighed.now.schema)) texts.now.document document.now }
    requires text { IsText DOCUMENT_LIMIT texts.now.document }
    ensures found { OnOk result (Adds (AreFoundIn of.now.asked.now texts.now.schema name.now texts.now.document) into.old.items into.new.items) }
{
    let before = into.len();
    find_operations(alloc, of, texts, name, document, into)?;
    if into.len() > before {
        return Ok(());
    }
    let asked = asked_alone(alloc, of.asked, name, None)?;
    let left = Cell::new(0u64);
    let work = work_up_to(of.asked.most_work, &left);
    let verdict = verdict_of(alloc, work, of, texts, document, &asked)?;
    push_whole(alloc, name, verdict, into)
}

// Looks at a text.
fn find_in_text(
    alloc: Global,
    of: &Auditing,
    texts: &AskedTexts,
    name: &Text,
    into: &mut Vec<Finding>,
) -> Result<(), AllocError>
    requires ready { IsReady of.now texts.now }
    requires text { IsText DOCUMENT_LIMIT texts.now.document }
    ensures found { OnOk result (Adds (AreFoundIn of.now.asked.now texts.now.schema name.now texts.now.document) into.old.items into.new.items) }
{
    let floats = of.weighed.schema.has_floats();
    match document_in(alloc, texts.document.as_str(), floats) {
        Ok(document) => find_in_document(alloc, of, texts, name, &document, into),
        Err(AskedFault::Refused(refusal)) => {
            let asked = asked_alone(alloc, of.asked, name, None)?;
            let verdict = refusal_of(alloc, &asked, OwnRefusal::Asked(refusal))?;
            push_whole(alloc, name, verdict, into)
        }
        Err(AskedFault::Memory) => Err(AllocError),
    }
}

// What is said of bytes that are no text within the limit of documents, by the name of their file.
fn push_no_text(
    alloc: Global,
    name: &Text,
    fault: &str,
    into: &mut Vec<Finding>,
) -> Result<(), AllocError>
    ensures { OnOk result (Adds (IsWhole name.now (Verdict.Refused (naming fault.now name.now))) into.old.items into.new.items) }
{
    match refused_naming(alloc, fault, name) {
        Outcome::Refused(text) => push_whole(alloc, name, Verdict::Refused(text), into),
        _ => Err(AllocError),
    }
}

// Looks at the bytes of a document's file. The texts hold the schema, and then the document too.
fn find_in_bytes(
    alloc: Global,
    of: &Auditing,
    name: &Text,
    bytes: &[u8],
    texts: &mut AskedTexts,
    into: &mut Vec<Finding>,
) -> Result<(), AllocError>
    requires ready { IsReady of.now texts.old }
    ensures ready { IsReady of.now texts.new }
    ensures schema { texts.new.schema ≡ texts.old.schema }
    ensures found { OnOk result (Adds (AreFoundIn of.now.asked.now texts.old.schema name.now bytes.now) into.old.items into.new.items) }
{
    if bytes.len() > DOCUMENT_LIMIT {
        return push_no_text(alloc, name, "input 1 TooLarge", into);
    }
    match std::str::from_utf8(bytes) {
        Ok(text) => {
            texts.document = Text::copy_of(alloc, text)?;
            find_in_text(alloc, of, texts, name, into)
        }
        Err(_) => push_no_text(alloc, name, "input 2 NotText", into),
    }
}

// ---- all of them

// Looks at the documents of files with these names, which hold these bytes.
fn find_in_all(
    alloc: Global,
    of: &Auditing,
    names: &[Text],
    contents: &[Vec<u8>],
    texts: &mut AskedTexts,
) -> Result<Vec<Finding>, AllocError>
    requires ready { IsReady of.now texts.old }
    requires same { length names.now ≡ length contents.now }
    ensures found { IfOk result (λ findings. AreFound of.now.asked.now texts.old.schema names.now (map (λ bytes. bytes.items) contents.now) findings.items) }
{
    let mut findings = Vec::new(alloc);
    for at in 0..names.len() {
        find_in_bytes(alloc, of, &names[at], &contents[at], texts, &mut findings)?;
    }
    Ok(findings)
}

// What the texts and the bytes of an audit's files come to.
fn audit_files(alloc: Global, asked: &AskedAudit, schema: Text, contents: &[Vec<u8>]) -> Outcome
    requires text { IsText SCHEMA_LIMIT schema }
    requires same { length asked.now.documents.items ≡ length contents.now }
    ensures { AuditOf asked.now schema (map (λ bytes. bytes.items) contents.now) result }
{
    let weighed = match weighed_in(alloc, schema.as_str(), asked.undeclared) {
        Ok(weighed) => weighed,
        Err(CheckFault::Refused(refusal)) => return refused_schema(alloc, &asked.schema, refusal),
        Err(CheckFault::Memory) => return Outcome::Memory,
    };
    let Ok(document) = Text::copy_of(alloc, "") else {
        return Outcome::Memory;
    };
    let given = Value::Object(Map::new(alloc));
    let of = Auditing {
        asked,
        weighed: &weighed,
        given: &given,
    };
    let mut texts = AskedTexts {
        schema,
        document,
        variables: None,
    };
    match find_in_all(alloc, &of, &asked.documents, contents, &mut texts) {
        Ok(findings) => audited(alloc, asked.most, &findings),
        Err(AllocError) => Outcome::Memory,
    }
}

// Reads the file of a document.
fn read_document<F: Files>(
    alloc: Global,
    name: &Text,
    files: &mut F,
    contents: &mut Vec<Vec<u8>>,
) -> Result<(), Outcome>
    ensures read { OnOk result (AddsRead (F.content files.old name.now) (map (λ bytes. bytes.items) contents.old.items) (map (λ bytes. bytes.items) contents.new.items)) }
    ensures same { F.content files.new ≡ F.content files.old }
    ensures still { OnOk result (StayAll (F.faults files.old) (F.faults files.new)) }
    ensures stopped { IfErr result (IsStopped (λ other. other ≡ name.now) (files_told (F.content files.old) (F.faults files.old) (F.faults files.new))) }
{
    let Ok(own) = Text::copy_of(alloc, name.as_str()) else {
        return Err(Outcome::Memory);
    };
    let bytes = match read_file(alloc, own, DOCUMENT_LIMIT, files) {
        Ok(bytes) => bytes,
        Err(outcome) => return Err(outcome),
    };
    match contents.push(bytes) {
        Ok(()) => Ok(()),
        Err(_) => Err(Outcome::Memory),
    }
}

// Reads the files of the documents, one after another.
fn read_documents<F: Files>(
    alloc: Global,
    names: &[Text],
    files: &mut F,
) -> Result<Vec<Vec<u8>>, Outcome>
    ensures read { IfOk result (λ contents. AreRead (F.content files.old) names.now (map (λ bytes. bytes.items) contents.items)) }
    ensures same { F.content files.new ≡ F.content files.old }
    ensures still { OnOk result (StayAll (F.faults files.old) (F.faults files.new)) }
    ensures stopped { IfErr result (IsStopped (Contains names.now) (files_told (F.content files.old) (F.faults files.old) (F.faults files.new))) }
{
    let mut contents = Vec::new(alloc);
    for at in 0..names.len() {
        match read_document(alloc, &names[at], files, &mut contents) {
            Ok(()) => {}
            Err(outcome) => return Err(outcome),
        }
    }
    Ok(contents)
}

/// Says of each operation of the documents that files hold what it costs at most, or why it is refused, and whether all pass.
pub fn audit<F: Files>(alloc: Global, asked: &AskedAudit, files: &mut F) -> Outcome
    ensures { AuditCameTo asked.now (files_told (F.content files.old) (F.faults files.old) (F.faults files.new)) result }
{
    let schema = match read_text(alloc, &asked.schema, SCHEMA_LIMIT, files) {
        Ok(schema) => schema,
        Err(outcome) => return outcome,
    };
    match read_documents(alloc, &asked.documents, files) {
        Ok(contents) => audit_files(alloc, asked, schema, &contents),
        Err(outcome) => outcome,
    }
}
