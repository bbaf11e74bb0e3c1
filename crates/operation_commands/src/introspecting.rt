//! The command `introspect SCHEMA DOCUMENT`.

ghost use Rattle.std.specs.Prelude.{◌≡◌, IfOk, IfErr};
ghost use Rattle.acceptance.specs.Requests.{request_data};
ghost use Rattle.static_cost.specs.CostBound.{IsWithin};
ghost use Rattle.command_outcomes.specs.Reading.{IsText};
ghost use Rattle.command_outcomes.specs.Outcomes.{files_told, IsDone};
ghost use Rattle.operation_commands.specs.OwnAnswers.{IfOwnRefused};
ghost use Rattle.operation_commands.specs.Introspect.{answer_lines, IsAnswerOf, IsUnansweredOf, HasAnswer, IsIntrospectRefusal, IntrospectOf, IntrospectCameTo};

use crate::asked::{AskedTexts, read_asked};
use crate::asking::{AskedRefusal, inputs_in, request_of};
use crate::own_answers::{OwnFault, OwnRefusal, asked_fault, own_answer, refused_own};
use crate::pricing::text_of_cost;
use acceptance::{Refusal, Request, work_up_to};
use command_outcomes::{Local, Outcome, SCHEMA_LIMIT, wanting};
use command_words::Asked;
use counted_work::Work;
use document_reader::pick;
use outside::Files;
use std::alloc::{AllocError, Global};
use std::cell::Cell;

// The lines of an answer.
fn lines_of(alloc: Global, answer: &Local) -> Result<Vec<u8>, AllocError>
    requires { IsWithin answer.now.cost }
    ensures { IfOk result (λ lines. lines.items ≡ answer_lines answer.now) }
{
    let mut lines = text_of_cost(alloc, answer.cost)?;
    lines.push(b'\n')?;
    lines.extend_from_slice(answer.text.as_str().as_bytes())?;
    Ok(lines)
}

// The outcome of an operation that is answered so.
fn answered(alloc: Global, answer: &Local) -> Outcome
    requires { IsWithin answer.now.cost }
    ensures { IsDone (answer_lines answer.now) result }
{
    match lines_of(alloc, answer) {
        Ok(lines) => Outcome::Done(lines),
        Err(AllocError) => Outcome::Memory,
    }
}

// What is answered of a request from the schema itself.
fn answer_of(alloc: Global, texts: &AskedTexts, request: &Request) -> Result<Local, OwnFault>
    requires text { IsText SCHEMA_LIMIT texts.now.schema }
    ensures answer { IfOk result (IsAnswerOf texts.now (request_data request.now)) }
    ensures within { IfOk result (λ answer. IsWithin answer.cost) }
    ensures refused { IfErr result (λ fault. IfOwnRefused fault (IsUnansweredOf texts.now (request_data request.now))) }
{
    if let Err(fault) = pick(request.document, request.name) {
        let refusal = AskedRefusal::NoOperation(Refusal::Pick(fault));
        return Err(OwnFault::Refused(OwnRefusal::Asked(refusal)));
    }
    match own_answer(alloc, texts, request) {
        Ok(Some(answer)) => Ok(answer),
        Ok(None) => Err(OwnFault::Refused(OwnRefusal::NotLocal)),
        Err(fault) => Err(fault),
    }
}

// What is answered of the operation of these texts.
fn answer_in(
    alloc: Global,
    work: Work<'_>,
    asked: &Asked,
    texts: &AskedTexts,
) -> Result<Local, OwnFault>
    requires text { IsText SCHEMA_LIMIT texts.now.schema }
    ensures answer { IfOk result (HasAnswer asked.now texts.now) }
    ensures within { IfOk result (λ answer. IsWithin answer.cost) }
    ensures refused { IfErr result (λ fault. IfOwnRefused fault (IsIntrospectRefusal asked.now texts.now)) }
{
    let inputs = match inputs_in(alloc, asked, texts) {
        Ok(inputs) => inputs,
        Err(fault) => return Err(asked_fault(fault)),
    };
    let request = request_of(asked, &inputs, work);
    match answer_of(alloc, texts, &request) {
        Ok(answer) => Ok(answer),
        Err(fault) => Err(fault),
    }
}

// What the texts of an operation's files come to.
fn introspect_texts(alloc: Global, asked: &Asked, texts: &AskedTexts) -> Outcome
    requires text { IsText SCHEMA_LIMIT texts.now.schema }
    ensures { IntrospectOf asked.now texts.now result }
{
    let left = Cell::new(0u64);
    let work = work_up_to(asked.most_work, &left);
    match answer_in(alloc, work, asked, texts) {
        Ok(answer) => answered(alloc, &answer),
        Err(OwnFault::Refused(refusal)) => refused_own(alloc, asked, refusal),
        Err(OwnFault::Memory) => wanting(alloc, asked.most_work, work),
    }
}

/// Answers the operation that files hold from their schema.
pub fn introspect<F: Files>(alloc: Global, asked: &Asked, files: &mut F) -> Outcome
    ensures { IntrospectCameTo asked.now (files_told (F.content files.old) (F.faults files.old) (F.faults files.new)) result }
{
    match read_asked(alloc, asked, files) {
        Ok(texts) => introspect_texts(alloc, asked, &texts),
        Err(outcome) => outcome,
    }
}
