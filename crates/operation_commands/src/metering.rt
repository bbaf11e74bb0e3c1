//! The command `meter SCHEMA DOCUMENT REPLY`.

ghost use Rattle.std.specs.Prelude.{◌≡◌, ◌≤◌, ℕ, List, IfOk, IfErr, OnOk};
ghost use Rattle.cost_num.specs.declared.TheConstants.{CAP};
ghost use Rattle.response_model.specs.Plan.{Plan as PlanTree};
ghost use Rattle.response_model.specs.Cost.{Part as PartOfCost};
ghost use Rattle.plan_table.specs.TableBounds.{HoldsSound, IsWithinCap};
ghost use Rattle.outside.specs.Faults.{StayAll};
ghost use Rattle.command_outcomes.specs.Reading.{IsText};
ghost use Rattle.command_outcomes.specs.Outcomes.{files_told, IsDone};
ghost use Rattle.operation_commands.specs.Asked.{HoldTexts, IsRefusalOf, IfAskedRefused};
ghost use Rattle.operation_commands.specs.Meter.{measure_text, IsReply, HasNoReply, HaveNoMetering, MeterOfPlan, MeterOfAccepted, MeterOf, MeterCameTo};

use crate::asked::{AskedTexts, OperationTexts, read_operation, read_variables};
use crate::asking::{AskedFault, inputs_in, refused_asked};
use crate::forwarding::forwarded_in;
use crate::pricing::{accepted, text_of_cost};
use crate::reply_texts::{no_response, size_broken, too_large};
use acceptance::work_up_to;
use command_outcomes::{Outcome, REPLY_LIMIT, SCHEMA_LIMIT, read_file, wanting};
use command_words::Asked;
use cost_num::CAP;
use counted_work::Work;
use gql_base::Text;
use outside::Files;
use plan_table::Plan;
use response_meter::{MeterFault, Metered, print_answer};
use std::alloc::{AllocError, Global};
use std::cell::Cell;

// The files of the command.
#[derive(Drop)]
struct Metering {
    texts: AskedTexts,
    reply: Vec<u8>,
}

// The bytes that a reply file holds.
fn read_reply<F: Files>(alloc: Global, name: &Text, files: &mut F) -> Result<Vec<u8>, Outcome>
    ensures held { IfOk result (λ read. IsReply (F.content files.old name.now) read.items) }
    ensures same { F.content files.new ≡ F.content files.old }
    ensures count { (other : List ℕ) → F.faults files.old other ≤ F.faults files.new other }
    ensures still { OnOk result (StayAll (F.faults files.old) (F.faults files.new)) }
    ensures none { IfErr result (HasNoReply name.now (files_told (F.content files.old) (F.faults files.old) (F.faults files.new))) }
{
    let Ok(own) = Text::copy_of(alloc, name.as_str()) else {
        return Err(Outcome::Memory);
    };
    match read_file(alloc, own, REPLY_LIMIT, files) {
        Ok(read) if read.len() > REPLY_LIMIT => Err(too_large(alloc, name)),
        Ok(read) => Ok(read),
        Err(outcome) => Err(outcome),
    }
}

// Reads the files of the command, each whole before the next: the schema, the document, the reply, the variables.
fn read_metering<F: Files>(
    alloc: Global,
    asked: &Asked,
    reply: &Text,
    files: &mut F,
) -> Result<Metering, Outcome>
    ensures texts { IfOk result (λ read. HoldTexts asked.now (F.content files.old) read.texts) }
    ensures reply { IfOk result (λ read. IsReply (F.content files.old reply.now) read.reply.items) }
    ensures still { OnOk result (StayAll (F.faults files.old) (F.faults files.new)) }
    ensures none { IfErr result (HaveNoMetering asked.now reply.now (files_told (F.content files.old) (F.faults files.old) (F.faults files.new))) }
{
    let OperationTexts { schema, document } = match read_operation(alloc, asked, files) {
        Ok(texts) => texts,
        Err(outcome) => return Err(outcome),
    };
    let reply = match read_reply(alloc, reply, files) {
        Ok(reply) => reply,
        Err(outcome) => return Err(outcome),
    };
    let variables = match read_variables(alloc, &asked.variables, files) {
        Ok(variables) => variables,
        Err(outcome) => return Err(outcome),
    };
    let texts = AskedTexts {
        schema,
        document,
        variables,
    };
    Ok(Metering { texts, reply })
}

// The text of a measured cost, and the answer text on a line of its own.
fn text_of_measure(alloc: Global, metered: Metered) -> Result<Vec<u8>, AllocError>
    requires types_within { metered.cost.types ≤ CAP }
    requires fields_within { metered.cost.fields ≤ CAP }
    ensures { IfOk result (λ text. text.items ≡ measure_text metered) }
{
    let mut text = text_of_cost(alloc, metered.cost)?;
    text.extend_from_slice(b"\n")?;
    text.extend_from_slice(print_answer(metered).as_bytes())?;
    Ok(text)
}

// The outcome of a reply that is measured so.
fn measured(alloc: Global, metered: Metered) -> Outcome
    requires types_within { metered.cost.types ≤ CAP }
    requires fields_within { metered.cost.fields ≤ CAP }
    ensures { IsDone (measure_text metered) result }
{
    match text_of_measure(alloc, metered) {
        Ok(text) => Outcome::Done(text),
        Err(_) => Outcome::Memory,
    }
}

// What a reply to an operation of this plan comes to.
fn meter_plan(alloc: Global, plan: &Plan, alias: &str, reply: &[u8]) -> Outcome
    requires sound { (tree : PlanTree) × HoldsSound plan.now tree }
    requires counted { (part : PartOfCost) → IsWithinCap plan.now part }
    ensures { (tree : PlanTree) → HoldsSound plan.now tree → MeterOfPlan plan.now alias.now tree reply.now result }
{
    match response_meter::meter(alloc, plan, alias, reply) {
        Ok(metered) => measured(alloc, metered),
        Err(MeterFault::NotResponse { path, why }) => no_response(alloc, path, why),
        Err(MeterFault::SizeBroken { path, size, length }) => {
            size_broken(alloc, path, size, length)
        }
        Err(MeterFault::Memory) => Outcome::Memory,
    }
}

// What a reply to the operation of these texts comes to, where it is accepted.
fn meter_in(
    alloc: Global,
    work: Work<'_>,
    asked: &Asked,
    texts: &AskedTexts,
    reply: &[u8],
) -> Result<Outcome, AskedFault>
    requires text { IsText SCHEMA_LIMIT texts.now.schema }
    ensures accepted { IfOk result (MeterOfAccepted asked.now texts.now reply.now) }
    ensures refused { IfErr result (λ fault. IfAskedRefused fault (IsRefusalOf asked.now texts.now)) }
{
    let inputs = match inputs_in(alloc, asked, texts) {
        Ok(inputs) => inputs,
        Err(fault) => return Err(fault),
    };
    let accepted = match accepted(alloc, work, asked, texts, &inputs) {
        Ok(accepted) => accepted,
        Err(fault) => return Err(fault),
    };
    match forwarded_in(alloc, work, asked, &inputs, &accepted.checked) {
        Ok(forwarded) => Ok(meter_plan(alloc, &accepted.plan, forwarded.alias.as_str(), reply)),
        Err(fault) => Err(fault),
    }
}

// What the texts of an operation's files and a reply come to.
fn meter_texts(alloc: Global, asked: &Asked, texts: &AskedTexts, reply: &[u8]) -> Outcome
    requires text { IsText SCHEMA_LIMIT texts.now.schema }
    ensures { MeterOf asked.now texts.now reply.now result }
{
    let left = Cell::new(0u64);
    let work = work_up_to(asked.most_work, &left);
    match meter_in(alloc, work, asked, texts, reply) {
        Ok(outcome) => outcome,
        Err(AskedFault::Refused(refusal)) => refused_asked(alloc, asked, refusal),
        Err(AskedFault::Memory) => wanting(alloc, asked.most_work, work),
    }
}

/// Measures a reply to the operation that files hold. All files are read first, and a reply that is longer than its limit is
/// told before anything of the operation.
pub fn meter<F: Files>(alloc: Global, asked: &Asked, reply: &Text, files: &mut F) -> Outcome
    ensures { MeterCameTo asked.now reply.now (files_told (F.content files.old) (F.faults files.old) (F.faults files.new)) result }
{
    match read_metering(alloc, asked, reply, files) {
        Ok(read) => meter_texts(alloc, asked, &read.texts, &read.reply),
        Err(outcome) => outcome,
    }
}
