//! The command `worst SCHEMA DOCUMENT PART`.

ghost use Rattle.std.specs.Prelude.{◌≡◌, IfOk, IfErr, Some, []};
ghost use Rattle.response_model.specs.Plan.{Plan as PlanTree};
ghost use Rattle.response_model.specs.Cost.{Part as PartOfCost};
ghost use Rattle.response_model.specs.ResponseText.{response_text as text_of_response};
ghost use Rattle.plan_table.specs.Trees.{tree_of};
ghost use Rattle.response_model.specs.WrittenJson.{IsFloatless};
ghost use Rattle.plan_table.specs.TableBounds.{HoldsSound, IsWithinCap};
ghost use Rattle.command_outcomes.specs.Reading.{IsText};
ghost use Rattle.command_outcomes.specs.Outcomes.{files_told, IsDone};
ghost use Rattle.operation_commands.specs.Asked.{IsRefusalOf, IfAskedRefused};
ghost use Rattle.operation_commands.specs.Worst.{WorstOfTree, WorstOfAccepted, WorstOf, WorstCameTo};

use crate::asked::{AskedTexts, read_asked};
use crate::asking::{AskedFault, inputs_in, refused_asked};
use crate::pricing::accepted;
use acceptance::{Accepted, work_up_to};
use command_outcomes::{Outcome, SCHEMA_LIMIT, refused_as, wanting};
use command_words::Asked;
use counted_work::Work;
use outside::Files;
use plan_table::{Tree, response_text};
use static_cost::laws::worst_attains_the_bound;
use static_cost::{Part, WorstFault};
use std::alloc::{AllocError, Global};
use std::cell::Cell;

// The outcome of a response.
fn written(alloc: Global, tree: &Tree) -> Outcome
    requires floatless { IsFloatless (tree_of tree.now) }
    ensures { IsDone (text_of_response (Some (tree_of tree.now)) []) result }
{
    match response_text(alloc, tree) {
        Ok(text) => Outcome::Done(text.into_bytes()),
        Err(_) => Outcome::Memory,
    }
}

// What an operation that is accepted comes to. It fails for want of memory alone, or of steps.
fn worst_of(
    alloc: Global,
    work: Work<'_>,
    accepted: &Accepted,
    part: Part,
) -> Result<Outcome, AllocError>
    requires counted { (some : PartOfCost) → IsWithinCap accepted.now.plan some }
    ensures { IfOk result (λ outcome. (tree : PlanTree) → HoldsSound accepted.now.plan tree → WorstOfTree part tree outcome) }
{
    match static_cost::worst(alloc, work, &accepted.plan, part) {
        Ok(tree) => Ok(written(alloc, &tree)),
        Err(WorstFault::TooLarge) => Ok(refused_as(alloc, "worst 1 TooLarge")),
        Err(WorstFault::Memory) => Err(AllocError),
    }
}

// What the operation of these texts comes to, where it is accepted.
fn worst_in(
    alloc: Global,
    work: Work<'_>,
    asked: &Asked,
    part: Part,
    texts: &AskedTexts,
) -> Result<Outcome, AskedFault>
    requires text { IsText SCHEMA_LIMIT texts.now.schema }
    ensures accepted { IfOk result (WorstOfAccepted asked.now part texts.now) }
    ensures refused { IfErr result (λ fault. IfAskedRefused fault (IsRefusalOf asked.now texts.now)) }
{
    let inputs = match inputs_in(alloc, asked, texts) {
        Ok(inputs) => inputs,
        Err(fault) => return Err(fault),
    };
    worst_attains_the_bound();
    match accepted(alloc, work, asked, texts, &inputs) {
        Ok(accepted) => match worst_of(alloc, work, &accepted, part) {
            Ok(outcome) => Ok(outcome),
            Err(_) => Err(AskedFault::Memory),
        },
        Err(fault) => Err(fault),
    }
}

// What the texts of an operation's files come to.
fn worst_texts(alloc: Global, asked: &Asked, part: Part, texts: &AskedTexts) -> Outcome
    requires text { IsText SCHEMA_LIMIT texts.now.schema }
    ensures { WorstOf asked.now part texts.now result }
{
    let left = Cell::new(0u64);
    let work = work_up_to(asked.most_work, &left);
    match worst_in(alloc, work, asked, part, texts) {
        Ok(outcome) => outcome,
        Err(AskedFault::Refused(refusal)) => refused_asked(alloc, asked, refusal),
        Err(AskedFault::Memory) => wanting(alloc, asked.most_work, work),
    }
}

/// Writes a response that costs as much as any to the operation that files hold.
pub fn worst<F: Files>(alloc: Global, asked: &Asked, part: Part, files: &mut F) -> Outcome
    ensures { WorstCameTo asked.now part (files_told (F.content files.old) (F.faults files.old) (F.faults files.new)) result }
{
    match read_asked(alloc, asked, files) {
        Ok(texts) => worst_texts(alloc, asked, part, &texts),
        Err(outcome) => outcome,
    }
}
