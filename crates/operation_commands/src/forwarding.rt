//! The command `forward SCHEMA DOCUMENT`.

ghost use Rattle.std.specs.Prelude.{◌≡◌, IfOk, IfErr, string_bytes};
ghost use Rattle.acceptance.specs.Requests.{Prepared, IsCheckFor};
ghost use Rattle.acceptance.specs.Forwarding.{IsFreeIn, IsSentText};
ghost use Rattle.command_outcomes.specs.Reading.{IsText};
ghost use Rattle.command_outcomes.specs.Outcomes.{files_told};
ghost use Rattle.operation_commands.specs.Asked.{request_in, IsRefusalOf, IfAskedRefused};
ghost use Rattle.operation_commands.specs.Forward.{IsSent, ForwardOf, ForwardCameTo};

use crate::asked::{AskedTexts, read_asked};
use crate::asking::{AskedFault, Inputs, inputs_in, refused_asked, request_of};
use crate::pricing::accepted;
use acceptance::{Forwarded, sent_for, work_up_to};
use command_outcomes::{Outcome, SCHEMA_LIMIT, wanting};
use command_words::Asked;
use counted_work::Work;
use document_rules::Checked;
use outside::Files;
use std::alloc::Global;
use std::cell::Cell;

/// What is sent for the operation of these inputs, where it was checked.
pub fn forwarded_in(
    alloc: Global,
    work: Work<'_>,
    asked: &Asked,
    inputs: &Inputs,
    checked: &Checked,
) -> Result<Forwarded, AskedFault>
    requires checked { IsCheckFor (request_in asked.now inputs.now) checked.now }
    ensures alias { IfOk result (λ f. IsFreeIn (request_in asked.now inputs.now) f.alias) }
    ensures body { IfOk result (λ f. (p : Prepared (request_in asked.now inputs.now)) → IsSentText (request_in asked.now inputs.now) p f.alias (string_bytes f.body)) }
    ensures memory { IfErr result (λ fault. fault ≡ AskedFault.Memory) }
{
    let request = request_of(asked, inputs, work);
    match sent_for(alloc, &request, checked) {
        Ok(forwarded) => Ok(forwarded),
        Err(_) => Err(AskedFault::Memory),
    }
}

// What is sent for the operation of these texts.
fn sent_of(
    alloc: Global,
    work: Work<'_>,
    asked: &Asked,
    texts: &AskedTexts,
) -> Result<String, AskedFault>
    requires text { IsText SCHEMA_LIMIT texts.now.schema }
    ensures sent { IfOk result (λ text. IsSent asked.now texts.now (string_bytes text)) }
    ensures refused { IfErr result (λ fault. IfAskedRefused fault (IsRefusalOf asked.now texts.now)) }
{
    let inputs = match inputs_in(alloc, asked, texts) {
        Ok(inputs) => inputs,
        Err(fault) => return Err(fault),
    };
    let accepted = match accepted(alloc, work, asked, texts, &inputs) {
        Ok(accepted) => accepted,
        Err(fault) => return Err(fault),
    };
    match forwarded_in(alloc, work, asked, &inputs, &accepted.checked) {
        Ok(forwarded) => Ok(forwarded.body),
        Err(fault) => Err(fault),
    }
}

// What the texts of an operation's files come to.
fn forward_texts(alloc: Global, asked: &Asked, texts: &AskedTexts) -> Outcome
    requires text { IsText SCHEMA_LIMIT texts.now.schema }
    ensures { ForwardOf asked.now texts.now result }
{
    let left = Cell::new(0u64);
    let work = work_up_to(asked.most_work, &left);
    match sent_of(alloc, work, asked, texts) {
        Ok(text) => Outcome::Done(text.into_bytes()),
        Err(AskedFault::Refused(refusal)) => refused_asked(alloc, asked, refusal),
        Err(AskedFault::Memory) => wanting(alloc, asked.most_work, work),
    }
}

/// Writes what is sent to the upstream for the operation that files hold.
pub fn forward<F: Files>(alloc: Global, asked: &Asked, files: &mut F) -> Outcome
    ensures { ForwardCameTo asked.now (files_told (F.content files.old) (F.faults files.old) (F.faults files.new)) result }
{
    match read_asked(alloc, asked, files) {
        Ok(texts) => forward_texts(alloc, asked, &texts),
        Err(outcome) => outcome,
    }
}
