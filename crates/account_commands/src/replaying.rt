//! The command `replay SCHEMA CLIENTS SCRIPT`.

ghost use Rattle.std.specs.Prelude.{◌≡◌};
ghost use Rattle.command_outcomes.specs.Reading.{IsText};
ghost use Rattle.command_outcomes.specs.Outcomes.{files_told};
ghost use Rattle.account_commands.specs.Replay.{IsPrintable, IsWritten, ReplayOf, ReplayCameTo};
ghost use Rattle.command_outcomes.specs.declared.outcome.Outcome.TheVariants.{Memory};
ghost use Rattle.std.specs.Prelude.{◌⊎◌};

use crate::client_lines::lines_of_end;
use crate::replay_end::{ReplayEnd, replay_texts};
use crate::replay_inputs::{ReplayFault, refused_replay};
use crate::replay_texts::{ReplayTexts, read_replay};
use command_outcomes::{Outcome, SCHEMA_LIMIT};
use command_words::AskedReplay;
use outside::Files;
use std::alloc::Global;
use std::sync::Wait;

// The outcome of a replay that came to this end.
fn replayed(alloc: Global, end: ReplayEnd) -> Outcome
    requires { IsPrintable end }
    ensures { (result ≡ Memory) ⊎ IsWritten end result }
{
    match lines_of_end(alloc, end) {
        Ok(output) => Outcome::Done(output),
        Err(_) => Outcome::Memory,
    }
}

// What the texts of a replay come to.
fn replay_of<Rt: Wait>(alloc: Global, rt: &Rt, asked: &AskedReplay, texts: &ReplayTexts) -> Outcome
    requires text { IsText SCHEMA_LIMIT texts.now.rules.schema }
    ensures { ReplayOf asked.now.schema texts.now asked.now.undeclared asked.now.most_work result }
{
    match replay_texts(alloc, rt, texts, asked.undeclared, asked.most_work) {
        Ok(end) => replayed(alloc, end),
        Err(ReplayFault::Refused(refusal)) => refused_replay(alloc, &asked.schema, refusal),
        Err(ReplayFault::Memory) => Outcome::Memory,
    }
}

/// Replays the script that a file holds, by the schema and the clients of files.
pub fn replay<Rt: Wait, F: Files>(
    alloc: Global,
    rt: &Rt,
    asked: &AskedReplay,
    files: &mut F,
) -> Outcome
    ensures { ReplayCameTo asked.now (files_told (F.content files.old) (F.faults files.old) (F.faults files.new)) result }
{
    match read_replay(alloc, asked, files) {
        Ok(texts) => replay_of(alloc, rt, asked, &texts),
        Err(outcome) => outcome,
    }
}
