//! The files of a replay: reading them.

ghost use Rattle.std.specs.Prelude.{◌≡◌, ◌≤◌, ℕ, List, IfOk, IfErr, OnOk};
ghost use Rattle.outside.specs.Faults.{StayAll};
ghost use Rattle.command_outcomes.specs.Outcomes.{files_told};
ghost use Rattle.command_outcomes.specs.Reading.{IsTextOf};
ghost use Rattle.account_commands.specs.RuleFiles.{HoldRuleTexts};
ghost use Rattle.account_commands.specs.Replay.{HoldReplayTexts, HaveNoScript, HaveNoReplay};

use crate::list_inputs::{ListText, read_list};
use crate::rule_texts::{RuleTexts, read_rules};
use command_outcomes::{Outcome, SCRIPT_LIMIT, read_text};
use command_words::AskedReplay;
use gql_base::Text;
use outside::Files;
use std::alloc::Global;

/// The texts of a replay.
#[derive(Drop)]
pub struct ReplayTexts {
    pub rules: RuleTexts,
    pub script: Text,
    /// The text of the list of trusted documents, if there is one.
    pub list: Option<ListText>,
}

// The texts of the schema, of the clients and of the script of a replay.
#[derive(Drop)]
struct ScriptTexts {
    rules: RuleTexts,
    script: Text,
}

// Reads the first three files of a replay, each whole before the next: the schema, the clients, the script.
fn read_script<F: Files>(
    alloc: Global,
    asked: &AskedReplay,
    files: &mut F,
) -> Result<ScriptTexts, Outcome>
    ensures rules { IfOk result (λ texts. HoldRuleTexts asked.now.schema asked.now.clients (F.content files.old) texts.rules) }
    ensures script { IfOk result (λ texts. IsTextOf SCRIPT_LIMIT (F.content files.old asked.now.script) texts.script) }
    ensures same { F.content files.new ≡ F.content files.old }
    ensures count { (other : List ℕ) → F.faults files.old other ≤ F.faults files.new other }
    ensures still { OnOk result (StayAll (F.faults files.old) (F.faults files.new)) }
    ensures none { IfErr result (HaveNoScript asked.now (files_told (F.content files.old) (F.faults files.old) (F.faults files.new))) }
{
    let rules = match read_rules(alloc, &asked.schema, &asked.clients, files) {
        Ok(rules) => rules,
        Err(outcome) => return Err(outcome),
    };
    match read_text(alloc, &asked.script, SCRIPT_LIMIT, files) {
        Ok(script) => Ok(ScriptTexts { rules, script }),
        Err(outcome) => Err(outcome),
    }
}

/// Reads the files of a replay, each whole before the next: the schema, the clients, the script, the list.
pub fn read_replay<F: Files>(
    alloc: Global,
    asked: &AskedReplay,
    files: &mut F,
) -> Result<ReplayTexts, Outcome>
    ensures held { IfOk result (HoldReplayTexts asked.now (F.content files.old)) }
    ensures still { OnOk result (StayAll (F.faults files.old) (F.faults files.new)) }
    ensures none { IfErr result (HaveNoReplay asked.now (files_told (F.content files.old) (F.faults files.old) (F.faults files.new))) }
{
    let ScriptTexts { rules, script } = match read_script(alloc, asked, files) {
        Ok(texts) => texts,
        Err(outcome) => return Err(outcome),
    };
    match read_list(alloc, &asked.list, files) {
        Ok(list) => Ok(ReplayTexts {
            rules,
            script,
            list,
        }),
        Err(outcome) => Err(outcome),
    }
}
