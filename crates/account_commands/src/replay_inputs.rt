//! What the texts of a replay hold.

ghost use Rattle.std.specs.Prelude.{◌≡◌, IfOk, IfErr};
ghost use Rattle.client_files.specs.ClientFiles.{MayBeServed};
ghost use Rattle.replay_scripts.specs.Answers.{steps_of};
ghost use Rattle.replay_scripts.specs.Scripts.{IsScript};
ghost use Rattle.replay_scripts.specs.FaultTexts as script_texts;
ghost use Rattle.command_outcomes.specs.Reading.{IsText};
ghost use Rattle.command_outcomes.specs.Outcomes.{IsRefusedAs};
ghost use Rattle.account_commands.specs.RuleFiles.{HoldRules};
ghost use Rattle.account_commands.specs.Replay.{HoldReplay, IsReplayRefusal, IfReplayRefused, replay_refusal_text, HaveNoRulesIn, IsNoScript, IsNoList};
ghost use Rattle.account_commands.specs.Lists.{HoldsList};

use crate::list_inputs::{ListFault, ListText, list_in, refused_list};
use crate::replay_texts::ReplayTexts;
use crate::rule_inputs::{RuleInputs, RulesFault, RulesRefusal, refused_rules, rule_inputs_in};
use crate::rule_texts::RuleTexts;
use command_outcomes::{Outcome, SCHEMA_LIMIT};
use gql_base::Text;
use replay_scripts::{Script, ScriptFault, fault_text, read_script};
use std::alloc::Global;
use thiserror::Error;
use trusted_documents::{Trusted, TrustedFault};

/// What is replayed, and by which rules.
#[derive(Drop)]
pub struct ReplayInputs<'a> {
    pub rules: RuleInputs,
    pub script: Script<'a>,
    /// The list of trusted documents, if there is one.
    pub list: Option<Trusted>,
}

/// Why the texts of a replay are refused.
#[derive(Debug, Drop, Error)]
pub enum ReplayRefusal {
    /// Those of the rules are.
    #[error("{0}")]
    NoRules(RulesRefusal),
    /// The text of the script is none. The fault is not want of memory.
    #[error("the script is refused: {0}")]
    NoScript(ScriptFault),
    /// The text of the list is none. The fault is not want of memory.
    #[error("the list of trusted documents is refused: {0}")]
    NoList(TrustedFault),
}

/// Why nothing is replayed.
#[derive(Debug, Drop, Error)]
pub enum ReplayFault {
    /// The texts are refused.
    #[error("{0}")]
    Refused(ReplayRefusal),
    /// There was no memory.
    #[error("there was no memory for the replay")]
    Memory,
}

// The rules of texts.
fn rules_of(alloc: Global, texts: &RuleTexts, undeclared: u32) -> Result<RuleInputs, ReplayFault>
    requires text { IsText SCHEMA_LIMIT texts.now.schema }
    ensures held { IfOk result (HoldRules texts.now undeclared) }
    ensures served { IfOk result (λ inputs. MayBeServed inputs.clients.window_seconds inputs.clients.clients.items) }
    ensures refused { IfErr result (λ fault. IfReplayRefused fault (HaveNoRulesIn texts.now undeclared)) }
{
    match rule_inputs_in(alloc, texts, undeclared) {
        Ok(rules) => Ok(rules),
        Err(RulesFault::Refused(refusal)) => {
            Err(ReplayFault::Refused(ReplayRefusal::NoRules(refusal)))
        }
        Err(RulesFault::Memory) => Err(ReplayFault::Memory),
    }
}

// The script of a text.
fn script_of(alloc: Global, text: &str) -> Result<Script<'_>, ReplayFault>
    ensures held { IfOk result (λ script. IsScript text.now (steps_of script)) }
    ensures refused { IfErr result (λ fault. IfReplayRefused fault (IsNoScript text.now)) }
{
    match read_script(alloc, text) {
        Ok(script) => Ok(script),
        Err(ScriptFault::Memory) => Err(ReplayFault::Memory),
        Err(fault) => Err(ReplayFault::Refused(ReplayRefusal::NoScript(fault))),
    }
}

// The list of a text, if there is one.
fn list_of(alloc: Global, text: &Option<ListText>) -> Result<Option<Trusted>, ReplayFault>
    ensures held { IfOk result (HoldsList text.now) }
    ensures refused { IfErr result (λ fault. IfReplayRefused fault (IsNoList text.now)) }
{
    match list_in(alloc, text) {
        Ok(list) => Ok(list),
        Err(ListFault::Refused(fault)) => Err(ReplayFault::Refused(ReplayRefusal::NoList(fault))),
        Err(ListFault::Memory) => Err(ReplayFault::Memory),
    }
}

/// What the texts of a replay hold, or why they are refused: the schema is looked at first, then the clients, then the script, and
/// then the list.
pub fn replay_inputs_in(
    alloc: Global,
    texts: &ReplayTexts,
    undeclared: u32,
) -> Result<ReplayInputs<'_>, ReplayFault>
    requires text { IsText SCHEMA_LIMIT texts.now.rules.schema }
    ensures held { IfOk result (HoldReplay texts.now undeclared) }
    ensures served { IfOk result (λ inputs. MayBeServed inputs.rules.clients.window_seconds inputs.rules.clients.clients.items) }
    ensures refused { IfErr result (λ fault. IfReplayRefused fault (IsReplayRefusal texts.now undeclared)) }
{
    let rules = match rules_of(alloc, &texts.rules, undeclared) {
        Ok(rules) => rules,
        Err(fault) => return Err(fault),
    };
    let script = match script_of(alloc, texts.script.as_str()) {
        Ok(script) => script,
        Err(fault) => return Err(fault),
    };
    match list_of(alloc, &texts.list) {
        Ok(list) => Ok(ReplayInputs {
            rules,
            script,
            list,
        }),
        Err(fault) => Err(fault),
    }
}

// The outcome of a text that is no script.
fn refused_script(alloc: Global, fault: ScriptFault) -> Outcome
    ensures { IsRefusedAs (script_texts.fault_text fault) result }
{
    match fault_text(alloc, fault) {
        Ok(text) => Outcome::Refused(text),
        Err(_) => Outcome::Memory,
    }
}

/// The outcome of texts that are refused, where the schema's file has this name.
pub fn refused_replay(alloc: Global, name: &Text, refusal: ReplayRefusal) -> Outcome
    ensures { IsRefusedAs (replay_refusal_text name.now refusal) result }
{
    match refusal {
        ReplayRefusal::NoRules(refusal) => refused_rules(alloc, name, refusal),
        ReplayRefusal::NoScript(fault) => refused_script(alloc, fault),
        ReplayRefusal::NoList(fault) => refused_list(alloc, &fault),
    }
}
