//! The files by which a gateway is served: reading them, and what they hold.

ghost use Rattle.std.specs.Prelude.{◌≡◌, IfOk, IfErr, OnOk};
ghost use Rattle.outside.specs.Faults.{StayAll};
ghost use Rattle.client_files.specs.ClientFiles.{MayBeServed};
ghost use Rattle.account_commands.specs.PassedOn.{IsText, files_told, IsRefusedAs};
ghost use Rattle.account_commands.specs.RuleFiles.{HoldRules};
ghost use Rattle.account_commands.specs.Lists.{HoldsList};
ghost use Rattle.gateway_run.specs.ServeFiles.{HoldServeTexts, HaveNoServeTexts, HoldServe, IsServeRefusal, IfServeRefused, serve_refusal_text, HaveNoRulesIn, IsNoList};

use account_commands::{
    ListFault, ListText, Outcome, RuleInputs, RuleTexts, RulesFault, RulesRefusal, SCHEMA_LIMIT,
    list_in, read_list, read_rules, refused_list, refused_rules, rule_inputs_in,
};
use command_words::AskedServe;
use gql_base::Text;
use outside::Files;
use std::alloc::Global;
use thiserror::Error;
use trusted_documents::{Trusted, TrustedFault};

/// The texts of the files by which a gateway is served.
#[derive(Drop)]
pub struct ServeTexts {
    pub rules: RuleTexts,
    /// The text of the list of trusted documents, if there is one.
    pub list: Option<ListText>,
}

/// By what a gateway is served.
#[derive(Drop)]
pub struct ServeInputs {
    pub rules: RuleInputs,
    /// The list of trusted documents, if there is one.
    pub list: Option<Trusted>,
}

/// Why the texts are refused.
#[derive(Debug, Drop, Error)]
pub enum ServeRefusal {
    /// Those of the rules are.
    #[error("{0}")]
    NoRules(RulesRefusal),
    /// The text of the list is none. The fault is not want of memory.
    #[error("the list of trusted documents is refused: {0}")]
    NoList(TrustedFault),
}

/// Why nobody is served.
#[derive(Debug, Drop, Error)]
pub enum InputsFault {
    /// The texts are refused.
    #[error("{0}")]
    Refused(ServeRefusal),
    /// There was no memory.
    #[error("there was no memory for the rules")]
    Memory,
}

/// Reads the files, each whole before the next: the schema, the clients, the list.
pub(crate) fn read_serve<F: Files>(
    alloc: Global,
    asked: &AskedServe,
    files: &mut F,
) -> Result<ServeTexts, Outcome>
    ensures held { IfOk result (HoldServeTexts asked.now (F.content files.old)) }
    ensures still { OnOk result (StayAll (F.faults files.old) (F.faults files.new)) }
    ensures none { IfErr result (HaveNoServeTexts asked.now (files_told (F.content files.old) (F.faults files.old) (F.faults files.new))) }
{
    let rules = match read_rules(alloc, &asked.schema, &asked.clients, files) {
        Ok(rules) => rules,
        Err(outcome) => return Err(outcome),
    };
    match read_list(alloc, &asked.list, files) {
        Ok(list) => Ok(ServeTexts { rules, list }),
        Err(outcome) => Err(outcome),
    }
}

// The rules of texts.
fn rules_of(alloc: Global, texts: &RuleTexts, undeclared: u32) -> Result<RuleInputs, InputsFault>
    requires text { IsText SCHEMA_LIMIT texts.now.schema }
    ensures held { IfOk result (HoldRules texts.now undeclared) }
    ensures served { IfOk result (λ inputs. MayBeServed inputs.clients.window_seconds inputs.clients.clients.items) }
    ensures refused { IfErr result (λ fault. IfServeRefused fault (HaveNoRulesIn texts.now undeclared)) }
{
    match rule_inputs_in(alloc, texts, undeclared) {
        Ok(rules) => Ok(rules),
        Err(RulesFault::Refused(refusal)) => {
            Err(InputsFault::Refused(ServeRefusal::NoRules(refusal)))
        }
        Err(RulesFault::Memory) => Err(InputsFault::Memory),
    }
}

// The list of a text, if there is one.
fn list_of(alloc: Global, text: &Option<ListText>) -> Result<Option<Trusted>, InputsFault>
    ensures held { IfOk result (HoldsList text.now) }
    ensures refused { IfErr result (λ fault. IfServeRefused fault (IsNoList text.now)) }
{
    match list_in(alloc, text) {
        Ok(list) => Ok(list),
        Err(ListFault::Refused(fault)) => Err(InputsFault::Refused(ServeRefusal::NoList(fault))),
        Err(ListFault::Memory) => Err(InputsFault::Memory),
    }
}

/// What the texts hold, or why they are refused: the schema is looked at first, then the clients, and then the list.
pub(crate) fn serve_inputs_in(
    alloc: Global,
    texts: &ServeTexts,
    undeclared: u32,
) -> Result<ServeInputs, InputsFault>
    requires text { IsText SCHEMA_LIMIT texts.now.rules.schema }
    ensures held { IfOk result (HoldServe texts.now undeclared) }
    ensures served { IfOk result (λ inputs. MayBeServed inputs.rules.clients.window_seconds inputs.rules.clients.clients.items) }
    ensures refused { IfErr result (λ fault. IfServeRefused fault (IsServeRefusal texts.now undeclared)) }
{
    let rules = match rules_of(alloc, &texts.rules, undeclared) {
        Ok(rules) => rules,
        Err(fault) => return Err(fault),
    };
    match list_of(alloc, &texts.list) {
        Ok(list) => Ok(ServeInputs { rules, list }),
        Err(fault) => Err(fault),
    }
}

/// The outcome of texts that are refused, where the schema's file has this name.
pub(crate) fn refused_serve(alloc: Global, name: &Text, refusal: ServeRefusal) -> Outcome
    ensures { IsRefusedAs (serve_refusal_text name.now refusal) result }
{
    match refusal {
        ServeRefusal::NoRules(refusal) => refused_rules(alloc, name, refusal),
        ServeRefusal::NoList(fault) => refused_list(alloc, &fault),
    }
}
