//! What the texts of a schema and of clients hold, by which requests are decided.

ghost use Rattle.std.specs.Prelude.{◌≡◌, IfOk, IfErr};
ghost use Rattle.client_files.specs.ClientFiles.{IsClientFile, MayBeServed};
ghost use Rattle.command_outcomes.specs.Reading.{IsText};
ghost use Rattle.command_outcomes.specs.Outcomes.{IsRefusedAs};
ghost use Rattle.command_outcomes.specs.Check.{HoldsWith};
ghost use Rattle.account_commands.specs.RuleFiles.{HoldRules, IsRulesRefusal, IfRulesRefused, rules_refusal_text, IsNoSchema, AreNoClients};

use crate::migrating::refused_clients;
use crate::rule_texts::RuleTexts;
use client_files::{Clients, ClientsFault, read_clients};
use command_outcomes::{
    CheckFault, Facts, Outcome, SCHEMA_LIMIT, SchemaRefusal, Weighed, known_of, refused_schema,
    weighed_in,
};
use gql_base::Text;
use std::alloc::Global;
use thiserror::Error;

/// By what requests are decided: a schema with its weights, what is known of it, and clients.
#[derive(Drop)]
pub struct RuleInputs {
    pub weighed: Weighed,
    /// By this, operations that ask for the schema are answered.
    pub facts: Facts,
    pub clients: Clients,
}

/// Why the texts of a schema and of clients are refused.
#[derive(Debug, Drop, Error)]
pub enum RulesRefusal {
    /// The schema's text holds none.
    #[error("the schema is refused: {0}")]
    NoSchema(SchemaRefusal),
    /// The text of the clients is no client file. The fault is not want of memory.
    #[error("the clients are refused: {0}")]
    NoClients(ClientsFault),
}

/// Why there are no rules.
#[derive(Debug, Drop, Error)]
pub enum RulesFault {
    /// The texts are refused.
    #[error("{0}")]
    Refused(RulesRefusal),
    /// There was no memory.
    #[error("there was no memory for the rules")]
    Memory,
}

// The schema of a text, with its weights.
fn schema_of(alloc: Global, text: &str, undeclared: u32) -> Result<Weighed, RulesFault>
    requires text { IsText SCHEMA_LIMIT text.now }
    ensures held { IfOk result (λ w. HoldsWith text.now undeclared w.schema w.weights) }
    ensures refused { IfErr result (λ fault. IfRulesRefused fault (IsNoSchema text.now)) }
{
    match weighed_in(alloc, text, undeclared) {
        Ok(weighed) => Ok(weighed),
        Err(CheckFault::Refused(refusal)) => {
            Err(RulesFault::Refused(RulesRefusal::NoSchema(refusal)))
        }
        Err(CheckFault::Memory) => Err(RulesFault::Memory),
    }
}

// The clients of a text.
fn clients_of(alloc: Global, text: &str) -> Result<Clients, RulesFault>
    ensures held { IfOk result (λ read. IsClientFile text.now read.window_seconds read.clients.items) }
    ensures served { IfOk result (λ read. MayBeServed read.window_seconds read.clients.items) }
    ensures refused { IfErr result (λ fault. IfRulesRefused fault (AreNoClients text.now)) }
{
    match read_clients(alloc, text) {
        Ok(clients) => Ok(clients),
        Err(ClientsFault::Memory) => Err(RulesFault::Memory),
        Err(fault) => Err(RulesFault::Refused(RulesRefusal::NoClients(fault))),
    }
}

/// What the texts of a schema and of clients hold, or why they are refused: the schema is looked at first, and then the
/// clients.
pub fn rule_inputs_in(
    alloc: Global,
    texts: &RuleTexts,
    undeclared: u32,
) -> Result<RuleInputs, RulesFault>
    requires text { IsText SCHEMA_LIMIT texts.now.schema }
    ensures held { IfOk result (HoldRules texts.now undeclared) }
    ensures served { IfOk result (λ inputs. MayBeServed inputs.clients.window_seconds inputs.clients.clients.items) }
    ensures refused { IfErr result (λ fault. IfRulesRefused fault (IsRulesRefusal texts.now undeclared)) }
{
    let weighed = match schema_of(alloc, texts.schema.as_str(), undeclared) {
        Ok(weighed) => weighed,
        Err(fault) => return Err(fault),
    };
    let clients = match clients_of(alloc, texts.clients.as_str()) {
        Ok(clients) => clients,
        Err(fault) => return Err(fault),
    };
    match known_of(alloc, texts.schema.as_str()) {
        Ok(facts) => Ok(RuleInputs {
            weighed,
            facts,
            clients,
        }),
        Err(_) => Err(RulesFault::Memory),
    }
}

/// The outcome of texts that are refused, where the schema's file has this name.
pub fn refused_rules(alloc: Global, name: &Text, refusal: RulesRefusal) -> Outcome
    ensures { IsRefusedAs (rules_refusal_text name.now refusal) result }
{
    match refusal {
        RulesRefusal::NoSchema(refusal) => refused_schema(alloc, name, refusal),
        RulesRefusal::NoClients(fault) => refused_clients(alloc, fault),
    }
}
