//! Gates with fresh accounts.

ghost use Rattle.std.specs.Prelude.{◌≡◌, List, IfOk, Ok};
ghost use Rattle.schema_reader.specs.Schemas.{DefinitionTree};
ghost use Rattle.schema_model.specs.Faults.{SchemaBuilds};
ghost use Rattle.schema_model.specs.SchemaViews.{schema_data};
ghost use Rattle.cost_directives.specs.Weights.{weights_of};
ghost use Rattle.cost_directives.specs.WeightViews.{weights_data};
ghost use Rattle.client_files.specs.ClientFiles.{MayBeServed};
ghost use Rattle.account_shared.specs.Views.{Belongs, IsIdle, first_label};

use crate::fault::RowFault;
use account_shared::Passes;
use client_files::{Clients, read_clients};
use cost_directives::Weights;
use gateway_core::{Gate, Settings};
use gql_base::Text;
use local_introspection::Facts;
use plan_model::laws::built_schemas_can_be_filled;
use schema_model::Schema;
use schema_reader::read_schema_text;
use std::alloc::Global;
use trusted_documents::{Trusted, read_trusted};

/// The texts of a schema file and of a client file, and of a list of trusted documents, if there is one; and what the settings say.
#[derive(Clone, Copy)]
pub(crate) struct Rules<'a> {
    pub(crate) schema: &'a str,
    pub(crate) clients: &'a str,
    pub(crate) trusted: Option<&'a str>,
    /// Whether only the documents of the list may be asked.
    pub(crate) trusted_only: bool,
    /// Whether the gate knows its schema.
    pub(crate) knows_schema: bool,
    /// The names of the fields that are passed on, with commas between them.
    pub(crate) passed: &'a str,
    /// Whether hints are told.
    pub(crate) hints: bool,
    /// How many steps the examination of a request may take, where that is said.
    pub(crate) most_work: Option<u32>,
}

/// The size of lists that declare none.
const UNDECLARED: u32 = 10;

fn schema_in(alloc: Global, text: &str) -> Result<Schema, RowFault>
    ensures { IfOk result (λ schema. (text : List DefinitionTree) × SchemaBuilds text (Ok schema)) }
{
    let Ok(text) = read_schema_text(alloc, text) else {
        return Err(RowFault::Wrong("the schema file is no schema text"));
    };
    match Schema::build(alloc, &text) {
        Ok(schema) => Ok(schema),
        Err(_) => Err(RowFault::Wrong("the schema doesn't pass a test")),
    }
}

fn weights_in(alloc: Global, schema: &Schema) -> Result<Weights, RowFault>
    ensures { IfOk result (λ weights. weights_data weights ≡ weights_of (schema_data schema.now) UNDECLARED) }
{
    match Weights::build(alloc, schema, UNDECLARED) {
        Ok(weights) => Ok(weights),
        Err(_) => Err(RowFault::Wrong("the cost directives don't pass a test")),
    }
}

fn clients_in(alloc: Global, text: &str) -> Result<Clients, RowFault>
    ensures { IfOk result (λ read. MayBeServed read.window_seconds read.clients.items) }
{
    match read_clients(alloc, text) {
        Ok(clients) => Ok(clients),
        Err(_) => Err(RowFault::Wrong("the clients are refused")),
    }
}

// The names between commas; none in the empty text.
fn names_in(alloc: Global, text: &str) -> Result<Vec<Text>, RowFault> {
    let mut names = Vec::new(alloc);
    for name in text.split(',') {
        if !name.is_empty() {
            names.push(Text::copy_of(alloc, name)?)?;
        }
    }
    Ok(names)
}

// Windows of this length, and an upstream of some name.
fn settings_of(alloc: Global, window_seconds: u32, rules: Rules<'_>) -> Result<Settings, RowFault>
    ensures { IfOk result (λ settings. settings.window_seconds ≡ window_seconds) }
{
    Ok(Settings {
        window_seconds,
        host: Text::copy_of(alloc, "up:1")?,
        target: Text::copy_of(alloc, "/graphql")?,
        passed: names_in(alloc, rules.passed)?,
        hints: rules.hints,
    })
}

fn facts_in(alloc: Global, text: &str) -> Result<Facts, RowFault> {
    let Ok(text) = read_schema_text(alloc, text) else {
        return Err(RowFault::Wrong("the schema file is no schema text"));
    };
    Ok(Facts::make(alloc, text)?)
}

// What is known of the schema, where the rules say so.
fn facts_of(alloc: Global, rules: Rules<'_>) -> Result<Option<Facts>, RowFault> {
    if !rules.knows_schema {
        return Ok(None);
    }
    Ok(Some(facts_in(alloc, rules.schema)?))
}

// The list of the rules, if they have one.
fn list_of(alloc: Global, rules: Rules<'_>) -> Result<Option<Trusted>, RowFault> {
    let Some(text) = rules.trusted else {
        return Ok(None);
    };
    match read_trusted(alloc, text, rules.trusted_only) {
        Ok(trusted) => Ok(Some(trusted)),
        Err(_) => Err(RowFault::Wrong("the list of trusted documents is refused")),
    }
}

// The gate with a list, if there is one.
fn with_list(gate: Gate, trusted: Option<Trusted>) -> Gate
    ensures { result.accounts ≡ gate.accounts }
{
    match trusted {
        Some(trusted) => gate.with_trusted(trusted),
        None => gate,
    }
}

// The gate with what is known of its schema, if there is anything.
fn with_schema(gate: Gate, facts: Option<Facts>) -> Gate
    ensures { result.accounts ≡ gate.accounts }
{
    match facts {
        Some(facts) => gate.with_facts(facts),
        None => gate,
    }
}

// The schema of the rules and its weights.
fn weighed(alloc: Global, text: &str) -> Result<(Schema, Weights), RowFault>
    ensures built { IfOk result (λ made. (text : List DefinitionTree) × SchemaBuilds text (Ok made.0)) }
    ensures weights { IfOk result (λ made. weights_data made.1 ≡ weights_of (schema_data made.0) UNDECLARED) }
{
    let schema = schema_in(alloc, text)?;
    let weights = weights_in(alloc, &schema)?;
    Ok((schema, weights))
}

// A gate that has no list and knows nothing of its schema.
fn bare_gate(alloc: Global, rules: Rules<'_>) -> Result<(Gate, Passes), RowFault>
    ensures belong { IfOk result (λ made. Belongs made.1 made.0.accounts) }
    ensures idle { IfOk result (λ made. IsIdle made.1) }
    ensures first { IfOk result (λ made. made.1.label ≡ first_label) }
{
    built_schemas_can_be_filled();
    let Clients {
        window_seconds,
        clients,
    } = clients_in(alloc, rules.clients)?;
    let settings = settings_of(alloc, window_seconds, rules)?;
    let (schema, weights) = weighed(alloc, rules.schema)?;
    let (gate, passes) = Gate::make(alloc, schema, weights, clients, settings)?;
    Ok((gate, passes))
}

/// A gate by these rules, and the first passes to its fresh accounts.
pub(crate) fn gate_of(alloc: Global, rules: Rules<'_>) -> Result<(Gate, Passes), RowFault>
    ensures belong { IfOk result (λ made. Belongs made.1 made.0.accounts) }
    ensures idle { IfOk result (λ made. IsIdle made.1) }
    ensures first { IfOk result (λ made. made.1.label ≡ first_label) }
{
    let trusted = list_of(alloc, rules)?;
    let facts = facts_of(alloc, rules)?;
    let (gate, passes) = bare_gate(alloc, rules)?;
    let gate = with_schema(with_list(gate, trusted), facts).with_most_work(rules.most_work);
    Ok((gate, passes))
}
