//! Gates by the rules that files hold.

ghost use Rattle.std.specs.Prelude.{◌≡◌, IfOk, None, option_map};
ghost use Rattle.schema_model.specs.SchemaViews.{schema_data};
ghost use Rattle.cost_directives.specs.WeightViews.{weights_data};
ghost use Rattle.account_shared.specs.Views.{Belongs};
ghost use Rattle.client_files.specs.ClientFiles.{MayBeServed};
ghost use Rattle.trusted_documents.specs.Listings.{listing_of};
ghost use Rattle.gateway_replay.specs.PassedOn.{HasWeights, rules_of, AreFresh};
ghost use Rattle.account_commands.specs.RuleFiles.{rules_in};

use crate::rule_inputs::RuleInputs;
use account_shared::Passes;
use gateway_replay::{Gate, Settings};
use std::alloc::{AllocError, Global};
use trusted_documents::Trusted;

// The gate, with a list if there is one.
fn with_list(gate: Gate, list: Option<Trusted>) -> Gate
    requires none { (rules_of gate).trusted ≡ None }
    ensures rules { rules_of result ≡ record (rules_of gate) { trusted = option_map listing_of list } }
    ensures settings { result.settings ≡ gate.settings }
    ensures accounts { result.accounts ≡ gate.accounts }
{
    match list {
        Some(list) => gate.with_trusted(list),
        None => gate,
    }
}

// As many bytes, if a number is given.
fn bytes_of(most: Option<u32>) -> Option<usize>
    ensures { result ≡ most }
{
    match most {
        Some(most) => Some(most as usize),
        None => None,
    }
}

/// A gate by what texts hold, and by a list of trusted documents if there is one, with fresh accounts, and the first passes to them.
/// An answer about the schema has at most so many bytes, and a request takes at most so many steps, where a number is given.
///
/// # Errors
///
/// `AllocError` where there was not enough memory.
pub fn gate_by(
    alloc: Global,
    inputs: RuleInputs,
    list: Option<Trusted>,
    settings: Settings,
    most: Option<u32>,
    work: Option<u32>,
) -> Result<(Gate, Passes), AllocError>
    requires weighed { HasWeights (schema_data inputs.weighed.schema) (weights_data inputs.weighed.weights) }
    requires served { MayBeServed inputs.clients.window_seconds inputs.clients.clients.items }
    requires window { settings.window_seconds ≡ inputs.clients.window_seconds }
    ensures rules { IfOk result (λ m. rules_of m.0 ≡ rules_in inputs list most work) }
    ensures settings { IfOk result (λ m. m.0.settings ≡ settings) }
    ensures belong { IfOk result (λ m. Belongs m.1 m.0.accounts) }
    ensures fresh { IfOk result (λ m. AreFresh (rules_of m.0) m.1) }
{
    let RuleInputs {
        weighed,
        facts,
        clients,
    } = inputs;
    let (gate, passes) = Gate::make(
        alloc,
        weighed.schema,
        weighed.weights,
        clients.clients,
        settings,
    )?;
    let gate = with_list(gate, list).with_most_work(work);
    let facts = facts.with_most(bytes_of(most));
    Ok((gate.with_facts(facts), passes))
}
