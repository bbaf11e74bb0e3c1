//! Making a gate, and closing it.

ghost use Rattle.std.specs.Prelude.{◌≡◌, ◌<◌, ℕ, [], map, length, IfOk};
ghost use Rattle.schema_model.specs.SchemaViews.{schema_data};
ghost use Rattle.cost_directives.specs.WeightViews.{weights_data};
ghost use Rattle.client_files.specs.ClientFiles.{MayBeServed};
ghost use Rattle.account_cells.specs.Views.{first_view};
ghost use Rattle.account_shared.specs.Views.{Belongs, IsIdle, ClosesTo, account_seen, client_at, first_label};
ghost use Rattle.gateway_core.specs.Rules.{HasWeights, rules_with, client_limit};
ghost use Rattle.gateway_core.specs.Gates.{rules_of};

use crate::gate::{Gate, Settings};
use crate::totals::Totals;
use account_core::Limit;
use account_shared::{Accounts, Passes};
use client_files::Client;
use cost_directives::Weights;
use gql_base::index_owned;
use schema_model::Schema;
use std::alloc::{AllocError, Global};
use std::sync::Wait;

// What the clients may spend, in their order.
pub(crate) fn limits_of(alloc: Global, clients: &[Client]) -> Result<Vec<Limit>, AllocError>
    ensures { IfOk result (λ limits. limits.items ≡ map client_limit clients.now) }
{
    let mut limits = Vec::with_capacity(alloc, clients.len())?;
    for client in clients {
        limits.push(Limit {
            allowance: client.allowance,
            carry: client.carry,
        })?;
    }
    Ok(limits)
}

impl Gate {
    /// A gate with fresh accounts, and the first passes to them, through which nothing was seen.
    ///
    /// It asks that the weights are those of the schema, that leaves of the schema can be filled, and that the clients may be
    /// served in windows of this length, as those of a client file may.
    ///
    /// # Errors
    ///
    /// `AllocError` where there was not enough memory.
    pub fn make(
        alloc: Global,
        schema: Schema,
        weights: Weights,
        clients: Vec<Client>,
        settings: Settings,
    ) -> Result<(Gate, Passes), AllocError>
        requires weighed { HasWeights (schema_data schema) (weights_data weights) }
        requires served { MayBeServed settings.window_seconds clients.items }
        ensures rules { IfOk result (λ m. rules_of m.0 ≡ rules_with (schema_data schema) (weights_data weights) clients.items settings.window_seconds) }
        ensures settings { IfOk result (λ m. m.0.settings ≡ settings) }
        ensures belong { IfOk result (λ m. Belongs m.1 m.0.accounts) }
        ensures fresh { IfOk result (λ m. m.1.clients ≡ map first_view (map client_limit clients.items)) }
        ensures first { IfOk result (λ m. (m.1.made ≡ 0) × (m.1.label ≡ first_label)) }
    {
        let limits = limits_of(alloc, &clients)?;
        let clients = index_owned(alloc, clients)?;
        let (accounts, passes) = Accounts::make(alloc, limits)?;
        let gate = Gate {
            trusted: None,
            facts: None,
            schema,
            weights,
            clients,
            settings,
            accounts,
            most_work: None,
        };
        Ok((gate, passes))
    }
}

/// Closes the accounts, where all passes that were split off have been joined and no grant is open. It takes no memory.
pub fn close<R: Wait>(gate: Gate, rt: &R, passes: Passes) -> Totals
    requires belong { Belongs passes gate.accounts }
    requires first { passes.label.name ≡ 0 }
    requires alone { passes.label.out ≡ [] }
    requires idle { IsIdle passes }
    ensures clients { result.clients.items.items ≡ (rules_of gate).clients }
    ensures accounts { result.accounts ≡ map account_seen passes.clients }
    ensures closed { (k : ℕ) → k < length passes.clients → ClosesTo (client_at passes k) (account_seen (client_at passes k)) }
{
    let Gate {
        trusted: _,
        facts: _,
        schema: _,
        weights: _,
        clients,
        settings: _,
        accounts,
        most_work: _,
    } = gate;
    let accounts = accounts.close(rt, passes);
    Totals { clients, accounts }
}
