//! The gate: by what it decides, and the accounts of its clients.

ghost use Rattle.std.specs.Prelude.{◌≡◌, ◌<◌, ℕ, All, map, length, IfOk, IfSome, OnOk, OnErr, Some};
ghost use Rattle.schema_model.specs.SchemaViews.{schema_data};
ghost use Rattle.plan_model.specs.Sound.{CanBeFilled};
ghost use Rattle.cost_directives.specs.Weights.{weights_of};
ghost use Rattle.cost_directives.specs.WeightViews.{weights_data};
ghost use Rattle.account_core.specs.Costs.{is_within};
ghost use Rattle.account_core.specs.Numbers.{FitsCap};
ghost use Rattle.account_cells.specs.Views.{after_split, split_off};
ghost use Rattle.account_shared.specs.Views.{Belongs, IsIdle, JoinsTo, client_at, label_after_split, label_split_off, label_after_join};
ghost use Rattle.client_files.specs.ClientFiles.{MayBeServed};
ghost use Rattle.gateway_core.specs.Rules.{client_limit, client_of, greatest, most_carried, most_of, seconds_left, may_have_room, IsUpToNext};
ghost use Rattle.gateway_core.specs.Propositions.{weights-prop, filled-prop};

use crate::finishing::NOTHING;
use crate::making::limits_of;
use account_core::Limit;
use account_shared::{Accounts, Passes};
use client_files::Client;
use cost_directives::Weights;
use cost_num::Cost;
use gql_base::{Indexed, Text};
use local_introspection::Facts;
use schema_model::Schema;
use std::alloc::{AllocError, Global};
use std::sync::Wait;
use trusted_documents::Trusted;

/// How long windows are, where requests are forwarded to and what of them, and what is told to clients whose account is short.
#[derive(Debug, Drop)]
pub struct Settings {
    /// The length of a window, in seconds.
    pub window_seconds: u32,
    /// The upstream's host, as requests to it name it.
    pub host: Text,
    /// The target of requests to the upstream.
    pub target: Text,
    /// The names of the fields of clients' requests that are passed on.
    pub passed: Vec<Text>,
    /// Whether a client whose account is short is told when it may try again.
    pub hints: bool,
}

/// The schema with its weights, the clients, and an account for each. Beside them the list by which bodies are expanded, and what is
/// known of the schema, if there are any, and how many steps the examination of a request may take, where that is said.
#[derive(Drop)]
pub struct Gate {
    pub(crate) trusted: Option<Trusted>,
    pub(crate) facts: Option<Facts>,
    pub(crate) schema: Schema,
    pub(crate) weights: Weights,
    pub(crate) clients: Indexed<Client>,
    pub(crate) settings: Settings,
    pub(crate) accounts: Accounts,
    pub(crate) most_work: Option<u32>,
    ghost weighed: { weights_data weights ≡ weights_of (schema_data schema) (weights_data weights).undeclared } by { weights-prop (weights_data weights) (weights_of (schema_data schema) (weights_data weights).undeclared) },
    ghost fillable: { CanBeFilled (schema_data schema) } by { filled-prop (schema_data schema) },
    ghost served: { MayBeServed settings.window_seconds clients.items.items },
    ghost limited: { accounts.limits ≡ map client_limit clients.items.items },
}

// The most that may ever be carried into a window of a client.
fn most_carried(client: &Client) -> Cost
    ensures { result ≡ most_carried (client_limit client.now) }
{
    if client.carry {
        client.allowance
    } else {
        NOTHING
    }
}

// Whether a client may ever spend so much in one window.
fn is_room_of(client: &Client, bound: Cost) -> bool
    ensures { result ≡ is_within (most_of (client_limit client.now)) bound }
{
    let allowance = client.allowance;
    let carried = most_carried(client);
    u128::from(bound.types) <= u128::from(allowance.types) + u128::from(carried.types)
        && u128::from(bound.fields) <= u128::from(allowance.fields) + u128::from(carried.fields)
}

impl Gate {
    ghost use Rattle.gateway_core.specs.Gates.{rules_of, limits_of};
    ghost use Rattle.trusted_documents.specs.Listings.{listing_of};

    /// The place among the clients of the one with this key.
    pub fn client(&self, key: &str) -> Option<u32>
        ensures place { result ≡ client_of (rules_of self.now) key.now }
        ensures within { IfSome result (λ client. client < length (rules_of self.now).clients) }
    {
        match self.clients.position(key) {
            Some(at) => Some(at as u32),
            None => None,
        }
    }

    /// The gate, with a list by which bodies are expanded before they are read. It takes no memory, and passes of the gate are
    /// passes of the result.
    pub fn with_trusted(self, trusted: Trusted) -> Gate
        ensures rules { rules_of result ≡ record (rules_of self) { trusted = Some (listing_of trusted) } }
        ensures settings { result.settings ≡ self.settings }
        ensures accounts { result.accounts ≡ self.accounts }
    {
        let Gate {
            trusted: _,
            facts,
            schema,
            weights,
            clients,
            settings,
            accounts,
            most_work,
        } = self;
        Gate {
            trusted: Some(trusted),
            facts,
            schema,
            weights,
            clients,
            settings,
            accounts,
            most_work,
        }
    }

    /// The gate, with what is known of its schema, by which operations that ask for it are answered. It takes no memory, and passes
    /// of the gate are passes of the result.
    pub fn with_facts(self, facts: Facts) -> Gate
        ensures rules { rules_of result ≡ record (rules_of self) { facts = Some facts } }
        ensures settings { result.settings ≡ self.settings }
        ensures accounts { result.accounts ≡ self.accounts }
    {
        let Gate {
            facts: _,
            trusted,
            schema,
            weights,
            clients,
            settings,
            accounts,
            most_work,
        } = self;
        Gate {
            facts: Some(facts),
            trusted,
            schema,
            weights,
            clients,
            settings,
            accounts,
            most_work,
        }
    }

    /// The gate, where the examination of a request may take so many steps at most. It takes no memory, and passes of the gate are
    /// passes of the result.
    pub fn with_most_work(self, most: Option<u32>) -> Gate
        ensures rules { rules_of result ≡ record (rules_of self) { most_work = most } }
        ensures settings { result.settings ≡ self.settings }
        ensures accounts { result.accounts ≡ self.accounts }
    {
        let Gate {
            most_work: _,
            trusted,
            facts,
            schema,
            weights,
            clients,
            settings,
            accounts,
        } = self;
        Gate {
            most_work: most,
            trusted,
            facts,
            schema,
            weights,
            clients,
            settings,
            accounts,
        }
    }

    /// The clients, in their order.
    pub fn clients(&self) -> &[Client]
        ensures { result.now ≡ (rules_of self.now).clients }
    {
        self.clients.items()
    }

    /// What the clients may spend, in their order.
    ///
    /// # Errors
    ///
    /// `AllocError` where there was not enough memory.
    pub fn limits(&self, alloc: Global) -> Result<Vec<Limit>, AllocError>
        ensures limits { IfOk result (λ limits. limits.items ≡ limits_of self.now) }
        ensures fit { IfOk result (λ limits. All (FitsCap greatest) limits.items) }
    {
        let limits = limits_of(alloc, self.clients.items())?;
        Ok(limits)
    }

    /// The upstream's host.
    pub fn host(&self) -> &str
        ensures { result.now ≡ self.now.settings.host }
    {
        self.settings.host.as_str()
    }

    /// The target of requests to the upstream.
    pub fn target(&self) -> &str
        ensures { result.now ≡ self.now.settings.target }
    {
        self.settings.target.as_str()
    }

    /// The names of the fields of clients' requests that are passed on.
    pub fn passed(&self) -> &[Text]
        ensures { result.now ≡ self.now.settings.passed.items }
    {
        &self.settings.passed
    }

    /// Whether a client whose account is short is told when it may try again.
    pub fn hints(&self) -> bool
        ensures { result ≡ self.now.settings.hints }
    {
        self.settings.hints
    }

    /// How many seconds there are from a moment up to the next window.
    pub fn seconds_left(&self, moment: u64) -> u64
        ensures left { result ≡ seconds_left (rules_of self.now) moment }
        ensures next { IsUpToNext (rules_of self.now) moment result }
        ensures some { 0 < result }
    {
        let window = u64::from(self.settings.window_seconds);
        window - moment % window
    }

    /// Whether the client with this key may ever have room for a bound, in a window in which nothing is spent or held.
    pub fn may_have_room(&self, key: &str, bound: Cost) -> bool
        ensures { result ≡ may_have_room (rules_of self.now) key.now bound }
    {
        match self.clients.first_named(key) {
            Some(client) => is_room_of(client, bound),
            None => false,
        }
    }

    /// Splits passes off the first ones, for another worker. They have seen as much, and no call was made through them.
    ///
    /// # Errors
    ///
    /// `AllocError` where there was not enough memory; the first passes are as they were then.
    pub fn split(&self, alloc: Global, passes: &mut Passes) -> Result<Passes, AllocError>
        requires belong { Belongs passes.old self.now.accounts }
        requires first { passes.old.label.name ≡ 0 }
        ensures refused { OnErr result (passes.new ≡ passes.old) }
        ensures made { passes.new.made ≡ passes.old.made }
        ensures clients { OnOk result (passes.new.clients ≡ map after_split passes.old.clients) }
        ensures label { OnOk result (passes.new.label ≡ label_after_split passes.old.label) }
        ensures belong { Belongs passes.new self.now.accounts }
        ensures new_clients { IfOk result (λ p. p.clients ≡ map split_off passes.old.clients) }
        ensures new_label { IfOk result (λ p. (p.made ≡ 0) × (p.label ≡ label_split_off passes.old.label)) }
        ensures new_belong { IfOk result (λ p. Belongs p self.now.accounts) }
    {
        passes.split(alloc, &self.accounts)
    }

    /// Joins passes that were split off, and have no grant open, to the first ones. For each client the longer of the two
    /// histories is seen then, and the shorter is a beginning of it. It takes no memory, and may wait for the steps of other
    /// workers.
    pub fn join<R: Wait>(&self, rt: &R, passes: &mut Passes, other: Passes)
        requires belong { Belongs passes.old self.now.accounts }
        requires theirs { Belongs other self.now.accounts }
        requires first { passes.old.label.name ≡ 0 }
        requires idle { IsIdle other }
        ensures made { passes.new.made ≡ passes.old.made }
        ensures label { passes.new.label ≡ label_after_join passes.old.label other.label }
        ensures belong { Belongs passes.new self.now.accounts }
        ensures joined { (k : ℕ) → k < length passes.old.clients → JoinsTo (client_at other k) (client_at passes.old k) (client_at passes.new k) }
    {
        passes.join(rt, &self.accounts, other);
    }
}
