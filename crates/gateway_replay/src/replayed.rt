//! What a replay comes to.

ghost use Rattle.std.specs.Prelude.{◌≡◌, [], string_bytes};
ghost use Rattle.cost_num.specs.Within.{Within};
ghost use Rattle.account_core.specs.Costs.{together, smaller};
ghost use Rattle.gateway_core.specs.Rules.{greatest};
ghost use Rattle.gateway_replay.specs.Lines.{Reports};
ghost use Rattle.gateway_replay.specs.Stretches.{HasCosts, HasRoom, Counts};

use crate::told::Told;
use cost_num::{CAP, Cost};
use gateway_core::Denial;
use std::alloc::Global;

/// What a replay comes to.
#[derive(Debug, Drop)]
pub struct Replayed {
    /// A line for each step, and then one for each request that was left open, in the order in which they began. A line feed
    /// ends each of them.
    pub lines: String,
    /// How many steps the script has.
    pub steps: u64,
    /// How many of its requests were granted, those that the gateway answered itself among them.
    pub granted: u64,
    /// How many were denied because their client's account was short.
    pub short: u64,
    /// How many were denied for another reason: those with status 400, 401 or 500.
    pub refused: u64,
    /// The sum of all charges, in each component `CAP` where it is more.
    pub charged: Cost,
}

/// The report of so many steps before the first line.
pub(crate) fn no_lines(alloc: Global, steps: usize) -> Replayed
    ensures reports { Reports [] result }
    ensures steps { result.steps ≡ steps }
    ensures room { HasRoom result }
{
    Replayed {
        lines: String::new(alloc),
        steps: steps as u64,
        granted: 0,
        short: 0,
        refused: 0,
        charged: Cost {
            types: 0,
            fields: 0,
        },
    }
}

/// The sum of two costs, in each component `CAP` where it is more.
fn charged_too(charged: Cost, more: Cost) -> Cost
    requires charged { Within greatest charged }
    requires more { Within greatest more }
    ensures { result ≡ smaller greatest (together charged more) }
{
    Cost {
        types: (charged.types + more.types).min(CAP),
        fields: (charged.fields + more.fields).min(CAP),
    }
}

/// Counts what is told of a request.
pub(crate) fn count(told: &Told, report: &mut Replayed)
    requires costs { HasCosts told.now }
    requires room { HasRoom report.old }
    ensures lines { string_bytes report.new.lines ≡ string_bytes report.old.lines }
    ensures counts { Counts told.now report.old report.new }
{
    match told {
        Told::Granted { bound: _ } => report.granted += 1,
        Told::Answered(finished) => {
            report.granted += 1;
            report.charged = charged_too(report.charged, finished.charged);
        }
        Told::Denied(Denial::Short { left: _, bound: _ }) => report.short += 1,
        Told::Denied(_) => report.refused += 1,
        Told::Finished(finished) => {
            report.charged = charged_too(report.charged, finished.charged);
        }
        Told::NotOpen => {}
        Told::Abandoned { bound } => report.charged = charged_too(report.charged, *bound),
    }
}
