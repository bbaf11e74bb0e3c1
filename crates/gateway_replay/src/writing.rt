//! Writing lines.

ghost use Rattle.std.specs.Prelude.{◌≡◌, ◌++◌, OnOk, codes, string_bytes};
ghost use Rattle.std.specs.Fmt.{decimal};
ghost use Rattle.cost_num.specs.Within.{Within};
ghost use Rattle.cost_num.specs.CostText.{cost_text};
ghost use Rattle.replay_scripts.specs.Steps.{spaced};
ghost use Rattle.gateway_core.specs.Rules.{greatest};
ghost use Rattle.gateway_core.specs.Messages.{denial_status, denial_text};
ghost use Rattle.gateway_core.specs.Begins.{HasCostsWithin};
ghost use Rattle.gateway_replay.specs.Lines.{told_text, line_text, line_for};
ghost use Rattle.gateway_replay.specs.Stretches.{HasCosts, HasRoom, AddsLine};

use crate::replayed::{Replayed, count};
use crate::told::Told;
use cost_num::Cost;
use gateway_core::{Denial, Finished, denial_message, denial_status, printed_cost};
use std::alloc::{AllocError, Global};

/// Writes a cost behind what is said of it.
///
/// # Errors
///
/// `AllocError` where there was not enough memory.
pub fn write_cost(
    alloc: Global,
    what: &str,
    cost: Cost,
    into: &mut String,
) -> Result<(), AllocError>
    requires { Within greatest cost }
    ensures { OnOk result (string_bytes into.new ≡ string_bytes into.old ++ (what.now ++ cost_text cost)) }
{
    let cost = printed_cost(alloc, cost)?;
    into.push_str(what)?;
    into.push_str(cost.as_str())
}

/// Writes the status of a denial, and its message.
fn write_denial(alloc: Global, denial: &Denial, into: &mut String) -> Result<(), AllocError>
    requires { HasCostsWithin denial.now }
    ensures { OnOk result (string_bytes into.new ≡ string_bytes into.old ++ spaced (decimal (denial_status denial.now)) (denial_text denial.now)) }
{
    let status = denial_status(denial);
    let message = denial_message(alloc, denial)?;
    write!(into, "{status} ")?;
    into.push_str(message.as_str())
}

/// Writes the status of an answer, what is charged for it, and its body.
fn write_finished(alloc: Global, finished: &Finished, into: &mut String) -> Result<(), AllocError>
    requires { Within greatest finished.now.charged }
    ensures { OnOk result (string_bytes into.new ≡ string_bytes into.old ++ spaced (decimal finished.now.status) (codes "charged " ++ spaced (cost_text finished.now.charged) finished.now.body)) }
{
    let status = finished.status;
    write!(into, "{status} ")?;
    write_cost(alloc, "charged ", finished.charged, into)?;
    into.push(' ')?;
    into.push_str(finished.body.as_str())
}

/// Writes what is told of a request.
fn write_told(alloc: Global, told: &Told, into: &mut String) -> Result<(), AllocError>
    requires { HasCosts told.now }
    ensures { OnOk result (string_bytes into.new ≡ string_bytes into.old ++ told_text told.now) }
{
    match told {
        Told::Granted { bound } => write_cost(alloc, "granted ", *bound, into),
        Told::Denied(denial) => write_denial(alloc, denial, into),
        Told::Answered(finished) | Told::Finished(finished) => write_finished(
            alloc, finished, into,
        ),
        Told::NotOpen => into.push_str("not open"),
        Told::Abandoned { bound } => write_cost(alloc, "abandoned charged ", *bound, into),
    }
}

/// Writes the line that tells this of the request of an id.
fn write_line(alloc: Global, id: &str, told: &Told, into: &mut String) -> Result<(), AllocError>
    requires { HasCosts told.now }
    ensures { OnOk result (string_bytes into.new ≡ string_bytes into.old ++ line_text (line_for id.now told.now)) }
{
    into.push_str(id)?;
    into.push(' ')?;
    write_told(alloc, told, into)?;
    into.push('\n')
}

/// Tells this of the request of an id: its line is written, and it is counted.
///
/// # Errors
///
/// `AllocError` where there was not enough memory for the line.
pub(crate) fn tell(
    alloc: Global,
    id: &str,
    told: &Told,
    report: &mut Replayed,
) -> Result<(), AllocError>
    requires costs { HasCosts told.now }
    requires room { HasRoom report.old }
    ensures { OnOk result (AddsLine (line_for id.now told.now) report.old report.new) }
{
    write_line(alloc, id, told, &mut report.lines)?;
    count(told, report);
    Ok(())
}
