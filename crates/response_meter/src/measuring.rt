//! The measuring of a whole reply.

ghost use Rattle.std.specs.Prelude.{◌≡◌, List, None, IfOk, IfErr, Some, option_map, string_bytes};
ghost use Rattle.serde_json.specs.View.{view};
ghost use Rattle.cost_num.specs.declared.Cost.{Cost as CostType};
ghost use Rattle.response_model.specs.Plan.{Plan as PlanTree};
ghost use Rattle.response_model.specs.Cost.{Part};
ghost use Rattle.plan_table.specs.TableBounds.{HoldsSound, IsBoundIn, IsWithinCap};
ghost use Rattle.response_model.specs.Errors.{ResponseError, has_errors};
ghost use Rattle.response_meter.specs.declared.fault.Why.TheVariants.{NotJson};
ghost use Rattle.response_meter.specs.Faults.{Tells, given};
ghost use Rattle.response_meter.specs.Metered.{first_fault_in, IsMetered, IsAtMost};
ghost use Rattle.response_meter.specs.Reply.{json_of};
ghost use Rattle.response_meter.specs.Walks.{root_plan, MeasuresContent, MeasuresReply};

use crate::errors::write_errors;
use crate::fault::{MeterFault, Why, not_response};
use crate::metered::Metered;
use crate::nested::{Types, nested};
use crate::readings::Reading;
use crate::walk::{NOTHING, meter_data};
use cost_num::Cost;
use gql_base::Text;
use plan_table::Plan;
use serde_json::Value;
use std::alloc::Global;

/// What a reply to an operation of this plan cost, value by value, and the text that its client is answered: its error
/// messages and paths and its data, and nothing else. The alias is the response key under which the type name of objects
/// was added; it costs nothing, and is left out of the text.
///
/// No response to the plan may cost more than `CAP`, as it is where `bound` gives a cost. The cost of the reply is then at
/// most that bound.
///
/// # Errors
///
/// The first test that the reply does not pass, in reading order, with the path of the value it stood at: `NotResponse`, or
/// `SizeBroken` where a list is longer than its declared size. `Memory` for want of memory alone.
pub fn meter(alloc: Global, plan: &Plan, alias: &str, body: &[u8]) -> Result<Metered, MeterFault>
    requires counted { (part : Part) → IsWithinCap plan.now part }
    ensures metered { IfOk result (λ metered. (tree : PlanTree) → HoldsSound plan.now tree → IsMetered plan.now alias.now tree body.now metered) }
    ensures passed { IfOk result (λ metered. (tree : PlanTree) → HoldsSound plan.now tree → first_fault_in plan.now alias.now tree body.now ≡ None) }
    ensures fault { IfErr result (λ fault. (tree : PlanTree) → HoldsSound plan.now tree → Tells fault (first_fault_in plan.now alias.now tree body.now)) }
    ensures at_most { IfOk result (λ metered. (tree : PlanTree) → HoldsSound plan.now tree → (bound : CostType) → IsBoundIn plan.now tree bound → IsAtMost metered.cost bound) }
{
    let by = Reading {
        alloc,
        of: plan,
        alias,
    };
    match meter_reply(&by, body) {
        Ok(metered) => Ok(metered),
        Err(fault) => Err(fault.after(alloc, "data")),
    }
}

/// The same, with paths seen from the data, and with a cost that is capped.
fn meter_reply(by: &Reading, body: &[u8]) -> Result<Metered, MeterFault>
    ensures { (tree : PlanTree) → HoldsSound by.now.of.now tree → MeasuresReply by.now result tree body.now }
{
    let types = nested(by.alloc, by.of)?;
    read_reply(by, &types, body)
}

/// Of the plan that has these types at its root.
fn read_reply(by: &Reading, types: &Types, body: &[u8]) -> Result<Metered, MeterFault>
    ensures { MeasuresReply by.now result (root_plan by.now types.now) body.now }
{
    let reply = read_json(by.alloc, body)?;
    if !reply.is_object() {
        return Err(not_response(by.alloc, Why::NotObject));
    }
    let mut text = String::from_str(by.alloc, "{")?;
    let some_error = write_errors(by.alloc, reply.get("errors"), &mut text)?;
    let cost = meter_content(by, types, some_error, reply.get("data"), &mut text)?;
    text.push_str("}")?;
    Ok(Metered {
        cost,
        text: Text::from(text),
    })
}

/// The JSON value that bytes are.
fn read_json(alloc: Global, bytes: &[u8]) -> Result<Value, MeterFault>
    ensures read { IfOk result (λ value. json_of bytes.now ≡ Some (view value)) }
    ensures refused { IfErr result (λ fault. Tells fault (given (json_of bytes.now) NotJson (λ json. None))) }
{
    match Value::from_slice(alloc, bytes) {
        Ok(value) => Ok(value),
        Err(error) => {
            if error.is_memory() {
                Err(MeterFault::Memory)
            } else {
                Err(not_response(alloc, Why::NotJson))
            }
        }
    }
}

/// The data of a reply, where it has any, after its errors.
fn meter_content(
    by: &Reading,
    types: &Types,
    some_error: bool,
    content: Option<&Value>,
    into: &mut String,
) -> Result<Cost, MeterFault>
    ensures { (errors : List ResponseError) → some_error ≡ has_errors errors → MeasuresContent by.now (string_bytes into.old) (string_bytes into.new) result (root_plan by.now types.now) errors (option_map (λ v. view v.now) content.entry) }
{
    match content {
        None => {
            if some_error {
                Ok(NOTHING)
            } else {
                Err(not_response(by.alloc, Why::NoData))
            }
        }
        Some(value) => {
            into.push_str(if some_error {
                ",\"data\":"
            } else {
                "\"data\":"
            })?;
            meter_data(by, types, value, into)
        }
    }
}
