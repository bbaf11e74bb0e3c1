//! The arguments of a node's fields (GraphQL October 2021, 5.3.2 and 6.4.1).

ghost use Rattle.std.specs.Prelude.{◌<◌, length};
ghost use Rattle.schema_model.specs.Arguments.{args_data};
ghost use Rattle.variable_coercion.specs.Calls.{AnswersRefusal, argument_told};
ghost use Rattle.collected_fields.specs.Views.{setting_of_planning, collected_field};
ghost use Rattle.merged_selections.specs.NodeTests.{coerced_of, AreKept, Grows, ComparesWith, ComparesAll};

use crate::calls::Calls;
use collected_fields::{Collected, Planning};
use schema_model::{Args, FieldId};
use std::alloc::Global;
use variable_coercion::{ArgFault, coerce_arguments};

/// The arguments of a field whose name means this one.
pub fn arguments_of(
    alloc: Global,
    planning: &Planning<'_>,
    of: FieldId,
    field: &Collected<'_>,
) -> Result<Args, ArgFault>
    ensures { AnswersRefusal args_data argument_told result (coerced_of (setting_of_planning planning.now) of.number (collected_field field.now)) }
{
    let written = field.field.arguments.as_slice();
    coerce_arguments(
        alloc,
        planning.work,
        planning.schema,
        of,
        written,
        planning.variables,
    )
}

/// Whether the arguments of some fields differ from those of the call at a place, where one more is looked at. Once some
/// differ, no more are compared.
fn differ_with<'a>(
    alloc: Global,
    planning: &Planning<'a>,
    of: FieldId,
    at: usize,
    differ: bool,
    other: &Collected<'a>,
    calls: &mut Calls<'a>,
) -> Result<bool, ArgFault>
    requires there { at < length calls.old.made.items }
    ensures kept { AreKept (setting_of_planning planning.now) calls.old → AreKept (setting_of_planning planning.now) calls.new }
    ensures grows { Grows calls.old.made.items calls.new.made.items }
    ensures compares { AreKept (setting_of_planning planning.now) calls.old → ComparesWith planning.now of calls.old.made.items at differ other.now result }
{
    if !differ {
        return calls.differs(alloc, planning, of, at, other);
    }
    match calls.refused(alloc, planning, of, other) {
        Ok(()) => Ok(true),
        Err(fault) => Err(fault),
    }
}

/// Whether the arguments of one of these fields differ from those of the call at a place.
pub fn any_differs<'a>(
    alloc: Global,
    planning: &Planning<'a>,
    of: FieldId,
    at: usize,
    others: &[Collected<'a>],
    calls: &mut Calls<'a>,
) -> Result<bool, ArgFault>
    requires there { at < length calls.old.made.items }
    ensures kept { AreKept (setting_of_planning planning.now) calls.old → AreKept (setting_of_planning planning.now) calls.new }
    ensures compares { AreKept (setting_of_planning planning.now) calls.old → ComparesAll planning.now of calls.old.made.items at others.now result }
{
    let mut differ = false;
    for other in others {
        match differ_with(alloc, planning, of, at, differ, other, calls) {
            Ok(more) => differ = more,
            Err(fault) => return Err(fault),
        }
    }
    Ok(differ)
}
