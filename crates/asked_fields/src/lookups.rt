//! What is looked up of a field that is collected.

ghost use Rattle.std.specs.Prelude.{◌≡◌, List, Result, IfOk, map, option_map};
ghost use Rattle.gql_base.specs.names.Names.{place_of_name};
ghost use Rattle.schema_model.specs.Arguments.{ArgData, args_data};
ghost use Rattle.schema_model.specs.Numbers.{type_number};
ghost use Rattle.variable_coercion.specs.Refusals.{Refusal};
ghost use Rattle.variable_coercion.specs.Calls.{AnswersRefusal, argument_told};
ghost use Rattle.plan_model.specs.SelectedFields.{if_coerced, object_place, place_at};
ghost use Rattle.collected_fields.specs.Views.{collected_field, setting_of_planning};
ghost use Rattle.asked_fields.specs.Asking.{first_type, coerced_in, kept_at};

use crate::arguments::argument_kept;
use crate::asked::Argument;
use collected_fields::{Collected, Planning};
use counted_work::steps_of_text;
use document_rules::lookups::{Meaning, is_composite, meaning_on, type_of_field};
use gql_base::{Indexed, Named};
use input_values::TypeId;
use schema_model::{Args, FieldId};
use std::alloc::{AllocError, Global};
use variable_coercion::{ArgFault, coerce_arguments};

/// The response key of a field: its alias, or else its name.
pub fn key_of<'a>(field: &Collected<'a>) -> &'a str
    ensures { result.now ≡ (collected_field field.now).key }
{
    match &field.field.alias {
        Some(alias) => alias.text.as_str(),
        None => field.field.name.text.as_str(),
    }
}

/// The name of a field.
pub fn name_of<'a>(field: &Collected<'a>) -> &'a str
    ensures { result.now ≡ (collected_field field.now).call.name }
{
    field.field.name.text.as_str()
}

/// Takes the steps of copying the response key and the name of a field.
pub(crate) fn take_texts(planning: &Planning<'_>, field: &Collected<'_>) -> Result<(), AllocError> {
    let key = key_of(field).len();
    planning
        .work
        .take(steps_of_text(key.wrapping_add(name_of(field).len())))
}

/// What arguments come to. None are left where one is refused.
fn unless_refused(alloc: Global, found: Result<Args, ArgFault>) -> Result<Args, AllocError>
    ensures { (answer : Result (List ArgData) Refusal) → AnswersRefusal args_data argument_told found answer → IfOk result (λ args. args_data args ≡ if_coerced answer) }
{
    match found {
        Ok(args) => Ok(args),
        Err(ArgFault::Memory) => Err(AllocError),
        Err(ArgFault::Missing { .. } | ArgFault::BadValue { .. } | ArgFault::TooLarge { .. }) => {
            Ok(Args {
                list: Vec::new(alloc),
            })
        }
    }
}

/// What the arguments of a field come to, if its name means this one.
fn arguments_of(
    alloc: Global,
    planning: &Planning<'_>,
    of: FieldId,
    field: &Collected<'_>,
) -> Result<Args, AllocError>
    ensures { IfOk result (λ args. args_data args ≡ if_coerced (coerced_in (setting_of_planning planning.now) of.number (collected_field field.now))) }
{
    let written = field.field.arguments.as_slice();
    let found = coerce_arguments(
        alloc,
        planning.work,
        planning.schema,
        of,
        written,
        planning.variables,
    );
    unless_refused(alloc, found)
}

#[tactic(auto, unfolding(plan_model::specs::SelectedFields::arguments_at))]
/// What is kept of the arguments of a field, for objects of a type.
pub fn argument_of<N: Named + Drop>(
    alloc: Global,
    names: &Indexed<N>,
    planning: &Planning<'_>,
    of: TypeId,
    field: &Collected<'_>,
) -> Result<Argument, AllocError>
    ensures { IfOk result (λ kept. kept ≡ kept_at (place_of_name N.name_of names.now.items.items) (setting_of_planning planning.now) of.number (collected_field field.now)) }
{
    match meaning_on(planning.schema, Some(of), name_of(field)) {
        Meaning::Known(known) => {
            let args = arguments_of(alloc, planning, known, field)?;
            Ok(argument_kept(planning.work, names, &args))
        }
        Meaning::NoPosition | Meaning::NoSuchField | Meaning::NameOfType => Ok(Argument {
            is_true: false,
            place: None,
        }),
    }
}

/// The first of these types.
fn first_type(types: &[TypeId]) -> Option<TypeId>
    ensures { option_map type_number result ≡ first_type (object_place (map type_number types.now)) }
{
    match types.split_first() {
        Some((first, _)) => Some(*first),
        None => None,
    }
}

#[tactic(auto, unfolding(plan_model::specs::SelectedFields::place_at))]
/// The first type of the objects that may stand at a field, for objects of a type.
pub fn type_below(planning: &Planning<'_>, of: TypeId, field: &Collected<'_>) -> Option<TypeId>
    ensures { option_map type_number result ≡ first_type (place_at (setting_of_planning planning.now) of.number (collected_field field.now).call) }
{
    match meaning_on(planning.schema, Some(of), name_of(field)) {
        Meaning::Known(known) => {
            let below = type_of_field(planning.schema, known);
            if is_composite(planning.schema, below) {
                first_type(planning.schema.possible(below))
            } else {
                None
            }
        }
        Meaning::NoPosition | Meaning::NoSuchField | Meaning::NameOfType => None,
    }
}
