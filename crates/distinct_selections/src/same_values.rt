//! When the arguments of two fields are equal, by their coerced values (GraphQL October 2021, 5.3.2).

ghost use Rattle.std.specs.Prelude.{◌≡◌, Some, map, option_map};
ghost use Rattle.input_values.specs.values.Coerced.{coerced_tree, named_tree, trees_from, named_trees_from, coerced_null, coerced_integer, coerced_float, coerced_string, coerced_boolean, coerced_enum, coerced_list, coerced_object};
ghost use Rattle.schema_model.specs.Arguments.{arg_data, args_data};
ghost use Rattle.plan_model.specs.SameArguments.{same_value, same_items, same_fields, same_argument, same_arguments};
ghost use Rattle.distinct_selections.specs.ComparedValues.{same_named, items_in, fields_in};

use crate::written::same_text;
use counted_work::Work;
use gql_base::Text;
use input_values::{Coerced, CoercedField};
use schema_model::{Arg, Args};

#[tactic(auto, unfolding(plan_model::specs::SameArguments::same_value), using(crate::proofs::Opened::coerced_parts))]
fn is_null(value: &Coerced) -> bool
    ensures { result ≡ same_value coerced_null (coerced_tree value.now) }
{
    match value {
        Coerced::Null => true,
        Coerced::Int(_) => false,
        Coerced::Float(_) => false,
        Coerced::Str(_) => false,
        Coerced::Bool(_) => false,
        Coerced::EnumName(_) => false,
        Coerced::List(_) => false,
        Coerced::Object(_) => false,
        Coerced::Shared(held) => is_null(held),
    }
}

#[tactic(auto, unfolding(plan_model::specs::SameArguments::same_value), using(crate::proofs::Opened::coerced_parts))]
fn is_integer(number: i128, value: &Coerced) -> bool
    ensures { result ≡ same_value (coerced_integer number) (coerced_tree value.now) }
{
    match value {
        Coerced::Int(other) => number == *other,
        Coerced::Float(_) => false,
        Coerced::Null => false,
        Coerced::Str(_) => false,
        Coerced::Bool(_) => false,
        Coerced::EnumName(_) => false,
        Coerced::List(_) => false,
        Coerced::Object(_) => false,
        Coerced::Shared(held) => is_integer(number, held),
    }
}

#[tactic(auto, unfolding(plan_model::specs::SameArguments::same_value), using(crate::proofs::Opened::coerced_parts))]
fn is_float(bits: u64, value: &Coerced) -> bool
    ensures { result ≡ same_value (coerced_float bits) (coerced_tree value.now) }
{
    match value {
        Coerced::Float(other) => bits == *other,
        Coerced::Null => false,
        Coerced::Int(_) => false,
        Coerced::Str(_) => false,
        Coerced::Bool(_) => false,
        Coerced::EnumName(_) => false,
        Coerced::List(_) => false,
        Coerced::Object(_) => false,
        Coerced::Shared(held) => is_float(bits, held),
    }
}

#[tactic(auto, unfolding(plan_model::specs::SameArguments::same_value), using(crate::proofs::Opened::coerced_parts))]
fn is_string(work: Work<'_>, text: &Text, value: &Coerced) -> bool
    ensures { result ≡ same_value (coerced_string text.now) (coerced_tree value.now) }
{
    match value {
        Coerced::Str(other) => same_text(work, text, other),
        Coerced::Null => false,
        Coerced::Int(_) => false,
        Coerced::Float(_) => false,
        Coerced::Bool(_) => false,
        Coerced::EnumName(_) => false,
        Coerced::List(_) => false,
        Coerced::Object(_) => false,
        Coerced::Shared(held) => is_string(work, text, held),
    }
}

#[tactic(auto, unfolding(plan_model::specs::SameArguments::same_value), using(crate::proofs::Opened::coerced_parts))]
fn is_truth(truth: bool, value: &Coerced) -> bool
    ensures { result ≡ same_value (coerced_boolean truth) (coerced_tree value.now) }
{
    match value {
        Coerced::Bool(other) => truth == *other,
        Coerced::Null => false,
        Coerced::Int(_) => false,
        Coerced::Float(_) => false,
        Coerced::Str(_) => false,
        Coerced::EnumName(_) => false,
        Coerced::List(_) => false,
        Coerced::Object(_) => false,
        Coerced::Shared(held) => is_truth(truth, held),
    }
}

#[tactic(auto, unfolding(plan_model::specs::SameArguments::same_value), using(crate::proofs::Opened::coerced_parts))]
fn is_enum(work: Work<'_>, name: &Text, value: &Coerced) -> bool
    ensures { result ≡ same_value (coerced_enum name.now) (coerced_tree value.now) }
{
    match value {
        Coerced::EnumName(other) => same_text(work, name, other),
        Coerced::Null => false,
        Coerced::Int(_) => false,
        Coerced::Float(_) => false,
        Coerced::Str(_) => false,
        Coerced::Bool(_) => false,
        Coerced::List(_) => false,
        Coerced::Object(_) => false,
        Coerced::Shared(held) => is_enum(work, name, held),
    }
}

/// The items of a list.
#[tactic(auto, using(crate::proofs::Opened::coerced_parts))]
fn items_held(value: &Coerced) -> Option<&[Coerced]>
    ensures { option_map (λ items. trees_from (map coerced_tree items.now)) result ≡ items_in (coerced_tree value.now) }
{
    match value {
        Coerced::List(items) => Some(items.as_slice()),
        Coerced::Shared(held) => items_held(held),
        Coerced::Null => None,
        Coerced::Int(_) => None,
        Coerced::Float(_) => None,
        Coerced::Str(_) => None,
        Coerced::Bool(_) => None,
        Coerced::EnumName(_) => None,
        Coerced::Object(_) => None,
    }
}

/// The fields of an object.
#[tactic(auto, using(crate::proofs::Opened::coerced_parts))]
fn fields_held(value: &Coerced) -> Option<&[CoercedField]>
    ensures { option_map (λ fields. named_trees_from (map named_tree fields.now)) result ≡ fields_in (coerced_tree value.now) }
{
    match value {
        Coerced::Object(fields) => Some(fields.as_slice()),
        Coerced::Shared(held) => fields_held(held),
        Coerced::Null => None,
        Coerced::Int(_) => None,
        Coerced::Float(_) => None,
        Coerced::Str(_) => None,
        Coerced::Bool(_) => None,
        Coerced::EnumName(_) => None,
        Coerced::List(_) => None,
    }
}

/// Whether two coerced values are equal.
#[cycle(same)]
#[tactic(auto, unfolding(plan_model::specs::SameArguments::same_value), using(crate::proofs::Opened::coerced_parts))]
pub(crate) fn same_value(work: Work<'_>, value: &Coerced, other: &Coerced) -> bool
    ensures { result ≡ same_value (coerced_tree value.now) (coerced_tree other.now) }
{
    work.count(1);
    match value {
        Coerced::Null => is_null(other),
        Coerced::Int(number) => is_integer(*number, other),
        Coerced::Float(bits) => is_float(*bits, other),
        Coerced::Str(text) => is_string(work, text, other),
        Coerced::Bool(truth) => is_truth(*truth, other),
        Coerced::EnumName(name) => is_enum(work, name, other),
        Coerced::List(items) => same_list(work, items.as_slice(), other),
        Coerced::Object(fields) => same_object(work, fields.as_slice(), other),
        Coerced::Shared(held) => same_value(work, held, other),
    }
}

#[cycle(same)]
fn same_list(work: Work<'_>, items: &[Coerced], value: &Coerced) -> bool
    ensures { result ≡ same_value (coerced_list (trees_from (map coerced_tree items.now))) (coerced_tree value.now) }
{
    match items_held(value) {
        Some(others) => same_items(work, items, others),
        None => false,
    }
}

#[cycle(same)]
fn same_object(work: Work<'_>, fields: &[CoercedField], value: &Coerced) -> bool
    ensures { result ≡ same_value (coerced_object (named_trees_from (map named_tree fields.now))) (coerced_tree value.now) }
{
    match fields_held(value) {
        Some(others) => same_fields(work, fields, others),
        None => false,
    }
}

#[cycle(same)]
fn same_items(work: Work<'_>, items: &[Coerced], others: &[Coerced]) -> bool
    ensures { result ≡ same_items (trees_from (map coerced_tree items.now)) (trees_from (map coerced_tree others.now)) }
{
    let mut at = 0;
    'items: while at < items.len() && at < others.len() {
        if !same_value(work, &items[at], &others[at]) {
            return false;
        }
        at += 1;
    }
    items.len() == others.len()
}

#[cycle(same)]
fn same_fields(work: Work<'_>, fields: &[CoercedField], others: &[CoercedField]) -> bool
    ensures { result ≡ same_fields (named_trees_from (map named_tree fields.now)) (named_trees_from (map named_tree others.now)) }
{
    let mut at = 0;
    'fields: while at < fields.len() && at < others.len() {
        if !same_field(work, &fields[at], &others[at]) {
            return false;
        }
        at += 1;
    }
    fields.len() == others.len()
}

#[cycle(same)]
#[tactic(auto, using(crate::proofs::Opened::opened_field))]
fn same_field(work: Work<'_>, field: &CoercedField, other: &CoercedField) -> bool
    ensures { result ≡ same_named (named_tree field.now) (named_tree other.now) }
{
    if same_text(work, &field.name, &other.name) {
        same_value(work, &field.value, &other.value)
    } else {
        false
    }
}

/// Whether two arguments are both absent, or have equal values.
fn same_argument(work: Work<'_>, arg: &Arg, other: &Arg) -> bool
    ensures { result ≡ same_argument (arg_data arg.now).value (arg_data other.now).value }
{
    match &arg.value {
        None => other.value.is_none(),
        Some(value) => has_value(work, value, other),
    }
}

fn has_value(work: Work<'_>, value: &Coerced, arg: &Arg) -> bool
    ensures { result ≡ same_argument (Some (coerced_tree value.now)) (arg_data arg.now).value }
{
    match &arg.value {
        None => false,
        Some(other) => same_value(work, value, other),
    }
}

/// Whether the arguments of two fields are equal, one after another.
pub fn same_arguments(work: Work<'_>, args: &Args, others: &Args) -> bool
    ensures { result ≡ same_arguments (args_data args.now) (args_data others.now) }
{
    same_list_of_arguments(work, args.list.as_slice(), others.list.as_slice())
}

fn same_list_of_arguments(work: Work<'_>, args: &[Arg], others: &[Arg]) -> bool
    ensures { result ≡ same_arguments (map arg_data args.now) (map arg_data others.now) }
{
    work.count(args.len());
    let mut at = 0;
    while at < args.len() && at < others.len() {
        if !same_argument(work, &args[at], &others[at]) {
            return false;
        }
        at += 1;
    }
    args.len() == others.len()
}
