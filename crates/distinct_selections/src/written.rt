//! Arguments as they are written: where those of two fields are alike, the same is given for them, whatever the values of
//! variables are (GraphQL October 2021, 2.6 and 2.9).

ghost use Rattle.std.specs.Prelude.{◌≡◌, IsTrue, map};
ghost use Rattle.std.specs.Str.{bytes_eq};
ghost use Rattle.gql_base.specs.parts.Values.{variable_value, float_value, string_value, boolean_value, null_value, enum_value, list_value, object_value, values_from, fields_from};
ghost use Rattle.gql_base.specs.parts.Trees.{value_tree, named_value};
ghost use Rattle.plan_model.specs.SameArguments.{same_truth};
ghost use Rattle.plan_model.specs.GivenAlike.{GivesAlike, GiveAlike, IsGivenAlike, AreGivenAlike};
ghost use Rattle.distinct_selections.specs.Alike.{is_the_integer};

use counted_work::{Work, steps_of_text};
use gql_base::{Argument, Name, Text, Value};

pub(crate) fn same_words(work: Work<'_>, words: &str, other: &str) -> bool
    ensures { result ≡ bytes_eq words.now other.now }
{
    work.count(steps_of_text(words.len()));
    words == other
}

pub(crate) fn same_text(work: Work<'_>, text: &Text, other: &Text) -> bool
    ensures { result ≡ bytes_eq text.now other.now }
{
    same_words(work, text.as_str(), other.as_str())
}

fn same_truth(truth: bool, other: bool) -> bool
    ensures { result ≡ same_truth truth other }
{
    truth == other
}

fn is_variable(work: Work<'_>, name: &Name, value: &Value) -> bool
    ensures { IsTrue result → GivesAlike (variable_value name.now.text name.now.at) (value_tree value.now) }
{
    match value {
        Value::Var(other) => same_text(work, &name.text, &other.text),
        Value::Int(_) => false,
        Value::Float(_) => false,
        Value::Str(_) => false,
        Value::Bool(_) => false,
        Value::Null => false,
        Value::EnumName(_) => false,
        Value::List(_) => false,
        Value::Object(_) => false,
    }
}

#[tactic(auto, using(crate::proofs::Opened::value_parts))]
fn is_integer(number: &i128, value: &Value) -> bool
    ensures { result ≡ is_the_integer number.now (value_tree value.now) }
{
    match value {
        Value::Int(other) => *number == *other,
        Value::Float(_) => false,
        Value::Var(_) => false,
        Value::Str(_) => false,
        Value::Bool(_) => false,
        Value::Null => false,
        Value::EnumName(_) => false,
        Value::List(_) => false,
        Value::Object(_) => false,
    }
}

fn is_float(work: Work<'_>, text: &Text, value: &Value) -> bool
    ensures { IsTrue result → GivesAlike (float_value text.now) (value_tree value.now) }
{
    match value {
        Value::Float(other) => same_text(work, text, other),
        Value::Var(_) => false,
        Value::Int(_) => false,
        Value::Str(_) => false,
        Value::Bool(_) => false,
        Value::Null => false,
        Value::EnumName(_) => false,
        Value::List(_) => false,
        Value::Object(_) => false,
    }
}

fn is_string(work: Work<'_>, text: &Text, value: &Value) -> bool
    ensures { IsTrue result → GivesAlike (string_value text.now) (value_tree value.now) }
{
    match value {
        Value::Str(other) => same_text(work, text, other),
        Value::Var(_) => false,
        Value::Int(_) => false,
        Value::Float(_) => false,
        Value::Bool(_) => false,
        Value::Null => false,
        Value::EnumName(_) => false,
        Value::List(_) => false,
        Value::Object(_) => false,
    }
}

fn is_truth(truth: bool, value: &Value) -> bool
    ensures { IsTrue result → GivesAlike (boolean_value truth) (value_tree value.now) }
{
    match value {
        Value::Bool(other) => same_truth(truth, *other),
        Value::Var(_) => false,
        Value::Int(_) => false,
        Value::Float(_) => false,
        Value::Str(_) => false,
        Value::Null => false,
        Value::EnumName(_) => false,
        Value::List(_) => false,
        Value::Object(_) => false,
    }
}

fn is_null(value: &Value) -> bool
    ensures { IsTrue result → GivesAlike null_value (value_tree value.now) }
{
    match value {
        Value::Null => true,
        Value::Var(_) => false,
        Value::Int(_) => false,
        Value::Float(_) => false,
        Value::Str(_) => false,
        Value::Bool(_) => false,
        Value::EnumName(_) => false,
        Value::List(_) => false,
        Value::Object(_) => false,
    }
}

fn is_enum(work: Work<'_>, name: &Name, value: &Value) -> bool
    ensures { IsTrue result → GivesAlike (enum_value name.now.text name.now.at) (value_tree value.now) }
{
    match value {
        Value::EnumName(other) => same_text(work, &name.text, &other.text),
        Value::Var(_) => false,
        Value::Int(_) => false,
        Value::Float(_) => false,
        Value::Str(_) => false,
        Value::Bool(_) => false,
        Value::Null => false,
        Value::List(_) => false,
        Value::Object(_) => false,
    }
}

/// Whether two values are written alike, but for where they stand. They aren't said to be where no step is left.
#[cycle(written)]
fn alike(work: Work<'_>, value: &Value, other: &Value) -> bool
    ensures { IsTrue result → GivesAlike (value_tree value.now) (value_tree other.now) }
{
    if work.take(1).is_err() {
        return false;
    }
    match value {
        Value::Var(name) => is_variable(work, name, other),
        Value::Int(number) => is_integer(number, other),
        Value::Float(text) => is_float(work, text, other),
        Value::Str(text) => is_string(work, text, other),
        Value::Bool(truth) => is_truth(*truth, other),
        Value::Null => is_null(other),
        Value::EnumName(name) => is_enum(work, name, other),
        Value::List(items) => alike_list(work, items.as_slice(), other),
        Value::Object(fields) => alike_object(work, fields.as_slice(), other),
    }
}

#[cycle(written)]
fn alike_list(work: Work<'_>, items: &[Value], value: &Value) -> bool
    ensures { IsTrue result → GivesAlike (list_value (values_from (map value_tree items.now))) (value_tree value.now) }
{
    match value {
        Value::List(others) => alike_items(work, items, others.as_slice()),
        Value::Var(_) => false,
        Value::Int(_) => false,
        Value::Float(_) => false,
        Value::Str(_) => false,
        Value::Bool(_) => false,
        Value::Null => false,
        Value::EnumName(_) => false,
        Value::Object(_) => false,
    }
}

#[cycle(written)]
fn alike_object(work: Work<'_>, fields: &[Argument], value: &Value) -> bool
    ensures { IsTrue result → GivesAlike (object_value (fields_from (map named_value fields.now))) (value_tree value.now) }
{
    match value {
        Value::Object(others) => alike_arguments(work, fields, others.as_slice()),
        Value::Var(_) => false,
        Value::Int(_) => false,
        Value::Float(_) => false,
        Value::Str(_) => false,
        Value::Bool(_) => false,
        Value::Null => false,
        Value::EnumName(_) => false,
        Value::List(_) => false,
    }
}

#[cycle(written)]
fn alike_items(work: Work<'_>, items: &[Value], others: &[Value]) -> bool
    ensures { IsTrue result → GiveAlike (map value_tree items.now) (map value_tree others.now) }
{
    let mut at = 0;
    'items: while at < items.len() && at < others.len() {
        if !alike(work, &items[at], &others[at]) {
            return false;
        }
        at += 1;
    }
    items.len() == others.len()
}

#[cycle(written)]
fn alike_argument(work: Work<'_>, argument: &Argument, other: &Argument) -> bool
    ensures { IsTrue result → IsGivenAlike (named_value argument.now) (named_value other.now) }
{
    if same_text(work, &argument.name.text, &other.name.text) {
        alike(work, &argument.value, &other.value)
    } else {
        false
    }
}

/// Whether arguments, or the fields of two objects, are written alike. They aren't said to be where no step is left.
#[cycle(written)]
pub fn alike_arguments(work: Work<'_>, arguments: &[Argument], others: &[Argument]) -> bool
    ensures { IsTrue result → AreGivenAlike (map named_value arguments.now) (map named_value others.now) }
{
    let mut at = 0;
    'arguments: while at < arguments.len() && at < others.len() {
        if !alike_argument(work, &arguments[at], &others[at]) {
            return false;
        }
        at += 1;
    }
    arguments.len() == others.len()
}
