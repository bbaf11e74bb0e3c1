//! Copies of the parts of documents. They take no steps: what is copied was given a number, and is counted there.

ghost use Rattle.std.specs.Prelude.{◌≡◌, map, IfOk};
ghost use Rattle.gql_base.specs.parts.Trees.{value_tree, named_value};
ghost use Rattle.input_values.specs.coercion.Literals.{literal_given};
ghost use Rattle.variable_coercion.specs.Calls.{environment};
ghost use Rattle.plan_model.specs.GivenAlike.{given_argument, AreGivenSame};
ghost use Rattle.distinct_selections.specs.SameVariables.{AreRight};

use crate::stand_ins::StandIns;
use gql_base::{Argument, Name, Text, Value};
use std::alloc::{AllocError, Global};

pub fn copy_name(alloc: Global, name: &Name) -> Result<Name, AllocError>
    ensures { IfOk result (λ copy. copy ≡ name.now) }
{
    Ok(Name {
        text: Text::copy_of(alloc, name.text.as_str())?,
        at: name.at,
    })
}

/// A copy of a variable, or of one that has the same value.
fn copy_variable<'a>(
    alloc: Global,
    stand_ins: &StandIns<'a>,
    name: &'a Name,
) -> Result<Name, AllocError>
    ensures { AreRight stand_ins.now → IfOk result (λ copy. environment stand_ins.now.variables.now copy.text ≡ environment stand_ins.now.variables.now name.now.text) }
{
    let own = name.text.as_str();
    let text = stand_ins.name_for(own);
    Ok(Name {
        text: Text::copy_of(alloc, text)?,
        at: name.at,
    })
}

pub fn copy_maybe_name(alloc: Global, name: &Option<Name>) -> Result<Option<Name>, AllocError>
    ensures { IfOk result (λ copy. copy ≡ name.now) }
{
    match name {
        Some(name) => Ok(Some(copy_name(alloc, name)?)),
        None => Ok(None),
    }
}

#[cycle(copy)]
#[tactic(auto, using(crate::proofs::Opened::value_parts))]
fn copy_value<'a>(
    alloc: Global,
    stand_ins: &StandIns<'a>,
    value: &'a Value,
) -> Result<Value, AllocError>
    ensures { AreRight stand_ins.now → IfOk result (λ copy. literal_given (environment stand_ins.now.variables.now) (value_tree value.now) ≡ literal_given (environment stand_ins.now.variables.now) (value_tree copy)) }
{
    match value {
        Value::Var(name) => Ok(Value::Var(copy_variable(alloc, stand_ins, name)?)),
        Value::Int(number) => Ok(Value::Int(*number)),
        Value::Float(text) => Ok(Value::Float(Text::copy_of(alloc, text.as_str())?)),
        Value::Str(text) => Ok(Value::Str(Text::copy_of(alloc, text.as_str())?)),
        Value::Bool(truth) => Ok(Value::Bool(*truth)),
        Value::Null => Ok(Value::Null),
        Value::EnumName(name) => Ok(Value::EnumName(copy_name(alloc, name)?)),
        Value::List(items) => Ok(Value::List(copy_items(alloc, stand_ins, items.as_slice())?)),
        Value::Object(fields) => {
            Ok(Value::Object(copy_arguments(alloc, stand_ins, fields.as_slice())?))
        }
    }
}

#[cycle(copy)]
fn copy_items<'a>(
    alloc: Global,
    stand_ins: &StandIns<'a>,
    items: &'a [Value],
) -> Result<Vec<Value>, AllocError>
    ensures { AreRight stand_ins.now → IfOk result (λ copies. map (literal_given (environment stand_ins.now.variables.now)) (map value_tree items.now) ≡ map (literal_given (environment stand_ins.now.variables.now)) (map value_tree copies.items)) }
{
    let mut copies = Vec::new(alloc);
    'items: for item in items {
        copies.push(copy_value(alloc, stand_ins, item)?)?;
    }
    Ok(copies)
}

#[cycle(copy)]
#[tactic(auto, using(crate::proofs::Opened::opened_argument))]
fn copy_argument<'a>(
    alloc: Global,
    stand_ins: &StandIns<'a>,
    argument: &'a Argument,
) -> Result<Argument, AllocError>
    ensures { AreRight stand_ins.now → IfOk result (λ copy. given_argument (environment stand_ins.now.variables.now) (named_value argument.now) ≡ given_argument (environment stand_ins.now.variables.now) (named_value copy)) }
{
    Ok(Argument {
        name: copy_name(alloc, &argument.name)?,
        value: copy_value(alloc, stand_ins, &argument.value)?,
    })
}

#[cycle(copy)]
pub fn copy_arguments<'a>(
    alloc: Global,
    stand_ins: &StandIns<'a>,
    arguments: &'a [Argument],
) -> Result<Vec<Argument>, AllocError>
    ensures { AreRight stand_ins.now → IfOk result (λ copies. AreGivenSame (environment stand_ins.now.variables.now) (map named_value arguments.now) (map named_value copies.items)) }
{
    let mut copies = Vec::new(alloc);
    'arguments: for argument in arguments {
        copies.push(copy_argument(alloc, stand_ins, argument)?)?;
    }
    Ok(copies)
}
