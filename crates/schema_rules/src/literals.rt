//! Values as they are written, opened by one level (GraphQL October 2021, 2.9).

ghost use Rattle.std.specs.Prelude.{◌≡◌};
ghost use Rattle.gql_base.specs.parts.Trees.{value_tree};
ghost use Rattle.schema_rules.specs.Views.{literal_tree};

use gql_base::{Argument, Value};

/// A value, opened by one level.
#[derive(Clone, Copy)]
pub enum Literal<'a> {
    Var { name: &'a str, at: usize },
    Int(i128),
    /// A float, as it is written.
    Float(&'a str),
    Str(&'a str),
    Bool(bool),
    Null,
    EnumName { name: &'a str, at: usize },
    List(&'a [Value]),
    Object(&'a [Argument]),
}

/// The outermost level of a value.
#[tactic(auto, using(crate::proofs::OpenedTrees::value_levels))]
pub fn opened(value: &Value) -> Literal<'_>
    ensures { literal_tree result ≡ value_tree value.now }
{
    match value {
        Value::Var(name) => Literal::Var {
            name: name.text.as_str(),
            at: name.at,
        },
        Value::Int(number) => Literal::Int(*number),
        Value::Float(digits) => Literal::Float(digits.as_str()),
        Value::Str(text) => Literal::Str(text.as_str()),
        Value::Bool(value) => Literal::Bool(*value),
        Value::Null => Literal::Null,
        Value::EnumName(name) => Literal::EnumName {
            name: name.text.as_str(),
            at: name.at,
        },
        Value::List(items) => Literal::List(items),
        Value::Object(fields) => Literal::Object(fields),
    }
}
