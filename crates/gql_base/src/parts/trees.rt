//! The parts of which the trees of documents and schemas are made (GraphQL October 2021, 2).

use crate::lexical::text::Text;

/// A name, and the offset of its first byte.
#[derive(Drop)]
pub struct Name {
    pub text: Text,
    pub at: usize,
}

/// A value as it is written (GraphQL October 2021, 2.9).
#[derive(Drop)]
#[cycle(values)]
pub enum Value {
    /// A variable, by its name without the `$`.
    Var(Name),
    Int(i128),
    /// A float, as it is written: no number is made of it.
    Float(Text),
    Str(Text),
    Bool(bool),
    Null,
    EnumName(Name),
    List(Vec<Value>),
    /// An object, by its fields in the order in which they are written.
    Object(Vec<Argument>),
}

/// A name and a value: an argument, or a field of an object.
#[derive(Drop)]
#[cycle(values)]
pub struct Argument {
    pub name: Name,
    pub value: Value,
}

/// A reference to a type (GraphQL October 2021, 2.11).
#[derive(Drop)]
pub enum TypeRef {
    Named(Name),
    ListOf(Box<TypeRef>),
    /// A type and a `!`. It holds no `NonNull` itself.
    NonNull(Box<TypeRef>),
}

/// A directive as it is applied (GraphQL October 2021, 2.12).
#[derive(Drop)]
pub struct Directive {
    pub name: Name,
    pub arguments: Vec<Argument>,
}

/// A kind of operation (GraphQL October 2021, 2.3).
#[derive(Clone, Copy, Debug, PartialEq, Eq)]
pub enum OperationKind {
    Query,
    Mutation,
    Subscription,
}
