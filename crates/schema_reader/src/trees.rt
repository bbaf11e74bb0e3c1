//! The trees of schema texts (GraphQL October 2021, 3).

use gql_base::{Directive, OperationKind, Text, TypeRef, Value};

/// A schema text: its definitions in the order in which they are written.
#[derive(Drop)]
pub struct SchemaText {
    pub definitions: Vec<SchemaDef>,
}

/// One definition. The name of a schema definition is empty, and a directive definition has no directives.
#[derive(Drop)]
pub struct SchemaDef {
    pub description: Option<Text>,
    pub name: Text,
    pub directives: Vec<Directive>,
    pub body: DefBody,
}

/// What a definition is of. Parts that may be left out are empty lists then.
#[derive(Drop)]
pub enum DefBody {
    /// The schema's root operation types (3.3.1).
    Schema(Vec<RootDef>),
    /// A scalar type (3.5).
    Scalar,
    /// An object type (3.6).
    Object {
        interfaces: Vec<Text>,
        fields: Vec<FieldDef>,
    },
    /// An interface type (3.7).
    Interface {
        interfaces: Vec<Text>,
        fields: Vec<FieldDef>,
    },
    /// A union type, by its members (3.8).
    Union(Vec<Text>),
    /// An enum type (3.9).
    Enum(Vec<EnumValueDef>),
    /// An input object type (3.10).
    Input(Vec<InputValue>),
    /// A directive (3.13).
    Directive {
        arguments: Vec<InputValue>,
        repeatable: bool,
        /// The names of the places where it may be applied, as they are written.
        locations: Vec<Text>,
    },
}

/// The type of the operations of one kind.
#[derive(Drop)]
pub struct RootDef {
    pub kind: OperationKind,
    pub name: Text,
}

/// A field of an object type or an interface type.
#[derive(Drop)]
pub struct FieldDef {
    pub description: Option<Text>,
    pub name: Text,
    pub arguments: Vec<InputValue>,
    pub of: TypeRef,
    pub directives: Vec<Directive>,
}

/// An argument of a field or a directive, or a field of an input object type.
#[derive(Drop)]
pub struct InputValue {
    pub description: Option<Text>,
    pub name: Text,
    pub of: TypeRef,
    pub default: Option<Value>,
    pub directives: Vec<Directive>,
}

/// A value of an enum type. It is none of `true`, `false` and `null`.
#[derive(Drop)]
pub struct EnumValueDef {
    pub description: Option<Text>,
    pub name: Text,
    pub directives: Vec<Directive>,
}
