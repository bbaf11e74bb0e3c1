//! The trees of executable documents (GraphQL October 2021, 2).

use gql_base::{Argument, Directive, Name, OperationKind, TypeRef, Value};

/// A document: its definitions in the order in which they are written (2.2).
#[derive(Drop)]
pub struct Document {
    pub definitions: Vec<Definition>,
}

#[derive(Drop)]
pub enum Definition {
    Op(Operation),
    Frag(Fragment),
}

/// An operation (2.3). A selection set alone is a query without name, variables and directives.
#[derive(Drop)]
pub struct Operation {
    /// The offset of its first token.
    pub at: usize,
    pub kind: OperationKind,
    pub name: Option<Name>,
    pub variables: Vec<VariableDef>,
    pub directives: Vec<Directive>,
    pub selections: Vec<Selection>,
}

/// The definition of a variable (2.10), by its name without the `$`.
#[derive(Drop)]
pub struct VariableDef {
    pub name: Name,
    pub of: TypeRef,
    pub default: Option<Value>,
    pub directives: Vec<Directive>,
}

/// The definition of a fragment (2.8).
#[derive(Drop)]
pub struct Fragment {
    pub name: Name,
    /// The type on which it is.
    pub on: Name,
    pub directives: Vec<Directive>,
    pub selections: Vec<Selection>,
}

/// One selection of a selection set (2.4).
#[derive(Drop)]
#[cycle(selections)]
pub enum Selection {
    Field(Field),
    /// The spread of a fragment.
    Spread {
        name: Name,
        directives: Vec<Directive>,
    },
    /// A fragment that is written where it is spread.
    Inline {
        on: Option<Name>,
        directives: Vec<Directive>,
        selections: Vec<Selection>,
    },
}

/// A field (2.5). One without a selection set has no selections.
#[derive(Drop)]
#[cycle(selections)]
pub struct Field {
    pub alias: Option<Name>,
    pub name: Name,
    pub arguments: Vec<Argument>,
    pub directives: Vec<Directive>,
    pub selections: Vec<Selection>,
}
