//! Picking the operation of a document that a request asks for.

ghost use Rattle.std.specs.Prelude.{◌≡◌, ◌≤◌, Some, length};
ghost use Rattle.std.specs.Str.{bytes_eq};
ghost use Rattle.document_reader.specs.declared.trees.Definition.TheVariants.{Op};
ghost use Rattle.document_reader.specs.Picking.{is_operation, is_named, first_where, count_where, picked, asked};

use crate::trees::{Definition, Document, Operation};
use thiserror::Error;

/// Why no operation is picked.
#[derive(Clone, Copy, Debug, PartialEq, Eq, Error)]
pub enum PickFault {
    /// The document has no operation.
    #[error("the document has no operation")]
    NoOperation,
    /// No name was given, and there are so many operations.
    #[error("no operation is named, and the document has {count}")]
    Several { count: usize },
    /// No operation has that name.
    #[error("the document has no operation of that name")]
    NotThere,
}

fn is_operation(definition: &Definition) -> bool
    ensures { result ≡ is_operation definition.now }
{
    match definition {
        Definition::Op(_) => true,
        Definition::Frag(_) => false,
    }
}

fn has_name(operation: &Operation, name: &str) -> bool
    ensures { result ≡ is_named name.now (Op operation.now) }
{
    match &operation.name {
        Some(own) => own.text.as_bytes() == name.as_bytes(),
        None => false,
    }
}

fn is_named(definition: &Definition, name: &str) -> bool
    ensures { result ≡ is_named name.now definition.now }
{
    match definition {
        Definition::Op(operation) => has_name(operation, name),
        Definition::Frag(_) => false,
    }
}

/// The place of the first operation.
fn first_operation(definitions: &[Definition]) -> Option<usize>
    ensures { result ≡ first_where is_operation 0 definitions.now }
{
    let mut at = 0;
    while at < definitions.len() {
        if is_operation(&definitions[at]) {
            return Some(at);
        }
        at += 1;
    }
    None
}

/// The place of the first operation with this name.
fn first_named(definitions: &[Definition], name: &str) -> Option<usize>
    ensures { result ≡ first_where (is_named name.now) 0 definitions.now }
{
    let mut at = 0;
    while at < definitions.len() {
        if is_named(&definitions[at], name) {
            return Some(at);
        }
        at += 1;
    }
    None
}

/// The number of operations.
fn count_operations(definitions: &[Definition]) -> usize
    ensures { result ≡ count_where is_operation definitions.now }
{
    let mut count = 0;
    let mut at = 0;
    while at < definitions.len() {
        if is_operation(&definitions[at]) {
            count += 1;
        }
        at += 1;
    }
    count
}

/// The place, among the definitions, of the operation with this name, the first if several have it; without a name, of
/// the one operation (GraphQL October 2021, 6.1). It takes no memory.
pub fn pick(of: &Document, name: Option<&str>) -> Result<usize, PickFault>
    ensures { result ≡ picked (asked name.entry) of.now.definitions.items }
{
    let definitions = of.definitions.as_slice();
    let Some(first) = first_operation(definitions) else {
        return Err(PickFault::NoOperation);
    };
    match name {
        None => {
            let count = count_operations(definitions);
            if count == 1 {
                Ok(first)
            } else {
                Err(PickFault::Several { count })
            }
        }
        Some(name) => match first_named(definitions, name) {
            Some(place) => Ok(place),
            None => Err(PickFault::NotThere),
        },
    }
}
