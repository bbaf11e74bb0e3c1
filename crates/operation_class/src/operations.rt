//! The class of an operation of a document.

ghost use Rattle.std.specs.Prelude.{◌≡◌, IfOk};
ghost use Rattle.operation_class.specs.Classes.{class_of, class_at};

use crate::classes::{Class, class_by_fields};
use crate::root_fields::{defined_in, root_fields};
use document_reader::{Definition, Document, Operation};
use gql_base::{OperationKind, index_owned};
use std::alloc::{AllocError, Global};

fn class_of(
    alloc: Global,
    definitions: &[Definition],
    operation: &Operation,
) -> Result<Class, AllocError>
    ensures { IfOk result (λ class. class ≡ class_of definitions.now operation.now) }
{
    if !matches!(operation.kind, OperationKind::Query) {
        return Ok(Class::Upstream);
    }
    let defined = defined_in(alloc, definitions)?;
    let fragments = index_owned(alloc, defined)?;
    let fields = root_fields(alloc, &fragments, operation.selections.as_slice())?;
    Ok(class_by_fields(fields.as_slice()))
}

/// The class of the operation at a place among a document's definitions. The document may break any rule; where no operation
/// stands there it is `Upstream`.
pub fn class(alloc: Global, document: &Document, picked: usize) -> Result<Class, AllocError>
    ensures { IfOk result (λ class. class ≡ class_at document.now.definitions.items picked) }
{
    match document.definitions.get(picked) {
        Some(Definition::Op(operation)) => {
            class_of(alloc, document.definitions.as_slice(), operation)
        }
        _ => Ok(Class::Upstream),
    }
}
