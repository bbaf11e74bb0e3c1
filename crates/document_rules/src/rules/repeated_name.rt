//! No two operations and no two fragments share a name (GraphQL October 2021, 5.2.1.1 and 5.5.1.1).

ghost use Rattle.std.specs.Prelude.{◌≡◌, map, IfOk};
ghost use Rattle.gql_base.specs.parts.Trees.{identifier_of};
ghost use Rattle.document_rules.specs.Parts.{operations_of, fragments_of, repeated_at};
ghost use Rattle.document_rules.specs.Rules.{operation_names, name_of_fragment, earlier, repeated_name};
ghost use Rattle.document_rules.specs.Views.{seen_name};

use counted_work::{Work, steps_of_text};
use document_reader::Definition;
use gql_base::{Name, first_repeated};
use std::alloc::{AllocError, Global};

fn operation_names<'a>(
    alloc: Global,
    work: Work<'_>,
    definitions: &'a [Definition],
) -> Result<Vec<&'a Name>, AllocError>
    ensures { IfOk result (λ names. map seen_name names.items ≡ operation_names (operations_of definitions.now)) }
{
    work.take(definitions.len())?;
    let mut names = Vec::new(alloc);
    for definition in definitions {
        if let Definition::Op(operation) = definition {
            if let Some(name) = &operation.name {
                work.take(steps_of_text(name.text.as_str().len()))?;
                names.push(name)?;
            }
        }
    }
    Ok(names)
}

fn fragment_names<'a>(
    alloc: Global,
    work: Work<'_>,
    definitions: &'a [Definition],
) -> Result<Vec<&'a Name>, AllocError>
    ensures { IfOk result (λ names. map seen_name names.items ≡ map name_of_fragment (fragments_of definitions.now)) }
{
    work.take(definitions.len())?;
    let mut names = Vec::new(alloc);
    for definition in definitions {
        if let Definition::Frag(fragment) = definition {
            work.take(steps_of_text(fragment.name.text.as_str().len()))?;
            names.push(&fragment.name)?;
        }
    }
    Ok(names)
}

/// The offset of the first name that stands before it.
fn repeated_at(alloc: Global, work: Work<'_>, names: &[&Name]) -> Result<Option<usize>, AllocError>
    ensures { IfOk result (λ at. at ≡ repeated_at (map seen_name names.now)) }
{
    work.take(names.len())?;
    match first_repeated(alloc, names)? {
        Some(place) => Ok(Some(names[place].at)),
        None => Ok(None),
    }
}

fn earlier(one: Option<usize>, other: Option<usize>) -> Option<usize>
    ensures { result ≡ earlier one other }
{
    match (one, other) {
        (None, other) => other,
        (Some(at), None) => Some(at),
        (Some(at), Some(other)) => Some(at.min(other)),
    }
}

/// The offset of the first name of an operation or of a fragment that another one before it has.
pub fn repeated_name(
    alloc: Global,
    work: Work<'_>,
    definitions: &[Definition],
) -> Result<Option<usize>, AllocError>
    ensures { IfOk result (λ at. at ≡ repeated_name definitions.now) }
{
    let operations = operation_names(alloc, work, definitions)?;
    let operation = repeated_at(alloc, work, operations.as_slice())?;
    let fragments = fragment_names(alloc, work, definitions)?;
    let fragment = repeated_at(alloc, work, fragments.as_slice())?;
    Ok(earlier(operation, fragment))
}
