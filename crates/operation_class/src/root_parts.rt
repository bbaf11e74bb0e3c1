//! What stands at the root of a selection set: fields, and spreads of fragments. What stands in an inline fragment stands where
//! that fragment does.

ghost use Rattle.std.specs.Prelude.{◌≡◌, ◌++◌, OnOk};
ghost use Rattle.document_reader.specs.Trees.{selection_tree, set_tree};
ghost use Rattle.operation_class.specs.RootParts.{root_parts, parts_of_one, waiting};

use document_reader::Selection;
use gql_base::Name;
use std::alloc::AllocError;

/// A field by its name, or the spread of a fragment by the fragment's.
#[derive(Clone, Copy)]
pub enum Part<'a> {
    Field(&'a Name),
    Spread(&'a str),
}

/// Puts the parts of selections before those that wait. The next one stands last in the vector.
#[cycle(parts)]
pub fn put_in_front<'a>(
    selections: &'a [Selection],
    parts: &mut Vec<Part<'a>>,
) -> Result<(), AllocError>
    ensures { OnOk result (waiting parts.new.items ≡ root_parts (set_tree selections.now) ++ waiting parts.old.items) }
{
    for at in (0..selections.len()).rev() {
        put_one_in_front(&selections[at], parts)?;
    }
    Ok(())
}

#[cycle(parts)]
fn put_one_in_front<'a>(
    selection: &'a Selection,
    parts: &mut Vec<Part<'a>>,
) -> Result<(), AllocError>
    ensures { OnOk result (waiting parts.new.items ≡ parts_of_one (selection_tree selection.now) ++ waiting parts.old.items) }
{
    match selection {
        Selection::Field(field) => {
            parts.push(Part::Field(&field.name))?;
            Ok(())
        }
        Selection::Spread { name, .. } => {
            parts.push(Part::Spread(name.text.as_str()))?;
            Ok(())
        }
        Selection::Inline { selections, .. } => put_in_front(selections.as_slice(), parts),
    }
}
