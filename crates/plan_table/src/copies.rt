//! Copies of responses.

ghost use Rattle.std.specs.Prelude.{◌≡◌, IfOk, map};
ghost use Rattle.serde_json.specs.View.{view};
ghost use Rattle.plan_table.specs.Trees.{tree_of, keyed_tree};

use crate::response::{Entry, Tree};
use gql_base::Text;
use serde_json::Value;
use std::alloc::{AllocError, Global};

fn copy_json(value: &Value) -> Result<Value, AllocError>
    ensures { IfOk result (λ copy. view copy ≡ view value.now) }
{
    value.clone()
}

/// A copy of a response. It fails for want of memory alone.
#[cycle(copies)]
pub fn copy_tree(alloc: Global, tree: &Tree) -> Result<Tree, AllocError>
    ensures { IfOk result (λ copy. tree_of copy ≡ tree_of tree.now) }
{
    match tree {
        Tree::Null => Ok(Tree::Null),
        Tree::Leaf(value) => Ok(Tree::Leaf(copy_json(value)?)),
        Tree::List(items) => Ok(Tree::List(copy_items(alloc, items.as_slice())?)),
        Tree::Object(on, entries) => {
            Ok(Tree::Object(*on, copy_entries(alloc, entries.as_slice())?))
        }
    }
}

#[cycle(copies)]
fn copy_items(alloc: Global, items: &[Tree]) -> Result<Vec<Tree>, AllocError>
    ensures { IfOk result (λ copies. map tree_of copies.items ≡ map tree_of items.now) }
{
    let mut copies = Vec::new(alloc);
    'items: for item in items {
        copies.push(copy_tree(alloc, item)?)?;
    }
    Ok(copies)
}

#[cycle(copies)]
fn copy_entries(alloc: Global, entries: &[Entry]) -> Result<Vec<Entry>, AllocError>
    ensures { IfOk result (λ copies. map keyed_tree copies.items ≡ map keyed_tree entries.now) }
{
    let mut copies = Vec::new(alloc);
    'entries: for entry in entries {
        copies.push(copy_entry(alloc, entry)?)?;
    }
    Ok(copies)
}

#[cycle(copies)]
fn copy_entry(alloc: Global, entry: &Entry) -> Result<Entry, AllocError>
    ensures { IfOk result (λ copy. keyed_tree copy ≡ keyed_tree entry.now) }
{
    let key = Text::copy_of(alloc, entry.key.as_str())?;
    let value = copy_tree(alloc, &entry.value)?;
    Ok(Entry { key, value })
}
