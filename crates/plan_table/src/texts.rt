//! The text of a response (GraphQL October 2021, 7.1).

ghost use Rattle.std.specs.Prelude.{◌≡◌, ◌++◌, [], map, Some, OnOk, IfOk, string_bytes};
ghost use Rattle.serde_json.specs.Data.{null};
ghost use Rattle.serde_json.specs.Written.{compact_text};
ghost use Rattle.response_model.specs.ResponseText.{tree_text, elements_text, entries_text, key_text, response_text};
ghost use Rattle.plan_table.specs.Trees.{tree_of, keyed_tree, elements_from, entries_from};
ghost use Rattle.response_model.specs.WrittenJson.{IsFloatless, AreFloatless, HaveFloatless};
ghost use Rattle.plan_table.specs.Texts.{list_text, object_text};

use crate::response::{Entry, Tree};
use response_model::{write_key, write_value};
use std::alloc::{AllocError, Global};

fn write_null(into: &mut String) -> Result<(), AllocError>
    ensures { OnOk result (string_bytes into.new ≡ string_bytes into.old ++ compact_text null) }
{
    into.push_str("null")
}

/// Appends the text of a value. Nothing is said of one that holds a float.
#[cycle(texts)]
fn write_tree(alloc: Global, tree: &Tree, into: &mut String) -> Result<(), AllocError>
    ensures { OnOk result (IsFloatless (tree_of tree.now) → string_bytes into.new ≡ string_bytes into.old ++ tree_text (tree_of tree.now)) }
{
    match tree {
        Tree::Null => write_null(into),
        Tree::Leaf(value) => write_value(alloc, value, into),
        Tree::List(items) => write_list(alloc, items.as_slice(), into),
        Tree::Object(_, entries) => write_object(alloc, entries.as_slice(), into),
    }
}

#[cycle(texts)]
fn write_list(alloc: Global, items: &[Tree], into: &mut String) -> Result<(), AllocError>
    ensures { OnOk result (AreFloatless (elements_from (map tree_of items.now)) → string_bytes into.new ≡ string_bytes into.old ++ list_text (elements_from (map tree_of items.now))) }
{
    into.push_str("[")?;
    write_items(alloc, items, into)
}

/// The items of a list, and the bracket behind them.
#[cycle(texts)]
fn write_items(alloc: Global, items: &[Tree], into: &mut String) -> Result<(), AllocError>
    ensures { OnOk result (AreFloatless (elements_from (map tree_of items.now)) → string_bytes into.new ≡ string_bytes into.old ++ elements_text [] (elements_from (map tree_of items.now))) }
{
    let mut front = "";
    'items: for item in items {
        into.push_str(front)?;
        write_tree(alloc, item, into)?;
        front = ",";
    }
    into.push_str("]")
}

#[cycle(texts)]
fn write_object(alloc: Global, entries: &[Entry], into: &mut String) -> Result<(), AllocError>
    ensures { OnOk result (HaveFloatless (entries_from (map keyed_tree entries.now)) → string_bytes into.new ≡ string_bytes into.old ++ object_text (entries_from (map keyed_tree entries.now))) }
{
    into.push_str("{")?;
    write_entries(alloc, entries, into)
}

/// The entries of an object, and the brace behind them.
#[cycle(texts)]
fn write_entries(alloc: Global, entries: &[Entry], into: &mut String) -> Result<(), AllocError>
    ensures { OnOk result (HaveFloatless (entries_from (map keyed_tree entries.now)) → string_bytes into.new ≡ string_bytes into.old ++ entries_text [] (entries_from (map keyed_tree entries.now))) }
{
    let mut front = "";
    'entries: for entry in entries {
        into.push_str(front)?;
        write_entry(alloc, entry, into)?;
        front = ",";
    }
    into.push_str("}")
}

#[cycle(texts)]
fn write_entry(alloc: Global, entry: &Entry, into: &mut String) -> Result<(), AllocError>
    ensures { OnOk result (IsFloatless (keyed_tree entry.now).1 → string_bytes into.new ≡ string_bytes into.old ++ (key_text (keyed_tree entry.now).0 ++ tree_text (keyed_tree entry.now).1)) }
{
    write_key(alloc, entry.key.as_str(), into)?;
    write_tree(alloc, &entry.value, into)
}

/// The text of a response with this data and without errors. Nothing is said of data that holds a float.
///
/// # Errors
///
/// `AllocError` where there was not enough memory.
pub fn response_text(alloc: Global, tree: &Tree) -> Result<String, AllocError>
    ensures { IfOk result (λ text. IsFloatless (tree_of tree.now) → string_bytes text ≡ response_text (Some (tree_of tree.now)) []) }
{
    let mut text = String::new(alloc);
    text.push_str("{\"data\":")?;
    write_tree(alloc, tree, &mut text)?;
    text.push_str("}")?;
    Ok(text)
}
