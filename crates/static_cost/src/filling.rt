//! A response that costs as much as the bound.

ghost use Rattle.std.specs.Prelude.{◌≡◌, ◌*◌, IfOk, IsErrOf, map, get_or, eqb, ◌&&◌};
ghost use Rattle.serde_json.specs.Data.{string};
ghost use Rattle.serde_json.specs.View.{view};
ghost use Rattle.response_model.specs.Response.{leaf, list_of, object};
ghost use Rattle.response_model.specs.Filled.{repeated};
ghost use Rattle.plan_table.specs.Tables.{setting_in};
ghost use Rattle.schema_model.specs.SchemaData.{type_at};
ghost use Rattle.plan_model.specs.SelectedFields.{fill_of};
ghost use Rattle.response_model.specs.WrittenJson.{IsFloatless};
ghost use Rattle.plan_table.specs.Trees.{tree_of, keyed_tree, elements_from, entries_from};
ghost use Rattle.plan_table.specs.TableBounds.{IsWithinCap};
ghost use Rattle.static_cost.specs.Worst.{values, values_of_elements, values_of_entries, IsWorst, IsTooLarge};
ghost use Rattle.static_cost.specs.declared.filling.WorstFault.TheVariants.{TooLarge};
ghost use Rattle.response_model.specs.Components.{part_of};
ghost use Rattle.static_cost.specs.Filling.{FillsObject, Fills, entries_from_row, items_of, made_entries, item_of, list_value, value_of};

use crate::choices::chosen_types;
use crate::leaves::{fill_leaf, text_value};
use crate::steps::steps_of;
use counted_work::Work;
use gql_base::Text;
use input_values::TypeId;
use plan_table::{Below, Entry, NodeRow, Plan, Tree, copy_tree};
use response_model::Part;
use serde_json::Value;
use std::alloc::{AllocError, AllocFailed, Global};
use thiserror::Error;

/// How many values a response has at most that is filled.
pub const VALUE_LIMIT: u64 = 100_000;

/// Why no response was filled.
#[derive(Clone, Copy, Debug, PartialEq, Eq, Error)]
pub enum WorstFault {
    /// The response has more than `VALUE_LIMIT` values, lists and nulls included.
    #[error("the response has more than 100000 values")]
    TooLarge,
    /// There was not enough memory.
    #[error("there was not enough memory")]
    Memory,
}

impl From<AllocError> for WorstFault {
    ghost use Rattle.std.specs.Prelude.{◌≡◌};
    ghost use Rattle.static_cost.specs.declared.filling.WorstFault.TheVariants.{Memory};

    ghost from_gives = { λ _ fault. fault ≡ Memory };

    fn from(_: AllocError) -> WorstFault {
        WorstFault::Memory
    }
}

impl<T: Drop> From<AllocFailed<T>> for WorstFault {
    ghost use Rattle.std.specs.Prelude.{◌≡◌};
    ghost use Rattle.static_cost.specs.declared.filling.WorstFault.TheVariants.{Memory};

    ghost from_gives = { λ _ fault. fault ≡ Memory };

    fn from(_: AllocFailed<T>) -> WorstFault {
        WorstFault::Memory
    }
}

/// A node with the type of the objects below it, and the place behind its row.
#[derive(Clone, Copy)]
struct Node<'a> {
    row: &'a NodeRow,
    on: usize,
    next: usize,
}

/// Takes some values from those that are left.
fn take_values(left: &mut u64, count: u64) -> Result<(), WorstFault>
    ensures { Fills result left.old left.new count (λ _. Unit {0}) }
{
    if *left < count {
        return Err(WorstFault::TooLarge);
    }
    *left -= count;
    Ok(())
}

/// Takes so many values for each of some further items.
fn take_items(left: &mut u64, each: u64, items: u64) -> Result<(), WorstFault>
    ensures { Fills result left.old left.new (items * each) (λ _. Unit {0}) }
{
    let count = u128::from(items) * u128::from(each);
    if u128::from(*left) < count {
        return Err(WorstFault::TooLarge);
    }
    *left -= count as u64;
    Ok(())
}

/// So many copies of a response.
fn copies(alloc: Global, work: Work<'_>, item: &Tree, count: u64) -> Result<Vec<Tree>, AllocError>
    ensures { IfOk result (λ items. elements_from (map tree_of items.items) ≡ repeated count (tree_of item.now)) }
{
    work.take(steps_of(item).saturating_mul(count as usize))?;
    let mut items = Vec::new(alloc);
    for _ in 0..count {
        items.push(copy_tree(alloc, item)?)?;
    }
    Ok(items)
}

fn type_name(alloc: Global, of: &Plan, on: TypeId) -> Result<Value, AllocError>
    ensures { IfOk result (λ value. view value ≡ string (type_at (setting_in of.now).schema on.number).name) }
{
    text_value(alloc, of.schema().type_name(on).as_str())
}

fn leaf_value(alloc: Global, of: &Plan, on: TypeId) -> Result<Value, AllocError>
    ensures { IfOk result (λ value. view value ≡ fill_of (setting_in of.now).schema on.number) }
{
    fill_leaf(alloc, of.schema(), on)
}

fn leaf_tree(value: Value) -> Tree
    ensures { tree_of result ≡ leaf (view value) }
{
    Tree::Leaf(value)
}

fn list_tree(items: Vec<Tree>) -> Tree
    ensures { tree_of result ≡ list_of (elements_from (map tree_of items.items)) }
{
    Tree::List(items)
}

fn object_tree(on: usize, entries: Vec<Entry>) -> Tree
    ensures { tree_of result ≡ object on (entries_from (map keyed_tree entries.items)) }
{
    Tree::Object(TypeId { number: on }, entries)
}

fn entry(key: Text, value: Tree) -> Entry
    ensures { keyed_tree result ≡ (key, tree_of value) }
{
    Entry { key, value }
}

/// The object of a node.
#[cycle(filling)]
fn fill_object(
    alloc: Global,
    work: Work<'_>,
    of: &Plan,
    choices: &[usize],
    node: &Node,
    left: &mut u64,
) -> Result<Tree, WorstFault>
    ensures { FillsObject of.now choices.now node.now result left.old left.new }
{
    let depth = node.row.depth + 1;
    match fill_entries(alloc, work, of, choices, node.next, depth, node.on, left) {
        Ok(entries) => Ok(object_tree(node.on, entries)),
        Err(fault) => Err(fault),
    }
}

/// One value of a node.
#[cycle(filling)]
fn fill_item(
    alloc: Global,
    work: Work<'_>,
    of: &Plan,
    choices: &[usize],
    node: &Node,
    left: &mut u64,
) -> Result<Tree, WorstFault>
    ensures { Fills result left.old left.new (values (item_of of.now choices.now node.now)) (λ t. tree_of t ≡ item_of of.now choices.now node.now) }
{
    if let Err(fault) = take_values(left, 1) {
        return Err(fault);
    }
    match of.below(node.row) {
        Below::TypeName => Ok(leaf_tree(type_name(alloc, of, node.row.on)?)),
        Below::Leaf(on) => Ok(leaf_tree(leaf_value(alloc, of, on)?)),
        Below::Objects(_) => fill_object(alloc, work, of, choices, node, left),
    }
}

/// The items of a list of a node.
#[cycle(filling)]
fn fill_items(
    alloc: Global,
    work: Work<'_>,
    of: &Plan,
    choices: &[usize],
    node: &Node,
    count: u64,
    left: &mut u64,
) -> Result<Vec<Tree>, WorstFault>
    ensures { Fills result left.old left.new (values_of_elements (items_of of.now choices.now node.now count))
        (λ ts. elements_from (map tree_of ts.items) ≡ items_of of.now choices.now node.now count) }
{
    if count == 0 {
        return Ok(Vec::new(alloc));
    }
    let before = *left;
    match fill_item(alloc, work, of, choices, node, left) {
        Err(fault) => Err(fault),
        Ok(item) => match take_items(left, before - *left, count - 1) {
            Err(fault) => Err(fault),
            Ok(()) => Ok(copies(alloc, work, &item, count)?),
        },
    }
}

/// The list of a node.
#[cycle(filling)]
fn fill_list(
    alloc: Global,
    work: Work<'_>,
    of: &Plan,
    choices: &[usize],
    node: &Node,
    left: &mut u64,
) -> Result<Tree, WorstFault>
    ensures { Fills result left.old left.new (values (list_value of.now choices.now node.now)) (λ t. tree_of t ≡ list_value of.now choices.now node.now) }
{
    if let Err(fault) = take_values(left, 1) {
        return Err(fault);
    }
    match fill_items(
        alloc,
        work,
        of,
        choices,
        node,
        node.row.size.unwrap_or(0),
        left,
    ) {
        Ok(items) => Ok(list_tree(items)),
        Err(fault) => Err(fault),
    }
}

/// The value of a node's entry.
#[cycle(filling)]
fn fill_value(
    alloc: Global,
    work: Work<'_>,
    of: &Plan,
    choices: &[usize],
    node: &Node,
    left: &mut u64,
) -> Result<Tree, WorstFault>
    ensures { Fills result left.old left.new (values (value_of of.now choices.now node.now)) (λ t. tree_of t ≡ value_of of.now choices.now node.now) }
{
    if of.is_list(node.row) {
        fill_list(alloc, work, of, choices, node, left)
    } else {
        fill_item(alloc, work, of, choices, node, left)
    }
}

/// The entry of a node.
#[cycle(filling)]
fn fill_entry(
    alloc: Global,
    work: Work<'_>,
    of: &Plan,
    choices: &[usize],
    node: &Node,
    left: &mut u64,
) -> Result<Entry, WorstFault>
    ensures { Fills result left.old left.new (values (value_of of.now choices.now node.now))
        (λ e. keyed_tree e ≡ (node.now.row.now.key, value_of of.now choices.now node.now)) }
{
    match fill_value(alloc, work, of, choices, node, left) {
        Ok(value) => Ok(entry(Text::copy_of(alloc, node.row.key.as_str())?, value)),
        Err(fault) => Err(fault),
    }
}

/// The entries of objects of a type at a depth, from a row on.
#[cycle(filling)]
fn fill_entries(
    alloc: Global,
    work: Work<'_>,
    of: &Plan,
    choices: &[usize],
    from: usize,
    depth: u32,
    on: usize,
    left: &mut u64,
) -> Result<Vec<Entry>, WorstFault>
    ensures { Fills result left.old left.new (values_of_entries (entries_from_row of.now choices.now from depth on))
        (λ es. made_entries es.items ≡ entries_from_row of.now choices.now from depth on) }
{
    let rows = of.node_rows();
    let mut entries = Vec::new(alloc);
    let mut at = from;
    'rows: while at < rows.len() {
        let row = &rows[at];
        if row.depth < depth {
            return Ok(entries);
        }
        if !stands_at(row, depth, on) {
            at += 1;
            continue;
        }
        let node = Node {
            row,
            on: choice_at(choices, at),
            next: at + 1,
        };
        match fill_entry(alloc, work, of, choices, &node, left) {
            Ok(entry) => entries.push(entry)?,
            Err(fault) => return Err(fault),
        }
        at += 1;
    }
    Ok(entries)
}

fn stands_at(row: &NodeRow, depth: u32, on: usize) -> bool
    ensures { result ≡ (eqb row.now.depth depth && eqb row.now.on.number on) }
{
    row.depth == depth && row.on.number == on
}

fn choice_at(choices: &[usize], at: usize) -> usize
    ensures { result ≡ get_or choices.now at 0 }
{
    match choices.get(at) {
        Some(on) => *on,
        None => 0,
    }
}

/// A response to the plan that costs as much as the bound in one part, and keeps the declared sizes. Nothing in it is null;
/// each list has its declared size, and one that may have any length is empty; each object is of the first possible type that
/// costs most at its position. Leaves are 0, the empty string, false, and the first name of an enum.
///
/// The bound must not name this part as too costly.
///
/// # Errors
///
/// `TooLarge` where the response has more than `VALUE_LIMIT` values; `Memory` where there was not enough memory, or no step was left.
pub fn worst(alloc: Global, work: Work<'_>, of: &Plan, part: Part) -> Result<Tree, WorstFault>
    requires { IsWithinCap of.now (part_of part) }
    ensures filled { IfOk result (IsWorst of.now (part_of part)) }
    ensures floatless { IfOk result (λ tree. IsFloatless (tree_of tree)) }
    ensures too_large { IsErrOf result TooLarge → IsTooLarge of.now (part_of part) }
{
    let choices = chosen_types(alloc, of, part)?;
    let mut left = VALUE_LIMIT - 1;
    let on = of.root().number;
    match fill_entries(alloc, work, of, &choices, 0, 1, on, &mut left) {
        Ok(entries) => Ok(object_tree(on, entries)),
        Err(fault) => Err(fault),
    }
}
