//! The walk over the data of a reply: each value is tested, counted and written, in plan order.

ghost use Rattle.std.specs.Prelude.{◌≡◌, ◌+◌, ◌||◌, ◌&&◌, bytes_eq, [], ◌∷◌, None, IfOk, true, false, length, option_map, string_bytes};
ghost use Rattle.serde_json.specs.Data.{null};
ghost use Rattle.serde_json.specs.View.{view, items_view, members_view};
ghost use Rattle.serde_json.specs.Written.{compact_text};
ghost use Rattle.response_model.specs.AnswerTexts.{IsLeafText};
ghost use Rattle.cost_num.specs.Capped.{capped};
ghost use Rattle.response_model.specs.Cost.{fields, value_cost, entry_cost};
ghost use Rattle.response_model.specs.Reading.{has_key};
ghost use Rattle.plan_table.specs.Tables.{row_in};
ghost use Rattle.response_meter.specs.declared.nested.Node.TheViews.{out-Node};
ghost use Rattle.response_meter.specs.declared.fault.Why.TheVariants.{BadLeaf, NullHere};
ghost use Rattle.response_meter.specs.FirstFault.{size_fault, keys_known};
ghost use Rattle.response_meter.specs.Faults.{size_broken as broken, tested};
ghost use Rattle.response_meter.specs.Walks.{one_node, nodes_in, objects_of, root_plan, Measures, MeasuresValue, MeasuresPlace, MeasuresPosition, MeasuresObject, MeasuresEntry, MeasuresEntries, MeasuresList, MeasuresItems, MeasuresItem, MeasuresData};

use crate::fault::{MeterFault, Why, not_response, size_broken};
use crate::forms::{ValueForm, form_of};
use crate::json::{items_of, member, members_of};
use crate::nested::{Node, Types};
use crate::readings::Reading;
use crate::types::type_told;
use cost_num::{CAP, Cost};
use gql_base::{NameIndex, index_of};
use input_values::TypeId;
use plan_table::Below;
use response_model::{write_key, write_value};
use serde_json::{Map, Value};
use std::alloc::{AllocError, Global};

/// Nothing.
pub(crate) const NOTHING: Cost = Cost {
    types: 0,
    fields: 0,
};

/// The sum of two numbers, or `CAP + 1` where that exceeds `CAP`.
fn sum_capped(a: u64, b: u64) -> u64
    ensures { result ≡ capped (a + b) }
{
    a.saturating_add(b).min(CAP + 1)
}

/// The sum of two costs.
fn sum(a: Cost, b: Cost) -> Cost
    ensures types { result.types ≡ capped (a.types + b.types) }
    ensures fields { result.fields ≡ capped (a.fields + b.fields) }
{
    Cost {
        types: sum_capped(a.types, b.types),
        fields: sum_capped(a.fields, b.fields),
    }
}

/// A leaf of a type of this weight, which holds the value or not.
fn meter_leaf(
    alloc: Global,
    holds: bool,
    weight: u64,
    value: &Value,
    into: &mut String,
) -> Result<Cost, MeterFault>
    ensures { Measures (string_bytes into.old) (string_bytes into.new) result (tested holds BadLeaf None) (λ part. value_cost part weight) (IsLeafText (view value.now)) }
{
    if !holds {
        return Err(not_response(alloc, Why::BadLeaf));
    }
    write_value(alloc, value, into)?;
    Ok(Cost {
        types: weight.min(CAP + 1),
        fields: 0,
    })
}

/// A null, where it may stand.
pub(crate) fn meter_null(
    alloc: Global,
    nullable: bool,
    into: &mut String,
) -> Result<Cost, MeterFault>
    ensures { Measures (string_bytes into.old) (string_bytes into.new) result (tested nullable NullHere None) (λ part. 0) (λ text. text ≡ compact_text null) }
{
    if !nullable {
        return Err(not_response(alloc, Why::NullHere));
    }
    into.push_str("null")?;
    Ok(NOTHING)
}

/// A value of a node, or an item of its list, that is not null.
#[cycle(walk)]
fn meter_value(
    by: &Reading,
    node: &Node,
    value: &Value,
    into: &mut String,
) -> Result<Cost, MeterFault>
    ensures { MeasuresValue by.now (string_bytes into.old) (string_bytes into.new) result (one_node by.now node.now) (view value.now) }
{
    match by.of.below(node.row) {
        Below::TypeName => meter_leaf(by.alloc, by.is_name(node.row.on, value), 0, value, into),
        Below::Leaf(of) => {
            meter_leaf(
                by.alloc,
                by.holds(of, value),
                by.type_weight(of),
                value,
                into,
            )
        }
        Below::Objects(_) => meter_position(by, node, value, into),
    }
}

/// An object, at a node below which objects stand.
#[cycle(walk)]
fn meter_position(
    by: &Reading,
    node: &Node,
    value: &Value,
    into: &mut String,
) -> Result<Cost, MeterFault>
    ensures { MeasuresPosition by.now (string_bytes into.old) (string_bytes into.new) result (row_in by.now.of.now (out-Node node.now).row.now).selected.asked (objects_of by.now node.now) (view value.now) }
{
    let Some(members) = members_of(value) else {
        return Err(not_response(by.alloc, Why::BadObject));
    };
    match type_told(by, node.row, members) {
        None => Err(not_response(by.alloc, Why::BadType)),
        Some(on) => {
            let set = node.below.set(on.number);
            meter_object(by, node.row.asked, on, &set.nodes, members, into)
        }
    }
}

/// An object of this type with an entry for each of these nodes, and no other but its type name where that is asked.
#[cycle(walk)]
fn meter_object(
    by: &Reading,
    asked: bool,
    on: TypeId,
    nodes: &[Node],
    members: &Map<String, Value>,
    into: &mut String,
) -> Result<Cost, MeterFault>
    ensures { MeasuresObject by.now (string_bytes into.old) (string_bytes into.new) result asked on.number (nodes_in by.now nodes.now) (members_view members.now.entries) }
{
    if !keys_known(by, asked, nodes, members)? {
        return Err(not_response(by.alloc, Why::ExtraKey));
    }
    into.push_str("{")?;
    let own = Cost {
        types: by.type_weight(on),
        fields: 0,
    };
    Ok(sum(own, meter_entries(by, nodes, members, into)?))
}

/// The entries of these nodes, in their order, and a closing brace.
#[cycle(walk)]
fn meter_entries(
    by: &Reading,
    nodes: &[Node],
    members: &Map<String, Value>,
    into: &mut String,
) -> Result<Cost, MeterFault>
    ensures { MeasuresEntries by.now (string_bytes into.old) (string_bytes into.new) result (nodes_in by.now nodes.now) (members_view members.now.entries) }
{
    let mut cost = NOTHING;
    let mut front = "";
    'nodes: for node in nodes {
        into.push_str(front)?;
        cost = sum(cost, meter_entry(by, node, members, into)?);
        front = ",";
    }
    into.push_str("}")?;
    Ok(cost)
}

/// The entry of a node: its key and its value.
#[cycle(walk)]
fn meter_entry(
    by: &Reading,
    node: &Node,
    members: &Map<String, Value>,
    into: &mut String,
) -> Result<Cost, MeterFault>
    ensures { MeasuresEntry by.now (string_bytes into.old) (string_bytes into.new) result (one_node by.now node.now) (members_view members.now.entries) }
{
    let key = node.row.key.as_str();
    let Some(value) = member(members, key) else {
        return Err(not_response(by.alloc, Why::MissingKey).at_key(by.alloc, key));
    };
    write_key(by.alloc, key, into)?;
    let own = Cost {
        types: 0,
        fields: sum_capped(by.of.field_weight(node.row), node.row.arguments),
    };
    match meter_place(by, node, value, into) {
        Ok(cost) => Ok(sum(own, cost)),
        Err(fault) => Err(fault.at_key(by.alloc, key)),
    }
}

/// The value of a node: null, a list, or one value.
#[cycle(walk)]
fn meter_place(
    by: &Reading,
    node: &Node,
    value: &Value,
    into: &mut String,
) -> Result<Cost, MeterFault>
    ensures { MeasuresPlace by.now (string_bytes into.old) (string_bytes into.new) result (one_node by.now node.now) (view value.now) }
{
    match form_of(by.of, node.row) {
        ValueForm::Single { nullable } => meter_item(by, node, nullable, value, into),
        ValueForm::Listed {
            nullable,
            item_nullable,
        } => {
            if value.is_null() {
                meter_null(by.alloc, nullable, into)
            } else {
                meter_list(by, node, item_nullable, value, into)
            }
        }
    }
}

/// A list of at most its declared size.
#[cycle(walk)]
fn meter_list(
    by: &Reading,
    node: &Node,
    nullable: bool,
    value: &Value,
    into: &mut String,
) -> Result<Cost, MeterFault>
    ensures { MeasuresList by.now (string_bytes into.old) (string_bytes into.new) result nullable (one_node by.now node.now) (view value.now) }
{
    let Some(items) = items_of(value) else {
        return Err(not_response(by.alloc, Why::NotList));
    };
    let length = items.len() as u64;
    match exceeded(node.row.size, length) {
        Some(size) => Err(size_broken(by.alloc, size, length)),
        None => {
            into.push_str("[")?;
            meter_items(by, node, nullable, items, into)
        }
    }
}

/// The declared size, where a list is longer.
fn exceeded(size: Option<u64>, length: u64) -> Option<u64>
    ensures { size_fault size length ≡ option_map (λ declared. broken [] declared length) result }
{
    match size {
        Some(size) => { if size < length { Some(size) } else { None } }
        None => None,
    }
}

/// The items of a list, in their order, and a closing bracket.
#[cycle(walk)]
fn meter_items(
    by: &Reading,
    node: &Node,
    nullable: bool,
    items: &[Value],
    into: &mut String,
) -> Result<Cost, MeterFault>
    ensures { MeasuresItems by.now (string_bytes into.old) (string_bytes into.new) result nullable (one_node by.now node.now) (items_view items.now) }
{
    let mut cost = NOTHING;
    let mut front = "";
    let mut index: usize = 0;
    'items: for item in items {
        into.push_str(front)?;
        match meter_item(by, node, nullable, item, into) {
            Ok(counted) => cost = sum(cost, counted),
            Err(fault) => return Err(fault.at_item(by.alloc, index)),
        }
        index += 1;
        front = ",";
    }
    into.push_str("]")?;
    Ok(cost)
}

/// Null, or one value of a node.
#[cycle(walk)]
fn meter_item(
    by: &Reading,
    node: &Node,
    nullable: bool,
    item: &Value,
    into: &mut String,
) -> Result<Cost, MeterFault>
    ensures { MeasuresItem by.now (string_bytes into.old) (string_bytes into.new) result nullable (one_node by.now node.now) (view item.now) }
{
    if item.is_null() {
        return meter_null(by.alloc, nullable, into);
    }
    meter_value(by, node, item, into)
}

/// Whether the key is that of one of these nodes or, where the type name is asked, the alias.
fn is_known(by: &Reading, asked: bool, keys: &NameIndex<Node>, key: &str) -> bool
    ensures { result ≡ (has_key key.now (nodes_in by.now keys.now.items.now) || (asked && bytes_eq key.now by.now.alias.now)) }
{
    keys.has(key) || (asked && key == by.alias)
}

/// Whether each key is one that is known.
fn keys_known(
    by: &Reading,
    asked: bool,
    nodes: &[Node],
    members: &Map<String, Value>,
) -> Result<bool, AllocError>
    ensures { IfOk result (λ known. known ≡ keys_known by.now.alias.now asked (nodes_in by.now nodes.now) (members_view members.now.entries)) }
{
    let keys = index_of(by.alloc, nodes)?;
    'keys: for (key, _value) in members.iter() {
        if !is_known(by, asked, &keys, key.as_str()) {
            return Ok(false);
        }
    }
    Ok(true)
}

/// The data of a reply: null, or an object.
pub(crate) fn meter_data(
    by: &Reading,
    types: &Types,
    value: &Value,
    into: &mut String,
) -> Result<Cost, MeterFault>
    ensures { MeasuresData by.now (string_bytes into.old) (string_bytes into.new) result (root_plan by.now types.now) (view value.now) }
{
    if value.is_null() {
        return meter_null(by.alloc, true, into);
    }
    let Some(members) = members_of(value) else {
        return Err(not_response(by.alloc, Why::BadObject));
    };
    let root = by.of.root();
    meter_object(
        by,
        false,
        root,
        &types.set(root.number).nodes,
        members,
        into,
    )
}
