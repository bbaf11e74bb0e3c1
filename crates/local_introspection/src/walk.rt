//! The walk that writes an answer.

ghost use Rattle.std.specs.Prelude.{◌≡◌, ◌++◌, map, IfOk, OnOk, string_bytes};
ghost use Rattle.meta_schema.specs.PassedOn.{asked_nodes, asked_node};
ghost use Rattle.schema_facts.specs.Things.{thing_data, held_data, leaf_of};
ghost use Rattle.schema_facts.specs.FactsViews.{facts_data};
ghost use Rattle.local_introspection.specs.Walking.{AddsLeaf, thing_text, own_text, entry_text, held_text, things_text, answer_text};

use crate::counting::what_of;
use crate::plain::{write_key, write_text};
use cost_num::Cost;
use gql_base::{Text, print_value};
use meta_schema::AskedNode;
use schema_facts::{Held, SchemaFacts, Thing, look_up};
use std::alloc::{AllocError, Global};

/// The text of an answer, and what it costs.
#[derive(Drop)]
pub struct Local {
    pub cost: Cost,
    pub text: Text,
}

// Writes the leaf that a thing is. Of an object nothing is written.
fn write_leaf(alloc: Global, thing: Thing<'_>, into: &mut String) -> Result<bool, AllocError>
    ensures { IfOk result (λ is_leaf. AddsLeaf (string_bytes into.old) (string_bytes into.new) (leaf_of (thing_data thing.entry)) is_leaf) }
{
    match thing {
        Thing::Word(text) => {
            write_text(alloc, text, into)?;
            Ok(true)
        }
        Thing::Default(value) => {
            let text = print_value(alloc, value)?;
            write_text(alloc, text.as_str(), into)?;
            Ok(true)
        }
        Thing::Flag(true) => {
            into.push_str("true")?;
            Ok(true)
        }
        Thing::Flag(false) => {
            into.push_str("false")?;
            Ok(true)
        }
        _ => Ok(false),
    }
}

#[cycle(walk)]
fn write_thing(
    alloc: Global,
    facts: &SchemaFacts,
    thing: Thing<'_>,
    nodes: &[AskedNode],
    into: &mut String,
) -> Result<(), AllocError>
    ensures { OnOk result (string_bytes into.new ≡ string_bytes into.old ++ thing_text (facts_data facts.now) (asked_nodes nodes.now) (thing_data thing.entry)) }
{
    if write_leaf(alloc, thing, into)? {
        return Ok(());
    }
    into.push_str("{")?;
    write_entries(alloc, facts, thing, nodes, into)
}

#[cycle(walk)]
fn write_entries(
    alloc: Global,
    facts: &SchemaFacts,
    thing: Thing<'_>,
    nodes: &[AskedNode],
    into: &mut String,
) -> Result<(), AllocError>
    ensures { OnOk result (string_bytes into.new ≡ string_bytes into.old ++ own_text (facts_data facts.now) (asked_nodes nodes.now) (thing_data thing.entry)) }
{
    let mut front = "";
    'nodes: for node in nodes {
        into.push_str(front)?;
        write_entry(alloc, facts, thing, node, into)?;
        front = ",";
    }
    into.push_str("}")
}

#[cycle(walk)]
fn write_entry(
    alloc: Global,
    facts: &SchemaFacts,
    thing: Thing<'_>,
    node: &AskedNode,
    into: &mut String,
) -> Result<(), AllocError>
    ensures { OnOk result (string_bytes into.new ≡ string_bytes into.old ++ entry_text (facts_data facts.now) (asked_node node.now) (thing_data thing.entry)) }
{
    write_key(alloc, node.key.as_str(), into)?;
    let found = look_up(alloc, facts, thing, what_of(node))?;
    write_held(alloc, facts, found, node.below.as_slice(), into)
}

#[cycle(walk)]
fn write_held(
    alloc: Global,
    facts: &SchemaFacts,
    found: Held<'_>,
    nodes: &[AskedNode],
    into: &mut String,
) -> Result<(), AllocError>
    ensures { OnOk result (string_bytes into.new ≡ string_bytes into.old ++ held_text (facts_data facts.now) (asked_nodes nodes.now) (held_data found.entry)) }
{
    match found {
        Held::Nothing => into.push_str("null"),
        Held::One(thing) => write_thing(alloc, facts, thing, nodes, into),
        Held::Many(things) => {
            into.push_str("[")?;
            write_things(alloc, facts, things.as_slice(), nodes, into)
        }
    }
}

#[cycle(walk)]
fn write_things(
    alloc: Global,
    facts: &SchemaFacts,
    things: &[Thing<'_>],
    nodes: &[AskedNode],
    into: &mut String,
) -> Result<(), AllocError>
    ensures { OnOk result (string_bytes into.new ≡ string_bytes into.old ++ things_text (facts_data facts.now) (asked_nodes nodes.now) (map thing_data things.entry.now)) }
{
    let mut front = "";
    'things: for thing in things {
        into.push_str(front)?;
        write_thing(alloc, facts, *thing, nodes, into)?;
        front = ",";
    }
    into.push_str("]")
}

/// The text of the answer to what is asked at the root of a query.
pub(crate) fn write_answer(
    alloc: Global,
    facts: &SchemaFacts,
    nodes: &[AskedNode],
) -> Result<Text, AllocError>
    ensures { IfOk result (λ text. text ≡ answer_text (facts_data facts.now) (asked_nodes nodes.now)) }
{
    let mut text = String::new(alloc);
    text.push_str("{\"data\":")?;
    write_thing(alloc, facts, Thing::Root, nodes, &mut text)?;
    text.push_str("}")?;
    Ok(Text::from(text))
}
