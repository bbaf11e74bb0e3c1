//! The walk that finds whether the text of an answer is longer than it may be. It writes nothing of it.

ghost use Rattle.std.specs.Prelude.{◌≡◌, ◌+◌, ◌<◌, map, length, IfOk, IfErr, OnOk};
ghost use Rattle.serde_json.specs.Data.{string};
ghost use Rattle.serde_json.specs.Written.{compact_text};
ghost use Rattle.response_model.specs.ResponseText.{key_text};
ghost use Rattle.meta_schema.specs.PassedOn.{asked_nodes, asked_node};
ghost use Rattle.schema_facts.specs.Things.{thing_data, held_data, leaf_of};
ghost use Rattle.schema_facts.specs.FactsViews.{facts_data};
ghost use Rattle.local_introspection.specs.declared.counting.Stop.TheVariants.{TooLarge as LargeStop};
ghost use Rattle.local_introspection.specs.Walking.{thing_text, own_text, entry_text, held_text, things_text};
ghost use Rattle.local_introspection.specs.Measuring.{Measures, MeasuresLeaf, IsMeasured};

use crate::counting::{Stop, what_of};
use crate::plain::{is_plain, write_text};
use gql_base::print_value;
use meta_schema::AskedNode;
use schema_facts::{Held, SchemaFacts, Thing, look_up};
use std::alloc::{AllocError, Global};

// Takes of the bytes that may still come.
fn take(room: &mut usize, bytes: usize) -> Result<(), Stop>
    ensures taken { OnOk result (room.old ≡ room.new + bytes) }
    ensures short { IfErr result (λ stop. (stop ≡ LargeStop) × (room.old < bytes)) }
{
    if bytes > *room {
        return Err(Stop::TooLarge);
    }
    *room -= bytes;
    Ok(())
}

// How long a text is as a string of JSON. One with escapes is written to see it.
#[tactic(auto, using(crate::proofs::PlainTexts::plain_length))]
fn written_length(alloc: Global, text: &str) -> Result<usize, AllocError>
    ensures { IfOk result (λ bytes. bytes ≡ length (compact_text (string text.now))) }
{
    if is_plain(text) {
        return Ok(text.len() + 2);
    }
    let mut written = String::new(alloc);
    write_text(alloc, text, &mut written)?;
    Ok(written.len())
}

fn measure_text(alloc: Global, text: &str, room: &mut usize) -> Result<(), Stop>
    ensures { Measures room.old room.new result (compact_text (string text.now)) }
{
    let bytes = written_length(alloc, text)?;
    take(room, bytes)
}

#[tactic(auto, using(crate::proofs::MeasureSteps::key_length))]
fn measure_key(alloc: Global, key: &str, room: &mut usize) -> Result<(), Stop>
    ensures { Measures room.old room.new result (key_text key.now) }
{
    measure_text(alloc, key, room)?;
    take(room, 1)
}

// Measures the leaf that a thing is. Of an object nothing is measured.
fn measure_leaf(alloc: Global, thing: Thing<'_>, room: &mut usize) -> Result<bool, Stop>
    ensures { MeasuresLeaf room.old room.new result (leaf_of (thing_data thing.entry)) }
{
    match thing {
        Thing::Word(text) => {
            measure_text(alloc, text, room)?;
            Ok(true)
        }
        Thing::Default(value) => {
            let text = print_value(alloc, value)?;
            measure_text(alloc, text.as_str(), room)?;
            Ok(true)
        }
        Thing::Flag(true) => {
            take(room, 4)?;
            Ok(true)
        }
        Thing::Flag(false) => {
            take(room, 5)?;
            Ok(true)
        }
        _ => Ok(false),
    }
}

#[cycle(measuring)]
fn measure_thing(
    alloc: Global,
    facts: &SchemaFacts,
    thing: Thing<'_>,
    nodes: &[AskedNode],
    room: &mut usize,
) -> Result<(), Stop>
    ensures { Measures room.old room.new result (thing_text (facts_data facts.now) (asked_nodes nodes.now) (thing_data thing.entry)) }
{
    if measure_leaf(alloc, thing, room)? {
        return Ok(());
    }
    take(room, 1)?;
    measure_entries(alloc, facts, thing, nodes, room)
}

#[cycle(measuring)]
fn measure_entries(
    alloc: Global,
    facts: &SchemaFacts,
    thing: Thing<'_>,
    nodes: &[AskedNode],
    room: &mut usize,
) -> Result<(), Stop>
    ensures { Measures room.old room.new result (own_text (facts_data facts.now) (asked_nodes nodes.now) (thing_data thing.entry)) }
{
    let mut front = "";
    'nodes: for node in nodes {
        take(room, front.len())?;
        measure_entry(alloc, facts, thing, node, room)?;
        front = ",";
    }
    take(room, 1)
}

#[cycle(measuring)]
fn measure_entry(
    alloc: Global,
    facts: &SchemaFacts,
    thing: Thing<'_>,
    node: &AskedNode,
    room: &mut usize,
) -> Result<(), Stop>
    ensures { Measures room.old room.new result (entry_text (facts_data facts.now) (asked_node node.now) (thing_data thing.entry)) }
{
    measure_key(alloc, node.key.as_str(), room)?;
    let found = look_up(alloc, facts, thing, what_of(node))?;
    measure_held(alloc, facts, found, node.below.as_slice(), room)
}

#[cycle(measuring)]
fn measure_held(
    alloc: Global,
    facts: &SchemaFacts,
    found: Held<'_>,
    nodes: &[AskedNode],
    room: &mut usize,
) -> Result<(), Stop>
    ensures { Measures room.old room.new result (held_text (facts_data facts.now) (asked_nodes nodes.now) (held_data found.entry)) }
{
    match found {
        Held::Nothing => take(room, 4),
        Held::One(thing) => measure_thing(alloc, facts, thing, nodes, room),
        Held::Many(things) => {
            take(room, 1)?;
            measure_things(alloc, facts, things.as_slice(), nodes, room)
        }
    }
}

#[cycle(measuring)]
fn measure_things(
    alloc: Global,
    facts: &SchemaFacts,
    things: &[Thing<'_>],
    nodes: &[AskedNode],
    room: &mut usize,
) -> Result<(), Stop>
    ensures { Measures room.old room.new result (things_text (facts_data facts.now) (asked_nodes nodes.now) (map thing_data things.entry.now)) }
{
    let mut front = "";
    'things: for thing in things {
        take(room, front.len())?;
        measure_thing(alloc, facts, *thing, nodes, room)?;
        front = ",";
    }
    take(room, 1)
}

/// Whether the text of the answer to what is asked at the root of a query has at most so many bytes. One that has more is told as soon
/// as a byte comes that is one too many.
pub(crate) fn measure_answer(
    alloc: Global,
    facts: &SchemaFacts,
    nodes: &[AskedNode],
    most: usize,
) -> Result<(), Stop>
    ensures { IsMeasured (facts_data facts.now) (asked_nodes nodes.now) most result }
{
    let mut room = most;
    take(&mut room, 9)?;
    measure_thing(alloc, facts, Thing::Root, nodes, &mut room)
}
