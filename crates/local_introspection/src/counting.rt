//! The walk that counts an answer before any of it is made: its values, and what it costs.

ghost use Rattle.std.specs.Prelude.{◌≡◌, ◌+◌, map, IfErr, OnOk};
ghost use Rattle.cost_num.specs.Capped.{capped};
ghost use Rattle.meta_schema.specs.PassedOn.{asked_nodes, asked_node};
ghost use Rattle.schema_facts.specs.Things.{thing_data, held_data, leaf_of};
ghost use Rattle.schema_facts.specs.FactsViews.{facts_data};
ghost use Rattle.local_introspection.specs.declared.counting.Stop.TheVariants.{TooLarge as LargeStop};
ghost use Rattle.local_introspection.specs.Counting.{what_of, TellsLeaf, CountsThing, CountsEntries, CountsEntry, CountsHeld, CountsThings, IsCount};

use crate::steps::{take_entry, take_thing};
use cost_num::{CAP, Cost, UNIT};
use counted_work::Work;
use meta_schema::{AskedNode, weight_of, what_asked};
use schema_facts::{Held, SchemaFacts, Thing, What, look_up};
use std::alloc::{AllocError, Global};

/// How many values an answer has at most, lists and nulls among them.
pub const VALUE_LIMIT: usize = 1_000_000;

/// Why an answer isn't counted to its end.
#[derive(Clone, Copy)]
pub enum Stop {
    TooLarge,
    Memory,
}

impl From<AllocError> for Stop {
    ghost use Rattle.local_introspection.specs.declared.counting.Stop.TheVariants.{Memory};

    ghost from_gives = { λ _ stop. stop ≡ Memory };

    fn from(_failed: AllocError) -> Stop {
        Stop::Memory
    }
}

const NOTHING: Cost = Cost {
    types: 0,
    fields: 0,
};

fn sum_capped(a: u64, b: u64) -> u64
    ensures { result ≡ capped (a + b) }
{
    a.saturating_add(b).min(CAP + 1)
}

fn sum(a: Cost, b: Cost) -> Cost
    ensures types { result.types ≡ capped (a.types + b.types) }
    ensures fields { result.fields ≡ capped (a.fields + b.fields) }
{
    Cost {
        types: sum_capped(a.types, b.types),
        fields: sum_capped(a.fields, b.fields),
    }
}

/// What a node asks of each thing.
pub(crate) fn what_of(node: &AskedNode) -> What
    ensures { result ≡ what_of (asked_node node.now) }
{
    what_asked(node.name.as_str(), node.argument)
}

// Takes one of the values that may still come.
fn take_one(left: &mut usize) -> Result<(), Stop>
    ensures taken { OnOk result (left.old ≡ left.new + 1) }
    ensures none { IfErr result (λ stop. (stop ≡ LargeStop) × (left.old ≡ 0)) }
{
    if *left == 0 {
        return Err(Stop::TooLarge);
    }
    *left -= 1;
    Ok(())
}

// Whether a thing is a leaf.
fn is_leaf(thing: Thing<'_>) -> bool
    ensures { TellsLeaf (leaf_of (thing_data thing.entry)) result }
{
    match thing {
        Thing::Word(_) | Thing::Default(_) | Thing::Flag(_) => true,
        _ => false,
    }
}

#[cycle(counting)]
fn count_thing(
    alloc: Global,
    work: Work<'_>,
    facts: &SchemaFacts,
    thing: Thing<'_>,
    nodes: &[AskedNode],
    left: &mut usize,
) -> Result<Cost, Stop>
    ensures { CountsThing (facts_data facts.now) left.old left.new result (thing_data thing.entry) (asked_nodes nodes.now) }
{
    take_one(left)?;
    take_thing(work, thing)?;
    if is_leaf(thing) {
        return Ok(NOTHING);
    }
    let below = count_entries(alloc, work, facts, thing, nodes, left)?;
    Ok(sum(
        Cost {
            types: UNIT,
            fields: 0,
        },
        below,
    ))
}

#[cycle(counting)]
fn count_entries(
    alloc: Global,
    work: Work<'_>,
    facts: &SchemaFacts,
    thing: Thing<'_>,
    nodes: &[AskedNode],
    left: &mut usize,
) -> Result<Cost, Stop>
    ensures { CountsEntries (facts_data facts.now) left.old left.new result (thing_data thing.entry) (asked_nodes nodes.now) }
{
    let mut cost = NOTHING;
    'nodes: for node in nodes {
        cost = sum(cost, count_entry(alloc, work, facts, thing, node, left)?);
    }
    Ok(cost)
}

#[cycle(counting)]
fn count_entry(
    alloc: Global,
    work: Work<'_>,
    facts: &SchemaFacts,
    thing: Thing<'_>,
    node: &AskedNode,
    left: &mut usize,
) -> Result<Cost, Stop>
    ensures { CountsEntry (facts_data facts.now) left.old left.new result (thing_data thing.entry) (asked_node node.now) }
{
    take_entry(work, thing, node)?;
    let what = what_of(node);
    let found = look_up(alloc, facts, thing, what)?;
    let below = count_held(alloc, work, facts, found, node.below.as_slice(), left)?;
    Ok(sum(
        Cost {
            types: 0,
            fields: weight_of(what),
        },
        below,
    ))
}

#[cycle(counting)]
fn count_held(
    alloc: Global,
    work: Work<'_>,
    facts: &SchemaFacts,
    found: Held<'_>,
    nodes: &[AskedNode],
    left: &mut usize,
) -> Result<Cost, Stop>
    ensures { CountsHeld (facts_data facts.now) left.old left.new result (held_data found.entry) (asked_nodes nodes.now) }
{
    match found {
        Held::Nothing => {
            take_one(left)?;
            Ok(NOTHING)
        }
        Held::One(thing) => count_thing(alloc, work, facts, thing, nodes, left),
        Held::Many(things) => {
            take_one(left)?;
            count_things(alloc, work, facts, things.as_slice(), nodes, left)
        }
    }
}

#[cycle(counting)]
fn count_things(
    alloc: Global,
    work: Work<'_>,
    facts: &SchemaFacts,
    things: &[Thing<'_>],
    nodes: &[AskedNode],
    left: &mut usize,
) -> Result<Cost, Stop>
    ensures { CountsThings (facts_data facts.now) left.old left.new result (map thing_data things.entry.now) (asked_nodes nodes.now) }
{
    let mut cost = NOTHING;
    'things: for thing in things {
        cost = sum(cost, count_thing(alloc, work, facts, *thing, nodes, left)?);
    }
    Ok(cost)
}

/// What the answer to what is asked at the root of a query costs. Too many values are told as soon as one comes that is one too many.
pub(crate) fn count_answer(
    alloc: Global,
    work: Work<'_>,
    facts: &SchemaFacts,
    nodes: &[AskedNode],
) -> Result<Cost, Stop>
    ensures { IsCount (facts_data facts.now) (asked_nodes nodes.now) result }
{
    let mut left = VALUE_LIMIT;
    count_thing(alloc, work, facts, Thing::Root, nodes, &mut left)
}
