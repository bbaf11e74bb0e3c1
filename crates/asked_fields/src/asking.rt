//! Finding what is asked, node by node. The collector changes neither what the operation is planned by nor its selection sets, and
//! its numbers stand for the same.

ghost use Rattle.std.specs.Prelude.{◌≡◌, option_map, IfOk, OnOk};
ghost use Rattle.schema_model.specs.Numbers.{type_number};
ghost use Rattle.gql_base.specs.names.Names.{place_of_name};
ghost use Rattle.collected_fields.specs.Gathering.{IsReady};
ghost use Rattle.collected_fields.specs.Lists.{HasMore};
ghost use Rattle.asked_fields.specs.Asking.{frame, AsksType, AsksGroups, AsksGroup, AsksNode, AsksBelow};

use crate::asked::AskedNode;
use crate::lookups::{argument_of, key_of, name_of, take_texts, type_below};
use collected_fields::{Collected, Collector, Group};
use gql_base::{Indexed, Named, Text};
use input_values::TypeId;
use std::alloc::{AllocError, Global};

/// What is asked at a position of objects of a type, where so many levels may stand below.
#[cycle(ask)]
pub fn ask_type<N: Named + Drop>(
    alloc: Global,
    names: &Indexed<N>,
    collector: &mut Collector<'_>,
    of: TypeId,
    lists: &[usize],
    levels: u32,
) -> Result<Vec<AskedNode>, AllocError>
    ensures frame { frame collector.new ≡ frame collector.old }
    ensures numbers { HasMore collector.old.joins collector.new.joins }
    ensures ready { IsReady collector.old → IsReady collector.new }
    ensures asked { IfOk result (λ nodes. IsReady collector.old → AsksType (place_of_name N.name_of names.now.items.items) collector.old levels of.number lists.now nodes.items) }
{
    let groups = collector.collect(alloc, of, lists)?;
    let nodes = ask_groups(alloc, names, collector, of, groups.as_slice(), levels)?;
    Ok(nodes)
}

/// The nodes of these keys.
#[cycle(ask)]
fn ask_groups<'a, N: Named + Drop>(
    alloc: Global,
    names: &Indexed<N>,
    collector: &mut Collector<'a>,
    of: TypeId,
    groups: &[Group<'a>],
    levels: u32,
) -> Result<Vec<AskedNode>, AllocError>
    ensures frame { frame collector.new ≡ frame collector.old }
    ensures numbers { HasMore collector.old.joins collector.new.joins }
    ensures ready { IsReady collector.old → IsReady collector.new }
    ensures asked { IfOk result (λ nodes. IsReady collector.old → AsksGroups (place_of_name N.name_of names.now.items.items) collector.old levels of.number groups.now nodes.items) }
{
    collector.planning().work.take(groups.len())?;
    let mut nodes = Vec::new(alloc);
    'groups: for group in groups {
        ask_group(alloc, names, collector, of, group, levels, &mut nodes)?;
    }
    Ok(nodes)
}

/// Puts the node of a key behind others. There is none without fields.
#[cycle(ask)]
fn ask_group<'a, N: Named + Drop>(
    alloc: Global,
    names: &Indexed<N>,
    collector: &mut Collector<'a>,
    of: TypeId,
    group: &Group<'a>,
    levels: u32,
    nodes: &mut Vec<AskedNode>,
) -> Result<(), AllocError>
    ensures frame { frame collector.new ≡ frame collector.old }
    ensures numbers { HasMore collector.old.joins collector.new.joins }
    ensures ready { IsReady collector.old → IsReady collector.new }
    ensures asked { OnOk result (IsReady collector.old → AsksGroup (place_of_name N.name_of names.now.items.items) collector.old levels of.number group.now nodes.old.items nodes.new.items) }
{
    match group.fields.split_first() {
        Some((first, _)) => {
            let below = group.below.as_slice();
            let node = ask_node(alloc, names, collector, of, first, below, levels)?;
            nodes.push(node)?;
            Ok(())
        }
        None => Ok(()),
    }
}

/// The node of fields of one key, by the first of them and by what stands below all.
#[cycle(ask)]
fn ask_node<'a, N: Named + Drop>(
    alloc: Global,
    names: &Indexed<N>,
    collector: &mut Collector<'a>,
    of: TypeId,
    first: &Collected<'a>,
    below: &[usize],
    levels: u32,
) -> Result<AskedNode, AllocError>
    ensures frame { frame collector.new ≡ frame collector.old }
    ensures numbers { HasMore collector.old.joins collector.new.joins }
    ensures ready { IsReady collector.old → IsReady collector.new }
    ensures asked { IfOk result (λ node. IsReady collector.old → AsksNode (place_of_name N.name_of names.now.items.items) collector.old levels of.number first.now below.now node) }
{
    let planning = collector.planning();
    take_texts(&planning, first)?;
    let key = Text::copy_of(alloc, key_of(first))?;
    let name = Text::copy_of(alloc, name_of(first))?;
    let argument = argument_of(alloc, names, &planning, of, first)?;
    let stands = type_below(&planning, of, first);
    let asked = ask_below(alloc, names, collector, stands, below, levels)?;
    Ok(AskedNode {
        key,
        name,
        argument,
        below: asked,
    })
}

/// What is asked below a node, where objects of a type stand there and levels are left.
#[cycle(ask)]
fn ask_below<N: Named + Drop>(
    alloc: Global,
    names: &Indexed<N>,
    collector: &mut Collector<'_>,
    of: Option<TypeId>,
    lists: &[usize],
    levels: u32,
) -> Result<Vec<AskedNode>, AllocError>
    ensures frame { frame collector.new ≡ frame collector.old }
    ensures numbers { HasMore collector.old.joins collector.new.joins }
    ensures ready { IsReady collector.old → IsReady collector.new }
    ensures asked { IfOk result (λ nodes. IsReady collector.old → AsksBelow (place_of_name N.name_of names.now.items.items) collector.old levels (option_map type_number of) lists.now nodes.items) }
{
    if levels == 0 {
        return Ok(Vec::new(alloc));
    }
    match of {
        Some(of) => {
            let nodes = ask_type(alloc, names, collector, of, lists, levels - 1)?;
            Ok(nodes)
        }
        None => Ok(Vec::new(alloc)),
    }
}
