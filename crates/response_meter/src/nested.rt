//! The nodes of a plan, each with those below it.

ghost use Rattle.std.specs.Prelude.{◌≡◌, ◌≤◌, List, OnOk, IfOk, length};
ghost use Rattle.plan_model.specs.SelectedFields.{Setting};
ghost use Rattle.response_meter.specs.declared.nested.Node.TheViews.{out-NodeSet};
ghost use Rattle.response_meter.specs.Nested.{nodes_in, types_of, set_of, set_at, Pops, NestsNode, NestsTypes, NestsSet};
ghost use Rattle.plan_table.specs.declared.rows.NodeRow.{NodeRow as NodeRowType};

use gql_base::Named;
use plan_table::{NodeRow, Plan};
use std::alloc::{AllocError, Global};
use std::collections::BTreeMap;

/// A node.
#[derive(Drop)]
#[cycle(nested)]
pub(crate) struct Node<'a> {
    pub(crate) row: &'a NodeRow,
    pub(crate) below: Types<'a>,
}

/// The nodes of a position, by the types of the objects there.
#[derive(Drop)]
#[cycle(nested)]
pub(crate) struct Types<'a> {
    /// Where each type stands that has nodes, by its number.
    places: BTreeMap<usize, usize>,
    sets: Vec<NodeSet<'a>>,
    /// That of a type without nodes.
    none: NodeSet<'a>,
}

/// The nodes of a type, in the order of its entries.
#[derive(Drop)]
#[cycle(nested)]
pub(crate) struct NodeSet<'a> {
    pub(crate) nodes: Vec<Node<'a>>,
}

impl<'a> Types<'a> {
    fn set_at(&self, at: usize) -> &NodeSet<'a>
        ensures { (e : Setting) → set_of e result.now ≡ set_at e self.now at }
    {
        if at < self.sets.len() {
            &self.sets[at]
        } else {
            &self.none
        }
    }

    /// The nodes of the type of this number.
    pub(crate) fn set(&self, on: usize) -> &NodeSet<'a>
        ensures { (e : Setting) → nodes_in e (out-NodeSet result.now).nodes.items ≡ types_of e self.now on }
    {
        match self.places.get(&on) {
            Some(at) => self.set_at(*at),
            None => &self.none,
        }
    }
}

/// The rows that are left.
#[derive(Drop)]
struct Rows<'a> {
    left: &'a [NodeRow],
}

impl<'a> Rows<'a> {
    /// Takes the next row, where it has this depth, and where it must not be the first of its type if it stands behind
    /// another.
    fn next(&mut self, depth: u32, behind: bool) -> Option<&'a NodeRow>
        ensures { Pops depth behind result self.old.left.now self.new.left.now }
    {
        match self.left.split_first() {
            Some((row, left)) if row.depth == depth && !(behind && row.first) => {
                self.left = left;
                Some(row)
            }
            _ => None,
        }
    }
}

/// The node of a row that was taken, with those below it.
#[cycle(nesting)]
fn nest_node<'a>(
    alloc: Global,
    row: &'a NodeRow,
    rows: &mut Rows<'a>,
) -> Result<Node<'a>, AllocError>
    ensures nested { IfOk result (NestsNode row.now rows.old.left.now rows.new.left.now) }
    ensures fewer { OnOk result (length rows.new.left.now ≤ length rows.old.left.now) }
{
    let below = nest_types(alloc, row.depth + 1, rows)?;
    Ok(Node { row, below })
}

/// The types at this depth, with their nodes.
#[cycle(nesting)]
fn nest_types<'a>(alloc: Global, depth: u32, rows: &mut Rows<'a>) -> Result<Types<'a>, AllocError>
    ensures nested { IfOk result (NestsTypes depth rows.old.left.now rows.new.left.now) }
    ensures fewer { OnOk result (length rows.new.left.now ≤ length rows.old.left.now) }
{
    let mut places = BTreeMap::new(alloc);
    let mut sets = Vec::new(alloc);
    'types: while let Some(row) = rows.next(depth, false) {
        let _ = places.insert(row.on.number, sets.len())?;
        sets.push(nest_set(alloc, row, rows)?)?;
    }
    let none = NodeSet {
        nodes: Vec::new(alloc),
    };
    Ok(Types { places, sets, none })
}

/// The nodes of a type, of which the row of the first was taken.
#[cycle(nesting)]
fn nest_set<'a>(
    alloc: Global,
    first: &'a NodeRow,
    rows: &mut Rows<'a>,
) -> Result<NodeSet<'a>, AllocError>
    ensures nested { IfOk result (NestsSet first.now rows.old.left.now rows.new.left.now) }
    ensures fewer { OnOk result (length rows.new.left.now ≤ length rows.old.left.now) }
{
    let mut nodes = Vec::new(alloc);
    nodes.push(nest_node(alloc, first, rows)?)?;
    'nodes: while let Some(row) = rows.next(first.depth, true) {
        nodes.push(nest_node(alloc, row, rows)?)?;
    }
    Ok(NodeSet { nodes })
}

/// The types at the root of a plan, with their nodes.
pub(crate) fn nested<'a>(alloc: Global, of: &'a Plan) -> Result<Types<'a>, AllocError>
    ensures { IfOk result (λ types. (left : List NodeRowType) × NestsTypes 1 of.now.rows.items left types) }
{
    let mut rows = Rows {
        left: of.node_rows(),
    };
    nest_types(alloc, 1, &mut rows)
}

impl<'a> Named for Node<'a> {
    ghost use Rattle.response_meter.specs.declared.nested.Node.TheViews.{out-Node};

    ghost name_of = { λ node. (out-Node node).row.now.key };

    fn name(&self) -> &str {
        self.row.key.as_str()
    }
}
