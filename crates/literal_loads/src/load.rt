//! Nodes and costs, added up.

ghost use Rattle.std.specs.Prelude.{◌≡◌, ◌+◌, IfSome};
ghost use Rattle.literal_loads.specs.LoadSums.{cost_at, IsBoth, IsLeaf, HasInside, IsList, IsObject, AreBoth, IsInPlace};

use cost_num::UNIT;

/// How many nodes a value has, and what it costs, by what its place weighs: that of the place is paid for each leaf and for each input
/// object that stands there, in lists or not; what is inside of the objects costs so much, in millionths.
#[derive(Clone, Copy)]
pub struct Load {
    pub nodes: u64,
    pub leaves: u64,
    pub objects: u64,
    pub inside: u64,
}

/// What inputs come to together: how many are refused, how many nodes the others have, and what they cost, in millionths.
#[derive(Clone, Copy)]
pub struct Sum {
    pub refused: u64,
    pub nodes: u64,
    pub cost: u64,
}

/// What a value costs at a place with this weight of its own.
pub fn cost_at(own: Option<u64>, load: Load) -> Option<u64>
    ensures { IfSome result (λ cost. cost ≡ cost_at own load) }
{
    let leaves = own.unwrap_or(0).checked_mul(load.leaves)?;
    let objects = own.unwrap_or(UNIT).checked_mul(load.objects)?;
    leaves.checked_add(objects)?.checked_add(load.inside)
}

/// Both together.
pub fn both_loads(load: Load, other: Load) -> Option<Load>
    ensures { IfSome result (IsBoth load other) }
{
    let nodes = load.nodes.checked_add(other.nodes)?;
    let leaves = load.leaves.checked_add(other.leaves)?;
    let objects = load.objects.checked_add(other.objects)?;
    let inside = load.inside.checked_add(other.inside)?;
    Some(Load {
        nodes,
        leaves,
        objects,
        inside,
    })
}

/// Both together.
pub fn both_sums(sum: Sum, other: Sum) -> Option<Sum>
    ensures { IfSome result (AreBoth sum other) }
{
    let refused = sum.refused.checked_add(other.refused)?;
    let nodes = sum.nodes.checked_add(other.nodes)?;
    let cost = sum.cost.checked_add(other.cost)?;
    Some(Sum {
        refused,
        nodes,
        cost,
    })
}

/// One of what was added up is more, and another less.
fn exchanged(sum: u64, less: u64, more: u64) -> Option<u64>
    ensures { IfSome result (λ now. now + less ≡ sum + more) }
{
    sum.checked_add(more)?.checked_sub(less)
}

/// The sum where one of the inputs has a value of so many nodes, at this cost, in place of what it was.
pub fn with_value(sum: Sum, was: Sum, nodes: u64, cost: u64) -> Option<Sum>
    ensures { IfSome result (IsInPlace sum was nodes cost) }
{
    let refused = exchanged(sum.refused, was.refused, 0)?;
    let nodes = exchanged(sum.nodes, was.nodes, nodes)?;
    let cost = exchanged(sum.cost, was.cost, cost)?;
    Some(Sum {
        refused,
        nodes,
        cost,
    })
}

/// A leaf of so many nodes: of one, or of more in the value of a custom scalar.
pub fn leaf_of(nodes: u64) -> Load
    ensures { IsLeaf nodes result }
{
    Load {
        nodes,
        leaves: 1,
        objects: 0,
        inside: 0,
    }
}

/// An input object of so many nodes, inside of which things cost so much.
pub fn object_with(nodes: u64, inside: u64) -> Load
    ensures { HasInside nodes inside result }
{
    Load {
        nodes,
        leaves: 0,
        objects: 1,
        inside,
    }
}

/// A list with these items.
pub fn list_of(items: Load) -> Option<Load>
    ensures { IfSome result (IsList items) }
{
    let nodes = items.nodes.checked_add(1)?;
    Some(Load { nodes, ..items })
}

/// An input object with these fields; none where a field is refused.
pub fn object_of(fields: Sum) -> Option<Load>
    ensures { IfSome result (IsObject fields) }
{
    if fields.refused > 0 {
        return None;
    }
    let nodes = fields.nodes.checked_add(1)?;
    Some(Load {
        nodes,
        leaves: 0,
        objects: 1,
        inside: fields.cost,
    })
}
