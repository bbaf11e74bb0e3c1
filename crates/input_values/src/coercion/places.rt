//! Places: whether null may stand there, and a value that is no list where a list is asked (GraphQL October 2021, 3.11
//! and 3.12).

ghost use Rattle.std.specs.Prelude.{ℕ, ◌≡◌, ◌≤◌, Ok, Some, IfOk};
ghost use Rattle.input_values.specs.values.Coerced.{CoercedTree, coerced_tree};
ghost use Rattle.input_values.specs.inputs.Shapes.{shape_tree, is_nullable};
ghost use Rattle.input_values.specs.coercion.Answers.{Answer, mapped};
ghost use Rattle.input_values.specs.coercion.Places.{list_of_one, innermost};
ghost use Rattle.input_values.specs.coercion.Calls.{Coerces, Wraps, tree_in};

use crate::coercion::faults::CoercionFault;
use crate::inputs::shape::{Shape, ShapeLevel, TypeId, shape_level};
use crate::values::coerced::Coerced;
use crate::values::counting::count_node;
use crate::values::made;
use counted_work::Work;
use std::alloc::{AllocError, Global};

/// Whether null may stand at a place of this shape.
pub fn is_nullable(shape: &Shape) -> bool
    ensures { result ≡ is_nullable (shape_tree shape.now) }
{
    match shape_level(shape) {
        ShapeLevel::Named { nullable, .. } => nullable,
        ShapeLevel::ListOf { nullable, .. } => nullable,
    }
}

/// The named type inside all lists.
#[tactic(auto, using(crate::proofs::ShapeTrees::shape_levels))]
pub fn innermost(shape: &Shape) -> TypeId
    ensures { result.number ≡ innermost (shape_tree shape.now) }
{
    match shape {
        Shape::Named { of, .. } => *of,
        Shape::ListOf { item, .. } => innermost(&**item),
    }
}

/// What a value that is no list came to at the innermost type, in a list of one for each list of the shape. Each of these lists is a step.
pub fn wrapped(
    alloc: Global,
    work: Work<'_>,
    shape: &Shape,
    inner: Result<Option<Coerced>, CoercionFault>,
    limit: u32,
    count: &mut u64,
) -> Result<Option<Coerced>, CoercionFault>
    ensures { Wraps limit count.old count.new (shape_tree shape.now) inner result }
{
    match shape {
        Shape::Named { .. } => inner,
        Shape::ListOf { item, .. } => match wrapped(alloc, work, &**item, inner, limit, count) {
            Ok(value) => list_of_one(alloc, work, value, limit, count),
            Err(fault) => Err(fault),
        },
    }
}

/// A list of one item.
fn list_of_one(
    alloc: Global,
    work: Work<'_>,
    item: Option<Coerced>,
    limit: u32,
    count: &mut u64,
) -> Result<Option<Coerced>, CoercionFault>
    ensures { (before : ℕ) (answer : Answer CoercedTree) → Coerces limit before count.old (Ok item) answer → Coerces limit before count.new result (mapped list_of_one answer) }
{
    work.take(1)?;
    count_node(limit, count);
    match item {
        Some(item) => Ok(one_of(alloc, item, limit, *count)?),
        None => Ok(None),
    }
}

/// A list of one item, where the count is within the limit.
fn one_of(
    alloc: Global,
    item: Coerced,
    limit: u32,
    count: u64,
) -> Result<Option<Coerced>, AllocError>
    ensures { IfOk result (λ list. count ≤ limit → tree_in list ≡ Some (list_of_one (coerced_tree item))) }
{
    if count > u64::from(limit) {
        return Ok(None);
    }
    let mut items = Vec::with_capacity(alloc, 1)?;
    items.push(item)?;
    Ok(Some(made::list(items)))
}
