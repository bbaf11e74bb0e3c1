//! Types as they stand at fields, arguments and input fields (GraphQL October 2021, 3.4.1, 3.11 and 3.12).

ghost use Rattle.std.specs.Prelude.{◌≡◌, IfOk};
ghost use Rattle.input_values.specs.inputs.Shapes.{shape_tree, level_tree};

use std::alloc::{AllocError, Global};

/// A named type of a schema, by its number.
#[derive(Clone, Copy, Debug, PartialEq, Eq)]
pub struct TypeId {
    pub number: usize,
}

/// A named type, or a list of items of a type, and whether null may stand there.
#[derive(Drop)]
pub enum Shape {
    Named { of: TypeId, nullable: bool },
    ListOf { item: Box<Shape>, nullable: bool },
}

/// A shape that is opened by one level.
#[derive(Clone, Copy)]
pub enum ShapeLevel<'a> {
    Named { of: TypeId, nullable: bool },
    ListOf { item: &'a Shape, nullable: bool },
}

/// The outermost level of a shape.
#[tactic(auto, using(crate::proofs::ShapeTrees::shape_levels))]
pub fn shape_level(shape: &Shape) -> ShapeLevel<'_>
    ensures { level_tree result ≡ shape_tree shape.now }
{
    match shape {
        Shape::Named { of, nullable } => ShapeLevel::Named {
            of: *of,
            nullable: *nullable,
        },
        Shape::ListOf { item, nullable } => ShapeLevel::ListOf {
            item: &**item,
            nullable: *nullable,
        },
    }
}

/// A copy of a shape. It fails for want of memory alone.
#[tactic(auto, using(crate::proofs::ShapeTrees::shape_levels))]
pub fn copy_shape(alloc: Global, shape: &Shape) -> Result<Shape, AllocError>
    ensures { IfOk result (λ copy. shape_tree copy ≡ shape_tree shape.now) }
{
    match shape {
        Shape::Named { of, nullable } => Ok(Shape::Named {
            of: *of,
            nullable: *nullable,
        }),
        Shape::ListOf { item, nullable } => {
            let item = copy_shape(alloc, &**item)?;
            Ok(Shape::ListOf {
                item: Box::new(alloc, item)?,
                nullable: *nullable,
            })
        }
    }
}
