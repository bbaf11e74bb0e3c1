//! The types of variables, with a schema's numbers in place of names (GraphQL October 2021, 2.11).

ghost use Rattle.std.specs.Prelude.{◌≡◌, IfOk};
ghost use Rattle.gql_base.specs.parts.Trees.{type_tree};
ghost use Rattle.input_values.specs.inputs.Shapes.{named_shape, list_shape, shape_tree, shape_by};
ghost use Rattle.schema_model.specs.SchemaViews.{schema_data};
ghost use Rattle.variable_coercion.specs.Variables.{number_in};

use gql_base::TypeRef;
use input_values::{Shape, TypeId};
use schema_model::Schema;
use std::alloc::{AllocError, Global};

#[tactic(auto, using(crate::proofs::ShapeSteps::shape_steps))]
fn named(of: TypeId, nullable: bool) -> Shape
    ensures { shape_tree result ≡ named_shape of.number nullable }
{
    Shape::Named { of, nullable }
}

#[tactic(auto, using(crate::proofs::ShapeSteps::shape_steps))]
fn listed(alloc: Global, item: Shape, nullable: bool) -> Result<Shape, AllocError>
    ensures { IfOk result (λ s. shape_tree s ≡ list_shape (shape_tree item) nullable) }
{
    Ok(Shape::ListOf {
        item: Box::new(alloc, item)?,
        nullable,
    })
}

/// The shape of a type that is written: without a `!` null may stand there. It fails for want of memory alone.
#[tactic(auto, using(crate::proofs::ShapeSteps::shape_steps))]
pub(crate) fn shape_in(
    alloc: Global,
    schema: &Schema,
    nullable: bool,
    of: &TypeRef,
) -> Result<Shape, AllocError>
    ensures { IfOk result (λ s. shape_tree s ≡ shape_by (number_in (schema_data schema.now)) nullable (type_tree of.now)) }
{
    match of {
        TypeRef::Named(name) => Ok(named(schema.number_named(name.text.as_str()), nullable)),
        TypeRef::ListOf(item) => {
            let item = shape_in(alloc, schema, true, &**item)?;
            listed(alloc, item, nullable)
        }
        TypeRef::NonNull(inner) => shape_in(alloc, schema, false, &**inner),
    }
}
