//! Types with numbers in place of names (GraphQL October 2021, 3.4.1, 3.11 and 3.12).

ghost use Rattle.std.specs.Prelude.{◌≡◌, map, IfOk};
ghost use Rattle.gql_base.specs.parts.Trees.{type_tree};
ghost use Rattle.input_values.specs.inputs.Shapes.{shape_tree, shape_by};
ghost use Rattle.schema_rules.specs.Views.{named_kind};
ghost use Rattle.schema_model.specs.Drafts.{number_named, shape_of};

use gql_base::{NameIndex, TypeRef};
use input_values::{Shape, TypeId};
use schema_rules::TypeName;
use std::alloc::{AllocError, Global};

/// The number of the type of this name, or the number of all types where none has it.
pub fn number_named(types: &NameIndex<'_, TypeName<'_>>, name: &str) -> TypeId
    ensures { result.number ≡ number_named (map named_kind types.now.items.now) name.now }
{
    match types.position(name) {
        Some(number) => TypeId { number },
        None => TypeId {
            number: types.items().len(),
        },
    }
}

#[tactic(auto, using(crate::proofs::ShapeSteps::shape_steps))]
fn listed(alloc: Global, item: Shape, nullable: bool) -> Result<Shape, AllocError>
    ensures { IfOk result (λ s. shape_tree s ≡ Rattle.input_values.specs.inputs.Shapes.list_shape (shape_tree item) nullable) }
{
    Ok(Shape::ListOf {
        item: Box::new(alloc, item)?,
        nullable,
    })
}

#[tactic(auto, using(crate::proofs::ShapeSteps::shape_steps))]
fn named(of: TypeId, nullable: bool) -> Shape
    ensures { shape_tree result ≡ Rattle.input_values.specs.inputs.Shapes.named_shape of.number nullable }
{
    Shape::Named { of, nullable }
}

#[tactic(auto, using(crate::proofs::ShapeSteps::shape_steps))]
fn shape_in(
    alloc: Global,
    types: &NameIndex<'_, TypeName<'_>>,
    nullable: bool,
    of: &TypeRef,
) -> Result<Shape, AllocError>
    ensures { IfOk result (λ s. shape_tree s ≡ shape_by (number_named (map named_kind types.now.items.now)) nullable (type_tree of.now)) }
{
    match of {
        TypeRef::Named(name) => Ok(named(number_named(types, name.text.as_str()), nullable)),
        TypeRef::ListOf(item) => {
            let item = shape_in(alloc, types, true, &**item)?;
            listed(alloc, item, nullable)
        }
        TypeRef::NonNull(inner) => shape_in(alloc, types, false, &**inner),
    }
}

/// A type with numbers in place of names: without a `!` null may stand there. It fails for want of memory alone.
pub fn shape_of(
    alloc: Global,
    types: &NameIndex<'_, TypeName<'_>>,
    of: &TypeRef,
) -> Result<Shape, AllocError>
    ensures { IfOk result (λ s. shape_tree s ≡ shape_of (map named_kind types.now.items.now) (type_tree of.now)) }
{
    shape_in(alloc, types, true, of)
}
