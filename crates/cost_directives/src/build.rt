//! Building the weights of a schema: the tests of its cost directives in their order, and the weights of one that passes them.

ghost use Rattle.std.specs.Prelude.{◌≡◌, map, IfOk};
ghost use Rattle.std.specs.List.{range_with_len};
ghost use Rattle.schema_model.specs.SchemaViews.{schema_data};
ghost use Rattle.schema_model.specs.Numbers.{type_number};
ghost use Rattle.schema_model.specs.Entries.{field_number};
ghost use Rattle.cost_directives.specs.Weights.{type_numbers, field_numbers, type_weight_at, field_weight_at, weights_of};
ghost use Rattle.cost_directives.specs.WeightViews.{type_weight, field_weight, weights_data};
ghost use Rattle.cost_directives.specs.DirectiveFaults.{fault_of_slicing, fault_of_weights, fault_of_sizes, PassesDirectiveTests, Weighs};

use crate::entries::{FieldWeight, TypeWeight};
use crate::fault::DirectiveFault;
use crate::faults::bad_weight::first_bad_weight;
use crate::faults::disagree::first_unclear;
use crate::faults::dotted::first_dotted;
use crate::faults::negative_size::first_negative;
use crate::faults::not_a_list::first_no_list;
use crate::faults::sized_on_list::first_sized_list;
use crate::faults::sized_unknown::first_unknown_sized;
use crate::faults::slicing_not_int::first_other_slicing;
use crate::faults::slicing_unknown::first_unknown_slicing;
use crate::places::field_place;
use crate::rules::{field_weight_of, type_weight_of};
use crate::weights::Weights;
use gql_base::Text;
use input_values::TypeId;
use schema_model::{FieldId, Schema};
use schema_rules::place_text;
use std::alloc::{AllocError, Global};

// The types that the text defines, in their order.
fn types_of(alloc: Global, schema: &Schema) -> Result<Vec<TypeId>, AllocError>
    ensures { IfOk result (λ types. map type_number types.items ≡ type_numbers (schema_data schema.now)) }
{
    let (count, _) = schema.counts();
    let mut types = Vec::new(alloc);
    for number in 0..count {
        types.push(TypeId { number })?;
    }
    Ok(types)
}

// The fields, in the order of the text.
fn fields_of(alloc: Global, schema: &Schema) -> Result<Vec<FieldId>, AllocError>
    ensures { IfOk result (λ fields. map field_number fields.items ≡ field_numbers (schema_data schema.now)) }
{
    let (_, count) = schema.counts();
    let mut fields = Vec::new(alloc);
    for number in 0..count {
        fields.push(FieldId { number })?;
    }
    Ok(fields)
}

fn test_slicing(alloc: Global, schema: &Schema, fields: &[FieldId]) -> Result<(), DirectiveFault>
    requires { map field_number fields.now ≡ field_numbers (schema_data schema.now) }
    ensures { PassesDirectiveTests result (fault_of_slicing (schema_data schema.now)) }
{
    if let Some(field) = first_dotted(schema, fields) {
        return Err(DirectiveFault::Dotted {
            place: field_place(alloc, schema, field)?,
        });
    }
    if let Some(found) = first_unknown_slicing(schema, fields) {
        return Err(DirectiveFault::SlicingUnknown {
            place: field_place(alloc, schema, found.field)?,
            name: Text::copy_of(alloc, found.name)?,
        });
    }
    if let Some(found) = first_other_slicing(schema, fields) {
        return Err(DirectiveFault::SlicingNotInt {
            place: field_place(alloc, schema, found.field)?,
            name: Text::copy_of(alloc, found.name)?,
        });
    }
    Ok(())
}

fn test_weights(
    alloc: Global,
    schema: &Schema,
    types: &[TypeId],
    fields: &[FieldId],
) -> Result<(), DirectiveFault>
    requires types { map type_number types.now ≡ type_numbers (schema_data schema.now) }
    requires fields { map field_number fields.now ≡ field_numbers (schema_data schema.now) }
    ensures { PassesDirectiveTests result (fault_of_weights (schema_data schema.now)) }
{
    if let Some(bad) = first_bad_weight(schema, types) {
        return Err(DirectiveFault::Weight {
            place: place_text(alloc, bad.place)?,
            fault: bad.fault,
        });
    }
    if let Some(field) = first_no_list(schema, fields) {
        return Err(DirectiveFault::NotAList {
            place: field_place(alloc, schema, field)?,
        });
    }
    test_slicing(alloc, schema, fields)
}

fn test_sizes(alloc: Global, schema: &Schema, fields: &[FieldId]) -> Result<(), DirectiveFault>
    requires { map field_number fields.now ≡ field_numbers (schema_data schema.now) }
    ensures { PassesDirectiveTests result (fault_of_sizes (schema_data schema.now)) }
{
    if let Some(field) = first_sized_list(schema, fields) {
        return Err(DirectiveFault::SizedOnList {
            place: field_place(alloc, schema, field)?,
        });
    }
    if let Some(found) = first_unknown_sized(schema, fields) {
        return Err(DirectiveFault::SizedUnknown {
            place: field_place(alloc, schema, found.field)?,
            name: Text::copy_of(alloc, found.name)?,
        });
    }
    if let Some(field) = first_negative(schema, fields) {
        return Err(DirectiveFault::NegativeSize {
            place: field_place(alloc, schema, field)?,
        });
    }
    if let Some(field) = first_unclear(schema, fields) {
        return Err(DirectiveFault::Disagree {
            place: field_place(alloc, schema, field)?,
        });
    }
    Ok(())
}

fn type_weights(
    alloc: Global,
    schema: &Schema,
    types: &[TypeId],
) -> Result<Vec<TypeWeight>, AllocError>
    ensures { IfOk result (λ made. map type_weight made.items ≡ map (type_weight_at (schema_data schema.now)) (map type_number types.now)) }
{
    let mut made = Vec::new(alloc);
    for of in types {
        made.push(type_weight_of(alloc, schema, *of)?)?;
    }
    Ok(made)
}

fn field_weights(
    alloc: Global,
    schema: &Schema,
    fields: &[FieldId],
) -> Result<Vec<FieldWeight>, AllocError>
    ensures { IfOk result (λ made. map field_weight made.items ≡ map (field_weight_at (schema_data schema.now)) (map field_number fields.now)) }
{
    let mut made = Vec::new(alloc);
    for field in fields {
        made.push(field_weight_of(alloc, schema, *field)?)?;
    }
    Ok(made)
}

// The weights of these types and fields, which are all of the schema.
fn weights_with(
    alloc: Global,
    schema: &Schema,
    types: &[TypeId],
    fields: &[FieldId],
    undeclared: u32,
) -> Result<Weights, AllocError>
    requires types { map type_number types.now ≡ type_numbers (schema_data schema.now) }
    requires fields { map field_number fields.now ≡ field_numbers (schema_data schema.now) }
    ensures { IfOk result (λ w. weights_data w ≡ weights_of (schema_data schema.now) undeclared) }
{
    Ok(Weights {
        types: type_weights(alloc, schema, types)?,
        fields: field_weights(alloc, schema, fields)?,
        undeclared,
    })
}

impl Weights {
    /// The weights and sizes of a schema, or the first fault of its cost directives, where a list that declares no size has
    /// the size `undeclared`.
    pub fn build(alloc: Global, schema: &Schema, undeclared: u32) -> Result<Weights, DirectiveFault>
        ensures { Weighs (schema_data schema.now) undeclared result }
    {
        let types = types_of(alloc, schema)?;
        let fields = fields_of(alloc, schema)?;
        test_weights(alloc, schema, &types, &fields)?;
        test_sizes(alloc, schema, &fields)?;
        Ok(weights_with(alloc, schema, &types, &fields, undeclared)?)
    }
}
