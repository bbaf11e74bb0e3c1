//! A field's call: what a node takes of its coerced arguments.

ghost use Rattle.std.specs.Prelude.{◌≡◌, IsTrue};
ghost use Rattle.schema_model.specs.Arguments.{args_data};
ghost use Rattle.collected_fields.specs.Views.{setting_of_planning, collected_field};
ghost use Rattle.merged_selections.specs.NodeParts.{handed_data};
ghost use Rattle.merged_selections.specs.NodeTests.{handed_by, IsCoerced, Costs, FindsSizes, IsAlike, IsScaled, MakesBy, MakesCall, ComparesArgs};

use crate::arguments::arguments_of;
use crate::lookups::Handed;
use collected_fields::{Collected, Planning};
use cost_directives::Size;
use counted_work::Work;
use distinct_selections::{alike_arguments, same_arguments};
use input_values::count_nodes;
use literal_loads::Loads;
use schema_model::{Args, FieldId};
use std::alloc::Global;
use variable_coercion::{ArgFault, coerce_arguments_at};

/// The call of a field as it is written here.
#[derive(Drop)]
pub struct Call<'a> {
    pub of: FieldId,
    pub field: Collected<'a>,
    /// The arguments by which its size is found, among others without a value; none where it isn't found by arguments.
    pub sizes: Args,
    /// What the arguments cost.
    pub cost: u64,
    /// The size that is handed down.
    pub hands: Option<Handed<'a>>,
}

/// The size that a field hands down.
fn hands<'a>(planning: &Planning<'a>, of: FieldId, args: &Args) -> Option<Handed<'a>>
    ensures { handed_data result ≡ handed_by (setting_of_planning planning.now) of.number (args_data args.now) }
{
    planning.work.count(args.list.len());
    let sized = planning.weights.sized_fields(of);
    match planning.weights.declared_size(of, args, None) {
        Ok(Size::Any) => None,
        Ok(Size::At(size)) => Some(Handed { sized, size }),
        Err(_) => Some(Handed { sized, size: 0 }),
    }
}

/// Whether a call is of this field, with arguments that are written alike.
pub fn is_alike(work: Work<'_>, call: &Call<'_>, of: FieldId, field: &Collected<'_>) -> bool
    ensures { IsTrue result → IsAlike call.now of.number (collected_field field.now) }
{
    let written = call.field.field.arguments.as_slice();
    call.of == of && alike_arguments(work, written, field.field.arguments.as_slice())
}

/// How many nodes the values of arguments have.
fn nodes_in(args: &Args) -> usize {
    let mut nodes = 0;
    for arg in args.list.as_slice() {
        match &arg.value {
            Some(value) => count_nodes(value, u32::MAX, &mut nodes),
            None => {}
        }
    }
    nodes as usize
}

/// What the arguments of a field cost, which are built for it.
fn built_cost(
    alloc: Global,
    planning: &Planning<'_>,
    of: FieldId,
    field: &Collected<'_>,
) -> Result<u64, ArgFault>
    ensures { Costs (setting_of_planning planning.now) of.number (collected_field field.now) result }
{
    match arguments_of(alloc, planning, of, field) {
        Ok(args) => {
            planning.work.count(nodes_in(&args));
            Ok(planning.weights.argument_cost(of, &args))
        }
        Err(fault) => Err(fault),
    }
}

/// What they cost, found by what is written. They are built only where that isn't known.
fn weighed_cost<'a>(
    alloc: Global,
    planning: &Planning<'a>,
    of: FieldId,
    field: &Collected<'a>,
    loads: &mut Loads<'a>,
) -> Result<u64, ArgFault>
    ensures cost { IsScaled (setting_of_planning planning.now) loads.old → Costs (setting_of_planning planning.now) of.number (collected_field field.now) result }
    ensures scaled { IsScaled (setting_of_planning planning.now) loads.old → IsScaled (setting_of_planning planning.now) loads.new }
{
    match loads.cost_of(alloc, of, field.field.arguments.as_slice())? {
        Some(cost) => Ok(cost),
        None => built_cost(alloc, planning, of, field),
    }
}

/// What they cost. Where few calls were made before, they are built: to find it by what is written takes longer at first.
fn cost_of<'a>(
    alloc: Global,
    planning: &Planning<'a>,
    of: FieldId,
    field: &Collected<'a>,
    few: bool,
    loads: &mut Loads<'a>,
) -> Result<u64, ArgFault>
    ensures cost { IsScaled (setting_of_planning planning.now) loads.old → Costs (setting_of_planning planning.now) of.number (collected_field field.now) result }
    ensures scaled { IsScaled (setting_of_planning planning.now) loads.old → IsScaled (setting_of_planning planning.now) loads.new }
{
    if few {
        return built_cost(alloc, planning, of, field);
    }
    weighed_cost(alloc, planning, of, field, loads)
}

/// The call of a field by what its size is found by and what its arguments cost.
fn call_by<'a>(
    planning: &Planning<'a>,
    of: FieldId,
    field: &Collected<'a>,
    sizes: Args,
    cost: u64,
) -> Call<'a>
    ensures { MakesBy (setting_of_planning planning.now) of.number (collected_field field.now) (args_data sizes) cost result }
{
    Call {
        of,
        field: *field,
        hands: hands(planning, of, &sizes),
        sizes,
        cost,
    }
}

/// What the size of a field is found by: its slicing arguments, among others without a value; none where no argument slices.
fn sizes_of(
    alloc: Global,
    planning: &Planning<'_>,
    of: FieldId,
    field: &Collected<'_>,
) -> Result<Args, ArgFault>
    ensures { IsCoerced (setting_of_planning planning.now) of.number (collected_field field.now) → FindsSizes (setting_of_planning planning.now) of.number (collected_field field.now) result }
{
    let places = planning.weights.slicing(of);
    if places.is_empty() {
        return Ok(Args {
            list: Vec::new(alloc),
        });
    }
    let written = field.field.arguments.as_slice();
    coerce_arguments_at(
        alloc,
        planning.work,
        planning.schema,
        of,
        written,
        places,
        planning.variables,
    )
}

/// A field's call. Of its arguments it holds those alone by which the size is found.
pub fn new_call<'a>(
    alloc: Global,
    planning: &Planning<'a>,
    of: FieldId,
    field: &Collected<'a>,
    few: bool,
    loads: &mut Loads<'a>,
) -> Result<Call<'a>, ArgFault>
    ensures call { IsScaled (setting_of_planning planning.now) loads.old → MakesCall (setting_of_planning planning.now) of.number (collected_field field.now) result }
    ensures scaled { IsScaled (setting_of_planning planning.now) loads.old → IsScaled (setting_of_planning planning.now) loads.new }
{
    match cost_of(alloc, planning, of, field, few, loads) {
        Ok(cost) => match sizes_of(alloc, planning, of, field) {
            Ok(sizes) => Ok(call_by(planning, of, field, sizes, cost)),
            Err(fault) => Err(fault),
        },
        Err(fault) => Err(fault),
    }
}

/// Whether the arguments of a field are equal to these. They are built for it.
pub fn same_as(
    alloc: Global,
    planning: &Planning<'_>,
    args: &Args,
    of: FieldId,
    field: &Collected<'_>,
) -> Result<bool, ArgFault>
    ensures { ComparesArgs (setting_of_planning planning.now) (args_data args.now) of.number (collected_field field.now) result }
{
    match arguments_of(alloc, planning, of, field) {
        Ok(others) => Ok(same_arguments(planning.work, args, &others)),
        Err(fault) => Err(fault),
    }
}
