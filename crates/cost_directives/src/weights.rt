//! The weights and sizes of a schema, and what is looked up in them. The look-ups take no memory. They ask for numbers of the
//! schema that the weights were built from; at other numbers they answer as at a type, or a field, that weighs nothing.

ghost use Rattle.std.specs.Prelude.{◌≡◌, map, get_or, None};
ghost use Rattle.cost_num.specs.Capped.{capped};
ghost use Rattle.input_values.specs.inputs.Shapes.{shape_tree};
ghost use Rattle.input_values.specs.values.Coerced.{coerced_tree};
ghost use Rattle.schema_model.specs.Arguments.{args_data};
ghost use Rattle.cost_directives.specs.ArgumentCosts.{value_cost};
ghost use Rattle.cost_directives.specs.Weights.{type_in, field_in, objects_in, argument_cost_in, declared_size_in};
ghost use Rattle.cost_directives.specs.SizeSources.{size_source_in};
ghost use Rattle.cost_directives.specs.WeightViews.{weights_data, field_seen, input_weight, weighed_inputs};

use crate::argument_costs::{arguments_cost, object_at, value_cost};
use crate::entries::{FieldWeight, InputWeight, TypeWeight};
use crate::sizes::{Size, SizeFault, size_by};
use crate::sources::{SizeSource, source_by};
use gql_base::Text;
use input_values::{Coerced, Shape, TypeId};
use schema_model::{Args, FieldId};

/// What types and fields weigh, what arguments cost and what sizes lists declare, in one schema.
#[derive(Drop)]
pub struct Weights {
    /// The types that the text defines.
    pub(crate) types: Vec<TypeWeight>,
    pub(crate) fields: Vec<FieldWeight>,
    /// The size of lists that declare none.
    pub(crate) undeclared: u32,
}

impl Weights {
    fn found(&self, of: FieldId) -> Option<&FieldWeight>
        ensures { field_seen result ≡ field_in (weights_data self.now) of.number }
    {
        self.fields.get(of.number)
    }

    /// The size of lists that declare none.
    pub fn undeclared(&self) -> u32
        ensures { result ≡ (weights_data self.now).undeclared }
    {
        self.undeclared
    }

    /// The weight of an object, scalar or enum type, in millionths: that of its `@cost`, else 1 for an object type and 0 for
    /// a leaf.
    pub fn type_weight(&self, of: TypeId) -> u64
        ensures { result ≡ (type_in (weights_data self.now) of.number).weight }
    {
        match self.types.get(of.number) {
            Some(found) => found.weight,
            None => 0,
        }
    }

    /// The weight of a field of an object type, in millionths: that of its `@cost`, else that of the field in the interfaces,
    /// else 1 where it returns a composite type and 0 where it returns a leaf.
    pub fn field_weight(&self, of: FieldId) -> u64
        ensures { result ≡ (field_in (weights_data self.now) of.number).weight }
    {
        match self.found(of) {
            Some(found) => found.weight,
            None => 0,
        }
    }

    /// The names in the `sizedFields` of a field: of the fields below to which its declared size is handed down.
    pub fn sized_fields(&self, of: FieldId) -> &[Text]
        ensures { result.now ≡ (field_in (weights_data self.now) of.number).size.sized }
    {
        match self.found(of) {
            Some(found) => &found.size.sized,
            None => &[],
        }
    }

    /// The places of the slicing arguments among those of a field, each once.
    pub fn slicing(&self, of: FieldId) -> &[usize]
        ensures { result.now ≡ (field_in (weights_data self.now) of.number).size.slicing }
    {
        match self.found(of) {
            Some(found) => &found.size.slicing,
            None => &[],
        }
    }

    /// What the arguments of a field cost, in millionths, or `CAP + 1` where that exceeds `CAP`. The arguments are the
    /// field's own, one for each that it defines.
    #[tactic(auto, using(crate::proofs::FoundInputs::objects_seen))]
    pub fn argument_cost(&self, of: FieldId, args: &Args) -> u64
        ensures { result ≡ capped (argument_cost_in (weights_data self.now) of.number (args_data args.now)) }
    {
        match self.found(of) {
            Some(found) => arguments_cost(&self.types, &found.arguments, &args.list),
            None => 0,
        }
    }

    /// The declared size of a list field, or of a field that hands its size down. A size that is `handed` down from the field
    /// above is taken first; then the greatest slicing argument, `assumedSize`, any length where the items weigh nothing,
    /// and the size of lists that declare none.
    pub fn declared_size(
        &self,
        of: FieldId,
        args: &Args,
        handed: Option<u64>,
    ) -> Result<Size, SizeFault>
        ensures { result ≡ declared_size_in (weights_data self.now) of.number (args_data args.now) handed }
    {
        match self.found(of) {
            Some(found) => size_by(&found.size, self.undeclared, &args.list, handed),
            None => match handed {
                Some(size) => Ok(Size::At(size)),
                None => Ok(Size::At(u64::from(self.undeclared))),
            },
        }
    }

    /// Where the declared size comes from, where the slicing arguments have no fault. It is asked with what `declared_size` is
    /// asked with.
    pub fn size_source(&self, of: FieldId, args: &Args, handed: Option<u64>) -> SizeSource
        ensures { result ≡ size_source_in (weights_data self.now) of.number (args_data args.now) handed }
    {
        match self.found(of) {
            Some(found) => source_by(&found.size, self.undeclared, &args.list, handed),
            None => match handed {
                Some(size) => SizeSource::Handed(size),
                None => SizeSource::Undeclared(self.undeclared),
            },
        }
    }

    /// What a value costs at a place of this shape, where the place has this weight of its own: in millionths, or `CAP + 1`
    /// where that exceeds `CAP`.
    #[tactic(auto, using(crate::proofs::FoundInputs::objects_seen))]
    pub fn value_cost(&self, shape: &Shape, own: Option<u64>, value: &Coerced) -> u64
        ensures { result ≡ capped (value_cost (objects_in (weights_data self.now)) (shape_tree shape.now) own (coerced_tree value.now)) }
    {
        value_cost(value, &self.types, shape, own)
    }

    /// The arguments of a field, in the order of the text.
    pub fn weighed_arguments(&self, of: FieldId) -> &[InputWeight]
        ensures { map input_weight result.now ≡ (field_in (weights_data self.now) of.number).arguments }
    {
        match self.found(of) {
            Some(found) => &found.arguments,
            None => &[],
        }
    }

    /// The fields of an input object type, in the order of the text; none of another type.
    #[tactic(auto, using(crate::proofs::FoundInputs::objects_seen))]
    pub fn weighed_fields(&self, of: TypeId) -> Option<&[InputWeight]>
        ensures { weighed_inputs result ≡ get_or (objects_in (weights_data self.now)) of.number None }
    {
        match object_at(&self.types, of) {
            Some(object) => Some(object.inputs.items()),
            None => None,
        }
    }
}
