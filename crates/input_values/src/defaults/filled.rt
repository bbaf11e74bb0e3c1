//! Types whose defaults are being filled, as coercion sees them.

ghost use Rattle.std.specs.Prelude.{◌≡◌, length, map, option_map, slice_get};
ghost use Rattle.input_values.specs.values.Coerced.{coerced_tree};
ghost use Rattle.input_values.specs.inputs.Shapes.{shape_tree};
ghost use Rattle.input_values.specs.coercion.Forms.{is_value, is_field, names_of, fields_of, absence_of};
ghost use Rattle.input_values.specs.coercion.Kinds.{IsOfKind, field_seen, absence_seen, scalar_form_of};
ghost use Rattle.input_values.specs.defaults.Filling.{field_draft, listed, literal_seen, filled_forms, table_of, table_absence, table_field, table_fields};

use crate::coercion::places::is_nullable;
use crate::defaults::drafts::{DraftField, DraftType};
use crate::inputs::shape::{Shape, TypeId};
use crate::inputs::types::{Absence, InputField, InputKind, InputTypes};
use crate::values::coerced::Coerced;
use gql_base::{Indexed, Text, Value};
use std::collections::BTreeMap;

/// Types with the values of their defaults.
#[derive(Drop)]
pub struct FilledTypes<'a> {
    pub(crate) types: Vec<DraftType<'a>>,
    /// The values that were found, by the number of the type and the place of the field.
    pub(crate) values: BTreeMap<(usize, usize), Coerced>,
}

impl<'a> InputTypes for FilledTypes<'a> {
    ghost use Rattle.input_values.specs.defaults.Filling.{filled_forms};

    ghost forms = { filled_forms };

    fn kind(&self, of: TypeId) -> InputKind {
        match self.types.get(of.number) {
            Some(DraftType::Simple(kind)) => simple_kind(*kind),
            Some(DraftType::Enum(_)) => InputKind::Enum,
            Some(DraftType::Object(_)) => InputKind::Object,
            None => InputKind::None,
        }
    }

    #[tactic(auto, using(crate::proofs::FillingSteps::Tables::has_value_drafted))]
    fn has_value(&self, of: TypeId, name: &str) -> bool {
        match self.names(of) {
            Some(names) => names.has(name),
            None => false,
        }
    }

    #[tactic(auto, using(crate::proofs::FillingSteps::Tables::has_drafted))]
    fn has_field(&self, of: TypeId, name: &str) -> bool {
        match self.fields(of) {
            Some(fields) => fields.has(name),
            None => false,
        }
    }

    #[tactic(auto, using(crate::proofs::FillingSteps::Tables::count_drafted))]
    fn field_count(&self, of: TypeId) -> usize {
        match self.fields(of) {
            Some(fields) => fields.items().len(),
            None => 0,
        }
    }

    #[tactic(auto, using(crate::proofs::FillingSteps::Tables::at_place))]
    fn field(&self, of: TypeId, at: usize) -> Option<InputField<'_>> {
        match self.fields(of) {
            Some(fields) => field_at(fields.items(), &self.values, of, at),
            None => None,
        }
    }
}

impl<'a> FilledTypes<'a> {
    /// The fields of an input object.
    #[tactic(auto, using(crate::proofs::FillingSteps::Tables::no_fields))]
    fn fields(&self, of: TypeId) -> Option<&Indexed<DraftField<'a>>>
        ensures { fields_of (filled_forms self.now of.number) ≡ table_fields (table_of self.now.values of.number) 0 (listed (option_map (λ fields. map field_draft fields.now.items.items) result)) }
    {
        match self.types.get(of.number) {
            Some(DraftType::Object(fields)) => Some(fields),
            Some(DraftType::Simple(_)) => None,
            Some(DraftType::Enum(_)) => None,
            None => None,
        }
    }

    /// The names of an enum's values.
    #[tactic(auto, using(crate::proofs::FillingSteps::Tables::no_names))]
    fn names(&self, of: TypeId) -> Option<&Indexed<&'a Text>>
        ensures { names_of (filled_forms self.now of.number) ≡ listed (option_map (λ names. map (λ n. n.now) names.now.items.items) result) }
    {
        match self.types.get(of.number) {
            Some(DraftType::Enum(names)) => Some(names),
            Some(DraftType::Simple(_)) => None,
            Some(DraftType::Object(_)) => None,
            None => None,
        }
    }
}

/// The kind of a scalar, or none.
fn simple_kind(kind: InputKind) -> InputKind
    ensures { IsOfKind result (scalar_form_of kind) }
{
    match kind {
        InputKind::Int => InputKind::Int,
        InputKind::String => InputKind::String,
        InputKind::Boolean => InputKind::Boolean,
        InputKind::Id => InputKind::Id,
        InputKind::Float => InputKind::Float,
        InputKind::Custom => InputKind::Custom,
        InputKind::Lax => InputKind::Lax,
        InputKind::Enum => InputKind::None,
        InputKind::Object => InputKind::None,
        InputKind::None => InputKind::None,
    }
}

/// A field beside the values of defaults.
fn field_at<'b>(
    fields: &'b [DraftField<'_>],
    values: &'b BTreeMap<(usize, usize), Coerced>,
    of: TypeId,
    at: usize,
) -> Option<InputField<'b>>
    ensures { option_map field_seen result ≡ option_map (λ f. table_field (table_of values.now of.number at) (field_draft f)) (slice_get fields.now at) }
{
    match fields.get(at) {
        Some(field) => Some(InputField {
            name: field.name,
            shape: &field.shape,
            absence: absence(field.default, &field.shape, values.get(&(of.number, at))),
        }),
        None => None,
    }
}

/// What a field is without a value, beside the value of its default.
fn absence<'b>(literal: Option<&Value>, shape: &Shape, value: Option<&'b Coerced>) -> Absence<'b>
    ensures { absence_seen result ≡ table_absence (literal_seen literal.entry) (option_map (λ v. coerced_tree v.now) value.entry) (shape_tree shape.now) }
{
    match literal {
        None => no_default(shape),
        Some(_) => match value {
            Some(value) => Absence::Default(value),
            None => Absence::Required,
        },
    }
}

/// What a field without a default is without a value.
pub fn no_default(shape: &Shape) -> Absence<'static>
    ensures { absence_seen result ≡ absence_of (shape_tree shape.now) }
{
    if is_nullable(shape) {
        Absence::Nothing
    } else {
        Absence::Required
    }
}
