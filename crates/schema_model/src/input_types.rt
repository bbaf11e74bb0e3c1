//! What a schema's types ask of the values that are given for them.

ghost use Rattle.std.specs.Prelude.{◌≡◌, map, option_map, slice_get};
ghost use Rattle.input_values.specs.values.Coerced.{coerced_tree};
ghost use Rattle.input_values.specs.inputs.Shapes.{shape_tree};
ghost use Rattle.input_values.specs.inputs.Definitions.{input_data};
ghost use Rattle.input_values.specs.coercion.Forms.{absence_at, field_form, fields_of};
ghost use Rattle.input_values.specs.coercion.Kinds.{absence_seen, field_seen};
ghost use Rattle.schema_model.specs.InputForms.{schema_forms};

use crate::schema::Schema;
use input_values::{
    Absence, Coerced, InputDef, InputField, InputKind, InputTypes, Shape, TypeId, no_default,
    scalar_kind,
};
use schema_rules::Kind;

impl InputTypes for Schema {
    ghost use Rattle.schema_model.specs.InputForms.{schema_forms};

    ghost forms = { schema_forms };

    fn kind(&self, of: TypeId) -> InputKind {
        let entry = self.entry(of);
        match entry.kind {
            Kind::Scalar => scalar_kind(entry.lax, entry.name.as_str()),
            Kind::Enum => InputKind::Enum,
            Kind::Input => InputKind::Object,
            Kind::Object | Kind::Interface | Kind::Union => InputKind::None,
        }
    }

    #[tactic(auto, using(crate::proofs::FormSteps::names_of_forms))]
    fn has_value(&self, of: TypeId, name: &str) -> bool {
        let entry = self.entry(of);
        match entry.kind {
            Kind::Enum => entry.values.has(name),
            Kind::Scalar | Kind::Input | Kind::Object | Kind::Interface | Kind::Union => false,
        }
    }

    #[tactic(auto, using(crate::proofs::FormSteps::fields_of_forms))]
    fn has_field(&self, of: TypeId, name: &str) -> bool {
        let entry = self.entry(of);
        match entry.kind {
            Kind::Input => entry.inputs.has(name),
            Kind::Scalar | Kind::Enum | Kind::Object | Kind::Interface | Kind::Union => false,
        }
    }

    #[tactic(auto, using(crate::proofs::FormSteps::fields_of_forms))]
    fn field_count(&self, of: TypeId) -> usize {
        self.fields_asked(of).len()
    }

    #[tactic(auto, using(crate::proofs::FormSteps::fields_of_forms))]
    fn field(&self, of: TypeId, at: usize) -> Option<InputField<'_>> {
        field_at(self.fields_asked(of), at)
    }
}

impl Schema {
    // The fields of an input object; none of other types.
    #[tactic(auto, using(crate::proofs::FormSteps::fields_of_forms))]
    fn fields_asked(&self, of: TypeId) -> &[InputDef]
        ensures { fields_of (schema_forms self.now of.number) ≡ map field_form (map input_data result.now) }
    {
        let entry = self.entry(of);
        match entry.kind {
            Kind::Input => entry.inputs.items(),
            Kind::Scalar | Kind::Enum | Kind::Object | Kind::Interface | Kind::Union => &[],
        }
    }
}

fn field_at(inputs: &[InputDef], at: usize) -> Option<InputField<'_>>
    ensures { option_map field_seen result ≡ option_map (λ i. field_form (input_data i)) (slice_get inputs.now at) }
{
    match inputs.get(at) {
        Some(input) => Some(field_asked(input)),
        None => None,
    }
}

fn field_asked(input: &InputDef) -> InputField<'_>
    ensures { field_seen result ≡ field_form (input_data input.now) }
{
    InputField {
        name: input.name.as_str(),
        shape: &input.shape,
        absence: absence(&input.default, &input.shape),
    }
}

fn absence<'a>(default: &'a Option<Coerced>, shape: &Shape) -> Absence<'a>
    ensures { absence_seen result ≡ absence_at (option_map coerced_tree default.now) (shape_tree shape.now) }
{
    match default {
        Some(value) => Absence::Default(value),
        None => no_default(shape),
    }
}
