//! What is looked up in a checked schema. The look-ups take no memory. They ask for numbers of this schema; at
//! other numbers they answer as at a union without members, or a field, that has no name.

ghost use Rattle.std.specs.Prelude.{◌≡◌, ◌<◌, ◌↔◌, map, option_map, length, get_or, nat_eq, IfSome, IsTrue};
ghost use Rattle.std.specs.List.{list_any};
ghost use Rattle.gql_base.specs.names.Names.{first_of_name, has_name};
ghost use Rattle.input_values.specs.inputs.Shapes.{shape_tree};
ghost use Rattle.input_values.specs.inputs.Definitions.{input_data};
ghost use Rattle.schema_model.specs.SchemaData.{type_at, field_at, type_named, field_named, input_name, argument_named, input_field_named, possible, applies, root_of, same_text, number_at, takes_float, has_floats};
ghost use Rattle.schema_model.specs.Drafts.{or_past};
ghost use Rattle.schema_model.specs.Numbers.{type_number};
ghost use Rattle.schema_model.specs.Entries.{type_data, field_data, field_number, maybe_text, maybe_size, maybe_input};
ghost use Rattle.schema_model.specs.SchemaViews.{schema_data};

use crate::entries::{FieldEntry, FieldId, ListSize, TypeEntry};
use crate::marks::{TypeList, has_number};
use crate::schema::Schema;
use gql_base::{Hashed, Text};
use input_values::{InputDef, Shape, TypeId};
use schema_rules::Kind;

impl Schema {
    pub(crate) fn entry(&self, of: TypeId) -> &TypeEntry
        ensures { type_data result.now ≡ type_at (schema_data self.now) of.number }
    {
        match self.types.items().get(of.number) {
            Some(entry) => entry,
            None => &self.other_type,
        }
    }

    fn field_entry(&self, of: FieldId) -> &FieldEntry
        ensures { field_data result.now ≡ field_at (schema_data self.now) of.number }
    {
        match self.fields.get(of.number) {
            Some(entry) => entry,
            None => &self.other_field,
        }
    }

    /// The type of this name.
    pub fn find(&self, name: &str) -> Option<TypeId>
        ensures { option_map type_number result ≡ type_named (schema_data self.now) name.now }
    {
        match self.types.position(name) {
            Some(number) => Some(TypeId { number }),
            None => None,
        }
    }

    /// Whether the scalar Float may be used: the text defines it with `@floats`.
    pub fn takes_float(&self) -> bool
        ensures { result ≡ takes_float (schema_data self.now) }
    {
        match self.find("Float") {
            Some(of) => self.is_lax(of),
            None => false,
        }
    }

    /// Whether a type, or what stands at other numbers, is a scalar that may hold numbers that aren't whole.
    pub fn has_floats(&self) -> bool
        ensures { result ≡ has_floats (schema_data self.now) }
    {
        self.floats || self.other_type.lax
    }

    /// The number of the type of this name, or the number of all types where none has it.
    pub fn number_named(&self, name: &str) -> TypeId
        ensures { result.number ≡ or_past (schema_data self.now).types (type_named (schema_data self.now) name.now) }
    {
        match self.find(name) {
            Some(of) => of,
            None => TypeId {
                number: self.types.items().len(),
            },
        }
    }

    /// The field of this name.
    pub fn field(&self, of: TypeId, name: &str) -> Option<FieldId>
        ensures { option_map field_number result ≡ field_named (schema_data self.now) of.number name.now }
    {
        let entry = self.entry(of);
        match entry.names.position(name) {
            Some(at) => Some(field_at_place(&entry.fields, at)),
            None => None,
        }
    }

    /// The argument of this name.
    pub fn argument(&self, of: FieldId, name: &str) -> Option<&InputDef>
        ensures { maybe_input result ≡ argument_named (schema_data self.now) of.number name.now }
    {
        input_named(&self.field_entry(of).arguments, name)
    }

    /// The field of this name of an input object type.
    pub fn input_field(&self, of: TypeId, name: &str) -> Option<&InputDef>
        ensures { maybe_input result ≡ input_field_named (schema_data self.now) of.number name.now }
    {
        input_named(&self.entry(of).inputs, name)
    }

    /// The object types of a composite type, in the order of the schema.
    pub fn possible(&self, of: TypeId) -> &[TypeId]
        ensures { map type_number result.now ≡ possible (schema_data self.now) of.number }
    {
        match self.possible.get(of.number) {
            Some(possible) => &possible.numbers,
            None => &[],
        }
    }

    /// The object types of a condition, where the other is one of the schema: the condition applies to these alone.
    fn possible_beside(&self, condition: TypeId, object: TypeId) -> Option<&TypeList>
        ensures { IfSome result (λ l. list_any (nat_eq object.number) (map type_number l.now.numbers.items) ≡ applies (schema_data self.now) condition.number object.number) }
    {
        match self.types.items().get(object.number) {
            Some(entry) => {
                if entry.kind.is_object() {
                    self.possible.get(condition.number)
                } else {
                    None
                }
            }
            None => None,
        }
    }

    /// Whether a condition applies to a type, by what the two say.
    fn applies_by_lists(&self, condition: TypeId, object: TypeId) -> bool
        ensures { result ≡ applies (schema_data self.now) condition.number object.number }
    {
        match self.kind(condition) {
            Kind::Object => condition.number == object.number,
            Kind::Interface => has_number(self.interfaces(object), condition.number),
            Kind::Union => has_number(&self.entry(condition).members, object.number),
            Kind::Scalar | Kind::Enum | Kind::Input => false,
        }
    }

    /// The same, looked for among the object types of the condition, where that tells it.
    fn applies_by_marks(&self, condition: TypeId, object: TypeId) -> bool
        ensures { result ≡ applies (schema_data self.now) condition.number object.number }
    {
        match self.possible_beside(condition, object) {
            Some(possible) => possible.has(object.number),
            None => self.applies_by_lists(condition, object),
        }
    }

    /// Whether a condition applies to an object type: it is that type, an interface that it implements, or a union of which
    /// it is a member.
    pub fn applies(&self, condition: TypeId, object: TypeId) -> bool
        ensures { result ≡ applies (schema_data self.now) condition.number object.number }
    {
        match self.kind(condition) {
            Kind::Object => condition.number == object.number,
            _ => self.applies_by_marks(condition, object),
        }
    }

    /// The type of the operations of a kind: of mutations, or of queries.
    pub fn root(&self, mutation: bool) -> Option<TypeId>
        ensures { option_map type_number result ≡ root_of (schema_data self.now) mutation }
    {
        if mutation {
            self.mutation
        } else {
            Some(self.query)
        }
    }

    /// The type of subscriptions.
    pub fn subscription(&self) -> Option<TypeId>
        ensures { option_map type_number result ≡ (schema_data self.now).subscription }
    {
        self.subscription
    }

    /// The numbers of defined types, and of fields of object and interface types.
    pub fn counts(&self) -> (usize, usize)
        ensures types { result.0 ≡ (schema_data self.now).defined }
        ensures fields { result.1 ≡ length (schema_data self.now).fields }
    {
        (self.defined, self.fields.len())
    }

    /// Whether a number is that of a type.
    pub fn has_type(&self, of: TypeId) -> bool
        ensures { IsTrue result ↔ (of.number < length (schema_data self.now).types) }
    {
        of.number < self.types.items().len()
    }

    pub fn kind(&self, of: TypeId) -> Kind
        ensures { result ≡ (type_at (schema_data self.now) of.number).kind }
    {
        self.entry(of).kind
    }

    pub fn type_name(&self, of: TypeId) -> &Text
        ensures { result.now ≡ (type_at (schema_data self.now) of.number).name }
    {
        &self.entry(of).name
    }

    /// The fields of an object or interface type, in the order of the text.
    pub fn fields(&self, of: TypeId) -> &[FieldId]
        ensures { map field_number result.now ≡ (type_at (schema_data self.now) of.number).fields }
    {
        &self.entry(of).fields
    }

    /// The interfaces that a type names.
    pub fn interfaces(&self, of: TypeId) -> &[TypeId]
        ensures { map type_number result.now ≡ (type_at (schema_data self.now) of.number).interfaces }
    {
        &self.entry(of).interfaces
    }

    /// The types that a union names.
    pub fn members(&self, of: TypeId) -> &[TypeId]
        ensures { map type_number result.now ≡ (type_at (schema_data self.now) of.number).members }
    {
        &self.entry(of).members
    }

    pub fn enum_values(&self, of: TypeId) -> &[Text]
        ensures { result.now ≡ (type_at (schema_data self.now) of.number).values }
    {
        self.entry(of).values.items()
    }

    /// The fields of an input object type, in the order of the text.
    pub fn input_fields(&self, of: TypeId) -> &[InputDef]
        ensures { map input_data result.now ≡ (type_at (schema_data self.now) of.number).inputs }
    {
        self.entry(of).inputs.items()
    }

    /// Whether a type is a scalar that may hold numbers that aren't whole, by its `@floats`.
    pub fn is_lax(&self, of: TypeId) -> bool
        ensures { result ≡ (type_at (schema_data self.now) of.number).lax }
    {
        self.entry(of).lax
    }

    /// The text of the weight of a type's own `@cost`.
    pub fn type_cost(&self, of: TypeId) -> Option<&Text>
        ensures { maybe_text result ≡ (type_at (schema_data self.now) of.number).cost }
    {
        self.entry(of).cost.as_ref()
    }

    pub fn field_name(&self, of: FieldId) -> &Text
        ensures { result.now ≡ (field_at (schema_data self.now) of.number).name }
    {
        &self.field_entry(of).name
    }

    /// The type that has the field.
    pub fn owner(&self, of: FieldId) -> TypeId
        ensures { result.number ≡ (field_at (schema_data self.now) of.number).owner }
    {
        self.field_entry(of).owner
    }

    pub fn field_shape(&self, of: FieldId) -> &Shape
        ensures { shape_tree result.now ≡ (field_at (schema_data self.now) of.number).shape }
    {
        &self.field_entry(of).shape
    }

    pub fn arguments(&self, of: FieldId) -> &[InputDef]
        ensures { map input_data result.now ≡ (field_at (schema_data self.now) of.number).arguments }
    {
        self.field_entry(of).arguments.items()
    }

    /// The text of the weight of a field's own `@cost`.
    pub fn field_cost(&self, of: FieldId) -> Option<&Text>
        ensures { maybe_text result ≡ (field_at (schema_data self.now) of.number).cost }
    {
        self.field_entry(of).cost.as_ref()
    }

    /// A field's own `@listSize`.
    pub fn list_size(&self, of: FieldId) -> Option<&ListSize>
        ensures { maybe_size result ≡ (field_at (schema_data self.now) of.number).size }
    {
        self.field_entry(of).size.as_ref()
    }

    /// Whether the schema defines a directive of this name.
    pub fn has_directive(&self, name: &str) -> bool
        ensures { result ≡ has_name same_text (schema_data self.now).directives name.now }
    {
        self.directives.has(name)
    }
}

fn input_named<'a>(inputs: &'a Hashed<InputDef>, name: &str) -> Option<&'a InputDef>
    ensures { maybe_input result ≡ first_of_name input_name (map input_data inputs.now.items.items) name.now }
{
    inputs.first_named(name)
}

fn field_at_place(fields: &[FieldId], at: usize) -> FieldId
    ensures { result.number ≡ get_or (map field_number fields.now) at 0 }
{
    match fields.get(at) {
        Some(field) => *field,
        None => FieldId { number: 0 },
    }
}
