//! What holds of the schemas and the faults of all texts. These functions do nothing: their contracts are the laws.

ghost use Rattle.std.specs.Prelude.{◌≡◌, ◌⊎◌, ◌↔◌, ◌<◌, ℕ, nat_eq, true, length, get_or, List, None, Ok, Err};
ghost use Rattle.std.specs.List.{list_any};
ghost use Rattle.input_values.specs.defaults.Drafts.{AreFilled};
ghost use Rattle.schema_reader.specs.Schemas.{DefinitionTree};
ghost use Rattle.schema_rules.specs.Reserved.{begins_reserved};
ghost use Rattle.schema_model.specs.declared.fault.SchemaFault.{SchemaFault};
ghost use Rattle.schema_model.specs.declared.fault.SchemaFault.TheVariants.{Memory};
ghost use Rattle.schema_model.specs.declared.schema.Schema.{Schema};
ghost use Rattle.schema_model.specs.Faults.{SchemaBuilds, SaysSchema, HasTestFault};
ghost use Rattle.schema_model.specs.SchemaData.{SchemaData, type_named, possible, IsPossibleType};
ghost use Rattle.schema_model.specs.SchemaViews.{schema_data};
ghost use Rattle.schema_model.specs.Defaults.{text_asks};
ghost use Rattle.schema_model.specs.InputForms.{schema_forms};

/// Each text has a schema or a fault, and not both: where no other test refuses it, its defaults can be filled. A schema that
/// is built is that of its text. Want of memory is no fault of a text.
pub fn a_text_has_a_schema_or_a_fault()
    ensures either { (text : List DefinitionTree) → ((s : SchemaData) × SaysSchema text s) ⊎ ((fault : SchemaFault) × HasTestFault text fault) }
    ensures not_both { (text : List DefinitionTree) (s : SchemaData) (fault : SchemaFault) → SaysSchema text s → HasTestFault text fault → ⊥ }
    ensures schemas { (text : List DefinitionTree) (s : Schema) → SchemaBuilds text (Ok s) → SaysSchema text (schema_data s) }
{}

/// A text that has a schema has no fault; only want of memory may be told of it.
pub fn a_text_with_a_schema_has_no_fault()
    ensures { (text : List DefinitionTree) (s : Schema) (fault : SchemaFault) → SchemaBuilds text (Ok s) → SchemaBuilds text (Err fault) → fault ≡ Memory }
{}

/// A text has one fault, beside which only want of memory may be told of it.
pub fn a_text_has_one_fault()
    ensures { (text : List DefinitionTree) (one other : SchemaFault) → SchemaBuilds text (Err one) → SchemaBuilds text (Err other) → (one ≡ Memory) ⊎ ((other ≡ Memory) ⊎ (one ≡ other)) }
{}

/// A text has one schema.
pub fn a_text_has_one_schema()
    ensures { (text : List DefinitionTree) (one other : Schema) → SchemaBuilds text (Ok one) → SchemaBuilds text (Ok other) → schema_data one ≡ schema_data other }
{}

/// A schema that a text says has no type whose name begins with two underscores (GraphQL October 2021, 4), so it isn't a schema
/// of schemas.
pub fn no_type_has_a_reserved_name()
    ensures { (text : List DefinitionTree) (s : Schema) (name : List ℕ) → SchemaBuilds text (Ok s) → begins_reserved name ≡ true → type_named (schema_data s) name ≡ None }
{}

/// The types of a schema ask what those of its text ask, and each default is what its literal comes to beside these types.
pub fn a_schema_fills_its_own_defaults()
    ensures { (text : List DefinitionTree) (s : Schema) → SchemaBuilds text (Ok s) → AreFilled (text_asks text) (schema_forms s) }
{}

/// An object type is possible where a condition stands exactly where the condition applies to it (GraphQL October 2021,
/// 5.5.2.3). Possible types stand in the order of the schema, each once.
pub fn possible_types_are_those_to_which_a_condition_applies()
    ensures possible { (s : SchemaData) (c o : ℕ) → (list_any (nat_eq o) (possible s c) ≡ true) ↔ IsPossibleType s c o }
    ensures in_order { (s : SchemaData) (c i j : ℕ) → i < j → j < length (possible s c) → get_or (possible s c) i 0 < get_or (possible s c) j 0 }
{}
