//! What holds of all schema texts and their faults. These functions do nothing: their contracts are the laws.

ghost use Rattle.std.specs.Prelude.{◌≡◌, ◌⊎◌, ℕ, List};
ghost use Rattle.gql_base.specs.ways.Grammar.{Nested, plain};
ghost use Rattle.schema_reader.specs.declared.schema_text.SchemaTextFault.{SchemaTextFault};
ghost use Rattle.schema_reader.specs.Schemas.{DefinitionTree, IsSchema};
ghost use Rattle.schema_reader.specs.SchemaAnswers.{HasSchema, HasSchemaFault};

/// No symbols are written as two schema texts, however deep they nest, and no text is two schema texts: their trees are
/// the same.
pub fn a_text_is_one_schema()
    ensures symbols { (trees others : List DefinitionTree) (ws vs : Nested) → IsSchema trees ws → IsSchema others vs → plain ws ≡ plain vs → trees ≡ others }
    ensures texts { (text : List ℕ) (trees others : List DefinitionTree) → HasSchema text trees → HasSchema text others → trees ≡ others }
{}

/// Each text is a schema text or has a fault, and not both. It has one fault at most, which is its first. Want of memory
/// is none.
pub fn a_text_is_a_schema_or_has_one_fault()
    ensures either { (text : List ℕ) → ((trees : List DefinitionTree) × HasSchema text trees) ⊎ ((fault : SchemaTextFault) × HasSchemaFault text fault) }
    ensures not_both { (text : List ℕ) (trees : List DefinitionTree) (fault : SchemaTextFault) → HasSchema text trees → HasSchemaFault text fault → ⊥ }
    ensures one_fault { (text : List ℕ) (fault other : SchemaTextFault) → HasSchemaFault text fault → HasSchemaFault text other → fault ≡ other }
{}
