//! What holds of the checks of all schema files. These functions do nothing: their contracts are the laws.

ghost use Rattle.std.specs.Prelude.{◌≡◌, ℕ, List};
ghost use Rattle.schema_model.specs.declared.schema.Schema.{Schema};
ghost use Rattle.schema_model.specs.SchemaViews.{schema_data};
ghost use Rattle.command_outcomes.specs.declared.checked.SchemaRefusal.{SchemaRefusal};
ghost use Rattle.command_outcomes.specs.Check.{HoldsChecked, HoldsWeighed, IsUnchecked};

use schema_model::{
    a_text_has_one_fault, a_text_has_one_schema, a_text_with_a_schema_has_no_fault,
};
use schema_reader::{a_text_is_a_schema_or_has_one_fault, a_text_is_one_schema};

/// A schema file that holds a checked schema isn't refused, and holds just one. It is refused in one way at most.
pub fn a_schema_file_has_one_check()
    ensures not_both { (bytes : List ℕ) (schema : Schema) (refusal : SchemaRefusal) → HoldsWeighed bytes schema → IsUnchecked bytes refusal → ⊥ }
    ensures one_refusal { (bytes : List ℕ) (refusal other : SchemaRefusal) → IsUnchecked bytes refusal → IsUnchecked bytes other → refusal ≡ other }
    ensures one_schema { (bytes : List ℕ) (schema other : Schema) → HoldsChecked bytes schema → HoldsChecked bytes other → schema_data schema ≡ schema_data other }
{
    a_text_is_one_schema();
    a_text_is_a_schema_or_has_one_fault();
    a_text_with_a_schema_has_no_fault();
    a_text_has_one_fault();
    a_text_has_one_schema();
}
