//! What the definitions of this crate say by themselves. These functions do nothing: their contracts are the laws.

ghost use Rattle.std.specs.Prelude.{◌≡◌, ◌<◌, ◌≤◌, ℕ, List, Option, None, Result, Ok, length};
ghost use Rattle.cost_num.specs.declared.weights.WeightFault.{WeightFault};
ghost use Rattle.cost_num.specs.Amount.{Reads};
ghost use Rattle.schema_reader.specs.Schemas.{DefinitionTree};
ghost use Rattle.schema_model.specs.SchemaData.{SchemaData, field_at};
ghost use Rattle.schema_model.specs.declared.schema.Schema.{Schema};
ghost use Rattle.schema_model.specs.Arguments.{ArgData};
ghost use Rattle.schema_model.specs.Faults.{SchemaBuilds};
ghost use Rattle.schema_model.specs.SchemaViews.{schema_data};
ghost use Rattle.cost_directives.specs.declared.sizes.Size.{Size};
ghost use Rattle.cost_directives.specs.declared.sizes.Size.TheVariants.{Any};
ghost use Rattle.cost_directives.specs.DirectiveFaults.{first_directive_fault};
ghost use Rattle.cost_directives.specs.Fitting.{SizesFit};
ghost use Rattle.cost_directives.specs.FreeLists.{HoldsFreeLeaves};
ghost use Rattle.cost_directives.specs.Readings.{reading};
ghost use Rattle.cost_directives.specs.SizeSources.{size_told, size_source_in};
ghost use Rattle.cost_directives.specs.Weights.{WeightsData, weights_of, type_weight_at, field_weight_at, no_type_weight, type_in, field_in, declared_size_in};

use cost_num::GREATEST_WEIGHT;

/// The reading of a text as a weight is a reading of it, and the only one.
pub fn weights_are_read_once()
    ensures reads { (text : List ℕ) → Reads GREATEST_WEIGHT text (reading text) }
    ensures only { (text : List ℕ) (other : Result ℕ WeightFault) → Reads GREATEST_WEIGHT text other → other ≡ reading text }
{}

/// What is looked up in the weights of a schema is what the rules give for its types and fields. The built-in scalars that
/// the text doesn't define weigh nothing.
pub fn look_ups_answer_by_the_rules()
    ensures types { (s : SchemaData) (undeclared n : ℕ) → n < s.defined → type_in (weights_of s undeclared) n ≡ type_weight_at s n }
    ensures other_types { (s : SchemaData) (undeclared n : ℕ) → s.defined ≤ n → type_in (weights_of s undeclared) n ≡ no_type_weight }
    ensures fields { (s : SchemaData) (undeclared n : ℕ) → n < length s.fields → field_in (weights_of s undeclared) n ≡ field_weight_at s n }
{}

/// Only a list of leaves that weigh nothing may have any length.
pub fn lists_of_any_length_cost_nothing()
    ensures { (s : SchemaData) (undeclared n : ℕ) (args : List ArgData) (handed : Option ℕ) → declared_size_in (weights_of s undeclared) n args handed ≡ Ok Any → HoldsFreeLeaves s (weights_of s undeclared) (field_at s n) }
{}

/// In a schema whose directives have no fault each `@listSize` fits the field that has it, also where it is taken from an
/// interface.
pub fn sizes_fit_their_fields()
    ensures { (text : List DefinitionTree) (schema : Schema) → SchemaBuilds text (Ok schema) → first_directive_fault (schema_data schema) ≡ None → SizesFit (schema_data schema) }
{}

/// Where a field has a declared size, its source tells that size.
pub fn sources_tell_sizes()
    ensures { (w : WeightsData) (n : ℕ) (args : List ArgData) (handed : Option ℕ) (size : Size) → declared_size_in w n args handed ≡ Ok size → size_told (size_source_in w n args handed) ≡ size }
{}
