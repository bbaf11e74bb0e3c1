//! The schema of schemas.

ghost use Rattle.std.specs.Prelude.{◌≡◌, true};
ghost use Rattle.schema_model.specs.SchemaViews.{schema_data};
ghost use Rattle.cost_directives.specs.WeightViews.{weights_data};
ghost use Rattle.meta_schema.specs.MetaTests.{is_meta};
ghost use Rattle.meta_schema.specs.TestedSchemas.{name_of_queries, FindsItsFields, HasFreeArguments, finds-prop, free-prop};

use cost_directives::Weights;
use schema_model::Schema;

/// The schema of schemas, which has passed the test, and what its fields weigh.
#[derive(Drop)]
pub struct MetaSchema {
    pub schema: Schema,
    pub weights: Weights,
    ghost tested: { is_meta (name_of_queries (schema_data schema)) (schema_data schema) (weights_data weights) ≡ true },
    ghost finds: { FindsItsFields (schema_data schema) } by { finds-prop (schema_data schema) },
    ghost free: { HasFreeArguments (schema_data schema) (weights_data weights) } by { free-prop (schema_data schema) (weights_data weights) },
}
