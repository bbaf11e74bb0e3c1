//! The schema of schemas, built of its text and tested.

ghost use Rattle.std.specs.Prelude.{◌≡◌, IfOk, OnOk, true};
ghost use Rattle.schema_reader.specs.Trees.{schema_trees};
ghost use Rattle.schema_reader.specs.SchemaAnswers.{HasSchema};
ghost use Rattle.schema_model.specs.SchemaViews.{schema_data};
ghost use Rattle.cost_directives.specs.WeightViews.{weights_data};
ghost use Rattle.cost_directives.specs.Weights.{weights_of};
ghost use Rattle.schema_facts.specs.MetaText.{meta_text};
ghost use Rattle.meta_schema.specs.MetaTests.{is_meta};
ghost use Rattle.meta_schema.specs.MetaSchemas.{IsOfMetaText, IsMetaSchema};

use crate::schema::MetaSchema;
use crate::testing::is_meta;
use cost_directives::Weights;
use schema_facts::meta_text;
use schema_model::{Schema, build_meta};
use schema_reader::{SchemaText, read_schema_text};
use std::alloc::{AllocError, Global};

// The text is a schema text, whatever the name of its type of queries is.
fn read_meta(alloc: Global, query: &str) -> Result<SchemaText, AllocError>
    ensures { IfOk result (λ s. HasSchema (meta_text query.now) (schema_trees s)) }
{
    let text = meta_text(alloc, query)?;
    match read_schema_text(alloc, text.as_str()) {
        Ok(read) => Ok(read),
        Err(_) => Err(AllocError),
    }
}

// Its text has no fault.
fn meta_schema(alloc: Global, query: &str) -> Result<Schema, AllocError>
    ensures { IfOk result (λ s. IsOfMetaText query.now s) }
{
    let text = read_meta(alloc, query)?;
    match build_meta(alloc, &text) {
        Ok(schema) => Ok(schema),
        Err(_) => Err(AllocError),
    }
}

// No weight and no size is written in it.
fn meta_weights(alloc: Global, schema: &Schema) -> Result<Weights, AllocError>
    ensures { IfOk result (λ w. weights_data w ≡ weights_of (schema_data schema.now) 1) }
{
    match Weights::build(alloc, schema, 1) {
        Ok(weights) => Ok(weights),
        Err(_) => Err(AllocError),
    }
}

// It is the schema of schemas.
fn tested(query: &str, schema: &Schema, weights: &Weights) -> Result<(), AllocError>
    ensures { OnOk result (is_meta query.now (schema_data schema.now) (weights_data weights.now) ≡ true) }
{
    if is_meta(query, schema, weights) {
        Ok(())
    } else {
        Err(AllocError)
    }
}

impl MetaSchema {
    /// The schema of schemas whose type of queries has this name. It asks for a name. It fails for want of memory alone, since its text
    /// has no fault and says what is tested.
    pub fn make(alloc: Global, query: &str) -> Result<MetaSchema, AllocError>
        ensures { IfOk result (λ m. IsMetaSchema query.now m) }
    {
        let schema = meta_schema(alloc, query)?;
        let weights = meta_weights(alloc, &schema)?;
        tested(query, &schema, &weights)?;
        Ok(MetaSchema { schema, weights })
    }
}
