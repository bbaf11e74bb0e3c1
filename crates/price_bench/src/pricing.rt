//! Pricing an operation again and again.

ghost use Rattle.std.specs.Prelude.{◌≡◌, ◌++◌, ◌∷◌, List, [], IfOk, Ok};
ghost use Rattle.cost_num.specs.CostText.{cost_text};
ghost use Rattle.schema_reader.specs.Schemas.{DefinitionTree};
ghost use Rattle.schema_model.specs.Faults.{SchemaBuilds};
ghost use Rattle.schema_model.specs.SchemaViews.{schema_data};
ghost use Rattle.cost_directives.specs.Weights.{weights_of};
ghost use Rattle.cost_directives.specs.WeightViews.{weights_data};
ghost use Rattle.static_cost.specs.CostBound.{IsWithin};
ghost use Rattle.acceptance.specs.Requests.{request_data, IsOfSchema};

use acceptance::{Request, accept, read};
use cost_directives::Weights;
use cost_num::{Cost, cost_bytes};
use counted_work::Work;
use document_reader::Document;
use plan_model::laws::built_schemas_can_be_filled;
use schema_model::Schema;
use schema_reader::read_schema_text;
use serde_json::Value;
use std::alloc::{AllocError, Global};

/// The size of lists that declare none.
const UNDECLARED: u32 = 10;

fn schema_in(alloc: Global, text: &str) -> Result<Schema, &'static str>
    ensures { IfOk result (λ schema. (text : List DefinitionTree) × SchemaBuilds text (Ok schema)) }
{
    let Ok(text) = read_schema_text(alloc, text) else {
        return Err("the schema file is no schema text");
    };
    match Schema::build(alloc, &text) {
        Ok(schema) => Ok(schema),
        Err(_) => Err("the schema doesn't pass a test"),
    }
}

fn weights_in(alloc: Global, schema: &Schema) -> Result<Weights, &'static str>
    ensures { IfOk result (λ weights. weights_data weights ≡ weights_of (schema_data schema.now) UNDECLARED) }
{
    match Weights::build(alloc, schema, UNDECLARED) {
        Ok(weights) => Ok(weights),
        Err(_) => Err("the cost directives don't pass a test"),
    }
}

fn document_in(alloc: Global, text: &str, floats: bool) -> Result<Document, &'static str> {
    match read(alloc, text, floats) {
        Ok(document) => Ok(document),
        Err(_) => Err("the document file is no document"),
    }
}

fn price(alloc: Global, request: &Request) -> Result<Cost, &'static str>
    requires { IsOfSchema (request_data request.now) }
    ensures { IfOk result IsWithin }
{
    match accept(alloc, request) {
        Ok(accepted) => Ok(accepted.bound),
        Err(_) => Err("the operation is refused"),
    }
}

/// What an operation costs at most, priced so many times and at least once; or what stands in the way.
pub fn priced(alloc: Global, schema: &str, document: &str, times: u64) -> Result<Cost, &'static str>
    ensures { IfOk result IsWithin }
{
    built_schemas_can_be_filled();
    let schema = schema_in(alloc, schema)?;
    let weights = weights_in(alloc, &schema)?;
    let document = document_in(alloc, document, schema.has_floats())?;
    let request = Request {
        schema: &schema,
        weights: &weights,
        document: &document,
        name: None,
        given: &Value::Null,
        work: Work::free(),
    };
    let mut bound = price(alloc, &request)?;
    'again: for _ in 1..times {
        bound = price(alloc, &request)?;
    }
    Ok(bound)
}

/// The line of a cost.
pub fn line_of(alloc: Global, cost: Cost) -> Result<Vec<u8>, AllocError>
    requires { IsWithin cost }
    ensures { IfOk result (λ line. line.items ≡ cost_text cost ++ (10 ∷ [])) }
{
    let mut buffer = [0u8; 48];
    let length = cost_bytes(cost, &mut buffer);
    let mut line = Vec::from_slice(alloc, &buffer[..length])?;
    line.push(b'\n')?;
    Ok(line)
}
