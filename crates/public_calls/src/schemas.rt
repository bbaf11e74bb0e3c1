//! A schema of schemas, which no command builds.

use schema_model::{Schema, SchemaFault, build_meta};
use schema_reader::read_schema_text;
use std::test::Fail;

const META: &str =
    "type Query { __schema: __Schema! } type __Schema { types: [__Type!]! } type __Type { name: String }";

#[test]
fn a_schema_of_schemas_is_built(rt: HostRuntime) -> Result<(), Fail> {
    let alloc = rt.alloc();
    let text = read_schema_text(alloc, META)?;
    let schema = build_meta(alloc, &text)?;
    assert!(rt; schema.counts() == (3, 3));
    assert!(rt; schema.find("__Type") == Some(schema.number_named("__Type")));
    let refused = Schema::build(alloc, &text);
    assert!(rt; matches!(&refused, Err(SchemaFault::Reserved { .. })));
    Ok(())
}
