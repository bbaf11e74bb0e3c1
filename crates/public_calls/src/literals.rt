//! What arguments cost as they are written, beside what they cost once they are built; and whether they are seen to come to the same.

use cost_directives::Weights;
use counted_work::Work;
use document_reader::{Definition, Field, Operation, Selection, read_document};
use literal_loads::{no_loads, weighing_of};
use schema_model::{FieldId, Schema};
use schema_reader::read_schema_text;
use serde_json::Value;
use std::alloc::Global;
use std::cell::Cell;
use std::test::Fail;
use variable_coercion::{Variables, coerce_arguments, coerce_variables};

const SCHEMA: &str =
    "directive @cost(weight: String!) on ARGUMENT_DEFINITION | INPUT_FIELD_DEFINITION
type Query { f(n: Int!, a: Int @cost(weight: \"2\"), i: I, l: [[J!]] @cost(weight: \"3\")): Int }
input I { x: Int = 3 @cost(weight: \"0.5\"), j: J = {}, js: [J!] = [{}, {y: 1}], must: Int! }
input J { y: Int @cost(weight: \"1.5\") }";

// Operations with the values of their variables, and what the arguments of their field cost, in millionths; nothing where one of them is
// refused.
const ROWS: &[(&str, &str, Option<u64>)] = &[
    ("{ f(n: 1) }", "{}", Some(0)),
    ("{ f(n: 1, a: 2) }", "{}", Some(2_000_000)),
    ("{ f(a: 2) }", "{}", None),
    ("{ f(n: null) }", "{}", None),
    ("{ f(n: 1, a: \"\") }", "{}", None),
    ("{ f(n: 1, i: {must: 1}) }", "{}", Some(6_000_000)),
    ("{ f(n: 1, i: {must: 1, js: []}) }", "{}", Some(2_500_000)),
    (
        "{ f(n: 1, i: {must: 1, j: null, js: {y: 5}, x: null}) }",
        "{}",
        Some(3_500_000),
    ),
    ("{ f(n: 1, i: {}) }", "{}", None),
    ("{ f(n: 1, i: {must: 1, z: 1}) }", "{}", None),
    ("{ f(n: 1, i: {must: 1, must: 1}) }", "{}", None),
    (
        "query($m: Int!) { f(n: $m, i: {must: $m}, l: {y: 2}) }",
        r#"{"m": 1}"#,
        Some(10_500_000),
    ),
    (
        "query($j: [J!], $v: Int) { f(n: 1, a: $v, l: [$j, null, [{y: 1}, {}], $j]) }",
        r#"{"j": [{"y": 1}, {}]}"#,
        Some(22_500_000),
    ),
    (
        "query($x: Int) { f(n: 1, i: {must: 1, x: $x, j: {y: $x}}) }",
        "{}",
        Some(6_000_000),
    ),
    (
        "query($j: [J!]!) { f(n: 1, l: [$j, $j], i: {must: 1, js: $j}) }",
        r#"{"j": [{}, {}, {}, {}, {}, {}, {}, {}, {}, {}, {}, {}, {}, {}, {}, {}, {}, {}, {}, {}, {}, {}, {}, {},
            {}, {}, {}, {}, {}, {}, {}, {}, {}, {}, {}, {}, {}, {}, {}, {}, {}, {}, {}, {}, {}, {}, {}, {},
            {}, {}, {}, {}, {}, {}, {}, {}, {}, {}, {}, {}, {}, {}, {}, {}, {}, {}, {}, {}, {}, {}, {}, {}]}"#,
        Some(506_500_000),
    ),
    (
        "query($x: Int) { f(n: 1, i: {must: $x}) }",
        r#"{"x": null}"#,
        None,
    ),
];

// Operations of two fields with the values of their variables, and whether the arguments of both are seen to come to the same.
const PAIRS: &[(&str, &str, bool)] = &[
    ("{ a: f(n: 1) b: f(n: 1) }", "{}", true),
    ("{ a: f(n: 1) b: f(n: 2) }", "{}", false),
    ("{ a: f(n: 1, a: 2) b: f(a: 2, n: 1) }", "{}", true),
    ("{ a: f(n: 1, a: 2) b: f(n: 1) }", "{}", false),
    (
        "{ a: f(n: 1, i: {must: 1, x: 2}) b: f(n: 1, i: {x: 2, must: 1}) }",
        "{}",
        true,
    ),
    (
        "{ a: f(n: 1, i: {must: 1, x: 3}) b: f(n: 1, i: {must: 1}) }",
        "{}",
        true,
    ),
    (
        "{ a: f(n: 1, i: {must: 1}) b: f(n: 1, i: {must: 1, x: 4}) }",
        "{}",
        false,
    ),
    (
        "{ a: f(n: 1, i: {must: 1}) b: f(n: 1, i: {must: 1, x: null}) }",
        "{}",
        false,
    ),
    (
        "{ a: f(n: 1, l: [[{y: 1}, {}]]) b: f(n: 1, l: [[{y: 1}, {}]]) }",
        "{}",
        true,
    ),
    (
        "{ a: f(n: 1, l: [[{y: 1}, {}]]) b: f(n: 1, l: [[{}, {y: 1}]]) }",
        "{}",
        false,
    ),
    (
        "query($v: Int) { a: f(n: 1, a: $v) b: f(n: 1) }",
        "{}",
        true,
    ),
    (
        "query($v: Int) { a: f(n: 1, a: $v) b: f(n: 1) }",
        r#"{"v": 2}"#,
        false,
    ),
    (
        "query($v: Int) { a: f(n: $v, a: 2) b: f(n: 2, a: $v) }",
        r#"{"v": 2}"#,
        true,
    ),
    (
        "query($v: Int) { a: f(n: $v) b: f(n: 2) }",
        r#"{"v": 3}"#,
        false,
    ),
    (
        "query($v: [J!]) { a: f(n: 1, l: [$v]) b: f(n: 1, l: [$v]) }",
        r#"{"v": [{}]}"#,
        true,
    ),
    (
        "query($v: Int) { a: f(n: $v, a: $v) b: f(a: $v, n: $v) }",
        r#"{"v": 2}"#,
        true,
    ),
    (
        "{ a: f(n: 1, l: {y: 1}) b: f(n: 1, l: [[{y: 1}]]) }",
        "{}",
        true,
    ),
    (
        "{ a: f(n: 1, l: {y: 1}) b: f(n: 1, l: [[{y: 2}]]) }",
        "{}",
        false,
    ),
    (
        "{ a: f(n: 1, i: {must: 1, js: [{}, {y: 1}]}) b: f(n: 1, i: {must: 1}) }",
        "{}",
        true,
    ),
    (
        "{ a: f(n: 1, i: {must: 1, js: [{y: 1}, {}]}) b: f(n: 1, i: {must: 1}) }",
        "{}",
        false,
    ),
    (
        "query($v: [J!]) { a: f(n: 1, l: [$v]) b: f(n: 1, l: [[{y: 1}, {}]]) }",
        r#"{"v": [{"y": 1}, {}]}"#,
        true,
    ),
];

// The cost as the arguments are written, and as they are built.
fn both_costs(
    alloc: Global,
    schema: &Schema,
    weights: &Weights,
    variables: &Variables,
    of: FieldId,
    field: &Field,
) -> Result<(Option<u64>, Option<u64>), Fail> {
    let written = field.arguments.as_slice();
    let mut loads = no_loads(alloc, weighing_of(schema, weights, variables, Work::free()));
    // The first time it may tell nothing, where little is written.
    let _ = loads.cost_of(alloc, of, written)?;
    let found = loads.cost_of(alloc, of, written)?;
    match coerce_arguments(alloc, Work::free(), schema, of, written, variables) {
        Ok(args) => Ok((found, Some(weights.argument_cost(of, &args)))),
        Err(_) => Ok((found, None)),
    }
}

// The operation of a document.
fn only_operation(definitions: &[Definition]) -> Option<&Operation> {
    match definitions.first() {
        Some(Definition::Op(operation)) => Some(operation),
        _ => None,
    }
}

// The field at a place of an operation.
fn field_at(operation: &Operation, at: usize) -> Option<&Field> {
    match operation.selections.get(at) {
        Some(Selection::Field(field)) => Some(field),
        _ => None,
    }
}

// Whether the arguments of the two fields of an operation are seen to come to the same.
fn are_same(
    alloc: Global,
    schema: &Schema,
    weights: &Weights,
    variables: &Variables,
    of: FieldId,
    operation: &Operation,
) -> Result<Option<bool>, Fail> {
    let mut loads = no_loads(alloc, weighing_of(schema, weights, variables, Work::free()));
    match (field_at(operation, 0), field_at(operation, 1)) {
        (Some(one), Some(other)) => {
            let others = other.arguments.as_slice();
            Ok(Some(loads.are_same(alloc, of, one.arguments.as_slice(), others)?))
        }
        _ => Ok(None),
    }
}

#[test]
fn arguments_cost_what_they_would_built(rt: HostRuntime) -> Result<(), Fail> {
    let alloc = rt.alloc();
    let schema = Schema::build(alloc, &read_schema_text(alloc, SCHEMA)?)?;
    let weights = Weights::build(alloc, &schema, 1)?;
    for (text, given, cost) in ROWS {
        let document = read_document(alloc, text, false)?;
        let given = Value::from_str(alloc, given)?;
        let found = only_operation(document.definitions.as_slice());
        let of = schema.field(schema.number_named("Query"), "f");
        assert!(rt; found.is_some() && of.is_some(), "{text}");
        if let (Some(operation), Some(of)) = (found, of) {
            let variables = coerce_variables(alloc, Work::free(), &schema, operation, &given)?;
            let field = field_at(operation, 0);
            assert!(rt; field.is_some(), "{text}");
            if let Some(field) = field {
                let costs = both_costs(alloc, &schema, &weights, &variables, of, field)?;
                assert!(rt; costs == (*cost, *cost), "{text}");
            }
        }
    }
    Ok(())
}

#[test]
fn arguments_are_seen_to_be_the_same(rt: HostRuntime) -> Result<(), Fail> {
    let alloc = rt.alloc();
    let schema = Schema::build(alloc, &read_schema_text(alloc, SCHEMA)?)?;
    let weights = Weights::build(alloc, &schema, 1)?;
    for (text, given, same) in PAIRS {
        let document = read_document(alloc, text, false)?;
        let given = Value::from_str(alloc, given)?;
        let found = only_operation(document.definitions.as_slice());
        let of = schema.field(schema.number_named("Query"), "f");
        assert!(rt; found.is_some() && of.is_some(), "{text}");
        if let (Some(operation), Some(of)) = (found, of) {
            let variables = coerce_variables(alloc, Work::free(), &schema, operation, &given)?;
            let seen = are_same(alloc, &schema, &weights, &variables, of, operation)?;
            assert!(rt; seen == Some(*same), "{text}");
        }
    }
    Ok(())
}

// Operations of two fields with the values of their variables, to whose costs or to whose comparison a part of the counted steps belongs.
const WORK: &[(&str, &str)] = &[
    (
        "{ a: f(n: 1, i: {must: 1, js: [{}, {y: 1}]}) b: f(i: {must: 1}, n: 1) }",
        "{}",
    ),
    (
        "query($v: [J!]) { a: f(n: 1, l: [$v]) b: f(n: 1, l: [[{y: 1}, {}]]) }",
        r#"{"v": [{"y": 1}, {}]}"#,
    ),
];

#[test]
fn what_is_weighed_and_compared_is_counted(rt: HostRuntime) -> Result<(), Fail> {
    let alloc = rt.alloc();
    let schema = Schema::build(alloc, &read_schema_text(alloc, SCHEMA)?)?;
    let weights = Weights::build(alloc, &schema, 1)?;
    for (text, given) in WORK {
        let document = read_document(alloc, text, false)?;
        let given = Value::from_str(alloc, given)?;
        let found = only_operation(document.definitions.as_slice());
        let of = schema.field(schema.number_named("Query"), "f");
        assert!(rt; found.is_some() && of.is_some(), "{text}");
        if let (Some(operation), Some(of)) = (found, of) {
            let variables = coerce_variables(alloc, Work::free(), &schema, operation, &given)?;
            let (one, other) = (field_at(operation, 0), field_at(operation, 1));
            if let (Some(one), Some(other)) = (one, other) {
                let left = Cell::new(1_000u64);
                let work = Work::counted(&left);
                let mut loads = no_loads(alloc, weighing_of(&schema, &weights, &variables, work));
                let written = one.arguments.as_slice();
                assert!(rt;
                    loads.are_same(alloc, of, written, other.arguments.as_slice())?,
                    "{text}"
                );
                let behind = left.get();
                assert!(rt; behind < 1_000, "{text}");
                assert!(rt; loads.cost_of(alloc, of, written)?.is_some(), "{text}");
                assert!(rt; left.get() < behind, "{text}");
                left.set(3);
                assert!(rt;
                    loads.cost_of(alloc, of, written).is_err() && work.is_spent(),
                    "{text}"
                );
            }
        }
    }
    Ok(())
}
