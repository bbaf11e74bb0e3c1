//! Refusals, and what is told of them.

use crate::{Place, told_refusal};
use std::test::Fail;

/// A refusal, the text and the byte that it names, and what is told.
const ROWS: &[(&str, Option<Place<'_>>, &str)] = &[
    (
        "rule 12 UnknownField 4",
        Some(Place {
            text: "{\n\t\u{e9}usrs { id }\n}",
            offset: 5,
        }),
        "rule 12 UnknownField 4\nline 2, column 3:\n\t\u{e9}usrs { id }\n\t ^\nThe type at this place has no field usrs.\nAsk for a field that it has, or put this one into a fragment on the type that has it.",
    ),
    (
        "document 2 Unexpected 3",
        Some(Place {
            text: "{ a",
            offset: 3,
        }),
        "document 2 Unexpected 3\nline 1, column 4:\n{ a\n   ^\nThe end of the text can't follow what stands before it.\nLook at what stands in front of it: each opening brace and parenthesis has its closing one, and none is empty.",
    ),
    (
        "plan 1 Argument data.a 2 BadValue first",
        None,
        "plan 1 Argument data.a 2 BadValue first\nAt data.a the value of the argument first is none of its type.\nWrite a value of the type.",
    ),
    (
        "schema 5 NoQuery",
        None,
        "schema 5 NoQuery\nThe schema has no type of queries.\nDefine `type Query`, or name one by `schema { query: NAME }`.",
    ),
    (
        "trusted 4 BadHash a b",
        None,
        "trusted 4 BadHash a b\nThe key a b is no hash.\nWrite the SHA-256 of the document as 64 digits from 0 to 9 and a to f.",
    ),
    (
        "local 2 Rule 7 FragmentOn 9",
        Some(Place {
            text: "{ ... on Node { __schema { description } } }",
            offset: 9,
        }),
        "local 2 Rule 7 FragmentOn 9\nline 1, column 10:\n{ ... on Node { __schema { description } } }\n         ^\nAn operation that asks for the schema has conditions on its root type and on the object types of introspection alone, and Node is none of these.\nPut the condition on the root type, or select the fields without one.",
    ),
    (
        "local 2 Rule 12 UnknownField 13",
        Some(Place {
            text: "{ __schema { kinds } }",
            offset: 13,
        }),
        "local 2 Rule 12 UnknownField 13\nline 1, column 14:\n{ __schema { kinds } }\n             ^\nThe type at this place has no field kinds.\nAsk for a field that it has, or put this one into a fragment on the type that has it.",
    ),
    (
        "work 1 TooMuch",
        None,
        "work 1 TooMuch\nTo price the operation takes more steps than `--most-work` says.\nWrite it shorter, with fewer fragments on interfaces, or give a greater number.",
    ),
    ("no refusal", None, "no refusal"),
];

#[test]
fn rows(rt: HostRuntime) -> Result<(), Fail> {
    for (refusal, place, told) in ROWS {
        let found = told_refusal(rt.alloc(), refusal, *place)?;
        assert!(rt; found.as_str() == *told);
    }
    Ok(())
}
