//! A script of a few requests, as it stands in a file.

use cost_vectors::generated;
use std::test::Fail;

#[test]
fn three_requests(rt: HostRuntime) -> Result<(), Fail> {
    let texts = generated(rt.alloc(), 3)?;
    for (found, text) in [
        (
            &texts.schema,
            r#"type Query { top(first: Int = 2): [T] @listSize(slicingArguments: ["first"]) } type T { id: ID! next: T }"#,
        ),
        (&texts.clients, "clients 1\nwindow 60\nc 20.000 20.000\n"),
        (
            &texts.script,
            r#"begin i0 c 0 {"query":"{ top(first: 0) { id next { id } } }"}
begin i1 c 1 {"query":"{ top(first: 1) { id next { id } } }"}
end i0 {"data":{"top":[]}}
end i1 {"data":{"top":[{"id":"x","next":null}]}}
begin i2 c 2 {"query":"{ top(first: 2) { id next { id } } }"}
end i2 {"data":{"top":[{"id":"x","next":null},{"id":"x","next":null}]}}
"#,
        ),
    ] {
        assert_eq!(rt; found.as_str(), text);
    }
    Ok(())
}
