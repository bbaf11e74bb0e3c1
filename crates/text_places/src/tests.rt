//! Places in small texts.

use crate::{place_in, write_marked};
use std::test::Fail;

/// A text, an offset in it, the line and the column there, and what is shown.
const ROWS: &[(&str, usize, usize, usize, &str)] = &[
    ("{ a ? }", 4, 1, 5, "{ a ? }\n    ^"),
    ("", 0, 1, 1, "\n^"),
    ("{ a", 9, 1, 4, "{ a\n   ^"),
    ("{\n", 2, 2, 1, "\n^"),
    ("{\n\ta\r\n\t b ?\r}", 10, 3, 5, "\t b ?\n\t   ^"),
    ("{\n\ta\r\n\t b ?\r}", 5, 2, 3, "\ta\n\t ^"),
    ("{\n\ta\r\n\t b ?\r}", 12, 4, 1, "}\n^"),
    (
        "{ a\u{1b}[1m\u{7f}\u{9b} ? }",
        11,
        1,
        11,
        "{ a\u{fffd}[1m\u{fffd}\u{fffd} ? }\n          ^",
    ),
    (
        "# \u{e9}\u{1f600}\u{fe} ?",
        11,
        1,
        7,
        "# \u{e9}\u{1f600}\u{fe} ?\n      ^",
    ),
    (
        "0123456789012345678901234567890123456789012345678901234567890123456789012345678901234567890123456789012345678901234567890123456789",
        100,
        1,
        101,
        "012345678901234567890123456789012345678901234567890123456789012345678901234567890123456789012345678901234567890123456789\n                                                                                          ^",
    ),
];

#[test]
fn rows(rt: HostRuntime) -> Result<(), Fail> {
    for (text, offset, line, column, shown) in ROWS {
        let place = place_in(text, *offset);
        assert!(rt; place.line == *line && place.column == *column);
        let mut into = String::new(rt.alloc());
        write_marked(rt.alloc(), text, *offset, &mut into)?;
        assert!(rt; into.as_str() == *shown);
    }
    Ok(())
}
