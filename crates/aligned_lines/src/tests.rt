//! Small tables.

use crate::{Cell, Line, aligned};
use std::alloc::AllocError;
use std::test::Fail;

/// Cells, which are separated by strokes, line by line, and what is written of them. The first column stands at the left.
const ROWS: &[(&[&[&[u8]]], &[u8])] = &[
    (&[], b""),
    (&[&[b"node", b"types"]], b"node  types"),
    (
        &[&[b"node", b"types"], &[b"a", b"1.000"], &[b"", b"20.125"]],
        b"node   types\na      1.000\n      20.125",
    ),
    (&[&[b"a"], &[b"b", b"1"], &[]], b"a\nb  1\n"),
];

#[test]
fn rows(rt: HostRuntime) -> Result<(), Fail> {
    for (rows, text) in ROWS {
        let mut lines = Vec::new(rt.alloc());
        for row in *rows {
            let mut cells = Vec::new(rt.alloc());
            for cell in *row {
                cells.push(Cell::copy_of(rt.alloc(), cell)?)?;
            }
            lines.push(Line { cells })?;
        }
        let found = aligned(rt.alloc(), &[true], &lines)?;
        assert!(rt; found.as_slice() == *text);
    }
    Ok(())
}
