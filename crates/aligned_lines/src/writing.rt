//! How lines are written, one below another.

ghost use Rattle.std.specs.Prelude.{◌≡◌, ◌++◌, ◌-◌, ◌<◌, IfOk, IfSome, OnOk, length, replicate, get_or, false};
ghost use Rattle.aligned_lines.specs.Aligned.{cells_of, lines_seen, widest, padded, gap, cell_text, line_text, lines_below, aligned, most_cells, AreWidths};

use crate::lines::Line;
use std::alloc::{AllocError, Global};

/// How long the longest cell of a column is.
fn widest(lines: &[Line], column: usize) -> usize
    ensures { result ≡ widest column (lines_seen lines.now) }
{
    let mut most = 0;
    for line in lines {
        most = line.cell_at(column).len().max(most);
    }
    most
}

/// How many cells the line with the most cells has.
fn most_cells(lines: &[Line]) -> usize
    ensures { result ≡ most_cells (lines_seen lines.now) }
{
    let mut most = 0;
    for line in lines {
        most = line.cells.len().max(most);
    }
    most
}

/// How long the longest cell of each column is. Each column is gone through once.
fn widths_of(alloc: Global, lines: &[Line]) -> Result<Vec<usize>, AllocError>
    ensures are { IfOk result (λ widths. AreWidths (lines_seen lines.now) widths.items) }
    ensures all { IfOk result (λ widths. length widths.items ≡ most_cells (lines_seen lines.now)) }
{
    let mut widths = Vec::new(alloc);
    for column in 0..most_cells(lines) {
        widths.push(widest(lines, column))?;
    }
    Ok(widths)
}

/// The width of a column, where it is known.
fn known_width(widths: &[usize], column: usize) -> Option<usize>
    ensures { IfSome result (λ width. (column < length widths.now) × (width ≡ get_or widths.now column 0)) }
{
    widths.get(column).copied()
}

/// The width of a column.
fn width_of(lines: &[Line], widths: &[usize], column: usize) -> usize
    requires are { AreWidths (lines_seen lines.now) widths.now }
    ensures { result ≡ widest column (lines_seen lines.now) }
{
    match known_width(widths, column) {
        Some(width) => width,
        None => widest(lines, column),
    }
}

fn push_blanks(count: usize, into: &mut Vec<u8>) -> Result<(), AllocError>
    ensures { OnOk result (into.new.items ≡ into.old.items ++ replicate count 32) }
{
    for done in 0..count {
        into.push(b' ')?;
    }
    Ok(())
}

/// Writes a cell as wide as its column.
fn push_padded(left: bool, width: usize, cell: &[u8], into: &mut Vec<u8>) -> Result<(), AllocError>
    ensures { OnOk result (into.new.items ≡ into.old.items ++ padded left width cell.now) }
{
    let blanks = width.saturating_sub(cell.len());
    if left {
        into.extend_from_slice(cell)?;
        push_blanks(blanks, into)
    } else {
        push_blanks(blanks, into)?;
        into.extend_from_slice(cell)
    }
}

/// Writes what stands in front of a column.
fn push_gap(column: usize, into: &mut Vec<u8>) -> Result<(), AllocError>
    ensures { OnOk result (into.new.items ≡ into.old.items ++ gap column) }
{
    if column == 0 {
        Ok(())
    } else {
        into.extend_from_slice(b"  ")
    }
}

/// Whether a column stands at the left.
fn is_left(left: &[bool], column: usize) -> bool
    ensures { result ≡ get_or left.now column false }
{
    match left.get(column) {
        Some(left) => *left,
        None => false,
    }
}

/// Writes the cell of a column, with what stands in front of it.
fn push_cell(
    left: &[bool],
    lines: &[Line],
    widths: &[usize],
    column: usize,
    cell: &[u8],
    into: &mut Vec<u8>,
) -> Result<(), AllocError>
    requires are { AreWidths (lines_seen lines.now) widths.now }
    ensures { OnOk result (into.new.items ≡ into.old.items ++ cell_text left.now (lines_seen lines.now) column cell.now) }
{
    push_gap(column, into)?;
    push_padded(
        is_left(left, column),
        width_of(lines, widths, column),
        cell,
        into,
    )
}

/// Writes a line whose columns are as wide as those of these lines.
fn push_line(
    left: &[bool],
    lines: &[Line],
    widths: &[usize],
    line: &Line,
    into: &mut Vec<u8>,
) -> Result<(), AllocError>
    requires are { AreWidths (lines_seen lines.now) widths.now }
    ensures { OnOk result (into.new.items ≡ into.old.items ++ line_text left.now (lines_seen lines.now) 0 (cells_of line.now)) }
{
    for column in 0..line.cells.len() {
        push_cell(
            left,
            lines,
            widths,
            column,
            line.cells[column].as_bytes(),
            into,
        )?;
    }
    Ok(())
}

/// Writes further lines, each with a line end in front.
fn push_below(
    left: &[bool],
    lines: &[Line],
    widths: &[usize],
    below: &[Line],
    into: &mut Vec<u8>,
) -> Result<(), AllocError>
    requires are { AreWidths (lines_seen lines.now) widths.now }
    ensures { OnOk result (into.new.items ≡ into.old.items ++ lines_below left.now (lines_seen lines.now) (lines_seen below.now)) }
{
    for line in below {
        into.push(b'\n')?;
        push_line(left, lines, widths, line, into)?;
    }
    Ok(())
}

/// The text of lines: each column is as wide as its longest cell, with two spaces between columns. A column whose mark in `left` is true
/// stands at the left, any other at the right. No line end stands behind the last line.
///
/// # Errors
///
/// `AllocError` where there was not enough memory.
pub fn aligned(alloc: Global, left: &[bool], lines: &[Line]) -> Result<Vec<u8>, AllocError>
    ensures { IfOk result (λ text. text.items ≡ aligned left.now (lines_seen lines.now)) }
{
    let mut text = Vec::new(alloc);
    let widths = widths_of(alloc, lines)?;
    if let Some((first, below)) = lines.split_first() {
        push_line(left, lines, &widths, first, &mut text)?;
        push_below(left, lines, &widths, below, &mut text)?;
    }
    Ok(text)
}
