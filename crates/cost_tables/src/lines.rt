//! Lines of eight cells.

ghost use Rattle.std.specs.Prelude.{◌≡◌, ◌∷◌, [], IfOk};
ghost use Rattle.aligned_lines.specs.Aligned.{cells_of};
ghost use Rattle.cost_tables.specs.Tables.{plain_cells, headings};

use crate::cells::amount_cell;
use aligned_lines::{Cell, Line};
use cost_num::Cost;
use std::alloc::{AllocError, Global};

/// The cells of a line, by their columns.
#[derive(Drop)]
pub struct Cells {
    pub node: Cell,
    pub on: Cell,
    pub times: Cell,
    pub size: Cell,
    pub weight: Cell,
    pub arguments: Cell,
    pub types: Cell,
    pub fields: Cell,
}

/// A line of these cells.
pub fn line_of(alloc: Global, of: Cells) -> Result<Line, AllocError>
    ensures { IfOk result (λ line. cells_of line ≡ of.node ∷ of.on ∷ of.times ∷ of.size ∷ of.weight ∷ of.arguments ∷ of.types ∷ of.fields ∷ []) }
{
    let mut cells = Vec::new(alloc);
    cells.push(of.node)?;
    cells.push(of.on)?;
    cells.push(of.times)?;
    cells.push(of.size)?;
    cells.push(of.weight)?;
    cells.push(of.arguments)?;
    cells.push(of.types)?;
    cells.push(of.fields)?;
    Ok(Line { cells })
}

/// A line that is no node's.
pub fn plain_line(
    alloc: Global,
    name: &str,
    on: &str,
    times: &str,
    adds: Cost,
) -> Result<Line, AllocError>
    ensures { IfOk result (λ line. cells_of line ≡ plain_cells name.now on.now times.now adds.types adds.fields) }
{
    line_of(
        alloc,
        Cells {
            node: Cell::copy_of(alloc, name.as_bytes())?,
            on: Cell::copy_of(alloc, on.as_bytes())?,
            times: Cell::copy_of(alloc, times.as_bytes())?,
            size: Cell::copy_of(alloc, b"")?,
            weight: Cell::copy_of(alloc, b"")?,
            arguments: Cell::copy_of(alloc, b"")?,
            types: amount_cell(alloc, adds.types)?,
            fields: amount_cell(alloc, adds.fields)?,
        },
    )
}

/// What stands above the columns.
pub fn headings(alloc: Global) -> Result<Line, AllocError>
    ensures { IfOk result (λ line. cells_of line ≡ headings) }
{
    line_of(
        alloc,
        Cells {
            node: Cell::copy_of(alloc, b"node")?,
            on: Cell::copy_of(alloc, b"on")?,
            times: Cell::copy_of(alloc, b"times")?,
            size: Cell::copy_of(alloc, b"size")?,
            weight: Cell::copy_of(alloc, b"weight")?,
            arguments: Cell::copy_of(alloc, b"arguments")?,
            types: Cell::copy_of(alloc, b"types")?,
            fields: Cell::copy_of(alloc, b"fields")?,
        },
    )
}
