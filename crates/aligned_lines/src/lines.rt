//! Cells and lines.

ghost use Rattle.std.specs.Prelude.{◌≡◌, IfOk, OnOk, OnErr, ◌++◌, ◌∷◌, [], length};
ghost use Rattle.aligned_lines.specs.Aligned.{cells_of, cell_at};

use std::alloc::{AllocError, Global};
use std::marker::Model;

/// A cell, seen by contracts as the bytes of its text. Each byte is taken as wide as one character.
#[derive(Drop)]
pub struct Cell {
    bytes: Vec<u8>,
}

impl Model for Cell {
    ghost use Rattle.std.specs.Prelude.{ℕ, List};

    ghost Value = { List ℕ };

    ghost view = { λ cell. cell.bytes.items };
}

impl Cell {
    /// The cell with these bytes. It takes no memory.
    pub fn new(bytes: Vec<u8>) -> Cell
        ensures { result ≡ bytes.items }
    {
        Cell { bytes }
    }

    /// The cell with a copy of these bytes.
    pub fn copy_of(alloc: Global, bytes: &[u8]) -> Result<Cell, AllocError>
        ensures { IfOk result (λ cell. cell ≡ bytes.now) }
    {
        Ok(Cell {
            bytes: Vec::from_slice(alloc, bytes)?,
        })
    }

    /// The bytes of its text.
    pub fn as_bytes(&self) -> &[u8]
        ensures { result.now ≡ self.now }
    {
        &self.bytes
    }
}

/// A line, cell by cell.
#[derive(Drop)]
pub struct Line {
    pub cells: Vec<Cell>,
}

impl Line {
    /// The bytes of the cell in a column; none where the line has fewer cells.
    pub fn cell_at(&self, column: usize) -> &[u8]
        ensures { result.now ≡ cell_at column (cells_of self.now) }
    {
        match self.cells.get(column) {
            Some(cell) => cell.as_bytes(),
            None => &[],
        }
    }
}
