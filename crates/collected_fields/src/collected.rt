//! The fields that are collected.

use document_reader::Field;
use input_values::TypeId;

/// A field that is collected: the type on which it is written, and the number of its selections.
#[derive(Clone, Copy)]
pub struct Collected<'a> {
    pub parent: Option<TypeId>,
    pub field: &'a Field,
    pub below: usize,
    /// A hash of its arguments as they are written. Those that are written alike have the same; nothing rests on it.
    pub written: u64,
}

/// The fields of one response key. There is at least one.
#[derive(Drop)]
pub struct Group<'a> {
    /// Of fields that look like one before them, only the first.
    pub fields: Vec<Collected<'a>>,
    /// The numbers of the selections of all of them.
    pub below: Vec<usize>,
}
