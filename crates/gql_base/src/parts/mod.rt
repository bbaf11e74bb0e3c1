//! The parts that documents and schemas share (GraphQL October 2021, 2.9 and 2.11).

pub mod arguments;
pub mod fault_laws;
pub mod ints;
pub mod readers;
pub mod tree_laws;
pub mod trees;
pub mod types;
pub mod values;
