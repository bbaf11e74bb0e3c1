//! The printed forms of values and types, and texts within a line.

pub mod lines;
pub mod printed_parts;
pub mod printed_texts;
pub mod printer;
pub mod printing_laws;
pub mod reading_back;
