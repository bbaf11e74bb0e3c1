//! The tests of cost directives, each in a file of its own, in the order in which they are made.

pub mod bad_weight;
pub mod disagree;
pub mod dotted;
pub mod negative_size;
pub mod not_a_list;
pub mod sized_on_list;
pub mod sized_unknown;
pub mod slicing_not_int;
pub mod slicing_unknown;
