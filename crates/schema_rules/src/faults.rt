//! The tests of a schema text, each in a file of its own.

pub mod bad_directive;
pub mod empty_type;
pub mod float_scalar;
pub mod nested_list;
pub mod no_query;
pub mod repeated;
pub mod reserved;
pub mod too_many;
pub mod unknown_type;
pub mod wrong_kind;
