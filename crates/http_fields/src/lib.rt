//! The fields of the head of an HTTP message, by their names, and the length that they say (RFC 9110,
//! section 5; RFC 9112, section 6).
#![tactic(auto)]

mod fields;
mod lengths;
mod reading;
mod values;

pub use fields::Fields;
pub use lengths::{BadLength, is_length, is_length_of, number_of};
pub use values::{Values, is_same};
