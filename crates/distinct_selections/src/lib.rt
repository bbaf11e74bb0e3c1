//! The selections of an operation without those that are repeated.
//!
//! Where a selection is written as one before it in the same selection set, but for where it stands, it changes nothing of what an
//! operation comes to. `distinct_of` copies the selections of an operation and of its fragments without such repeats,
//! and without what `@skip` and `@include` leave out, so that the work of planning doesn't grow with them. In the
//! copies variables of the same value are one.
#![tactic(auto)]

mod alike;
mod copying;
mod distinct;
mod included;
mod kept;
mod numbers;
mod same_values;
mod stand_ins;
mod written;

pub use distinct::{Distinct, distinct_of};
pub use included::is_included;
pub use same_values::same_arguments;
pub use written::alike_arguments;
