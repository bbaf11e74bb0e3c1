//! What the text of a schema must keep (GraphQL October 2021, 3, and the IBM GraphQL Cost Directives Specification): its
//! things in the order in which they are written, and the tests of them, each in a file of its own.
#![tactic(auto)]

mod directive_uses;
mod faults;
mod items;
mod kind;
mod laws;
mod literals;
mod place;
mod roots;
mod sharing;
mod type_names;

pub use directive_uses::{are_right, given_weight, is_lax, size_arguments};
pub use faults::bad_directive::first_bad_directive;
pub use faults::empty_type::first_empty_type;
pub use faults::float_scalar::first_float_scalar;
pub use faults::nested_list::first_nested_list;
pub use faults::no_query::has_no_query;
pub use faults::repeated::first_repeated_place;
pub use faults::reserved::{first_reserved, first_reserved_if};
pub use faults::too_many::{field_count, too_many, type_count};
pub use faults::unknown_type::first_unknown_type;
pub use faults::wrong_kind::first_wrong_kind;
pub use items::{Item, innermost, items_of, place_of, type_mentioned};
pub use kind::Kind;
pub use laws::{a_told_place_is_the_first, equal_keys_are_one_name_in_one_scope};
pub use literals::{Literal, opened};
pub use place::{Place, place_text};
pub use roots::{has_schema, root_name};
pub use sharing::rules_are_shared;
pub use type_names::{TypeName, has_type, kind_named, types_of};
