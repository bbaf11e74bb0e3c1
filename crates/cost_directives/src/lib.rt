//! What `@cost` and `@listSize` mean on a checked schema (IBM GraphQL Cost Directives Specification): the weights of types and
//! fields, the declared size of a list, and what arguments cost.
#![tactic(auto)]

mod above;
mod argument_costs;
mod arguments;
mod build;
mod entries;
mod fault;
mod faults;
mod laws;
mod places;
mod readings;
mod rules;
mod sharing;
mod sizes;
mod sources;
mod weights;

pub use above::{has_own_weight, inherited_size, inherited_weight};
pub use entries::InputWeight;
pub use fault::DirectiveFault;
pub use laws::{
    lists_of_any_length_cost_nothing, look_ups_answer_by_the_rules, sizes_fit_their_fields,
    sources_tell_sizes, weights_are_read_once,
};
pub use places::field_place;
pub use rules::is_list;
pub use sharing::weights_are_shared;
pub use sizes::{Size, SizeFault};
pub use sources::SizeSource;
pub use weights::Weights;
