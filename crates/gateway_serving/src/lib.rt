//! Serving, from a gate with fresh accounts to the clients' accounts after the last connection: the doors are started, served by
//! workers and stopped, and the accounts are closed.
#![tactic(auto)]

mod asked;
mod ending;
mod laws;
mod serving;
mod sharing;

pub use asked::Serving;
pub use ending::{ServeEnd, ServeFault};
pub use gateway_workers::{
    Gate, Settings, Totals, WorkDone, a_response_is_given_where_it_is_due,
    types_of_built_schemas_differ,
};
pub use laws::{
    calm_ends_are_whole, connections_are_those_of_the_doors, faults_are_those_of_the_doors,
};
pub use serving::serve;
pub use sharing::ends_are_shared;
