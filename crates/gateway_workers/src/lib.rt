//! The workers of the gateway, side by side: each serves the connections of its door.
#![tactic(auto)]

mod joining;
mod laws;
mod pairing;
mod serving;
mod work_done;
mod worker;
mod working;

pub use gateway_connections::{
    ConnectionEnd, EXCHANGE_LIMIT, Gate, Ledger, Reserved, Served, Settings, Totals,
    a_response_is_given_where_it_is_due, close, serve_in, types_of_built_schemas_differ,
};
pub use laws::doors_that_do_not_fail_are_served_whole;
pub use serving::{WORKER_LIMIT, serve_workers};
pub use work_done::WorkDone;
pub use working::CONNECTION_LIMIT;
