//! The connections of the gateway: requests of clients one after the other, each decided, forwarded and replied to (HTTP/1.1, RFC
//! 9112).
#![tactic(auto)]

mod ending;
mod exchanging;
mod laws;
mod reply;
mod serving;
mod sharing;
mod turn;

pub use ending::{ConnectionEnd, EXCHANGE_LIMIT, Served};
pub use exchanging::exchange;
pub use gateway_core::{
    Gate, Ledger, Reserved, Settings, Totals, close, types_of_built_schemas_differ,
};
pub use laws::a_response_is_given_where_it_is_due;
pub use reply::Reply;
pub use serving::{serve_connection, serve_in};
pub use sharing::replies_are_shared;
