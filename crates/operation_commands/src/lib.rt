//! The commands over the files of one operation: what it costs at most, a response that costs as much, what is sent for it, and what
//! a reply to it cost.
#![tactic(auto)]

mod asked;
mod asking;
mod auditing;
mod explaining;
mod explaining_schemas;
mod filling;
mod findings;
mod forwarding;
mod introspecting;
mod meter_laws;
mod metering;
mod own_answers;
mod places;
mod price_laws;
mod pricing;
mod reply_texts;
mod steps;

pub use auditing::audit;
pub use explaining::explain;
pub use explaining_schemas::explain_schema;
pub use filling::worst;
pub use forwarding::forward;
pub use introspecting::introspect;
pub use meter_laws::{a_refused_operation_has_no_reply, a_reply_has_one_measure, one_text_is_sent};
pub use metering::meter;
pub use price_laws::{
    a_refused_operation_has_no_price, refusals_of_operations_are_one_line, two_files_have_one_price,
};
pub use pricing::price;
