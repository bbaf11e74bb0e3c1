//! The tests of an operation before it runs: it is accepted with its plan and its bound, or refused for the first that it
//! doesn't pass.
#![tactic(auto)]

mod accepting;
mod fault;
mod forwarding;
mod laws;
mod request;
mod steps;
mod telling;
pub mod texts;

pub use accepting::{Accepted, accept, read};
pub use fault::{AcceptFault, Refusal};
pub use forwarding::{Forwarded, sent_for};
pub use laws::{
    a_request_has_a_verdict, a_request_has_one_verdict, alike_requests_are_answered_alike,
    alike_requests_have_one_verdict, read_values_are_in_order, refusal_texts_are_one_line,
    sent_bodies_hold_no_float, sent_texts_are_read_alike,
};
pub use merged_selections::{PlanFault, build_plan};
pub use request::Request;
pub use steps::work_up_to;
pub use telling::{refusal_text, told_of_argument, told_of_size};
