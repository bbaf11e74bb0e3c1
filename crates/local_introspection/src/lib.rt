//! Answers to introspection from the gateway's own schema (GraphQL October 2021, 4).
//!
//! `Facts::make` tells what is known of a schema, `count` counts the answer to an operation that asks for it, and `write` writes it. What an
//! operation comes to is said in `specs/LocalAnswers`, by the words of `plan_model` over the schema of schemas.
#![tactic(auto)]

mod answering;
mod counting;
mod facts;
mod fault;
pub mod laws;
mod measuring;
mod plain;
mod sharing;
mod steps;
mod telling;
mod walk;

pub use acceptance::texts::{lexical_place, named, named_twice, placed, placed_in};
pub use acceptance::{
    AcceptFault, Accepted, Refusal, Request, a_request_has_one_verdict, accept,
    alike_requests_are_answered_alike, alike_requests_have_one_verdict, read,
    read_values_are_in_order, refusal_text, refusal_texts_are_one_line, sent_bodies_hold_no_float,
    sent_for, work_up_to,
};
pub use answering::{Counted, count, write};
pub use counting::VALUE_LIMIT;
pub use facts::Facts;
pub use fault::LocalFault;
pub use sharing::{answers_are_shared, facts_are_shared};
pub use telling::local_text;
pub use walk::Local;
