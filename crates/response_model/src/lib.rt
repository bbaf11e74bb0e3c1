//! The cost of GraphQL responses, and the least bound of it that a plan allows.
//!
//! The words stand in `specs/`: a plan says what an operation may get, with weights and declared sizes (`Plan`);
//! a response is a tree that fits its plan and keeps the declared sizes (`Response`); it has a type cost and a
//! field cost, by the IBM GraphQL Cost Directives Specification (`Cost`); the bound is the least number that no
//! response exceeds (`Bound`). Beside them stand the response that attains the bound (`Filled`), the reading of
//! a JSON reply as a tree (`Reading`), the errors of a response (`Errors`), and the text of a response as a client is
//! answered with it (`ResponseText`). Costs are whole numbers of one unit, which is nowhere named here.
//!
//! The functions of `laws` and `examples` have no body: each carries a law about these words as its contract. Those of
//! `writing` write the pieces of a response's text. `Part` names the two parts of a cost.
#![tactic(auto)]

pub mod examples;
pub mod laws;
mod part;
mod writing;

pub use part::Part;
pub use writing::{write_error_response, write_key, write_string, write_value};
