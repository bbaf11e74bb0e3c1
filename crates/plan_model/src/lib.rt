//! What the selections of an operation come to: which fields a response has at each place, by whichever type its objects have.
//!
//! The words stand in `specs/`: a field where it is selected for objects of a type (`SelectedFields`), the fields that
//! selections have (`Collecting`), how those of one response key merge (`Merging`), the plan (`Plans`), responses
//! without a plan (`Responses`), and the first fault of a plan (`Visits`). The functions of `laws` have no body: each
//! carries a law about these words as its contract. Those of `examples` compute small selections.
#![tactic(auto)]

pub mod examples;
pub mod laws;
