//! Why an operation is refused.

use document_reader::{DocFault, PickFault};
use document_rules::RuleFault;
use merged_selections::PlanFault;
use static_cost::TooCostly;
use thiserror::Error;
use variable_coercion::CoerceFault;

/// The first test that an operation doesn't pass, in their order. No fault in it is want of memory.
#[derive(Debug, Drop, Error)]
pub enum Refusal {
    /// The text is no document.
    #[error("the text is no document of GraphQL: {0}")]
    Document(DocFault),
    /// No operation is picked.
    #[error("no operation is picked: {0}")]
    Pick(PickFault),
    /// The operation breaks a rule.
    #[error("the operation can't be checked: {0}")]
    Rule(RuleFault),
    /// A variable has no value.
    #[error("the operation can't run: {0}")]
    Variable(CoerceFault),
    /// A node of the operation is at fault, or it has too many nodes.
    #[error("the operation can't be planned: {0}")]
    Plan(PlanFault),
    /// Some response costs too much.
    #[error("the operation is too costly: {0}")]
    Bound(TooCostly),
}

/// Why an operation isn't accepted.
#[derive(Debug, Drop, Error)]
pub enum AcceptFault {
    /// It is refused.
    #[error("the operation is refused: {0}")]
    Refused(Refusal),
    /// There was no memory, or there were no steps left, where they are counted.
    #[error("there was no memory for the operation")]
    Memory,
}
