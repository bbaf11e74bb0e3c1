//! Why the gateway doesn't answer an operation that asks for its schema.

use acceptance::PlanFault;
use document_rules::RuleFault;
use thiserror::Error;
use variable_coercion::CoerceFault;

/// Why an operation isn't answered from the gateway's own schema: the first test that it doesn't pass, in their order. No fault in it is
/// want of memory. The tests are those of any operation, over the schema of schemas.
#[derive(Debug, Drop, Error)]
pub enum LocalFault {
    /// Beside a field that the gateway answers stands one that it can't, whose name begins at this offset: the class of the
    /// operation tells it, and `count` isn't asked for such a one.
    #[error("the field at {at} can't be answered beside fields of the schema")]
    Mixed { at: usize },
    /// The operation breaks a rule.
    #[error("the operation can't be checked: {0}")]
    Rule(RuleFault),
    /// A variable has no value.
    #[error("the operation can't run: {0}")]
    Variable(CoerceFault),
    /// A node of the operation is at fault, or it has too many nodes.
    #[error("the operation can't be planned: {0}")]
    Plan(PlanFault),
    /// The answer has too many values, lists and nulls among them.
    #[error("the answer has more than {} values", crate::VALUE_LIMIT)]
    TooLarge,
    /// There was no memory, or there were no steps left, where they are counted.
    #[error("there was no memory for the answer")]
    Memory,
}
