//! What is asked of a schema.

use cost_directives::Weights;
use counted_work::Work;
use document_reader::Document;
use schema_model::Schema;
use serde_json::Value;

/// A request for an operation (GraphQL October 2021, 6.1).
#[derive(Clone, Copy)]
pub struct Request<'s, 'r> {
    pub schema: &'s Schema,
    /// The weights of this schema.
    pub weights: &'s Weights,
    pub document: &'r Document,
    /// The name of the operation; none where the document has one operation alone.
    pub name: Option<&'r str>,
    /// The values that are given for its variables: an object of JSON.
    pub given: &'r Value,
    /// How many steps its tests may take, and what is sent for it.
    pub work: Work<'r>,
}
