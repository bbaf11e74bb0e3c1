//! Requests.

use gql_base::Text;
use serde_json::Value;

/// What a client asks.
#[derive(Debug, Drop)]
pub struct Request {
    /// The text of the document.
    pub query: Text,
    /// The name of the operation that is meant.
    pub name: Option<Text>,
    /// What is given for the variables, an object.
    pub variables: Value,
}
