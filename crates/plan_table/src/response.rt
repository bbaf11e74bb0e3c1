//! The data of a response, in memory.

use gql_base::Text;
use input_values::TypeId;
use serde_json::Value;

/// The value of a response (GraphQL October 2021, 7.1): null, a leaf, a list, or an object of an object type.
#[derive(Drop)]
#[cycle(response)]
pub enum Tree {
    Null,
    /// The value of a scalar or enum type, never null.
    Leaf(Value),
    List(Vec<Tree>),
    /// An object with its entries in their order.
    Object(TypeId, Vec<Entry>),
}

/// An entry of an object.
#[derive(Drop)]
#[cycle(response)]
pub struct Entry {
    /// The response key.
    pub key: Text,
    pub value: Tree,
}
