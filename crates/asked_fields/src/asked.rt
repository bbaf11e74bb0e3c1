//! What an operation asks, node by node.

use gql_base::Text;

/// What is kept of the first argument of a field: whether it is true, and the place among some names of the one that it is.
#[derive(Clone, Copy)]
pub struct Argument {
    pub is_true: bool,
    pub place: Option<usize>,
}

/// A response key, the name of its field with what is kept of its argument, and what is asked of each object below.
#[derive(Drop)]
pub struct AskedNode {
    pub key: Text,
    pub name: Text,
    pub argument: Argument,
    pub below: Vec<AskedNode>,
}
