//! The table of a plan.

ghost use Rattle.std.specs.Prelude.{◌≡◌, ◌++◌, ◌∷◌, [], length, OnOk, OnErr};
ghost use Rattle.plan_table.specs.Tables.{table_rows, row_in};

use crate::rows::NodeRow;
use cost_directives::Weights;
use input_values::TypeId;
use schema_model::Schema;
use std::alloc::{AllocError, Global};

/// The plan of an operation as a table with a row for each node: types in the order of the schema at each position, the nodes
/// of a type in the order of its entries, and behind a node those that stand below it. A possible type without nodes has
/// no row. What a row doesn't say of its field and its type is looked up in the schema and its weights.
#[derive(Drop)]
pub struct Plan<'a> {
    schema: &'a Schema,
    weights: &'a Weights,
    root: TypeId,
    rows: Vec<NodeRow>,
}

impl<'a> Plan<'a> {
    /// A plan without nodes, at whose root objects of this type stand.
    pub fn new(alloc: Global, schema: &'a Schema, weights: &'a Weights, root: TypeId) -> Plan<'a>
        ensures schema { result.schema ≡ schema.entry }
        ensures weights { result.weights ≡ weights.entry }
        ensures root { result.root ≡ root }
        ensures none { table_rows result ≡ [] }
    {
        Plan {
            schema,
            weights,
            root,
            rows: Vec::new(alloc),
        }
    }

    /// Adds a node behind the others.
    ///
    /// # Errors
    ///
    /// `AllocError` where there was not enough memory; then the plan stays as it was.
    pub fn push(&mut self, row: NodeRow) -> Result<(), AllocError>
        ensures schema { self.new.schema ≡ self.old.schema }
        ensures weights { self.new.weights ≡ self.old.weights }
        ensures root { self.new.root ≡ self.old.root }
        ensures pushed { OnOk result (table_rows self.new ≡ table_rows self.old ++ (row_in self.old row ∷ [])) }
        ensures same { OnErr result (table_rows self.new ≡ table_rows self.old) }
    {
        self.rows.push(row)?;
        Ok(())
    }

    /// The number of nodes.
    pub fn nodes(&self) -> usize
        ensures { result ≡ length (table_rows self.now) }
    {
        self.rows.len()
    }

    /// The rows of the nodes, in depth-first order.
    pub fn node_rows(&self) -> &[NodeRow]
        ensures { result.now ≡ self.now.rows.items }
    {
        &self.rows
    }

    /// The schema of the plan.
    pub fn schema(&self) -> &'a Schema
        ensures { result ≡ self.now.schema }
    {
        self.schema
    }

    /// The weights of the schema.
    pub fn weights(&self) -> &'a Weights
        ensures { result ≡ self.now.weights }
    {
        self.weights
    }

    /// The type of the objects at the root.
    pub fn root(&self) -> TypeId
        ensures { result ≡ self.now.root }
    {
        self.root
    }
}
