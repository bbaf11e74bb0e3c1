//! What a reply is read beside.

ghost use Rattle.std.specs.Prelude.{◌≡◌, Some};
ghost use Rattle.serde_json.specs.View.{view};
ghost use Rattle.schema_model.specs.SchemaData.{type_at};
ghost use Rattle.plan_model.specs.Plans.{type_weight};
ghost use Rattle.plan_table.specs.Tables.{setting_in};
ghost use Rattle.plan_table.specs.TableBounds.{holds_in};
ghost use Rattle.response_meter.specs.FirstFault.{is_text};

use crate::leaves::{is_text, type_holds};
use input_values::TypeId;
use plan_table::Plan;
use serde_json::Value;
use std::alloc::Global;

/// A plan, and the response key under which the type name of objects was added.
#[derive(Clone, Copy)]
pub(crate) struct Reading<'a> {
    pub(crate) alloc: Global,
    pub(crate) of: &'a Plan<'a>,
    pub(crate) alias: &'a str,
}

impl<'a> Reading<'a> {
    /// The weight of a type, in millionths.
    pub(crate) fn type_weight(&self, of: TypeId) -> u64
        ensures { result ≡ type_weight (setting_in self.now.of.now) of.number }
    {
        self.of.weights().type_weight(of)
    }

    /// Whether the value is the name of this type.
    pub(crate) fn is_name(&self, of: TypeId, value: &Value) -> bool
        ensures { result ≡ is_text (type_at (setting_in self.now.of.now).schema of.number).name (Some (view value.now)) }
    {
        is_text(self.of.schema().type_name(of).as_str(), value)
    }

    /// Whether the scalar or enum type holds the value.
    pub(crate) fn holds(&self, of: TypeId, value: &Value) -> bool
        ensures { result ≡ holds_in self.now.of.now of.number (view value.now) }
    {
        type_holds(self.of.schema(), of, value)
    }
}
