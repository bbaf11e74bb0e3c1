//! Building a plan, node by node: a table grows by the rows of what is visited, in depth-first order.

ghost use Rattle.std.specs.Prelude.{◌≡◌, ◌∷◌, ◌≤◌, map};
ghost use Rattle.schema_model.specs.SchemaViews.{schema_data};
ghost use Rattle.schema_model.specs.Numbers.{type_number};
ghost use Rattle.collected_fields.specs.Lists.{HasMore};
ghost use Rattle.merged_selections.specs.NodeParts.{handed_data, types_at, types_left, AreObjectTypes};
ghost use Rattle.merged_selections.specs.Stages.{frame, setting_built, CanBuild, BuildsTypes, BuildsType, BuildsGroups, BuildsGroup, BuildsNode, PushesRow};

use crate::LEVEL_LIMIT;
use crate::calls::Calls;
use crate::keys::Keys;
use crate::known::{Known, looked_there};
use crate::lookups::{Handed, any_asks, key_of, name_of, types_below};
use crate::node::{Looked, look_again};
use crate::stop::{Stop, stopped, under};
use crate::why::Why;
use collected_fields::{Collected, Collector, Group};
use counted_work::steps_of_text;
use input_values::TypeId;
use plan_table::{NodeRow, Plan, size_from};
use schema_model::{FieldId, Schema};
use std::alloc::{AllocError, Global};

/// A plan that is being built.
#[derive(Drop)]
pub struct Building<'p, 'a> {
    pub collector: Collector<'p>,
    pub plan: Plan<'a>,
    /// How many nodes may still be planned.
    pub left: usize,
    /// The calls that were made.
    pub calls: Calls<'p>,
    /// The response keys of the rows.
    pub keys: Keys<'p>,
    /// The groups to which positions came.
    pub known: Known<'p>,
}

/// How many steps it is to look at the node of a field and others, to compare them, and to add its row.
fn steps_of_row(key: &str, name: &str, others: &[Collected<'_>]) -> usize {
    let own = steps_of_text(key.len().wrapping_add(name.len())).wrapping_add(3);
    own.wrapping_mul(others.len().wrapping_add(1))
}

/// The types of the objects that may stand at a field; none at `__typename`.
fn types_at<'p>(schema: &'p Schema, field: Option<FieldId>) -> &'p [TypeId]
    ensures { map type_number result.now ≡ types_at (schema_data schema.now) field }
{
    match field {
        Some(field) => types_below(schema, field),
        None => &[],
    }
}

/// The types that are left of some, or all of them where none are left out.
fn left_of<'t>(left: &'t Option<Vec<TypeId>>, types: &'t [TypeId]) -> &'t [TypeId]
    ensures { result.now ≡ types_left left.now types.now }
{
    match left {
        Some(left) => left.as_slice(),
        None => types,
    }
}

impl<'p, 'a> Building<'p, 'a> {
    /// The plan as far as it is built.
    pub fn into_plan(self) -> Plan<'a>
        ensures { result ≡ self.entry.plan }
    {
        let Building { plan, .. } = self;
        plan
    }

    /// Adds the row of a node.
    fn push_row(
        &mut self,
        alloc: Global,
        depth: u32,
        on: TypeId,
        first: bool,
        field: &Collected<'p>,
        others: &[Collected<'p>],
        looked: &Looked<'p>,
    ) -> Result<(), AllocError>
        requires { depth ≤ LEVEL_LIMIT }
        ensures frame { frame self.new ≡ frame self.old }
        ensures ready { CanBuild self.old → CanBuild self.new }
        ensures collector { self.new.collector ≡ self.old.collector }
        ensures left { self.new.left ≡ self.old.left }
        ensures pushed { PushesRow self.old depth on.number first (field.now ∷ others.now) looked.now result self.new }
    {
        let text = key_of(field);
        let called = name_of(field);
        self.calls.work.take(steps_of_row(text, called, others))?;
        let asked = any_asks(self.plan.schema(), field, others);
        let key = self.keys.row_key(alloc, text)?;
        let name = self.keys.row_key(alloc, called)?;
        self.plan.push(NodeRow {
            key,
            depth,
            name,
            on,
            first,
            field: looked.field,
            asked,
            size: size_from(looked.source),
            source: looked.source,
            arguments: looked.arguments,
        })
    }

    /// The nodes of a position for these types of objects. Those for whose objects it has no fields are left out.
    #[cycle(build)]
    fn build_position(
        &mut self,
        alloc: Global,
        depth: u32,
        types: &[TypeId],
        lists: &[usize],
        handed: Option<Handed<'p>>,
    ) -> Result<(), Stop>
        ensures frame { frame self.new ≡ frame self.old }
        ensures numbers { HasMore self.old.collector.joins self.new.collector.joins }
        ensures ready { CanBuild self.old → CanBuild self.new }
        ensures built { AreObjectTypes (setting_built self.old).schema types.now → BuildsTypes self.old depth result self.new types.now lists.now (handed_data handed.entry) }
    {
        let left = self.collector.types_with_fields(alloc, types, lists)?;
        self.build_types(alloc, depth, left_of(&left, types), lists, handed)
    }

    /// The nodes of a position for these types and of what stands below them.
    #[cycle(build)]
    pub fn build_types(
        &mut self,
        alloc: Global,
        depth: u32,
        types: &[TypeId],
        lists: &[usize],
        handed: Option<Handed<'p>>,
    ) -> Result<(), Stop>
        ensures frame { frame self.new ≡ frame self.old }
        ensures numbers { HasMore self.old.collector.joins self.new.collector.joins }
        ensures ready { CanBuild self.old → CanBuild self.new }
        ensures built { BuildsTypes self.old depth result self.new types.now lists.now (handed_data handed.entry) }
    {
        'types: for of in types {
            match self.build_type(alloc, depth, *of, lists, handed) {
                Ok(()) => {}
                Err(stop) => return Err(stop),
            }
        }
        Ok(())
    }

    /// The nodes of a position for a type.
    #[cycle(build)]
    fn build_type(
        &mut self,
        alloc: Global,
        depth: u32,
        of: TypeId,
        lists: &[usize],
        handed: Option<Handed<'p>>,
    ) -> Result<(), Stop>
        ensures frame { frame self.new ≡ frame self.old }
        ensures numbers { HasMore self.old.collector.joins self.new.collector.joins }
        ensures ready { CanBuild self.old → CanBuild self.new }
        ensures built { BuildsType self.old depth result self.new of.number lists.now (handed_data handed.entry) }
    {
        let schema = self.collector.planning().schema;
        let spread = self.collector.spread_alone(lists);
        match self.known.find(alloc, schema, of, lists, spread, handed)? {
            Some(found) => {
                let looked = found.looked.as_slice();
                self.build_groups(alloc, depth, of, found.groups.as_slice(), looked, handed)
            }
            None => self.build_anew(alloc, depth, of, lists, handed),
        }
    }

    /// The nodes of a position for a type, which is collected. The groups are kept where they may be met again.
    #[cycle(build)]
    fn build_anew(
        &mut self,
        alloc: Global,
        depth: u32,
        of: TypeId,
        lists: &[usize],
        handed: Option<Handed<'p>>,
    ) -> Result<(), Stop>
        ensures frame { frame self.new ≡ frame self.old }
        ensures numbers { HasMore self.old.collector.joins self.new.collector.joins }
        ensures ready { CanBuild self.old → CanBuild self.new }
        ensures built { BuildsType self.old depth result self.new of.number lists.now (handed_data handed.entry) }
    {
        let spread = self.collector.spread_alone(lists);
        let known = self.collector.knows(lists);
        let groups = self.collector.collect(alloc, of, lists)?;
        match self.build_groups(alloc, depth, of, groups.as_slice(), &[], handed) {
            Ok(()) => {}
            Err(stop) => return Err(stop),
        }
        if !known {
            return Ok(());
        }
        let planning = self.collector.planning();
        self.known.keep(
            alloc,
            &planning,
            of,
            lists,
            spread,
            groups.as_slice(),
            handed,
            &mut self.calls,
        )?;
        Ok(())
    }

    /// The nodes of these keys. Of the first of them it may be known what is found of them.
    #[cycle(build)]
    fn build_groups(
        &mut self,
        alloc: Global,
        depth: u32,
        of: TypeId,
        groups: &[Group<'p>],
        looked: &[Looked<'p>],
        handed: Option<Handed<'p>>,
    ) -> Result<(), Stop>
        ensures frame { frame self.new ≡ frame self.old }
        ensures numbers { HasMore self.old.collector.joins self.new.collector.joins }
        ensures ready { CanBuild self.old → CanBuild self.new }
        ensures built { BuildsGroups self.old depth result self.new of.number groups.now looked.now (handed_data handed.entry) }
    {
        let mut first = true;
        let mut at = 0;
        'groups: for group in groups {
            let one = looked_there(looked, at);
            match self.build_group(alloc, depth, of, first, group, one, handed) {
                Ok(()) => {}
                Err(stop) => return Err(stop),
            }
            first = false;
            at += 1;
        }
        Ok(())
    }

    /// The node of a key. There is none without fields.
    #[cycle(build)]
    fn build_group(
        &mut self,
        alloc: Global,
        depth: u32,
        of: TypeId,
        first: bool,
        group: &Group<'p>,
        looked: Option<Looked<'p>>,
        handed: Option<Handed<'p>>,
    ) -> Result<(), Stop>
        ensures frame { frame self.new ≡ frame self.old }
        ensures numbers { HasMore self.old.collector.joins self.new.collector.joins }
        ensures ready { CanBuild self.old → CanBuild self.new }
        ensures built { BuildsGroup self.old depth result self.new of.number first group.now looked.entry (handed_data handed.entry) }
    {
        match group.fields.split_first() {
            Some((field, others)) => {
                self.build_node(
                    alloc,
                    depth,
                    of,
                    first,
                    field,
                    others,
                    group.below.as_slice(),
                    looked,
                    handed,
                )
            }
            None => Ok(()),
        }
    }

    /// The node of these fields, and what stands below it.
    #[cycle(build)]
    fn build_node(
        &mut self,
        alloc: Global,
        depth: u32,
        of: TypeId,
        first: bool,
        field: &Collected<'p>,
        others: &[Collected<'p>],
        below: &[usize],
        looked: Option<Looked<'p>>,
        handed: Option<Handed<'p>>,
    ) -> Result<(), Stop>
        ensures frame { frame self.new ≡ frame self.old }
        ensures numbers { HasMore self.old.collector.joins self.new.collector.joins }
        ensures ready { CanBuild self.old → CanBuild self.new }
        ensures built { BuildsNode self.old depth result self.new of.number first (field.now ∷ others.now) below.now looked.entry (handed_data handed.entry) }
    {
        if self.left == 0 {
            return Err(Stop::TooLarge);
        }
        self.left -= 1;
        let key = key_of(field);
        if depth > LEVEL_LIMIT {
            return Err(stopped(alloc, key, Why::TooDeep));
        }
        let planning = self.collector.planning();
        let calls = &mut self.calls;
        match look_again(alloc, &planning, of, handed, field, others, looked, calls) {
            Err(why) => Err(stopped(alloc, key, why)),
            Ok(looked) => {
                self.push_row(alloc, depth, of, first, field, others, &looked)?;
                let types = types_at(planning.schema, looked.field);
                match self.build_position(alloc, depth + 1, types, below, looked.hands) {
                    Ok(()) => Ok(()),
                    Err(stop) => Err(under(alloc, stop, key)),
                }
            }
        }
    }
}
