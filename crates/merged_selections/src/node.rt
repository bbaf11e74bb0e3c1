//! The tests of a node, in their order, and what is found of one that passes them.

ghost use Rattle.std.specs.Prelude.{◌≡◌, ◌<◌, length, map, IfSome};
ghost use Rattle.schema_model.specs.Arguments.{args_data};
ghost use Rattle.collected_fields.specs.Views.{setting_of_planning, collected_field};
ghost use Rattle.merged_selections.specs.NodeParts.{handed_data};
ghost use Rattle.merged_selections.specs.NodeTests.{AreKept, LooksAfterSize, LooksAfterArguments, LooksAfterFirst, LooksAfterNames, LooksAt, IsLookedAt, fields_seen, names_not, source_at};

use crate::arguments::any_differs;
use crate::call::Call;
use crate::calls::Calls;
use crate::lookups::{Handed, Meaning, handed_in, has_lists, lacks_types, meaning_on, name_of};
use crate::why::Why;
use collected_fields::{Collected, Planning};
use cost_directives::SizeSource;
use input_values::TypeId;
use schema_model::{Args, FieldId};
use std::alloc::Global;

/// What is found of a node.
#[derive(Clone, Copy)]
pub struct Looked<'a> {
    /// The field; none for `__typename`.
    pub field: Option<FieldId>,
    /// Where the declared size of its list comes from; none where it is no list.
    pub source: Option<SizeSource>,
    /// What its arguments cost.
    pub arguments: u64,
    /// The size that it hands down.
    pub hands: Option<Handed<'a>>,
}

/// How many steps it is to find the size of a field, and where it comes from: each looks at its slicing arguments, and one at the
/// names to which a size is handed down.
fn steps_of_size(call: &Call<'_>, handed: Option<Handed<'_>>) -> usize {
    let slicing = call.sizes.list.len();
    match handed {
        Some(handed) => slicing.wrapping_add(handed.sized.len()),
        None => slicing,
    }
}

/// Where the declared size of a field's list comes from; none where it is no list.
fn source_at(
    planning: &Planning<'_>,
    of: FieldId,
    args: &Args,
    taken: Option<u64>,
) -> Option<SizeSource>
    ensures { result ≡ source_at (setting_of_planning planning.now) of.number (args_data args.now) taken }
{
    if has_lists(planning.schema, of) {
        Some(planning.weights.size_source(of, args, taken))
    } else {
        None
    }
}

fn after_size<'a>(
    planning: &Planning<'a>,
    of: FieldId,
    call: &Call<'a>,
    source: Option<SizeSource>,
    handed: Option<Handed<'_>>,
    first: &Collected<'a>,
) -> Result<Looked<'a>, Why>
    ensures { LooksAfterSize planning.now of handed.entry first.now call.now source result }
{
    if lacks_types(planning.schema, of) {
        return Err(Why::NoPossibleType);
    }
    Ok(Looked {
        field: Some(of),
        source,
        arguments: call.cost,
        hands: call.hands,
    })
}

fn after_arguments<'a>(
    planning: &Planning<'a>,
    of: FieldId,
    call: &Call<'a>,
    handed: Option<Handed<'_>>,
    first: &Collected<'a>,
) -> Result<Looked<'a>, Why>
    ensures { LooksAfterArguments planning.now of handed.entry first.now call.now result }
{
    planning.work.count(steps_of_size(call, handed));
    let taken = handed_in(planning.schema, of, handed, name_of(first));
    match planning.weights.declared_size(of, &call.sizes, taken) {
        Ok(_) => {
            let source = source_at(planning, of, &call.sizes, taken);
            after_size(planning, of, call, source, handed, first)
        }
        Err(fault) => Err(Why::Size(fault)),
    }
}

fn after_first<'a>(
    alloc: Global,
    planning: &Planning<'a>,
    of: FieldId,
    handed: Option<Handed<'_>>,
    at: usize,
    first: &Collected<'a>,
    others: &[Collected<'a>],
    calls: &mut Calls<'a>,
) -> Result<Looked<'a>, Why>
    requires there { at < length calls.old.made.items }
    ensures kept { AreKept (setting_of_planning planning.now) calls.old → AreKept (setting_of_planning planning.now) calls.new }
    ensures looks { AreKept (setting_of_planning planning.now) calls.old → LooksAfterFirst planning.now of handed.entry first.now calls.old.made.items at others.now result }
{
    let looked = after_arguments(planning, of, &calls.made[at], handed, first);
    match any_differs(alloc, planning, of, at, others, calls) {
        Ok(true) => Err(Why::Conflict),
        Ok(false) => looked,
        Err(fault) => Err(Why::Argument(fault)),
    }
}

fn after_names<'a>(
    alloc: Global,
    planning: &Planning<'a>,
    of: FieldId,
    handed: Option<Handed<'_>>,
    first: &Collected<'a>,
    others: &[Collected<'a>],
    calls: &mut Calls<'a>,
) -> Result<Looked<'a>, Why>
    ensures kept { AreKept (setting_of_planning planning.now) calls.old → AreKept (setting_of_planning planning.now) calls.new }
    ensures looks { AreKept (setting_of_planning planning.now) calls.old → LooksAfterNames planning.now of handed.entry first.now others.now result }
{
    match calls.call_of(alloc, planning, of, first) {
        Ok(at) => after_first(alloc, planning, of, handed, at, first, others, calls),
        Err(fault) => Err(Why::Argument(fault)),
    }
}

fn names_differ(fields: &[Collected<'_>], name: &str) -> bool
    ensures { result ≡ names_not name.now (map collected_field fields.now) }
{
    for field in fields {
        if name_of(field) != name {
            return true;
        }
    }
    false
}

/// What is found of a node, or what was found of it before.
pub fn look_again<'a>(
    alloc: Global,
    planning: &Planning<'a>,
    of: TypeId,
    handed: Option<Handed<'_>>,
    first: &Collected<'a>,
    others: &[Collected<'a>],
    looked: Option<Looked<'a>>,
    calls: &mut Calls<'a>,
) -> Result<Looked<'a>, Why>
    ensures kept { AreKept (setting_of_planning planning.now) calls.old → AreKept (setting_of_planning planning.now) calls.new }
    ensures looks { IfSome looked.entry (IsLookedAt (setting_of_planning planning.now) of.number (handed_data handed.entry) (fields_seen first.now others.now)) → AreKept (setting_of_planning planning.now) calls.old → LooksAt (setting_of_planning planning.now) of.number handed.entry (fields_seen first.now others.now) result }
{
    match looked {
        Some(looked) => Ok(looked),
        None => look(alloc, planning, of, handed, first, others, calls),
    }
}

/// What is found of the node whose fields these are, for objects of a type, or the first test that it doesn't pass. `calls` are
/// those that were made before. The fields are counted by who keeps what is found of them, or adds its row.
pub fn look<'a>(
    alloc: Global,
    planning: &Planning<'a>,
    of: TypeId,
    handed: Option<Handed<'_>>,
    first: &Collected<'a>,
    others: &[Collected<'a>],
    calls: &mut Calls<'a>,
) -> Result<Looked<'a>, Why>
    ensures kept { AreKept (setting_of_planning planning.now) calls.old → AreKept (setting_of_planning planning.now) calls.new }
    ensures looks { AreKept (setting_of_planning planning.now) calls.old → LooksAt (setting_of_planning planning.now) of.number handed.entry (fields_seen first.now others.now) result }
{
    let name = name_of(first);
    if names_differ(others, name) {
        return Err(Why::Conflict);
    }
    match meaning_on(planning.schema, of, name) {
        Meaning::Known(field) => after_names(alloc, planning, field, handed, first, others, calls),
        Meaning::NameOfType => Ok(Looked {
            field: None,
            source: None,
            arguments: 0,
            hands: None,
        }),
        Meaning::NoSuchField => Err(Why::NoPossibleType),
    }
}
