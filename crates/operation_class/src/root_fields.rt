//! The fields at the root of an operation (GraphQL October 2021, 6.3.2, whatever directives and type conditions say).

ghost use Rattle.std.specs.Prelude.{◌≡◌, ◌≤◌, ◌+◌, ◌<◌, ◌++◌, ◌∷◌, [], ℕ, map, length, replicate, false, true, get_or, slice_set, slice_get, option_map, IfOk, IfSome, OnOk, suc};
ghost use Rattle.gql_base.specs.names.Names.{place_of_name};
ghost use Rattle.document_reader.specs.Trees.{set_tree};
ghost use Rattle.document_rules.specs.Parts.{fragment_data, fragment_name, fragments_of};
ghost use Rattle.document_rules.specs.Views.{seen_name};
ghost use Rattle.operation_class.specs.RootParts.{waiting, part_data};
ghost use Rattle.operation_class.specs.RootFields.{defined_data, root_fields};
ghost use Rattle.operation_class.specs.Steps.{unvisited, data_of, LeavesFewer, Enters, Steps};

use crate::root_parts::{Part, put_in_front};
use document_reader::{Definition, Fragment, Selection};
use gql_base::{Indexed, Name, Named};
use std::alloc::{AllocError, Global};

/// A fragment that a document defines.
#[derive(Clone, Copy)]
pub struct Defined<'a> {
    pub fragment: &'a Fragment,
}

impl<'a> Named for Defined<'a> {
    ghost name_of = { λ defined. defined.fragment.now.name.text };

    fn name(&self) -> &str {
        self.fragment.name.text.as_str()
    }
}

/// The fragments of a document, in their order.
pub fn defined_in<'a>(
    alloc: Global,
    definitions: &'a [Definition],
) -> Result<Vec<Defined<'a>>, AllocError>
    ensures { IfOk result (λ defined. map defined_data defined.items ≡ map fragment_data (fragments_of definitions.now)) }
{
    let mut defined = Vec::new(alloc);
    'definitions: for definition in definitions {
        if let Definition::Frag(fragment) = definition {
            defined.push(Defined { fragment })?;
        }
    }
    Ok(defined)
}

fn no_marks(alloc: Global, count: usize) -> Result<Vec<bool>, AllocError>
    ensures { IfOk result (λ marks. marks.items ≡ replicate count false) }
{
    let mut marks = Vec::new(alloc);
    'marks: for _at in 0..count {
        marks.push(false)?;
    }
    Ok(marks)
}

fn is_marked(marks: &[bool], at: usize) -> bool
    requires { at < length marks.now }
    ensures { result ≡ get_or marks.now at false }
{
    marks[at]
}

fn mark(marks: &mut Vec<bool>, at: usize)
    requires { at < length marks.old.items }
    ensures { marks.new.items ≡ slice_set marks.old.items at true }
{
    marks[at] = true;
}

// The number of the first fragment of a name.
fn number_of(fragments: &Indexed<Defined<'_>>, name: &str) -> Option<usize>
    ensures within { IfSome result (λ number. number < length fragments.now.items.items) }
    ensures place { result ≡ place_of_name fragment_name (data_of fragments.now.items.items) name.now }
{
    fragments.position(name)
}

// The walk comes to a spread of a fragment. Where that one was visited, it goes on.
fn visit<'a>(
    fragments: &Indexed<Defined<'a>>,
    number: usize,
    visited: &mut Vec<bool>,
    parts: &mut Vec<Part<'a>>,
) -> Result<(), AllocError>
    requires there { number < length fragments.now.items.items }
    requires marked { length visited.old.items ≡ length fragments.now.items.items }
    ensures marked { OnOk result (length visited.new.items ≡ length fragments.now.items.items) }
    ensures fewer { OnOk result (LeavesFewer fragments.now.items.items visited.old.items parts.old.items visited.new.items parts.new.items) }
    ensures enters { OnOk result (Enters fragments.now.items.items number visited.old.items parts.old.items visited.new.items parts.new.items) }
{
    if is_marked(visited, number) {
        return Ok(());
    }
    mark(visited, number);
    let fragment = fragments.items()[number].fragment;
    put_in_front(fragment.selections.as_slice(), parts)
}

// One step of the walk: a field's name is noted, or a spread is followed. One of an unknown fragment is passed over.
fn step<'a>(
    fragments: &Indexed<Defined<'a>>,
    part: Part<'a>,
    names: &mut Vec<&'a Name>,
    visited: &mut Vec<bool>,
    parts: &mut Vec<Part<'a>>,
) -> Result<(), AllocError>
    requires marked { length visited.old.items ≡ length fragments.now.items.items }
    ensures marked { OnOk result (length visited.new.items ≡ length fragments.now.items.items) }
    ensures fewer { OnOk result (LeavesFewer fragments.now.items.items visited.old.items parts.old.items visited.new.items parts.new.items) }
    ensures steps { OnOk result (Steps fragments.now.items.items (part_data part.entry) names.old.items visited.old.items parts.old.items names.new.items visited.new.items parts.new.items) }
{
    match part {
        Part::Field(name) => {
            names.push(name)?;
            Ok(())
        }
        Part::Spread(name) => match number_of(fragments, name) {
            Some(number) => visit(fragments, number, visited, parts),
            None => Ok(()),
        },
    }
}

/// The names of the fields at the root of selections, in the order in which a walk comes to them that enters each fragment
/// where it is spread first. It needs no stack, however fragments are spread in one another.
pub fn root_fields<'a>(
    alloc: Global,
    fragments: &Indexed<Defined<'a>>,
    selections: &'a [Selection],
) -> Result<Vec<&'a Name>, AllocError>
    ensures { IfOk result (λ names. map seen_name names.items ≡ root_fields (data_of fragments.now.items.items) (set_tree selections.now)) }
{
    let mut names = Vec::new(alloc);
    let mut visited = no_marks(alloc, fragments.items().len())?;
    let mut parts = Vec::new(alloc);
    put_in_front(selections, &mut parts)?;
    'parts: while let Some(part) = parts.pop() {
        step(fragments, part, &mut names, &mut visited, &mut parts)?;
    }
    Ok(names)
}
