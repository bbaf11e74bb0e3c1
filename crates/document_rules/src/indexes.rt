//! The variables of an operation and the fragments of a document, found by their names.

ghost use Rattle.std.specs.Prelude.{◌≡◌, ◌<◌, length, map, option_map, slice_get, IfOk, IfSome};
ghost use Rattle.gql_base.specs.names.Names.{first_of_name, has_name, place_of_name};
ghost use Rattle.document_reader.specs.Trees.{variable_tree};
ghost use Rattle.document_rules.specs.Parts.{fragment_data, fragment_name, fragments_of};
ghost use Rattle.document_rules.specs.Rules.{variable_name};
ghost use Rattle.document_rules.specs.Views.{declared_tree, defined_data, defined_fragment};

use counted_work::{Work, steps_of_text};
use document_reader::{Definition, Fragment, VariableDef};
use gql_base::{Indexed, Named};
use std::alloc::{AllocError, Global};

/// A variable that an operation declares.
#[derive(Clone, Copy)]
pub struct Declared<'a> {
    pub variable: &'a VariableDef,
}

impl<'a> Named for Declared<'a> {
    ghost name_of = { λ declared. declared.variable.now.name.text };

    fn name(&self) -> &str {
        self.variable.name.text.as_str()
    }
}

/// A fragment that a document defines.
#[derive(Clone, Copy)]
pub struct Defined<'a> {
    pub fragment: &'a Fragment,
}

impl<'a> Named for Defined<'a> {
    ghost name_of = { λ defined. defined.fragment.now.name.text };

    fn name(&self) -> &str {
        self.fragment.name.text.as_str()
    }
}

/// The variables of an operation, in their order.
pub fn declared_of<'a>(
    alloc: Global,
    variables: &'a [VariableDef],
) -> Result<Vec<Declared<'a>>, AllocError>
    ensures { IfOk result (λ declared. map declared_tree declared.items ≡ map variable_tree variables.now) }
{
    let mut declared = Vec::new(alloc);
    for variable in variables {
        declared.push(Declared { variable })?;
    }
    Ok(declared)
}

/// The fragments of a document, in their order.
pub fn defined_in<'a>(
    alloc: Global,
    work: Work<'_>,
    definitions: &'a [Definition],
) -> Result<Vec<Defined<'a>>, AllocError>
    ensures { IfOk result (λ defined. map defined_fragment defined.items ≡ fragments_of definitions.now) }
{
    work.take(definitions.len())?;
    let mut defined = Vec::new(alloc);
    for definition in definitions {
        if let Definition::Frag(fragment) = definition {
            work.take(1)?;
            work.take(steps_of_text(fragment.name.text.as_str().len()))?;
            defined.push(Defined { fragment })?;
        }
    }
    Ok(defined)
}

/// Whether an operation declares a variable of this name.
pub fn is_declared(variables: &Indexed<Declared<'_>>, name: &str) -> bool
    ensures { result ≡ has_name variable_name (map declared_tree variables.now.items.items) name.now }
{
    variables.has(name)
}

/// The first variable of this name.
pub fn variable_named<'a>(variables: &Indexed<Declared<'a>>, name: &str) -> Option<&'a VariableDef>
    ensures { option_map (λ v. variable_tree v.now) result ≡ first_of_name variable_name (map declared_tree variables.now.items.items) name.now }
{
    match variables.first_named(name) {
        Some(declared) => Some(declared.variable),
        None => None,
    }
}

/// Whether a document defines a fragment of this name.
pub fn is_defined(fragments: &Indexed<Defined<'_>>, name: &str) -> bool
    ensures { result ≡ has_name fragment_name (map defined_data fragments.now.items.items) name.now }
{
    fragments.has(name)
}

/// The number of the first fragment of this name.
pub fn fragment_number(fragments: &Indexed<Defined<'_>>, name: &str) -> Option<usize>
    ensures within { IfSome result (λ number. number < length fragments.now.items.items) }
    ensures place { result ≡ place_of_name fragment_name (map defined_data fragments.now.items.items) name.now }
{
    fragments.position(name)
}

/// The fragment of a number.
#[tactic(auto, using(crate::proofs::Lists::gotten))]
pub fn fragment_of<'a>(defined: &[Defined<'a>], number: usize) -> Option<&'a Fragment>
    ensures same { option_map (λ f. f.now) result ≡ slice_get (map defined_fragment defined.now) number }
    ensures data { option_map (λ f. fragment_data f.now) result ≡ slice_get (map defined_data defined.now) number }
{
    match defined.get(number) {
        Some(one) => Some(one.fragment),
        None => None,
    }
}
