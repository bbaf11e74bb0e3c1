//! The check of an operation: the rules in their order.

ghost use Rattle.std.specs.Prelude.{◌≡◌, map, option_map, Some, None, IfOk, IsSome};
ghost use Rattle.document_reader.specs.declared.trees.Operation.{Operation};
ghost use Rattle.document_reader.specs.Trees.{variable_tree};
ghost use Rattle.schema_model.specs.SchemaViews.{schema_data};
ghost use Rattle.document_rules.specs.Parts.{operation_at};
ghost use Rattle.document_rules.specs.Rules.{repeated_name, lone_anonymous, subscription, no_root};
ghost use Rattle.document_rules.specs.Sites.{type_of_kind};
ghost use Rattle.document_rules.specs.Checking.{breach, first_breach, rules_of_fragments, rules_of_directives, rules_of_fields, rules_of_variables, rules_of_arguments, breach_of_sites, breach_of_parts, breach_before_parts, first_broken, IsCheckOf, IsChecked, AnswersBreach, AnswersCheck, PartsAnswer, TellsParts};
ghost use Rattle.document_rules.specs.Views.{declared_tree, defined_data, met_data, site_data};
ghost use Rattle.document_rules.specs.LookedUp.{schema_named, fragments_named, met_named, variables_named};

use crate::indexes::{Declared, Defined, declared_of, defined_in};
use crate::lookups::type_of_kind;
use crate::met::{Met, fragments_met, reach};
use crate::rule::{Rule, RuleFault};
use crate::rules::composite_without::CompositeWithout;
use crate::rules::custom_directive::CustomDirective;
use crate::rules::directive_use::DirectiveUse;
use crate::rules::fragment_cycle::FragmentCycle;
use crate::rules::fragment_on::FragmentOn;
use crate::rules::introspection::Introspection;
use crate::rules::leaf_with_selection::LeafWithSelection;
use crate::rules::lone_anonymous::lone_anonymous;
use crate::rules::no_root::no_root;
use crate::rules::repeated_argument::RepeatedArgument;
use crate::rules::repeated_name::repeated_name;
use crate::rules::repeated_variable::RepeatedVariable;
use crate::rules::subscription::subscription;
use crate::rules::undefined_variable::UndefinedVariable;
use crate::rules::unknown_argument::UnknownArgument;
use crate::rules::unknown_directive::UnknownDirective;
use crate::rules::unknown_field::UnknownField;
use crate::rules::unknown_fragment::UnknownFragment;
use crate::rules::variable_place::VariablePlace;
use crate::rules::variable_type::VariableType;
use crate::site_rule::first_broken;
use crate::sites::{Site, sites_of};
use counted_work::Work;
use document_reader::{Definition, Document, Fragment, Operation};
use gql_base::{Indexed, index_owned};
use input_values::TypeId;
use schema_model::Schema;
use std::alloc::{AllocError, Global};

/// An operation of a document that breaks no rule.
#[derive(Drop)]
pub struct Checked<'a> {
    document: &'a Document,
    operation: &'a Operation,
    /// The fragments that it reaches, in the order in which they are first met.
    fragments: Vec<&'a Fragment>,
    root: TypeId,
}

impl<'a> Checked<'a> {
    /// The operation that was checked.
    pub fn operation(&self) -> &'a Operation
        ensures { result.now ≡ self.now.operation.now }
    {
        self.operation
    }

    /// The fragments that the operation reaches, in the order in which they are first met.
    pub fn fragments(&self) -> &[&'a Fragment]
        ensures { result.now ≡ self.now.fragments.items }
    {
        self.fragments.as_slice()
    }

    /// The type on which the operation's selections are written.
    pub fn root(&self) -> TypeId
        ensures { result ≡ self.now.root }
    {
        self.root
    }

    /// The whole document that was checked.
    pub fn document(&self) -> &'a Document
        ensures { result.now ≡ self.now.document.now }
    {
        self.document
    }
}

/// What the rules on parts of an operation look things up in.
#[derive(Clone, Copy)]
struct Names<'c, 'a> {
    work: Work<'c>,
    schema: &'c Schema,
    fragments: &'c Indexed<Defined<'a>>,
    met: &'c [Met],
    variables: &'c Indexed<Declared<'a>>,
}

fn breach_of_fragments(
    alloc: Global,
    names: &Names<'_, '_>,
    sites: &[Site<'_>],
) -> Result<Option<(Rule, usize)>, AllocError>
    ensures { IfOk result (λ b. b ≡ first_breach (rules_of_fragments (schema_named names.now) (fragments_named names.now) (met_named names.now)) (map site_data sites.now)) }
{
    names.work.take(sites.len())?;
    let fragments = names.fragments;
    if let Some(at) = first_broken(alloc, &UnknownFragment { fragments }, sites)? {
        return Ok(Some((Rule::UnknownFragment, at)));
    }
    let cycle = FragmentCycle {
        fragments,
        met: names.met,
        work: names.work,
    };
    if let Some(at) = first_broken(alloc, &cycle, sites)? {
        return Ok(Some((Rule::FragmentCycle, at)));
    }
    let schema = names.schema;
    if let Some(at) = first_broken(alloc, &FragmentOn { schema }, sites)? {
        return Ok(Some((Rule::FragmentOn, at)));
    }
    Ok(None)
}

fn breach_of_directives(
    alloc: Global,
    work: Work<'_>,
    schema: &Schema,
    sites: &[Site<'_>],
) -> Result<Option<(Rule, usize)>, AllocError>
    ensures { IfOk result (λ b. b ≡ first_breach (rules_of_directives (schema_data schema.now)) (map site_data sites.now)) }
{
    work.take(sites.len())?;
    if let Some(at) = first_broken(alloc, &UnknownDirective { schema }, sites)? {
        return Ok(Some((Rule::UnknownDirective, at)));
    }
    if let Some(at) = first_broken(alloc, &CustomDirective { schema }, sites)? {
        return Ok(Some((Rule::CustomDirective, at)));
    }
    if let Some(at) = first_broken(alloc, &DirectiveUse, sites)? {
        return Ok(Some((Rule::DirectiveUse, at)));
    }
    Ok(None)
}

fn breach_of_fields(
    alloc: Global,
    work: Work<'_>,
    schema: &Schema,
    sites: &[Site<'_>],
) -> Result<Option<(Rule, usize)>, AllocError>
    ensures { IfOk result (λ b. b ≡ first_breach (rules_of_fields (schema_data schema.now)) (map site_data sites.now)) }
{
    work.take(sites.len())?;
    if let Some(at) = first_broken(alloc, &Introspection { schema }, sites)? {
        return Ok(Some((Rule::Introspection, at)));
    }
    if let Some(at) = first_broken(alloc, &UnknownField, sites)? {
        return Ok(Some((Rule::UnknownField, at)));
    }
    if let Some(at) = first_broken(alloc, &LeafWithSelection { schema }, sites)? {
        return Ok(Some((Rule::LeafWithSelection, at)));
    }
    if let Some(at) = first_broken(alloc, &CompositeWithout { schema }, sites)? {
        return Ok(Some((Rule::CompositeWithout, at)));
    }
    Ok(None)
}

fn breach_of_variables(
    alloc: Global,
    names: &Names<'_, '_>,
    sites: &[Site<'_>],
) -> Result<Option<(Rule, usize)>, AllocError>
    ensures { IfOk result (λ b. b ≡ first_breach (rules_of_variables (schema_data names.now.schema.now) (map declared_tree names.now.variables.now.items.items)) (map site_data sites.now)) }
{
    let work = names.work;
    work.take(sites.len())?;
    if let Some(at) = first_broken(alloc, &RepeatedVariable, sites)? {
        return Ok(Some((Rule::RepeatedVariable, at)));
    }
    let schema = names.schema;
    if let Some(at) = first_broken(alloc, &VariableType { schema }, sites)? {
        return Ok(Some((Rule::VariableType, at)));
    }
    let variables = names.variables;
    if let Some(at) = first_broken(alloc, &UndefinedVariable { variables, work }, sites)? {
        return Ok(Some((Rule::UndefinedVariable, at)));
    }
    Ok(None)
}

fn breach_of_arguments(
    alloc: Global,
    names: &Names<'_, '_>,
    sites: &[Site<'_>],
) -> Result<Option<(Rule, usize)>, AllocError>
    ensures { IfOk result (λ b. b ≡ first_breach (rules_of_arguments (schema_data names.now.schema.now) (map declared_tree names.now.variables.now.items.items)) (map site_data sites.now)) }
{
    let work = names.work;
    work.take(sites.len())?;
    let schema = names.schema;
    if let Some(at) = first_broken(alloc, &UnknownArgument { schema }, sites)? {
        return Ok(Some((Rule::UnknownArgument, at)));
    }
    if let Some(at) = first_broken(alloc, &RepeatedArgument, sites)? {
        return Ok(Some((Rule::RepeatedArgument, at)));
    }
    let variables = names.variables;
    let places = VariablePlace {
        schema,
        variables,
        work,
    };
    if let Some(at) = first_broken(alloc, &places, sites)? {
        return Ok(Some((Rule::VariablePlace, at)));
    }
    Ok(None)
}

/// The first broken rule of those on the parts of an operation.
fn breach_of_sites(
    alloc: Global,
    names: &Names<'_, '_>,
    sites: &[Site<'_>],
) -> Result<Option<(Rule, usize)>, AllocError>
    ensures { IfOk result (λ b. b ≡ breach_of_sites (schema_named names.now) (fragments_named names.now) (met_named names.now) (variables_named names.now) (map site_data sites.now)) }
{
    if let Some(found) = breach_of_fragments(alloc, names, sites)? {
        return Ok(Some(found));
    }
    if let Some(found) = breach_of_directives(alloc, names.work, names.schema, sites)? {
        return Ok(Some(found));
    }
    if let Some(found) = breach_of_fields(alloc, names.work, names.schema, sites)? {
        return Ok(Some(found));
    }
    if let Some(found) = breach_of_variables(alloc, names, sites)? {
        return Ok(Some(found));
    }
    breach_of_arguments(alloc, names, sites)
}

/// The same for an operation whose selections are written on a type.
fn breach_of_parts<'a>(
    alloc: Global,
    work: Work<'_>,
    schema: &Schema,
    operation: &'a Operation,
    root: TypeId,
    fragments: &Indexed<Defined<'a>>,
    met: &[Met],
) -> Result<Option<(Rule, usize)>, AllocError>
    ensures { TellsParts (schema_data schema.now) (map defined_data fragments.now.items.items) operation.now (map met_data met.now) root.number result }
{
    work.take(operation.variables.len())?;
    let declared = declared_of(alloc, operation.variables.as_slice())?;
    let variables = index_owned(alloc, declared)?;
    let sites = sites_of(alloc, work, schema, operation, root, fragments.items(), met)?;
    let names = Names {
        work,
        schema,
        fragments,
        met,
        variables: &variables,
    };
    breach_of_sites(alloc, &names, sites.as_slice())
}

/// The first broken rule of those on the whole document and on the kind of the operation.
fn breach_before_parts(
    alloc: Global,
    work: Work<'_>,
    schema: &Schema,
    definitions: &[Definition],
    operation: &Operation,
) -> Result<Option<(Rule, usize)>, AllocError>
    ensures { IfOk result (λ b. b ≡ breach_before_parts (schema_data schema.now) definitions.now operation.now) }
{
    if let Some(at) = repeated_name(alloc, work, definitions)? {
        return Ok(Some((Rule::RepeatedName, at)));
    }
    if let Some(at) = lone_anonymous(definitions) {
        return Ok(Some((Rule::LoneAnonymous, at)));
    }
    if let Some(at) = subscription(operation) {
        return Ok(Some((Rule::Subscription, at)));
    }
    if let Some(at) = no_root(schema, operation) {
        return Ok(Some((Rule::NoRoot, at)));
    }
    Ok(None)
}

/// The check of an operation whose selections are written on a type.
fn check_parts<'a>(
    alloc: Global,
    work: Work<'_>,
    schema: &Schema,
    document: &'a Document,
    operation: &'a Operation,
    root: TypeId,
) -> Result<Checked<'a>, RuleFault>
    ensures { PartsAnswer (schema_data schema.now) document.now.definitions.items operation.now root.number result }
{
    let defined = defined_in(alloc, work, document.definitions.as_slice())?;
    let fragments = index_owned(alloc, defined)?;
    let met = reach(alloc, work, &fragments, operation.selections.as_slice())?;
    match breach_of_parts(
        alloc,
        work,
        schema,
        operation,
        root,
        &fragments,
        met.as_slice(),
    )? {
        Some((rule, at)) => Err(RuleFault::Broken { rule, at }),
        None => Ok(Checked {
            document,
            operation,
            fragments: fragments_met(alloc, fragments.items(), met.as_slice())?,
            root,
        }),
    }
}

/// The check of an operation.
fn check_operation<'a>(
    alloc: Global,
    work: Work<'_>,
    schema: &Schema,
    document: &'a Document,
    operation: &'a Operation,
) -> Result<Checked<'a>, RuleFault>
    ensures { AnswersBreach (IsCheckOf (schema_data schema.now) document.now.definitions.items operation.now) result (first_broken (schema_data schema.now) document.now.definitions.items operation.now) }
{
    match breach_before_parts(
        alloc,
        work,
        schema,
        document.definitions.as_slice(),
        operation,
    )? {
        Some((rule, at)) => Err(RuleFault::Broken { rule, at }),
        None => match type_of_kind(schema, operation.kind) {
            Some(root) => check_parts(alloc, work, schema, document, operation, root),
            None => unreachable!(),
        },
    }
}

/// The operation at a place among definitions.
fn operation_at(definitions: &[Definition], place: usize) -> Option<&Operation>
    ensures { option_map (λ o. o.now) result ≡ operation_at definitions.now place }
{
    match definitions.get(place) {
        Some(Definition::Op(operation)) => Some(operation),
        Some(Definition::Frag(_)) => None,
        None => None,
    }
}

/// Checks the operation at a place among a document's definitions: by the rules in their order, those on the document and
/// those on the operation and the fragments that it reaches (GraphQL October 2021, 5). The answer is the first rule that
/// is broken, with the first place at which it is: in the operation, or else in the fragments in the order in which they
/// are first met.
///
/// It asks that an operation stands there. Where too few steps are left it fails as for want of memory.
pub fn check<'a>(
    alloc: Global,
    work: Work<'_>,
    schema: &Schema,
    document: &'a Document,
    picked: usize,
) -> Result<Checked<'a>, RuleFault>
    requires { IsSome (operation_at document.now.definitions.items picked) }
    ensures answer { AnswersCheck (schema_data schema.now) document.now.definitions.items picked result }
    ensures checked { IfOk result (IsChecked (schema_data schema.now)) }
{
    match operation_at(document.definitions.as_slice(), picked) {
        Some(operation) => check_operation(alloc, work, schema, document, operation),
        None => unreachable!(),
    }
}
