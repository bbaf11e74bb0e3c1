//! A variable's type fits the place where the variable stands (GraphQL October 2021, 5.8.5).

ghost use Rattle.std.specs.Prelude.{◌≡◌, ◌||◌, false, map};
ghost use Rattle.std.specs.Str.{bytes_eq};
ghost use Rattle.schema_rules.specs.Views.{literal_tree};
ghost use Rattle.schema_model.specs.SchemaData.{type_at};
ghost use Rattle.gql_base.specs.names.Names.{first_of_name};
ghost use Rattle.gql_base.specs.parts.Values.{values_from, fields_from};
ghost use Rattle.gql_base.specs.parts.Trees.{identifier_of, value_tree, named_value, directive_tree, type_tree, maybe_value};
ghost use Rattle.document_reader.specs.Trees.{variable_tree};
ghost use Rattle.input_values.specs.inputs.Shapes.{shape_tree};
ghost use Rattle.gql_base.specs.declared.parts.trees.Name.{Name};
ghost use Rattle.schema_rules.specs.First.{first_of};
ghost use Rattle.schema_model.specs.SchemaViews.{schema_data};
ghost use Rattle.document_rules.specs.VariablePlaces.{at_items, uses_in, uses_in_items, uses_in_fields, uses_in_field, fits, fits_name, fits_list, fits_condition, is_null, has_value, is_usable};
ghost use Rattle.document_rules.specs.Rules.{variable_name, fits_boolean, no_condition, misplaced, misplaced_among, misplaced_condition, misplaced_in_condition, misplaced_in_directive, misplaced_in_arguments};
ghost use Rattle.document_rules.specs.Views.{site_data, use_at, input_in};
ghost use Rattle.document_rules.specs.LookedUp.{schema_of, variables_of};

use crate::indexes::{Declared, variable_named};
use crate::lookups::{Inputs, Meaning, input_named};
use crate::site_rule::{SiteRule, fault_where};
use crate::sites::Site;
use counted_work::{Work, steps_of_text};
use document_reader::VariableDef;
use gql_base::{Argument, Directive, Indexed, Name, TypeRef, Value};
use input_values::places::innermost;
use input_values::{Shape, ShapeLevel, shape_level};
use schema_model::Schema;
use schema_rules::{Literal, opened};
use std::alloc::{AllocError, Global};

/// Refuses a variable whose type doesn't fit the place where it stands.
#[derive(Clone, Copy)]
pub struct VariablePlace<'c, 'a> {
    pub schema: &'c Schema,
    pub variables: &'c Indexed<Declared<'a>>,
    pub work: Work<'c>,
}

fn null_fits(never_null: bool, nullable: bool) -> bool
    ensures { result ≡ (never_null || nullable) }
{
    never_null || nullable
}

/// Whether a named type fits a place.
fn fits_name(schema: &Schema, never_null: bool, name: &Name, place: &Shape) -> bool
    ensures { result ≡ fits_name (λ of. bytes_eq name.now.text (type_at (schema_data schema.now) of).name) never_null (shape_tree place.now) }
{
    match shape_level(place) {
        ShapeLevel::Named { of, nullable } => {
            null_fits(never_null, nullable)
                && name.text.as_bytes() == schema.type_name(of).as_bytes()
        }
        ShapeLevel::ListOf { .. } => false,
    }
}

/// Whether each value of a type may stand at a place. Null may come only where it may stand, or where `never_null` says
/// that it never comes.
#[cycle(fits)]
#[tactic(auto, using(crate::proofs::Opened::fits_levels))]
fn fits(schema: &Schema, never_null: bool, of: &TypeRef, place: &Shape) -> bool
    ensures { result ≡ fits (schema_data schema.now) never_null (type_tree of.now) (shape_tree place.now) }
{
    match of {
        TypeRef::NonNull(inner) => fits(schema, true, &**inner, place),
        TypeRef::Named(name) => fits_name(schema, never_null, name, place),
        TypeRef::ListOf(item) => fits_list(schema, never_null, &**item, place),
    }
}

/// Whether a list of items of a type fits a place.
#[cycle(fits)]
fn fits_list(schema: &Schema, never_null: bool, item: &TypeRef, place: &Shape) -> bool
    ensures { result ≡ fits_list (fits (schema_data schema.now) false (type_tree item.now)) never_null (shape_tree place.now) }
{
    match shape_level(place) {
        ShapeLevel::Named { .. } => false,
        ShapeLevel::ListOf {
            item: place,
            nullable,
        } => { null_fits(never_null, nullable) && fits(schema, false, item, place) }
    }
}

fn is_null(literal: Literal<'_>) -> bool
    ensures { result ≡ is_null (literal_tree literal.entry) }
{
    match literal {
        Literal::Null => true,
        _ => false,
    }
}

/// Whether a variable has a default other than null.
fn has_value(default: &Option<Value>) -> bool
    ensures { result ≡ has_value (maybe_value default.now) }
{
    match default {
        None => false,
        Some(value) => !is_null(opened(value)),
    }
}

fn is_usable(schema: &Schema, variable: &VariableDef, place: &Shape, has_default: bool) -> bool
    ensures { (name : Name) → result ≡ is_usable (schema_data schema.now) (variable_tree variable.now) (use_at name place.now has_default) }
{
    fits(
        schema,
        has_value(&variable.default) || has_default,
        &variable.of,
        place,
    )
}

/// A variable at a place.
fn misplaced(
    rule: &VariablePlace<'_, '_>,
    place: &Shape,
    has_default: bool,
    name: &Name,
) -> Option<usize>
    ensures { result ≡ misplaced (schema_of rule.now) (variables_of rule.now) (use_at name.now place.now has_default) }
{
    match variable_named(rule.variables, name.text.as_str()) {
        Some(variable) => {
            let usable = is_usable(rule.schema, variable, place, has_default);
            fault_where(!usable, name.at)
        }
        None => None,
    }
}

/// The variables of a value that stands at a place.
#[cycle(places)]
fn in_value(
    value: &Value,
    rule: &VariablePlace<'_, '_>,
    place: &Shape,
    has_default: bool,
) -> Option<usize>
    ensures { result ≡ misplaced_among (schema_of rule.now) (variables_of rule.now) (λ s. uses_in s (shape_tree place.now) has_default (value_tree value.now)) }
{
    rule.work.count(1);
    match value {
        Value::Var(name) => misplaced(rule, place, has_default, name),
        Value::List(items) => in_list(items.as_slice(), rule, place),
        Value::Object(fields) => {
            let inputs = Inputs::Fields(innermost(place));
            in_fields(fields.as_slice(), rule, inputs)
        }
        Value::Int(_number) => None,
        Value::Float(_text) => None,
        Value::Str(_text) => None,
        Value::Bool(_truth) => None,
        Value::Null => None,
        Value::EnumName(_name) => None,
    }
}

#[cycle(places)]
fn in_list(items: &[Value], rule: &VariablePlace<'_, '_>, place: &Shape) -> Option<usize>
    ensures { result ≡ misplaced_among (schema_of rule.now) (variables_of rule.now) (λ s. at_items (λ item. uses_in_items s item (values_from (map value_tree items.now))) (shape_tree place.now)) }
{
    match shape_level(place) {
        ShapeLevel::Named { .. } => None,
        ShapeLevel::ListOf { item, .. } => in_items(items, rule, item),
    }
}

#[cycle(places)]
fn in_items(items: &[Value], rule: &VariablePlace<'_, '_>, item: &Shape) -> Option<usize>
    ensures { result ≡ misplaced_among (schema_of rule.now) (variables_of rule.now) (λ s. uses_in_items s (shape_tree item.now) (values_from (map value_tree items.now))) }
{
    for value in items {
        match in_value(value, rule, item, false) {
            Some(at) => return Some(at),
            None => {}
        }
    }
    None
}

/// The variables of arguments, or of the fields of an object, where these may stand.
#[cycle(places)]
fn in_fields(fields: &[Argument], rule: &VariablePlace<'_, '_>, inputs: Inputs) -> Option<usize>
    ensures { result ≡ misplaced_among (schema_of rule.now) (variables_of rule.now) (λ s. uses_in_fields s (input_in s inputs) (fields_from (map named_value fields.now))) }
{
    for field in fields {
        match in_field(field, rule, inputs) {
            Some(at) => return Some(at),
            None => {}
        }
    }
    None
}

#[cycle(places)]
fn in_field(field: &Argument, rule: &VariablePlace<'_, '_>, inputs: Inputs) -> Option<usize>
    ensures { result ≡ misplaced_among (schema_of rule.now) (variables_of rule.now) (λ s. uses_in_field s (input_in s inputs) (named_value field.now)) }
{
    let name = field.name.text.as_str();
    rule.work.count(steps_of_text(name.len()));
    match input_named(rule.schema, inputs, name) {
        Some(input) => in_value(&field.value, rule, &input.shape, input.default.is_some()),
        None => None,
    }
}

/// The variables of a field's arguments.
fn in_arguments(rule: &VariablePlace<'_, '_>, site: Site<'_>) -> Option<usize>
    ensures { result ≡ misplaced_in_arguments (schema_of rule.now) (variables_of rule.now) (site_data site.entry) }
{
    match site {
        Site::Field { meaning, field } => match meaning {
            Meaning::Known(known) => {
                in_fields(field.arguments.as_slice(), rule, Inputs::Arguments(known))
            }
            Meaning::NoPosition | Meaning::NoSuchField | Meaning::NameOfType => None,
        },
        _ => None,
    }
}

/// Whether each value of a type may stand at `Boolean!`, where null never comes or it is said that it doesn't.
#[tactic(auto, using(crate::proofs::Opened::condition_levels))]
fn fits_condition(never_null: bool, of: &TypeRef) -> bool
    ensures { result ≡ fits_condition never_null (type_tree of.now) }
{
    match of {
        TypeRef::NonNull(inner) => fits_condition(true, &**inner),
        TypeRef::Named(name) => never_null && name.text.as_str() == "Boolean",
        TypeRef::ListOf(_) => false,
    }
}

fn fits_boolean(variable: &VariableDef) -> bool
    ensures { result ≡ fits_boolean (variable_tree variable.now) }
{
    fits_condition(has_value(&variable.default), &variable.of)
}

/// A variable at `Boolean!`.
fn no_condition(rule: &VariablePlace<'_, '_>, at: usize, name: &str) -> Option<usize>
    ensures { result ≡ no_condition at (first_of_name variable_name (variables_of rule.now) name.now) }
{
    match variable_named(rule.variables, name) {
        Some(variable) => fault_where(!fits_boolean(variable), at),
        None => None,
    }
}

fn misplaced_condition(rule: &VariablePlace<'_, '_>, literal: Literal<'_>) -> Option<usize>
    ensures { result ≡ misplaced_condition (variables_of rule.now) (literal_tree literal.entry) }
{
    match literal {
        Literal::Var { name, at } => no_condition(rule, at, name),
        _ => None,
    }
}

/// The variable of an argument of a directive.
#[tactic(auto, using(crate::proofs::Opened::opened_arguments))]
fn in_condition(rule: &VariablePlace<'_, '_>, argument: &Argument) -> Option<usize>
    ensures { result ≡ misplaced_in_condition (variables_of rule.now) (named_value argument.now) }
{
    misplaced_condition(rule, opened(&argument.value))
}

fn in_conditions(rule: &VariablePlace<'_, '_>, arguments: &[Argument]) -> Option<usize>
    ensures { result ≡ first_of (misplaced_in_condition (variables_of rule.now)) (map named_value arguments.now) }
{
    for argument in arguments {
        if let Some(at) = in_condition(rule, argument) {
            return Some(at);
        }
    }
    None
}

fn in_directives(rule: &VariablePlace<'_, '_>, directives: &[Directive]) -> Option<usize>
    ensures { result ≡ first_of (misplaced_in_directive (variables_of rule.now)) (map directive_tree directives.now) }
{
    for directive in directives {
        if let Some(at) = in_conditions(rule, directive.arguments.as_slice()) {
            return Some(at);
        }
    }
    None
}

impl<'c, 'a> SiteRule for VariablePlace<'c, 'a> {
    ghost use Rattle.std.specs.Prelude.{map};
    ghost use Rattle.schema_model.specs.SchemaViews.{schema_data};
    ghost use Rattle.document_rules.specs.Rules.{variable_place};
    ghost use Rattle.document_rules.specs.Views.{declared_tree};

    ghost breaks = { λ rule. variable_place (schema_data rule.schema.now) (map declared_tree rule.variables.now.items.items) };

    fn broken(&self, _alloc: Global, site: Site<'_>) -> Result<Option<usize>, AllocError> {
        match in_arguments(self, site) {
            Some(at) => Ok(Some(at)),
            None => Ok(in_directives(self, site.directives())),
        }
    }
}
