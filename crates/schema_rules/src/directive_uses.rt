//! What the cost directives (IBM GraphQL Cost Directives Specification) and `@floats` say where they are applied.

ghost use Rattle.std.specs.Prelude.{◌≡◌, map, drop, length, nat_le, codes, find, Option, Some, None};
ghost use Rattle.std.specs.List.{list_all, list_any, filter};
ghost use Rattle.std.specs.Str.{bytes_eq};
ghost use Rattle.gql_base.specs.names.Names.{are_distinct};
ghost use Rattle.gql_base.specs.parts.Trees.{value_tree, named_value, directive_tree};
ghost use Rattle.gql_base.specs.parts.Values.{values_from};
ghost use Rattle.schema_rules.specs.DirectiveUses.{string_in, is_string, is_maybe_int, is_maybe_boolean, are_strings, are_maybe_strings, one_weight, weight_text, fits_size, is_size_argument, are_size_arguments, has_no_argument, is_right, is_use_of, is_rare, are_right, is_lax, is_some_text, argument_name, given_weight, size_arguments};
ghost use Rattle.schema_rules.specs.Views.{literal_tree, maybe_name, maybe_arguments};

use crate::literals::{Literal, opened};
use gql_base::{Argument, Directive, NameIndex, Named, Value, is_int};

fn string_in<'a>(literal: Literal<'a>) -> Option<&'a str>
    ensures { maybe_name result ≡ string_in (literal_tree literal.entry) }
{
    match literal {
        Literal::Str(text) => Some(text),
        _ => None,
    }
}

fn is_string(literal: Literal<'_>) -> bool
    ensures { result ≡ is_string (literal_tree literal.entry) }
{
    match literal {
        Literal::Str(_) => true,
        _ => false,
    }
}

fn is_maybe_int(literal: Literal<'_>) -> bool
    ensures { result ≡ is_maybe_int (literal_tree literal.entry) }
{
    match literal {
        Literal::Int(number) => is_int(number),
        Literal::Null => true,
        _ => false,
    }
}

fn is_maybe_boolean(literal: Literal<'_>) -> bool
    ensures { result ≡ is_maybe_boolean (literal_tree literal.entry) }
{
    match literal {
        Literal::Bool(_) => true,
        Literal::Null => true,
        _ => false,
    }
}

#[tactic(auto, unfolding(crate::specs::DirectiveUses::are_strings))]
fn are_strings(values: &[Value]) -> bool
    ensures { result ≡ are_strings (values_from (map value_tree values.now)) }
{
    for value in values {
        if !is_string(opened(value)) {
            return false;
        }
    }
    true
}

fn are_maybe_strings(literal: Literal<'_>) -> bool
    ensures { result ≡ are_maybe_strings (literal_tree literal.entry) }
{
    match literal {
        Literal::Str(_) => true,
        Literal::Null => true,
        Literal::List(values) => are_strings(values),
        _ => false,
    }
}

#[tactic(auto, using(crate::proofs::Namings::opened_arguments))]
fn one_weight(argument: &Argument) -> Option<&str>
    ensures { maybe_name result ≡ one_weight (named_value argument.now) }
{
    if argument.name.text.as_str() == "weight" {
        string_in(opened(&argument.value))
    } else {
        None
    }
}

// The weight that `@cost` has, where its arguments are right.
fn weight_text(arguments: &[Argument]) -> Option<&str>
    ensures { maybe_name result ≡ weight_text (map named_value arguments.now) }
{
    match arguments {
        [argument] => one_weight(argument),
        _ => None,
    }
}

fn fits_size(name: &str, literal: Literal<'_>) -> bool
    ensures { result ≡ fits_size name.now (literal_tree literal.entry) }
{
    if name == "assumedSize" {
        is_maybe_int(literal)
    } else if name == "slicingArguments" {
        are_maybe_strings(literal)
    } else if name == "sizedFields" {
        are_maybe_strings(literal)
    } else if name == "requireOneSlicingArgument" {
        is_maybe_boolean(literal)
    } else {
        false
    }
}

#[tactic(auto, using(crate::proofs::Namings::opened_arguments))]
fn is_size_argument(argument: &Argument) -> bool
    ensures { result ≡ is_size_argument (named_value argument.now) }
{
    fits_size(argument.name.text.as_str(), opened(&argument.value))
}

fn all_fit(arguments: &[Argument]) -> bool
    ensures { result ≡ list_all is_size_argument (map named_value arguments.now) }
{
    for argument in arguments {
        if !is_size_argument(argument) {
            return false;
        }
    }
    true
}

// Whether no argument stands twice. There are four names, so that this takes few steps where each argument fits.
fn are_distinct(arguments: &[Argument]) -> bool
    ensures { result ≡ are_distinct (map argument_name (map named_value arguments.now)) }
{
    for at in 0..arguments.len() {
        if is_named_from(arguments, at + 1, name_of(&arguments[at])) {
            return false;
        }
    }
    true
}

#[tactic(auto, using(crate::proofs::Namings::opened_arguments))]
fn has_name(argument: &Argument, name: &str) -> bool
    ensures { result ≡ bytes_eq name.now (argument_name (named_value argument.now)) }
{
    name == argument.name.text.as_str()
}

#[tactic(auto, using(crate::proofs::Namings::opened_arguments))]
fn name_of(argument: &Argument) -> &str
    ensures { result.now ≡ argument_name (named_value argument.now) }
{
    argument.name.text.as_str()
}

// Whether one of the arguments from a place on has this name.
fn is_named_from(arguments: &[Argument], from: usize, name: &str) -> bool
    ensures { result ≡ list_any (bytes_eq name.now) (map argument_name (map named_value (drop from arguments.now))) }
{
    for at in from..arguments.len() {
        if has_name(&arguments[at], name) {
            return true;
        }
    }
    false
}

fn are_size_arguments(arguments: &[Argument]) -> bool
    ensures { result ≡ are_size_arguments (map named_value arguments.now) }
{
    if all_fit(arguments) {
        are_distinct(arguments)
    } else {
        false
    }
}

fn has_no_argument(arguments: &[Argument]) -> bool
    ensures { result ≡ has_no_argument (map named_value arguments.now) }
{
    match arguments {
        [] => true,
        _ => false,
    }
}

fn is_right(may_cost: bool, may_size: bool, may_float: bool, directive: &Directive) -> bool
    ensures { result ≡ is_right may_cost may_size may_float (directive_tree directive.now) }
{
    if directive.name.text.as_str() == "cost" {
        if may_cost {
            weight_text(&directive.arguments).is_some()
        } else {
            false
        }
    } else if directive.name.text.as_str() == "listSize" {
        if may_size {
            are_size_arguments(&directive.arguments)
        } else {
            false
        }
    } else if directive.name.text.as_str() == "floats" {
        may_float && has_no_argument(&directive.arguments)
    } else {
        true
    }
}

fn all_right(may_cost: bool, may_size: bool, may_float: bool, directives: &[Directive]) -> bool
    ensures { result ≡ list_all (is_right may_cost may_size may_float) (map directive_tree directives.now) }
{
    for directive in directives {
        if !is_right(may_cost, may_size, may_float, directive) {
            return false;
        }
    }
    true
}

fn is_use_of(name: &str, directive: &Directive) -> bool
    ensures { result ≡ is_use_of name.now (directive_tree directive.now) }
{
    directive.name.text.as_str() == name
}

// Whether one of the directives from a place on has this name.
fn is_used_from(name: &str, from: usize, directives: &[Directive]) -> bool
    ensures { result ≡ list_any (is_use_of name.now) (map directive_tree (drop from directives.now)) }
{
    for at in from..directives.len() {
        if is_use_of(name, &directives[at]) {
            return true;
        }
    }
    false
}

fn is_rare(name: &str, directives: &[Directive]) -> bool
    ensures { result ≡ is_rare name.now (map directive_tree directives.now) }
{
    for at in 0..directives.len() {
        if is_use_of(name, &directives[at]) {
            return !is_used_from(name, at + 1, directives);
        }
    }
    true
}

/// Whether the directives of a place are right, where `@cost`, `@listSize` and `@floats` may stand there, or may not.
pub fn are_right(may_cost: bool, may_size: bool, may_float: bool, directives: &[Directive]) -> bool
    ensures { result ≡ are_right may_cost may_size may_float (map directive_tree directives.now) }
{
    if all_right(may_cost, may_size, may_float, directives) {
        is_rare("cost", directives)
            && (is_rare("listSize", directives) && is_rare("floats", directives))
    } else {
        false
    }
}

/// Whether `@floats` is one of the directives: the scalar that has it may hold numbers that aren't whole.
pub fn is_lax(directives: &[Directive]) -> bool
    ensures { result ≡ is_lax (map directive_tree directives.now) }
{
    is_used_from("floats", 0, directives)
}

/// The text of the weight that the first `@cost` has, where its arguments are right.
pub fn given_weight(directives: &[Directive]) -> Option<&str>
    ensures { maybe_name result ≡ given_weight (map directive_tree directives.now) }
{
    for directive in directives {
        if is_use_of("cost", directive) {
            return weight_text(&directive.arguments);
        }
    }
    None
}

/// The arguments of the first `@listSize`.
pub fn size_arguments(directives: &[Directive]) -> Option<&[Argument]>
    ensures { maybe_arguments result ≡ size_arguments (map directive_tree directives.now) }
{
    for directive in directives {
        if is_use_of("listSize", directive) {
            return Some(&directive.arguments);
        }
    }
    None
}
