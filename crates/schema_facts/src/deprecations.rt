//! What the directives `@deprecated` and `@specifiedBy` say (GraphQL October 2021, 3.13.3 and 3.13.4).

ghost use Rattle.std.specs.Prelude.{◌≡◌, map, codes, option_map, slice_get};
ghost use Rattle.gql_base.specs.parts.Trees.{named_value, directive_tree, value_tree};
ghost use Rattle.schema_rules.specs.DirectiveUses.{string_in};
ghost use Rattle.schema_rules.specs.Views.{maybe_name, literal_tree, maybe_arguments};
ghost use Rattle.schema_facts.specs.Deprecations.{arguments_of, arguments_in, place_of, is_deprecated, reason_of, reason_in, url_of, url_in, string_of, value_if, value_of_argument};

use gql_base::{Argument, Directive, Value};
use schema_rules::{Literal, opened};

/// The place of the first directive of a name, or that behind the last where none has it.
pub fn place_of(directives: &[Directive], name: &str) -> usize
    ensures { result ≡ place_of name.now (map directive_tree directives.now) }
{
    'directives: for at in 0..directives.len() {
        if directives[at].name.text.as_str() == name {
            return at;
        }
    }
    directives.len()
}

#[tactic(auto, using(crate::proofs::Lists::gotten))]
fn directive_at<'a>(directives: &'a [Directive], place: usize) -> Option<&'a Directive>
    ensures { option_map (λ d. directive_tree d.now) result ≡ slice_get (map directive_tree directives.now) place }
{
    directives.get(place)
}

// The arguments of the directive of a place.
fn arguments_at<'a>(directives: &'a [Directive], place: usize) -> Option<&'a [Argument]>
    ensures { maybe_arguments result ≡ arguments_in (slice_get (map directive_tree directives.now) place) }
{
    match directive_at(directives, place) {
        Some(directive) => Some(directive.arguments.as_slice()),
        None => None,
    }
}

// The arguments of the first `@deprecated`, whose place is given.
fn deprecation_at<'a>(directives: &'a [Directive], place: usize) -> Option<&'a [Argument]>
    requires { place ≡ place_of (codes "deprecated") (map directive_tree directives.now) }
    ensures { maybe_arguments result ≡ arguments_of (codes "deprecated") (map directive_tree directives.now) }
{
    arguments_at(directives, place)
}

// The arguments of the first `@specifiedBy`, whose place is given.
fn specification_at<'a>(directives: &'a [Directive], place: usize) -> Option<&'a [Argument]>
    requires { place ≡ place_of (codes "specifiedBy") (map directive_tree directives.now) }
    ensures { maybe_arguments result ≡ arguments_of (codes "specifiedBy") (map directive_tree directives.now) }
{
    arguments_at(directives, place)
}

// The value of an argument, if it has this name.
#[tactic(auto, using(crate::proofs::Arguments::opened))]
fn value_if<'a>(argument: &'a Argument, name: &str) -> Option<&'a Value>
    ensures { option_map (λ v. value_tree v.now) result ≡ value_if name.now (named_value argument.now) }
{
    if argument.name.text.as_str() == name {
        Some(&argument.value)
    } else {
        None
    }
}

// The value of the first argument of a name.
fn value_of_argument<'a>(arguments: &'a [Argument], name: &str) -> Option<&'a Value>
    ensures { option_map (λ v. value_tree v.now) result ≡ value_of_argument name.now (map named_value arguments.now) }
{
    'arguments: for argument in arguments {
        if let Some(value) = value_if(argument, name) {
            return Some(value);
        }
    }
    None
}

fn string_of(value: &Value) -> Option<&str>
    ensures { maybe_name result ≡ string_of (value_tree value.now) }
{
    match opened(value) {
        Literal::Str(text) => Some(text),
        _ => None,
    }
}

/// Whether `@deprecated` stands among directives, where its place is given.
pub fn is_deprecated_at(directives: &[Directive], place: usize) -> bool
    requires { place ≡ place_of (codes "deprecated") (map directive_tree directives.now) }
    ensures { result ≡ is_deprecated (map directive_tree directives.now) }
{
    deprecation_at(directives, place).is_some()
}

/// Whether `@deprecated` stands among directives.
pub fn is_deprecated(directives: &[Directive]) -> bool
    ensures { result ≡ is_deprecated (map directive_tree directives.now) }
{
    is_deprecated_at(directives, place_of(directives, "deprecated"))
}

fn reason_in<'a>(arguments: &'a [Argument]) -> Option<&'a str>
    ensures { maybe_name result ≡ reason_in (map named_value arguments.now) }
{
    match value_of_argument(arguments, "reason") {
        Some(value) => string_of(value),
        None => Some("No longer supported"),
    }
}

/// Why a thing with these directives is deprecated, if it is and its reason is a string. The place of `@deprecated` is given.
pub fn reason_at<'a>(directives: &'a [Directive], place: usize) -> Option<&'a str>
    requires { place ≡ place_of (codes "deprecated") (map directive_tree directives.now) }
    ensures { maybe_name result ≡ reason_of (map directive_tree directives.now) }
{
    match deprecation_at(directives, place) {
        Some(arguments) => reason_in(arguments),
        None => None,
    }
}

fn url_in<'a>(arguments: &'a [Argument]) -> Option<&'a str>
    ensures { maybe_name result ≡ url_in (map named_value arguments.now) }
{
    match value_of_argument(arguments, "url") {
        Some(value) => string_of(value),
        None => None,
    }
}

/// Where a scalar with these directives is specified, if a string says it. The place of `@specifiedBy` is given.
pub fn url_at<'a>(directives: &'a [Directive], place: usize) -> Option<&'a str>
    requires { place ≡ place_of (codes "specifiedBy") (map directive_tree directives.now) }
    ensures { maybe_name result ≡ url_of (map directive_tree directives.now) }
{
    match specification_at(directives, place) {
        Some(arguments) => url_in(arguments),
        None => None,
    }
}
