//! Where the declared size of a list field comes from (IBM GraphQL Cost Directives Specification, `@listSize`).

ghost use Rattle.std.specs.Prelude.{◌≡◌, map};
ghost use Rattle.schema_model.specs.Arguments.{arg_data};
ghost use Rattle.cost_directives.specs.SizeSources.{greater_slice, greatest_slice, listed_source, size_source};
ghost use Rattle.cost_directives.specs.WeightViews.{size_rule};

use crate::entries::SizeRule;
use crate::sizes::{arg_at, slice_of};
use schema_model::Arg;

/// Where the declared size of a list field comes from.
#[derive(Clone, Copy, Debug, PartialEq, Eq)]
pub enum SizeSource {
    /// The field above hands this size down, by its `sizedFields`.
    Handed(u64),
    /// The slicing argument at this place among the field's arguments has this value, the greatest.
    Sliced(usize, i32),
    /// Its `assumedSize`.
    Assumed(i32),
    /// Any length is kept: the items are leaves that weigh nothing.
    Free,
    /// It declares none, and this is the size of such lists.
    Undeclared(u32),
}

fn greater_slice(place: usize, value: i32, other: Option<(usize, i32)>) -> (usize, i32)
    ensures { result ≡ greater_slice place value other }
{
    match other {
        Some(other) => {
            if other.1.unsigned_abs() <= value.unsigned_abs() {
                (place, value)
            } else {
                other
            }
        }
        None => (place, value),
    }
}

// The first of the slicing arguments that have the greatest value.
fn greatest_slice(places: &[usize], args: &[Arg]) -> Option<(usize, i32)>
    ensures { result ≡ greatest_slice places.now (map arg_data args.now) }
{
    let mut greatest = None;
    for at in (0..places.len()).rev() {
        if let Some(value) = slice_of(arg_at(args, places[at])) {
            greatest = Some(greater_slice(places[at], value, greatest));
        }
    }
    greatest
}

fn listed_source(rule: &SizeRule, undeclared: u32, args: &[Arg]) -> SizeSource
    ensures { result ≡ listed_source (size_rule rule.now) undeclared (map arg_data args.now) }
{
    if let Some((place, value)) = greatest_slice(&rule.slicing, args) {
        return SizeSource::Sliced(place, value);
    }
    match rule.assumed {
        Some(assumed) => SizeSource::Assumed(assumed),
        None if rule.is_free => SizeSource::Free,
        None => SizeSource::Undeclared(undeclared),
    }
}

/// Where the size by this rule comes from, where lists that declare none have the size `undeclared`. It takes no memory.
pub fn source_by(rule: &SizeRule, undeclared: u32, args: &[Arg], handed: Option<u64>) -> SizeSource
    ensures { result ≡ size_source (size_rule rule.now) undeclared (map arg_data args.now) handed }
{
    match handed {
        Some(size) => SizeSource::Handed(size),
        None => listed_source(rule, undeclared, args),
    }
}
