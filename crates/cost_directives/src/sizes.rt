//! The declared size of a list field (IBM GraphQL Cost Directives Specification, `@listSize`).

ghost use Rattle.std.specs.Prelude.{◌≡◌, map, max, length};
ghost use Rattle.std.specs.List.{list_any, filter};
ghost use Rattle.input_values.specs.values.Coerced.{coerced_tree};
ghost use Rattle.schema_model.specs.Schemas.{as_int};
ghost use Rattle.schema_model.specs.Arguments.{arg_data};
ghost use Rattle.cost_directives.specs.DeclaredSizes.{arg_at, slicing_args, is_supplied, has_value, is_given, slicing_count, int_in, maybe_int_in, slice_of, slices_of, wrong_count, negative_slice, slicing_fault, greatest_with, greatest_of, listed_size, size_with, declared_size};
ghost use Rattle.cost_directives.specs.WeightViews.{maybe_arg, size_rule};

use crate::entries::SizeRule;
use gql_base::is_int;
use input_values::{Coerced, is_null};
use schema_model::Arg;
use thiserror::Error;

/// How long a list may be.
#[derive(Clone, Copy, Debug, PartialEq, Eq)]
pub enum Size {
    /// Any length is kept: the items are leaves that weigh nothing.
    Any,
    /// At most so many items are counted.
    At(u64),
}

/// Why a field has no declared size. The faults are tested in this order.
#[derive(Clone, Copy, Debug, PartialEq, Eq, Error)]
pub enum SizeFault {
    /// Just one of the slicing arguments is wanted, and another number is given.
    #[error("{count} slicing arguments are given where one is wanted")]
    SlicingCount { count: usize },
    /// The first slicing argument, in the order of `slicingArguments`, that is negative.
    #[error("a slicing argument is {value}, which is negative")]
    NegativeSlice { value: i32 },
}

/// The argument at this place, where it is there.
pub fn arg_at(args: &[Arg], place: usize) -> Option<&Arg>
    ensures { maybe_arg result ≡ arg_at (map arg_data args.now) place }
{
    args.get(place)
}

fn is_supplied(arg: Option<&Arg>) -> bool
    ensures { result ≡ is_supplied (maybe_arg arg.entry) }
{
    match arg {
        Some(arg) => arg.supplied,
        None => false,
    }
}

fn has_value(arg: Option<&Arg>) -> bool
    ensures { result ≡ has_value (maybe_arg arg.entry) }
{
    match arg {
        Some(arg) => match &arg.value {
            Some(value) => !is_null(value),
            None => false,
        },
        None => false,
    }
}

fn is_given(arg: Option<&Arg>) -> bool
    ensures { result ≡ is_given (maybe_arg arg.entry) }
{
    if is_supplied(arg) {
        has_value(arg)
    } else {
        false
    }
}

fn as_int(number: i128) -> Option<i32>
    ensures { result ≡ as_int number }
{
    if is_int(number) {
        Some(number as i32)
    } else {
        None
    }
}

#[tactic(auto, unfolding(crate::specs::DeclaredSizes::int_in), using(crate::proofs::CoercedParts::coerced_parts))]
fn int_in(value: &Coerced) -> Option<i32>
    ensures { result ≡ int_in (coerced_tree value.now) }
{
    match value {
        Coerced::Int(number) => as_int(*number),
        Coerced::Null => None,
        Coerced::Float(_) => None,
        Coerced::Str(_) => None,
        Coerced::Bool(_) => None,
        Coerced::EnumName(_) => None,
        Coerced::List(_) => None,
        Coerced::Object(_) => None,
        Coerced::Shared(held) => int_in(held),
    }
}

/// The value by which an argument slices.
pub fn slice_of(arg: Option<&Arg>) -> Option<i32>
    ensures { result ≡ slice_of (maybe_arg arg.entry) }
{
    match arg {
        Some(arg) => match &arg.value {
            Some(value) => int_in(value),
            None => None,
        },
        None => None,
    }
}

fn any_supplied(places: &[usize], args: &[Arg]) -> bool
    ensures { result ≡ list_any is_supplied (slicing_args places.now (map arg_data args.now)) }
{
    for place in places {
        if is_supplied(arg_at(args, *place)) {
            return true;
        }
    }
    false
}

fn count_given(places: &[usize], args: &[Arg]) -> usize
    ensures { result ≡ length (filter is_given (slicing_args places.now (map arg_data args.now))) }
{
    let mut count = 0;
    for at in 0..places.len() {
        if is_given(arg_at(args, places[at])) {
            count += 1;
        }
    }
    count
}

fn count_values(places: &[usize], args: &[Arg]) -> usize
    ensures { result ≡ length (filter has_value (slicing_args places.now (map arg_data args.now))) }
{
    let mut count = 0;
    for at in 0..places.len() {
        if has_value(arg_at(args, places[at])) {
            count += 1;
        }
    }
    count
}

fn slicing_count(places: &[usize], args: &[Arg]) -> usize
    ensures { result ≡ slicing_count (slicing_args places.now (map arg_data args.now)) }
{
    if any_supplied(places, args) {
        count_given(places, args)
    } else {
        count_values(places, args)
    }
}

fn wrong_count(rule: &SizeRule, args: &[Arg]) -> Option<SizeFault>
    ensures { result ≡ wrong_count (size_rule rule.now) (slicing_args rule.now.slicing.items (map arg_data args.now)) }
{
    if !rule.require_one || rule.slicing.is_empty() {
        return None;
    }
    let count = slicing_count(&rule.slicing, args);
    if count == 1 {
        None
    } else {
        Some(SizeFault::SlicingCount { count })
    }
}

// The first slicing value that is negative.
fn negative_slice(places: &[usize], args: &[Arg]) -> Option<SizeFault>
    ensures { result ≡ negative_slice (slicing_args places.now (map arg_data args.now)) }
{
    for place in places {
        if let Some(value) = slice_of(arg_at(args, *place)) {
            if value < 0 {
                return Some(SizeFault::NegativeSlice { value });
            }
        }
    }
    None
}

fn slicing_fault(rule: &SizeRule, args: &[Arg]) -> Option<SizeFault>
    ensures { result ≡ slicing_fault (size_rule rule.now) (slicing_args rule.now.slicing.items (map arg_data args.now)) }
{
    match wrong_count(rule, args) {
        Some(fault) => Some(fault),
        None => negative_slice(&rule.slicing, args),
    }
}

fn greatest_with(number: u64, other: Option<u64>) -> Option<u64>
    ensures { result ≡ greatest_with number other }
{
    match other {
        Some(other) => Some(number.max(other)),
        None => Some(number),
    }
}

// The greatest slicing value.
fn greatest_slice(places: &[usize], args: &[Arg]) -> Option<u64>
    ensures { result ≡ greatest_of (slices_of (slicing_args places.now (map arg_data args.now))) }
{
    let mut greatest = None;
    for at in (0..places.len()).rev() {
        if let Some(slice) = slice_of(arg_at(args, places[at])) {
            greatest = greatest_with(u64::from(slice.unsigned_abs()), greatest);
        }
    }
    greatest
}

fn listed_size(rule: &SizeRule, undeclared: u32, args: &[Arg]) -> Size
    ensures { result ≡ listed_size (size_rule rule.now) undeclared (slicing_args rule.now.slicing.items (map arg_data args.now)) }
{
    if let Some(greatest) = greatest_slice(&rule.slicing, args) {
        return Size::At(greatest);
    }
    match rule.assumed {
        Some(assumed) => Size::At(u64::from(assumed.unsigned_abs())),
        None if rule.is_free => Size::Any,
        None => Size::At(u64::from(undeclared)),
    }
}

/// The size by this rule, where lists that declare none have the size `undeclared`. A size that is handed down from the field
/// above is taken before all else. It takes no memory.
pub fn size_by(
    rule: &SizeRule,
    undeclared: u32,
    args: &[Arg],
    handed: Option<u64>,
) -> Result<Size, SizeFault>
    ensures { result ≡ declared_size (size_rule rule.now) undeclared (map arg_data args.now) handed }
{
    if let Some(size) = handed {
        return Ok(Size::At(size));
    }
    if let Some(fault) = slicing_fault(rule, args) {
        return Err(fault);
    }
    Ok(listed_size(rule, undeclared, args))
}
