//! The values of defaults, found in rounds: each default without a value is coerced beside those that were found, until
//! a round finds none. A round goes the other way than the one before it, so defaults that are filled one from another in
//! the order of the text take two rounds, whichever comes first.

ghost use Rattle.std.specs.Prelude.{ℕ, ◌≡◌, ◌<◌, ◌++◌, [], ◌∷◌, if◌then◌else◌, length, slice_get, option_map, Some, IfOk, OnOk, true};
ghost use Rattle.std.specs.BTreeMap.{Updates};
ghost use Rattle.std.specs.List.{Contains};
ghost use Rattle.input_values.specs.inputs.Shapes.{shape_tree};
ghost use Rattle.input_values.specs.defaults.Drafts.{draft_fields, AreFilled};
ghost use Rattle.input_values.specs.defaults.Filling.{drafts, field_draft, literal_seen, pair_cmp, table_of, filled_forms};
ghost use Rattle.input_values.specs.defaults.Rounds.{AnswersDefault, place_value, field_value, literal_value, Fills, RoundLeft};

use crate::defaults::drafts::{DraftField, DraftType};
use crate::defaults::filled::FilledTypes;
use crate::defaults::filling::{DefaultFault, coerce_default};
use crate::values::coerced::Coerced;
use std::alloc::{AllocError, Global};
use std::collections::BTreeMap;

/// The types with the values of their defaults: each is what its literal comes to beside the others. It fails for want
/// of memory alone.
pub fn fill<'a>(alloc: Global, types: Vec<DraftType<'a>>) -> Result<FilledTypes<'a>, AllocError>
    ensures { IfOk result (λ filled. AreFilled (drafts types.entry.items) (filled_forms filled)) }
{
    let mut missing = all_places(alloc, &types)?;
    let mut filled = FilledTypes {
        types,
        values: BTreeMap::new(alloc),
    };
    'rounds: loop {
        let mut still = fill_round(alloc, &mut filled, &missing)?;
        if still.len() == missing.len() {
            return Ok(filled);
        }
        still.reverse();
        missing = still;
    }
}

/// The places of all fields of input objects: the number of the type, and the place of the field.
fn all_places(alloc: Global, types: &[DraftType<'_>]) -> Result<Vec<(usize, usize)>, AllocError>
    ensures { IfOk result (λ places. (of at : ℕ) → at < length (draft_fields (drafts types.now of)) → Contains places.items (of, at)) }
{
    let mut places = Vec::new(alloc);
    'types: for of in 0..types.len() {
        push_places(&mut places, of, field_count(types, of))?;
    }
    Ok(places)
}

/// How many fields an input object has.
fn field_count(types: &[DraftType<'_>], of: usize) -> usize
    ensures { result ≡ length (draft_fields (drafts types.now of)) }
{
    match types.get(of) {
        Some(DraftType::Object(fields)) => fields.items().len(),
        Some(DraftType::Simple(_)) => 0,
        Some(DraftType::Enum(_)) => 0,
        None => 0,
    }
}

/// The places of the fields of one type.
fn push_places(places: &mut Vec<(usize, usize)>, of: usize, count: usize) -> Result<(), AllocError>
    ensures more { IfOk result (λ _. (at : ℕ) → at < count → Contains places.new.items (of, at)) }
    ensures kept { IfOk result (λ _. (o at : ℕ) → Contains places.old.items (o, at) → Contains places.new.items (o, at)) }
{
    'places: for at in 0..count {
        places.push((of, at))?;
    }
    Ok(())
}

/// One round: the places that still miss their values.
fn fill_round(
    alloc: Global,
    filled: &mut FilledTypes<'_>,
    missing: &[(usize, usize)],
) -> Result<Vec<(usize, usize)>, AllocError>
    ensures same { filled.new.types ≡ filled.old.types }
    ensures round { IfOk result (λ still. RoundLeft (drafts filled.old.types.items) (table_of filled.old.values) (table_of filled.new.values) missing.now still.items (length missing.now)) }
{
    let mut still = Vec::new(alloc);
    'missing: for n in 0..missing.len() {
        let place = missing[n];
        let done = fill_place(alloc, filled, place.0, place.1)?;
        push_unless(&mut still, place, done)?;
    }
    Ok(still)
}

/// One place more that misses its value.
fn push_unless(
    still: &mut Vec<(usize, usize)>,
    place: (usize, usize),
    done: bool,
) -> Result<(), AllocError>
    ensures { IfOk result (λ _. still.new.items ≡ if done then still.old.items else still.old.items ++ place ∷ []) }
{
    if !done {
        still.push(place)?;
    }
    Ok(())
}

/// Finds the value at a place, if there is one beside those that were found.
fn fill_place(
    alloc: Global,
    filled: &mut FilledTypes<'_>,
    of: usize,
    at: usize,
) -> Result<bool, AllocError>
    ensures same { filled.new.types ≡ filled.old.types }
    ensures fills { IfOk result (λ done. Fills (drafts filled.old.types.items) (table_of filled.old.values) (table_of filled.new.values) of at done) }
{
    if filled.values.contains_key(&(of, at)) {
        return Ok(true);
    }
    match value_at(alloc, filled, of, at) {
        Ok(value) => put(filled, of, at, value),
        Err(DefaultFault::Bad) => Ok(false),
        Err(DefaultFault::Memory) => Err(AllocError),
    }
}

/// Keeps a value that was found.
fn put(
    filled: &mut FilledTypes<'_>,
    of: usize,
    at: usize,
    value: Coerced,
) -> Result<bool, AllocError>
    ensures same { filled.new.types ≡ filled.old.types }
    ensures done { IfOk result (λ done. done ≡ true) }
    ensures updates { OnOk result (Updates pair_cmp filled.old.values filled.new.values (of, at) (Some value)) }
{
    filled.values.insert((of, at), value)?;
    Ok(true)
}

/// What the default at a place comes to, beside the values that were found.
fn value_at(
    alloc: Global,
    filled: &FilledTypes<'_>,
    of: usize,
    at: usize,
) -> Result<Coerced, DefaultFault>
    ensures { AnswersDefault result (place_value (drafts filled.now.types.items) (table_of filled.now.values) of at) }
{
    match filled.types.get(of) {
        Some(DraftType::Object(fields)) => field_value(alloc, filled, fields.items(), at),
        Some(DraftType::Simple(_)) => Err(DefaultFault::Bad),
        Some(DraftType::Enum(_)) => Err(DefaultFault::Bad),
        None => Err(DefaultFault::Bad),
    }
}

/// What the default of a field comes to.
fn field_value(
    alloc: Global,
    filled: &FilledTypes<'_>,
    fields: &[DraftField<'_>],
    at: usize,
) -> Result<Coerced, DefaultFault>
    ensures { AnswersDefault result (field_value (filled_forms filled.now) (option_map field_draft (slice_get fields.now at))) }
{
    match fields.get(at) {
        Some(field) => literal_value(alloc, filled, field),
        None => Err(DefaultFault::Bad),
    }
}

/// What the default of a field comes to; without one there is none.
fn literal_value(
    alloc: Global,
    filled: &FilledTypes<'_>,
    field: &DraftField<'_>,
) -> Result<Coerced, DefaultFault>
    ensures { AnswersDefault result (literal_value (filled_forms filled.now) (shape_tree field.now.shape) (literal_seen field.now.default)) }
{
    match field.default {
        Some(literal) => coerce_default(alloc, filled, &field.shape, literal),
        None => Err(DefaultFault::Bad),
    }
}
