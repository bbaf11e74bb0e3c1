//! What is told of a schema.

ghost use Rattle.std.specs.Prelude.{◌≡◌, ◌++◌, IfOk, OnOk, length, codes};
ghost use Rattle.std.specs.Fmt.{decimal};
ghost use Rattle.schema_model.specs.SchemaViews.{schema_data};
ghost use Rattle.cost_directives.specs.WeightViews.{weights_data};
ghost use Rattle.schema_surprises.specs.Surprises.{is_own_scalar, own_scalars, group_text, counts_told, found_told, report_text, places_of};

use crate::fields::places_of;
use crate::surprise::Surprise;
use cost_directives::Weights;
use gql_base::Text;
use input_values::TypeId;
use schema_model::Schema;
use std::alloc::{AllocError, Global};

// The places of fields by their surprise, and the names of scalars.
#[derive(Drop)]
struct Found {
    unsized_lists: Vec<Text>,
    unsliced: Vec<Text>,
    must_slice: Vec<Text>,
    inherited: Vec<Text>,
    scalars: Vec<Text>,
}

// Whether a type is a scalar whose numbers are whole.
fn is_own_scalar(schema: &Schema, of: TypeId) -> bool
    ensures { result ≡ is_own_scalar (schema_data schema.now) of.number }
{
    schema.kind(of).is_scalar() && !schema.is_lax(of)
}

// The names of the scalars that the text defines, but for those that may hold numbers that aren't whole.
fn own_scalars(alloc: Global, schema: &Schema) -> Result<Vec<Text>, AllocError>
    ensures { IfOk result (λ names. names.items ≡ own_scalars (schema_data schema.now)) }
{
    let mut names = Vec::new(alloc);
    let (types, _) = schema.counts();
    for number in 0..types {
        let of = TypeId { number };
        if is_own_scalar(schema, of) {
            names.push(Text::copy_of(alloc, schema.type_name(of).as_str())?)?;
        }
    }
    Ok(names)
}

fn found_in(alloc: Global, schema: &Schema, weights: &Weights) -> Result<Found, AllocError>
    ensures lists { IfOk result (λ f. f.unsized_lists.items ≡ places_of Surprise.Unsized (schema_data schema.now) (weights_data weights.now)) }
    ensures unsliced { IfOk result (λ f. f.unsliced.items ≡ places_of Surprise.Unsliced (schema_data schema.now) (weights_data weights.now)) }
    ensures must_slice { IfOk result (λ f. f.must_slice.items ≡ places_of Surprise.MustSlice (schema_data schema.now) (weights_data weights.now)) }
    ensures inherited { IfOk result (λ f. f.inherited.items ≡ places_of Surprise.Inherited (schema_data schema.now) (weights_data weights.now)) }
    ensures scalars { IfOk result (λ f. f.scalars.items ≡ own_scalars (schema_data schema.now)) }
{
    Ok(Found {
        unsized_lists: places_of(alloc, Surprise::Unsized, schema, weights)?,
        unsliced: places_of(alloc, Surprise::Unsliced, schema, weights)?,
        must_slice: places_of(alloc, Surprise::MustSlice, schema, weights)?,
        inherited: places_of(alloc, Surprise::Inherited, schema, weights)?,
        scalars: own_scalars(alloc, schema)?,
    })
}

// A sentence, and the names of which it holds; nothing where there are none.
fn push_group(sentence: &[u8], names: &[Text], into: &mut Vec<u8>) -> Result<(), AllocError>
    ensures { OnOk result (into.new.items ≡ into.old.items ++ group_text sentence.now names.now) }
{
    if names.is_empty() {
        return Ok(());
    }
    into.extend_from_slice(sentence)?;
    into.push(b'\n')?;
    for name in names {
        into.extend_from_slice(b"  ")?;
        into.extend_from_slice(name.as_bytes())?;
        into.push(b'\n')?;
    }
    Ok(())
}

// A sentence with the size of lists that declare none, and the names.
fn push_sized(
    alloc: Global,
    sentence: &str,
    usual: u32,
    names: &[Text],
    into: &mut Vec<u8>,
) -> Result<(), AllocError>
    ensures { OnOk result (into.new.items ≡ into.old.items ++ group_text (sentence.now ++ (decimal usual ++ codes " items:")) names.now) }
{
    let told = format!(in alloc; "{sentence}{usual} items:")?;
    push_group(told.as_bytes(), names, into)
}

// How many types and fields there are.
fn push_size(alloc: Global, schema: &Schema, into: &mut Vec<u8>) -> Result<(), AllocError>
    ensures { OnOk result (into.new.items ≡ into.old.items ++ counts_told (schema_data schema.now).defined (length (schema_data schema.now).fields)) }
{
    let (types, fields) = schema.counts();
    let told = format!(in alloc; "types {types} fields {fields}")?;
    into.extend_from_slice(told.as_bytes())
}

// How many surprises of each kind there are.
fn push_found(alloc: Global, found: &Found, into: &mut Vec<u8>) -> Result<(), AllocError>
    ensures { OnOk result (into.new.items ≡ into.old.items
        ++ found_told found.now.unsized_lists.items found.now.unsliced.items found.now.must_slice.items found.now.inherited.items found.now.scalars.items) }
{
    let (a, b) = (found.unsized_lists.len(), found.unsliced.len());
    let (c, d) = (found.must_slice.len(), found.inherited.len());
    let e = found.scalars.len();
    let told = format!(in alloc;
        " unsized {a} unsliced {b} must-slice {c} inherited {d} scalars {e}"
    )?;
    into.extend_from_slice(told.as_bytes())
}

/// What surprises in a schema: a group of lines for each surprise that some field has, one for the scalars that its text defines, and how many
/// of each there are.
///
/// # Errors
///
/// `AllocError` where there was not enough memory.
pub fn report(alloc: Global, schema: &Schema, weights: &Weights) -> Result<Vec<u8>, AllocError>
    ensures { IfOk result (λ text. text.items ≡ report_text (schema_data schema.now) (weights_data weights.now)) }
{
    let found = found_in(alloc, schema, weights)?;
    let usual = weights.undeclared();
    let mut text = Vec::new(alloc);
    let unsized_lists =
        "These lists declare no size. Where no field above hands one down, they are taken to have ";
    push_sized(alloc, unsized_lists, usual, &found.unsized_lists, &mut text)?;
    let unsliced =
        "No argument that slices these lists has a default. Where none is given, and no field above hands a size down, they are taken to have ";
    push_sized(alloc, unsliced, usual, &found.unsliced, &mut text)?;
    let must_slice =
        b"Where no field above hands a size down, an operation has to give one of the arguments that slice these fields, since not just one of them has a default:";
    push_group(must_slice, &found.must_slice, &mut text)?;
    let inherited = b"The weight of these fields stands in an interface:";
    push_group(inherited, &found.inherited, &mut text)?;
    let scalars = b"Of these scalars no number with a fraction is taken:";
    push_group(scalars, &found.scalars, &mut text)?;
    push_size(alloc, schema, &mut text)?;
    push_found(alloc, &found, &mut text)?;
    Ok(text)
}
