//! Groups as they are given, and as they are kept.

ghost use Rattle.std.specs.Prelude.{◌≡◌, ◌<◌, IfOk, OnOk, map, option_map, length, All, ◌++◌};
ghost use Rattle.schema_model.specs.SchemaViews.{schema_data};
ghost use Rattle.collected_fields.specs.Views.{collected_field};
ghost use Rattle.collected_fields.specs.Walks.{numbered, numbered_group};
ghost use Rattle.collected_fields.specs.Serving.{number_alone, with_number};
ghost use Rattle.collected_fields.specs.Lists.{HasMore, Finishes, AllFinish, MayShorten, MayShortenAll};

use crate::alike::unlike_fields;
use crate::collected::{Collected, Group};
use crate::joins::{FEW, Joins};
use counted_work::Work;
use schema_model::Schema;
use std::alloc::{AllocError, Global};

/// The numbers of the selections of fields.
fn numbers_below(alloc: Global, fields: &[Collected<'_>]) -> Result<Vec<usize>, AllocError>
    ensures { IfOk result (λ numbers. numbers.items ≡ map number_alone (map numbered fields.now)) }
{
    let mut numbers = Vec::new(alloc);
    for field in fields {
        numbers.push(field.below)?;
    }
    Ok(numbers)
}

/// The group of these fields.
fn finish_one<'a>(
    alloc: Global,
    schema: &Schema,
    work: Work<'_>,
    fields: &[Collected<'a>],
    joins: &mut Joins,
) -> Result<Group<'a>, AllocError>
    ensures count { joins.new.count ≡ joins.old.count }
    ensures more { HasMore joins.old joins.new }
    ensures finishes { IfOk result (λ group. Finishes (schema_data schema.now) joins.old joins.new (map numbered fields.now) group) }
{
    let unlike = unlike_fields(alloc, schema, work, fields)?;
    let numbers = numbers_below(alloc, fields)?;
    let below = joins.few(alloc, work, numbers)?;
    Ok(Group {
        fields: unlike,
        below,
    })
}

/// The groups of the fields of each key.
pub fn finish<'a>(
    alloc: Global,
    schema: &Schema,
    work: Work<'_>,
    fields: &[Vec<Collected<'a>>],
    joins: &mut Joins,
) -> Result<Vec<Group<'a>>, AllocError>
    ensures count { joins.new.count ≡ joins.old.count }
    ensures more { HasMore joins.old joins.new }
    ensures finished { IfOk result (λ groups. AllFinish (schema_data schema.now) joins.old joins.new (map numbered_group fields.now) groups.items) }
{
    let mut groups = Vec::new(alloc);
    for of_key in fields {
        let group = finish_one(alloc, schema, work, of_key.as_slice(), joins)?;
        groups.push(group)?;
    }
    Ok(groups)
}

/// Fields, the first with a number, and the others with one that stands for nothing.
fn with_number<'a>(
    alloc: Global,
    fields: &[Collected<'a>],
    number: usize,
    nothing: usize,
) -> Result<Vec<Collected<'a>>, AllocError>
    ensures { IfOk result (λ made. map numbered made.items ≡ with_number number nothing (map collected_field fields.now)) }
{
    let mut made = Vec::new(alloc);
    let mut below = number;
    for field in fields {
        made.push(Collected {
            parent: field.parent,
            field: field.field,
            below,
            written: field.written,
        })?;
        below = nothing;
    }
    Ok(made)
}

/// Few fields that stand in the place of those of a key, where there is room for the number that this takes.
fn shortened<'a>(
    alloc: Global,
    schema: &Schema,
    work: Work<'_>,
    fields: &[Collected<'a>],
    joins: &mut Joins,
) -> Result<Option<Vec<Collected<'a>>>, AllocError>
    ensures count { joins.new.count ≡ joins.old.count }
    ensures more { HasMore joins.old joins.new }
    ensures shortened { IfOk result (λ made. MayShorten (schema_data schema.now) joins.old joins.new (map numbered fields.now) (option_map numbered_group made)) }
{
    if fields.len() < FEW {
        return Ok(Some(copied(alloc, fields)?));
    }
    let unlike = unlike_fields(alloc, schema, work, fields)?;
    let numbers = numbers_below(alloc, fields)?;
    match joins.one(alloc, work, numbers.as_slice())? {
        Some(number) => Ok(Some(with_number(alloc, unlike.as_slice(), number, joins.count)?)),
        None => Ok(None),
    }
}

fn copied<'a>(alloc: Global, fields: &[Collected<'a>]) -> Result<Vec<Collected<'a>>, AllocError>
    ensures { IfOk result (λ made. made.items ≡ fields.now) }
{
    let mut made = Vec::new(alloc);
    for field in fields {
        made.push(*field)?;
    }
    Ok(made)
}

fn append<'a>(fields: &mut Vec<Collected<'a>>, more: &[Collected<'a>]) -> Result<(), AllocError>
    ensures { OnOk result (fields.new.items ≡ fields.old.items ++ more.now) }
{
    for field in more {
        fields.push(*field)?;
    }
    Ok(())
}

/// Fields that stand in the place of those of each key, one key behind the other, where there is room and they are no more than so many.
pub fn shortened_by_key<'a>(
    alloc: Global,
    schema: &Schema,
    work: Work<'_>,
    fields: &[Vec<Collected<'a>>],
    most: usize,
    joins: &mut Joins,
) -> Result<Option<Vec<Collected<'a>>>, AllocError>
    ensures count { joins.new.count ≡ joins.old.count }
    ensures more { HasMore joins.old joins.new }
    ensures shortened { IfOk result (λ made. MayShortenAll (schema_data schema.now) joins.old joins.new (map numbered_group fields.now) (option_map numbered_group made)) }
{
    let mut all = Vec::new(alloc);
    for of_key in fields {
        match shortened(alloc, schema, work, of_key.as_slice(), joins)? {
            Some(made) => append(&mut all, made.as_slice())?,
            None => return Ok(None),
        }
    }
    if all.len() > most {
        return Ok(None);
    }
    Ok(Some(all))
}
