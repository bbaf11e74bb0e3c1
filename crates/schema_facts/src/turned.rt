//! Lists of numbers, turned over: at each number, which of the lists hold it.

ghost use Rattle.std.specs.Prelude.{◌≡◌, ◌<◌, ℕ, OnOk, IfOk, map, length, option_copied};
ghost use Rattle.schema_facts.specs.Facts.{numbers_in};
ghost use Rattle.schema_facts.specs.Possible.{list_at, lists_with};
ghost use Rattle.schema_facts.specs.Turning.{holds, with_last, put_at, put_each, put_lists, nones};

use std::alloc::{AllocError, Global};

fn holds(found: Option<&usize>, number: usize) -> bool
    ensures { result ≡ holds number (option_copied found.entry) }
{
    match found {
        Some(other) => *other == number,
        None => false,
    }
}

// Adds a number to a list that doesn't end in it yet.
fn put_last(list: &mut Vec<usize>, number: usize) -> Result<(), AllocError>
    ensures { OnOk result (list.new.items ≡ with_last number list.old.items) }
{
    if !holds(list.last(), number) {
        list.push(number)?;
    }
    Ok(())
}

// Adds a number to the list at a place, if there is one.
fn put_at(lists: &mut Vec<Vec<usize>>, place: usize, number: usize) -> Result<(), AllocError>
    ensures { OnOk result (map numbers_in lists.new.items ≡ put_at place number (map numbers_in lists.old.items)) }
{
    match lists.get_mut(place) {
        Some(list) => put_last(list, number),
        None => Ok(()),
    }
}

// Adds a number to the lists at some places.
fn put_each(lists: &mut Vec<Vec<usize>>, places: &[usize], number: usize) -> Result<(), AllocError>
    ensures { OnOk result (map numbers_in lists.new.items ≡ put_each places.now number (map numbers_in lists.old.items)) }
{
    'places: for place in places {
        put_at(lists, *place, number)?;
    }
    Ok(())
}

fn nones(alloc: Global, count: usize) -> Result<Vec<Vec<usize>>, AllocError>
    ensures { IfOk result (λ lists. map numbers_in lists.items ≡ nones count) }
{
    let mut lists = Vec::new(alloc);
    'count: for at in 0..count {
        lists.push(Vec::new(alloc))?;
    }
    Ok(lists)
}

/// At each place up to the number of lists, the numbers of the lists that hold the place. It fails for want of memory alone.
pub fn turned(alloc: Global, lists: &[Vec<usize>]) -> Result<Vec<Vec<usize>>, AllocError>
    ensures { IfOk result (λ v. (place : ℕ) → place < length lists.now → list_at (map numbers_in v.items) place ≡ lists_with 0 place (map numbers_in lists.now)) }
{
    let mut found = nones(alloc, lists.len())?;
    'lists: for number in 0..lists.len() {
        put_each(&mut found, &lists[number], number)?;
    }
    Ok(found)
}
