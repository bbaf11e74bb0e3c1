//! Numbers of types, marked, so that one is found in one step.

ghost use Rattle.std.specs.Prelude.{◌≡◌, [], length, map, nat_eq, IfOk};
ghost use Rattle.std.specs.List.{list_any};
ghost use Rattle.schema_model.specs.Numbers.{type_number, Marks, IsMarked};

use input_values::TypeId;
use std::alloc::{AllocError, Global};

/// Whether a number is among these.
pub fn has_number(numbers: &[TypeId], wanted: usize) -> bool
    ensures { result ≡ list_any (nat_eq wanted) (map type_number numbers.now) }
{
    for number in numbers {
        if wanted == number.number {
            return true;
        }
    }
    false
}

/// Numbers of types, and a mark at each of them.
#[derive(Drop)]
pub struct Marked<'a> {
    numbers: &'a [TypeId],
    /// Some of the marks may be missing; then the numbers are looked at.
    marks: Vec<bool>,
    ghost tells: { Marks marks.items (map type_number numbers.now) },
}

impl<'a> Marked<'a> {
    /// Whether a number is among these.
    pub fn has(&self, wanted: usize) -> bool
        ensures { result ≡ list_any (nat_eq wanted) (map type_number self.now.numbers.now) }
    {
        match self.marks.get(wanted) {
            Some(mark) => *mark,
            None => has_number(self.numbers, wanted),
        }
    }
}

// So many places without a mark.
fn blanks(alloc: Global, count: usize) -> Result<Vec<bool>, AllocError>
    ensures { IfOk result (λ marks. Marks marks.items []) }
{
    let mut marks = Vec::new(alloc);
    for _ in 0..count {
        marks.push(false)?;
    }
    Ok(marks)
}

fn mark(marks: &mut Vec<bool>, at: usize)
    ensures length { length marks.new.items ≡ length marks.old.items }
    ensures marked { IsMarked marks.old.items marks.new.items at }
{
    if at < marks.len() {
        marks[at] = true;
    }
}

// The marks of the first numbers.
fn marks_of(alloc: Global, count: usize, numbers: &[TypeId]) -> Result<Vec<bool>, AllocError>
    ensures { IfOk result (λ marks. Marks marks.items (map type_number numbers.now)) }
{
    let mut marks = blanks(alloc, count)?;
    for number in numbers {
        mark(&mut marks, number.number);
    }
    Ok(marks)
}

/// Numbers, marked among so many. It fails for want of memory alone.
pub fn with_marks<'a>(
    alloc: Global,
    count: usize,
    numbers: &'a [TypeId],
) -> Result<Marked<'a>, AllocError>
    ensures { IfOk result (λ m. m.numbers.now ≡ numbers.now) }
{
    let marks = marks_of(alloc, count, numbers)?;
    Ok(Marked { numbers, marks })
}

/// So many numbers are looked through, and more are marked.
const FEW: usize = 64;

/// Types by their numbers, of which one is found in few steps.
#[derive(Drop)]
pub struct TypeList {
    pub numbers: Vec<TypeId>,
    /// Some of the marks may be missing; then the numbers are looked at.
    marks: Vec<bool>,
    ghost tells: { Marks marks.items (map type_number numbers.items) },
}

impl TypeList {
    /// Whether a number is among these.
    pub fn has(&self, wanted: usize) -> bool
        ensures { result ≡ list_any (nat_eq wanted) (map type_number self.now.numbers.items) }
    {
        match self.marks.get(wanted) {
            Some(mark) => *mark,
            None => has_number(&self.numbers, wanted),
        }
    }
}

/// Numbers that are below a count, which are marked where they are many. It fails for want of memory alone.
pub fn listed(alloc: Global, count: usize, numbers: Vec<TypeId>) -> Result<TypeList, AllocError>
    ensures { IfOk result (λ l. l.numbers.items ≡ numbers.items) }
{
    let places = if numbers.len() > FEW { count } else { 0 };
    let marks = marks_of(alloc, places, &numbers)?;
    Ok(TypeList { numbers, marks })
}
