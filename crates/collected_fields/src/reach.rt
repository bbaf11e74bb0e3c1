//! The types of objects for which selections may have fields.

ghost use Rattle.std.specs.Prelude.{◌≡◌, ℕ, true, false, ◌&&◌, nat_eq, map, filter, IfOk, OnOk, IsTrue};
ghost use Rattle.std.specs.List.{list_any};
ghost use Rattle.schema_model.specs.Numbers.{type_number};
ghost use Rattle.schema_model.specs.SchemaViews.{schema_data};
ghost use Rattle.schema_model.specs.SchemaData.{applies};
ghost use Rattle.collected_fields.specs.Reached.{reaches, Misses, is_marked_in, MissesMore, MissesPossible, MissesWhere};

use input_values::TypeId;
use schema_model::Schema;
use std::alloc::{AllocError, Global};

/// So many types are listed, and more are marked.
const FEW: usize = 16;

/// The types of objects for which selections may have fields.
#[derive(Drop)]
pub enum Reach {
    /// All types.
    Every,
    /// Few types that are listed, and others that are marked by their numbers.
    These(Vec<TypeId>, Vec<bool>),
}

/// Whether a type is among others.
pub fn is_among(of: TypeId, types: &[TypeId]) -> bool
    ensures { result ≡ list_any (nat_eq of.number) (map type_number types.now) }
{
    for other in types {
        if of.number == other.number {
            return true;
        }
    }
    false
}

/// Whether a type is marked.
fn is_marked_in(marks: &[bool], of: TypeId) -> bool
    ensures { result ≡ is_marked_in marks.now of.number }
{
    match marks.get(of.number) {
        Some(mark) => *mark,
        None => false,
    }
}

/// Marks a type.
fn mark(marks: &mut Vec<bool>, number: usize) -> Result<(), AllocError>
    ensures { OnOk result ((T : ℕ) → is_marked_in marks.new.items T ≡ false → (is_marked_in marks.old.items T ≡ false) × (nat_eq T number ≡ false)) }
{
    while marks.len() <= number {
        marks.push(false)?;
    }
    marks[number] = true;
    Ok(())
}

/// Marks those that others mark.
fn mark_all(marks: &mut Vec<bool>, others: &[bool]) -> Result<(), AllocError>
    ensures { OnOk result ((T : ℕ) → is_marked_in marks.new.items T ≡ false → (is_marked_in marks.old.items T ≡ false) × (is_marked_in others.now T ≡ false)) }
{
    let mut at = 0;
    while at < others.len() {
        if others[at] {
            mark(marks, at)?;
        }
        at += 1;
    }
    Ok(())
}

impl Reach {
    /// No types.
    pub fn none(alloc: Global) -> Reach
        ensures { (T : ℕ) → Misses result T }
    {
        Reach::These(Vec::new(alloc), Vec::new(alloc))
    }

    /// Whether a type is among them.
    pub fn has(&self, of: TypeId) -> bool
        ensures { result ≡ reaches self.now of.number }
    {
        match self {
            Reach::Every => true,
            Reach::These(few, marks) => {
                is_marked_in(marks.as_slice(), of) || is_among(of, few.as_slice())
            }
        }
    }

    /// Whether they are all types.
    pub fn is_every(&self) -> bool
        ensures { IsTrue result → (T : ℕ) → reaches self.now T ≡ true }
    {
        match self {
            Reach::Every => true,
            Reach::These(_, _) => false,
        }
    }

    /// How many are listed.
    pub(crate) fn listed(&self) -> usize {
        match self {
            Reach::Every => 0,
            Reach::These(few, _) => few.len(),
        }
    }

    /// How many steps it takes to add them to others, beside the few that are listed.
    pub(crate) fn steps(&self) -> usize {
        match self {
            Reach::Every => 0,
            Reach::These(_, marks) => marks.len(),
        }
    }

    /// The same where a condition applies.
    pub(crate) fn steps_where(&self, schema: &Schema, on: TypeId) -> usize {
        match self {
            Reach::Every => schema.possible(on).len(),
            Reach::These(_, marks) => {
                if marks.is_empty() {
                    0
                } else {
                    schema.possible(on).len()
                }
            }
        }
    }

    /// Adds all types.
    pub fn widen(&mut self)
        ensures { (T : ℕ) → reaches self.new T ≡ true }
    {
        *self = Reach::Every;
    }

    /// Adds a type.
    fn add(&mut self, of: TypeId) -> Result<(), AllocError>
        ensures { OnOk result (MissesMore self.old self.new (λ T. nat_eq T of.number)) }
    {
        match self {
            Reach::Every => Ok(()),
            Reach::These(few, marks) => {
                if few.len() >= FEW {
                    return mark(marks, of.number);
                }
                if !is_among(of, few.as_slice()) {
                    few.push(of)?;
                }
                Ok(())
            }
        }
    }

    /// Adds some types.
    fn add_all(&mut self, types: &[TypeId]) -> Result<(), AllocError>
        ensures { OnOk result (MissesMore self.old self.new (λ T. list_any (nat_eq T) (map type_number types.now))) }
    {
        for of in types {
            self.add(*of)?;
        }
        Ok(())
    }

    /// Adds the types that are marked.
    fn add_marked(&mut self, others: &[bool]) -> Result<(), AllocError>
        ensures { OnOk result (MissesMore self.old self.new (is_marked_in others.now)) }
    {
        match self {
            Reach::Every => Ok(()),
            Reach::These(_, marks) => mark_all(marks, others),
        }
    }

    /// Adds the types of another.
    pub fn join(&mut self, other: &Reach) -> Result<(), AllocError>
        ensures { OnOk result (MissesMore self.old self.new (reaches other.now)) }
    {
        match other {
            Reach::Every => {
                self.widen();
                Ok(())
            }
            Reach::These(few, marks) => {
                self.add_all(few.as_slice())?;
                self.add_marked(marks.as_slice())
            }
        }
    }

    /// Adds those of some types to which a condition applies.
    fn add_where(&mut self, schema: &Schema, on: TypeId, types: &[TypeId]) -> Result<(), AllocError>
        ensures { OnOk result (MissesMore self.old self.new (λ T. applies (schema_data schema.now) on.number T && list_any (nat_eq T) (map type_number types.now))) }
    {
        for of in types {
            if schema.applies(on, *of) {
                self.add(*of)?;
            }
        }
        Ok(())
    }

    /// Adds those of some types that are marked.
    fn add_those(&mut self, types: &[TypeId], marks: &[bool]) -> Result<(), AllocError>
        ensures { OnOk result (MissesMore self.old self.new (λ T. is_marked_in marks.now T && list_any (nat_eq T) (map type_number types.now))) }
    {
        for of in types {
            if is_marked_in(marks, *of) {
                self.add(*of)?;
            }
        }
        Ok(())
    }

    /// Adds all objects to which a condition applies, or all types where it is of none of the schema.
    fn add_possible(&mut self, schema: &Schema, on: TypeId) -> Result<(), AllocError>
        ensures { OnOk result (MissesPossible (schema_data schema.now) on.number self.old self.new (λ T. true)) }
    {
        let types = schema.possible(on);
        if schema.has_type(on) {
            return self.add_all(types);
        }
        self.widen();
        Ok(())
    }

    /// The same of those that are marked.
    fn add_marked_where(
        &mut self,
        schema: &Schema,
        on: TypeId,
        marks: &[bool],
    ) -> Result<(), AllocError>
        ensures { OnOk result (MissesPossible (schema_data schema.now) on.number self.old self.new (is_marked_in marks.now)) }
    {
        let types = schema.possible(on);
        if marks.is_empty() {
            return Ok(());
        }
        if schema.has_type(on) {
            return self.add_those(types, marks);
        }
        self.widen();
        Ok(())
    }

    /// Adds those types of another to which a condition applies.
    pub fn join_where(
        &mut self,
        schema: &Schema,
        on: TypeId,
        other: &Reach,
    ) -> Result<(), AllocError>
        ensures { OnOk result (MissesWhere (schema_data schema.now) on.number self.old self.new other.now) }
    {
        match other {
            Reach::Every => self.add_possible(schema, on),
            Reach::These(few, marks) => {
                self.add_where(schema, on, few.as_slice())?;
                self.add_marked_where(schema, on, marks.as_slice())
            }
        }
    }
}

/// Those of some types that are among the types of a reach.
pub fn those_among(
    alloc: Global,
    types: &[TypeId],
    reach: &Reach,
) -> Result<Vec<TypeId>, AllocError>
    ensures { IfOk result (λ some. map type_number some.items ≡ filter (reaches reach.now) (map type_number types.now)) }
{
    let mut some = Vec::new(alloc);
    for of in types {
        if reach.has(*of) {
            some.push(*of)?;
        }
    }
    Ok(some)
}
