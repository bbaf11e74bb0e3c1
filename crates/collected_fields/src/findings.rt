//! What selection sets, and lists of them, come to for types of objects, where it is kept.

ghost use Rattle.std.specs.Prelude.{◌≡◌, ℕ, None, get_or, false, option_map, map};
ghost use Rattle.collected_fields.specs.Walks.{numbered, numbered_group, found_in, known_for, KeepsOne};

use crate::collected::Collected;
use input_values::TypeId;
use std::alloc::{AllocError, Global};
use std::collections::BTreeMap;

/// So many fields and entries together are kept at most.
const ROOM: usize = 1000000;

/// The fields to which selection sets come, without those that change nothing, by the numbers of the sets and of the types.
#[derive(Drop)]
pub struct Findings<'a> {
    /// Of which numbers something is kept.
    pub known: Vec<bool>,
    pub fields: BTreeMap<(usize, usize), Vec<Collected<'a>>>,
    room: usize,
}

impl<'a> Findings<'a> {
    pub fn new(alloc: Global) -> Findings<'a>
        ensures { (T number : ℕ) → found_in result T number ≡ None }
    {
        Findings {
            known: Vec::new(alloc),
            fields: BTreeMap::new(alloc),
            room: ROOM,
        }
    }

    fn is_known(&self, number: usize) -> bool
        ensures { result ≡ get_or self.now.known.items number false }
    {
        match self.known.get(number) {
            Some(known) => *known,
            None => false,
        }
    }

    /// What is kept for the number of a selection set or a list, and a type.
    pub fn of(&self, number: usize, of: TypeId) -> Option<&[Collected<'a>]>
        ensures { option_map (λ fields. map numbered fields.now) result ≡ known_for self.now of.number number }
    {
        if !self.is_known(number) {
            return None;
        }
        match self.fields.get(&(number, of.number)) {
            Some(fields) => Some(fields.as_slice()),
            None => None,
        }
    }

    fn know(&mut self, number: usize) -> Result<(), AllocError>
        ensures { self.new.fields ≡ self.old.fields }
    {
        while self.known.len() <= number {
            self.known.push(false)?;
        }
        self.known[number] = true;
        Ok(())
    }

    /// Keeps what a number comes to for a type, where there is room.
    pub fn keep(
        &mut self,
        number: usize,
        of: TypeId,
        fields: Vec<Collected<'a>>,
    ) -> Result<(), AllocError>
        ensures { KeepsOne self.old self.new of.number number (numbered_group fields.entry) }
    {
        let size = fields.len().saturating_add(1);
        if self.room < size {
            return Ok(());
        }
        self.room -= size;
        self.fields.insert((number, of.number), fields)?;
        self.know(number)
    }
}
