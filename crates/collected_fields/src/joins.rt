//! Lists of selection sets that have a number of their own.

ghost use Rattle.std.specs.Prelude.{◌≡◌, ℕ, [], ◌∷◌, ◌++◌, IsTrue, IfOk, OnOk, IfSome, Some, slice_get, flat_map};
ghost use Rattle.plan_model.specs.Repeats.{Holds, LeavesOutRepeats};
ghost use Rattle.collected_fields.specs.Lists.{lists_of_joins, sets_in_joins, IsNumberIn, HasMore, MayStandForList, MayStandForAll, StandFor, AreFor, PutsPiece};
ghost use Rattle.collected_fields.specs.Joining.{AddsEach};

use counted_work::Work;
use std::alloc::{AllocError, Global};
use std::collections::BTreeMap;
use std::hash::{DefaultHasher, FoldHasher, Hasher};
use std::mem;

/// Of fewer numbers no list is made.
pub const FEW: usize = 16;

/// All lists together hold no more numbers than this.
const ROOM: usize = 6000000;

/// A list of so many selection sets is long.
const LONG: usize = 64;

/// A piece of a list has no more selection sets than this.
const PIECE: usize = 128;

/// A piece ends behind one of so many selection sets.
const ONE_OF: u64 = 16;

/// Numbers are few for so many times as many selection sets.
const TIMES: usize = 8;

/// Lists of selection sets. The first is empty.
#[derive(Drop)]
pub struct Joins {
    /// How many selection sets there are. The numbers of lists stand behind theirs.
    pub count: usize,
    pub lists: Vec<Vec<usize>>,
    /// Where a list with such a hash stands.
    places: BTreeMap<u64, usize>,
    /// By which lists are hashed.
    begun: DefaultHasher,
    room: usize,
    /// Where selection sets stood in the list that was made last. They may stand elsewhere in the next.
    spots: Vec<usize>,
}

/// A number by which equal lists are found. Others may have the same.
fn hash_of(begun: DefaultHasher, list: &[usize]) -> u64 {
    let mut hasher = begun;
    for number in list {
        hasher.write_usize(*number);
    }
    hasher.finish()
}

/// Whether a piece of a list ends behind a selection set. That goes by the set and not by its place: what lists have in common is cut
/// alike. Nothing rests on it.
fn ends_piece(seed: u64, set: usize, length: usize) -> bool {
    let mut hasher = FoldHasher::default();
    hasher.write_u64(seed);
    hasher.write_usize(set);
    length >= PIECE || hasher.finish() % ONE_OF == 0
}

/// Whether some numbers are few for the selection sets that they stand for, of which most stand in one of them alone.
fn are_few(numbers: usize, all: usize, sets: usize) -> bool {
    numbers <= sets / TIMES && all <= sets.saturating_add(sets / TIMES)
}

/// A list to which selection sets are added once.
#[derive(Drop)]
struct Adding {
    list: Vec<usize>,
    /// For each selection set, where it stands in the list, if it stands there.
    spots: Vec<usize>,
}

impl Adding {
    /// Whether a selection set is found in the list.
    fn has(&self, set: usize) -> bool
        ensures { IsTrue result → Holds self.now.list.items set }
    {
        match self.spots.get(set) {
            Some(spot) => stands_at(self.list.as_slice(), *spot, set),
            None => false,
        }
    }

    /// Notes that a selection set comes to stand at the end of the list.
    fn note(&mut self, set: usize)
        ensures { self.new.list.items ≡ self.old.list.items }
    {
        if set < self.spots.len() {
            self.spots[set] = self.list.len();
        }
    }

    /// Adds a selection set, where it isn't found in the list.
    fn add(&mut self, set: usize) -> Result<(), AllocError>
        ensures { OnOk result (AddsEach (set ∷ []) self.old.list.items self.new.list.items) }
    {
        if self.has(set) {
            return Ok(());
        }
        self.note(set);
        self.list.push(set)?;
        Ok(())
    }

    fn add_all(&mut self, sets: &[usize]) -> Result<(), AllocError>
        ensures { OnOk result (AddsEach sets.now self.old.list.items self.new.list.items) }
    {
        for set in sets {
            self.add(*set)?;
        }
        Ok(())
    }
}

/// Whether a selection set stands at a place of a list.
fn stands_at(list: &[usize], at: usize, set: usize) -> bool
    ensures { IsTrue result → Holds list.now set }
{
    match list.get(at) {
        Some(other) => *other == set,
        None => false,
    }
}

/// So many places of lists.
fn no_spots(alloc: Global, count: usize) -> Result<Vec<usize>, AllocError> {
    let mut spots = Vec::new(alloc);
    for _at in 0..count {
        spots.push(0)?;
    }
    Ok(spots)
}

impl Joins {
    /// Lists beside so many selection sets.
    pub fn new(alloc: Global, count: usize, begun: DefaultHasher) -> Result<Joins, AllocError>
        ensures count { IfOk result (λ joins. joins.count ≡ count) }
        ensures lists { IfOk result (λ joins. lists_of_joins joins ≡ [] ∷ []) }
    {
        let mut lists = Vec::new(alloc);
        lists.push(Vec::new(alloc))?;
        Ok(Joins {
            count,
            lists,
            places: BTreeMap::new(alloc),
            begun,
            room: ROOM,
            spots: no_spots(alloc, count)?,
        })
    }

    /// The list of a number, if it is that of a list.
    pub fn list_at(&self, number: usize) -> Option<&[usize]>
        ensures there { IfSome result (λ sets. IsNumberIn self.now number) }
        ensures list { IfSome result (λ sets. sets.now ≡ sets_in_joins self.now number) }
    {
        if number < self.count {
            return None;
        }
        match self.lists.get(number - self.count) {
            Some(sets) => Some(sets.as_slice()),
            None => None,
        }
    }

    /// Adds the selection sets of a number.
    fn add(&self, number: usize, adding: &mut Adding) -> Result<(), AllocError>
        ensures { OnOk result (AddsEach (sets_in_joins self.now number) adding.old.list.items adding.new.list.items) }
    {
        if number < self.count {
            return adding.add(number);
        }
        match self.lists.get(number - self.count) {
            Some(sets) => adding.add_all(sets.as_slice()),
            None => Ok(()),
        }
    }

    /// The selection sets of these numbers, one after the other, where repeats are left out.
    fn flat(&mut self, alloc: Global, numbers: &[usize]) -> Result<Vec<usize>, AllocError>
        ensures count { self.new.count ≡ self.old.count }
        ensures lists { self.new.lists ≡ self.old.lists }
        ensures flat { IfOk result (λ list. LeavesOutRepeats (flat_map (sets_in_joins self.old) numbers.now) list.items) }
    {
        let mut adding = Adding {
            list: Vec::new(alloc),
            spots: mem::replace(&mut self.spots, Vec::new(alloc)),
        };
        for number in numbers {
            self.add(*number, &mut adding)?;
        }
        let Adding { list, spots } = adding;
        self.spots = spots;
        Ok(list)
    }

    /// The place of a list, if it is found there.
    fn place_of(&self, hash: u64, list: &[usize]) -> Option<usize>
        ensures { IfSome result (λ place. slice_get (lists_of_joins self.now) place ≡ Some list.now) }
    {
        match self.places.get(&hash).copied() {
            Some(place) => {
                match self.lists.get(place) {
                    Some(other) => {
                        if other.as_slice() == list {
                            Some(place)
                        } else {
                            None
                        }
                    }
                    None => None,
                }
            }
            None => None,
        }
    }

    /// Puts a list behind the others.
    fn push(&mut self, hash: u64, list: Vec<usize>) -> Result<(), AllocError>
        ensures count { self.new.count ≡ self.old.count }
        ensures lists { OnOk result (lists_of_joins self.new ≡ lists_of_joins self.old ++ (list.items ∷ [])) }
        ensures still { HasMore self.old self.new }
    {
        self.room = self.room.saturating_sub(list.len());
        self.places.insert(hash, self.lists.as_slice().len())?;
        self.lists.push(list)?;
        Ok(())
    }

    /// The number of a list, where one is left.
    fn number_of(&mut self, list: Vec<usize>) -> Result<Option<usize>, AllocError>
        ensures count { self.new.count ≡ self.old.count }
        ensures more { HasMore self.old self.new }
        ensures number { IfOk result (λ number. MayStandForList self.new list.items number) }
    {
        let hash = hash_of(self.begun, list.as_slice());
        match self.place_of(hash, list.as_slice()) {
            Some(place) => Ok(self.count.checked_add(place)),
            None => {
                let place = self.lists.as_slice().len();
                self.push(hash, list)?;
                Ok(self.count.checked_add(place))
            }
        }
    }

    /// One number for the selection sets of these numbers, where there is one or room for one.
    pub fn one(
        &mut self,
        alloc: Global,
        work: Work<'_>,
        numbers: &[usize],
    ) -> Result<Option<usize>, AllocError>
        ensures count { self.new.count ≡ self.old.count }
        ensures more { HasMore self.old self.new }
        ensures one { IfOk result (λ number. MayStandForAll self.old self.new numbers.now number) }
    {
        if numbers.len() == 1 {
            return Ok(Some(numbers[0]));
        }
        if self.room == 0 {
            return Ok(None);
        }
        work.take(numbers.len())?;
        work.take(self.count_all(numbers))?;
        let list = self.flat(alloc, numbers)?;
        work.take(list.len())?;
        self.number_of(list)
    }

    /// The number of a piece of a list, behind others; not where none is left.
    fn put_piece(&mut self, piece: Vec<usize>, numbers: &mut Vec<usize>) -> Result<bool, AllocError>
        ensures count { self.new.count ≡ self.old.count }
        ensures more { HasMore self.old self.new }
        ensures put { IfOk result (λ put. IsTrue put → PutsPiece self.old self.new piece.items numbers.old.items numbers.new.items) }
    {
        match self.number_of(piece)? {
            Some(number) => {
                numbers.push(number)?;
                Ok(true)
            }
            None => Ok(false),
        }
    }

    /// The numbers of the pieces of a list.
    fn pieces(&mut self, alloc: Global, list: &[usize]) -> Result<Option<Vec<usize>>, AllocError>
        ensures count { self.new.count ≡ self.old.count }
        ensures more { HasMore self.old self.new }
        ensures pieces { IfOk result (λ numbers. IfSome numbers (λ some. AreFor self.new list.now some.items)) }
    {
        let seed = self.begun.finish();
        let mut numbers = Vec::new(alloc);
        let mut piece = Vec::new(alloc);
        for set in list {
            piece.push(*set)?;
            if ends_piece(seed, *set, piece.len()) {
                let whole = mem::replace(&mut piece, Vec::new(alloc));
                if !self.put_piece(whole, &mut numbers)? {
                    return Ok(None);
                }
            }
        }
        if self.put_piece(piece, &mut numbers)? {
            Ok(Some(numbers))
        } else {
            Ok(None)
        }
    }

    /// Whether a list has a number.
    fn has_number(&self, list: &[usize]) -> bool {
        self.place_of(hash_of(self.begun, list), list).is_some()
    }

    /// The number of a list alone.
    fn whole(&mut self, alloc: Global, list: Vec<usize>) -> Result<Option<Vec<usize>>, AllocError>
        ensures count { self.new.count ≡ self.old.count }
        ensures more { HasMore self.old self.new }
        ensures whole { IfOk result (λ numbers. IfSome numbers (λ some. AreFor self.new list.items some.items)) }
    {
        match self.number_of(list)? {
            Some(number) => {
                let mut one = Vec::new(alloc);
                one.push(number)?;
                Ok(Some(one))
            }
            None => Ok(None),
        }
    }

    /// The number of a list, or those of its pieces where it is long and wasn't met before. Lists that differ in a few selection
    /// sets have most of their pieces in common.
    fn numbers_for(
        &mut self,
        alloc: Global,
        list: Vec<usize>,
    ) -> Result<Option<Vec<usize>>, AllocError>
        ensures count { self.new.count ≡ self.old.count }
        ensures more { HasMore self.old self.new }
        ensures numbers { IfOk result (λ numbers. IfSome numbers (λ some. AreFor self.new list.items some.items)) }
    {
        if list.len() < LONG || self.has_number(list.as_slice()) {
            return self.whole(alloc, list);
        }
        let pieces = self.pieces(alloc, list.as_slice())?;
        self.number_of(list)?;
        Ok(pieces)
    }

    /// How many selection sets these numbers stand for, each counted wherever it stands.
    fn count_all(&self, numbers: &[usize]) -> usize {
        let mut all: usize = 0;
        for number in numbers {
            let sets = match self.list_at(*number) {
                Some(list) => list.len(),
                None => 1,
            };
            all = all.saturating_add(sets);
        }
        all
    }

    /// The selection sets of these numbers by few numbers, where there is room.
    pub fn few(
        &mut self,
        alloc: Global,
        work: Work<'_>,
        numbers: Vec<usize>,
    ) -> Result<Vec<usize>, AllocError>
        ensures count { self.new.count ≡ self.old.count }
        ensures more { HasMore self.old self.new }
        ensures few { IfOk result (λ few. StandFor self.old self.new numbers.items few.items) }
    {
        if numbers.len() < FEW || self.room == 0 {
            return Ok(numbers);
        }
        work.take(numbers.len())?;
        let all = self.count_all(numbers.as_slice());
        work.take(all)?;
        let list = self.flat(alloc, numbers.as_slice())?;
        work.take(list.len())?;
        if are_few(numbers.len(), all, list.len()) {
            return Ok(numbers);
        }
        match self.numbers_for(alloc, list)? {
            Some(few) => Ok(few),
            None => Ok(numbers),
        }
    }
}
